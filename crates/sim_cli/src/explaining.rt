//! Explains the fault of a scenario on standard error.
ghost use Rattle.std.specs.Prelude.{◌≤◌, length};

use crate::scenario::MAX_TEXT;
use crate::subjects::Subjects;
use sim_explain::{Explanation, KnownProtocol};
use sim_scenario::{Protocols, ScenarioFault, read};
use std::alloc::{AllocError, Global};

/// The most protocols of a list.
const MAX_PROTOCOLS: usize = 255;

// Returns the protocols of a list, in the order of their places. Fails only for want of memory.
fn known_protocols<L: Subjects>(alloc: Global) -> Result<Vec<KnownProtocol<'static>>, AllocError> {
    let mut known = Vec::new(alloc);
    for place in 0..MAX_PROTOCOLS {
        let Some(name) = L::protocol_name(place) else {
            break;
        };
        let least_servers = L::least_servers(place);
        known.push(KnownProtocol {
            name,
            least_servers,
        })?;
    }
    Ok(known)
}

// Returns the fault of a text, or `None` if it has none or memory is wanted.
fn fault_of<P: Protocols>(alloc: Global, bytes: &[u8]) -> Option<ScenarioFault>
    requires few { length P.listed ≤ 255 }
{
    if bytes.len() > MAX_TEXT {
        return Some(ScenarioFault::TooLong);
    }
    let Ok(text) = str::from_utf8(bytes) else {
        return Some(ScenarioFault::NotToml);
    };
    match read::<P>(alloc, text) {
        Ok(_) | Err(ScenarioFault::NoMemory) => None,
        Err(fault) => Some(fault),
    }
}

/// Explains on standard error why a text is no scenario that names one of the subjects: what was
/// found, and what is allowed. Reads the text again for that. If memory is wanted, it explains
/// less, or nothing. A failure of standard error is ignored.
pub fn explain_fault<L: Subjects, H: Eprint>(host: &H, alloc: Global, bytes: &[u8])
    requires few { length L.listed ≤ 255 }
{
    let Some(fault) = fault_of::<L>(alloc, bytes) else {
        return;
    };
    let Ok(protocols) = known_protocols::<L>(alloc) else {
        return;
    };
    let why = Explanation::new(alloc, bytes, &fault, protocols.as_slice());
    let _told = eprintln!(host; "scenario: {why}");
}
