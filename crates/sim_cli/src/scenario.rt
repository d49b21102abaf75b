//! The scenario of a play.
ghost use Rattle.std.specs.Prelude.{◌≤◌, length};
ghost use Rattle.sim_cli.specs.Reads.{Reads, KeepsLimits, TellsFault};

use sim_scenario::{Protocols, ScenarioText};
use std::alloc::Global;

/// The longest text of a scenario (bytes).
pub const MAX_TEXT: usize = 65_536;

/// A scenario that was read, or the reason why there is none.
#[derive(Drop)]
pub(crate) enum WasRead {
    Scenario(ScenarioText),
    /// The line of the fault.
    Fault(String),
    NoMemory,
}

/// Returns the line of a fault of a scenario.
fn tell_fault(alloc: Global, number: u8, key: &str) -> WasRead
    ensures { TellsFault (record { number = number; key = key.now }) result }
{
    match format!(in alloc; "scenario fault {number} {key}\n") {
        Ok(line) => WasRead::Fault(line),
        Err(_) => WasRead::NoMemory,
    }
}

/// Reads the bytes of a scenario's text, which may name any of these protocols.
pub(crate) fn read_scenario<P: Protocols>(alloc: Global, bytes: &[u8]) -> WasRead
    requires few { length P.listed ≤ 255 }
    ensures reads { Reads P.listed bytes.now result }
    ensures within { KeepsLimits P.listed result }
{
    if bytes.len() > MAX_TEXT {
        return tell_fault(alloc, 1, "text");
    }
    let Ok(text) = str::from_utf8(bytes) else {
        return tell_fault(alloc, 2, "text");
    };
    match sim_scenario::read::<P>(alloc, text) {
        Ok(scenario) => WasRead::Scenario(scenario),
        Err(fault) => {
            // Want of memory is no fault of the text, and has number 0.
            let number = fault.number();
            if number == 0 {
                WasRead::NoMemory
            } else {
                tell_fault(alloc, number, fault.key())
            }
        }
    }
}
