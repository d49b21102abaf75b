//! An event as the words of its script line.
ghost use Rattle.std.specs.Prelude.{◌≡◌, IfOk, Some};
ghost use Rattle.serde_json.specs.View.{view};
ghost use Rattle.sim_answers.specs.Trace.{fault_words, event_words, event_value as value_of};

use serde_json::Value;
use sim_script::Names;
use sim_world::{Event, Fault};
use std::alloc::{AllocError, Global};
use std::fmt;

/// Shows an event, with the names of the hosts.
#[derive(Clone, Copy)]
struct ShownEvent<'a> {
    names: &'a Names,
    event: Event,
}

impl fmt::Display for ShownEvent<'_> {
    ghost output = { λ s. Some (event_words s.names.now s.event) };

    fn fmt<W: fmt::Write>(&self, f: &mut fmt::Formatter<W>) -> fmt::Result {
        match self.event {
            Event::Step => write!(f, "step"),
            Event::Advance(to) => write!(f, "advance {to}"),
            Event::Fault(fault) => {
                let shown = ShownFault {
                    names: self.names,
                    fault,
                };
                write!(f, "{shown}")
            }
        }
    }
}

/// Shows a fault, with the names of the hosts.
#[derive(Clone, Copy)]
struct ShownFault<'a> {
    names: &'a Names,
    fault: Fault,
}

impl fmt::Display for ShownFault<'_> {
    ghost output = { λ s. Some (fault_words s.names.now s.fault) };

    fn fmt<W: fmt::Write>(&self, f: &mut fmt::Formatter<W>) -> fmt::Result {
        let (word, a, b) = match self.fault {
            Fault::Crash(host) => {
                let host = self.names.host_name(host);
                return write!(f, "crash {host}");
            }
            Fault::Bounce(host) => {
                let host = self.names.host_name(host);
                return write!(f, "bounce {host}");
            }
            Fault::Hold(a, b) => ("hold", a, b),
            Fault::Release(a, b) => ("release", a, b),
            Fault::Cut(a, b) => ("partition", a, b),
            Fault::CutOneway(a, b) => ("cutoneway", a, b),
            Fault::Repair(a, b) => ("repair", a, b),
            Fault::RepairOneway(a, b) => ("repaironeway", a, b),
        };
        let a = self.names.host_name(a);
        let b = self.names.host_name(b);
        write!(f, "{word} {a} {b}")
    }
}

/// Returns an event as a JSON string.
pub fn event_value(alloc: Global, names: &Names, event: Event) -> Result<Value, AllocError>
    ensures { IfOk result (λ v. view v ≡ value_of names.now event) }
{
    let shown = ShownEvent { names, event };
    Ok(Value::String(format!(in alloc; "{shown}")?))
}
