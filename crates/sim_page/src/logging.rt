//! The log of the run that a script leaves.
ghost use Rattle.std.specs.Prelude.{◌≡◌, ◌≤◌, ℕ, List, Some, length};
ghost use Rattle.sim_cli.specs.Play.{Ended};
ghost use Rattle.sim_cli.specs.Subjects.{nodes_by};
ghost use Rattle.sim_export.specs.Exports.{WritesFor, Written};
ghost use Rattle.sim_page.specs.Logs.{log_right};

use crate::log::{LogRange, log_of};
use sim_cli::{FreshMeter, Opened, ScriptStop, Status, Subjects, Task, open, played, tell_fault};
use sim_export::{Export, write_export};
use sim_lines::Ahead;
use sim_node::Node;
use std::alloc::Global;
use std::fmt::Debug;
use std::io::{Read, Write};

// The task to write the log of a script's run, in the scenario with this text.
#[derive(Drop)]
struct Logging<'a, H: Eprint> {
    alloc: Global,
    host: &'a H,
    text: &'a [u8],
    range: LogRange,
}

impl<'a, H: Eprint> Task for Logging<'a, H> {
    ghost can = { λ _. Unit {0} };

    ghost does = { λ task r names old new ended.
        WritesFor (log_right task.range) task.text.now r names old new ended };

    fn carry_out<N: Node<Meter: FreshMeter> + Send + Sync + Debug, R: Read, W: Write>(
        &self,
        opened: &Opened,
        reader: &mut R,
        ahead: &mut Ahead,
        writer: &mut W,
    ) -> Status
    where
        N::Msg: Send + Sync + Debug,
        N::Undo: Send + Sync,
    {
        let (scenario, names) = (&opened.scenario, &opened.names);
        let run = match played::<N, R>(self.alloc, scenario, names, reader, ahead, true) {
            Ok(run) => run,
            Err(ScriptStop::Ended(status)) => return status,
            Err(ScriptStop::Fault(fault)) => {
                tell_fault(self.host, opened, &fault);
                return write_export(writer, &Export::BadScript);
            }
        };
        self.range.report(self.host, run.events().len());
        match log_of::<N>(self.alloc, names, &run, self.range) {
            Ok(export) => write_export(writer, &export),
            Err(_) => Status::MemoryWanted,
        }
    }
}

/// Plays a script without writing its answers. Then writes a line for each kept event of its first
/// branch that is in the range: in words, or as a JSON object with its place, the clock after it,
/// and its rows.
///
/// Writes `bad range` with status 2 if the range is out of order or the run lacks an event of it;
/// standard error says how many events the run has.
/// If a line of the script is no command, or its command is refused or not taken, reports that on
/// standard error and writes nothing, with status 2. If the reader fails or memory is wanted,
/// writes nothing either. Takes at most 255 subjects.
pub fn write_log<L: Subjects, H: Eprint, R: Read, W: Write>(
    host: &H,
    alloc: Global,
    range: LogRange,
    reader: &mut R,
    writer: &mut W,
) -> Status
    requires few { length L.listed ≤ 255 }
    ensures { (given : List ℕ) → R.remaining reader.old ≡ Some given →
        Ended (W.contents writer.old) (W.contents writer.new)
        (Written (log_right range) L.listed (nodes_by L.nodes) given result) }
{
    let mut ahead = Ahead::new();
    match open::<L, H, R, W>(host, alloc, reader, &mut ahead, writer) {
        Ok(opened) => {
            let text = opened.text.as_slice();
            let task = Logging {
                alloc,
                host,
                text,
                range,
            };
            L::carry_out(opened.protocol, &task, &opened, reader, &mut ahead, writer)
        }
        Err(status) => status,
    }
}
