//! Hunts in the runs of a scenario that names one of a list of protocols, and writes the answer.
ghost use Rattle.std.specs.Prelude.{◌≡◌, ◌<◌, ◌≤◌, ℕ, List, Some, IfOk, IfErr, length};
ghost use Rattle.std.specs.Io.KnownBytes.{prepend_known};
ghost use Rattle.sim_cli.specs.Play.{Ended};
ghost use Rattle.sim_cli.specs.Subjects.{nodes_by};
ghost use Rattle.sim_cli.specs.Statuses.{Stops};
ghost use Rattle.sim_hunt.specs.Hunts.{IsTeam, hunt_answer};
ghost use Rattle.sim_hunt.specs.Outcomes.{Hunted, WritesAnswer, WritesOutcome};

use crate::Status;
use crate::answer::{Answer, Form, line_of};
use crate::hunting::{Hunt, hunt_nodes};
use crate::reasons::report_answer;
use crate::searchable::Searchable;
use sim_cli::{Answered, Opened, Subject, open, write_text};
use sim_lines::Ahead;
use std::alloc::Global;
use std::io::{Read, Write};
use std::rt::Clock;
use std::sync::Wait;
use std::thread::Threads;

// Hunts over the nodes of the scenario's protocol.
fn hunt_protocol<L: Searchable, H: Threads + Wait + Sync + Clock + Eprint, R: Read>(
    rt: &H,
    alloc: Global,
    opened: &Opened,
    hunt: &Hunt<'_>,
    reader: &mut R,
    ahead: &mut Ahead,
) -> Result<Answer, Status>
    requires team { IsTeam hunt.now.team.workers }
    requires few { length L.listed ≤ 8 }
    requires known { opened.now.protocol < length L.listed }
    ensures answer { (script : List ℕ) →
        prepend_known ahead.old.bytes (R.remaining reader.old) ≡ Some script →
        IfOk result (λ a. a ≡ hunt_answer
        (L.nodes opened.now.protocol opened.now.scenario).rules
        opened.now.names hunt.now.area hunt.now.cond.now script) }
    ensures stops { IfErr result Stops }
{
    let place = opened.protocol;
    if place == 0 {
        hunt_nodes::<<L::Subject0 as Subject>::Node, H, R>(rt, alloc, opened, hunt, reader, ahead)
    } else if place == 1 {
        hunt_nodes::<<L::Subject1 as Subject>::Node, H, R>(rt, alloc, opened, hunt, reader, ahead)
    } else if place == 2 {
        hunt_nodes::<<L::Subject2 as Subject>::Node, H, R>(rt, alloc, opened, hunt, reader, ahead)
    } else if place == 3 {
        hunt_nodes::<<L::Subject3 as Subject>::Node, H, R>(rt, alloc, opened, hunt, reader, ahead)
    } else if place == 4 {
        hunt_nodes::<<L::Subject4 as Subject>::Node, H, R>(rt, alloc, opened, hunt, reader, ahead)
    } else if place == 5 {
        hunt_nodes::<<L::Subject5 as Subject>::Node, H, R>(rt, alloc, opened, hunt, reader, ahead)
    } else if place == 6 {
        hunt_nodes::<<L::Subject6 as Subject>::Node, H, R>(rt, alloc, opened, hunt, reader, ahead)
    } else {
        hunt_nodes::<<L::Subject7 as Subject>::Node, H, R>(rt, alloc, opened, hunt, reader, ahead)
    }
}

// Writes a line and flushes the writer. Returns this status, unless the writer fails.
fn end_with<W: Write>(writer: &mut W, line: &[u8], status: Status) -> Status
    ensures { WritesOutcome (W.contents writer.old) (W.contents writer.new)
        (record { status = status; line = line.now }) result }
{
    match write_text(writer, line) {
        Answered::Well => status,
        Answered::WriterFailed => Status::WriterFailed,
        Answered::MemoryWanted => Status::MemoryWanted,
    }
}

// Writes the line of an answer, or nothing if a line of the script is at fault.
fn write_answer<W: Write>(alloc: Global, writer: &mut W, form: Form, answer: Answer) -> Status
    ensures { WritesAnswer (W.contents writer.old) (W.contents writer.new) form answer result }
{
    if let Answer::BadScript = answer {
        return end_with(writer, b"", Status::BadRequest);
    }
    match line_of(alloc, form, answer) {
        Ok(line) => end_with(writer, line.as_bytes(), answer.status()),
        Err(_) => Status::MemoryWanted,
    }
}

/// Reads a scenario, and hunts in its runs, with 1 to 16 workers, over the protocols of a list.
/// Writes one line: the result, or why the request was refused. A fault of the scenario is reported
/// first, then words that are no condition, then a bad range, and last a host or probe of the
/// condition that the scenario does not have. Writes nothing if a line of a strict script is at
/// fault, if the reader fails or if memory is wanted; if the writer fails, a beginning of the line.
///
/// Returns the status: `Well` with a result or none, `BadScenario` for a fault of the scenario,
/// `BadRequest` for a refused request or a strict script at fault, otherwise what failed. Standard
/// error says why a request was refused, and the progress, if asked for.
pub fn hunt_scenario<L: Searchable, H: Threads + Wait + Sync + Clock + Eprint, R: Read, W: Write>(
    rt: &H,
    alloc: Global,
    hunt: &Hunt<'_>,
    form: Form,
    reader: &mut R,
    writer: &mut W,
) -> Status
    requires team { IsTeam hunt.now.team.workers }
    requires few { length L.listed ≤ 8 }
    ensures { (given : List ℕ) → R.remaining reader.old ≡ Some given →
        Ended (W.contents writer.old) (W.contents writer.new)
        (Hunted L.listed (nodes_by L.nodes) form hunt.now.area hunt.now.cond.now given result) }
{
    let mut ahead = Ahead::new();
    let opened = match open::<L, H, R, W>(rt, alloc, reader, &mut ahead, writer) {
        Ok(opened) => opened,
        Err(status) => return status,
    };
    match hunt_protocol::<L, H, R>(rt, alloc, &opened, hunt, reader, &mut ahead) {
        Ok(answer) => {
            report_answer(rt, alloc, &opened, hunt, answer);
            write_answer(alloc, writer, form, answer)
        }
        Err(status) => status,
    }
}
