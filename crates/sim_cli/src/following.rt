//! Carries out a script without writing its answers.
ghost use Rattle.std.specs.Prelude.{◌≡◌, ◌<◌, ℕ, List, Some, IfErr, length};
ghost use Rattle.std.specs.Io.KnownBytes.{prepend_known};
ghost use Rattle.std.specs.Str.Lines.{lines};
ghost use Rattle.sim_world.specs.Events.{rules};
ghost use Rattle.sim_script.specs.Script.{script_line};
ghost use Rattle.sim_cli.specs.Turns.{course_of};
ghost use Rattle.sim_cli.specs.Following.{Follows, FollowsLine, StopsScript};

use crate::fault::{LineFault, fault_of_turn, tells_want};
use crate::status::Status;
use crate::stop::{LineStop, ScriptStop};
use crate::turn::turn_of;
use sim_book::Book;
use sim_lines::{Ahead, NextLine, next_line};
use sim_node::Node;
use sim_script::{Ask, Names, ScriptLine, line_of, mistake_of};
use std::alloc::Global;
use std::io::Read;

// Carries out a command. Fails if the command wants memory, or strictly, if it is refused or not
// taken.
fn follow_ask<N: Node>(
    alloc: Global,
    book: &mut Book<N>,
    names: &Names,
    ask: Ask<'_>,
    strict: bool,
) -> Result<(), LineStop>
    ensures follows { FollowsLine (rules N.laws N.PROBES book.old.scenario) names.now strict
        (course_of book.old) (course_of book.new) (ScriptLine.Asked ask.entry) result }
    ensures scenario { book.new.scenario ≡ book.old.scenario }
    ensures some { 0 < length book.old.kept → 0 < length book.new.kept }
{
    let turn = turn_of(alloc, book, ask);
    let fault = fault_of_turn(&turn);
    if tells_want(fault) {
        return Err(LineStop::MemoryWanted);
    }
    match fault {
        Some(why) => {
            if strict {
                Err(LineStop::Fault(why))
            } else {
                Ok(())
            }
        }
        None => Ok(()),
    }
}

// Carries out the command of a line. Fails if the command wants memory, or strictly, if the line is
// at fault.
fn follow_line<N: Node>(
    alloc: Global,
    book: &mut Book<N>,
    names: &Names,
    line: &[u8],
    strict: bool,
) -> Result<(), LineStop>
    ensures follows { FollowsLine (rules N.laws N.PROBES book.old.scenario) names.now strict
        (course_of book.old) (course_of book.new) (script_line names.now line.now) result }
    ensures scenario { book.new.scenario ≡ book.old.scenario }
    ensures some { 0 < length book.old.kept → 0 < length book.new.kept }
{
    match line_of(names, line) {
        ScriptLine::Nothing => Ok(()),
        ScriptLine::Bad => {
            if !strict {
                return Ok(());
            }
            match mistake_of(names, line) {
                Some(mistake) => Err(LineStop::Fault(LineFault::Bad(mistake))),
                None => unreachable!(),
            }
        }
        ScriptLine::Asked(ask) => follow_ask(alloc, book, names, ask, strict),
    }
}

/// Carries out the commands of a script on a book. Refused commands and lines that are no command
/// are skipped, or strictly, the first of them ends the script with an error. So does a command
/// that wants memory, since the run would not be the one that the script describes. A book that has
/// branches keeps at least one.
pub fn follow<N: Node, R: Read>(
    alloc: Global,
    book: &mut Book<N>,
    names: &Names,
    reader: &mut R,
    ahead: &mut Ahead,
    strict: bool,
) -> Result<(), ScriptStop>
    ensures left { (script : List ℕ) →
        prepend_known ahead.old.bytes (R.remaining reader.old) ≡ Some script →
        Follows (rules N.laws N.PROBES book.old.scenario) names.now strict
        (course_of book.old) (course_of book.new) (lines script) result }
    ensures stops { IfErr result StopsScript }
    ensures scenario { book.new.scenario ≡ book.old.scenario }
    ensures some { 0 < length book.old.kept → 0 < length book.new.kept }
{
    let mut line = Vec::new(alloc);
    let mut number: u64 = 0;
    loop {
        number = number.saturating_add(1);
        match next_line(reader, ahead, &mut line) {
            NextLine::Line => match follow_line(alloc, book, names, line.as_slice(), strict) {
                Ok(()) => {}
                Err(why) => return Err(why.at(number, line)),
            },
            NextLine::Last => match follow_line(alloc, book, names, line.as_slice(), strict) {
                Ok(()) => return Ok(()),
                Err(why) => return Err(why.at(number, line)),
            },
            NextLine::End => return Ok(()),
            NextLine::Failed => return Err(ScriptStop::Ended(Status::ReaderFailed)),
            NextLine::NoMemory => return Err(ScriptStop::Ended(Status::MemoryWanted)),
        }
    }
}
