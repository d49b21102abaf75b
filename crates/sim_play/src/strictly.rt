//! A strict play: it ends with the answer to the first line of its script that is at fault.
ghost use Rattle.std.specs.Prelude.{◌≡◌, ◌≤◌, ℕ, List, Some, length};
ghost use Rattle.std.specs.Io.KnownBytes.{prepend_known};
ghost use Rattle.sim_lines.specs.Waiting.{CountsReads};
ghost use Rattle.sim_world.specs.Events.{rules};
ghost use Rattle.sim_script.specs.Script.{script_line};
ghost use Rattle.sim_cli.specs.Turns.{course_of};
ghost use Rattle.sim_cli.specs.Play.{Ended, IsWithinReads};
ghost use Rattle.sim_cli.specs.Subjects.{nodes_by};
ghost use Rattle.sim_cli.specs.Strict.{PlayedStrictly, PlaysScriptStrictly, StrictlyEnds};
ghost use Rattle.sim_play.specs.Halting.{AnswersStrictly, Halts};

use crate::answering::{finish, flush_before_read};
use sim_book::Book;
use sim_cli::{
    LineFault, Opened, ScriptFault, Status, Subjects, Task, fault_of_turn, open, tell_fault,
    tells_want, turn_of,
};
use sim_lines::{Ahead, NextLine, Outlet, next_line};
use sim_node::Node;
use sim_replies::tell_turn;
use sim_script::{Ask, Names, ScriptLine, line_of, mistake_of};
use sim_tally::FreshMeter;
use std::alloc::Global;
use std::fmt::Debug;
use std::io::{Read, Write};

/// Why a strict play answers no more lines.
pub(crate) enum Halt {
    /// The line that was just answered is at fault.
    Fault(LineFault),
    WriterFailed,
    /// Memory was wanted for a command or its answer.
    MemoryWanted,
}

/// Answers a command by a turn of the book. If the turn wants memory, hands nothing over.
fn answer_asked<N: Node, W: Write>(
    alloc: Global,
    book: &mut Book<N>,
    names: &Names,
    ask: Ask<'_>,
    text: &mut Vec<u8>,
    outlet: &mut Outlet,
    writer: &mut W,
) -> Result<(), Halt>
    ensures answers { AnswersStrictly (rules N.laws N.PROBES book.old.scenario) names.now
        (course_of book.old) (course_of book.new) (ScriptLine.Asked ask.entry)
        (W.contents writer.old) (W.contents writer.new) outlet.old outlet.new result }
    ensures scenario { book.new.scenario ≡ book.old.scenario }
{
    let turn = turn_of(alloc, book, ask);
    let fault = fault_of_turn(&turn);
    if tells_want(fault) {
        return Err(Halt::MemoryWanted);
    }
    match tell_turn(alloc, text, names, &turn) {
        Ok(()) => {}
        Err(_) => return Err(Halt::MemoryWanted),
    }
    match outlet.hand_over(writer, text.as_slice()) {
        Ok(()) => {}
        Err(_) => return Err(Halt::WriterFailed),
    }
    match fault {
        Some(why) => Err(Halt::Fault(why)),
        None => Ok(()),
    }
}

/// Answers a line of a script. `text` is a buffer for the answer.
fn answer_strictly<N: Node, W: Write>(
    alloc: Global,
    book: &mut Book<N>,
    names: &Names,
    line: &[u8],
    text: &mut Vec<u8>,
    outlet: &mut Outlet,
    writer: &mut W,
) -> Result<(), Halt>
    ensures answers { AnswersStrictly (rules N.laws N.PROBES book.old.scenario) names.now
        (course_of book.old) (course_of book.new) (script_line names.now line.now)
        (W.contents writer.old) (W.contents writer.new) outlet.old outlet.new result }
    ensures scenario { book.new.scenario ≡ book.old.scenario }
{
    match line_of(names, line) {
        ScriptLine::Nothing => Ok(()),
        ScriptLine::Bad => {
            let Some(mistake) = mistake_of(names, line) else {
                unreachable!()
            };
            match outlet.hand_over(writer, b"bad line\n") {
                Ok(()) => Err(Halt::Fault(LineFault::Bad(mistake))),
                Err(_) => Err(Halt::WriterFailed),
            }
        }
        ScriptLine::Asked(ask) => answer_asked(alloc, book, names, ask, text, outlet, writer),
    }
}

/// Ends a strict play after the line with this number and this text.
fn end_at<W: Write>(
    outlet: &mut Outlet,
    writer: &mut W,
    number: u64,
    text: Vec<u8>,
    why: Halt,
) -> Result<Status, ScriptFault>
    ensures { Halts (W.contents writer.old) (W.contents writer.new) outlet.old number text.items
        why result }
{
    match why {
        Halt::WriterFailed => Ok(Status::WriterFailed),
        Halt::MemoryWanted => Ok(finish(outlet, writer, Status::MemoryWanted)),
        Halt::Fault(why) => match outlet.flush(writer) {
            Ok(()) => Err(ScriptFault { number, text, why }),
            Err(_) => Ok(Status::WriterFailed),
        },
    }
}

/// Answers the lines of a script by turns of the book, as `answer_lines` does, up to the first line
/// that is at fault. The error is that line; its answer is the last that was written. If a command
/// wants memory, its answer is not written, and the play ends with `MemoryWanted`.
pub fn answer_lines_strictly<N: Node, R: Read, W: Write>(
    alloc: Global,
    book: &mut Book<N>,
    names: &Names,
    reader: &mut R,
    ahead: &mut Ahead,
    writer: &mut W,
) -> Result<Status, ScriptFault>
    ensures played { (script : List ℕ) →
        prepend_known ahead.old.bytes (R.remaining reader.old) ≡ Some script →
        StrictlyEnds (rules N.laws N.PROBES book.old.scenario) names.now (course_of book.old) script
        (course_of book.new) ahead.new (R.remaining reader.new)
        (W.contents writer.old) (W.contents writer.new) result }
    ensures scenario { book.new.scenario ≡ book.old.scenario }
    ensures counts { CountsReads ahead.old ahead.new
        (R.remaining reader.old) (R.remaining reader.new) }
{
    let mut line = Vec::new(alloc);
    let mut text = Vec::new(alloc);
    let mut outlet = Outlet::new(alloc);
    let mut number: u64 = 0;
    loop {
        match flush_before_read(ahead, &mut outlet, writer) {
            Ok(()) => {}
            Err(_) => return Ok(Status::WriterFailed),
        }
        number = number.saturating_add(1);
        match next_line(reader, ahead, &mut line) {
            NextLine::Line => {
                let kept = line.as_slice();
                match answer_strictly(alloc, book, names, kept, &mut text, &mut outlet, writer) {
                    Ok(()) => {}
                    Err(why) => return end_at(&mut outlet, writer, number, line, why),
                }
            }
            NextLine::Last => {
                let kept = line.as_slice();
                match answer_strictly(alloc, book, names, kept, &mut text, &mut outlet, writer) {
                    Ok(()) => return Ok(finish(&mut outlet, writer, Status::Well)),
                    Err(why) => return end_at(&mut outlet, writer, number, line, why),
                }
            }
            NextLine::End => return Ok(finish(&mut outlet, writer, Status::Well)),
            NextLine::Failed => return Ok(finish(&mut outlet, writer, Status::ReaderFailed)),
            NextLine::NoMemory => return Ok(finish(&mut outlet, writer, Status::MemoryWanted)),
        }
    }
}

/// The task to play a script strictly; it reports the first line at fault on standard error.
#[derive(Drop)]
pub struct PlayingStrictly<'a, H: Eprint> {
    pub alloc: Global,
    pub host: &'a H,
}

impl<'a, H: Eprint> Task for PlayingStrictly<'a, H> {
    ghost can = { λ _. Unit {0} };

    ghost does = { λ _ r names old new ended. PlaysScriptStrictly r names old new ended };

    fn carry_out<N: Node<Meter: FreshMeter> + Send + Sync + Debug, R: Read, W: Write>(
        &self,
        opened: &Opened,
        reader: &mut R,
        ahead: &mut Ahead,
        writer: &mut W,
    ) -> Status
    where
        N::Msg: Send + Sync + Debug,
        N::Undo: Send + Sync,
    {
        let mut book = match Book::<N>::new(self.alloc, &opened.scenario, N::Meter::fresh()) {
            Ok(book) => book,
            Err(_) => return Status::MemoryWanted,
        };
        let names = &opened.names;
        match answer_lines_strictly(self.alloc, &mut book, names, reader, ahead, writer) {
            Ok(status) => status,
            Err(fault) => {
                tell_fault(self.host, opened, &fault);
                Status::BadRequest
            }
        }
    }
}

/// Plays a scenario and a script as `play` does, up to the first line of the script that is at
/// fault: one that is no command, or whose command is refused or not taken. Reports that line on
/// standard error and ends with `BadRequest`; the answer to that line is the last that it writes.
/// A command that wants memory is no fault of its line: its answer is not written, and the play
/// ends with `MemoryWanted`.
pub fn play_strictly<L: Subjects, H: Eprint, R: Read, W: Write>(
    host: &H,
    alloc: Global,
    reader: &mut R,
    writer: &mut W,
) -> Status
    requires few { length L.listed ≤ 255 }
    ensures played { (given : List ℕ) → R.remaining reader.old ≡ Some given →
        Ended (W.contents writer.old) (W.contents writer.new)
        (PlayedStrictly L.listed (nodes_by L.nodes) given (R.remaining reader.new) result) }
    ensures within { IsWithinReads (R.remaining reader.old) (R.remaining reader.new) }
{
    let mut ahead = Ahead::new();
    match open::<L, H, R, W>(host, alloc, reader, &mut ahead, writer) {
        Ok(opened) => {
            let task = PlayingStrictly { alloc, host };
            L::carry_out(opened.protocol, &task, &opened, reader, &mut ahead, writer)
        }
        Err(status) => status,
    }
}
