//! Answers the lines of a script one after the other.
ghost use Rattle.std.specs.Prelude.{◌≡◌, ℕ, List, [], Some};
ghost use Rattle.std.specs.Io.KnownBytes.{prepend_known};
ghost use Rattle.sim_lines.specs.Left.{HandsOver};
ghost use Rattle.sim_lines.specs.Waiting.{CountsReads};
ghost use Rattle.sim_world.specs.Events.{rules};
ghost use Rattle.sim_script.specs.Script.{script_line};
ghost use Rattle.sim_cli.specs.Turns.{course_of};
ghost use Rattle.sim_cli.specs.Play.{Ended, Plays};
ghost use Rattle.sim_cli.specs.Answers.{Answers, Hands, Finishes};

use sim_book::Book;
use sim_cli::{Answered, Status, turn_of};
use sim_lines::{Ahead, NextLine, Outlet, WriterError, next_line};
use sim_node::Node;
use sim_replies::tell_turn;
use sim_script::{Names, ScriptLine, line_of};
use std::alloc::Global;
use std::io::{Read, Write};

/// Hands over `text` to the outlet.
fn hand<W: Write>(outlet: &mut Outlet, writer: &mut W, text: &[u8]) -> Answered
    ensures { Hands (W.contents writer.old) (W.contents writer.new) outlet.old text.now outlet.new
        result }
{
    match outlet.hand_over(writer, text) {
        Ok(()) => Answered::Well,
        Err(_) => Answered::WriterFailed,
    }
}

/// Writes all that waits. Returns `status`, unless the writer fails.
pub(crate) fn finish<W: Write>(outlet: &mut Outlet, writer: &mut W, status: Status) -> Status
    ensures { Finishes (W.contents writer.old) (W.contents writer.new) outlet.old status result }
{
    match outlet.flush(writer) {
        Ok(()) => status,
        Err(_) => Status::WriterFailed,
    }
}

/// Answers a line of a script by a turn of the book. `text` is a buffer for the answer.
fn answer_line<N: Node, W: Write>(
    alloc: Global,
    book: &mut Book<N>,
    names: &Names,
    line: &[u8],
    text: &mut Vec<u8>,
    outlet: &mut Outlet,
    writer: &mut W,
) -> Answered
    ensures answers { Answers (rules N.laws N.PROBES book.old.scenario) names.now
        (course_of book.old) (course_of book.new) (script_line names.now line.now)
        (W.contents writer.old) (W.contents writer.new) outlet.old outlet.new result }
    ensures scenario { book.new.scenario ≡ book.old.scenario }
{
    match line_of(names, line) {
        ScriptLine::Nothing => Answered::Well,
        ScriptLine::Bad => hand(outlet, writer, b"bad line\n"),
        ScriptLine::Asked(ask) => {
            let turn = turn_of(alloc, book, ask);
            match tell_turn(alloc, text, names, &turn) {
                Ok(()) => hand(outlet, writer, text.as_slice()),
                Err(_) => Answered::MemoryWanted,
            }
        }
    }
}

/// Writes all that waits, if the next byte needs a read.
pub(crate) fn flush_before_read<W: Write>(
    ahead: &Ahead,
    outlet: &mut Outlet,
    writer: &mut W,
) -> Result<(), WriterError>
    ensures { HandsOver (W.contents writer.old) (W.contents writer.new) outlet.old [] outlet.new
        result }
{
    if !ahead.is_empty() {
        return Ok(());
    }
    outlet.flush(writer)
}

/// Answers the lines of a script by turns of the book, and writes the answers: at once if the next
/// byte of the script needs a read, else gathered.
///
/// Returns `MemoryWanted` for want of memory outside a command. Then, and if the writer failed, the
/// book may be ahead of what was written.
pub fn answer_lines<N: Node, R: Read, W: Write>(
    alloc: Global,
    book: &mut Book<N>,
    names: &Names,
    reader: &mut R,
    ahead: &mut Ahead,
    writer: &mut W,
) -> Status
    ensures played { (script : List ℕ) → prepend_known ahead.old.bytes (R.remaining reader.old)
        ≡ Some script →
        Ended (W.contents writer.old) (W.contents writer.new)
        (Plays (rules N.laws N.PROBES book.old.scenario) names.now (course_of book.old) script
        (course_of book.new) ahead.new (R.remaining reader.new) result) }
    ensures scenario { book.new.scenario ≡ book.old.scenario }
    ensures counts { CountsReads ahead.old ahead.new (R.remaining reader.old)
        (R.remaining reader.new) }
{
    let mut line = Vec::new(alloc);
    let mut text = Vec::new(alloc);
    let mut outlet = Outlet::new(alloc);
    loop {
        match flush_before_read(ahead, &mut outlet, writer) {
            Ok(()) => {}
            Err(_) => return Status::WriterFailed,
        }
        match next_line(reader, ahead, &mut line) {
            NextLine::Line => {
                match answer_line(
                    alloc,
                    book,
                    names,
                    line.as_slice(),
                    &mut text,
                    &mut outlet,
                    writer,
                ) {
                    Answered::Well => {}
                    Answered::WriterFailed => return Status::WriterFailed,
                    Answered::MemoryWanted => {
                        return finish(&mut outlet, writer, Status::MemoryWanted);
                    }
                }
            }
            NextLine::Last => {
                match answer_line(
                    alloc,
                    book,
                    names,
                    line.as_slice(),
                    &mut text,
                    &mut outlet,
                    writer,
                ) {
                    Answered::Well => return finish(&mut outlet, writer, Status::Well),
                    Answered::WriterFailed => return Status::WriterFailed,
                    Answered::MemoryWanted => {
                        return finish(&mut outlet, writer, Status::MemoryWanted);
                    }
                }
            }
            NextLine::End => return finish(&mut outlet, writer, Status::Well),
            NextLine::Failed => return finish(&mut outlet, writer, Status::ReaderFailed),
            NextLine::NoMemory => return finish(&mut outlet, writer, Status::MemoryWanted),
        }
    }
}
