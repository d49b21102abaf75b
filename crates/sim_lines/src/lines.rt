//! The lines of a reader.
ghost use Rattle.std.specs.Prelude.{◌≡◌, ℕ, vec_len, ◌≤◌, ◌<◌, ◌-◌};
ghost use Rattle.std.specs.Io.KnownBytes.{prepend_known};
ghost use Rattle.std.specs.Str.Lines.{strip_carriage_return};
ghost use Rattle.sim_lines.specs.Taken.{TakesNext, SpendsLine};
ghost use Rattle.sim_lines.specs.Waiting.{CountsReads};

use crate::reading::{Ahead, Next, next_byte};
use std::io::Read;

/// The most bytes kept of a line, carriage return included: two more than the limit, so that a line
/// that is too long shows.
const KEPT: usize = 258;

/// What a reader's next line is.
#[derive(Clone, Copy)]
pub enum NextLine {
    /// A line with its end. The buffer has the bytes that are kept of it.
    Line,
    /// The same for a last line without a line end.
    Last,
    /// The end of the input.
    End,
    /// The reader failed.
    Failed,
    NoMemory,
}

/// Removes the carriage return at the end, if there is one.
fn strip(line: &mut Vec<u8>)
    ensures { line.new.items ≡ strip_carriage_return line.old.items }
{
    let len = line.len();
    if len > 0 && line[len - 1] == b'\r' {
        line.truncate(len - 1);
    }
}

/// Takes the next line with its end. `line` gets the line, or a front that is too long if the line
/// is.
pub fn next_line<R: Read>(reader: &mut R, ahead: &mut Ahead, line: &mut Vec<u8>) -> NextLine
    ensures takes { TakesNext (prepend_known ahead.old.bytes (R.remaining reader.old))
        (prepend_known ahead.new.bytes (R.remaining reader.new)) line.new.items result }
    ensures spends { SpendsLine ahead.old ahead.new result }
    ensures counts { CountsReads ahead.old ahead.new (R.remaining reader.old)
        (R.remaining reader.new) }
{
    line.clear();
    loop {
        match next_byte(reader, ahead) {
            Next::Byte(byte) => {
                if byte == b'\n' {
                    strip(line);
                    return NextLine::Line;
                }
                if line.len() < KEPT && line.push(byte).is_err() {
                    return NextLine::NoMemory;
                }
            }
            Next::End => {
                return if line.is_empty() {
                    NextLine::End
                } else {
                    NextLine::Last
                };
            }
            Next::Failed => return NextLine::Failed,
        }
    }
}
