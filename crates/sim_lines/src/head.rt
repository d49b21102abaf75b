//! The scenario's text, up to the marker line.
ghost use Rattle.std.specs.Prelude.{◌≡◌, ◌≢◌, ℕ, List, [], ◌∷◌, ◌++◌, ◌≤◌, ◌==◌, length, take};
ghost use Rattle.std.specs.Prelude.{drop, vec_len, OnOk, if◌then◌else◌};
ghost use Rattle.std.specs.Io.KnownBytes.{prepend_known};
ghost use Rattle.std.specs.Str.Lines.{strip_carriage_return};
ghost use Rattle.sim_lines.specs.Cut.{is_marker};
ghost use Rattle.sim_lines.specs.Taken.{TakesHead, SpendsHead};
ghost use Rattle.sim_lines.specs.Waiting.{CountsReads};

use crate::reading::{Ahead, Next, next_byte};
use std::alloc::{AllocError, Global};
use std::io::Read;
use std::marker::Model;

/// The most bytes that are read for a scenario's text. A text this long without a marker line is
/// too long.
const MAX_BYTES: usize = 65_600;

/// Why a scenario's text could not be read.
#[derive(Clone, Copy)]
pub enum HeadError {
    /// The reader failed.
    Failed,
    NoMemory,
}

/// A text as whole lines and the line that has begun.
#[derive(Drop)]
struct Lines {
    text: Vec<u8>,
    start: usize,
}

impl Model for Lines {
    ghost Value = { List ℕ × List ℕ };

    ghost view = { λ t. (take t.start t.text.items, drop t.start t.text.items) };

    ghost invariant = { λ t. t.start ≤ length t.text.items };
}

impl Lines {
    fn new(alloc: Global) -> Lines
        ensures { result ≡ ([], []) }
    {
        Lines {
            text: Vec::new(alloc),
            start: 0,
        }
    }

    /// Returns the line that has begun.
    fn current(&self) -> &[u8]
        ensures { result.now ≡ self.now.1 }
    {
        self.text.as_slice().split_at(self.start).1
    }

    fn push(&mut self, byte: u8) -> Result<(), AllocError>
        requires { byte ≢ 10 }
        ensures { OnOk result (self.new ≡ (self.old.0, self.old.1 ++ byte ∷ [])) }
    {
        self.text.push(byte)?;
        Ok(())
    }

    /// Ends the line.
    fn end_line(&mut self) -> Result<(), AllocError>
        ensures { OnOk result (self.new ≡ (self.old.0 ++ (self.old.1 ++ 10 ∷ []), [])) }
    {
        self.text.push(b'\n')?;
        self.start = self.text.len();
        Ok(())
    }

    /// Returns all of the text.
    fn into_text(self) -> Vec<u8>
        ensures { result.items ≡ self.0 ++ self.1 }
    {
        let Lines { text, start: _ } = self;
        text
    }

    /// Returns the whole lines.
    fn into_lines(self) -> Vec<u8>
        ensures { result.items ≡ self.0 }
    {
        let Lines { mut text, start } = self;
        text.truncate(start);
        text
    }
}

fn without_return(line: &[u8]) -> &[u8]
    ensures { result.now ≡ strip_carriage_return line.now }
{
    let len = line.len();
    if len > 0 && line[len - 1] == b'\r' {
        line.split_at(len - 1).0
    } else {
        line
    }
}

fn is_marker_line(line: &[u8]) -> bool
    ensures { result ≡ is_marker line.now }
{
    line == b"---".as_slice()
}

/// Reads the scenario's text and the marker line after it, or 65,600 bytes without one. At most
/// 4,096 bytes that were read after it wait.
pub fn read_head<R: Read>(
    alloc: Global,
    reader: &mut R,
    ahead: &mut Ahead,
) -> Result<Vec<u8>, HeadError>
    ensures takes { TakesHead (prepend_known ahead.old.bytes (R.remaining reader.old))
        (prepend_known ahead.new.bytes (R.remaining reader.new)) result }
    ensures spends { SpendsHead ahead.old ahead.new result }
    ensures counts { CountsReads ahead.old ahead.new (R.remaining reader.old)
        (R.remaining reader.new) }
    ensures few { length ahead.new.bytes ≤ 4096 }
{
    let mut lines = Lines::new(alloc);
    for _ in 0..MAX_BYTES {
        match next_byte(reader, ahead) {
            Next::Byte(byte) => {
                if byte == b'\n' {
                    if is_marker_line(without_return(lines.current())) {
                        return Ok(lines.into_lines());
                    }
                    if lines.end_line().is_err() {
                        return Err(HeadError::NoMemory);
                    }
                } else if lines.push(byte).is_err() {
                    return Err(HeadError::NoMemory);
                }
            }
            Next::End => {
                return if is_marker_line(lines.current()) {
                    Ok(lines.into_lines())
                } else {
                    Ok(lines.into_text())
                };
            }
            Next::Failed => return Err(HeadError::Failed),
        }
    }
    Ok(lines.into_text())
}
