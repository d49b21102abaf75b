//! Writes whole texts to a writer, at once or buffered.
ghost use Rattle.std.specs.Prelude.{◌≡◌, ◌≤◌, ◌++◌, ℕ, List, [], length, OnOk, OnErr};
ghost use Rattle.std.specs.Prelude.{if◌then◌else◌};
ghost use Rattle.std.specs.Io.KnownBytes.{Appends};
ghost use Rattle.sim_lines.specs.Left.{AppendsPart, HandsOver, WritesAll};

use std::alloc::Global;
use std::io::Write;
use std::marker::Model;

/// The size of the buffer (bytes).
const ROOM: usize = 8192;

/// The writer failed, or took no byte of a text that is not empty.
#[derive(Debug, Drop)]
pub struct WriterError;

/// Writes all of the text. If the writer fails, it has received a front part of it.
pub fn put<W: Write>(writer: &mut W, text: &[u8]) -> Result<(), WriterError>
    ensures ok { OnOk result (Appends (W.contents writer.old) (W.contents writer.new) text.now) }
    ensures err { OnErr result (AppendsPart (W.contents writer.old)
        (W.contents writer.new) text.now) }
{
    let mut rest = text;
    while !rest.is_empty() {
        match writer.write(rest) {
            Ok(0) => return Err(WriterError),
            Ok(n) => rest = rest.split_at(n).1,
            Err(_) => return Err(WriterError),
        }
    }
    Ok(())
}

/// A buffer of at most 8,192 bytes that wait for a writer.
#[derive(Drop)]
pub struct Outlet {
    waiting: Vec<u8>,
}

impl Model for Outlet {
    ghost Value = { List ℕ };

    ghost view = { λ o. o.waiting.items };

    ghost invariant = { λ o. length o.waiting.items ≤ 8192 };
}

impl Outlet {
    /// Makes an empty buffer.
    pub fn new(alloc: Global) -> Outlet
        ensures { result ≡ [] }
    {
        Outlet {
            waiting: Vec::new(alloc),
        }
    }

    /// Writes all waiting bytes, and flushes the writer. If the writer fails, it has received a
    /// part, and the rest is lost.
    ///
    /// The clause says that the flush leaves the writer's contents unchanged, which is all that
    /// std's contract of it says. That a flush happens after the bytes are written, and that its
    /// failure is returned, is in no clause.
    pub fn flush<W: Write>(&mut self, writer: &mut W) -> Result<(), WriterError>
        ensures { WritesAll (W.contents writer.old) (W.contents writer.new) self.old self.new
            result }
    {
        match put(writer, self.waiting.as_slice()) {
            Ok(()) => {}
            Err(fault) => return Err(fault),
        }
        self.waiting.clear();
        match writer.flush() {
            Ok(()) => Ok(()),
            Err(_) => Err(WriterError),
        }
    }

    /// Buffers a text. Returns false if there is no room or no memory for it.
    fn keep(&mut self, text: &[u8]) -> bool
        ensures { self.new ≡ (if result then self.old ++ text.now else self.old) }
    {
        text.len() <= ROOM - self.waiting.len() && self.waiting.extend_from_slice(text).is_ok()
    }

    /// Buffers `text`. If it does not fit or memory is refused, writes the buffer and then `text`.
    /// If the writer fails, it has received a part, and the rest is lost.
    pub fn hand_over<W: Write>(&mut self, writer: &mut W, text: &[u8]) -> Result<(), WriterError>
        ensures { HandsOver (W.contents writer.old) (W.contents writer.new) self.old text.now
            self.new result }
    {
        if self.keep(text) {
            return Ok(());
        }
        match self.flush(writer) {
            Ok(()) => {}
            Err(fault) => return Err(fault),
        }
        put(writer, text)
    }
}
