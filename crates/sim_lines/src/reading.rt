//! A buffer between a reader and those who take its bytes one by one.
ghost use Rattle.std.specs.Prelude.{◌≡◌, ℕ, ◌+◌, List, [], ◌∷◌, ◌≤◌, ◌<◌, ◌^◌, ◌==◌, length};
ghost use Rattle.std.specs.Prelude.{slice_range, IfNone, OnOk, OnErr, option_to_list, ◌++◌};
ghost use Rattle.sim_lines.specs.Gives.{Gives, Spends};
ghost use Rattle.sim_lines.specs.Waiting.{unread, CountsReads, IsUsedUp};
ghost use Rattle.std.specs.Io.KnownBytes.{prepend_known, Consumes, Keeps, IsAtEnd};

use std::io::Read;
use std::marker::Model;

const ROOM: usize = 4096;

/// The most reads. A reader that still gives bytes after them counts as failed.
const MAX_READS: u64 = 1 << 40;

/// The reader failed.
#[derive(Debug, Drop)]
pub struct ReaderError;

/// The bytes that were read and not yet taken, at most 4,096, and how many reads may still be made.
#[derive(Drop)]
pub struct Ahead {
    bytes: [u8; ROOM],
    start: usize,
    end: usize,
    reads: u64,
}

impl Model for Ahead {
    ghost use Rattle.std.specs.Prelude.{◌≤◌, slice_range};
    ghost use Rattle.sim_lines.specs.Waiting.{Waiting};

    ghost Value = { Waiting };

    ghost view = { λ a. record { bytes = slice_range a.bytes a.start a.end; reads = a.reads } };

    ghost invariant = { λ a. (a.start ≤ a.end) × (a.end ≤ 4096) };
}

impl Ahead {
    /// Makes an empty buffer, with 2^40 reads to make.
    pub fn new() -> Ahead
        ensures { result ≡ unread }
    {
        Ahead {
            bytes: [0; ROOM],
            start: 0,
            end: 0,
            reads: MAX_READS,
        }
    }

    /// Returns whether no byte waits, so that the next one takes a read.
    pub fn is_empty(&self) -> bool
        ensures { result ≡ (length self.now.bytes == 0) }
    {
        self.start == self.end
    }

    /// Makes one read, if one may still be made. No byte may be waiting.
    fn fill<R: Read>(&mut self, reader: &mut R) -> Result<(), ReaderError>
        requires { self.old.bytes ≡ [] }
        ensures ok { OnOk result (Consumes (R.remaining reader.old)
            (R.remaining reader.new) self.new.bytes) }
        ensures end { OnOk result (self.new.bytes ≡ [] → IsAtEnd (R.remaining reader.new)) }
        ensures counted { OnOk result (self.old.reads ≡ self.new.reads + 1) }
        ensures err { OnErr result (Keeps (R.remaining reader.old) (R.remaining reader.new)) }
        ensures used_up { OnErr result (IsUsedUp self.old self.new) }
        ensures few { length self.new.bytes ≤ 4096 }
    {
        if self.reads == 0 {
            return Err(ReaderError);
        }
        self.reads -= 1;
        self.start = 0;
        self.end = 0;
        match reader.read(&mut self.bytes) {
            Ok(n) => {
                self.end = n;
                Ok(())
            }
            Err(_) => Err(ReaderError),
        }
    }

    /// Takes the first waiting byte.
    fn take_first(&mut self) -> Option<u8>
        ensures front { self.old.bytes ≡ option_to_list result ++ self.new.bytes }
        ensures none { IfNone result (self.new.bytes ≡ []) }
        ensures reads { self.new.reads ≡ self.old.reads }
        ensures few { length self.new.bytes ≤ 4096 }
    {
        if self.start >= self.end {
            return None;
        }
        let byte = self.bytes[self.start];
        self.start += 1;
        Some(byte)
    }
}

/// What a reader gives next.
#[derive(Clone, Copy)]
pub enum Next {
    Byte(u8),
    End,
    Failed,
}

/// Takes the next byte. At most 4,096 bytes wait after it.
pub fn next_byte<R: Read>(reader: &mut R, ahead: &mut Ahead) -> Next
    ensures gives { Gives (prepend_known ahead.old.bytes (R.remaining reader.old))
        (prepend_known ahead.new.bytes (R.remaining reader.new)) result }
    ensures spends { Spends ahead.old ahead.new result }
    ensures counts { CountsReads ahead.old ahead.new (R.remaining reader.old)
        (R.remaining reader.new) }
    ensures few { length ahead.new.bytes ≤ 4096 }
{
    if let Some(byte) = ahead.take_first() {
        return Next::Byte(byte);
    }
    match ahead.fill(reader) {
        Ok(()) => match ahead.take_first() {
            Some(byte) => Next::Byte(byte),
            None => Next::End,
        },
        Err(_) => Next::Failed,
    }
}
