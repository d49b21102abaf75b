//! A reader and a writer that own nothing: the reader gives two texts, and the writer compares the
//! bytes that it gets with a third. And a standard error that shows nothing.
use std::fmt::Display;
use std::io;
use std::io::{ErrorKind, Read, Write};

/// A standard error that takes everything and shows nothing.
pub struct Quiet;

impl Eprint for Quiet {
    fn eprint<D: Display + Drop>(&self, _value: D) -> io::Result<()> {
        Ok(())
    }

    fn eprintln<D: Display + Drop>(&self, _value: D) -> io::Result<()> {
        Ok(())
    }
}

/// Gives two texts, one after the other, at most a given number of bytes a read. After a given
/// number of reads it fails once; later reads succeed again.
#[derive(Clone, Copy)]
pub struct Pieces<'a> {
    pub rest: &'a [u8],
    pub more: &'a [u8],
    pub most: usize,
    pub reads_left: usize,
}

impl<'a> Pieces<'a> {
    /// Makes a reader of one byte a read that does not fail in 100,000 reads.
    pub fn new(rest: &'a [u8], more: &'a [u8]) -> Pieces<'a> {
        Pieces {
            rest,
            more,
            most: 1,
            reads_left: 100_000,
        }
    }
}

impl Read for Pieces<'_> {
    fn read(&mut self, buf: &mut [u8]) -> io::Result<usize> {
        if self.reads_left == 0 {
            self.reads_left = usize::MAX;
            return Err(io::Error::from(ErrorKind::Other));
        }
        self.reads_left -= 1;
        if self.rest.is_empty() {
            self.rest = self.more;
            self.more = b"";
        }
        let n = buf.len().min(self.most).min(self.rest.len());
        let (front, rest) = self.rest.split_at(n);
        buf.split_at_mut(n).0.copy_from_slice(front);
        self.rest = rest;
        Ok(n)
    }
}

/// Compares the bytes that it gets with the expected ones, at most a given number of bytes a write.
/// After a given number of writes, or of flushes, it fails once; later writes succeed again.
#[derive(Clone, Copy)]
pub struct Narrow<'a> {
    pub to_come: &'a [u8],
    pub is_same: bool,
    /// How many bytes were still expected at the last flush.
    pub to_flush: usize,
    pub most: usize,
    pub writes_left: usize,
    pub flushes_left: usize,
}

impl<'a> Narrow<'a> {
    /// Makes a writer of one byte a write that does not fail in 100,000 writes and 1,000 flushes.
    pub fn new(answers: &'a str) -> Narrow<'a> {
        Narrow {
            to_come: answers.as_bytes(),
            is_same: true,
            to_flush: answers.len(),
            most: 1,
            writes_left: 100_000,
            flushes_left: 1_000,
        }
    }

    /// Returns whether it got the expected bytes but for the last ones, this many, and nothing
    /// else.
    pub fn is_short_by(&self, len: usize) -> bool {
        self.is_same && self.to_come.len() == len
    }
}

impl Write for Narrow<'_> {
    fn write(&mut self, buf: &[u8]) -> io::Result<usize> {
        if self.writes_left == 0 {
            self.writes_left = usize::MAX;
            return Err(io::Error::from(ErrorKind::Other));
        }
        self.writes_left -= 1;
        let n = buf.len().min(self.most);
        let (want, to_come) = self.to_come.split_at(n.min(self.to_come.len()));
        if buf.split_at(n).0 != want {
            self.is_same = false;
        }
        self.to_come = to_come;
        Ok(n)
    }

    fn flush(&mut self) -> io::Result<()> {
        if self.flushes_left == 0 {
            self.flushes_left = usize::MAX;
            return Err(io::Error::from(ErrorKind::Other));
        }
        self.flushes_left -= 1;
        self.to_flush = self.to_come.len();
        Ok(())
    }
}
