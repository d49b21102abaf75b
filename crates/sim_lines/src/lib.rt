//! Lines from any reader, and buffered text to any writer, with contracts that name the bytes.
//!
//! std's `BufReader` and `BufWriter` say little about the bytes after an error. The contract of
//! `play` must say which bytes were read and written even where a read or a write fails halfway, so
//! this crate has its own small buffers.
//!
//! - [`read_head`] reads the text of a scenario: all bytes up to the marker line `---`, or up to
//!   65,600 bytes without one.
//! - [`next_line`] reads the next line into a buffer that the caller reuses. It keeps at most 258
//!   bytes of a line, so the caller sees that a line is too long without storing it.
//! - [`next_byte`] reads one byte. Both calls above use it.
//! - [`Ahead`] holds the bytes that were read and not yet taken, at most 4,096, and counts the
//!   reads that may still be made. A reader that still gives bytes after 2^40 reads counts as
//!   failed, which gives every loop over a reader an end.
//! - [`Outlet`] buffers up to 8,192 bytes for a writer; [`put`] writes a text at once.
//!
//! What a reader gave, what waits in `Ahead` and what the caller received are the same bytes in the
//! same order, and so are what the caller handed to an `Outlet`, what waits in it and what the
//! writer received. This holds after a failed read too; after a failed write what waits is lost. No
//! contract says that an error is reported only when the reader or writer caused it; tests cover
//! that.
#![tactic(auto)]

mod head;
mod lines;
mod reading;
mod writing;

pub use head::{HeadError, read_head};
pub use lines::{NextLine, next_line};
pub use reading::{Ahead, Next, ReaderError, next_byte};
pub use writing::{Outlet, WriterError, put};
