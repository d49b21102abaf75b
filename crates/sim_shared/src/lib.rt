//! Shares one book among several sessions, each in a thread of its own, with one history.
//!
//! ```text
//! let (shared, seats) = Shared::new(alloc, book, 4)?;     // a seat for each session
//! let receipt = shared.call(rt, &mut seat, Command::Step(0))?;
//! let history = shared.close(seats);
//! let entry = history.entry(&receipt);
//! ```
//!
//! [`Shared::call`] takes one turn of the book, for the session of the seat. It returns a
//! [`Receipt`], a copy of the session's entry in the history. [`Shared::freeze`] does the same and
//! also returns the frozen run, so that a search can run beside the sessions. [`Shared::close`]
//! takes all seats back and returns the [`History`].
//!
//! The contract of `close`: the history is one that a single user could have made. It holds the
//! calls of each session in order, each once, and no others, and it begins with all that any
//! session has seen. So anybody can check it by giving the same commands to a book of the same
//! scenario. Nothing says which session comes first, or that a call returns. docs/SESSIONS.md walks
//! through an example.
//!
//! Why it is built this way:
//!
//! - The lock and its proof are in `sim_lock`, which knows no book. This crate only implements its
//!   trait, for [`Held`]: the book together with the allocator that its turns take memory from. A
//!   trait of one crate and a type of another can be joined only by a type of one's own.
//! - A seat is the lock's seat and a receipt is an entry of the book. `close` moves no seat into
//!   another vector, so it takes no memory and cannot fail.
#![tactic(auto)]

mod held;
mod shared;

pub use held::Held;
pub use shared::{History, Receipt, Seat, Shared};
