//! A lock around one value with a history. Sessions call it from threads of their own, and the
//! history at the end holds each session's calls, each once and in order.
//!
//! - [`Kept`] is the trait of the value: a scenario that never changes, a list of entries, and
//!   `turn`, which carries out one command and, if it is taken, adds one entry. [`Freezes`] adds a
//!   call that also returns a frozen copy.
//! - [`Lock::new`] takes the value and makes a [`Seat`] for each session.
//! - [`Lock::call`] takes a turn for a seat. The returned entry is the session's receipt.
//! - [`Lock::close`] takes all seats back and returns the value. [`History::entry`] finds the entry
//!   of a receipt.
//!
//! The lock is one word and one slot of `atomic_table`. While the word is 0 the value lies in the
//! slot. A seat takes the lock with a compare-exchange. If the lock is taken, the seat yields to
//! other threads and tries again. It does not park: a turn is short, and each wake would cost a
//! system call. No proof says that a call returns.
//!
//! Why it is built this way:
//!
//! - The crate knows no simulator, so its proofs name no world, its checks take seconds, and its
//!   tests use a plain list.
//! - The proofs rest on what each seat knows: its session's entries, and the history as far as it
//!   has seen it. One rule of the table (`specs/Rule.antt`) says that the history holds exactly
//!   these entries of each session and begins with what each seat has seen.
//! - All sessions exist from the start. The first seat has the parts of all of them, and the other
//!   seats are cut off it. So "each session has one part" is one equation from the beginning.
//! - Commands and replies are types that the lock knows nothing about. It cannot invent a command,
//!   take a turn twice or drop a reply: such a body does not compile.
#![tactic(auto)]

mod history;
mod kept;
mod lock;
mod rule;
mod seat;

pub use history::History;
pub use kept::{Freezes, Kept};
pub use seat::{Lock, Seat};
