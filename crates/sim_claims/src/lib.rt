//! Divides numbered pieces of work among several workers, and returns the least piece with a
//! finding.
//!
//! [`least`] is the one call. It takes a type that implements [`Pieces`] (how many pieces there
//! are, and by contract the finding of each), a [`Gate`] that hears about each piece before and
//! after it, and a meter for each worker. Each worker runs in a thread of its own, if one can be
//! made; the last one is the calling thread.
//!
//! The contract: the result is the first finding of a plain walk over the pieces in order, or
//! `None`, for every number of workers and every order in which their threads run. If a scan wants
//! memory, the result is `NoMemory`. No contract says that more than one worker runs.
//!
//! Why it is built this way:
//!
//! - Workers share one atomic word, the number of the next piece, and nothing else. A worker claims
//!   a piece with one `fetch_add`. The rule of the word says that the numbers below it are claimed,
//!   each by exactly one worker.
//! - A worker with a finding goes on claiming, but it does not scan a piece past its best one. So
//!   no second shared word is needed, at the cost of one claim for each remaining piece.
//! - The crate knows no simulator. A piece is a number and a finding is a number, so its proofs
//!   stay small and its tests use plain lists.
#![tactic(auto)]

mod claims;
mod hand;
mod search;

pub use search::{Gate, OpenGate, Pieces, least};
pub use std::alloc::AllocError as NoMemory;
