//! Finds the first failing place of a run, or the first failing seed of many, with several workers.
//!
//! - [`search`] looks through a frozen run, from place `lo` to place `hi`, and returns the first
//!   place at which a condition fails, or `None`.
//! - [`sweep`] runs a scenario under as many of `count` numbered seeds as it takes, each for at most
//!   `events` steps. It returns the least number with a failing place and the first such place of
//!   that run, or `None`.
//!
//! Both use as many workers as the caller gives meters, 1 to 16, each in a thread of its own, if
//! one can be made; the last is the calling thread. A [`Gate`] hears about each piece of work
//! before and after it; the program shows its progress with one, and [`OpenGate`] does nothing.
//!
//! The contract gives the same answer for every number of workers and every order in which their
//! threads run: it is the answer of a plain walk over the places or seeds in order. A bad range is
//! reported before a bad condition, and both before any work. No contract says that more than one
//! worker runs, or that a call returns.
//!
//! Why it is built this way:
//!
//! - This crate only describes the pieces of work. `sim_claims` hands them out, each once, and
//!   takes the finding of the least piece. A piece of a search lies between two checkpoints, so a
//!   worker walks each piece once from its checkpoint. A piece of a sweep is one seed.
//! - One lemma says that the first finding of the pieces in order is the first place of the whole
//!   run (`proofs/Cutting.antt`), another that the first seed with a finding is the least
//!   (`proofs/Seeding.antt`).
//! - A worker of a search keeps the tape of its last piece, so the next piece reuses its random
//!   words and the memory of its records.
//! - Nodes, messages and records must be `Send + Sync`, because checkpoints are shared among
//!   workers.
#![tactic(auto)]

mod places;
mod seeds;

pub use places::search;
pub use seeds::sweep;
pub use sim_claims::{Gate, OpenGate};

/// Why a search or a sweep has no answer, in the order in which these are checked.
#[derive(Clone, Copy, Debug, PartialEq, Eq)]
pub enum SearchFault {
    /// The places, the seeds or the number of events are out of range.
    BadRange,
    /// The condition has no term, or names a host or a probe that the run does not have.
    BadCondition,
    /// Memory was refused.
    NoMemory,
}

/// The greatest number of events of a run.
pub const MAX_EVENTS: u64 = 65_536;

/// The greatest number of seeds of a sweep.
pub const MAX_SEEDS: u64 = 0x1_0000_0000;
