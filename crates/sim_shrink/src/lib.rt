//! Makes a failing run small: drops the faults that its failure does not need.
//!
//! [`shrink`] takes the events of a run and a condition that fails somewhere along it. It returns
//! the run that some of its faults make, cut at the first place at which the condition fails. That
//! run is 1-minimal: without any one of its faults the condition fails nowhere. It is never longer
//! than the given run up to its first failing place. A [`Listener`] hears about each trial.
//!
//! The method is delta debugging over the faults: events of other kinds always stay. If an event
//! can't happen any more once a fault is dropped, it is left out of the run.
//!
//! Why it is built this way:
//!
//! - A trial is one walk of `sim_sweep` along the events that are left, and stops at the first
//!   failing place. So no event of a trial copies a node or keeps a record.
//! - Only the last pass makes the result minimal: it tries each fault alone and drops none. The
//!   passes before it, over parts of half the faults, of a quarter and so on, save trials.
//! - A pass that drops something leaves fewer faults. So there are at most as many passes of single
//!   faults as there are faults, and the loop over them has a bound.
//! - A choice of faults is a list of truth values. To drop a part of it is to write `false` there,
//!   and the faults that are left need no new numbers.
#![tactic(auto)]

mod case;
mod choice;
mod listener;
mod passes;
mod shrinking;

pub use listener::{Listener, NoListener};
pub use shrinking::shrink;
pub use sim_search::{MAX_EVENTS, SearchFault};
