//! Inspects the run of a branch of a book, as a walk shows it: what happened, and what led to it.
//!
//! - [`Run`]: the kept events of a branch, described one after the other. Its contract says that it
//!   has all of them, and that [`Run::lines`] has a line for each. [`Run::tell_event`] names the
//!   cause of an event, what it leads to, and the writes that it tears.
//! - [`place_of`], [`kept_of`], [`whereabouts`]: where a branch is.
//! - [`seek`]: finds a place that a command describes, or says why there is none.
//!
//! What is there at a place is not told here: `sim_sight` tells it, and needs no book.
//!
//! A walk makes a [`Run`] anew for each command that describes events, and each call of it walks a
//! tape of its own. That costs a walk of the whole run, which a person does not notice, and nothing
//! must be kept up to date.
//!
//! The words are tested and not proved: messages are shown by `Debug`, whose texts no contract can
//! name.
#![tactic(auto)]

mod run;
mod seeking;
mod tearing;

pub use run::{Run, kept_of, place_of, whereabouts};
pub use seeking::{SeekError, seek};
