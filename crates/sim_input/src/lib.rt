//! Writes inputs of the program.
//!
//! [`script`] writes the events of a run as a script for `play`, a line for each, and
//! [`push_event`] writes one such line. They turn events back into text: a run that a search found,
//! or that was made smaller, becomes a play that a person can read and change.
//!
//! The contract is a round trip. If each name is read as its host (`AreRead` in
//! `specs/Events.antt`: the names are names, and no two hosts have the same), the lines of the
//! script are read, by the definitions of `sim_script`, as the commands that make exactly these
//! events. No word of the grammar is repeated here as a rule: the line of an event is defined once,
//! and the proof reads it.
//!
//! [`push_condition`] writes a condition as words that are read as that condition, if each name is
//! also read as its probe. So the command line can search for a condition that a program made.
//!
//! An advance of the clock alone has no line, since no command of a script makes it: `tick` takes
//! what is due on the way. A fault of a host without a name has none either.
#![tactic(auto)]

mod condition;
mod events;

pub use condition::push_condition;
pub use events::{LineError, push_event, script};
