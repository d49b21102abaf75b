//! What is written of a run: an input for a play, another text that shows it, or why there is none.
//!
//! - [`Export`] is what is written, with its text and the status of the program after it;
//!   [`write_export`] writes it.
//! - [`input_of`] returns the input that makes the events of a run: the text of its scenario, a
//!   line `---`, and a line of script for each event.
//!
//! The contract of [`input_of`] is a round trip (`Makes` in `specs/Exports.antt`): cut and read as
//! a play does it, the input has the text of the scenario, and, if each name is read as its host,
//! the lines of its script are read as the commands that make exactly these events. `Written` says
//! which bytes a task over a scenario writes, if a relation says which exports are right for it.
//!
//! Why it is built this way: inputs of seeds, shrunk runs, logs and pages share it, and each has a
//! relation of its own that says which exports are right.
#![tactic(auto)]

mod export;
mod input;

pub use export::{Export, write_export};
pub use input::{InputError, input_of};
pub use sim_cli::Status;
