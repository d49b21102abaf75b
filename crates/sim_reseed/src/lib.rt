//! Writes one run of a sweep as an input for `play`.
//!
//! A sweep answers with the number of a seed whose run fails. That seed is the scenario's own, with
//! the number in its last eight bytes. So the run can be played as soon as the scenario has that
//! seed:
//!
//! - [`numbered_text`] writes the text of the scenario with the seed of a number.
//! - [`join_input`] puts a scenario, the line `---` and a script together.
//! - [`numbered_input`] does both.
//!
//! ```text
//! let input = sim_reseed::numbered_input(alloc, scenario, 654, script)?;
//! ```
//!
//! The contract of `numbered_text` is about reading, for every list of protocols at once: the
//! written text is read as the scenario of the given text, with the seed of the number and all else
//! unchanged, or with the same fault. The contract of `join_input` is about where a play cuts its
//! input: the play gets the same two parts back, byte for byte, but the scenario with a line end
//! after its last line.
//!
//! Why it is built this way:
//!
//! - The text is printed from the table that was read, with another value for `seed`. So this crate
//!   repeats only three rules of the format: the form of a seed, the shape of the table and the
//!   limit of the text. It knows no protocol. Comments are lost, and the keys come in the order of
//!   their bytes.
//! - The library's printer says that its text reads back if the table is not too deep. A scenario
//!   never is: its values are strings, whole numbers, and arrays of these and of tables of these.
//!   `shape` checks for that, and a proof shows that it refuses no scenario.
//! - A printed string of several lines can have a line `---`. So the marker is looked for.
#![tactic(auto)]

mod error;
mod joining;
mod numbering;
mod shape;

pub use error::ReseedError;
pub use joining::{ends_its_lines, join_input, numbered_input};
pub use numbering::numbered_text;
