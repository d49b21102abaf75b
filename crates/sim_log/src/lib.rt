//! Describes what each event of a run does: in words, and as rows of JSON.
//!
//! - [`Told`] gathers what an event will do, in the world before it: the reaction of a step, what a
//!   crash takes out of the queue and keeps of each write.
//! - [`Places`] knows where in a run each occurrence was queued, and where it happened.
//! - [`Line`] shows an event in words, for people and for `grep`.
//! - [`Teller`] writes the lines of the events of a run, in words or as JSON objects.
//! - [`first_rows`], [`rows_before`] and [`rows_after`] list the hosts at the start and what an
//!   event changes, as rows of JSON; the page of a run reads them.
//!
//! ```text
//! let told = Told::new(alloc, world, event, meter)?;
//! format!(in alloc; "{}", Line { names, places: &places, told: &told })?
//! ```
//!
//! By its contract a [`Teller`] writes a line for each event, with its place and the clock of the
//! world there. The contract of [`Told`] says that it has the reaction that the next step will be
//! and the bytes that a crash will keep. Everything else is borrowed from the world before the
//! event. The words are tested and not proved: `Debug` shows messages and states, and no contract
//! can name its texts.
#![tactic(auto)]

mod line;
mod lines;
mod places;
mod rows;
mod told;

pub use line::Line;
pub use lines::Teller;
pub use places::Places;
pub use rows::{first_rows, rows_after, rows_before};
pub use told::Told;
