//! What the test crates share. Nothing here is used by a program.
//!
//! - [`Setting`] makes scenarios from the few numbers that a test cares about; [`TWO_ECHOES`] is
//!   the small one that tests of echo begin with.
//! - [`Act`] is a row of a run: an event, or a check of the world with the expected value.
//!   [`plays`] goes through such rows, back by the records of their events, and through them again.
//!   It is proved for all node types that the world at the end is the one at the start
//!   (`there_and_back`), so no test that plays proves this again.
//! - [`applied`] and [`ran`] take events without rows.
//! - [`Counts`] is a meter that counts at run time, which the program's own does not.
//! - [`walks`], [`jobs`] and [`cases`] have the rows of `test_program`: inputs, and what is written
//!   for them. [`examples`] has those of `test_play`, and [`scenes`] those of `test_runs`.
//!
//! A run there and back is one recursion: an event, the rest of the run, the undo. So no stack of
//! records needs an invariant.
//!
//! It is a library, and proved once. The crates of tests above it are proved twice, once with their
//! tests and once without.
#![tactic(auto)]

mod act;
pub mod cases;
mod counts;
mod course;
pub mod examples;
pub mod jobs;
pub mod scenes;
mod setting;
pub mod walks;

pub use act::{Act, plays};
pub use counts::Counts;
pub use course::{applied, ran};
pub use setting::{Setting, TWO_ECHOES, steady};
