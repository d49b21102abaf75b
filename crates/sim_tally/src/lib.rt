//! The meter of programs: it counts in contracts and costs nothing at run time.
//!
//! A node counts each turn, copy and undo on a meter (the trait `Meter` of `sim_node`), so that
//! contracts can bound the work of the calls above: "a back within the window boots no node and
//! copies no world" is a theorem about a meter.
//!
//! [`Tally`] is the meter that programs use. Its three numbers exist for contracts alone. It takes
//! no byte, and `turn`, `copied` and `undone` do nothing when they run.
//!
//! ```text
//! let mut book = Book::<Echo<Tally>>::new(alloc, &scenario, Tally::new())?;
//! ```
//!
//! Code of a program that runs nodes of any type makes their meters by the trait [`FreshMeter`],
//! and does not name [`Tally`].
//!
//! It is a crate of its own because the program, the tests and the examples need a meter. The
//! core crates do not depend on it. They are generic over the meter and cannot make one, so they
//! cannot run a node unseen.
#![tactic(auto)]

mod tally;

pub use tally::{FreshMeter, Tally};
