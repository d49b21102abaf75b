//! Shows what is there at a place of a run, in words.
//!
//! - [`Sight`]: pending occurrences, the hosts, their disks, and the links that are not open.
//! - [`tell_failing`]: which terms of a condition fail, and the values that they name.
//! - [`holds_of`] and [`fails_of`]: whether a condition can be used in a world and holds there, or
//!   fails there. One that cannot be used does neither.
//! - [`shortened`]: shortens the text of a node's state, in which a long list is mostly the same
//!   element.
//!
//! ```text
//! let sight = Sight { alloc, names, places: &places, world: &world };
//! sight.tell_host(host, &mut said)?;
//! tell_failing(names, &world, &cond, &mut said)?;
//! ```
//!
//! A place is shown by its world and by the places where its occurrences were queued. So nothing
//! here knows a book, and `sim_book` is proved beside this crate.
//!
//! The contracts of [`holds_of`] and [`fails_of`] say what they return. The words are tested and
//! not proved: messages and states are shown by `Debug`, whose texts no contract can name.
#![tactic(auto)]

mod shortening;
mod showing;
mod terms;

pub use shortening::shortened;
pub use showing::Sight;
pub use terms::{fails_of, holds_of, tell_failing};
