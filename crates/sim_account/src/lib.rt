//! The account of the next step of a world, before it happens.
//!
//! [`next_reaction`] returns what the next step will do, as a [`Reaction`]: the word that it draws,
//! the node after it, and each effect with its [`Fate`]. [`tears`] returns what a crash of a host
//! would keep of each of its writes. The world is only read.
//!
//! ```text
//! if let Some(reaction) = next_reaction(alloc, world, meter)? {
//!     for told in reaction.effects() { .. }
//! }
//! ```
//!
//! A copy of the node reacts. Its effects are not carried out: a ledger (`ledger.rt`) has the few
//! numbers that decide a fate, and each effect changes them as it will change the world
//! (`fates.rt`). So an account takes no copy of the world.
//!
//! `specs/Account.antt` says what the account of a step is, and that it determines the world after
//! the step (`after_told`): begin there. `specs/inside/Ledger.antt` says when a ledger follows a
//! world.
//!
//! It is a crate of its own so that the crates that move worlds do not wait for its proofs. It
//! reads worlds by their public queries, and takes the bounds of their numbers from `World::laws`.
#![tactic(auto)]

mod crash;
mod fate;
mod fates;
mod ledger;
mod next;
mod reaction;

pub use crash::tears;
pub use fate::{Fate, ToldEffect};
pub use next::next_reaction;
pub use reaction::Reaction;
pub use std::alloc::AllocError as NoMemory;
