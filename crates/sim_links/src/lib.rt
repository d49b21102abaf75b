//! The links between hosts, and how messages cross them.
//!
//! A link has two directions, independent of each other. Each is open (`Through`), held (messages
//! wait in it), or cut (messages are dropped). [`Links::change`] applies one of four changes and
//! returns the messages that leave the direction, with a record; [`Links::undo`] undoes the change,
//! given both. `specs/Link.antt` has the table of changes. [`Ways`] says for each direction how
//! long a message over an open link takes and how many messages are lost.
//!
//! # How it is built
//!
//! Contracts see the list of all 1,024 directions between 32 hosts. Most of them are never changed,
//! so the table stores only those that were:
//!
//! - Each direction has a slot of two bytes. Slot 0 is one open direction that stands for all that
//!   were never changed; a changed direction has a slot of its own. A copy and a drop cost what the
//!   changed directions cost, and reading a state is two loads.
//! - The vector has room for all directions from the start (32 KB that are not touched before they
//!   are needed). So `change` and `undo` take no memory and cannot fail, and a fault can always be
//!   undone. Of the changes only `keep` takes memory, for the message.
//! - [`PackedLinks`] stores links compactly, as in a checkpoint: the directions that are not open,
//!   with their places, and no table.
#![tactic(auto)]

mod direction;
mod kept;
mod links;
mod packed;
mod table;
mod ways;

pub use links::Links;
pub use packed::PackedLinks;
pub use std::alloc::AllocError as NoMemory;
pub use ways::Ways;

/// The state of one direction. `Through` is the open state.
#[derive(Clone, Copy, Debug, PartialEq, Eq)]
pub enum LinkState {
    Through,
    Held,
    Cut,
}

/// A change of one direction.
#[derive(Clone, Copy)]
pub enum Change {
    Hold,
    Release,
    Cut,
    Repair,
}

/// How messages cross an open direction: the least and the greatest latency (0 to 60,000 ms), and
/// the number of messages lost per thousand (0 to 1,000).
#[derive(Clone, Copy, Debug, PartialEq, Eq)]
pub struct Way {
    pub latency_min: u32,
    pub latency_max: u32,
    pub loss: u32,
}

/// The record of a change of the direction from a to b: the change, and the state before it.
#[derive(Clone, Copy)]
pub struct LinkUndo {
    pub a: u16,
    pub b: u16,
    pub change: Change,
    pub was: LinkState,
}
