//! What a node is: the code that runs on one host of the cluster.
//!
//! A type is a node if it implements [`Node`]. It boots from the stable bytes of its disk. It
//! reacts to an [`Input`] with one random word, and asks for [`Effects`] (messages, a timer,
//! writes, a sync, done). It can undo its last reaction. `probe` shows numbers of its state to the
//! outside.
//!
//! # The laws
//!
//! An implementation states what it does as ghost members: `laws` (functions that say how it boots
//! and reacts, and what its probes show), `records` (which states a record fits, and to which state
//! it leads back) and `told` (the number of hosts that it was told of, which never changes). Each
//! method is proved to follow them. So the world that runs nodes relies on this trait alone:
//!
//! - `act` gives the state and the effects of `laws.react`, and a record that fits the new state
//!   and leads back to the old one;
//! - `undo` of a record that fits gives the state to which the record leads back;
//! - `copy` gives an equal node.
//!
//! In practice: write the reaction as a function in `specs/`, write the same in Rust, and let the
//! record keep the fields that the reaction may change. docs/NODES.md works through an example.
//!
//! The limits of a cluster are an invariant of the stored effects (at most 40, each to a host that
//! exists, and so on), so no caller checks them again. A node that breaks a limit cannot be proved.
//!
//! A [`Meter`] counts boots, reactions, copies and undos. Contracts state the work of whole runs in
//! these counts.
#![tactic(auto)]

mod effects;
mod host_setup;
mod meter;
mod node;

pub use effects::{Effect, Effects};
pub use host_setup::HostSetup;
pub use meter::Meter;
pub use node::{Node, there_and_back};
pub use std::alloc::AllocError as NoMemory;

/// The greatest number of hosts of a cluster; the least is 2: one server and one client.
pub const MAX_HOSTS: u16 = 32;

/// The greatest number of operations of a client; the least is 1.
pub const MAX_OPERATIONS: u32 = 1_000;

/// The most messages in flight and held together. A message sent beyond this limit is dropped.
pub const MAX_MESSAGES: u32 = 4_096;

/// The longest latency of a message, and of a sync of a disk (ms); the shortest is 0.
pub const MAX_LATENCY: u32 = 60_000;

/// The greatest loss, in messages per thousand.
pub const MAX_LOSS: u32 = 1_000;

/// The most bytes of one write; the least is 1.
pub const MAX_WRITE_BYTES: usize = 64;

/// The most effects of one reaction.
pub const MAX_EFFECTS: usize = 40;

/// The numbers of servers and hosts, and the number of operations of each host as a client.
///
/// The hosts are numbered from 0. Hosts below `servers` are servers, the others are clients. Each
/// node boots with the setup of its cluster. The limits: at least one server and one client, at
/// most 32 hosts, and 1 to 1,000 operations for each client.
#[derive(Clone, Copy)]
pub struct Setup {
    /// The number of servers.
    pub servers: u16,
    /// The number of hosts, servers and clients together.
    pub hosts: u16,
    /// The operations of each host by its number. The entry of a server, or of a number without a
    /// host, has no meaning.
    pub ops: [u16; 32],
}

/// An input to which a node reacts.
#[derive(Clone, Copy, Drop)]
pub enum Input<M> {
    /// The host has started: once after each boot, unless it stops before. A message that is due at
    /// the same time and was queued earlier comes first.
    Start,
    /// A message has arrived from a host, which may be the node's own.
    Message { sender: u16, msg: M },
    /// The delay of the timer has passed.
    Timer,
    /// A sync that the node asked for has completed: the writes before it are stable.
    Synced,
}
