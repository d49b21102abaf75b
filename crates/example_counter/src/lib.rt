//! An example of a node of one's own: a counter on a server's disk. Clients ask to add one.
//!
//! A client asks its server to add one, and asks again every half second until it has the answer;
//! then it goes on, until it has done its operations. A server adds one, writes the count to its
//! disk and asks for a sync. It answers after the sync. Until then it ignores all other clients.
//! docs/NODES.md builds this crate from nothing, a step at a time.
//!
//! [`Counter`] implements the trait `Node` of `sim_node` for every meter. So it is proved that the
//! node does what its table says (`specs/Table.antt`, a definition for each row) and that each
//! reaction can be undone.
//!
//! Why it is built this way:
//!
//! - All that a reaction can change is in the [`Role`]. So the record of a reaction is the role
//!   before it, and one assignment undoes the reaction.
//! - The host in a role (to which a server owes an answer) is below the number of hosts by the
//!   node's invariant, because `send` requires it.
//! - It answers a client only when the count is stable. The prover refuses a wrong body that
//!   answers before (`must-fail/answers_before_its_disk.edit`).
#![tactic(auto)]

mod counter;
#[cfg(test)]
mod tests;

pub use counter::Counter;
use sim_node::HostSetup;

/// A message of the counter, about operation n of a client.
#[derive(Clone, Copy, Debug, PartialEq, Eq)]
pub enum Message {
    /// A client asks to add one.
    Add(u64),
    /// A server has added one, and its count is stable.
    Added(u64),
}

/// The role of a host.
#[derive(Clone, Copy, Debug)]
pub enum Role {
    /// A client waits for the answer to this operation, from 1.
    Client { next: u64 },
    /// A server waits for a client.
    Idle { count: u64 },
    /// A server waits for its disk, to answer this client. Other clients get no answer, and ask
    /// again.
    Saving { count: u64, client: u16, n: u64 },
}

/// The state of a host.
#[derive(Clone, Copy)]
pub struct State {
    pub setup: HostSetup,
    pub me: u16,
    pub role: Role,
}
