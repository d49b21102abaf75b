//! An example of a node of real size: Raft, after Ongaro and Ousterhout (USENIX ATC 2014).
//!
//! Servers elect a leader. The leader adds the values of clients to its log and sends them to the
//! others, one entry in a message. An entry that a majority has is committed. A server reports a
//! vote or an entry only after its disk reports that it is stable. The log has at most 64 entries.
//! docs/RAFT.md has the table, a row for each input.
//!
//! [`Raft`] implements the trait `Node` of `sim_node` for every [`Variant`] and every meter. So it
//! is proved that the node does what its table says (`specs/Raft.antt`, a definition for each row)
//! and that each reaction can be undone. That Raft is safe is not proved, and two variants are not:
//! [`Eager`] commits entries of older terms because a majority has them, and [`Hasty`] reports its
//! vote before the vote is stable. They are there to be found with the simulator.
//!
//! Where to find what:
//!
//! - `roles.rt` has the messages, the roles, the state and the records, `rules.rt` the variants.
//! - `elections.rt`, `replication.rt` and `commitment.rt` have the rows of elections, of followers
//!   and of leaders; `server.rt` has timers, syncs, and the choice of the row for an input.
//! - `standing.rt` has what these rows share: terms, majorities and timeouts.
//! - `client.rt` is the client. `disk.rt` has the bytes that a server writes and boots from,
//!   `changes.rt` undoes reactions, `probes.rt` has the probes, and `node.rt` the node.
//!
//! Why it is built this way (docs/NODES_SERVERS.md says more):
//!
//! - A server's [`Standing`] is all of it but the log and what it knows of its peers. A reaction
//!   changes at most one entry or one peer ([`Change`]), so a record is small.
//! - A server reacts in one [`Context`]. What the contracts of its reactions share has names in
//!   `specs/Reacting.antt`: `MayReact`, `Reacted` and `LeadsBack`.
//! - A variant is a type, so that a world has servers of one variant. The code is the same; it asks
//!   the [`Rules`] at the two places where the variants differ.
#![tactic(auto)]

mod changes;
mod client;
mod commitment;
mod disk;
mod elections;
mod node;
mod probes;
mod replication;
mod roles;
mod rules;
mod server;
mod standing;

pub use node::Raft;
pub use probes::probe_name;
pub use roles::{
    Ack, Append, Ask, Change, Client, Context, Entry, Message, Peer, RaftUndo, Rank, Role, Server,
    Standing, State,
};
pub use rules::{Eager, Hasty, Rules, Sound, Variant};
