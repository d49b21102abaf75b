//! Two-phase commit with presumed abort, as a node: server 0 is the coordinator, the other servers
//! are the participants.
//!
//! Clients ask for transactions. The coordinator runs one at a time: it asks the participants for
//! their votes, commits if all agree, and tells them. A server writes its state to disk, and waits
//! for the sync before it votes for a transaction or reports a commit. A participant votes against
//! a transaction when the random word of its turn says so. docs/PROTOCOLS.md has the tables, a row
//! for each input.
//!
//! [`TwoPhase`] implements the trait `Node` of `sim_node` for every meter. So it is proved that the
//! node does what its tables say (`specs/TwoPhase.antt`, a definition for each row) and that each
//! reaction can be undone. That the servers agree is not proved. In fact they can disagree: a
//! coordinator that boots with transaction 1 open presumes that it was aborted, even if a torn
//! write has set its commit flag. The table says so, and `examples/walk-back.play` shows it.
//!
//! Where to find what: `roles.rt` has the messages, the roles, the state and the records;
//! `coordinator.rt`, `conduct.rt`, `participant.rt` and `client.rt` have the rows; `disk.rt` has
//! the ten bytes that a server writes; `node.rt` is the node.
//!
//! Why it is built this way:
//!
//! - The coordinator's record ([`CommitUndo`]) keeps its whole conduct and at most two of the 32
//!   slots of waiting hosts. No record has a collection.
//! - The coordinator is in a box, so that other hosts do not carry its table of waiting hosts.
//!   `sim_hosts::Boxed` is a type whose value is what the box holds, so that definitions see no
//!   box.
#![tactic(auto)]

mod client;
mod conduct;
mod coordinator;
mod disk;
mod node;
mod participant;
mod roles;

pub use node::TwoPhase;
pub use roles::{
    CommitMsg, CommitUndo, Conduct, Coordinator, First, Owed, Participant, Phase, Role, Slots,
    State, Status,
};
