//! Primary-backup replication as a node: server 0 is the primary, the other servers are the
//! backups.
//!
//! Clients put values into 16 cells. The primary applies one put at a time and saves it. Once it is
//! stable the primary sends it to the backups, and it answers the client when every backup has
//! answered. docs/PROTOCOLS.md has the tables, a row for each input.
//!
//! [`PrimaryBackup`] implements the trait `Node` of `sim_node` for every meter. So it is proved
//! that the node does what its tables say (`specs/PrimaryBackup.antt`, a definition for each row)
//! and that each reaction can be undone. Agreement, durability and progress of the protocol are not
//! proved; the simulator is there to examine them.
//!
//! Where to find what: `roles.rt` has the messages, the roles, the state and the records;
//! `client.rt`, `primary.rt`, `backup.rt` and `store.rt` have the rows; `node.rt` is the node.
//!
//! Why it is built this way:
//!
//! - The record of a reaction ([`BackupUndo`]) keeps what that reaction can change: the progress,
//!   the current put, one cell and one waiting host. It is plain data of fixed size.
//! - The primary and the backups are in boxes, so that a client does not carry their cells, nor a
//!   backup the table of waiting hosts. `sim_hosts::Boxed` is a type whose value is what the box
//!   holds, so that definitions see no box.
//! - The hosts in a state (whose put it is, who waits) are below the number of hosts by the node's
//!   invariant, because `send` requires it.
#![tactic(auto)]

mod backup;
mod client;
mod node;
mod primary;
mod roles;
mod store;

pub use node::PrimaryBackup;
pub use roles::{
    BackupMsg, BackupUndo, CellBefore, Changes, Primary, Progress, Request, Role, State, Store,
    Waiter,
};
