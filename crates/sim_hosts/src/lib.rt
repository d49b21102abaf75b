//! What the protocols with several servers share.
//!
//! - [`HostSet`]: a set of hosts in 32 bits, for those that answered or voted.
//! - `send_to_all` and `send_to_missing`: a message to each server, or to each that is not in a
//!   set.
//! - `lowest_waiting`, `wait_with`, `put_back` and [`SlotBefore`]: a table of what each of 32 hosts
//!   waits with, and the record by which a change of one slot is undone.
//! - [`Boxed`]: the state of a role on the heap, so that hosts in other roles do not carry it.
//! - `byte_at`, `number_at` and `put_number`: numbers on a disk, low byte first. Bytes that the
//!   disk does not have are 0, so that a server can boot from an empty disk.
//!
//! Each function's result is a definition of `specs/`, mostly of the same name, from which the
//! protocols' own tables are built.
#![tactic(auto)]

mod boxed;
mod bytes;
mod servers;
mod set;
mod waiting;

pub use boxed::Boxed;
pub use bytes::{byte_at, number_at, put_number};
pub use servers::{is_other, send_to_all, send_to_missing};
pub use set::HostSet;
pub use waiting::{SlotBefore, lowest_waiting, put_back, wait_with};
