//! The messages of primary-backup, what its hosts keep, and the records of their reactions.
use sim_hosts::{Boxed, HostSet, SlotBefore};
use sim_node::HostSetup;

/// A message. A client counts its puts from 1; the primary counts all puts as it applies them.
#[derive(Clone, Copy, Debug)]
pub enum BackupMsg {
    /// A client asks to put this value into a cell, as its put of this number.
    Put(u64, u64),
    /// The primary sends a put to the backups: the cell, its number, the value. The cell comes
    /// first, next to the tag, to save bytes.
    Apply(u8, u64, u64),
    /// A backup has applied all puts up to this one, and they are stable.
    Ack(u64),
    /// The client's put of this number has ended.
    Fin(u64),
}

/// The progress of a server.
#[derive(Clone, Copy, Debug)]
pub struct Progress {
    /// The number of puts that it has applied.
    pub applied: u64,
    /// The cell of the last put.
    pub last: u8,
    /// The number of syncs that it waits for.
    pub unsure: u64,
}

/// The cells and the progress of a server.
#[derive(Clone, Copy, Debug)]
pub struct Store {
    pub cells: [u64; 16],
    pub progress: Progress,
}

/// The put that the primary sends to the backups. After a restart it has no client.
#[derive(Clone, Copy, Debug)]
pub struct Request {
    pub client: Option<u16>,
    /// The backups that have the put.
    pub answers: HostSet,
    pub number: u64,
}

/// A put that waits.
#[derive(Clone, Copy, Debug)]
pub struct Waiter {
    pub number: u64,
    pub val: u64,
}

/// The primary: its store, its current put, and the put that each host waits with.
#[derive(Clone, Copy, Debug)]
pub struct Primary {
    pub store: Store,
    pub current: Option<Request>,
    pub waiting: [Option<Waiter>; 32],
}

/// The role of a host.
#[derive(Debug, Drop)]
pub enum Role {
    /// A client waits for the end of its put of this number, from 1.
    Client { next: u64 },
    Primary(Boxed<Primary>),
    Backup(Boxed<Store>),
}

/// The state of a host.
#[derive(Drop)]
pub struct State {
    pub setup: HostSetup,
    pub me: u16,
    pub role: Role,
}

/// The value of a cell before a reaction.
#[derive(Clone, Copy)]
pub enum CellBefore {
    /// The reaction changed no cell.
    Same,
    /// This cell had this value.
    Held(u8, u64),
}

/// The cell and the slot that a reaction of the primary changed, as they were before.
#[derive(Clone, Copy)]
pub struct Changes {
    pub cell: CellBefore,
    pub slot: SlotBefore<Waiter>,
}

/// The record of a reaction: the parts of the state before it that may have changed.
#[derive(Clone, Copy)]
pub enum BackupUndo {
    /// A client that waited for the end of this put.
    Client {
        next: u64,
    },
    /// A primary with this progress and this put.
    Primary {
        progress: Progress,
        current: Option<Request>,
        changes: Changes,
    },
    /// A backup with this progress, and a cell that it changed.
    Backup {
        progress: Progress,
        cell: CellBefore,
    },
}
