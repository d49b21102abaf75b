//! The messages of two-phase commit, what its hosts keep, and the records of their reactions.
use sim_hosts::{Boxed, HostSet, SlotBefore};
use sim_node::HostSetup;

/// A message. The coordinator counts transactions from 1, a client its operations from 1. A flag
/// comes first, next to the tag, to save bytes.
#[derive(Clone, Copy, Debug)]
pub enum CommitMsg {
    /// A client asks for a transaction, for its operation of this number.
    Begin(u64),
    /// The transaction for the client's operation of this number is committed, or aborted.
    Answer(bool, u64),
    /// The coordinator asks for a vote on this transaction.
    Prepare(u64),
    /// A participant votes for this transaction, or against it.
    Vote(bool, u64),
    /// This transaction is committed, or aborted.
    Decide(bool, u64),
    /// A participant has a stable commit of this transaction, or is past it.
    Seen(u64),
    /// A participant asks for the outcome of this transaction.
    Inquire(u64),
}

/// The outcome of transaction 1.
#[derive(Clone, Copy, Debug)]
pub enum First {
    Open,
    Committed,
    Aborted,
}

/// The phase of the coordinator.
#[derive(Clone, Copy, Debug)]
pub enum Phase {
    /// It does nothing.
    Resting,
    /// It asks for votes on the transaction for this operation of a client; the hosts in the set
    /// are for it.
    Voting {
        client: u16,
        votes: HostSet,
        number: u64,
    },
    /// It reports the commit of the transaction; the hosts in the set have seen it.
    Telling {
        told: HostSet,
    },
}

/// A client to be answered when the commit is stable, and the number of its operation.
#[derive(Clone, Copy, Debug)]
pub struct Owed {
    pub client: u16,
    pub number: u64,
}

/// The coordinator's last transaction, and its phase.
#[derive(Clone, Copy, Debug)]
pub struct Conduct {
    /// The number of the transaction, 0 before the first.
    pub transaction: u64,
    /// Whether it commits.
    pub commits: bool,
    pub first: First,
    pub phase: Phase,
    /// The number of syncs that it waits for.
    pub unsure: u64,
    pub owed: Option<Owed>,
}

/// The coordinator: its conduct, and the operation that each host waits with.
#[derive(Clone, Copy, Debug)]
pub struct Coordinator {
    pub conduct: Conduct,
    pub waiting: [Option<u64>; 32],
}

/// What a participant has voted or learned of its transaction.
#[derive(Clone, Copy, Debug, PartialEq, Eq)]
pub enum Status {
    Idle,
    Prepared,
    Committed,
    Aborted,
}

/// A participant.
#[derive(Clone, Copy, Debug)]
pub struct Participant {
    /// The last transaction that it was asked for, 0 before the first.
    pub transaction: u64,
    pub status: Status,
    pub first: First,
    /// The number of syncs that it waits for.
    pub unsure: u64,
}

/// The role of a host.
#[derive(Debug, Drop)]
pub enum Role {
    /// A client waits for the answer to this operation, from 1.
    Client { next: u64 },
    Coordinator(Boxed<Coordinator>),
    Participant(Participant),
}

/// The state of a host.
#[derive(Drop)]
pub struct State {
    pub setup: HostSetup,
    pub me: u16,
    pub role: Role,
}

/// The slots that a reaction changed, as they were before: of the host that asked, and of the host
/// for which a transaction was begun after that.
#[derive(Clone, Copy)]
pub struct Slots {
    pub asked: SlotBefore<u64>,
    pub begun: SlotBefore<u64>,
}

/// The record of a reaction: the parts of the state before it that may have changed.
#[derive(Clone, Copy)]
pub enum CommitUndo {
    /// A client that waited for this operation.
    Client { next: u64 },
    /// A coordinator with this conduct, and the slots that it changed.
    Coordinator { conduct: Conduct, slots: Slots },
    Participant(Participant),
}
