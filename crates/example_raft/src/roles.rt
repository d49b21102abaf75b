use crate::Rules;
use sim_hosts::{Boxed, HostSet};
use sim_node::HostSetup;

/// A value in the log, with the term of the leader that added it. No entry has the term 0.
#[derive(Clone, Copy, Debug)]
pub struct Entry {
    pub term: u64,
    pub value: u64,
}

/// A candidate's request for a vote: its term, the number of entries of its log, and the term of
/// the last one.
#[derive(Clone, Copy, Debug)]
pub struct Ask {
    pub term: u64,
    pub len: u8,
    pub last: u64,
}

/// A leader's message in this term: after `prev` entries, the last of them of the term `before`,
/// comes this entry, if any. `commit` entries are committed.
#[derive(Clone, Copy, Debug)]
pub struct Append {
    pub term: u64,
    pub prev: u8,
    pub before: u64,
    pub entry: Option<Entry>,
    pub commit: u8,
}

/// A follower's answer in a term: its log is the leader's up to `at` entries, or else the leader
/// should try again after `at` entries.
#[derive(Clone, Copy, Debug)]
pub struct Ack {
    pub agrees: bool,
    pub at: u8,
    pub term: u64,
}

/// A message. A client's value is 1000 times the client's number, plus the number of its operation,
/// from 1.
#[derive(Clone, Copy, Debug)]
pub enum Message {
    /// A client asks to commit a value.
    Put(u64),
    /// A value is committed.
    Fin(u64),
    /// This server leads: ask it.
    Try(u16),
    /// A candidate asks for a vote.
    RequestVote(Ask),
    /// A server votes for the candidate of this term, or against it.
    Vote(bool, u64),
    /// A leader sends of its log.
    Append(Append),
    /// A follower answers its leader.
    Appended(Ack),
}

/// A client: the operation that it waits for, from 1, and the server that it asks.
#[derive(Clone, Copy, Debug)]
pub struct Client {
    pub next: u64,
    pub server: u16,
}

/// The rank of a server in its term.
#[derive(Clone, Copy, Debug)]
pub enum Rank {
    Follower,
    Candidate,
    Leader,
}

/// The state of a server, but for its log and what it knows of the others.
#[derive(Clone, Copy, Debug)]
pub struct Standing {
    pub term: u64,
    /// The candidate for which it has voted in this term.
    pub voted: Option<u16>,
    pub rank: Rank,
    /// The server that it knows to lead this term.
    pub leader: Option<u16>,
    /// The servers that have voted for it.
    pub votes: HostSet,
    /// The number of entries of its log.
    pub len: u8,
    /// How many of its entries are known to be the leader's.
    pub matched: u8,
    /// How many of its entries are known to be committed.
    pub commit: u8,
    /// The number of syncs that it waits for.
    pub unsure: u64,
}

/// The number of entries that a host has acknowledged in a term.
#[derive(Clone, Copy, Debug)]
pub struct Peer {
    pub term: u64,
    pub has: u8,
}

/// A server. Entries of `log` past its length have no meaning; nor has what it knows of a peer in
/// another term.
#[derive(Clone, Copy, Debug)]
pub struct Server {
    pub standing: Standing,
    pub log: [Entry; 64],
    pub peers: [Peer; 32],
}

/// The context in which a server reacts: the rules that it follows, the setup of the cluster, its
/// number, and the random word.
#[derive(Clone, Copy)]
pub struct Context {
    pub rules: Rules,
    pub setup: HostSetup,
    pub me: u16,
    pub word: u32,
}

/// The role of a host.
#[derive(Debug, Drop)]
pub enum Role {
    Client(Client),
    Server(Boxed<Server>),
}

/// The state of a host.
#[derive(Drop)]
pub struct State {
    pub setup: HostSetup,
    pub me: u16,
    pub role: Role,
}

/// What a reaction changed in the log or in the knowledge of the others: the value before.
#[derive(Clone, Copy)]
pub enum Change {
    Nothing,
    /// This place of the log had this entry.
    Entry(u8, Entry),
    /// This host had acknowledged this much.
    Peer(u16, Peer),
}

/// The record of a reaction: the parts of the state before it that may have changed.
#[derive(Clone, Copy)]
pub enum RaftUndo {
    Client(Client),
    Server { standing: Standing, change: Change },
}
