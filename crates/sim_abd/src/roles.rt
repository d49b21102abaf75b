//! The messages of the register, its tagged values, and what its clients and servers keep.
use crate::CountedClient;
use sim_hosts::HostSet;
use sim_node::HostSetup;

/// A value with its tag: a number and its writer.
#[derive(Clone, Copy, Debug)]
pub struct Tagged {
    pub number: u64,
    pub writer: u64,
    pub val: u64,
}

/// A message. A request of a client has an even number if it asks, an odd one if it stores. The
/// number comes first, next to the tag, to save bytes.
#[derive(Clone, Copy, Debug)]
pub enum AbdMsg {
    /// A client asks for the value of a server.
    Ask(u32),
    /// A server answers with its value.
    Tell(u32, Tagged),
    /// A client asks a server to store this.
    Store(u32, Tagged),
    /// A server has stored this or a greater one, and it is stable.
    Kept(u32),
}

/// The phase of a client's operation.
#[derive(Clone, Copy, Debug)]
pub enum Phase {
    Resting,
    Asking,
    Storing,
}

/// A client.
#[derive(Clone, Copy, Debug)]
pub struct Client {
    /// The number of the current operation, from 1.
    pub next: u32,
    pub phase: Phase,
    /// The servers that have answered in this phase.
    pub answers: HostSet,
    /// The greatest tagged value of the answers, and then the one to be stored.
    pub best: Tagged,
    pub last_read: u64,
}

/// A host and its request, to be answered when the stored value is stable.
#[derive(Clone, Copy, Debug)]
pub struct Owed {
    pub host: u16,
    pub request: u32,
}

/// A server.
#[derive(Clone, Copy, Debug)]
pub struct Server {
    pub kept: Tagged,
    /// The number of syncs that it waits for.
    pub unsure: u64,
    pub owed: Option<Owed>,
}

/// The role of a host.
#[derive(Clone, Copy, Debug)]
pub enum Role {
    Client(CountedClient),
    Server(Server),
}

/// The state of a host.
#[derive(Clone, Copy)]
pub struct State {
    pub setup: HostSetup,
    pub me: u16,
    pub role: Role,
}
