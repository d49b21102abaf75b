//! Echo, the smallest protocol: clients send pings, and servers answer them with pongs.
//!
//! Each client sends its pings to one server, the next one when the last is answered, and is done
//! after as many as it has operations. A lost message is not sent again, and nothing is kept on
//! disk: after a restart a client begins with ping 1, and a server counts from 0.
//!
//! It is the node to read first, and the one that most tests run, since each of its states is a
//! single number. `specs/Echo.antt` has the whole protocol as functions of state and input;
//! [`Echo`] is proved to follow them. Its record of a reaction is the number before it.
//!
//! It depends only on `sim_node`, and not on `sim_hosts`, which has the other protocols'
//! definitions of counters. The tests of the core run echo, and have one crate fewer to wait for.
#![tactic(auto)]

mod echo;

pub use echo::Echo;

/// A message of echo, with the number of the ping, counted by its client from 1.
#[derive(Clone, Copy, Debug, PartialEq, Eq)]
pub enum EchoMsg {
    Ping(u64),
    Pong(u64),
}

/// The record of a reaction: the counter before it.
#[derive(Clone, Copy, PartialEq, Eq)]
pub enum EchoUndo {
    /// The reaction changed nothing.
    Nothing,
    /// A client waited for ping number `next` before.
    Next(u64),
    /// A server had answered this many pings before.
    Served(u64),
}
