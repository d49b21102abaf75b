//! Reads the text of a scenario: a TOML document with the hosts, their protocol, the network, the
//! disks and the numbers of a run.
//!
//! [`read`] returns a [`ScenarioText`], or the first fault of the text. Faults have a fixed order
//! and the numbers 1 to 14; docs/SCENARIO.md lists them with a text for each.
//!
//! ```text
//! let scenario = sim_scenario::read::<Mine>(alloc, text)?;
//! scenario.protocol              // the place of the protocol among `Mine`
//! scenario.names.get("w")        // the number of host w
//! scenario.tick                  // 1 to 60,000 ms
//! ```
//!
//! Two properties are proved. `read` accepts exactly the texts that the definition in
//! `specs/Scenario.antt` accepts, with the values that they write, and every error but want of
//! memory is the first fault of the text. What `read` returns is within the limits of a run, so no
//! caller tests them again.
//!
//! Why it is built this way:
//!
//! - The definition is a list of checks in the order of the documentation's table. The reader has
//!   its own shape, three functions that each end in the next, and lemmas join the two. A long
//!   function costs the prover more than its pieces, since each early return carries all earlier
//!   parts.
//! - A link's `source` and `target` may be any string. A string that is no name is no host, so it
//!   is fault 13 and not fault 10.
//! - The crate knows no protocol. Its caller gives a list of them, a type that implements
//!   [`Protocols`]: each has a name and a least number of servers. So a program with its own
//!   protocols reads the same texts with the same faults. The crate depends on no node and no
//!   world.
#![tactic(auto)]

mod fault;
mod fields;
mod hosts;
mod links;
mod reading;

ghost use Rattle.std.specs.Prelude.{◌≡◌, ◌≤◌, ◌<◌, List, length, IfSome};
ghost use Rattle.sim_scenario.specs.Scenario as scenario;
ghost use Rattle.sim_scenario.specs.Scenario.{Protocol};

pub use fault::{Key, ScenarioFault};
pub use hosts::{are_bytes_of_name, host_name, host_number, is_name};
use indexmap::IndexMap;
pub use reading::read;
use sim_links::Ways;
pub use std::alloc::AllocError as NoMemory;

/// The protocols that a scenario may name: a list, in which each has a place.
pub trait Protocols {
    /// The name of each protocol, and the number of servers that it needs.
    ghost listed: { List Protocol };

    /// Returns the place of the first protocol with this name, or `None`.
    fn named(name: &str) -> Option<usize>
        requires few { length listed ≤ 255 }
        ensures is { result ≡ scenario.place_named listed name.now }
        ensures within { IfSome result (λ place. place < length listed) };

    /// Returns the number of servers that the protocol at a place needs.
    fn least_servers(place: usize) -> usize
        ensures { result ≡ scenario.least_servers listed place };
}

/// The contents of a scenario.
#[derive(Drop)]
pub struct ScenarioText {
    /// The number of each host, by its name. The hosts are in the order of their numbers, servers
    /// first.
    pub names: IndexMap<String, u16>,
    /// The place of the protocol in the list of those that may be named.
    pub protocol: usize,
    pub seed: [u8; 32],
    /// The length of a tick, 1 to 60,000 ms.
    pub tick: u32,
    /// The latencies and the loss of each ordered pair of hosts.
    pub ways: Ways,
    /// The latency of a sync, 0 to 60,000 ms.
    pub disk_latency: u32,
    /// The number of servers.
    pub servers: u16,
    /// The operations of each host, 1 to 1,000 for a client and 0 for a server or no host.
    pub ops: [u16; 32],
    /// The number of events between two checkpoints, 1 to 1,024.
    pub checkpoint: u32,
    /// The number of events that their records can undo, 1 to 4,096.
    pub window: u32,
}
