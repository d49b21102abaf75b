//! What is said of a world from outside: events, questions, and the scenario of a run.
//!
//! None of it holds a world, so a crate that only keeps events needs no `sim_world`.
//!
//! * [`Event`]: a step, an advance of the clock, or a [`Fault`]. [`Refusal`] says why an event
//!   cannot happen.
//! * [`Query`] and [`View`]: a question to a world, and its answer.
//! * [`Scenario`]: the seed, the hosts, the latencies, and how a tape keeps the run; within limits.
//!
//! `specs/Scenario.antt` defines a scenario, `specs/Limits.antt` its limits, `specs/Seeds.antt` the
//! scenarios of a sweep, and `specs/Faults.antt` which faults are refused.
#![tactic(auto)]

mod refusals;
mod scenario;

pub use scenario::{BadLimits, Scenario};
use sim_links::LinkState;

/// The longest tick (ms); the shortest is 1.
pub const MAX_TICK: u32 = 60_000;

/// The most milliseconds by which one `Event::Advance` moves the clock.
pub const MAX_ADVANCE: u64 = 60_000;

/// The most events between two checkpoints of a tape; the least is 1.
pub const MAX_INTERVAL: u32 = 1_024;

/// The most events of a tape that their records can undo; the least is 1.
pub const MAX_WINDOW: u32 = 4_096;

/// What happens to hosts and links from outside.
#[derive(Clone, Copy, Debug, PartialEq, Eq)]
pub enum Fault {
    /// The host loses its node, its pending start and timer, and the syncs that have not come yet.
    /// Each of its writes that is not stable is dropped, kept or torn, by a word of the stream for
    /// torn writes. Messages to it stay, and it stays done if it was. A stopped host is unchanged.
    Crash(u16),
    /// The host crashes if it runs, and boots from its stable bytes; its start is due now.
    Bounce(u16),
    /// Both directions between the two hosts hold the messages sent over them from now on, that
    /// from the first to the second first. A direction that was cut holds them too. Messages in
    /// flight still arrive.
    Hold(u16, u16),
    /// Both directions between the two hosts release the messages that they hold, which arrive now
    /// in the order in which they were sent, and are open; that from the first to the second first.
    /// A direction that is cut stays cut.
    Release(u16, u16),
    /// Both directions between the two hosts drop the messages that they hold, and those sent over
    /// them from now on; that from the first to the second first. Messages in flight still arrive.
    Cut(u16, u16),
    /// The direction from the first host to the second is cut as by `Cut`; that from the second to
    /// the first is unchanged.
    CutOneway(u16, u16),
    /// Both directions between the two hosts are open again if they are cut, that from the first to
    /// the second first. A direction that holds messages is unchanged.
    Repair(u16, u16),
    /// The direction from the first host to the second is open again if it is cut; that from the
    /// second to the first is unchanged.
    RepairOneway(u16, u16),
}

/// An event of the world.
#[derive(Clone, Copy, Debug, PartialEq, Eq)]
pub enum Event {
    /// Takes out the first pending occurrence, by its due and then by its serial. The clock becomes
    /// its due, and it happens to its host.
    Step,
    /// Advances the clock to this time (ms), at most 60,000 ms later and not past the first due;
    /// nothing else changes.
    Advance(u64),
    /// A fault from outside, at the time of the clock.
    Fault(Fault),
}

/// Why an event cannot happen.
#[derive(Clone, Copy, Debug, PartialEq, Eq)]
pub enum Refusal {
    /// A fault names a host that does not exist.
    UnknownHost,
    /// A fault of a link names one host twice.
    SameHost,
    /// Nothing is pending for a step.
    Idle,
    /// A time to advance to is earlier than the clock, more than 60,000 ms later, or later than the
    /// first due.
    BadAdvance,
}

/// What can be looked at.
#[derive(Clone, Copy)]
pub enum Query {
    /// the clock, the next serial, the places of the streams of the network and of torn writes, and
    /// the numbers of pending occurrences and of held messages
    Summary,
    /// the first pending occurrence
    Next,
    /// a host
    HostView(u16),
    /// the direction from the first host to the second
    Link(u16, u16),
    /// a probe of a host, by its number
    Probe(u16, u8),
}

/// The kind of an occurrence.
#[derive(Clone, Copy, Debug, PartialEq, Eq)]
pub enum Kind {
    /// the start of a host that was booted
    Start,
    /// the end of a timer's delay
    Timer,
    /// a message that arrives
    Message,
    /// a sync of the disk that comes
    Sync,
}

/// The first pending occurrence, and its due in milliseconds.
#[derive(Clone, Copy, Debug, PartialEq, Eq)]
pub struct Coming {
    pub due: u64,
    pub serial: u64,
    pub host: u16,
    pub kind: Kind,
}

/// The result of a query.
#[derive(Clone, Copy, Debug, PartialEq, Eq)]
pub enum View {
    /// the clock (ms), the next serial, the places of the network's and the torn writes' streams,
    /// and the numbers of pending occurrences and of held messages
    Summary {
        clock: u64,
        serial: u64,
        net: u64,
        torn: u64,
        pending: u32,
        held: u32,
    },
    /// the first pending occurrence, or none
    Next(Option<Coming>),
    /// whether a host runs, whether it is done, the place of its stream, the number of its stable
    /// bytes and that of its writes that are not stable
    HostView {
        host: u16,
        up: bool,
        done: bool,
        draws: u64,
        stable: u32,
        unsynced: u32,
    },
    /// the state of a direction, and the number of messages that it holds
    Link {
        a: u16,
        b: u16,
        state: LinkState,
        messages: u32,
    },
    /// the value of a probe, or none if the host is stopped
    Probe {
        host: u16,
        probe: u8,
        value: Option<u64>,
    },
}
