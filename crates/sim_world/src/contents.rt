//! The parts of a world, lent for reading.
ghost use Rattle.std.specs.Prelude.{◌≡◌, ◌+◌, ◌<◌, true, option_map, option_copied};
ghost use Rattle.sim_queue.specs.Items.{item_of};
ghost use Rattle.sim_queue.specs.Pending.{first, next_taken, with_serial};
ghost use Rattle.sim_links.specs.Link.{link};
ghost use Rattle.sim_world.specs.World.{host_at, in_flight, held_messages, place};
ghost use Rattle.sim_world.specs.Events.{rules};

use crate::world::World;
use sim_disk::Disk;
use sim_events::Scenario;
use sim_links::LinkState;
use sim_node::{Input, Node};
use sim_pending::Occurrence;

impl<N: Node> World<N> {
    /// Returns the scenario of the world's run.
    pub fn scenario(&self) -> &Scenario
        ensures { result.now ≡ self.now.scenario }
    {
        &self.cluster.scenario
    }

    /// Returns the first pending occurrence, with its due (ms) and its serial.
    pub fn first(&self) -> Option<(u64, u64, &Occurrence<N::Msg>)>
        ensures { option_map (λ r. item_of r.1 (r.0, r.2.now)) result
            ≡ first self.now.world.queue.items }
    {
        self.cluster.parts.queue.first()
    }

    /// Returns the least serial, not below `serial`, of a pending occurrence. Calls from 0, and
    /// then from one above each result, find all pending occurrences in the order in which they
    /// were queued.
    pub fn next_pending(&self, serial: u64) -> Option<u64>
        ensures { result ≡ next_taken serial (λ _. true) self.now.world.queue.items }
    {
        self.cluster
            .parts
            .queue
            .next_that(serial, |_occurrence| true)
    }

    /// Returns the occurrence of a serial, with its due (ms), if it is pending.
    pub fn pending(&self, serial: u64) -> Option<(u64, &Occurrence<N::Msg>)>
        ensures { option_map (λ r. item_of serial (r.0, r.1.now)) result
            ≡ with_serial serial self.now.world.queue.items }
    {
        self.cluster.parts.queue.get(serial)
    }

    /// Returns the serial that the next occurrence gets.
    pub fn next_serial(&self) -> u64
        ensures { result ≡ self.now.world.queue.next_serial }
    {
        self.cluster.parts.queue.next_serial()
    }

    /// Returns the number of messages in flight and held, at most 4,096.
    pub fn messages(&self) -> u32
        ensures { result ≡ in_flight self.now.world + held_messages self.now.world }
    {
        self.cluster.tools.index.in_flight + self.cluster.tools.index.held
    }

    /// Returns the node of a host, or `None` if the host is stopped.
    pub fn node(&self, host: u16) -> Option<&N>
        requires { host < self.now.scenario.setup.hosts }
        ensures { option_copied result ≡ (host_at host self.now.world).node }
    {
        self.cluster.parts.node(host)
    }

    /// Returns the disk of a host.
    pub fn disk(&self, host: u16) -> &Disk
        requires { host < self.now.scenario.setup.hosts }
        ensures { result.now ≡ (host_at host self.now.world).disk }
    {
        &self.cluster.parts.hosts[host as usize].disk
    }

    /// Returns the state of the direction from one host to another, both below 32.
    pub fn link(&self, from: u16, to: u16) -> LinkState
        requires from { from < 32 }
        requires to { to < 32 }
        ensures { result ≡ (link from to self.now.world.links).state }
    {
        self.cluster.parts.links.state(from, to)
    }

    /// Returns the messages that the direction from one host to another holds, the oldest first.
    /// Both hosts are below 32.
    pub fn held(&self, from: u16, to: u16) -> &[N::Msg]
        requires from { from < 32 }
        requires to { to < 32 }
        ensures { result.now ≡ (link from to self.now.world.links).held }
    {
        self.cluster.parts.links.messages(from, to)
    }

    /// Returns the word that is `ahead` words after the place of a stream; 0 gives the next one.
    pub fn peek(&self, stream: u16, ahead: u32) -> u32
        requires { stream < 34 }
        ensures { result ≡ (rules N.laws N.PROBES self.now.scenario).words stream
            (place stream self.now.world + ahead) }
    {
        self.cluster.parts.streams.peek(stream, u64::from(ahead))
    }
}
