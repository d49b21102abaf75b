//! Packed worlds, as in a checkpoint.
ghost use Rattle.std.specs.Prelude.{◌≡◌, IfOk, OnOk};
ghost use Rattle.sim_world.specs.Acts.{running, copied_by};
ghost use Rattle.sim_world.specs.inside.Held.{IsHeld, in_hand};
ghost use Rattle.sim_world.specs.inside.Index.{IsIndex};

use crate::NoMemory;
use crate::cluster::Cluster;
use crate::index::Index;
use crate::packed_hosts::PackedHosts;
use crate::parts::Parts;
use crate::tools::Tools;
use crate::trail::Trail;
use crate::world::World;
use sim_disk::SpareDisks;
use sim_events::Scenario;
use sim_links::PackedLinks;
use sim_node::{Effects, Node};
use sim_pending::{Occurrence, copied_occurrence};
use sim_queue::PackedQueue;
use sim_streams::Streams;
use std::alloc::Global;
use std::marker::Model;
use std::sync::Arc;

/// A world in less memory, as in a checkpoint. Contracts see the world, its scenario and its age.
pub struct PackedWorld<N: Node> {
    clock: u64,
    streams: Streams,
    queue: PackedQueue<Occurrence<N::Msg>>,
    links: PackedLinks<N::Msg>,
    hosts: PackedHosts<N>,
    in_flight: u32,
    held: u32,
    scenario: Arc<Scenario>,
    age: u32,
}

// Not derived, for the reason that `World` gives.
impl<N: Node> Drop for PackedWorld<N> {
    fn drop(self) {
        let PackedWorld {
            clock: _clock,
            streams: _streams,
            queue: _queue,
            links: _links,
            hosts: _hosts,
            in_flight: _in_flight,
            held: _held,
            scenario: _scenario,
            age: _age,
        } = self;
    }
}

impl<N: Node> Model for PackedWorld<N> {
    ghost use Rattle.sim_world.specs.Records.{InHand};
    ghost use Rattle.sim_world.specs.inside.Packed.{IsPacked};

    ghost Value = { InHand N N.Msg };

    ghost view = { λ p. record {
      world = record {
        clock = p.clock;
        places = p.streams.places;
        queue = p.queue;
        links = p.links;
        hosts = p.hosts.hosts;
      };
      scenario = p.scenario.value;
      age = p.age;
    } };

    ghost invariant = { λ p. IsPacked N.told p.streams.seed p.in_flight p.held p.hosts.timers
        p.hosts.others (record {
          world = record {
            clock = p.clock;
            places = p.streams.places;
            queue = p.queue;
            links = p.links;
            hosts = p.hosts.hosts;
          };
          scenario = p.scenario.value;
          age = p.age;
        }) };
}

impl<N: Node> Cluster<N> {
    // Returns an equal packed world. Copies the nodes of the hosts that run.
    fn pack(&self, alloc: Global, meter: &mut N::Meter) -> Result<PackedWorld<N>, NoMemory>
        requires { IsHeld N.told self.now }
        ensures same { IfOk result (λ packed. packed ≡ in_hand self.now) }
        ensures work { OnOk result (
            N.Meter.work meter.new ≡ copied_by (running self.now.parts.world)
            (N.Meter.work meter.old)) }
    {
        let parts = &self.parts;
        let queue = parts.queue.pack(
            alloc,
            |occurrence| copied_occurrence::<N>(alloc, occurrence),
        )?;
        let links = parts.links.pack(alloc, |msg| N::copy_msg(alloc, msg))?;
        let timers = self.tools.index.timers.as_slice();
        let others = self.tools.index.others.as_slice();
        let hosts = PackedHosts::pack(alloc, parts.hosts.as_slice(), timers, others, meter)?;
        let scenario = Arc::try_clone(&self.scenario)?;
        Ok(PackedWorld {
            clock: parts.clock,
            streams: parts.streams.copy(),
            queue,
            links,
            hosts,
            in_flight: self.tools.index.in_flight,
            held: self.tools.index.held,
            scenario,
            age: self.age,
        })
    }
}

impl<N: Node> World<N> {
    /// Returns an equal packed world. Copies the node of each host that runs, and counts no turn
    /// and no undo. Shares the scenario. Fails only for want of memory.
    pub fn pack(&self, alloc: Global, meter: &mut N::Meter) -> Result<PackedWorld<N>, NoMemory>
        ensures same { IfOk result (λ packed. packed ≡ self.now) }
        ensures work { OnOk result (
            N.Meter.work meter.new ≡ copied_by (running self.now.world) (N.Meter.work meter.old)) }
    {
        self.cluster.pack(alloc, meter)
    }
}

impl<N: Node> PackedWorld<N> {
    // Returns the parts of an equal world. Copies the nodes of the hosts that run.
    fn parts(&self, alloc: Global, meter: &mut N::Meter) -> Result<Parts<N>, NoMemory>
        ensures seed { IfOk result (λ parts. parts.seed ≡ self.now.scenario.seed) }
        ensures world { IfOk result (λ parts. parts.world ≡ self.now.world) }
        ensures work { OnOk result (
            N.Meter.work meter.new ≡ copied_by (running self.now.world) (N.Meter.work meter.old)) }
    {
        let streams = Box::new(alloc, self.streams.copy())?;
        let queue = self.queue.open(
            alloc,
            |occurrence| copied_occurrence::<N>(alloc, occurrence),
        )?;
        let links = self.links.open(alloc, |msg| N::copy_msg(alloc, msg))?;
        let hosts = self.hosts.hosts(alloc, meter)?;
        Ok(Parts {
            clock: self.clock,
            streams,
            queue,
            links,
            hosts,
            spare_disks: SpareDisks::new(alloc),
        })
    }

    // Returns the index of the world.
    fn index(&self, alloc: Global) -> Result<Index, NoMemory>
        ensures { IfOk result (λ index. IsIndex index self.now.world) }
    {
        Ok(Index {
            in_flight: self.in_flight,
            held: self.held,
            timers: self.hosts.timers(alloc)?,
            others: self.hosts.others(alloc)?,
        })
    }

    // Returns an equal cluster. Copies the nodes of the hosts that run.
    fn cluster(&self, alloc: Global, meter: &mut N::Meter) -> Result<Cluster<N>, NoMemory>
        ensures same { IfOk result (λ cluster. in_hand cluster ≡ self.now) }
        ensures held { IfOk result (λ cluster. IsHeld N.told cluster) }
        ensures work { OnOk result (
            N.Meter.work meter.new ≡ copied_by (running self.now.world) (N.Meter.work meter.old)) }
    {
        let setup = self.scenario.setup();
        let index = self.index(alloc)?;
        let effects = Effects::new(alloc, &setup)?;
        let scenario = Arc::try_clone(&self.scenario)?;
        let parts = self.parts(alloc, meter)?;
        Ok(Cluster {
            parts,
            tools: Tools { index, effects },
            scenario,
            age: self.age,
            spare: Vec::new(alloc),
            forgetful: Trail::forgetful(alloc),
        })
    }

    /// Returns an equal world. Copies the node of each host that runs, and counts no turn and no
    /// undo. Shares the scenario. Fails only for want of memory.
    pub fn open(&self, alloc: Global, meter: &mut N::Meter) -> Result<World<N>, NoMemory>
        ensures same { IfOk result (λ world. world ≡ self.now) }
        ensures work { OnOk result (
            N.Meter.work meter.new ≡ copied_by (running self.now.world) (N.Meter.work meter.old)) }
    {
        let cluster = self.cluster(alloc, meter)?;
        let cluster = Box::new(alloc, cluster)?;
        Ok(World { cluster })
    }
}
