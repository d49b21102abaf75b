//! Packed hosts, as in a checkpoint.
ghost use Rattle.std.specs.Prelude.{◌≡◌, ◌<◌, ◌++◌, ◌∷◌, [], length, map, slice_get, Some};
ghost use Rattle.std.specs.Prelude.{is_some, IfOk, OnOk};
ghost use Rattle.std.specs.List.{count_by};
ghost use Rattle.sim_world.specs.Acts.{copied_by, copied_if};
ghost use Rattle.sim_world.specs.inside.Packed.{hosts_in, timers_in, others_in};

use crate::NoMemory;
use crate::host::Host;
use sim_disk::PackedDisks;
use sim_node::Node;
use std::alloc::Global;
use std::marker::Model;

/// A host without its disk, the serial of its pending timer, and the number of its pending starts
/// and syncs.
#[derive(Drop)]
pub struct KeptHost<S> {
    pub node: Option<S>,
    pub done: bool,
    pub timer: Option<u64>,
    pub others: u64,
}

/// Hosts with their disks in one place, the serials of their pending timers, and the numbers of
/// their pending starts and syncs.
#[derive(Drop)]
pub(crate) struct PackedHosts<S> {
    kept: Vec<KeptHost<S>>,
    disks: PackedDisks,
}

impl<S> Model for PackedHosts<S> {
    ghost use Rattle.std.specs.Prelude.{◌≡◌, length};
    ghost use Rattle.sim_world.specs.inside.Packed.{HostsInHand, hosts_in, timers_in};
    ghost use Rattle.sim_world.specs.inside.Packed.{others_in};

    ghost Value = { HostsInHand S };

    ghost view = { λ p. record {
      hosts = hosts_in p.kept.items p.disks;
      timers = timers_in p.kept.items;
      others = others_in p.kept.items;
    } };

    ghost invariant = { λ p. length p.disks ≡ length p.kept.items };
}

// Returns the numbers of stable bytes and of writes of all the hosts' disks together. They only
// serve to make room.
fn room_of<S>(hosts: &[Host<S>]) -> (usize, usize) {
    let mut bytes: usize = 0;
    let mut writes: usize = 0;
    for host in hosts {
        bytes = bytes.saturating_add(host.disk.stable().len());
        writes = writes.saturating_add(host.disk.unsynced() as usize);
    }
    (bytes, writes)
}

// Returns an equal node, if there is one.
fn copied_node<N: Node>(
    alloc: Global,
    node: &Option<N>,
    meter: &mut N::Meter,
) -> Result<Option<N>, NoMemory>
    ensures node { IfOk result (λ copy. copy ≡ node.now) }
    ensures work { OnOk result (
        N.Meter.work meter.new ≡ copied_if (is_some node.now) (N.Meter.work meter.old)) }
{
    match node {
        None => Ok(None),
        Some(node) => Ok(Some(node.copy(alloc, meter)?)),
    }
}

// Returns copies of the disks of hosts.
fn packed_disks<S>(alloc: Global, hosts: &[Host<S>]) -> Result<PackedDisks, NoMemory>
    ensures { IfOk result (λ disks. disks ≡ map (λ host. host.disk) hosts.now) }
{
    let (bytes, writes) = room_of(hosts);
    let mut disks = PackedDisks::with_room(alloc, hosts.len(), bytes, writes)?;
    for host in hosts {
        disks.push(&host.disk)?;
    }
    Ok(disks)
}

// Adds a host without its disk, with the serial of its pending timer and the number of its pending
// starts and syncs. Its node, if it has one, is moved once.
fn push_kept<N: Node>(
    alloc: Global,
    kept: &mut Vec<KeptHost<N>>,
    host: &Host<N>,
    timer: Option<u64>,
    others: u64,
    meter: &mut N::Meter,
) -> Result<(), NoMemory>
    ensures hosts { OnOk result (kept.new.items ≡ kept.old.items ++ record {
      node = host.now.node;
      done = host.now.done;
      timer = timer;
      others = others;
    } ∷ []) }
    ensures work { OnOk result (
        N.Meter.work meter.new ≡ copied_if (is_some host.now.node) (N.Meter.work meter.old)) }
{
    let done = host.done;
    match &host.node {
        None => kept.push(KeptHost {
            node: None,
            done,
            timer,
            others,
        })?,
        Some(node) => kept.push(KeptHost {
            node: Some(node.copy(alloc, meter)?),
            done,
            timer,
            others,
        })?,
    }
    Ok(())
}

// Returns the hosts without their disks, with these serials of their pending timers, and these
// numbers of their pending starts and syncs. Copies the nodes of those that run.
fn kept_hosts<N: Node>(
    alloc: Global,
    hosts: &[Host<N>],
    timers: &[Option<u64>],
    others: &[u64],
    meter: &mut N::Meter,
) -> Result<Vec<KeptHost<N>>, NoMemory>
    requires timers { length timers.now ≡ length hosts.now }
    requires others { length others.now ≡ length hosts.now }
    ensures hosts { IfOk result (λ kept.
        hosts_in kept.items (map (λ host. host.disk) hosts.now) ≡ hosts.now) }
    ensures timers { IfOk result (λ kept. timers_in kept.items ≡ timers.now) }
    ensures others { IfOk result (λ kept. others_in kept.items ≡ others.now) }
    ensures count { IfOk result (λ kept. length kept.items ≡ length hosts.now) }
    ensures work { OnOk result (
        N.Meter.work meter.new ≡ copied_by (count_by (λ host. is_some host.node) hosts.now)
        (N.Meter.work meter.old)) }
{
    let mut kept = Vec::with_capacity(alloc, hosts.len())?;
    for i in 0..hosts.len() {
        push_kept(alloc, &mut kept, &hosts[i], timers[i], others[i], meter)?;
    }
    Ok(kept)
}

impl<N: Node> PackedHosts<N> {
    /// Returns equal hosts, with these serials of their pending timers, and these numbers of their
    /// pending starts and syncs. Copies the nodes of those that run.
    pub(crate) fn pack(
        alloc: Global,
        hosts: &[Host<N>],
        timers: &[Option<u64>],
        others: &[u64],
        meter: &mut N::Meter,
    ) -> Result<PackedHosts<N>, NoMemory>
        requires timers { length timers.now ≡ length hosts.now }
        requires others { length others.now ≡ length hosts.now }
        ensures hosts { IfOk result (λ p.
            p ≡ record { hosts = hosts.now; timers = timers.now; others = others.now }) }
        ensures work { OnOk result (
            N.Meter.work meter.new ≡ copied_by (count_by (λ host. is_some host.node) hosts.now)
            (N.Meter.work meter.old)) }
    {
        let disks = packed_disks(alloc, hosts)?;
        let kept = kept_hosts(alloc, hosts, timers, others, meter)?;
        Ok(PackedHosts { kept, disks })
    }

    // Returns a host equal to that of this number.
    fn host(&self, alloc: Global, number: usize, meter: &mut N::Meter) -> Result<Host<N>, NoMemory>
        requires { number < length self.now.hosts }
        ensures host { IfOk result (λ host. slice_get self.now.hosts number ≡ Some host) }
        ensures work { IfOk result (λ host.
            N.Meter.work meter.new ≡ copied_if (is_some host.node) (N.Meter.work meter.old)) }
    {
        let kept = &self.kept[number];
        // The node comes last, so that it goes straight to where the host is stored.
        let disk = self.disks.get(alloc, number)?;
        let node = copied_node(alloc, &kept.node, meter)?;
        Ok(Host {
            node,
            disk,
            done: kept.done,
        })
    }

    /// Returns equal hosts. Copies the nodes of those that run.
    pub(crate) fn hosts(
        &self,
        alloc: Global,
        meter: &mut N::Meter,
    ) -> Result<Vec<Host<N>>, NoMemory>
        ensures hosts { IfOk result (λ hosts. hosts.items ≡ self.now.hosts) }
        ensures work { OnOk result (
            N.Meter.work meter.new ≡ copied_by (count_by (λ host. is_some host.node) self.now.hosts)
            (N.Meter.work meter.old)) }
    {
        let mut hosts = Vec::with_capacity(alloc, self.kept.len())?;
        for number in 0..self.kept.len() {
            hosts.push(self.host(alloc, number, meter)?)?;
        }
        Ok(hosts)
    }

    /// Returns the serials of the hosts' pending timers.
    pub(crate) fn timers(&self, alloc: Global) -> Result<Vec<Option<u64>>, NoMemory>
        ensures { IfOk result (λ timers. timers.items ≡ self.now.timers) }
    {
        let mut timers = Vec::with_capacity(alloc, self.kept.len())?;
        for kept in &self.kept {
            timers.push(kept.timer)?;
        }
        Ok(timers)
    }

    /// Returns the numbers of the hosts' pending starts and syncs.
    pub(crate) fn others(&self, alloc: Global) -> Result<Vec<u64>, NoMemory>
        ensures { IfOk result (λ others. others.items ≡ self.now.others) }
    {
        let mut others = Vec::with_capacity(alloc, self.kept.len())?;
        for kept in &self.kept {
            others.push(kept.others)?;
        }
        Ok(others)
    }
}
