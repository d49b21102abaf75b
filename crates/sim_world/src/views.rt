//! What a world shows: whether an event can happen, the results of queries, and single facts for
//! callers that ask after each step.
ghost use Rattle.std.specs.Prelude.{◌≡◌, ℕ, ◌+◌, ◌-◌, ◌<◌, ◌≤◌, ◌&&◌, nat_le, length};
ghost use Rattle.std.specs.Prelude.{MatchResult, Option, None, Some, IsSome, OnOk, nat_lt, not};
ghost use Rattle.std.specs.Prelude.{is_some, if◌then◌else◌, ◌^◌, ◌*◌, drop};
ghost use Rattle.std.specs.Option.{option_map};
ghost use Rattle.std.specs.List.{list_any, list_all};
ghost use Rattle.sim_queue.specs.Pending.{first};
ghost use Rattle.sim_streams.specs.Word.{network, torn, stream_of};
ghost use Rattle.sim_links.specs.Link.{link};
ghost use Rattle.sim_world.specs.World.{place, runs, host_at, held_messages};
ghost use Rattle.sim_world.specs.Events.{Rules, rules, can_go_on, refusal_of};
ghost use Rattle.sim_world.specs.Events.{next};
ghost use Rattle.sim_world.specs.Looks.{looked, coming, kind_of, CanLook};
ghost use Rattle.sim_events.specs.declared.Query.TheVariants as query;
ghost use Rattle.sim_events.specs.declared.View.TheVariants as view;

use crate::host::Host;
use crate::parts::Parts;
use crate::world::World;
use crate::{Coming, Event, Kind, MAX_ADVANCE, Query, Refusal, View};
use sim_events::Scenario;
use sim_node::{Input, Node};
use sim_pending::Occurrence;
use sim_queue::Queue;

// Returns whether the clock can advance to a time (ms): it is no earlier, at most 60,000 ms later,
// and nothing is due before it.
fn can_go_on<M>(clock: u64, queue: &Queue<Occurrence<M>>, to: u64) -> bool
    ensures { result ≡ can_go_on clock queue.now.items to }
{
    if to < clock || MAX_ADVANCE < to - clock {
        return false;
    }
    match queue.first() {
        None => true,
        Some((due, _serial, _occurrence)) => to <= due,
    }
}

// Returns the kind of a pending input.
fn kind<M>(occurrence: &Occurrence<M>) -> Kind
    ensures { result ≡ kind_of occurrence.now.body }
{
    match &occurrence.input {
        Input::Start => Kind::Start,
        Input::Timer => Kind::Timer,
        Input::Message { .. } => Kind::Message,
        Input::Synced => Kind::Sync,
    }
}

// Returns the first pending occurrence.
fn next<M>(queue: &Queue<Occurrence<M>>) -> Option<Coming>
    ensures { result ≡ option_map coming (first queue.now.items) }
{
    match queue.first() {
        None => None,
        Some((due, serial, occurrence)) => Some(Coming {
            due,
            serial,
            host: occurrence.host,
            kind: kind(occurrence),
        }),
    }
}

// Returns why no step can happen.
fn step_refusal<M>(queue: &Queue<Occurrence<M>>) -> Option<Refusal>
    ensures { result ≡ (if is_some (first queue.now.items) then None else Some Refusal.Idle) }
{
    if queue.len() == 0 {
        return Some(Refusal::Idle);
    }
    None
}

// Returns why the clock cannot advance to a time (ms).
fn advance_refusal<M>(clock: u64, queue: &Queue<Occurrence<M>>, to: u64) -> Option<Refusal>
    ensures { result ≡ (if can_go_on clock queue.now.items to then None
        else Some Refusal.BadAdvance) }
{
    if can_go_on(clock, queue, to) {
        return None;
    }
    Some(Refusal::BadAdvance)
}

// Returns the value of a probe, or `None` if there is no node.
fn shown<N: Node>(node: &Option<N>, k: u8) -> Option<u64>
    requires { k < N.PROBES }
    ensures { result ≡ option_map (λ state. N.laws.probe state k) node.now }
{
    match node {
        None => None,
        Some(node) => Some(node.probe(k)),
    }
}

impl<N: Node> Parts<N> {
    // Returns why an event cannot happen.
    fn refusal(&self, scenario: &Scenario, event: Event) -> Option<Refusal>
        ensures { result ≡ refusal_of (rules N.laws N.PROBES scenario.now) event self.now.world }
    {
        match event {
            Event::Step => step_refusal(&self.queue),
            Event::Advance(to) => advance_refusal(self.clock, &self.queue, to),
            Event::Fault(fault) => scenario.refusal(fault),
        }
    }

    // Returns the summary of a world that holds `held` messages.
    fn summary(&self, held: u32) -> View
        requires held { held ≡ held_messages self.now.world }
        requires few { self.now.world.queue.next_serial < 2 ^ 32 }
        ensures { (r : Rules N N.Msg) → result ≡ looked r query.Summary self.now.world }
    {
        View::Summary {
            clock: self.clock,
            serial: self.queue.next_serial(),
            net: self.streams.place(0),
            torn: self.streams.place(1),
            pending: self.queue.len() as u32,
            held,
        }
    }

    // Returns the view of a host.
    fn host_view(&self, h: u16) -> View
        requires host { h < length self.now.world.hosts }
        requires few { length self.now.world.hosts ≤ 32 }
        ensures { (r : Rules N N.Msg) → result ≡ looked r (query.HostView h) self.now.world }
    {
        let draws = self.streams.place(2 + h);
        let host = &self.hosts[h as usize];
        View::HostView {
            host: h,
            up: host.node.is_some(),
            done: host.done,
            draws,
            stable: host.disk.stable().len() as u32,
            unsynced: host.disk.unsynced(),
        }
    }

    // Returns the view of the direction from a to b.
    fn link_view(&self, a: u16, b: u16) -> View
        requires from { a < 32 }
        requires to { b < 32 }
        requires few { held_messages self.now.world ≤ 4096 }
        ensures { (r : Rules N N.Msg) → result ≡ looked r (query.Link a b) self.now.world }
    {
        View::Link {
            a,
            b,
            state: self.links.state(a, b),
            messages: self.links.held(a, b),
        }
    }

    // Returns the view of a probe of a host.
    fn probe_view(&self, h: u16, k: u8) -> View
        requires host { h < length self.now.world.hosts }
        requires probe { k < N.PROBES }
        ensures { result ≡ view.Probe h k (option_map (λ state.
            N.laws.probe state k) (host_at h self.now.world).node) }
    {
        let host = &self.hosts[h as usize];
        View::Probe {
            host: h,
            probe: k,
            value: shown(&host.node, k),
        }
    }
}

impl<N: Node> World<N> {
    /// Returns the number of events before this world.
    pub fn age(&self) -> u32
        ensures { result ≡ self.now.age }
    {
        self.cluster.age
    }

    /// Fails with the reason if an event cannot happen: a fault names a host that does not exist,
    /// or a fault of a link one host twice; nothing is pending for a step; a time to advance to is
    /// earlier than the clock, more than 60,000 ms later, or after the first due.
    #[inline]
    pub fn can(&self, event: Event) -> Result<(), Refusal>
        ensures answer { MatchResult result (λ _.
            refusal_of (rules N.laws N.PROBES self.now.scenario) event self.now.world ≡ None)
            (λ why. refusal_of (rules N.laws N.PROBES self.now.scenario) event self.now.world
            ≡ Some why) }
        ensures leads { OnOk result (
            IsSome (next (rules N.laws N.PROBES self.now.scenario) self.now.world event)) }
    {
        let cluster = &*self.cluster;
        match cluster.parts.refusal(&cluster.scenario, event) {
            None => Ok(()),
            Some(why) => Err(why),
        }
    }

    /// Returns the result of a query. Its hosts must be below the number of hosts, and its probe
    /// below the number of probes.
    pub fn look(&self, query: Query) -> View
        requires { CanLook self.now.scenario.setup.hosts N.PROBES query }
        ensures { result ≡ looked (rules N.laws N.PROBES self.now.scenario) query self.now.world }
    {
        let cluster = &*self.cluster;
        match query {
            Query::Summary => cluster.parts.summary(cluster.tools.index.held),
            Query::Next => View::Next(next(&cluster.parts.queue)),
            Query::HostView(h) => cluster.parts.host_view(h),
            Query::Link(a, b) => cluster.parts.link_view(a, b),
            Query::Probe(h, k) => cluster.parts.probe_view(h, k),
        }
    }
}

// Returns whether all of these hosts are done.
fn are_all_done<S>(hosts: &[Host<S>]) -> bool
    ensures { result ≡ list_all (λ h. h.done) hosts.now }
{
    hosts.iter().all(|host| host.done)
}

// Returns whether something is due at a time (ms) or before it.
fn is_due_by<M>(queue: &Queue<Occurrence<M>>, time: u64) -> bool
    ensures { result ≡ list_any (λ x. nat_le x.due time) queue.now.items }
{
    match queue.first() {
        None => false,
        Some((due, _serial, _occurrence)) => due <= time,
    }
}

impl<N: Node> World<N> {
    /// Returns the clock (ms).
    pub fn clock(&self) -> u64
        ensures value { result ≡ self.now.world.clock }
        ensures small { result ≤ 60000 * 65536 }
    {
        self.cluster.parts.clock
    }

    /// Returns the number of hosts.
    pub fn hosts(&self) -> u16
        ensures value { result ≡ self.now.scenario.setup.hosts }
        ensures all { result ≡ length self.now.world.hosts }
    {
        self.cluster.parts.hosts.len() as u16
    }

    /// Returns whether a host runs.
    pub fn is_up(&self, host: u16) -> bool
        requires { host < self.now.scenario.setup.hosts }
        ensures { result ≡ runs host self.now.world }
    {
        self.cluster.parts.hosts[host as usize].node.is_some()
    }

    /// Returns whether a host is done.
    pub fn is_done(&self, host: u16) -> bool
        requires { host < self.now.scenario.setup.hosts }
        ensures { result ≡ (host_at host self.now.world).done }
    {
        self.cluster.parts.hosts[host as usize].done
    }

    /// Returns the value of a probe of a host, or `None` if the host is stopped.
    pub fn probe(&self, host: u16, probe: u8) -> Option<u64>
        requires host { host < self.now.scenario.setup.hosts }
        requires probe { probe < N.PROBES }
        ensures { result ≡ option_map (λ state. N.laws.probe state probe)
            (host_at host self.now.world).node }
    {
        match &self.cluster.parts.hosts[host as usize].node {
            None => None,
            Some(node) => Some(node.probe(probe)),
        }
    }

    /// Returns whether all clients are done.
    pub fn are_clients_done(&self) -> bool
        ensures { result ≡ list_all (λ h. h.done)
            (drop self.now.scenario.setup.servers self.now.world.hosts) }
    {
        let servers = self.cluster.scenario.servers();
        are_all_done(&self.cluster.parts.hosts.as_slice()[servers as usize..])
    }

    /// Returns whether something is due at a time (ms) or before it.
    pub fn is_due_by(&self, time: u64) -> bool
        ensures { result ≡ list_any (λ x. nat_le x.due time) self.now.world.queue.items }
    {
        is_due_by(&self.cluster.parts.queue, time)
    }
}
