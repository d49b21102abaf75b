//! The scenario of a run.
ghost use Rattle.std.specs.Prelude.{◌≡◌, ℕ, ◌<◌, ◌≤◌, IfOk, OnErr, IsTrue, ◌↔◌};
ghost use Rattle.sim_node.specs.Node.{IsSetup};
ghost use Rattle.sim_links.specs.Ways.{way, IsWay};
ghost use Rattle.sim_events.specs.Limits.{HaveOperations};

use crate::{MAX_INTERVAL, MAX_TICK, MAX_WINDOW};
use sim_links::{Way, Ways};
use sim_node::{MAX_HOSTS, MAX_LATENCY, MAX_LOSS, MAX_OPERATIONS, Setup};
use std::marker::Model;

/// The error that a number of a scenario is outside its limits.
#[derive(Clone, Copy, Debug, PartialEq, Eq)]
pub struct BadLimits;

/// The scenario of a run, within the limits.
#[derive(Drop)]
pub struct Scenario {
    seed: [u8; 32],
    tick: u32,
    ways: Ways,
    disk_latency: u32,
    setup: Setup,
    interval: u32,
    window: u32,
}

impl Model for Scenario {
    ghost use Rattle.sim_events.specs.Scenario.{Scenario as ScenarioValue};
    ghost use Rattle.sim_events.specs.Limits.{IsScenario};

    ghost Value = { ScenarioValue };

    ghost view = { λ s. record {
      seed = s.seed;
      tick = s.tick;
      ways = s.ways;
      disk_latency = s.disk_latency;
      setup = s.setup;
      interval = s.interval;
      window = s.window;
    } };

    ghost invariant = { λ s. IsScenario (record {
      seed = s.seed;
      tick = s.tick;
      ways = s.ways;
      disk_latency = s.disk_latency;
      setup = s.setup;
      interval = s.interval;
      window = s.window;
    }) };
}

// Returns whether a number is from `least` to `most`.
fn is_within(number: u32, least: u32, most: u32) -> bool
    ensures { IsTrue result ↔ ((least ≤ number) × (number ≤ most)) }
{
    least <= number && number <= most
}

// Returns whether a way is within the limits.
fn is_way(way: Way) -> bool
    ensures { IsTrue result ↔ IsWay way }
{
    way.latency_min <= way.latency_max && way.latency_max <= MAX_LATENCY && way.loss <= MAX_LOSS
}

// Returns whether the ways from a host are within the limits.
fn are_ways_from(ways: &Ways, a: u16) -> bool
    requires { a < 32 }
    ensures { IsTrue result ↔ ((b : ℕ) → b < 32 → IsWay (way a b ways.now)) }
{
    for b in 0..MAX_HOSTS {
        if !is_way(ways.way(a, b)) {
            return false;
        }
    }
    true
}

// Returns whether all ways are within the limits.
fn are_ways(ways: &Ways) -> bool
    ensures { IsTrue result ↔ ((a b : ℕ) → a < 32 → b < 32 → IsWay (way a b ways.now)) }
{
    for a in 0..MAX_HOSTS {
        if !are_ways_from(ways, a) {
            return false;
        }
    }
    true
}

// Returns the greatest latency of the ways from a host to the first `hosts` hosts (ms).
fn greatest_from(ways: &Ways, a: u16, hosts: u16) -> u32
    requires from { a < 32 }
    requires hosts { hosts ≤ 32 }
    ensures { (b : ℕ) → b < hosts → (way a b ways.now).latency_max ≤ result }
{
    let mut greatest = 0;
    for b in 0..hosts {
        greatest = greatest.max(ways.way(a, b).latency_max);
    }
    greatest
}

// Returns the greatest latency between the first `hosts` hosts (ms).
fn greatest_latency(ways: &Ways, hosts: u16) -> u32
    requires { hosts ≤ 32 }
    ensures { (a b : ℕ) → a < hosts → b < hosts → (way a b ways.now).latency_max ≤ result }
{
    let mut greatest = 0;
    for a in 0..hosts {
        greatest = greatest.max(greatest_from(ways, a, hosts));
    }
    greatest
}

// Returns whether each client has 1 to 1,000 operations.
fn have_operations(setup: &Setup) -> bool
    requires { setup.now.hosts ≤ 32 }
    ensures { IsTrue result ↔ HaveOperations setup.now }
{
    for h in setup.servers..setup.hosts {
        if !is_within(u32::from(setup.ops[h as usize]), 1, MAX_OPERATIONS) {
            return false;
        }
    }
    true
}

// Returns whether a setup is within the limits.
fn is_setup(setup: &Setup) -> bool
    ensures { IsTrue result ↔ IsSetup setup.now }
{
    if setup.servers < 1 || setup.hosts <= setup.servers || MAX_HOSTS < setup.hosts {
        return false;
    }
    have_operations(setup)
}

impl Scenario {
    ghost use Rattle.sim_events.specs.Limits.{IsScenario};
    ghost use Rattle.sim_events.specs.Seeds.{numbered, scenario_of};

    /// Returns the scenario with this seed, tick (1 to 60,000 ms), ways over each open direction
    /// (latencies of 0 to 60,000 ms, the least at most the greatest; a loss of 0 to 1,000 per
    /// thousand), disk latency (0 to 60,000 ms), setup (at least one server and one client, at most
    /// 32 hosts; 1 to 1,000 operations for each client), interval between two checkpoints (1 to
    /// 1,024 events) and window of events that their records can undo (1 to 4,096). Fails with
    /// `BadLimits` exactly if one of these is outside its limits.
    pub fn new(
        seed: [u8; 32],
        tick: u32,
        ways: Ways,
        disk_latency: u32,
        setup: Setup,
        interval: u32,
        window: u32,
    ) -> Result<Scenario, BadLimits>
        ensures value { IfOk result (λ s.
            s ≡ scenario_of seed tick ways disk_latency setup interval window) }
        ensures within { IfOk result IsScenario }
        ensures refused { OnErr result (¬ (IsScenario
            (scenario_of seed tick ways disk_latency setup interval window))) }
    {
        if !is_within(tick, 1, MAX_TICK) || MAX_LATENCY < disk_latency {
            return Err(BadLimits);
        }
        if !is_within(interval, 1, MAX_INTERVAL) || !is_within(window, 1, MAX_WINDOW) {
            return Err(BadLimits);
        }
        if !is_setup(&setup) {
            return Err(BadLimits);
        }
        if !are_ways(&ways) {
            return Err(BadLimits);
        }
        Ok(Scenario {
            seed,
            tick,
            ways,
            disk_latency,
            setup,
            interval,
            window,
        })
    }

    /// Returns the hosts.
    pub fn setup(&self) -> Setup
        ensures value { result ≡ self.now.setup }
        ensures within { IsScenario self.now }
    {
        self.setup
    }

    /// Returns the number of servers.
    pub fn servers(&self) -> u16
        ensures value { result ≡ self.now.setup.servers }
        ensures within { result ≤ self.now.setup.hosts }
    {
        let Setup { servers, .. } = self.setup;
        servers
    }

    /// Returns the number of hosts.
    pub fn hosts(&self) -> u16
        ensures value { result ≡ self.now.setup.hosts }
        ensures within { result ≤ 32 }
    {
        let Setup { hosts, .. } = self.setup;
        hosts
    }

    /// Returns the length of a tick (ms).
    pub fn tick(&self) -> u32
        ensures value { result ≡ self.now.tick }
        ensures within { result ≤ 60000 }
    {
        self.tick
    }

    /// Returns the number of events between two checkpoints.
    pub fn interval(&self) -> u32
        ensures value { result ≡ self.now.interval }
        ensures within { IsScenario self.now }
    {
        self.interval
    }

    /// Returns the number of events that their records can undo.
    pub fn window(&self) -> u32
        ensures value { result ≡ self.now.window }
        ensures within { IsScenario self.now }
    {
        self.window
    }

    /// Returns the 32 bytes of the seed.
    pub fn seed(&self) -> [u8; 32]
        ensures { result ≡ self.now.seed }
    {
        self.seed
    }

    /// Returns the latency of a sync (ms).
    pub fn disk_latency(&self) -> u32
        ensures value { result ≡ self.now.disk_latency }
        ensures within { result ≤ 60000 }
    {
        self.disk_latency
    }

    /// Returns a latency (ms) that no message between two hosts and no sync exceeds.
    pub fn reach(&self) -> u32
        ensures ways { (a b : ℕ) → a < self.now.setup.hosts → b < self.now.setup.hosts
            → (way a b self.now.ways).latency_max ≤ result }
        ensures disk { self.now.disk_latency ≤ result }
    {
        greatest_latency(&self.ways, self.hosts()).max(self.disk_latency)
    }

    /// Returns how messages cross an open link from a host to another.
    #[inline(always)]
    pub fn way(&self, a: u16, b: u16) -> Way
        requires from { a < 32 }
        requires to { b < 32 }
        ensures value { result ≡ way a b self.now.ways }
        ensures within { IsWay result }
    {
        self.ways.way(a, b)
    }

    /// Returns an equal scenario.
    pub fn copy(&self) -> Scenario
        ensures { result ≡ self.now }
    {
        Scenario {
            seed: self.seed,
            tick: self.tick,
            ways: self.ways.copy(),
            disk_latency: self.disk_latency,
            setup: self.setup,
            interval: self.interval,
            window: self.window,
        }
    }

    /// Returns the scenario of run number `i` of a sweep: the seed's bytes 24 to 31 are those of
    /// `i`, low byte first, and all else is unchanged.
    pub fn numbered(&self, i: u64) -> Scenario
        ensures { result ≡ numbered i self.now }
    {
        let mut scenario = self.copy();
        scenario.seed[24..].copy_from_slice(&i.to_le_bytes());
        scenario
    }
}
