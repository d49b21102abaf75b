//! The first of many seeds under which a condition fails.
ghost use Rattle.std.specs.Prelude.{◌≡◌, ℕ, ◌+◌, ◌^◌, ◌<◌, ◌≤◌, false, None, IfOk, OnOk, IfErr};
ghost use Rattle.std.specs.Prelude.{vec_len, Option};
ghost use Rattle.sim_watch.specs.Condition.{fault_of};
ghost use Rattle.sim_scan.specs.Search.{failing_of_seed, first_failing_seed};
ghost use Rattle.sim_search.specs.Faults.{is_bad_sweep, sweep_fault, reason};

use crate::{MAX_EVENTS, MAX_SEEDS, SearchFault};
use sim_claims::{Gate, Pieces, least};
use sim_node::{NoMemory, Node};
use sim_scan::scan_seed;
use sim_watch::Cond;
use sim_world::Scenario;
use std::alloc::Global;
use std::marker::PhantomData;
use std::sync::Wait;
use std::thread::Threads;

// The numbered runs of a scenario, each a piece, and a condition checked for them.
#[derive(Drop)]
struct Seeds<'a, N: Node> {
    alloc: Global,
    scenario: &'a Scenario,
    cond: &'a Cond,
    first: u64,
    count: u64,
    events: u32,
    nodes: PhantomData<N>,
    ghost past: { first + count ≤ 2 ^ 64 },
    ghost few: { events ≤ 65536 },
    ghost checked: { fault_of scenario.now.setup.hosts N.PROBES cond.now ≡ None },
}

impl<'a, N: Node> Pieces<N::Meter> for Seeds<'a, N> {
    ghost count = { λ s. s.count };

    ghost finding = { λ s i. failing_of_seed N.laws N.PROBES s.scenario.now s.cond.now s.events
        (s.first + i) };

    fn count(&self) -> u64 {
        self.count
    }

    fn scan(&self, number: u64, meter: &mut N::Meter) -> Result<Option<u32>, NoMemory> {
        let scenario = self.scenario.numbered(self.first + number);
        scan_seed::<N>(self.alloc, &scenario, self.events, self.cond, meter)
    }
}

// Returns whether there are no seeds, too many seeds or events, or a seed number past the greatest.
fn is_bad(first: u64, count: u64, events: u64) -> bool
    ensures value { result ≡ is_bad_sweep first count events }
    ensures fine { result ≡ false → (0 < count) × (events ≤ 65536) × (first + count ≤ 2 ^ 64)
        × (count ≤ 2 ^ 32) }
{
    count == 0 || MAX_SEEDS < count || MAX_EVENTS < events || first > u64::MAX - (count - 1)
}

/// Returns the first of `count` seeds, from number `first` on, under which a condition fails, and
/// the first such place of its run, or `None`. Uses as many workers as there are meters. Each run
/// has as many steps as can happen, but at most `events`.
///
/// No seed is run twice, and a worker runs none past its finding. The gate hears about each by its
/// number from 0, unless memory is wanted. There are 1 to 16 meters. Fails with
/// `BadRange` if there is no seed, more than 2^32, more than 65,536 events or a seed number past
/// 2^64 - 1, else with `BadCondition` if the condition can't be asked of this run, else only for
/// want of memory.
pub fn sweep<N: Node + Send + Sync, G: Gate + Sync, R: Threads + Wait + Sync>(
    rt: &R,
    alloc: Global,
    scenario: &Scenario,
    first: u64,
    count: u64,
    events: u64,
    cond: &Cond,
    meters: Vec<N::Meter>,
    gate: &G,
) -> Result<Option<(u64, u32)>, SearchFault>
where
    N::Msg: Send + Sync,
    N::Undo: Send + Sync,
    N::Meter: Send,
    requires some { 0 < vec_len meters }
    requires few { vec_len meters ≤ 16 }
    ensures found { IfOk result (λ seed. seed ≡ first_failing_seed N.laws N.PROBES scenario.now
        cond.now events first count) }
    ensures allowed { OnOk result (sweep_fault first count events scenario.now.setup.hosts N.PROBES
        cond.now ≡ None) }
    ensures refused { IfErr result (λ why. why ≡ reason
        (sweep_fault first count events scenario.now.setup.hosts N.PROBES cond.now)) }
{
    if is_bad(first, count, events) {
        return Err(SearchFault::BadRange);
    }
    match cond.check(scenario.hosts(), N::PROBES) {
        Err(_) => return Err(SearchFault::BadCondition),
        Ok(()) => {}
    }
    let seeds = Seeds::<N> {
        alloc,
        scenario,
        cond,
        first,
        count,
        events: events as u32,
        nodes: PhantomData,
    };
    match least(rt, alloc, &seeds, gate, meters) {
        Ok(Some((number, place))) => Ok(Some((first + number, place))),
        Ok(None) => Ok(None),
        Err(_) => Err(SearchFault::NoMemory),
    }
}
