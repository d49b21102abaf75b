//! The first of many seeds whose planned run has a place at which a condition fails.
ghost use Rattle.std.specs.Prelude.{◌≡◌, ℕ, ◌+◌, ◌^◌, ◌<◌, ◌≤◌, ◌||◌, false, None, IfOk, OnOk};
ghost use Rattle.std.specs.Prelude.{IfErr, vec_len, length, Option, take, ◌++◌};
ghost use Rattle.std.specs.Int.{w64, to_le_bytes};
ghost use Rattle.sim_watch.specs.Condition.{fault_of};
ghost use Rattle.sim_search.specs.Faults.{reason};
ghost use Rattle.sim_plan.specs.Happening.{IsPlan};
ghost use Rattle.sim_sweep.specs.Planned.{failing_of_planned_seed, first_failing_planned_seed};
ghost use Rattle.sim_sweep.specs.Faults.{are_bad_seeds, is_bad_plan, planned_sweep_fault};

use crate::{Gate, SearchFault, scan_planned};
use sim_claims::{Pieces, least};
use sim_node::{NoMemory, Node};
use sim_plan::{Plan, Planner};
use sim_search::MAX_SEEDS;
use sim_watch::Cond;
use sim_world::{Event, Scenario};
use std::alloc::Global;
use std::marker::PhantomData;
use std::sync::Wait;
use std::thread::Threads;

/// A scenario with its seed, the events that begin each run, and the plan of the events after them.
#[derive(Drop)]
pub struct Course<'a> {
    pub scenario: &'a Scenario,
    /// The scenario's own seed.
    pub seed: [u8; 32],
    /// The given events. Those that cannot happen are left out.
    pub given: &'a [Event],
    pub plan: Plan,
}

// The bytes of a seed.
#[derive(Clone, Copy)]
struct Seed {
    bytes: [u8; 32],
}

/// Returns the seed of run number `i` of a sweep: bytes 24 to 31 are those of `i`, low byte first.
pub fn numbered_seed(seed: [u8; 32], i: u64) -> [u8; 32]
    ensures { result ≡ take 24 seed ++ to_le_bytes w64 i }
{
    let mut numbered = Seed { bytes: seed };
    numbered.bytes[24..].copy_from_slice(&i.to_le_bytes());
    numbered.bytes
}

// The numbered runs of a course, each a piece of its own, and a condition that was checked for
// them.
#[derive(Drop)]
struct Runs<'a, N: Node> {
    alloc: Global,
    course: &'a Course<'a>,
    cond: &'a Cond,
    first: u64,
    count: u64,
    nodes: PhantomData<N>,
    ghost past: { first + count ≤ 2 ^ 64 },
    ghost own: { course.now.seed ≡ course.now.scenario.now.seed },
    ghost fine: { IsPlan (length course.now.given.now) course.now.plan },
    ghost checked: { fault_of course.now.scenario.now.setup.hosts N.PROBES cond.now ≡ None },
}

impl<'a, N: Node> Pieces<N::Meter> for Runs<'a, N> {
    ghost count = { λ s. s.count };

    ghost finding = { λ s i. failing_of_planned_seed N.laws N.PROBES s.course.now.scenario.now
        s.course.now.given.now s.course.now.plan s.cond.now (s.first + i) };

    fn count(&self) -> u64 {
        self.count
    }

    fn scan(&self, number: u64, meter: &mut N::Meter) -> Result<Option<u32>, NoMemory> {
        let course = self.course;
        let scenario = course.scenario.numbered(self.first + number);
        let seed = numbered_seed(course.seed, self.first + number);
        let planner = Planner::new(&scenario, seed, course.given, course.plan);
        scan_planned::<N>(
            self.alloc,
            &scenario,
            planner,
            course.plan.at_end,
            self.cond,
            meter,
        )
    }
}

// Returns whether there are no seeds or too many, or a seed number is too great.
fn are_bad(first: u64, count: u64) -> bool
    ensures value { result ≡ are_bad_seeds first count }
    ensures fine { result ≡ false → (0 < count) × (first + count ≤ 2 ^ 64) × (count ≤ 2 ^ 32) }
{
    count == 0 || MAX_SEEDS < count || first > u64::MAX - (count - 1)
}

// Returns whether a plan is outside the limits.
fn is_bad(plan: Plan, given: usize) -> bool
    ensures value { result ≡ is_bad_plan given plan }
    ensures fine { result ≡ false → IsPlan given plan }
{
    !plan.is_within(given)
}

// Returns whether a sweep of these seeds under this plan is outside the limits.
fn is_refused(first: u64, count: u64, plan: Plan, given: usize) -> bool
    ensures value { result ≡ (are_bad_seeds first count || is_bad_plan given plan) }
    ensures some { result ≡ false → (0 < count) × (first + count ≤ 2 ^ 64) × (count ≤ 2 ^ 32) }
    ensures fine { result ≡ false → IsPlan given plan }
{
    are_bad(first, count) || is_bad(plan, given)
}

/// Returns the first of `count` seeds, from number `first` on, with a failing place, and the first
/// such place of its run. There are as many workers as meters. The run of a seed has the given
/// events and then the planned ones, without those that cannot happen. With the plan's `at_end`
/// only the last place of each run is tested.
///
/// No seed is run twice, and a worker runs none past its finding. The gate hears about each by its
/// number from 0, unless memory is wanted. The seed of the course is that of its scenario, and
/// there are 1 to 16 meters. Fails with `BadRange` if there is no seed, more than 2^32, a seed
/// number past 2^64 - 1 or a plan outside the limits, with `BadCondition` if the condition cannot
/// be used on this run, and else only for want of memory.
pub fn sweep_planned<N: Node + Send + Sync, G: Gate + Sync, R: Threads + Wait + Sync>(
    rt: &R,
    alloc: Global,
    course: &Course<'_>,
    seeds: (u64, u64),
    cond: &Cond,
    meters: Vec<N::Meter>,
    gate: &G,
) -> Result<Option<(u64, u32)>, SearchFault>
where
    N::Msg: Send + Sync,
    N::Undo: Send + Sync,
    N::Meter: Send,
    requires own { course.now.seed ≡ course.now.scenario.now.seed }
    requires some { 0 < vec_len meters }
    requires few { vec_len meters ≤ 16 }
    ensures found { IfOk result (λ seed. seed ≡ first_failing_planned_seed N.laws N.PROBES
        course.now.scenario.now course.now.given.now course.now.plan
        cond.now seeds.0 seeds.1) }
    ensures allowed { OnOk result (planned_sweep_fault seeds.0 seeds.1
        (length course.now.given.now) course.now.plan
        course.now.scenario.now.setup.hosts N.PROBES cond.now ≡ None) }
    ensures refused { IfErr result (λ why. why ≡ reason (planned_sweep_fault seeds.0 seeds.1
        (length course.now.given.now) course.now.plan
        course.now.scenario.now.setup.hosts N.PROBES cond.now)) }
{
    let (first, count) = seeds;
    if is_refused(first, count, course.plan, course.given.len()) {
        return Err(SearchFault::BadRange);
    }
    match cond.check(course.scenario.hosts(), N::PROBES) {
        Err(_) => return Err(SearchFault::BadCondition),
        Ok(()) => {}
    }
    let runs = Runs::<N> {
        alloc,
        course,
        cond,
        first,
        count,
        nodes: PhantomData,
    };
    match least(rt, alloc, &runs, gate, meters) {
        Ok(Some((number, place))) => Ok(Some((first + number, place))),
        Ok(None) => Ok(None),
        Err(_) => Err(SearchFault::NoMemory),
    }
}
