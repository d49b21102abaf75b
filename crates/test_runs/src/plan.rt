//! Runs of two-phase commit with planned faults: sweeps of them, the planned run of one seed, and
//! what is left of it. The scenario, the plan and seed number 654 are those of docs/TOUR.md.
//!
//! The contracts of `sim_plan` and `sim_sweep` say that a planned run is the one of the definition,
//! and that a sweep finds the least failing seed. A test has to say that the definition is the one
//! that was meant: which random word makes which fault. So the run of seed number 654 is written
//! out, event by event, and the sweep is the one that docs/TOUR.md begins with.
//!
//! The contract of `shrink` says that the condition fails at the end of the shrunk run, and that it
//! fails nowhere without any one of the faults that are left. Several runs can be like this. A test
//! says which one is found, event by event: four faults are left.
//!
//! - 1, 2 and 16 workers make the sweeps, with the same answer each time.
//! - A quiet end is checked once: all wounds are healed, and steps follow.
//!
//! Two-phase commit is the subject since it breaks a promise under faults, so that there is
//! something to find.
//!
//! What each test catches:
//! - `first_seed_that_disagrees`: a sweep that gives up, with one worker or with several.
//! - `first_seed_that_is_not_done`: a quiet end that heals nothing, or is checked too early.
//! - `the_run_of_a_seed`: a word that is read as another event than the definition says; no spacing
//!   that is read as no events.
//! - `four_faults_are_left`: a search that gives up or keeps what is not needed, and one that does
//!   not report its progress.
//! - `nothing_is_left`: a run that is made of a condition that holds everywhere; a condition that
//!   is not checked.
ghost use Rattle.std.specs.Prelude.{◌≡◌, ◌<◌, ◌≤◌, IfOk, length, replicate};
ghost use Rattle.sim_plan.specs.Happening.{IsPlan};

use crate::scenes::tallies;
use sim_links::{Way, Ways};
use sim_node::Setup;
use sim_plan::{Plan, run_of};
use sim_shrink::{Listener, NoListener, shrink};
use sim_sweep::{Course, OpenGate, SearchFault, numbered_seed, sweep_planned};
use sim_tally::Tally;
use sim_two_phase::TwoPhase;
use sim_watch::{Cond, Term};
use sim_world::{BadLimits, Event, Fault, Scenario};
use std::alloc::Global;
use std::sync::Wait;
use std::test::Fail;
use std::thread::Threads;

// A fault in eight events, of 120.
const FAULTS: Plan = Plan {
    spacing: Some(8),
    events: 120,
    quiet: 0,
    at_end: false,
};

// The servers agree on the decision of the first transaction, which is their probe 1.
const AGREE: Term = Term::Agree(1, 0);

// The planned run of seed number 654 up to its first failing place, as text.
const RUN_654: &str = "[Step, Step, Step, Step, Step, Step, Step, Step, Step, Step, Step, Step, \
    Fault(Bounce(0)), Step, Step, Fault(Crash(1)), Step, Step, Fault(Bounce(0)), Step, Step, Step, \
    Step, Fault(Bounce(1)), Step, Step]";

// Returns a scenario with servers a and b, and client w with three operations.
fn scenario() -> Result<Scenario, BadLimits>
    ensures { IfOk result (λ s. s.seed ≡ replicate 32 0) }
{
    let way = Way {
        latency_min: 5,
        latency_max: 45,
        loss: 0,
    };
    let setup = Setup {
        servers: 2,
        hosts: 3,
        ops: [3; 32],
    };
    Scenario::new([0; 32], 100, Ways::all(way), 20, setup, 64, 64)
}

// Returns the first of 1,500 seeds under which the condition fails, and its first such place.
fn first<R: Threads + Wait + Sync>(
    rt: &R,
    alloc: Global,
    plan: Plan,
    term: Term,
    workers: u32,
) -> Result<Option<(u64, u32)>, Fail>
    requires { (0 < workers) × (workers ≤ 16) }
{
    let scenario = scenario()?;
    let course = Course {
        scenario: &scenario,
        seed: [0; 32],
        given: &[],
        plan,
    };
    let cond = Cond::new().and(term)?;
    let meters = tallies(alloc, workers)?;
    Ok(sweep_planned::<TwoPhase<Tally>, OpenGate, R>(
        rt,
        alloc,
        &course,
        (0, 1_500),
        &cond,
        meters,
        &OpenGate,
    )?)
}

#[test]
fn first_seed_that_disagrees(rt: HostRuntime) -> Result<(), Fail> {
    for workers in [1, 2, 16] {
        let found = first(&rt, rt.alloc(), FAULTS, AGREE, workers)?;
        assert_eq!(&rt; found, Some((654, 26)), "by {workers}");
    }
    Ok(())
}

#[test]
fn first_seed_that_is_not_done(rt: HostRuntime) -> Result<(), Fail> {
    let plan = Plan {
        quiet: 500,
        at_end: true,
        ..FAULTS
    };
    for workers in [1, 2, 16] {
        let found = first(&rt, rt.alloc(), plan, Term::Done(2), workers)?;
        assert_eq!(&rt; found, Some((6, 622)), "by {workers}");
    }
    Ok(())
}

// Returns the planned run of seed number 654, after given events.
fn run_654(alloc: Global, given: &[Event], plan: Plan) -> Result<Vec<Event>, Fail>
    requires { IsPlan (length given.now) plan }
{
    let scenario = scenario()?.numbered(654);
    let seed = numbered_seed([0; 32], 654);
    let meter = &mut Tally::new();
    Ok(run_of::<TwoPhase<Tally>>(alloc, &scenario, seed, given, plan, meter)?)
}

#[test]
fn the_run_of_a_seed(rt: HostRuntime) -> Result<(), Fail> {
    let alloc = rt.alloc();
    let plan = Plan {
        events: 26,
        ..FAULTS
    };
    let run = run_654(alloc, &[], plan)?;
    assert_eq!(&rt; format!(in alloc; "{run:?}")?.as_str(), RUN_654);
    let without_faults = Plan {
        spacing: None,
        events: 2,
        quiet: 3,
        ..FAULTS
    };
    let run = run_654(alloc, &[], without_faults)?;
    assert_eq!(&rt; run.as_slice(), [Event::Step; 5].as_slice());
    Ok(())
}

// The number of faults in the last report to a listener.
#[derive(Drop)]
struct Last {
    faults: u64,
}

impl Listener for Last {
    fn tried(&mut self, faults: u64, _trials: u64) {
        self.faults = faults;
    }
}

// Returns what is left of the planned run of seed number 654, after two faults that heal nothing.
fn left_of_654(alloc: Global, heard: &mut Last) -> Result<Option<Vec<Event>>, Fail> {
    let given = [
        Event::Fault(Fault::Release(0, 1)),
        Event::Fault(Fault::Repair(0, 2)),
    ];
    let events = run_654(alloc, &given, FAULTS)?;
    let scenario = scenario()?.numbered(654);
    let cond = Cond::new().and(AGREE)?;
    let meter = &mut Tally::new();
    Ok(shrink::<TwoPhase<Tally>, Last>(alloc, &scenario, &events, &cond, meter, heard)?)
}

#[test]
fn four_faults_are_left(rt: HostRuntime) -> Result<(), Fail> {
    let alloc = rt.alloc();
    let mut heard = Last { faults: 0 };
    let Some(left) = left_of_654(alloc, &mut heard)? else {
        return Err(Fail::from("no run"));
    };
    assert_eq!(&rt; format!(in alloc; "{left:?}")?.as_str(), RUN_654);
    assert_eq!(&rt; heard.faults, 4);
    Ok(())
}

#[test]
fn nothing_is_left(rt: HostRuntime) -> Result<(), Fail> {
    let scenario = scenario()?;
    let meter = &mut Tally::new();
    let holds = Cond::new().and(AGREE)?;
    let steps = [Event::Step; 100];
    let left = shrink::<TwoPhase<Tally>, NoListener>(
        rt.alloc(),
        &scenario,
        &steps,
        &holds,
        meter,
        &mut NoListener,
    )?;
    assert!(&rt; left.is_none());
    let unknown_host = Cond::new().and(Term::Up(3))?;
    let left = shrink::<TwoPhase<Tally>, NoListener>(
        rt.alloc(),
        &scenario,
        &[],
        &unknown_host,
        meter,
        &mut NoListener,
    );
    assert_eq!(&rt; left.err(), Some(SearchFault::BadCondition));
    Ok(())
}
