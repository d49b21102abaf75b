//! Sweeps over runs whose events are planned.
ghost use Rattle.std.specs.Prelude.{◌≡◌, IfOk};
ghost use Rattle.sim_world.specs.Events.{rules};
ghost use Rattle.sim_hunt.specs.Hunts.{IsTeam, planned_answer};

use crate::answer::{Answer, of_sweep};
use crate::hunting::{PlannedRuns, Quest, meters};
use crate::progress::Progress;
use crate::reasons::report_seeds;
use sim_node::{NoMemory, Node};
use sim_plan::{Plan, report_plan};
use sim_sweep::{Course, sweep_planned};
use sim_tally::FreshMeter;
use sim_world::Event;
use std::alloc::Global;
use std::rt::Clock;
use std::sync::Wait;
use std::thread::Threads;

/// Searches for the first seed whose planned run fails the condition. Each run begins with the
/// given events. Fails only for want of memory.
pub fn sweep_runs<
    N: Node<Meter: FreshMeter + Send> + Send + Sync,
    H: Threads + Wait + Sync + Clock + Eprint,
>(
    rt: &H,
    alloc: Global,
    runs: &PlannedRuns,
    given: &[Event],
    quest: &Quest<'_>,
) -> Result<Answer, NoMemory>
where
    N::Msg: Send + Sync,
    N::Undo: Send + Sync,
    requires { IsTeam quest.now.hunt.now.team.workers }
    ensures { IfOk result (λ a. a ≡ planned_answer
        (rules N.laws N.PROBES quest.now.opened.now.scenario) quest.now.cond given.now runs.now) }
{
    let asked = runs.plan;
    report_seeds(rt, runs.first, runs.count);
    report_plan(rt, given.len(), runs.events, asked.quiet, asked.faults);
    let Some(plan) = Plan::new(asked.faults, runs.events, asked.quiet, runs.at_end) else {
        return Ok(Answer::BadRange);
    };
    let course = Course {
        scenario: &quest.opened.scenario,
        seed: quest.opened.seed,
        given,
        plan,
    };
    let seeds = (runs.first, runs.count);
    let cond = &quest.cond;
    let meters = meters(alloc, quest.hunt.team.workers)?;
    let gate = Progress::new(rt, quest.hunt.team.progress, runs.count);
    of_sweep(sweep_planned::<N, _, _>(rt, alloc, &course, seeds, cond, meters, &gate))
}
