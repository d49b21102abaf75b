//! The run that planned events make, as a list.
ghost use Rattle.std.specs.Prelude.{◌≡◌, ◌≤◌, IfOk, length};
ghost use Rattle.sim_world.specs.Events.{rules, start};
ghost use Rattle.sim_plan.specs.Happening.{IsPlan, happening, planned_run};

use crate::{NoMemory, Plan, Planner};
use sim_node::Node;
use sim_world::{Event, Scenario, Undo, World};
use std::alloc::Global;

/// Returns the run of a scenario: those of the given events, and then of the planned ones, that can
/// happen, in order. The seed must be the scenario's. Fails only for want of memory.
pub fn run_of<N: Node>(
    alloc: Global,
    scenario: &Scenario,
    seed: [u8; 32],
    given: &[Event],
    plan: Plan,
    meter: &mut N::Meter,
) -> Result<Vec<Event>, NoMemory>
    requires seed { seed ≡ scenario.now.seed }
    requires plan { IsPlan (length given.now) plan }
    ensures { IfOk result (λ run. run.items ≡ planned_run N.laws N.PROBES scenario.now given.now
        plan) }
{
    let planner = Planner::new(scenario, seed, given, plan);
    run_of_planner::<N>(alloc, scenario, planner, meter)
}

/// Returns the run of a planner's events: those that can happen, in order. Fails only for want of
/// memory.
pub fn run_of_planner<N: Node>(
    alloc: Global,
    scenario: &Scenario,
    planner: Planner<'_>,
    meter: &mut N::Meter,
) -> Result<Vec<Event>, NoMemory>
    requires few { length planner ≤ 65536 }
    ensures { IfOk result (λ run. run.items ≡ happening (rules N.laws N.PROBES scenario.now)
        (start (rules N.laws N.PROBES scenario.now)) planner.entry) }
{
    let mut world = World::<N>::start(alloc, scenario, meter)?;
    let mut undo = Undo::empty(alloc);
    let mut run = Vec::new(alloc);
    for event in planner {
        match world.can(event) {
            Err(_) => continue,
            Ok(()) => {}
        }
        run.push(event)?;
        world = world.apply_over(event, &mut undo, meter)?;
    }
    Ok(run)
}
