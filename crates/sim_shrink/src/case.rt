//! A failing run to be shrunk, and the trials of it.
ghost use Rattle.std.specs.Prelude.{◌≡◌, ◌≤◌, IfOk, MatchOption, None, length};
ghost use Rattle.sim_world.specs.Events.{rules};
ghost use Rattle.sim_watch.specs.Condition.{fault_of};
ghost use Rattle.sim_shrink.specs.Shrunk.{failing, IsFailingRun};
ghost use Rattle.sim_shrink.specs.Choices.{kept_by};

use crate::choice::kept;
use sim_node::{NoMemory, Node};
use sim_plan::{Planner, run_of_planner};
use sim_sweep::scan_planned;
use sim_watch::Cond;
use sim_world::{Event, Scenario};
use std::alloc::Global;
use std::marker::PhantomData;

/// Events of a run, and a condition that was checked for it.
#[derive(Drop)]
pub struct Case<'a, N: Node> {
    pub alloc: Global,
    pub scenario: &'a Scenario,
    pub events: &'a [Event],
    pub cond: &'a Cond,
    pub nodes: PhantomData<N>,
    ghost few: { length events.now ≤ 65536 },
    ghost checked: { fault_of scenario.now.setup.hosts N.PROBES cond.now ≡ None },
}

impl<'a, N: Node> Case<'a, N> {
    /// Returns the case with other events, which must not be more.
    pub fn with_events<'b>(&'b self, events: &'b [Event]) -> Case<'b, N>
        requires { length events.now ≤ length self.now.events.now }
        ensures events { result.events.now ≡ events.now }
        ensures scenario { result.scenario.now ≡ self.now.scenario.now }
        ensures cond { result.cond.now ≡ self.now.cond.now }
    {
        Case {
            alloc: self.alloc,
            scenario: self.scenario,
            events,
            cond: self.cond,
            nodes: PhantomData,
        }
    }

    /// Returns the first place at which the condition fails along the run of the events that a
    /// choice keeps, or `None`.
    pub fn trial(&self, stays: &[bool], meter: &mut N::Meter) -> Result<Option<u32>, NoMemory>
        ensures { IfOk result (λ found. found
            ≡ failing (rules N.laws N.PROBES self.now.scenario.now) self.now.cond.now
            (kept_by stays.now self.now.events.now)) }
    {
        let left = kept(self.alloc, stays, self.events)?;
        let planner = Planner::of_events(&left);
        scan_planned::<N>(self.alloc, self.scenario, planner, false, self.cond, meter)
    }

    /// Returns the run of the events up to the first place at which the condition fails, or `None`
    /// if it fails nowhere.
    pub fn failing_run(&self, meter: &mut N::Meter) -> Result<Option<Vec<Event>>, NoMemory>
        ensures { IfOk result (λ found. MatchOption found
            (failing (rules N.laws N.PROBES self.now.scenario.now)
            self.now.cond.now self.now.events.now ≡ None)
            (λ run. IsFailingRun (rules N.laws N.PROBES self.now.scenario.now)
            self.now.cond.now self.now.events.now run.items)) }
    {
        let planner = Planner::of_events(self.events);
        let found = scan_planned::<N>(self.alloc, self.scenario, planner, false, self.cond, meter)?;
        let place = match found {
            Some(place) => place,
            None => return Ok(None),
        };
        let planner = Planner::of_events(self.events);
        let mut run = run_of_planner::<N>(self.alloc, self.scenario, planner, meter)?;
        run.truncate(place as usize);
        Ok(Some(run))
    }
}
