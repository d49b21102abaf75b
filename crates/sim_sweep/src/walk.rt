//! A walk along a planned run.
ghost use Rattle.std.specs.Prelude.{◌≡◌, ◌<◌, ◌≤◌, ◌+◌, ◌-◌, ◌⊎◌, ℕ, IfOk, OnOk, None, Some};
ghost use Rattle.std.specs.Prelude.{IsSome, length, not, true, false, if◌then◌else◌};
ghost use Rattle.std.specs.Prelude.{slice_index_or};
ghost use Rattle.std.specs.Option.{unwrap_or};
ghost use Rattle.std.specs.List.{list_any};
ghost use Rattle.sim_world.specs.Events.{rules, next, start};
ghost use Rattle.sim_moves.specs.Works.{OnlyTurns};
ghost use Rattle.sim_watch.specs.Condition.{Cond as Condition, holds, fault_of, concerns, terms};
ghost use Rattle.sim_plan.specs.Happening.{happening};
ghost use Rattle.sim_sweep.specs.Planned.{failing_of_run};

use sim_node::{NoMemory, Node};
use sim_plan::Planner;
use sim_watch::{Cond, holds};
use sim_world::{Event, Scenario, Undo, World};
use std::alloc::Global;

// A condition, the hosts that it is about, and a record to reuse.
#[derive(Drop)]
struct Watcher<'a, N: Node> {
    cond: &'a Cond,
    concerned: [bool; 32],
    undo: Undo<N>,
    ghost about: { (h : ℕ) → h < 32 → slice_index_or concerned h false
        ≡ list_any (concerns h) (terms cond.now) },
}

impl<'a, N: Node> Watcher<'a, N> {
    fn new(alloc: Global, cond: &'a Cond) -> Watcher<'a, N>
        ensures { result.cond.now ≡ cond.now }
    {
        Watcher {
            cond,
            concerned: cond.concerned(),
            undo: Undo::empty(alloc),
        }
    }

    // Returns the world after an event that can happen, and whether the event may have changed the
    // condition.
    fn moved(
        &mut self,
        world: World<N>,
        event: Event,
        meter: &mut N::Meter,
    ) -> Result<(World<N>, bool), NoMemory>
        requires can { IsSome (next (rules N.laws N.PROBES world.scenario) world.world event) }
        requires young { world.age < 65536 }
        ensures next { IfOk result (λ r. next (rules N.laws N.PROBES world.scenario) world.world
            event ≡ Some r.0.world) }
        ensures scenario { IfOk result (λ r. r.0.scenario ≡ world.scenario) }
        ensures age { IfOk result (λ r. r.0.age ≡ world.age + 1) }
        ensures cond { self.new.cond.now ≡ self.old.cond.now }
        ensures work { OnOk result (OnlyTurns 1 (N.Meter.work meter.old) (N.Meter.work meter.new)) }
        ensures same { IfOk result (λ r. r.1 ≡ false → holds N.laws self.old.cond.now r.0.world
            ≡ holds N.laws self.old.cond.now world.world) }
    {
        match event {
            Event::Step => {
                let (next, host) = world.step_for_good(meter)?;
                Ok((next, self.concerned[host as usize]))
            }
            Event::Advance(_) | Event::Fault(_) => {
                let next = world.apply_over(event, &mut self.undo, meter)?;
                Ok((next, true))
            }
        }
    }
}

// A place of a run: its world, and whether the condition fails there.
#[derive(Drop)]
struct Spot<N: Node> {
    world: World<N>,
    place: u32,
    fails: bool,
}

impl<N: Node> Spot<N> {
    // Returns the start of a run.
    fn start(
        alloc: Global,
        scenario: &Scenario,
        cond: &Cond,
        meter: &mut N::Meter,
    ) -> Result<Spot<N>, NoMemory>
        requires checked { fault_of scenario.now.setup.hosts N.PROBES cond.now ≡ None }
        ensures world { IfOk result (λ s. s.world ≡ record {
          world = start (rules N.laws N.PROBES scenario.now);
          scenario = scenario.now;
          age = 0;
        }) }
        ensures place { IfOk result (λ s. s.place ≡ 0) }
        ensures fails { IfOk result (λ s. s.fails ≡ not (holds N.laws cond.now s.world.world)) }
        ensures work { OnOk result (OnlyTurns scenario.now.setup.hosts (N.Meter.work meter.old)
            (N.Meter.work meter.new)) }
    {
        let world = World::<N>::start(alloc, scenario, meter)?;
        let fails = !holds(cond, &world);
        Ok(Spot {
            world,
            place: 0,
            fails,
        })
    }

    // Returns the spot after an event, or this one if the event cannot happen.
    fn passed(
        self,
        event: Event,
        watcher: &mut Watcher<N>,
        meter: &mut N::Meter,
    ) -> Result<Spot<N>, NoMemory>
        requires checked { fault_of self.world.scenario.setup.hosts N.PROBES watcher.old.cond.now
            ≡ None }
        requires young { self.world.age < 65536 }
        requires place { self.place ≡ self.world.age }
        requires fails { self.fails ≡ not (holds N.laws watcher.old.cond.now self.world.world) }
        ensures on { IfOk result (λ s.
            ((next (rules N.laws N.PROBES self.world.scenario) self.world.world event
            ≡ Some s.world.world) × (s.world.age ≡ self.world.age + 1))
            ⊎ ((next (rules N.laws N.PROBES self.world.scenario) self.world.world event ≡ None)
            × (s.world ≡ self.world))) }
        ensures scenario { IfOk result (λ s. s.world.scenario ≡ self.world.scenario) }
        ensures place { IfOk result (λ s. s.place ≡ s.world.age) }
        ensures cond { watcher.new.cond.now ≡ watcher.old.cond.now }
        ensures fails { IfOk result (λ s. s.fails ≡ not
            (holds N.laws watcher.old.cond.now s.world.world)) }
        ensures work { IfOk result (λ s. OnlyTurns (s.place - self.place) (N.Meter.work meter.old)
            (N.Meter.work meter.new)) }
    {
        match self.world.can(event) {
            Err(_) => return Ok(self),
            Ok(()) => {}
        }
        let Spot {
            world,
            place,
            mut fails,
        } = self;
        let (world, may_change) = watcher.moved(world, event, meter)?;
        if may_change {
            fails = !holds(watcher.cond, &world);
        }
        Ok(Spot {
            world,
            place: place + 1,
            fails,
        })
    }

    // Returns whether the condition fails there, unless only the last place is tested.
    fn is_found(&self, at_end: bool) -> bool
        ensures yes { result ≡ true → (self.now.fails ≡ true) × (at_end ≡ false) }
        ensures no { result ≡ false → at_end ≡ false → self.now.fails ≡ false }
    {
        self.fails && !at_end
    }

    // Returns the place if the condition fails there.
    fn finding(&self) -> Option<u32>
        ensures { result ≡ (if self.now.fails then Some self.now.place else None) }
    {
        if self.fails { Some(self.place) } else { None }
    }
}

/// Returns the least place of a run at which a checked condition fails. The run begins at the start
/// of the scenario and has the events of the planner that can happen, in order. With `at_end` only
/// its last place is tested. Boots each host once, and counts at most one turn for each event up to
/// the place found. Fails only for want of memory.
pub fn scan_planned<N: Node>(
    alloc: Global,
    scenario: &Scenario,
    planner: Planner<'_>,
    at_end: bool,
    cond: &Cond,
    meter: &mut N::Meter,
) -> Result<Option<u32>, NoMemory>
    requires few { length planner ≤ 65536 }
    requires checked { fault_of scenario.now.setup.hosts N.PROBES cond.now ≡ None }
    ensures place { IfOk result (λ found. found ≡ failing_of_run
        (rules N.laws N.PROBES scenario.now) at_end cond.now
        (happening (rules N.laws N.PROBES scenario.now) (start (rules N.laws N.PROBES scenario.now))
        planner.entry)) }
    ensures work { IfOk result (λ found. OnlyTurns (scenario.now.setup.hosts + unwrap_or found
        (length (happening (rules N.laws N.PROBES scenario.now)
        (start (rules N.laws N.PROBES scenario.now)) planner.entry)))
        (N.Meter.work meter.old) (N.Meter.work meter.new)) }
{
    let mut watcher = Watcher::new(alloc, cond);
    let mut spot = Spot::<N>::start(alloc, scenario, cond, meter)?;
    for event in planner {
        if spot.is_found(at_end) {
            return Ok(Some(spot.place));
        }
        spot = spot.passed(event, &mut watcher, meter)?;
    }
    Ok(spot.finding())
}
