//! Shrinks a failing run to the faults that its failure needs.
ghost use Rattle.std.specs.Prelude.{◌≡◌, ◌≤◌, IfOk, OnOk, IfErr, MatchOption, None, false, length};
ghost use Rattle.std.specs.Prelude.{nat_lt};
ghost use Rattle.sim_world.specs.Events.{rules};
ghost use Rattle.sim_watch.specs.Condition.{fault_of};
ghost use Rattle.sim_search.specs.Faults.{reason};
ghost use Rattle.sim_shrink.specs.Shrunk.{failing, IsShrunk, shrink_fault};

use crate::case::Case;
use crate::choice::{all_stay, kept};
use crate::{Listener, MAX_EVENTS, SearchFault};
use sim_node::{NoMemory, Node};
use sim_watch::Cond;
use sim_world::{Event, Scenario};
use std::alloc::Global;
use std::marker::PhantomData;

// Shrinks a case whose condition fails. Returns `None` if it does not fail.
fn smallest<N: Node, L: Listener>(
    case: &Case<N>,
    meter: &mut N::Meter,
    listener: &mut L,
) -> Result<Option<Vec<Event>>, NoMemory>
    ensures { IfOk result (λ found. MatchOption found
        (failing (rules N.laws N.PROBES case.now.scenario.now)
        case.now.cond.now case.now.events.now ≡ None)
        (λ run. IsShrunk (rules N.laws N.PROBES case.now.scenario.now)
        case.now.cond.now case.now.events.now run.items)) }
{
    let whole = match case.failing_run(meter)? {
        Some(whole) => whole,
        None => return Ok(None),
    };
    let case = case.with_events(&whole);
    let choice = all_stay(case.alloc, &whole)?;
    let choice = case.halve(choice, meter, listener)?;
    let choice = case.settle(choice, meter, listener)?;
    let left = kept(case.alloc, &choice.stays, &whole)?;
    case.with_events(&left).failing_run(meter)
}

/// Makes a failing run small: drops faults until the failure needs each one that is left.
///
/// The failing run has the events that can happen, one after the other, up to the first place at
/// which the condition fails. The result is the run that some of its faults make with all its other
/// events, up to the first such place. Without any one of these faults the condition fails nowhere.
/// Returns `None` if the condition fails nowhere along the run of the events.
///
/// Fails with `BadRange` if there are more than 65,536 events, else with `BadCondition` if the
/// condition can't be asked of this run, else only for want of memory.
pub fn shrink<N: Node, L: Listener>(
    alloc: Global,
    scenario: &Scenario,
    events: &[Event],
    cond: &Cond,
    meter: &mut N::Meter,
    listener: &mut L,
) -> Result<Option<Vec<Event>>, SearchFault>
    ensures shrunk { IfOk result (λ found. MatchOption found
        (failing (rules N.laws N.PROBES scenario.now) cond.now events.now ≡ None)
        (λ run. IsShrunk (rules N.laws N.PROBES scenario.now) cond.now events.now run.items)) }
    ensures allowed { OnOk result
        (shrink_fault (length events.now) scenario.now.setup.hosts N.PROBES cond.now ≡ None) }
    ensures refused { IfErr result (λ why. why
        ≡ reason (shrink_fault (length events.now) scenario.now.setup.hosts N.PROBES cond.now)) }
{
    if are_too_many(events) {
        return Err(SearchFault::BadRange);
    }
    match cond.check(scenario.hosts(), N::PROBES) {
        Err(_) => return Err(SearchFault::BadCondition),
        Ok(()) => {}
    }
    let case = Case::<N> {
        alloc,
        scenario,
        events,
        cond,
        nodes: PhantomData,
    };
    match smallest(&case, meter, listener) {
        Ok(found) => Ok(found),
        Err(_) => Err(SearchFault::NoMemory),
    }
}

// Returns whether there are more events than a world can have.
fn are_too_many(events: &[Event]) -> bool
    ensures value { result ≡ nat_lt 65536 (length events.now) }
    ensures few { result ≡ false → length events.now ≤ 65536 }
{
    MAX_EVENTS < events.len() as u64
}
