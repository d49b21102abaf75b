//! A rewind: back until a watch fails.
ghost use Rattle.std.specs.Prelude.{◌≡◌, ℕ, ◌+◌, ◌-◌, ◌/◌, ◌%◌, ◌<◌, ◌≤◌};
ghost use Rattle.std.specs.Prelude.{IsTrue, IsFalse, OnOk, OnErr, IfOk, None, length};
ghost use Rattle.sim_world.specs.Events.{rules};
ghost use Rattle.sim_tape.specs.Tape.{IsMoved, KeepsRun};
ghost use Rattle.sim_runs.specs.OnTape.{IsElsewhere, world_on, rewind_on};
ghost use Rattle.sim_runs.specs.Running.{IsLast, place_found, found_at};
ghost use Rattle.sim_runs.specs.Watches.{AreChecked, NoneFrom, failing_watch};
ghost use Rattle.sim_moves.specs.Works.{OnlyTurns};
ghost use Rattle.sim_runs.specs.Works.{TakesBack, Looks, UndoesAtMost};
ghost use Rattle.sim_runs.specs.Reach.{reach_rewound};

use crate::{Stop, stops};
use sim_node::{NoMemory, Node};
use sim_tape::Tape;
use sim_watch::Cond;
use std::alloc::Global;
use std::cmp::{max, min};

/// A place at which a watch fails, and the lowest watch that fails there.
#[derive(Clone, Copy)]
struct Found {
    place: u32,
    watch: u32,
}

// Returns the place of a warm tape and the lowest watch that fails there, or `None` if none fails.
// `looks` says whether to test the watches; if not, none fails there.
fn found_here<N: Node>(
    tape: &Tape<N>,
    watches: &[Option<Cond>; 8],
    end: usize,
    looks: bool,
) -> Option<Found>
    requires warm { IsTrue tape.now.warm }
    requires few { end ≤ 8 }
    requires none { NoneFrom end watches.now }
    requires checked { AreChecked tape.now.scenario.setup.hosts N.PROBES watches.now }
    requires unchanged { IsFalse looks →
        failing_watch (rules N.laws N.PROBES tape.now.scenario) watches.now
        (world_on N.laws N.PROBES tape.now) ≡ None }
    ensures { result ≡ found_at tape.now.place
        (failing_watch (rules N.laws N.PROBES tape.now.scenario) watches.now
        (world_on N.laws N.PROBES tape.now)) }
{
    if !looks {
        return None;
    }
    match stops::failing_here(tape, watches, end) {
        None => None,
        Some(watch) => Some(Found {
            place: tape.place(),
            watch,
        }),
    }
}

// Goes back by at most `count` events, one at a time and within the reach, until a watch fails.
// Tests the watches before the last event, and then only before events that may change them.
fn look_near<N: Node>(
    alloc: Global,
    tape: &mut Tape<N>,
    watches: &[Option<Cond>; 8],
    end: usize,
    meter: &mut N::Meter,
    count: u32,
) -> Result<Option<Found>, NoMemory>
    requires within { count ≤ tape.old.place }
    requires near { count ≤ tape.old.reach }
    requires warm { IsTrue tape.old.warm }
    requires few { end ≤ 8 }
    requires none { NoneFrom end watches.now }
    requires checked { AreChecked tape.old.scenario.setup.hosts N.PROBES watches.now }
    ensures last { IfOk result (λ found.
        IsLast N.laws N.PROBES watches.now tape.old (tape.old.place - count) tape.old.place found) }
    ensures moved { IfOk result (λ found.
        IsMoved (place_found (tape.old.place - count) found) tape.old tape.new) }
    ensures reach { OnOk result (tape.new.reach ≡ tape.old.reach -
        (tape.old.place - tape.new.place)) }
    ensures work { OnOk result (TakesBack (rules N.laws N.PROBES tape.old.scenario)
        (tape.old.place - tape.new.place) tape.new.place tape.old
        (N.Meter.work meter.old) (N.Meter.work meter.new)) }
    ensures err { OnErr result (IsElsewhere tape.old tape.new) }
{
    let concerned = stops::concerned(watches, count);
    for done in 0..count {
        tape.back(alloc, 1, meter)?;
        let looks = done == 0 || stops::may_differ(&concerned, tape.next_host());
        if let Some(found) = found_here(tape, watches, end, looks) {
            return Ok(Some(found));
        }
    }
    Ok(None)
}

// Goes forward by `count` events without keeping records, and tests the watches at the first place
// and at each where one may fail. Returns the last failure.
fn last_failing<N: Node>(
    alloc: Global,
    tape: &mut Tape<N>,
    watches: &[Option<Cond>; 8],
    end: usize,
    meter: &mut N::Meter,
    count: u32,
) -> Result<Option<Found>, NoMemory>
    requires within { tape.old.place + count ≤ length tape.old.events }
    requires warm { IsTrue tape.old.warm }
    requires few { end ≤ 8 }
    requires none { NoneFrom end watches.now }
    requires checked { AreChecked tape.old.scenario.setup.hosts N.PROBES watches.now }
    ensures last { IfOk result (λ found.
        IsLast N.laws N.PROBES watches.now tape.old tape.old.place (tape.old.place + count + 1)
        found) }
    ensures moved { OnOk result (IsMoved (tape.old.place + count) tape.old tape.new) }
    ensures spent { OnOk result (1 ≤ count → tape.new.reach ≡ 0) }
    ensures still { OnOk result (count ≡ 0 → tape.new.reach ≡ tape.old.reach) }
    ensures work { OnOk result (OnlyTurns count (N.Meter.work meter.old) (N.Meter.work meter.new)) }
    ensures err { OnErr result (IsElsewhere tape.old tape.new) }
{
    let concerned = stops::concerned(watches, count);
    let mut last = found_here(tape, watches, end, true);
    for _ in 0..count {
        let host = tape.pass(alloc, meter)?;
        let looks = last.is_some() || stops::may_differ(&concerned, host);
        if let Some(found) = found_here(tape, watches, end, looks) {
            last = Some(found);
        }
    }
    Ok(last)
}

// Returns the first place of the stretch that ends just below `high`: its checkpoint, or `to` if
// that is later.
fn stretch_below(high: u32, interval: u32, to: u32) -> u32
    requires some { 1 ≤ interval }
    requires below { to < high }
    ensures from { to ≤ result }
    ensures below { result < high }
    ensures same { result / interval ≡ (high - 1) / interval }
    ensures whole { to < result → result % interval ≡ 0 }
{
    max(to, high - 1 - (high - 1) % interval)
}

// Tests the places below the tape's, down to `to`, stretch by stretch: each from its checkpoint
// forward, without records, for none is left to go back by. Goes to the last place at which a watch
// fails, or to `to`.
fn look_far<N: Node>(
    alloc: Global,
    tape: &mut Tape<N>,
    watches: &[Option<Cond>; 8],
    end: usize,
    meter: &mut N::Meter,
    to: u32,
) -> Result<Option<Found>, NoMemory>
    requires within { to ≤ tape.old.place }
    requires warm { IsTrue tape.old.warm }
    requires spent { tape.old.reach ≡ 0 }
    requires few { end ≤ 8 }
    requires none { NoneFrom end watches.now }
    requires checked { AreChecked tape.old.scenario.setup.hosts N.PROBES watches.now }
    ensures last { IfOk result (λ found.
        IsLast N.laws N.PROBES watches.now tape.old to tape.old.place found) }
    ensures moved { IfOk result (λ found. IsMoved (place_found to found) tape.old tape.new) }
    ensures reach { OnOk result (tape.new.reach ≡ reach_rewound to tape.new.place tape.old) }
    ensures looks { OnOk result (Looks (rules N.laws N.PROBES tape.old.scenario)
        tape.new.place tape.old.place tape.old
        (N.Meter.work meter.old) (N.Meter.work meter.new)) }
    ensures undos { OnOk result ((N.Meter.work meter.new).undos ≡ (N.Meter.work meter.old).undos) }
    ensures err { OnErr result (IsElsewhere tape.old tape.new) }
{
    let interval = tape.interval();
    let mut high = tape.place();
    while to < high {
        let low = stretch_below(high, interval, to);
        tape.goto(alloc, low, meter)?;
        if let Some(found) = last_failing(alloc, tape, watches, end, meter, high - 1 - low)? {
            tape.goto(alloc, found.place, meter)?;
            return Ok(Some(found));
        }
        high = low;
    }
    tape.goto(alloc, to, meter)?;
    Ok(None)
}

// Goes back by at most `count` events, to the last place at which a watch fails. Tests the places
// within the reach on the way back, and those past it stretch by stretch. Without watches it tests
// nothing.
fn look_back<N: Node>(
    alloc: Global,
    tape: &mut Tape<N>,
    watches: &[Option<Cond>; 8],
    end: usize,
    meter: &mut N::Meter,
    count: u32,
) -> Result<Option<Found>, NoMemory>
    requires within { count ≤ tape.old.place }
    requires warm { IsTrue tape.old.warm }
    requires few { end ≤ 8 }
    requires none { NoneFrom end watches.now }
    requires checked { AreChecked tape.old.scenario.setup.hosts N.PROBES watches.now }
    ensures last { IfOk result (λ found.
        IsLast N.laws N.PROBES watches.now tape.old (tape.old.place - count) tape.old.place found) }
    ensures moved { IfOk result (λ found.
        IsMoved (place_found (tape.old.place - count) found) tape.old tape.new) }
    ensures reach { OnOk result (tape.new.reach
        ≡ reach_rewound (tape.old.place - count) tape.new.place tape.old) }
    ensures work { OnOk result (tape.old.place - tape.new.place ≤ tape.old.reach
        → TakesBack (rules N.laws N.PROBES tape.old.scenario) (tape.old.place - tape.new.place)
        tape.new.place tape.old
        (N.Meter.work meter.old) (N.Meter.work meter.new)) }
    ensures looks { OnOk result (Looks (rules N.laws N.PROBES tape.old.scenario)
        tape.new.place (tape.old.place - tape.old.reach) tape.old
        (N.Meter.work meter.old) (N.Meter.work meter.new)) }
    ensures undos { OnOk result (UndoesAtMost (rules N.laws N.PROBES tape.old.scenario)
        tape.old.reach tape.old (N.Meter.work meter.old) (N.Meter.work meter.new)) }
    ensures err { OnErr result (IsElsewhere tape.old tape.new) }
{
    let reach = tape.reach();
    if end == 0 {
        tape.back(alloc, count, meter)?;
        return Ok(None);
    }
    let to = tape.place() - count;
    let near = min(count, reach);
    if let Some(found) = look_near(alloc, tape, watches, end, meter, near)? {
        return Ok(Some(found));
    }
    if near == count {
        return Ok(None);
    }
    look_far(alloc, tape, watches, end, meter, to)
}

// Goes back by at most `count` events, until a watch fails. After want of memory it may have gone
// back by some.
fn go_back<N: Node>(
    alloc: Global,
    tape: &mut Tape<N>,
    watches: &[Option<Cond>; 8],
    end: usize,
    meter: &mut N::Meter,
    count: u32,
) -> Result<Stop, NoMemory>
    requires some { 1 ≤ count }
    requires within { count ≤ tape.old.place }
    requires warm { IsTrue tape.old.warm }
    requires few { end ≤ 8 }
    requires none { NoneFrom end watches.now }
    requires checked { AreChecked tape.old.scenario.setup.hosts N.PROBES watches.now }
    ensures stop { IfOk result (λ why.
        why ≡ (rewind_on N.laws N.PROBES count watches.now tape.old).stop) }
    ensures ok { OnOk result (IsMoved
        (rewind_on N.laws N.PROBES count watches.now tape.old).place tape.old tape.new) }
    ensures reach { OnOk result (tape.new.reach
        ≡ reach_rewound (tape.old.place - count) tape.new.place tape.old) }
    ensures work { OnOk result (tape.old.place - tape.new.place ≤ tape.old.reach
        → TakesBack (rules N.laws N.PROBES tape.old.scenario) (tape.old.place - tape.new.place)
        tape.new.place tape.old
        (N.Meter.work meter.old) (N.Meter.work meter.new)) }
    ensures looks { OnOk result (Looks (rules N.laws N.PROBES tape.old.scenario)
        tape.new.place (tape.old.place - tape.old.reach) tape.old
        (N.Meter.work meter.old) (N.Meter.work meter.new)) }
    ensures undos { OnOk result (UndoesAtMost (rules N.laws N.PROBES tape.old.scenario)
        tape.old.reach tape.old (N.Meter.work meter.old) (N.Meter.work meter.new)) }
    ensures err { OnErr result (IsElsewhere tape.old tape.new) }
{
    match look_back(alloc, tape, watches, end, meter, count)? {
        None => Ok(Stop::Asked),
        Some(found) => Ok(Stop::Watch(found.watch)),
    }
}

/// Goes back by at most `count` events, from 1 to the place, until a watch fails. The tape is warm.
/// After want of memory the place is as before, and the tape may be cold.
pub fn rewind<N: Node>(
    alloc: Global,
    tape: &mut Tape<N>,
    watches: &[Option<Cond>; 8],
    meter: &mut N::Meter,
    count: u32,
) -> Result<Stop, NoMemory>
    requires some { 1 ≤ count }
    requires within { count ≤ tape.old.place }
    requires warm { IsTrue tape.old.warm }
    requires checked { AreChecked tape.old.scenario.setup.hosts N.PROBES watches.now }
    ensures stop { IfOk result (λ why.
        why ≡ (rewind_on N.laws N.PROBES count watches.now tape.old).stop) }
    ensures ok { OnOk result (IsMoved
        (rewind_on N.laws N.PROBES count watches.now tape.old).place tape.old tape.new) }
    ensures reach { OnOk result (tape.new.reach
        ≡ reach_rewound (tape.old.place - count) tape.new.place tape.old) }
    ensures work { OnOk result (tape.old.place - tape.new.place ≤ tape.old.reach
        → TakesBack (rules N.laws N.PROBES tape.old.scenario) (tape.old.place - tape.new.place)
        tape.new.place tape.old
        (N.Meter.work meter.old) (N.Meter.work meter.new)) }
    ensures looks { OnOk result (Looks (rules N.laws N.PROBES tape.old.scenario)
        tape.new.place (tape.old.place - tape.old.reach) tape.old
        (N.Meter.work meter.old) (N.Meter.work meter.new)) }
    ensures undos { OnOk result (UndoesAtMost (rules N.laws N.PROBES tape.old.scenario)
        tape.old.reach tape.old (N.Meter.work meter.old) (N.Meter.work meter.new)) }
    ensures err { OnErr result (KeepsRun tape.old tape.new) }
{
    let place = tape.place();
    let end = stops::end_of(watches);
    match go_back(alloc, tape, watches, end, meter, count) {
        Ok(why) => Ok(why),
        Err(want) => {
            tape.rest(place);
            Err(want)
        }
    }
}
