//! Scans of a run for the first place at which a condition fails.
ghost use Rattle.std.specs.Prelude.{◌≡◌, ℕ, ◌+◌, ◌-◌, ◌/◌, ◌%◌, ◌<◌, ◌≤◌, IsTrue, IsFalse, IfOk};
ghost use Rattle.std.specs.Prelude.{OnOk, IfSome, IsSomeAnd, length, not, false, replicate};
ghost use Rattle.std.specs.Prelude.{slice_index_or};
ghost use Rattle.std.specs.Option.{unwrap_or};
ghost use Rattle.sim_world.specs.Events.{rules, IsRunnable};
ghost use Rattle.sim_moves.specs.Works.{OnlyTurns, Plays};
ghost use Rattle.sim_tape.specs.Works.{nodes_below};
ghost use Rattle.sim_watch.specs.Condition.{holds, fault_of};
ghost use Rattle.sim_scan.specs.Search.{fails_at, first_failing};

use crate::places::{Finding, Piece};
use sim_node::{NoMemory, Node};
use sim_tape::{Frozen, Tape};
use sim_watch::{Cond, holds};
use sim_world::{Event, Scenario, World};
use std::alloc::Global;

// Returns whether a checked condition fails at the place of a warm tape.
fn fails_here<N: Node>(tape: &Tape<N>, cond: &Cond) -> bool
    requires warm { IsTrue tape.now.warm }
    requires checked { fault_of tape.now.scenario.setup.hosts N.PROBES cond.now ≡ None }
    ensures { result ≡ fails_at (rules N.laws N.PROBES tape.now.scenario)
        cond.now tape.now.events tape.now.place }
{
    !holds(cond, tape.here())
}

// Returns whether the event before a place may have changed whether a condition holds: it was no
// step, or the step was of one of the marked hosts.
fn may_differ(marks: &[bool; 32], host: Option<u16>) -> bool
    requires { IfSome host (λ h. h < 32) }
    ensures { IsFalse result → IsSomeAnd host (λ h. slice_index_or marks.now h false ≡ false) }
{
    match host {
        None => true,
        Some(host) => marks[host as usize],
    }
}

// Walks a warm tape on to the first place at which a checked condition fails, and returns it, or
// to the place `hi`. The condition is tested only where it may have changed.
fn scan_on<N: Node>(
    alloc: Global,
    tape: &mut Tape<N>,
    hi: u32,
    cond: &Cond,
    meter: &mut N::Meter,
) -> Result<Option<u32>, NoMemory>
    requires warm { IsTrue tape.old.warm }
    requires order { tape.old.place ≤ hi }
    requires end { hi ≤ length tape.old.events }
    requires checked { fault_of tape.old.scenario.setup.hosts N.PROBES cond.now ≡ None }
    ensures place { IfOk result (λ found.
        found ≡ first_failing (rules N.laws N.PROBES tape.old.scenario)
        cond.now tape.old.events tape.old.place hi) }
    ensures work { OnOk result (OnlyTurns (hi - tape.old.place)
        (N.Meter.work meter.old) (N.Meter.work meter.new)) }
{
    let lo = tape.place();
    if fails_here(tape, cond) {
        return Ok(Some(lo));
    }
    let marks = cond.concerned();
    for place in lo..hi {
        let host = tape.pass(alloc, meter)?;
        if may_differ(&marks, host) && fails_here(tape, cond) {
            return Ok(Some(place + 1));
        }
    }
    Ok(None)
}

/// Returns the least place of a piece of a frozen run at which a checked condition fails. The piece
/// lies between two checkpoints. One walk, forward from the checkpoint below it, takes fewer turns
/// than the interval and one copy of a world. The run's events can happen one after the other.
/// Fails only for want of memory.
pub fn scan<N: Node>(
    alloc: Global,
    frozen: &Frozen<N>,
    piece: Piece,
    cond: &Cond,
    meter: &mut N::Meter,
) -> Result<Finding, NoMemory>
    requires order { piece.lo ≤ piece.hi }
    requires one { piece.lo / frozen.now.scenario.interval ≡
        piece.hi / frozen.now.scenario.interval }
    requires end { piece.hi ≤ length frozen.now.events }
    requires checked { fault_of frozen.now.scenario.setup.hosts N.PROBES cond.now ≡ None }
    ensures runs { IsRunnable (rules N.laws N.PROBES frozen.now.scenario) frozen.now.events }
    ensures piece { IfOk result (λ f. f.piece ≡ piece) }
    ensures place { IfOk result (λ f.
        f.place ≡ first_failing (rules N.laws N.PROBES frozen.now.scenario)
        cond.now frozen.now.events piece.lo piece.hi) }
    ensures work { OnOk result (Plays (piece.hi % frozen.now.scenario.interval)
        (nodes_below (rules N.laws N.PROBES frozen.now.scenario) piece.lo frozen.now.events)
        (N.Meter.work meter.old) (N.Meter.work meter.new)) }
{
    frozen.laws();
    scan_after(alloc, frozen, &mut None, piece, cond, meter)
}

/// Returns the least place of a piece of a frozen run at which a condition fails, as `scan` does.
/// Takes over the tape of the last piece, if there is one, and leaves its own for the next. Fails
/// only for want of memory; no tape is left then.
pub fn scan_after<N: Node>(
    alloc: Global,
    frozen: &Frozen<N>,
    last: &mut Option<Tape<N>>,
    piece: Piece,
    cond: &Cond,
    meter: &mut N::Meter,
) -> Result<Finding, NoMemory>
    requires order { piece.lo ≤ piece.hi }
    requires one { piece.lo / frozen.now.scenario.interval ≡
        piece.hi / frozen.now.scenario.interval }
    requires end { piece.hi ≤ length frozen.now.events }
    requires checked { fault_of frozen.now.scenario.setup.hosts N.PROBES cond.now ≡ None }
    ensures runs { IsRunnable (rules N.laws N.PROBES frozen.now.scenario) frozen.now.events }
    ensures piece { IfOk result (λ f. f.piece ≡ piece) }
    ensures place { IfOk result (λ f.
        f.place ≡ first_failing (rules N.laws N.PROBES frozen.now.scenario)
        cond.now frozen.now.events piece.lo piece.hi) }
    ensures work { OnOk result (Plays (piece.hi % frozen.now.scenario.interval)
        (nodes_below (rules N.laws N.PROBES frozen.now.scenario) piece.lo frozen.now.events)
        (N.Meter.work meter.old) (N.Meter.work meter.new)) }
{
    frozen.laws();
    let mut tape = frozen.tape_after(alloc, last.take(), piece.lo, meter)?;
    let place = scan_on(alloc, &mut tape, piece.hi, cond, meter)?;
    *last = Some(tape);
    Ok(Finding { piece, place })
}

/// Returns the least place of a run of at most `events` steps, up to 65,536, at which a checked
/// condition fails.
/// The run begins at the start of the scenario and goes on until nothing is pending. Boots each
/// host once, and counts no turn past the place found. Fails only for want of memory.
pub fn scan_seed<N: Node>(
    alloc: Global,
    scenario: &Scenario,
    events: u32,
    cond: &Cond,
    meter: &mut N::Meter,
) -> Result<Option<u32>, NoMemory>
    requires most { events ≤ 65536 }
    requires checked { fault_of scenario.now.setup.hosts N.PROBES cond.now ≡ None }
    ensures place { IfOk result (λ found.
        found ≡ first_failing (rules N.laws N.PROBES scenario.now) cond.now
        (replicate events Event.Step) 0 events) }
    ensures work { IfOk result (λ found.
        OnlyTurns (scenario.now.setup.hosts + unwrap_or found events)
        (N.Meter.work meter.old) (N.Meter.work meter.new)) }
{
    let mut world = World::<N>::start(alloc, scenario, meter)?;
    if !holds(cond, &world) {
        return Ok(Some(0));
    }
    let concerned = cond.concerned();
    for place in 0..events {
        match world.can(Event::Step) {
            Err(_) => return Ok(None),
            Ok(()) => {}
        }
        let (next, host) = world.step_for_good(meter)?;
        world = next;
        if concerned[host as usize] && !holds(cond, &world) {
            return Ok(Some(place + 1));
        }
    }
    Ok(None)
}
