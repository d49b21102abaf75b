//! Why a run or a rewind stops at a world, and whether a watch can be why.
ghost use Rattle.std.specs.Prelude.{◌≡◌, ℕ, ◌<◌, ◌≤◌, ◌⊎◌, nat_le, None, false, ◌||◌, length};
ghost use Rattle.std.specs.Prelude.{IsTrue, IsFalse, IfSome, IsSomeAnd, slice_index_or};
ghost use Rattle.std.specs.List.{list_all};
ghost use Rattle.sim_world.specs.Events.{Rules, rules};
ghost use Rattle.sim_runs.specs.Runs.{all_done, first_stop, is_idle, run_stop};
ghost use Rattle.sim_runs.specs.OnTape.{world_on};
ghost use Rattle.sim_runs.specs.Watches.{AreChecked, NoneFrom, NoneConcerns, IsNextUnmarked};
ghost use Rattle.sim_runs.specs.Watches.{failing_watch};

use crate::{MAX_EVENTS, MAX_WATCHES, Stop};
use sim_node::Node;
use sim_tape::Tape;
use sim_watch::{Cond, holds};
use sim_world::{Event, World};

// The least number of events for which a run or a rewind asks which hosts its watches are about. A
// shorter one takes less time without.
const LONG_WALK: u32 = 16;

/// Returns a number above those of all watches.
pub(crate) fn end_of(watches: &[Option<Cond>; 8]) -> usize
    ensures few { result ≤ 8 }
    ensures none { NoneFrom result watches.now }
{
    let mut end = 0;
    for number in 0..MAX_WATCHES {
        if watches[number].is_some() {
            end = number + 1;
        }
    }
    end
}

// Returns for each host from 0 to 31 whether `a` or `b` does.
fn either(a: [bool; 32], b: [bool; 32]) -> [bool; 32]
    ensures { (h : ℕ) → h < 32 →
        slice_index_or result h false ≡ (slice_index_or a h false || slice_index_or b h false) }
{
    let mut either = [false; 32];
    for host in 0..32 {
        either[host] = a[host] || b[host];
    }
    either
}

// Returns for each host from 0 to 31 whether a watch has a term about it.
fn concerned_hosts(watches: &[Option<Cond>; 8]) -> [bool; 32]
    ensures { (h : ℕ) → h < 32 → slice_index_or result h false ≡ false →
        NoneConcerns h watches.now }
{
    let mut concerned = [false; 32];
    for number in 0..MAX_WATCHES {
        if let Some(cond) = &watches[number] {
            let joined = either(concerned, cond.concerned());
            concerned = joined;
        }
    }
    concerned
}

// Returns whether all hosts from 0 to 31 are marked.
fn are_all(marks: &[bool; 32]) -> bool
    ensures { result ≡ list_all (λ mark. mark) marks.now }
{
    marks.iter().all(|mark| *mark)
}

/// Returns for each host from 0 to 31 whether a watch has a term about it, for a walk over at most
/// `count` events. Returns `None` if the watches are to be tested at each place of the walk: they
/// are about all hosts, or the walk has fewer than 16 events.
pub(crate) fn concerned(watches: &[Option<Cond>; 8], count: u32) -> Option<[bool; 32]>
    ensures { IfSome result (λ marks.
        (h : ℕ) → h < 32 → slice_index_or marks h false ≡ false → NoneConcerns h watches.now) }
{
    if count < LONG_WALK {
        return None;
    }
    let concerned = concerned_hosts(watches);
    if are_all(&concerned) {
        return None;
    }
    Some(concerned)
}

// Returns whether the next step in a world is of a marked host. True also if nothing is pending, or
// if the host is not below 32.
fn is_marked<N: Node>(marks: &[bool; 32], world: &World<N>) -> bool
    ensures { IsFalse result → IsNextUnmarked marks.now world.now.world }
{
    match world.first() {
        None => true,
        Some((_, _, occurrence)) => occurrence.host >= 32 || marks[occurrence.host as usize],
    }
}

/// Returns whether the watches may fail on one side of an event and not on the other: it is no
/// step, or a watch is about its host.
pub(crate) fn may_differ(concerned: &Option<[bool; 32]>, host: Option<u16>) -> bool
    requires { IfSome host (λ h. h < 32) }
    ensures { IsFalse result → IsSomeAnd concerned.now (λ marks. IsSomeAnd host (λ h.
        (h < 32) × (slice_index_or marks h false ≡ false))) }
{
    match (concerned, host) {
        (Some(marks), Some(host)) => marks[host as usize],
        (None, _) | (_, None) => true,
    }
}

/// Returns whether a watch may fail after the next step at the place of a warm tape, where a run
/// has added `added` steps and none fails. Only a watch with a term about the host of that step
/// may; `concerned` says which hosts they are about. Before the first step they were not tested.
pub(crate) fn may_fail<N: Node>(
    tape: &Tape<N>,
    concerned: &Option<[bool; 32]>,
    end: usize,
    added: u32,
) -> bool
    requires warm { IsTrue tape.now.warm }
    ensures { IsFalse result → (end ≡ 0) ⊎ ((1 ≤ added) × IsSomeAnd concerned.now (λ marks.
        IsNextUnmarked marks (world_on N.laws N.PROBES tape.now))) }
{
    if end == 0 {
        return false;
    }
    if added == 0 {
        return true;
    }
    match concerned {
        None => true,
        Some(marks) => is_marked(marks, tape.here()),
    }
}

/// Returns the lowest watch that fails in `world`. All watches have numbers below `end`.
pub(crate) fn failing<N: Node>(
    watches: &[Option<Cond>; 8],
    end: usize,
    world: &World<N>,
) -> Option<u32>
    requires few { end ≤ 8 }
    requires none { NoneFrom end watches.now }
    requires checked { AreChecked world.now.scenario.setup.hosts N.PROBES watches.now }
    ensures { result ≡ failing_watch (rules N.laws N.PROBES world.now.scenario)
        watches.now world.now.world }
{
    for number in 0..end {
        if let Some(cond) = &watches[number] {
            if !holds(cond, world) {
                return Some(number as u32);
            }
        }
    }
    None
}

// Returns the first reason to stop a run at a world, if any: a failing watch, then the others in
// their order. `asked` says whether all steps asked for were added; `kept` is the number of kept
// events.
fn first_stop<N: Node>(
    failing: Option<u32>,
    asked: bool,
    kept: u32,
    world: &World<N>,
) -> Option<Stop>
    ensures { result ≡ first_stop failing
        (all_done (rules N.laws N.PROBES world.now.scenario) world.now.world) asked
        (nat_le 65536 kept)
        (is_idle world.now.world) }
{
    if let Some(watch) = failing {
        return Some(Stop::Watch(watch));
    }
    if world.are_clients_done() {
        return Some(Stop::AllDone);
    }
    if asked {
        return Some(Stop::Asked);
    }
    if MAX_EVENTS <= kept {
        return Some(Stop::Full);
    }
    if world.can(Event::Step).is_err() {
        return Some(Stop::Idle);
    }
    None
}

/// Returns the lowest watch that fails in the world at the place of a warm tape.
pub(crate) fn failing_here<N: Node>(
    tape: &Tape<N>,
    watches: &[Option<Cond>; 8],
    end: usize,
) -> Option<u32>
    requires warm { IsTrue tape.now.warm }
    requires few { end ≤ 8 }
    requires none { NoneFrom end watches.now }
    requires checked { AreChecked tape.now.scenario.setup.hosts N.PROBES watches.now }
    ensures { result ≡ failing_watch (rules N.laws N.PROBES tape.now.scenario) watches.now
        (world_on N.laws N.PROBES tape.now) }
{
    if end == 0 {
        return None;
    }
    failing(watches, end, tape.here())
}

/// Returns the reason why a run stops at the place of a warm tape, if it does. `looks` says whether
/// to test the watches; if not, none fails there.
pub(crate) fn stop<N: Node>(
    tape: &Tape<N>,
    watches: &[Option<Cond>; 8],
    end: usize,
    asked: bool,
    looks: bool,
) -> Option<Stop>
    requires warm { IsTrue tape.now.warm }
    requires place { tape.now.place ≡ length tape.now.events }
    requires few { end ≤ 8 }
    requires none { NoneFrom end watches.now }
    requires checked { AreChecked tape.now.scenario.setup.hosts N.PROBES watches.now }
    requires unchanged { IsFalse looks →
        failing_watch (rules N.laws N.PROBES tape.now.scenario) watches.now
        (world_on N.laws N.PROBES tape.now) ≡ None }
    ensures { result ≡ run_stop (rules N.laws N.PROBES tape.now.scenario) asked watches.now
        (length tape.now.events)
        (world_on N.laws N.PROBES tape.now) }
{
    let world = tape.here();
    let failing = if looks {
        failing(watches, end, world)
    } else {
        None
    };
    first_stop(failing, asked, tape.place(), world)
}
