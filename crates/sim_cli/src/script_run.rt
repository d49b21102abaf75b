//! The run that a script leaves on the first branch.
ghost use Rattle.std.specs.Prelude.{◌≡◌, ◌<◌, ◌&&◌, ℕ, List, IfOk, IfErr, MatchResult, Some};
ghost use Rattle.std.specs.Prelude.{length, slice_index_or};
ghost use Rattle.std.specs.Io.KnownBytes.{prepend_known};
ghost use Rattle.sim_world.specs.Events.{rules};
ghost use Rattle.sim_cli.specs.Following.{StopsScript};
ghost use Rattle.sim_cli.specs.Statuses.{Stops};
ghost use Rattle.sim_cli.specs.Played.{IsFault, IsWellIf, first_events, given_events};
ghost use Rattle.sim_book.specs.Kept.{Kept as KeptValue};

use crate::following::follow;
use crate::opened::Opened;
use crate::status::Status;
use crate::stop::ScriptStop;
use sim_book::Book;
use sim_lines::Ahead;
use sim_node::{NoMemory, Node};
use sim_script::Names;
use sim_tally::FreshMeter;
use sim_tape::{EventList, Frozen};
use sim_world::{Event, Scenario};
use std::alloc::Global;
use std::io::Read;

/// Carries out a script, and returns all kept events of the first branch. Strictly, fails if a line
/// of the script is at fault.
pub fn played<N: Node<Meter: FreshMeter>, R: Read>(
    alloc: Global,
    scenario: &Scenario,
    names: &Names,
    reader: &mut R,
    ahead: &mut Ahead,
    strict: bool,
) -> Result<Frozen<N>, ScriptStop>
    ensures run { (script : List ℕ) →
        prepend_known ahead.old.bytes (R.remaining reader.old) ≡ Some script →
        MatchResult result
        (λ f. (f.scenario ≡ scenario.now)
        × (f.events ≡ first_events (rules N.laws N.PROBES scenario.now) names.now script)
        × IsWellIf (rules N.laws N.PROBES scenario.now) strict names.now script)
        (IsFault (rules N.laws N.PROBES scenario.now) strict names.now script) }
    ensures stops { IfErr result StopsScript }
{
    let Ok(mut book) = Book::<N>::new(alloc, scenario, N::Meter::fresh()) else {
        return Err(ScriptStop::Ended(Status::MemoryWanted));
    };
    match follow(alloc, &mut book, names, reader, ahead, strict) {
        Ok(()) => {}
        Err(stop) => return Err(stop),
    }
    match first_run(alloc, &book) {
        Ok(frozen) => Ok(frozen),
        Err(status) => Err(ScriptStop::Ended(status)),
    }
}

// Returns all kept events of the first branch.
fn first_run<N: Node>(alloc: Global, book: &Book<N>) -> Result<Frozen<N>, Status>
    requires { 0 < length book.now.kept }
    ensures run { IfOk result (λ f. (f.scenario ≡ book.now.scenario)
        × ((d : KeptValue) → f.events ≡ (slice_index_or book.now.kept 0 d).tape.events)) }
    ensures stops { IfErr result Stops }
{
    match book.frozen(alloc, 0) {
        Ok(frozen) => Ok(frozen),
        Err(_) => Err(Status::MemoryWanted),
    }
}

// Copies an event list to a vector. Fails only for want of memory.
fn listed(alloc: Global, list: &EventList) -> Result<Vec<Event>, NoMemory>
    ensures { IfOk result (λ v. v.items ≡ list.now) }
{
    let mut events = Vec::new(alloc);
    for i in 0..list.len() {
        if let Some(event) = list.get(i) {
            events.push(event)?;
        }
    }
    Ok(events)
}

/// Returns the events that begin each run of a sweep: those that the script leaves if
/// `with_script`, and else none. Reads nothing without a script. Strictly, fails if a line of the
/// script is at fault.
pub fn given_events<N: Node<Meter: FreshMeter>, R: Read>(
    alloc: Global,
    opened: &Opened,
    with_script: bool,
    strict: bool,
    reader: &mut R,
    ahead: &mut Ahead,
) -> Result<Vec<Event>, ScriptStop>
    ensures given { (script : List ℕ) →
        prepend_known ahead.old.bytes (R.remaining reader.old) ≡ Some script →
        MatchResult result
        (λ v. (v.items ≡ given_events (rules N.laws N.PROBES opened.now.scenario)
        with_script opened.now.names script)
        × IsWellIf (rules N.laws N.PROBES opened.now.scenario) (with_script && strict)
        opened.now.names script)
        (IsFault (rules N.laws N.PROBES opened.now.scenario) (with_script && strict)
        opened.now.names script) }
    ensures stops { IfErr result StopsScript }
{
    if !with_script {
        return Ok(Vec::new(alloc));
    }
    let (scenario, names) = (&opened.scenario, &opened.names);
    let frozen = match played::<N, R>(alloc, scenario, names, reader, ahead, strict) {
        Ok(frozen) => frozen,
        Err(stop) => return Err(stop),
    };
    match listed(alloc, frozen.events()) {
        Ok(events) => Ok(events),
        Err(_) => Err(ScriptStop::Ended(Status::MemoryWanted)),
    }
}
