//! Finds places among the kept events of a branch.
ghost use Rattle.std.specs.Prelude.{◌≡◌, ℕ, ◌+◌, ◌-◌, ◌≤◌, ⊤, Bool, IfOk, OnOk, IsTrue, min};
ghost use Rattle.std.specs.Prelude.{length, Some};
ghost use Rattle.sim_world.specs.Events.{rules};
ghost use Rattle.sim_tape.specs.Tape.{IsMoved};
ghost use Rattle.sim_inspect.specs.Seeking.{is_met, is_met_at, is_of_host, IsAnswer, IsFound};
ghost use Rattle.sim_inspect.specs.Seeking.{FindsFirst, FindsLast, FindsLastBefore, IsSpan};

use crate::run::Run;
use sim_book::Refusal;
use sim_node::{NoMemory, Node};
use sim_sight::{fails_of, holds_of};
use sim_tally::FreshMeter;
use sim_tape::{Frozen, Tape};
use sim_watch::Sought;
use sim_world::{Event, Fault, World};
use std::alloc::{AllocError, Global};
use std::fmt::Debug;

/// Why a search for the last place at which a condition held goes nowhere.
const HOLDS_HERE: &str =
    "the condition holds here: go forward, or `first COND` goes to where it first fails";

/// Why there is no such place.
#[derive(Clone, Copy)]
pub enum SeekError {
    /// There is no place to go to, for this reason.
    Nowhere(&'static str),
    /// The request is refused. [`seek`] refuses none.
    Refused(Refusal),
    /// Memory was wanted.
    NoMemory,
}

impl From<AllocError> for SeekError {
    ghost use Rattle.std.specs.Prelude.{◌≡◌};
    ghost use Rattle.sim_inspect.specs.declared.seeking.SeekError.TheVariants as seek;

    ghost from_gives = { λ _ e. e ≡ seek.NoMemory };

    fn from(_error: AllocError) -> SeekError {
        SeekError::NoMemory
    }
}

// The first and the last place of the kind that is looked for.
#[derive(Clone, Copy)]
struct Span {
    first: Option<u32>,
    last: Option<u32>,
}

// Returns whether an event is one of a host: a step that happens to it, or its crash or bounce.
fn is_of_host<N: Node>(world: &World<N>, event: Event, host: u16) -> bool
    ensures { result ≡ is_of_host host world.now.world (Some event) }
{
    match event {
        Event::Step => match world.first() {
            Some((_due, _serial, occurrence)) => occurrence.host() == host,
            None => false,
        },
        Event::Fault(Fault::Crash(crashed) | Fault::Bounce(crashed)) => crashed == host,
        Event::Fault(_) | Event::Advance(_) => false,
    }
}

// Returns whether a place with this world is one to look for; `next` is the event that follows.
fn is_met<N: Node>(sought: &Sought, world: &World<N>, next: Option<Event>) -> bool
    ensures { result ≡ is_met (rules N.laws N.PROBES world.now.scenario) sought.now
        world.now.world next }
{
    match sought {
        Sought::Cause => false,
        Sought::At(time) => u64::from(*time) <= world.clock(),
        Sought::First(cond) => fails_of(cond.get(), world),
        Sought::Held(cond) => holds_of(cond.get(), world),
        Sought::Last(host) => match next {
            Some(event) => is_of_host(world, event, *host),
            None => false,
        },
    }
}

impl Span {
    // Adds the next place.
    fn add(&mut self, place: u32, is_met: bool)
        ensures { (test : ℕ → Bool) → IsSpan test place self.old → test place ≡ is_met
            → IsSpan test (place + 1) self.new }
    {
        if is_met {
            self.first = Some(self.first.unwrap_or(place));
            self.last = Some(place);
        }
    }
}

// Walks a warm tape on to a place, from the one before it or from the place itself. Returns whether
// the place is met. Fails only for want of memory.
fn is_next_met<N: Node>(
    alloc: Global,
    tape: &mut Tape<N>,
    place: u32,
    sought: &Sought,
    meter: &mut N::Meter,
) -> Result<bool, NoMemory>
    requires warm { IsTrue tape.old.warm }
    requires before { tape.old.place ≡ place - 1 }
    requires within { place ≤ length tape.old.events }
    ensures tape { OnOk result (IsMoved place tape.old tape.new) }
    ensures met { IfOk result (λ met. is_met_at (rules N.laws N.PROBES tape.old.scenario)
        sought.now tape.old.events place ≡ met) }
{
    if tape.place() < place {
        tape.pass(alloc, meter)?;
    }
    Ok(is_met(sought, tape.here(), tape.next_event()))
}

// Returns the first and the last of the places below `end` that are met. Fails only for want of
// memory.
fn span_of<N: Node<Meter: FreshMeter>>(
    alloc: Global,
    run: &Frozen<N>,
    end: u32,
    sought: &Sought,
) -> Result<Span, NoMemory>
    requires { end ≤ length run.now.events + 1 }
    ensures { IfOk result (IsSpan
        (is_met_at (rules N.laws N.PROBES run.now.scenario) sought.now run.now.events) end) }
{
    let mut meter = N::Meter::fresh();
    let mut tape = run.tape(alloc, 0, &mut meter)?;
    let mut span = Span {
        first: None,
        last: None,
    };
    for place in 0..end {
        let is_met = is_next_met(alloc, &mut tape, place, sought, &mut meter)?;
        span.add(place, is_met);
    }
    Ok(span)
}

// Returns the place before the event that queued what happens next from `place` on.
fn cause_of<N: Node<Meter: FreshMeter> + Debug>(
    run: &Run<'_, N>,
    place: u32,
) -> Result<u32, SeekError>
where
    N::Msg: Debug,
    ensures { IsAnswer (λ _. ⊤) ⊤ result }
{
    let why = match run.event(place.saturating_add(1)) {
        Some(Event::Fault(_)) => "the next event is a fault of the script",
        Some(Event::Advance(_)) => "the next event moves the clock alone",
        Some(Event::Step) | None => match run.serials(place)?.first {
            None => "nothing is pending",
            Some(serial) => match run.places.queued_by(serial) {
                Some(cause) => return Ok(cause.saturating_sub(1)),
                None => "what happens next was pending from the start",
            },
        },
    };
    Err(SeekError::Nowhere(why))
}

// Returns the first place that is met, or `why` as the reason that there is none.
fn first_of<N: Node<Meter: FreshMeter>>(
    alloc: Global,
    run: &Frozen<N>,
    sought: &Sought,
    why: &'static str,
) -> Result<u32, SeekError>
    ensures { FindsFirst
        (is_met_at (rules N.laws N.PROBES run.now.scenario) sought.now run.now.events)
        (length run.now.events + 1) result }
{
    let end = run.events().len() + 1;
    match span_of(alloc, run, end, sought)?.first {
        Some(place) => Ok(place),
        None => Err(SeekError::Nowhere(why)),
    }
}

// Returns the last place before `here` that is met, or `why` as the reason that there is none.
fn last_of<N: Node<Meter: FreshMeter>>(
    alloc: Global,
    run: &Frozen<N>,
    here: u32,
    sought: &Sought,
    why: &'static str,
) -> Result<u32, SeekError>
    requires { here ≤ length run.now.events }
    ensures { FindsLast
        (is_met_at (rules N.laws N.PROBES run.now.scenario) sought.now run.now.events)
        here result }
{
    match span_of(alloc, run, here, sought)?.last {
        Some(place) => Ok(place),
        None => Err(SeekError::Nowhere(why)),
    }
}

// Returns the last place before `here` that is met, unless `here` itself is met.
fn held_of<N: Node<Meter: FreshMeter>>(
    alloc: Global,
    run: &Frozen<N>,
    here: u32,
    sought: &Sought,
) -> Result<u32, SeekError>
    requires { here ≤ length run.now.events }
    ensures { FindsLastBefore
        (is_met_at (rules N.laws N.PROBES run.now.scenario) sought.now run.now.events)
        here result }
{
    let _few = run.events().len();
    let why = match span_of(alloc, run, here + 1, sought)?.last {
        Some(place) if place < here => return Ok(place),
        Some(_here) => HOLDS_HERE,
        None => "the condition fails at this place and at all before it",
    };
    Err(SeekError::Nowhere(why))
}

/// Returns the place of a run that `sought` describes, seen from place `here`, or from the end if
/// `here` is past it. Fails with the reason if there is no such place, or for want of memory. A
/// search for the last place at which a condition held also fails if the condition holds at `here`.
/// A condition that names a host or a probe that does not exist neither holds nor fails.
pub fn seek<N: Node<Meter: FreshMeter> + Debug>(
    alloc: Global,
    run: &Run<'_, N>,
    here: u32,
    sought: &Sought,
) -> Result<u32, SeekError>
where
    N::Msg: Debug,
    ensures { IsFound (rules N.laws N.PROBES run.now.frozen.scenario) run.now.frozen.events
        (min here (length run.now.frozen.events)) sought.now result }
{
    let here = here.min(run.len());
    let frozen = &run.frozen;
    match sought {
        Sought::Cause => cause_of(run, here),
        Sought::At(_) => {
            let why = "the clock is earlier at all kept places";
            first_of(alloc, frozen, sought, why)
        }
        Sought::First(_) => {
            let why = "the condition holds at all kept places";
            first_of(alloc, frozen, sought, why)
        }
        Sought::Last(_) => {
            let why = "that host has no event before this place";
            last_of(alloc, frozen, here, sought, why)
        }
        Sought::Held(_) => held_of(alloc, frozen, here, sought),
    }
}
