//! The kept events of a branch, described one after the other.
ghost use Rattle.std.specs.Prelude.{◌≡◌, ◌+◌, ◌-◌, ◌<◌, ◌≤◌, ◌↔◌, false, length};
ghost use Rattle.std.specs.Prelude.{IfOk, IfSome, IsSome, IsTrue, OnOk};
ghost use Rattle.std.specs.Option.{option_map};
ghost use Rattle.sim_world.specs.Events.{rules};
ghost use Rattle.sim_book.specs.Book.{branch as branch_in};
ghost use Rattle.sim_book.specs.Freezing.{IsWhole};
ghost use Rattle.sim_book.specs.Kept.{all_shown};
ghost use Rattle.sim_runs.specs.Branch.{world_of};
ghost use Rattle.sim_log.specs.Lines.{AreLines};
ghost use Rattle.sim_log.specs.Range.{IsRange};

use sim_book::Book;
use sim_log::{Places, Teller};
use sim_node::{NoMemory, Node};
use sim_script::Names;
use sim_tally::FreshMeter;
use sim_tape::{Frozen, Tape};
use sim_world::{Event, World};
use std::alloc::Global;
use std::fmt::Debug;

/// The kept events of a branch, and the places where each occurrence was queued and happened.
pub struct Run<'a, N: Node> {
    /// Where texts are allocated.
    pub alloc: Global,
    names: &'a Names,
    /// The kept events, with checkpoints.
    pub frozen: Frozen<N>,
    /// Where each occurrence was queued and happened.
    pub places: Places,
}

// Not derived: a crate that drops a run would prove the drop of its parts again.
impl<'a, N: Node> Drop for Run<'a, N> {
    fn drop(self) {
        let Run {
            alloc: _alloc,
            names: _names,
            frozen: _frozen,
            places: _places,
        } = self;
    }
}

/// Returns all kept events of a branch, or `None` if there is no such branch. Fails only for want
/// of memory.
pub(crate) fn frozen_of<N: Node>(
    alloc: Global,
    book: &Book<N>,
    branch: u32,
) -> Result<Option<Frozen<N>>, NoMemory>
    ensures { IfOk result (IsWhole book.now.scenario book.now.kept branch) }
{
    match book.warm(branch) {
        None => Ok(None),
        Some(_) => Ok(Some(book.frozen(alloc, branch)?)),
    }
}

/// Returns the place of a branch, or 0 if there is no such branch.
pub fn place_of<N: Node>(book: &Book<N>, branch: u32) -> u32
    ensures place { result ≡ (branch_in branch (all_shown book.now.kept)).place }
    ensures within { result ≤ length (branch_in branch (all_shown book.now.kept)).events }
{
    match book.place(branch) {
        Some(place) => place,
        None => 0,
    }
}

/// Returns the number of events that a branch keeps, or 0 if there is no such branch. Fails only
/// for want of memory.
pub fn kept_of<N: Node>(alloc: Global, book: &Book<N>, branch: u32) -> Result<u32, NoMemory>
    ensures { IfOk result (λ n. n ≡ length (branch_in branch (all_shown book.now.kept)).events) }
{
    match frozen_of(alloc, book, branch)? {
        Some(run) => Ok(run.events().len()),
        None => Ok(0),
    }
}

/// Returns the place and the clock (ms) of a branch, or `None` if there is no such branch. Fails
/// only for want of memory, and only on a cold branch.
pub fn whereabouts<N: Node<Meter: FreshMeter>>(
    alloc: Global,
    book: &Book<N>,
    branch: u32,
) -> Result<Option<(u32, u64)>, NoMemory>
    ensures there { IfOk result (λ o. IsSome o ↔ (branch < length book.now.kept)) }
    ensures place { IfOk result (λ o. IfSome o
        (λ x. x.0 ≡ (branch_in branch (all_shown book.now.kept)).place)) }
    ensures clock { IfOk result (λ o. IfSome o
        (λ x. x.1 ≡ (world_of (rules N.laws N.PROBES book.now.scenario)
        (branch_in branch (all_shown book.now.kept))).clock)) }
{
    let place = place_of(book, branch);
    if let Some(world) = book.here(branch) {
        return Ok(Some((place, world.clock())));
    }
    let Some(run) = frozen_of(alloc, book, branch)? else {
        return Ok(None);
    };
    let tape = run.tape(alloc, place, &mut N::Meter::fresh())?;
    Ok(Some((place, tape.clock())))
}

/// Walks a tape past its next event, if there is one, and leaves it warm.
pub(crate) fn pass<N: Node>(
    alloc: Global,
    tape: &mut Tape<N>,
    meter: &mut N::Meter,
) -> Result<(), NoMemory>
    ensures { OnOk result (IsTrue tape.new.warm) }
{
    if tape.place() < tape.len() {
        tape.forward(alloc, 1, meter)
    } else {
        tape.make_warm(alloc, meter)
    }
}

/// The serials of a world at a place, to describe an event that leads there or away.
#[derive(Clone, Copy)]
pub(crate) struct Serials {
    /// The serial of the first pending occurrence.
    pub(crate) first: Option<u64>,
    /// The serial that the next occurrence gets.
    pub(crate) next: u64,
}

fn serials_of<N: Node>(world: &World<N>) -> Serials {
    let first = match world.first() {
        Some((_due, serial, _occurrence)) => Some(serial),
        None => None,
    };
    let next = world.next_serial();
    Serials { first, next }
}

impl<'a, N: Node<Meter: FreshMeter> + Debug> Run<'a, N>
where
    N::Msg: Debug,
{
    /// Returns the kept events of a branch, or `None` if there is no such branch. Fails only for
    /// want of memory.
    pub fn of(
        alloc: Global,
        names: &'a Names,
        book: &Book<N>,
        branch: u32,
    ) -> Result<Option<Run<'a, N>>, NoMemory>
        ensures { IfOk result (λ o. IsWhole book.now.scenario book.now.kept branch
            (option_map (λ run. run.frozen) o)) }
    {
        let Some(frozen) = frozen_of(alloc, book, branch)? else {
            return Ok(None);
        };
        let places = Places::new(alloc, &frozen, &mut N::Meter::fresh())?;
        Ok(Some(Run {
            alloc,
            names,
            frozen,
            places,
        }))
    }

    /// Returns the number of kept events.
    pub fn len(&self) -> u32
        ensures { result ≡ length self.now.frozen.events }
    {
        self.frozen.events().len()
    }

    /// Returns the event that leads to a place, or `None` if there is no such place or it is the
    /// start.
    pub(crate) fn event(&self, place: u32) -> Option<Event> {
        if place == 0 {
            return None;
        }
        self.frozen.events().get(place - 1)
    }

    /// Returns the serials at a place, or at the end if there is no such place. Fails only for want
    /// of memory.
    pub(crate) fn serials(&self, place: u32) -> Result<Serials, NoMemory> {
        let place = place.min(self.len());
        let tape = self.frozen.tape(self.alloc, place, &mut N::Meter::fresh())?;
        Ok(serials_of(tape.here()))
    }

    /// Returns the lines of the events from `first` to `last`. Fails only for want of memory.
    pub fn lines(&self, first: u32, last: u32) -> Result<Vec<u8>, NoMemory>
        requires { IsRange first last (length self.now.frozen.events) }
        ensures { IfOk result (λ log. AreLines
            (rules N.laws N.PROBES self.now.frozen.scenario) self.now.frozen.events
            false first (last + 1 - first) log.items) }
    {
        let teller = Teller {
            alloc: self.alloc,
            names: self.names,
            places: &self.places,
        };
        teller.lines(&self.frozen, false, first, last, &mut N::Meter::fresh())
    }

    /// Appends the lines of the events from `from` to `to`, as far as they exist. Fails only for
    /// want of memory.
    pub fn tell(&self, from: u32, to: u32, said: &mut String) -> Result<(), NoMemory> {
        let (first, last) = (from.max(1), to.min(self.len()));
        if last < first {
            return Ok(());
        }
        let lines = self.lines(first, last)?;
        said.push_str(str::from_utf8(lines.as_slice()).unwrap_or(""))
    }

    // Appends the events in which the occurrences with these serials happen.
    fn tell_steps(&self, from: u64, to: u64, said: &mut String) -> Result<(), NoMemory> {
        for serial in from..to {
            if let Some(place) = self.places.step_of(serial) {
                said.push_str("leads to ")?;
                self.tell(place, place, said)?;
            }
        }
        Ok(())
    }

    // Appends the event that queued what happens at the next step.
    fn tell_cause(&self, before: Serials, said: &mut String) -> Result<(), NoMemory> {
        let Some(serial) = before.first else {
            return Ok(());
        };
        match self.places.queued_by(serial) {
            Some(cause) => {
                said.push_str("caused by ")?;
                self.tell(cause, cause, said)
            }
            None => said.push_str("pending from the start\n"),
        }
    }

    // Appends that there is no event with this number.
    fn tell_absent(&self, place: u32, said: &mut String) -> Result<(), NoMemory> {
        let len = self.len();
        writeln!(
            said,
            "there is no event {place}; the last kept event is {len}"
        )
    }

    /// Appends the lines of the events from `from` to `to`, as far as they exist, or why there are
    /// none; without numbers those of all. Fails only for want of memory.
    pub fn tell_log(
        &self,
        from: Option<u32>,
        to: Option<u32>,
        said: &mut String,
    ) -> Result<(), NoMemory> {
        let len = self.len();
        let (first, last) = (from.unwrap_or(1), to.unwrap_or(len));
        if to.is_some() && last < first {
            return writeln!(
                said,
                "there are no events from {first} to {last}: {first} is after {last}"
            );
        }
        if len < first || last == 0 {
            return self.tell_absent(first, said);
        }
        self.tell(first, last, said)
    }

    /// Appends the event that leads to a place, its cause, the writes that it tears, and its
    /// consequences. Fails only for want of memory.
    pub fn tell_event(&self, place: u32, said: &mut String) -> Result<(), NoMemory> {
        let Some(event) = self.event(place) else {
            return self.tell_absent(place, said);
        };
        self.tell(place, place, said)?;
        self.tell_torn(event, place, said)?;
        let before = self.serials(place.saturating_sub(1))?;
        if event == Event::Step {
            self.tell_cause(before, said)?;
        }
        let after = self.serials(place)?;
        self.tell_steps(before.next, after.next, said)
    }
}
