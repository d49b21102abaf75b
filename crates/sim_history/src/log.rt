//! The kept events of a run.
ghost use Rattle.std.specs.Prelude.{◌≡◌, ℕ, ◌+◌, ◌*◌, ◌%◌, ◌==◌, ◌<◌, ◌≤◌, [], ◌∷◌, ◌++◌, true};
ghost use Rattle.std.specs.Prelude.{false, length, take, drop, slice_get, Some, IfOk, OnOk, OnErr};
ghost use Rattle.std.specs.Prelude.{IsTrue};
ghost use Rattle.std.specs.Vec.{vec_capacity};
ghost use Rattle.std.specs.Arc.{arc_value};
ghost use Rattle.sim_events.specs.Limits.{IsScenario};
ghost use Rattle.sim_history.specs.Log.{events_of};
ghost use Rattle.sim_history.specs.Segments.{joined, AreSegments, stretch};

use crate::NoMemory;
use crate::entry::Entry;
use crate::event_list::EventList;
use crate::segments::{self, Segments};
use crate::shared_list::SharedList;
use sim_events::Scenario;
use std::alloc::Global;
use std::marker::Model;
use std::mem;
use std::sync::Arc;

/// The scenario of a run, and its kept events, each with the clock after it. The events are in
/// segments of the scenario's interval, which are shared and never changed, and in a last part,
/// which has the room of a segment.
pub struct Log {
    scenario: Arc<Scenario>,
    segments: Segments,
    last: Vec<Entry>,
}

// Not derived: a crate that drops a log would prove the drop of each of its parts again.
impl Drop for Log {
    fn drop(self) {
        let Log {
            scenario: _scenario,
            segments: _segments,
            last: _last,
        } = self;
    }
}

impl Model for Log {
    ghost use Rattle.std.specs.Prelude.{◌++◌, ◌≤◌, length, nat_lt};
    ghost use Rattle.std.specs.Vec.{vec_capacity};
    ghost use Rattle.std.specs.Arc.{arc_value};
    ghost use Rattle.sim_events.specs.Limits.{IsScenario};
    ghost use Rattle.sim_history.specs.Segments.{joined, AreSegments};
    ghost use Rattle.sim_history.specs.Log.{LogView};

    ghost Value = { LogView };

    ghost view = { λ l. record {
      scenario = arc_value l.scenario;
      entries = joined l.segments.items ++ l.last.items;
      room = nat_lt (length l.last.items) (arc_value l.scenario).interval;
    } };

    ghost invariant = { λ l.
        IsScenario (arc_value l.scenario)
        × AreSegments (arc_value l.scenario).interval l.segments.items
        × (length l.last.items ≤ (arc_value l.scenario).interval)
        × ((arc_value l.scenario).interval ≤ vec_capacity l.last)
        × (length (joined l.segments.items ++ l.last.items) ≤ 65536) };
}

// Makes a segment of a full last part, and begins another. Fails only for want of memory; nothing
// has changed then.
#[cold]
#[inline(never)]
fn seal(
    alloc: Global,
    interval: usize,
    segments: &mut Segments,
    last: &mut Vec<Entry>,
) -> Result<(), NoMemory>
    requires full { length last.old.items ≡ interval }
    requires few { length segments.old.items < 65537 }
    ensures full { AreSegments interval segments.old.items →
        AreSegments interval segments.new.items }
    ensures same { joined segments.new.items ++ last.new.items ≡ joined segments.old.items ++
        last.old.items }
    ensures empty { OnOk result (last.new.items ≡ []) }
    ensures capacity { OnOk result (interval ≤ vec_capacity last.new) }
    ensures err { OnErr result (last.new ≡ last.old) }
{
    segments.reserve(alloc)?;
    let empty = Vec::with_capacity(alloc, interval)?;
    let full = mem::replace(last, empty);
    match Arc::new(alloc, full) {
        Ok(segment) => {
            segments.push(segment);
            Ok(())
        }
        Err(refused) => {
            *last = refused.value;
            Err(NoMemory)
        }
    }
}

// Returns a last part of these entries, with the room of a segment.
fn begun(alloc: Global, interval: usize, entries: &[Entry]) -> Result<Vec<Entry>, NoMemory>
    requires { length entries.now ≤ interval }
    ensures entries { IfOk result (λ last. last.items ≡ entries.now) }
    ensures capacity { IfOk result (λ last. interval ≤ vec_capacity last) }
{
    let mut last = Vec::with_capacity(alloc, interval)?;
    last.extend_from_slice(entries)?;
    Ok(last)
}

impl Log {
    /// Returns a log of no events. Fails only for want of memory.
    pub fn new(alloc: Global, scenario: Arc<Scenario>) -> Result<Log, NoMemory>
        ensures { IfOk result (λ l. l ≡
            record { scenario = arc_value scenario; entries = []; room = true }) }
    {
        let last = Vec::with_capacity(alloc, scenario.interval() as usize)?;
        Ok(Log {
            scenario,
            segments: SharedList::new(alloc),
            last,
        })
    }

    /// Returns the number of events between two checkpoints.
    pub fn interval(&self) -> usize
        ensures value { result ≡ self.now.scenario.interval }
        ensures limits { IsScenario self.now.scenario }
    {
        self.scenario.interval() as usize
    }

    /// Returns the greatest number of events that their records can undo.
    pub fn window(&self) -> usize
        ensures value { result ≡ self.now.scenario.window }
        ensures limits { IsScenario self.now.scenario }
    {
        self.scenario.window() as usize
    }

    /// Returns the scenario of the run.
    pub fn scenario(&self) -> &Scenario
        ensures { result.now ≡ self.now.scenario }
    {
        &self.scenario
    }

    /// Returns the number of kept events.
    pub fn len(&self) -> usize
        ensures value { result ≡ length self.now.entries }
        ensures few { length self.now.entries ≤ 65536 }
    {
        segments::count(self.interval(), &self.segments, self.last.as_slice())
    }

    /// Returns the event at a place, and its clock.
    pub fn entry(&self, i: usize) -> Entry
        requires { i < length self.now.entries }
        ensures { slice_get self.now.entries i ≡ Some result }
    {
        segments::entry(self.interval(), &self.segments, self.last.as_slice(), i)
    }

    /// Returns the events from a place up to another, or up to the end of the segment that holds
    /// the first, each with its clock.
    pub fn stretch(&self, from: usize, to: usize) -> &[Entry]
        requires order { from < to }
        requires within { to ≤ length self.now.entries }
        ensures entries { result.now ≡ take (stretch self.now.scenario.interval from to)
            (drop from self.now.entries) }
        ensures some { 1 ≤ self.now.scenario.interval }
    {
        segments::stretch(
            self.interval(),
            &self.segments,
            self.last.as_slice(),
            from,
            to,
        )
    }

    /// Makes room for one more event. Fails only for want of memory; nothing has changed then.
    pub fn reserve(&mut self, alloc: Global) -> Result<(), NoMemory>
        ensures same { self.new ≡ record self.old { room = self.new.room } }
        ensures room { OnOk result (IsTrue self.new.room) }
    {
        let interval = self.interval();
        if self.last.len() < interval {
            return Ok(());
        }
        seal(alloc, interval, &mut self.segments, &mut self.last)
    }

    /// Returns whether there is room for one more event.
    pub fn has_room(&self) -> bool
        ensures { result ≡ self.now.room }
    {
        self.last.len() < self.interval()
    }

    /// Returns whether there is room for one more event, and it ends no interval.
    pub fn goes_on(&self) -> bool
        ensures room { IsTrue result → IsTrue self.now.room }
        ensures part { IsTrue result →
            ((length self.now.entries + 1) % self.now.scenario.interval == 0) ≡ false }
    {
        self.last.len() + 1 < self.interval()
    }

    /// Returns whether one more event ends an interval. There must be room for it.
    pub fn ends_interval(&self) -> bool
        requires { IsTrue self.now.room }
        ensures { result ≡ ((length self.now.entries + 1) % self.now.scenario.interval == 0) }
    {
        self.last.len() + 1 == self.interval()
    }

    /// Adds an event at the end. There must be room for it.
    pub fn push(&mut self, entry: Entry)
        requires room { IsTrue self.old.room }
        requires few { length self.old.entries < 65536 }
        ensures scenario { self.new.scenario ≡ self.old.scenario }
        ensures entries { self.new.entries ≡ self.old.entries ++ entry ∷ [] }
    {
        self.last.push_reserved(entry);
    }

    /// Keeps the first `count` events, and drops the others.
    pub fn truncate(&mut self, count: usize)
        requires { count ≤ length self.old.entries }
        ensures scenario { self.new.scenario ≡ self.old.scenario }
        ensures entries { self.new.entries ≡ take count self.old.entries }
    {
        let interval = self.interval();
        let whole = count / interval;
        if whole < self.segments.len() {
            let segment = self.segments.get(whole).as_slice();
            self.last.clear();
            let Ok(()) = self.last.extend_from_slice(&segment[..count % interval]) else {
                unreachable!()
            };
            self.segments.truncate(whole);
        } else {
            self.last.truncate(count - self.segments.len() * interval);
        }
    }

    /// Returns a log of the first events, which shares the full segments. Fails only for want of
    /// memory.
    pub fn split(&self, alloc: Global, count: usize) -> Result<Log, NoMemory>
        requires { count ≤ length self.now.entries }
        ensures scenario { IfOk result (λ l. l.scenario ≡ self.now.scenario) }
        ensures entries { IfOk result (λ l. l.entries ≡ take count self.now.entries) }
    {
        let interval = self.interval();
        let (whole, rest) = segments::head(interval, &self.segments, self.last.as_slice(), count);
        let scenario = Arc::try_clone(&self.scenario)?;
        let segments = self.segments.share(alloc, whole)?;
        let last = begun(alloc, interval, rest)?;
        Ok(Log {
            scenario,
            segments,
            last,
        })
    }

    /// Returns the events, shared. Fails only for want of memory.
    pub fn events(&self, alloc: Global) -> Result<EventList, NoMemory>
        ensures { IfOk result (λ l. l ≡ events_of self.now.entries) }
    {
        let segments = self.segments.share(alloc, self.segments.len())?;
        let last = Vec::from_slice(alloc, self.last.as_slice())?;
        EventList::of(alloc, self.interval(), segments, last)
    }
}
