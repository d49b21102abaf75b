//! Shared events.
ghost use Rattle.std.specs.Prelude.{◌≡◌, ℕ, ◌+◌, ◌<◌, ◌≤◌, ◌++◌, length, slice_get, IfOk};
ghost use Rattle.sim_history.specs.Log.{events_of};
ghost use Rattle.sim_history.specs.Segments.{joined, AreSegments};

use crate::NoMemory;
use crate::entry::Entry;
use crate::segments::{self, Segments};
use sim_events::Event;
use std::alloc::Global;
use std::marker::Model;
use std::sync::Arc;

/// What all lists of the same events share. `IsListed` is an invariant of `EventList`, and not of
/// this type.
#[derive(Drop)]
pub(crate) struct Listed {
    interval: usize,
    segments: Segments,
    last: Vec<Entry>,
}

/// A list of at most 65,536 events, shared and never changed.
#[derive(Drop)]
pub struct EventList {
    // A single pointer: a list is one of the forms of a reply, and most replies are small.
    listed: Arc<Listed>,
}

impl Model for EventList {
    ghost use Rattle.std.specs.Prelude.{List};
    ghost use Rattle.std.specs.Arc.{arc_value};
    ghost use Rattle.sim_events.specs.declared.Event.{Event};
    ghost use Rattle.sim_history.specs.Log.{events_of};
    ghost use Rattle.sim_history.specs.Listed.{entries_in, IsListed};

    ghost Value = { List Event };

    ghost view = { λ l. events_of (entries_in (arc_value l.listed)) };

    ghost invariant = { λ l. IsListed (arc_value l.listed) };
}

impl EventList {
    // Returns the list of these entries' events.
    pub(crate) fn of(
        alloc: Global,
        interval: usize,
        segments: Segments,
        last: Vec<Entry>,
    ) -> Result<EventList, NoMemory>
        requires some { 0 < interval }
        requires full { AreSegments interval segments.items }
        requires few { length (joined segments.items ++ last.items) ≤ 65536 }
        ensures { IfOk result (λ l. l ≡ events_of (joined segments.items ++ last.items)) }
    {
        let listed = Listed {
            interval,
            segments,
            last,
        };
        Ok(EventList {
            listed: Arc::new(alloc, listed)?,
        })
    }

    /// Returns the number of events.
    pub fn len(&self) -> u32
        ensures value { result ≡ length self.now }
        ensures few { length self.now ≤ 65536 }
    {
        let listed = &self.listed;
        segments::count(listed.interval, &listed.segments, listed.last.as_slice()) as u32
    }

    /// Returns the event at a place, or `None` past the last.
    pub fn get(&self, i: u32) -> Option<Event>
        ensures { result ≡ slice_get self.now i }
    {
        if self.len() <= i {
            return None;
        }
        let listed = &self.listed;
        let entry = segments::entry(
            listed.interval,
            &listed.segments,
            listed.last.as_slice(),
            i as usize,
        );
        Some(entry.event())
    }

    /// Returns an equal list, which shares the events. Takes no memory. Fails, as if for want of
    /// memory, only where more lists share the events than can be counted.
    pub fn share(&self) -> Result<EventList, NoMemory>
        ensures { IfOk result (λ l. l ≡ self.now) }
    {
        Ok(EventList {
            listed: Arc::try_clone(&self.listed)?,
        })
    }
}
