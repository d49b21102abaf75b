//! A kept event, with the clock after it.
ghost use Rattle.std.specs.Prelude.{◌≡◌};
ghost use Rattle.sim_history.specs.Entry.{IsAfter};

use sim_events::{Event, Fault};
use std::marker::Model;

// What is stored of an event. An advance leads to the clock after it, so its time is not stored
// twice.
#[derive(Clone, Copy)]
pub(crate) enum Kind {
    Step,
    Advance,
    Fault(Fault),
}

/// A kept event, and the clock after it (ms). It takes 12 bytes, since a run keeps each event.
#[derive(Clone, Copy)]
pub struct Entry {
    kind: Kind,
    clock: u32,
}

impl Model for Entry {
    ghost use Rattle.sim_history.specs.Entry.{Entry};
    ghost use Rattle.sim_history.specs.inside.Stored.{event_at, kind_of, same_kind};

    ghost Value = { Entry };

    ghost view = { λ e. record { event = event_at e.clock e.kind; clock = e.clock } };

    ghost inverse = { λ v. record { kind = kind_of v.event; clock = v.clock } };

    ghost inverse_ok = { λ e h i. record { kind = same_kind e.clock e.kind i; clock = e.clock } };
}

impl Entry {
    /// Returns an event with the clock after it (ms), which has at most 32 bits. After an advance
    /// the clock is the time to which it leads.
    #[inline(always)]
    pub fn new(event: Event, clock: u64) -> Entry
        requires { IsAfter event clock }
        ensures { result ≡ record { event = event; clock = clock } }
    {
        let kind = match event {
            Event::Step => Kind::Step,
            Event::Advance(_) => Kind::Advance,
            Event::Fault(fault) => Kind::Fault(fault),
        };
        Entry {
            kind,
            clock: clock as u32,
        }
    }

    /// Returns the event.
    #[inline(always)]
    pub fn event(&self) -> Event
        ensures { result ≡ self.now.event }
    {
        match self.kind {
            Kind::Step => Event::Step,
            Kind::Advance => Event::Advance(u64::from(self.clock)),
            Kind::Fault(fault) => Event::Fault(fault),
        }
    }

    /// Returns the clock after the event (ms).
    #[inline(always)]
    pub fn clock(&self) -> u64
        ensures { result ≡ self.now.clock }
    {
        u64::from(self.clock)
    }
}
