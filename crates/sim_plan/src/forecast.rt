//! The events that words plan, and the quiet end.
ghost use Rattle.std.specs.Prelude.{◌≡◌, ◌∷◌, [], ◌<◌, ◌≤◌, MatchOption, Some};
ghost use Rattle.sim_plan.specs.Planned.{struck};
ghost use Rattle.sim_plan.specs.Owing.{healings};
ghost use Rattle.sim_plan.specs.Forecasting.{yet_planned, IsForecast};

use crate::owed::{Owed, new_fault};
use rand_chacha::ChaCha20Rng;
use rand_core::utils::NextWord;
use sim_world::Event;

/// The events still to plan.
#[derive(Drop)]
pub struct Forecast {
    // The generator of the words, at the next one.
    pub rng: ChaCha20Rng,
    pub servers: u32,
    pub hosts: u32,
    // One event in this many is a fault or a healing. With `None`, no word is drawn.
    pub spacing: Option<u32>,
    // The numbers of events still to plan by words, and of quiet steps after them.
    pub left: u32,
    pub quiet: u32,
    pub owed: Owed,
}

// Returns a fault or a healing, and the healings owed after it.
fn struck(servers: u32, hosts: u32, v: u32, owed: Owed) -> (Event, Owed)
    requires servers { (1 ≤ servers) × (servers ≤ hosts) }
    requires hosts { (2 ≤ hosts) × (hosts ≤ 32) }
    ensures event { result.0 ≡ (struck servers hosts v (healings owed)).0 }
    ensures owed { healings result.1 ≡ (struck servers hosts v (healings owed)).1 }
{
    if owed.heals(v) {
        return owed.taken_out(v / 2);
    }
    let (fault, healing) = new_fault(servers, hosts, v / 2);
    (Event::Fault(fault), owed.then(healing))
}

impl Forecast {
    // Returns the fault or the healing that a number plans, and notes the healings owed after it. A
    // step does not pass through here, so `owed` stays in its place then.
    #[inline(never)]
    fn strike(&mut self, v: u32) -> Event
        requires fine { IsForecast self.old }
        ensures event { result
            ≡ (struck self.old.servers self.old.hosts v (healings self.old.owed)).0 }
        ensures owed { healings self.new.owed
            ≡ (struck self.old.servers self.old.hosts v (healings self.old.owed)).1 }
        ensures same { self.new ≡ record self.old { owed = self.new.owed } }
    {
        let (event, owed) = struck(self.servers, self.hosts, v, self.owed);
        self.owed = owed;
        event
    }

    // Returns the next event before the quiet end.
    #[inline(always)]
    fn next_planned(&mut self) -> Event
        requires fine { IsForecast self.old }
        requires some { 0 < self.old.left }
        ensures fine { IsForecast self.new }
        ensures event { yet_planned self.old ≡ result ∷ yet_planned self.new }
    {
        self.left -= 1;
        let Some(spacing) = self.spacing else {
            return Event::Step;
        };
        let word = self.rng.next_word();
        if word % spacing != 0 {
            return Event::Step;
        }
        self.strike(word / spacing)
    }

    // Returns the next event of the quiet end.
    fn next_quiet(&mut self) -> Option<Event>
        requires fine { IsForecast self.old }
        requires none { self.old.left ≡ 0 }
        ensures fine { IsForecast self.new }
        ensures event { MatchOption result ((yet_planned self.old ≡ []) × (self.new ≡ self.old))
            (λ e. yet_planned self.old ≡ e ∷ yet_planned self.new) }
    {
        if self.quiet == 0 {
            return None;
        }
        match self.owed {
            Owed::Nothing => {
                self.quiet -= 1;
                Some(Event::Step)
            }
            Owed::One(only) => {
                self.owed = Owed::Nothing;
                Some(Event::Fault(only))
            }
            Owed::Two(older, newer) => {
                self.owed = Owed::One(newer);
                Some(Event::Fault(older))
            }
        }
    }

    /// Returns the next event.
    #[inline(always)]
    pub fn next(&mut self) -> Option<Event>
        requires fine { IsForecast self.old }
        ensures fine { IsForecast self.new }
        ensures event { MatchOption result ((yet_planned self.old ≡ []) × (self.new ≡ self.old))
            (λ e. yet_planned self.old ≡ e ∷ yet_planned self.new) }
    {
        if self.left == 0 {
            return self.next_quiet();
        }
        Some(self.next_planned())
    }
}
