//! The planned events of a scenario, one by one.
ghost use Rattle.std.specs.Prelude.{◌≡◌, [], ◌++◌, length, ◌≤◌};
ghost use Rattle.std.specs.Iterator.{YieldsFirst, item_count};
ghost use Rattle.sim_plan.specs.Planned.{planned, PlansAlike};
ghost use Rattle.sim_plan.specs.Happening.{IsPlan};
ghost use Rattle.sim_plan.specs.Forecasting.{yet_planned, IsForecast};

use crate::Plan;
use crate::forecast::Forecast;
use crate::owed::Owed;
use rand_chacha::ChaCha20Rng;
use rand_core::SeedableRng;
use sim_world::{Event, Scenario};
use std::marker::Model;

// The stream of the words that plan faults: the first that no world has.
const PLANNING: u64 = 34;

/// The given events and then the planned events of a scenario, one by one. It takes no memory.
///
/// Contracts see the list of the events that it has yet to give.
#[derive(Drop)]
pub struct Planner<'a> {
    given: &'a [Event],
    forecast: Forecast,
}

impl<'a> Model for Planner<'a> {
    ghost use Rattle.std.specs.Prelude.{◌++◌, List};
    ghost use Rattle.sim_events.specs.declared.Event.{Event as Planned};
    ghost use Rattle.sim_plan.specs.Forecasting.{yet_planned, IsForecast};

    ghost Value = { List Planned };

    ghost view = { λ p. p.given.now ++ yet_planned p.forecast };

    ghost invariant = { λ p. IsForecast p.forecast };
}

// Returns the forecast of a scenario with this seed.
fn forecast(scenario: &Scenario, seed: [u8; 32], plan: Plan) -> Forecast
    requires seed { seed ≡ scenario.now.seed }
    requires plan { IsPlan 0 plan }
    ensures fine { IsForecast result }
    ensures events { yet_planned result ≡ planned scenario.now plan }
{
    let mut rng = ChaCha20Rng::from_seed(seed);
    rng.set_stream(PLANNING);
    let setup = scenario.setup();
    Forecast {
        rng,
        servers: u32::from(setup.servers),
        hosts: u32::from(setup.hosts),
        spacing: plan.spacing,
        left: plan.events,
        quiet: plan.quiet,
        owed: Owed::Nothing,
    }
}

// Returns a forecast that plans nothing.
fn nothing() -> Forecast
    ensures fine { IsForecast result }
    ensures events { yet_planned result ≡ [] }
{
    Forecast {
        rng: ChaCha20Rng::from_seed([0; 32]),
        servers: 1,
        hosts: 2,
        spacing: None,
        left: 0,
        quiet: 0,
        owed: Owed::Nothing,
    }
}

impl<'a> Planner<'a> {
    /// Returns the given events, followed by the planned events of a scenario with this seed.
    pub fn new(scenario: &Scenario, seed: [u8; 32], given: &'a [Event], plan: Plan) -> Planner<'a>
        requires seed { seed ≡ scenario.now.seed }
        requires plan { IsPlan (length given.now) plan }
        ensures events { result ≡ given.now ++ planned scenario.now plan }
        ensures few { length result ≤ 65536 }
        ensures alike { PlansAlike scenario.now plan }
    {
        let forecast = forecast(scenario, seed, plan);
        Planner { given, forecast }
    }

    /// Returns a planner of these events alone.
    pub fn of_events(events: &'a [Event]) -> Planner<'a>
        ensures { result ≡ events.now }
    {
        Planner {
            given: events,
            forecast: nothing(),
        }
    }
}

impl<'a> Iterator for Planner<'a> {
    type Item = Event;

    ghost next_gives = { YieldsFirst (λ rest. rest) };

    ghost remaining = { item_count (λ rest. rest) };

    // It is part of the loop of a sweep, with all that it calls for a step: as calls of their own
    // these took a thirtieth of the instructions.
    #[inline(always)]
    fn next(&mut self) -> Option<Event> {
        match self.given.split_first() {
            Some((first, others)) => {
                self.given = others;
                Some(*first)
            }
            None => self.forecast.next(),
        }
    }
}
