use crate::course::there_and_back;
use sim_links::LinkState;
use sim_node::Node;
use sim_world::{Coming, Event, Fault, Kind, Query, Refusal, Scenario, View, World};
use std::alloc::Global;
use std::test::Fail;

/// More events than any play has.
const MOST_EVENTS: u32 = 1_000;

/// An event of a run, or a check of the world then.
#[derive(Clone, Copy)]
pub enum Act {
    /// This many steps happen, at least one.
    Steps(u32),
    Fault(Fault),
    /// The clock advances to this time (ms).
    Advance(u64),
    /// The event cannot happen, for this reason.
    Refused(Event, Refusal),
    /// The event can happen.
    Allowed(Event),
    /// The clock shows this time (ms).
    Clock(u64),
    /// This many events led here.
    Age(u32),
    /// The host is done.
    Done(u16),
    /// The whole world: clock, serial, net, torn, pending, held.
    Summary(u64, u64, u64, u64, u32, u32),
    /// The first pending occurrence: due, serial, host, kind.
    Next(u64, u64, u16, Kind),
    /// A direction: its ends, its state, and how many messages it holds.
    Link(u16, u16, LinkState, u32),
    /// A host that is not done: whether it runs, its draws, stable bytes and unsynced writes.
    Host(u16, bool, u64, u32, u32),
    /// The same of a host that is done.
    DoneHost(u16, bool, u64, u32, u32),
    /// A probe of a host; `None` if the host is stopped.
    Probe(u16, u8, Option<u64>),
}

impl Act {
    // Returns the event of the act, if it has one.
    fn event(self) -> Option<Event> {
        match self {
            Act::Steps(_) => Some(Event::Step),
            Act::Fault(fault) => Some(Event::Fault(fault)),
            Act::Advance(time) => Some(Event::Advance(time)),
            _ => None,
        }
    }

    // Returns the query of the act and the expected view, if it has one.
    fn view(self) -> Option<(Query, View)> {
        match self {
            Act::Summary(clock, serial, net, torn, pending, held) => {
                let view = View::Summary {
                    clock,
                    serial,
                    net,
                    torn,
                    pending,
                    held,
                };
                Some((Query::Summary, view))
            }
            Act::Next(due, serial, host, kind) => {
                let coming = Coming {
                    due,
                    serial,
                    host,
                    kind,
                };
                Some((Query::Next, View::Next(Some(coming))))
            }
            Act::Link(a, b, state, messages) => {
                let view = View::Link {
                    a,
                    b,
                    state,
                    messages,
                };
                Some((Query::Link(a, b), view))
            }
            Act::Host(host, up, draws, stable, unsynced) => {
                let done = false;
                let view = View::HostView {
                    host,
                    up,
                    done,
                    draws,
                    stable,
                    unsynced,
                };
                Some((Query::HostView(host), view))
            }
            Act::DoneHost(host, up, draws, stable, unsynced) => {
                let done = true;
                let view = View::HostView {
                    host,
                    up,
                    done,
                    draws,
                    stable,
                    unsynced,
                };
                Some((Query::HostView(host), view))
            }
            Act::Probe(host, probe, value) => {
                let view = View::Probe { host, probe, value };
                Some((Query::Probe(host, probe), view))
            }
            _ => None,
        }
    }

    // Returns whether the world is as the act says.
    fn holds<N: Node>(self, world: &World<N>) -> bool {
        match self {
            Act::Refused(event, why) => world.can(event) == Err(why),
            Act::Allowed(event) => world.can(event).is_ok(),
            Act::Clock(time) => world.clock() == time,
            Act::Age(age) => world.age() == age,
            Act::Done(host) => host < world.hosts() && world.is_done(host),
            _ => match self.view() {
                Some((query, view)) => shown(world, query) == Some(view),
                None => false,
            },
        }
    }
}

// Returns the view for a query, if what it names exists.
fn shown<N: Node>(world: &World<N>, query: Query) -> Option<View> {
    let hosts = world.hosts();
    match query {
        Query::HostView(host) if host < hosts => Some(world.look(Query::HostView(host))),
        Query::Link(a, b) if a < hosts && b < hosts => Some(world.look(Query::Link(a, b))),
        Query::Probe(host, probe) if host < hosts && probe < N::PROBES => {
            Some(world.look(Query::Probe(host, probe)))
        }
        Query::Summary => Some(world.look(Query::Summary)),
        Query::Next => Some(world.look(Query::Next)),
        _ => None,
    }
}

/// Acts, of which the first ones are taken.
#[derive(Drop)]
pub struct Acts<'a> {
    acts: &'a [Act],
    // How many acts were taken, and how many steps of the last act are left.
    taken: usize,
    steps: u32,
}

impl Acts<'_> {
    /// Returns the next event, or `None` after the last. Fails at the first act on the way that does
    /// not hold.
    pub fn next<N: Node>(&mut self, world: &World<N>) -> Result<Option<Event>, Fail> {
        if 0 < self.steps {
            self.steps -= 1;
            return Ok(Some(Event::Step));
        }
        for act in self.acts.iter().skip(self.taken) {
            self.taken = self.taken.saturating_add(1);
            if let Act::Steps(count) = act {
                self.steps = count.saturating_sub(1);
            }
            if let Some(event) = act.event() {
                return Ok(Some(event));
            }
            if !act.holds(world) {
                let seen = world.look(Query::Summary);
                return Err(Fail::new(format_args!("act {}: {seen:?}", self.taken)));
            }
        }
        Ok(None)
    }
}

// Goes through all the acts, and back.
fn round<N: Node>(
    alloc: Global,
    world: World<N>,
    acts: &[Act],
    meter: &mut N::Meter,
) -> Result<World<N>, Fail> {
    let mut left = Acts {
        acts,
        taken: 0,
        steps: 0,
    };
    let world = there_and_back(alloc, world, &mut left, MOST_EVENTS, meter)?;
    if left.taken != acts.len() {
        return Err(Fail::from("more events than a play may have"));
    }
    Ok(world)
}

/// Goes through the acts from the start of a cluster, back, and through them again. It is proved
/// that the way back leads to the start.
pub fn plays<N: Node>(
    alloc: Global,
    scenario: &Scenario,
    acts: &[Act],
    meter: &mut N::Meter,
) -> Result<(), Fail> {
    let world = World::<N>::start(alloc, scenario, meter)?;
    let world = round(alloc, world, acts, meter)?;
    let _start = round(alloc, world, acts, meter)?;
    Ok(())
}
