//! What an event does, gathered in the world before it.
ghost use Rattle.std.specs.Prelude.{◌≡◌, ◌<◌, IfOk, IfSome};
ghost use Rattle.sim_events.specs.declared.Event.TheVariants as events;
ghost use Rattle.sim_world.specs.Events.{rules};
ghost use Rattle.sim_account.specs.Account.{next_reaction};
ghost use Rattle.sim_log.specs.Told.{crashed_by, tears_of};

use sim_account::{Reaction, next_reaction, tears};
use sim_links::Change;
use sim_node::{Input, NoMemory, Node};
use sim_world::{Event, Fault, World};
use std::alloc::Global;

/// What an event will do, gathered in the world before it.
#[derive(Drop)]
pub struct Told<'a, N: Node> {
    /// The world before the event.
    pub world: &'a World<N>,
    pub event: Event,
    /// The reaction of a step whose host runs.
    pub reaction: Option<Reaction<N>>,
    /// For the crash of a running host, how many bytes it keeps of each unstable write.
    pub tears: Vec<u32>,
    /// For the crash of a running host, the serials of the occurrences that it takes out: the
    /// timer, the start, the syncs.
    pub lost: Vec<u64>,
}

impl<'a, N: Node> Told<'a, N> {
    /// Gathers what the event will do. For a step in a world of age 65,536, which can have no
    /// further event, it gathers nothing. If a node reacts, counts one copy of a node and one turn.
    /// Fails only for want of memory.
    pub fn new(
        alloc: Global,
        world: &'a World<N>,
        event: Event,
        meter: &mut N::Meter,
    ) -> Result<Told<'a, N>, NoMemory>
        ensures of { IfOk result (λ t. (t.world.now ≡ world.now) × (t.event ≡ event)) }
        ensures reaction { IfOk result (λ t. event ≡ events.Step → world.now.age < 65536 →
            t.reaction ≡ next_reaction (rules N.laws N.PROBES world.now.scenario) world.now.world) }
        ensures tears { IfOk result (λ t. t.tears.items
            ≡ tears_of (rules N.laws N.PROBES world.now.scenario)
            (crashed_by event world.now.world) world.now.world) }
    {
        let crashed = crashed_host(world, event);
        let lost = lost_by(alloc, world, crashed)?;
        let tears = match crashed {
            Some(host) => tears(alloc, world, host)?,
            None => Vec::new(alloc),
        };
        let reaction = match event {
            Event::Step if world.age() < 65_536 => next_reaction(alloc, world, meter)?,
            _ => None,
        };
        Ok(Told {
            world,
            event,
            reaction,
            tears,
            lost,
        })
    }
}

// Returns the running host that an event crashes, if it crashes one.
fn crashed_host<N: Node>(world: &World<N>, event: Event) -> Option<u16>
    ensures there { IfSome result (λ h. h < world.now.scenario.setup.hosts) }
    ensures host { result ≡ crashed_by event world.now.world }
{
    match event {
        Event::Fault(Fault::Crash(host) | Fault::Bounce(host))
            if host < world.hosts() && world.is_up(host) => { Some(host) }
        _ => None,
    }
}

// Returns the serials that the crash of a host takes out: all that is pending for it, but messages.
// Without a host there are none.
fn lost_by<N: Node>(
    alloc: Global,
    world: &World<N>,
    host: Option<u16>,
) -> Result<Vec<u64>, NoMemory> {
    let mut lost = Vec::new(alloc);
    let Some(host) = host else {
        return Ok(lost);
    };
    let mut from = 0;
    // Each iteration passes a serial.
    for _ in 0..world.next_serial() {
        let Some(serial) = world.next_pending(from) else {
            break;
        };
        if let Some((_due, occurrence)) = world.pending(serial) {
            let is_message = matches!(occurrence.input(), Input::Message { .. });
            if occurrence.host() == host && !is_message {
                lost.push(serial)?;
            }
        }
        from = serial.saturating_add(1);
    }
    Ok(lost)
}

/// Returns the word and the host of a crash or a bounce, or `None` if it is a fault of links.
pub(crate) fn host_fault(fault: Fault) -> Option<(&'static str, u16)> {
    match fault {
        Fault::Crash(host) => Some(("crash", host)),
        Fault::Bounce(host) => Some(("bounce", host)),
        _ => None,
    }
}

/// How a fault changes the links: the direction from the first host to the second and, if the fault
/// goes both ways, then the opposite one.
#[derive(Clone, Copy)]
pub(crate) struct LinkFault {
    pub word: &'static str,
    pub change: Change,
    pub from: u16,
    pub to: u16,
    pub is_both: bool,
}

impl LinkFault {
    /// Returns how a fault changes the links, or `None` if it is a fault of a host.
    pub(crate) fn of(fault: Fault) -> Option<LinkFault> {
        let (word, change, (from, to), is_both) = match fault {
            Fault::Crash(_) | Fault::Bounce(_) => return None,
            Fault::Hold(a, b) => ("hold", Change::Hold, (a, b), true),
            Fault::Release(a, b) => ("release", Change::Release, (a, b), true),
            Fault::Cut(a, b) => ("partition", Change::Cut, (a, b), true),
            Fault::CutOneway(a, b) => ("cutoneway", Change::Cut, (a, b), false),
            Fault::Repair(a, b) => ("repair", Change::Repair, (a, b), true),
            Fault::RepairOneway(a, b) => ("repaironeway", Change::Repair, (a, b), false),
        };
        Some(LinkFault {
            word,
            change,
            from,
            to,
            is_both,
        })
    }
}
