//! Events of a run, one after the other, and runs that go there and back by their records, to
//! exactly the world that they began with.
ghost use Rattle.std.specs.Prelude.{◌≡◌, ◌-◌, IfOk};
ghost use Rattle.sim_world.specs.Records.{LeadsBack, back};

use crate::act::Acts;
use sim_node::Node;
use sim_world::{Event, Undo, World};
use std::alloc::Global;
use std::test::Fail;

/// Returns the world after an event, and the record that undoes it. Fails if the event cannot
/// happen.
pub fn applied<N: Node>(
    alloc: Global,
    world: World<N>,
    event: Event,
    meter: &mut N::Meter,
) -> Result<(World<N>, Undo<N>), Fail>
    ensures leads { IfOk result (λ r. LeadsBack N.told N.records r.1 r.0) }
    ensures same { IfOk result (λ r. record {
      world = back N.records r.1.changes r.0.world;
      scenario = r.0.scenario;
      age = r.0.age - 1;
    } ≡ world) }
    ensures scenario { IfOk result (λ r. r.0.scenario ≡ world.scenario) }
{
    if 65_536 <= world.age() {
        return Err(Fail::from("too old"));
    }
    world.can(event)?;
    Ok(world.apply(alloc, event, meter)?)
}

/// Returns the world after these events.
pub fn ran<N: Node>(
    alloc: Global,
    world: World<N>,
    events: &[Event],
    meter: &mut N::Meter,
) -> Result<World<N>, Fail> {
    let mut now = world;
    for event in events {
        let (next, _undo) = applied(alloc, now, *event, meter)?;
        now = next;
    }
    Ok(now)
}

/// Takes the events of the acts, at most `most`, and goes back by the records. The world is the one
/// before.
pub fn there_and_back<N: Node>(
    alloc: Global,
    world: World<N>,
    acts: &mut Acts,
    most: u32,
    meter: &mut N::Meter,
) -> Result<World<N>, Fail>
    ensures { IfOk result (λ w. w ≡ world) }
{
    if most == 0 {
        return Ok(world);
    }
    let Some(event) = acts.next(&world)? else {
        return Ok(world);
    };
    let (next, undo) = applied(alloc, world, event, meter)?;
    let end = there_and_back(alloc, next, acts, most - 1, meter)?;
    Ok(end.undo(alloc, undo, meter)?)
}
