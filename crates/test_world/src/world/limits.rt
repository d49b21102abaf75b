//! The limit of 4,096 messages in flight and held, the memory of records, and the number of a
//! scenario.
use super::{BOUNCE, HOLD, Scribe, TWO_ECHOES, scribes};
use sim_echo::Echo;
use sim_node::Node;
use sim_tally::Tally;
use sim_world::{Event, Query, Scenario, View, World};
use std::alloc::Global;
use std::test::Fail;
use test_support::{Setting, applied, ran};

// Returns the world after its client started again this many times, each time at once.
fn started_anew<N: Node>(
    alloc: Global,
    world: World<N>,
    times: u32,
    meter: &mut N::Meter,
) -> Result<World<N>, Fail> {
    let mut now = world;
    for _ in 0..times {
        now = ran(alloc, now, &[BOUNCE, Event::Step], meter)?;
    }
    Ok(now)
}

fn summary(clock: u64, serial: u64, net: u64, torn: u64, pending: u32, held: u32) -> View {
    View::Summary {
        clock,
        serial,
        net,
        torn,
        pending,
        held,
    }
}

// Returns the summary of a run whose client starts again this many times, while all its messages
// but the first are held.
fn holds(alloc: Global, times: u32) -> Result<View, Fail> {
    let mut meter = Tally::new();
    let world = World::<Echo<Tally>>::start(alloc, &TWO_ECHOES.scenario()?, &mut meter)?;
    let world = ran(alloc, world, &[Event::Step, Event::Step, HOLD], &mut meter)?;
    let world = started_anew(alloc, world, times, &mut meter)?;
    Ok(world.look(Query::Summary))
}

#[test]
fn a_message_beyond_4096_is_dropped(rt: HostRuntime) -> Result<(), Fail> {
    let seen = (holds(rt.alloc(), 4_095)?, holds(rt.alloc(), 4_096)?);
    let wanted = (
        summary(0, 4_098, 2, 0, 1, 4_095),
        summary(0, 4_099, 2, 0, 1, 4_095),
    );
    assert_eq!(rt; seen, wanted);
    Ok(())
}

// Returns the views after a step whose record, of a sync and two timers, is no longer needed, and
// after another step.
fn seen_after_reuse(alloc: Global) -> Result<(View, View), Fail> {
    let mut meter = Tally::new();
    let scenario = scribes(2, 0, 0).scenario()?;
    let world = World::<Scribe<Tally>>::start(alloc, &scenario, &mut meter)?;
    let (mut world, undo) = applied(alloc, world, Event::Step, &mut meter)?;
    world.reuse(undo);
    let seen = world.look(Query::Summary);
    let world = ran(alloc, world, &[Event::Step], &mut meter)?;
    Ok((seen, world.look(Query::Summary)))
}

#[test]
fn a_record_gives_its_memory(rt: HostRuntime) -> Result<(), Fail> {
    let wanted = (summary(0, 5, 0, 0, 3, 0), summary(0, 8, 0, 0, 4, 0));
    assert_eq!(rt; seen_after_reuse(rt.alloc())?, wanted);
    Ok(())
}

// Returns the first pending occurrence after both hosts of echo have started.
fn after_both_starts(alloc: Global, scenario: &Scenario) -> Result<View, Fail> {
    let mut meter = Tally::new();
    let world = World::<Echo<Tally>>::start(alloc, scenario, &mut meter)?;
    let world = ran(alloc, world, &[Event::Step, Event::Step], &mut meter)?;
    Ok(world.look(Query::Next))
}

// Returns the first message of a scenario with this seed, and of the same with this number.
fn first_messages(alloc: Global, seed: [u8; 32], number: u64) -> Result<(View, View), Fail> {
    let mut setting = TWO_ECHOES;
    setting.seed = seed;
    setting.way.latency_max = 60_000;
    let scenario = setting.scenario()?;
    let numbered = after_both_starts(alloc, &scenario.numbered(number))?;
    Ok((after_both_starts(alloc, &scenario)?, numbered))
}

// The number is in the last eight bytes of the seed, low byte first.
#[test]
fn a_scenario_is_numbered(rt: HostRuntime) -> Result<(), Fail> {
    let mut written = [9; 32];
    written[24..].copy_from_slice(&[8, 7, 6, 5, 4, 3, 2, 1]);
    let number = 0x0102_0304_0506_0708;
    let (first, numbered) = first_messages(rt.alloc(), [9; 32], number)?;
    assert_ne!(rt; numbered, first);
    assert_eq!(rt;
        (numbered, numbered),
        first_messages(rt.alloc(), written, number)?
    );
    Ok(())
}
