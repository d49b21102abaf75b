//! The counts of a meter at run time.
use super::{CRASH, TWO_ECHOES};
use sim_echo::Echo;
use sim_node::Node;
use sim_world::{Event, World};
use std::alloc::Global;
use std::test::Fail;
use test_support::{Counts, applied, ran};

// Takes a step, and undoes it.
fn steps_and_back<N: Node>(
    alloc: Global,
    world: World<N>,
    meter: &mut N::Meter,
) -> Result<World<N>, Fail> {
    let (next, undo) = applied(alloc, world, Event::Step, meter)?;
    Ok(next.undo(alloc, undo, meter)?)
}

// Copies a world, and opens a packed copy of it.
fn copies<N: Node>(alloc: Global, world: &World<N>, meter: &mut N::Meter) -> Result<(), Fail> {
    let _copy = world.copy(alloc, meter)?;
    let _opened = world.pack(alloc, meter)?.open(alloc, meter)?;
    Ok(())
}

// Returns the counts at the start, after a step and its undo, after three copies of a world of two
// hosts, and after three more once one of the hosts is stopped.
fn counted(alloc: Global) -> Result<[(u64, u64, u64); 4], Fail> {
    let mut meter = Counts::new();
    let world = World::<Echo<Counts>>::start(alloc, &TWO_ECHOES.scenario()?, &mut meter)?;
    let start = meter.counted();
    let world = steps_and_back(alloc, world, &mut meter)?;
    let back = meter.counted();
    copies(alloc, &world, &mut meter)?;
    let copied = meter.counted();
    let stopped = ran(alloc, world, &[CRASH], &mut meter)?;
    copies(alloc, &stopped, &mut meter)?;
    Ok([start, back, copied, meter.counted()])
}

#[test]
fn calls_of_nodes_are_counted(rt: HostRuntime) -> Result<(), Fail> {
    let wanted = [(2, 0, 0), (3, 0, 1), (3, 6, 1), (3, 9, 1)];
    assert_eq!(rt; counted(rt.alloc())?, wanted);
    Ok(())
}
