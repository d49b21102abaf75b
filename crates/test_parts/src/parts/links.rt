//! The table of changes of a direction, and the undo of each change.
ghost use Rattle.std.specs.Prelude.{◌≡◌, IfOk};

use sim_links::{Change, LinkState, Links, NoMemory, Way, Ways};
use std::alloc::Global;
use std::test::Fail;

// An act on the direction from 3 to 5.
#[derive(Clone, Copy)]
enum Act {
    // The state of the direction, and how many messages it holds.
    Is(LinkState, u32),
    // A change, and the messages that it releases or drops.
    Change(Change, &'static [u32]),
    // A change, the messages that it releases or drops, the state and how many it holds then;
    // the change is undone.
    ChangeAndBack(Change, &'static [u32], LinkState, u32),
    Keep(u32),
    Unkeep(u32),
}

fn is_in(links: &Links<u32>, state: LinkState, count: u32) -> bool {
    links.state(3, 5) == state && links.held(3, 5) == count
}

fn change_and_back(
    links: &mut Links<u32>,
    change: Change,
    left: &[u32],
    state: LinkState,
    count: u32,
) -> bool {
    let (undo, messages) = links.change(3, 5, change);
    let well = is_in(links, state, count) && messages.as_slice() == left;
    links.undo(undo, messages);
    well
}

fn keep(links: &mut Links<u32>, message: u32) -> Result<bool, NoMemory> {
    if !matches!(links.state(3, 5), LinkState::Held) || links.held(3, 5) >= 4096 {
        return Ok(false);
    }
    links.keep(3, 5, message)?;
    Ok(true)
}

fn unkeep(links: &mut Links<u32>) -> Option<u32> {
    if links.held(3, 5) == 0 {
        return None;
    }
    Some(links.unkeep(3, 5))
}

// Carries out an act, and returns whether the answer is the expected one.
fn goes(links: &mut Links<u32>, act: Act) -> Result<bool, NoMemory> {
    let well = match act {
        Act::Is(state, count) => is_in(links, state, count),
        Act::Change(change, left) => links.change(3, 5, change).1.as_slice() == left,
        Act::ChangeAndBack(change, left, state, count) => {
            change_and_back(links, change, left, state, count)
        }
        Act::Keep(message) => keep(links, message)?,
        Act::Unkeep(message) => unkeep(links) == Some(message),
    };
    Ok(well)
}

// Returns whether all acts have the expected answers.
fn all_go(links: &mut Links<u32>, acts: &[Act]) -> Result<bool, NoMemory> {
    let mut well = true;
    for act in acts {
        well &= goes(links, *act)?;
    }
    Ok(well)
}

// Returns links after these acts.
fn after(alloc: Global, acts: &[Act]) -> Result<Links<u32>, NoMemory> {
    let mut links = Links::new(alloc)?;
    all_go(&mut links, acts)?;
    Ok(links)
}

// Holds the direction, with two messages.
const HELD: [Act; 3] = [Act::Change(Change::Hold, &[]), Act::Keep(7), Act::Keep(8)];

const CUT: [Act; 1] = [Act::Change(Change::Cut, &[])];

// Acts that lead to a state, and each change from it by the table.
const TABLE: [(&[Act], &[Act]); 3] = [
    (
        &[],
        &[
            Act::ChangeAndBack(Change::Hold, &[], LinkState::Held, 0),
            Act::ChangeAndBack(Change::Cut, &[], LinkState::Cut, 0),
            Act::ChangeAndBack(Change::Release, &[], LinkState::Through, 0),
            Act::ChangeAndBack(Change::Repair, &[], LinkState::Through, 0),
            Act::Is(LinkState::Through, 0),
        ],
    ),
    (
        &HELD,
        &[
            Act::ChangeAndBack(Change::Hold, &[], LinkState::Held, 2),
            Act::ChangeAndBack(Change::Cut, &[7, 8], LinkState::Cut, 0),
            Act::ChangeAndBack(Change::Release, &[7, 8], LinkState::Through, 0),
            Act::ChangeAndBack(Change::Repair, &[], LinkState::Held, 2),
            Act::Is(LinkState::Held, 2),
            Act::Unkeep(8),
            Act::Is(LinkState::Held, 1),
            Act::Unkeep(7),
            Act::Is(LinkState::Held, 0),
        ],
    ),
    (
        &CUT,
        &[
            Act::ChangeAndBack(Change::Hold, &[], LinkState::Held, 0),
            Act::ChangeAndBack(Change::Cut, &[], LinkState::Cut, 0),
            Act::ChangeAndBack(Change::Release, &[], LinkState::Cut, 0),
            Act::ChangeAndBack(Change::Repair, &[], LinkState::Through, 0),
            Act::Is(LinkState::Cut, 0),
        ],
    ),
];

#[test]
fn a_direction_goes_by_the_table(rt: HostRuntime) -> Result<(), Fail> {
    for (before, acts) in &TABLE {
        let mut links = after(rt.alloc(), *before)?;
        assert!(rt; all_go(&mut links, *acts)?);
    }
    Ok(())
}

// Returns whether each direction but that from 3 to 5 is open.
fn others_are_open(links: &Links<u32>) -> bool {
    for at in 0..1024u16 {
        let (a, b) = (at / 32, at % 32);
        if (a, b) != (3, 5) && links.state(a, b) != LinkState::Through {
            return false;
        }
    }
    true
}

// Returns whether the direction holds two messages, and each other is open. Takes the newest
// message.
fn take_held(alloc: Global, links: &mut Links<u32>) -> Result<bool, NoMemory> {
    let acts = [Act::Is(LinkState::Held, 2), Act::Unkeep(8)];
    Ok(others_are_open(links) && all_go(links, &acts)?)
}

// Returns whether a copy of held links is equal, and a change of it leaves them alone.
fn is_copied(alloc: Global) -> Result<bool, NoMemory> {
    let mut links = after(alloc, &HELD)?;
    let mut copy = links.copy(alloc, |message: &u32| Ok(*message))?;
    Ok(take_held(alloc, &mut copy)? && take_held(alloc, &mut links)?)
}

// Returns whether held links that were packed and opened are unchanged.
fn is_kept(alloc: Global) -> Result<bool, NoMemory> {
    let packed = after(alloc, &HELD)?.pack(alloc, |message: &u32| Ok(*message))?;
    let mut opened = packed.open(alloc, |message: &u32| Ok(*message))?;
    take_held(alloc, &mut opened)
}

// A message that copies itself by a trait.
trait Message: Drop + Sized {
    fn copy_of(alloc: Global, message: &Self) -> Result<Self, NoMemory>
        ensures { IfOk result (λ copy. copy ≡ message.now) };
}

impl Message for u32 {
    fn copy_of(_alloc: Global, message: &Self) -> Result<Self, NoMemory> {
        Ok(*message)
    }
}

fn copy_of<M: Message>(alloc: Global, links: &Links<M>) -> Result<Links<M>, NoMemory>
    ensures { IfOk result (λ copy. copy ≡ links.now) }
{
    links.copy(alloc, |message| M::copy_of(alloc, message))
}

// Returns whether a copy of cut links by a trait is equal.
fn is_copied_by_a_trait(alloc: Global) -> Result<bool, NoMemory> {
    let copy = copy_of(alloc, &after(alloc, &CUT)?)?;
    Ok(is_in(&copy, LinkState::Cut, 0) && others_are_open(&copy))
}

#[test]
fn copies_are_equal_and_apart(rt: HostRuntime) -> Result<(), Fail> {
    assert!(rt; is_copied(rt.alloc())?);
    assert!(rt; is_kept(rt.alloc())?);
    assert!(rt; is_copied_by_a_trait(rt.alloc())?);
    let mut links = after(rt.alloc(), &HELD)?;
    let acts = [Act::Change(Change::Cut, &[7, 8])];
    assert!(rt; all_go(&mut links, &acts)? && others_are_open(&links));
    Ok(())
}

const SLOW: Way = Way {
    latency_min: 5,
    latency_max: 60_000,
    loss: 1_000,
};

const QUICK: Way = Way {
    latency_min: 1,
    latency_max: 2,
    loss: 3,
};

// Returns whether the way from 3 to 5 is `one`, and each other way is `other`.
fn only_one_is(ways: &Ways, one: Way, other: Way) -> bool {
    for at in 0..1024u16 {
        let (a, b) = (at / 32, at % 32);
        let wanted = if (a, b) == (3, 5) { one } else { other };
        if ways.way(a, b) != wanted {
            return false;
        }
    }
    true
}

#[test]
fn ways_are_set_one_by_one(rt: HostRuntime) {
    let mut ways = Ways::all(SLOW);
    assert!(rt; only_one_is(&ways, SLOW, SLOW));
    ways.set(3, 5, QUICK);
    assert!(rt; only_one_is(&ways.copy(), QUICK, SLOW));
}
