//! The order in which items are taken, and the undo of each change.
ghost use Rattle.std.specs.Prelude.{◌≡◌, IfOk};

use sim_queue::{Item, NoMemory, Queue};
use std::alloc::Global;
use std::test::Fail;

// An item's due, serial and body.
type Seen = (u64, u64, char);

#[derive(Clone, Copy)]
enum Act {
    // Inserts an item, which gets this serial.
    Insert(u64, char, u64),
    // Inserts an item, checks which item is first, and undoes the insertion.
    InsertAndBack(u64, char, u64, Seen),
    First(Option<Seen>),
    TakeFirst(Option<Seen>),
    // Takes the first item, checks which item is first, inserts an item and undoes that, and puts
    // the first back.
    TakeFirstAndBack(Seen, Seen),
    // Takes an item by its serial.
    Take(u64, Option<Seen>),
    // Takes an item by its serial and puts it back.
    TakeAndBack(u64),
    // The least serial, from a number on, of an item without this body.
    NextBut(u64, char, Option<u64>),
    // The number of items, and the next serial.
    Counts(usize, u64),
}

// Four items: serials 1 and 3 are due first, then 2, then 0.
const FOUR: [Act; 4] = [
    Act::Insert(30, 'a', 0),
    Act::Insert(10, 'b', 1),
    Act::Insert(20, 'c', 2),
    Act::Insert(10, 'd', 3),
];

// Exactly these four are pending, and are taken in their order.
const HAS_FOUR: [Act; 6] = [
    Act::Counts(4, 4),
    Act::TakeFirst(Some((10, 1, 'b'))),
    Act::TakeFirst(Some((10, 3, 'd'))),
    Act::TakeFirst(Some((20, 2, 'c'))),
    Act::TakeFirst(Some((30, 0, 'a'))),
    Act::TakeFirst(None),
];

fn seen(item: Item<char>) -> Seen {
    (item.due, item.serial, item.body)
}

fn first(queue: &Queue<char>) -> Option<Seen> {
    match queue.first() {
        Some((due, serial, body)) => Some((due, serial, *body)),
        None => None,
    }
}

fn insert(queue: &mut Queue<char>, due: u64, body: char) -> Result<Option<u64>, NoMemory> {
    if queue.next_serial() >= 1 << 40 {
        return Ok(None);
    }
    Ok(Some(queue.insert(due, body)?))
}

// Inserts an item and undoes that. Returns the serial that it got, the first item then, and the
// item that the undo returned.
fn insert_and_back(
    queue: &mut Queue<char>,
    due: u64,
    body: char,
) -> Result<Option<(u64, Option<Seen>, Seen)>, NoMemory>
    ensures { queue.new ≡ queue.old }
{
    if queue.next_serial() >= 1 << 40 {
        return Ok(None);
    }
    let serial = queue.insert(due, body)?;
    let then = first(queue);
    let item = queue.uninsert();
    Ok(Some((serial, then, seen(item))))
}

// Takes the first item, and puts it back after an insertion and its undo. Returns the item and the
// one that was first then.
fn take_first_and_back(queue: &mut Queue<char>) -> Result<Option<(Seen, Option<Seen>)>, NoMemory> {
    let Some(item) = queue.take_first() else {
        return Ok(None);
    };
    let then = first(queue);
    insert_and_back(queue, 5, 'x')?;
    let taken = (item.due, item.serial, item.body);
    queue.put_back(item)?;
    Ok(Some((taken, then)))
}

fn take_and_back(queue: &mut Queue<char>, serial: u64) -> Result<bool, NoMemory> {
    let Some(item) = queue.take(serial) else {
        return Ok(false);
    };
    let taken = item.serial;
    queue.put_back(item)?;
    Ok(taken == serial)
}

// Carries out an act, and returns whether the answer is the expected one.
fn goes(queue: &mut Queue<char>, act: Act) -> Result<bool, NoMemory> {
    let well = match act {
        Act::Insert(due, body, serial) => insert(queue, due, body)? == Some(serial),
        Act::InsertAndBack(due, body, serial, then) => {
            insert_and_back(queue, due, body)? == Some((serial, Some(then), (due, serial, body)))
        }
        Act::First(wanted) => first(queue) == wanted,
        Act::TakeFirst(wanted) => queue.take_first().map(seen) == wanted,
        Act::TakeFirstAndBack(wanted, then) => {
            take_first_and_back(queue)? == Some((wanted, Some(then)))
        }
        Act::Take(serial, wanted) => queue.take(serial).map(seen) == wanted,
        Act::TakeAndBack(serial) => take_and_back(queue, serial)?,
        Act::NextBut(serial, other, wanted) => {
            queue.next_that(serial, |body| *body != other) == wanted
        }
        Act::Counts(len, next) => queue.len() == len && queue.next_serial() == next,
    };
    Ok(well)
}

// Makes a queue of the four items.
fn four(alloc: Global) -> Result<Queue<char>, NoMemory> {
    let mut queue = Queue::new(alloc);
    for act in &FOUR {
        goes(&mut queue, *act)?;
    }
    Ok(queue)
}

// Returns whether all acts have the expected answers.
fn all_go(queue: &mut Queue<char>, acts: &[Act]) -> Result<bool, NoMemory> {
    let mut well = true;
    for act in acts {
        well &= goes(queue, *act)?;
    }
    Ok(well)
}

// Returns whether all acts on a queue of the four items have the expected answers, and exactly the
// four are pending after them if `has_four`.
fn plays(alloc: Global, acts: &[Act], has_four: bool) -> Result<bool, NoMemory> {
    let mut queue = four(alloc)?;
    Ok(all_go(&mut queue, acts)? && (!has_four || all_go(&mut queue, &HAS_FOUR)?))
}

// The acts on a queue of the four items, and whether these are pending in the end.
const PLAYS: [(&[Act], bool); 4] = [
    (
        &[
            Act::First(Some((10, 1, 'b'))),
            Act::NextBut(0, 'x', Some(0)),
            Act::Take(2, Some((20, 2, 'c'))),
            Act::Take(2, None),
            Act::NextBut(2, 'x', Some(3)),
            Act::NextBut(4, 'x', None),
            Act::Counts(3, 4),
        ],
        false,
    ),
    (
        &[
            Act::InsertAndBack(5, 'e', 4, (5, 4, 'e')),
            Act::First(Some((10, 1, 'b'))),
            Act::InsertAndBack(50, 'f', 4, (10, 1, 'b')),
        ],
        true,
    ),
    (
        &[
            Act::TakeAndBack(0),
            Act::TakeAndBack(1),
            Act::TakeAndBack(2),
            Act::TakeAndBack(3),
            Act::TakeFirstAndBack((10, 1, 'b'), (10, 3, 'd')),
        ],
        true,
    ),
    (
        &[
            Act::NextBut(0, 'a', Some(1)),
            Act::NextBut(2, 'c', Some(3)),
            Act::NextBut(3, 'd', None),
            Act::Take(0, Some((30, 0, 'a'))),
            Act::Insert(40, 'e', 4),
            Act::NextBut(0, 'b', Some(2)),
            Act::NextBut(4, 'x', Some(4)),
        ],
        false,
    ),
];

#[test]
fn four_items_go_by_their_rows(rt: HostRuntime) -> Result<(), Fail> {
    for (acts, has_four) in &PLAYS {
        assert!(rt; plays(rt.alloc(), *acts, *has_four)?);
    }
    Ok(())
}

// Acts on an empty queue. The second has sparse dues: 300 goes to a list to which 556 is added
// later, while 44 and another 300 go before it.
const OTHERS: [&[Act]; 2] = [
    &[
        Act::First(None),
        Act::TakeFirst(None),
        Act::Insert(10, 'a', 0),
        Act::Insert(20, 'b', 1),
        Act::TakeFirstAndBack((10, 0, 'a'), (20, 1, 'b')),
        Act::First(Some((10, 0, 'a'))),
        Act::NextBut(1, 'x', Some(1)),
        Act::Counts(2, 2),
        Act::Insert(40, 'd', 2),
    ],
    &[
        Act::Insert(300, 'a', 0),
        Act::Insert(44, 'b', 1),
        Act::Insert(300, 'c', 2),
        Act::Insert(556, 'd', 3),
        Act::InsertAndBack(45, 'e', 4, (44, 1, 'b')),
        Act::TakeAndBack(0),
        Act::TakeFirstAndBack((44, 1, 'b'), (300, 0, 'a')),
        Act::TakeFirst(Some((44, 1, 'b'))),
        Act::TakeFirst(Some((300, 0, 'a'))),
        Act::Insert(812, 'e', 4),
        Act::Insert(301, 'f', 5),
        Act::TakeFirst(Some((300, 2, 'c'))),
        Act::TakeFirst(Some((301, 5, 'f'))),
        Act::TakeFirst(Some((556, 3, 'd'))),
        Act::TakeFirst(Some((812, 4, 'e'))),
        Act::TakeFirst(None),
    ],
];

#[test]
fn other_items_go_by_their_rows(rt: HostRuntime) -> Result<(), Fail> {
    for acts in &OTHERS {
        let mut queue = Queue::new(rt.alloc());
        assert!(rt; all_go(&mut queue, *acts)?);
    }
    Ok(())
}

fn same(body: &char) -> Result<char, NoMemory>
    ensures { IfOk result (λ copy. copy ≡ body.now) }
{
    Ok(*body)
}

fn none(_body: &char) -> Result<char, NoMemory>
    ensures { IfOk result (λ copy. copy ≡ _body.now) }
{
    Err(NoMemory)
}

// Returns whether a queue whose bodies can't be copied is neither copied nor packed, nor opened
// once packed.
fn wants_bodies(alloc: Global, queue: &Queue<char>) -> Result<bool, NoMemory> {
    let packed = queue.pack(alloc, same)?;
    Ok(
        queue.copy(alloc, none).is_err()
            && queue.pack(alloc, none).is_err()
            && packed.open(alloc, none).is_err(),
    )
}

// Makes a copy of a queue of the four items.
fn copied(alloc: Global) -> Result<Queue<char>, NoMemory> {
    let queue = four(alloc)?;
    queue.copy(alloc, same)
}

// Packs a queue of the four items, and opens it.
fn opened(alloc: Global) -> Result<Queue<char>, NoMemory> {
    let queue = four(alloc)?;
    let packed = queue.pack(alloc, same)?;
    packed.open(alloc, same)
}

// Returns whether exactly the four items are pending.
fn has_four(mut queue: Queue<char>) -> Result<bool, NoMemory> {
    all_go(&mut queue, &HAS_FOUR)
}

// Returns the number of items of a queue from which one is taken, and of its copy made before.
fn left_in_copy(alloc: Global) -> Result<(usize, usize), NoMemory> {
    let mut queue = four(alloc)?;
    let copy = queue.copy(alloc, same)?;
    queue.take_first();
    Ok((queue.len(), copy.len()))
}

#[test]
fn copies_are_apart(rt: HostRuntime) -> Result<(), Fail> {
    assert!(rt; has_four(copied(rt.alloc())?)?);
    assert!(rt; has_four(opened(rt.alloc())?)?);
    assert_eq!(rt; left_in_copy(rt.alloc())?, (3, 4));
    assert!(rt; wants_bodies(rt.alloc(), &four(rt.alloc())?)?);
    Ok(())
}

// Returns whether the four items are pending after many insertions that were undone.
fn forgets(alloc: Global) -> Result<bool, NoMemory> {
    let mut queue = four(alloc)?;
    for due in 100..400 {
        insert_and_back(&mut queue, due, 'e')?;
    }
    all_go(&mut queue, &HAS_FOUR)
}

#[test]
fn insertions_taken_back_leave_nothing(rt: HostRuntime) -> Result<(), Fail> {
    assert!(rt; forgets(rt.alloc())?);
    Ok(())
}
