//! The least serial of an item whose body passes a test, found list by list.
ghost use Rattle.std.specs.Prelude.{◌≡◌, ◌-◌, ◌<◌, Bool};
ghost use Rattle.sim_queue.specs.Pending.{Decides};
ghost use Rattle.sim_queue.specs.inside.Lists.{node, HasKey, IsLists};
ghost use Rattle.sim_queue.specs.inside.Sparse.{body_at};
ghost use Rattle.sim_queue.specs.inside.Taken.{lesser, taken_serial, HasBodies, IsLeastIn};
ghost use Rattle.sim_queue.specs.inside.Taken.{IsLeastTaken};
ghost use Rattle.sim_queue.specs.inside.Wheel.{key_of, keys_of, HasMarks};

use crate::lists::{LISTS, Lists};
use crate::marks::Marks;

/// Returns the least serial, not below `from`, of a key whose body the test accepts.
///
/// Looks at each key once, and at no free place: after a burst most places are free.
pub(crate) fn least_taken<B, F: Fn(&B) -> bool>(
    lists: &Lists,
    marks: &Marks,
    bodies: &Vec<Option<B>>,
    from: u64,
    test: &F,
) -> Option<u64>
    requires callable { F.IsAlwaysCallable test.now }
    requires lists { IsLists lists.now.width lists.now.nodes.items }
    requires bodies { HasBodies (keys_of lists.now.nodes.items) bodies.now.items }
    requires marked { HasMarks lists.now.width marks.now.words lists.now.nodes.items }
    ensures { (p : B → Bool) → Decides F.Fn test.now p
        → IsLeastTaken p (keys_of lists.now.nodes.items) bodies.now.items from result }
{
    let mut least = None;
    let mut list = 0;
    while list < LISTS as u64 {
        let Some(distance) = marks.distance(list) else {
            list = list / 64 * 64 + 64;
            continue;
        };
        list += distance;
        least = lesser(least, least_in(lists, list, bodies, from, test));
        list += 1;
    }
    least
}

// Returns the same of one list.
fn least_in<B, F: Fn(&B) -> bool>(
    lists: &Lists,
    list: u64,
    bodies: &Vec<Option<B>>,
    from: u64,
    test: &F,
) -> Option<u64>
    requires callable { F.IsAlwaysCallable test.now }
    requires lists { IsLists lists.now.width lists.now.nodes.items }
    requires bodies { HasBodies (keys_of lists.now.nodes.items) bodies.now.items }
    requires list { list < 256 }
    ensures { (p : B → Bool) → Decides F.Fn test.now p
        → IsLeastIn p lists.now.width lists.now.nodes.items list bodies.now.items from result }
{
    let mut least = None;
    let mut at = lists.nodes.get(list as usize)?.before;
    while at >= LISTS {
        least = lesser(least, taken_at(lists, at, bodies, from, test));
        at = lists.nodes[at as usize].before;
    }
    least
}

// Returns the serial of the key of a node, if the test accepts its body and it is not below `from`.
#[inline(always)]
fn taken_at<B, F: Fn(&B) -> bool>(
    lists: &Lists,
    at: u32,
    bodies: &Vec<Option<B>>,
    from: u64,
    test: &F,
) -> Option<u64>
    requires callable { F.IsAlwaysCallable test.now }
    requires lists { IsLists lists.now.width lists.now.nodes.items }
    requires bodies { HasBodies (keys_of lists.now.nodes.items) bodies.now.items }
    requires key { HasKey (node lists.now.nodes.items at) }
    ensures { (p : B → Bool) → Decides F.Fn test.now p → result
        ≡ taken_serial p from (key_of (node lists.now.nodes.items at))
        (body_at bodies.now.items (at - 256)) }
{
    let body = bodies[(at - LISTS) as usize].as_ref().unwrap();
    if !test(body) {
        return None;
    }
    let serial = lists.nodes[at as usize].serial;
    if serial < from {
        return None;
    }
    Some(serial)
}

// Returns the lesser of two numbers, or the one that there is. Mostly there is no other one.
#[inline(always)]
fn lesser(one: Option<u64>, other: Option<u64>) -> Option<u64>
    ensures { result ≡ lesser one other }
{
    let Some(y) = other else {
        return one;
    };
    match one {
        Some(x) => Some(x.min(y)),
        None => Some(y),
    }
}
