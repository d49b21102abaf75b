//! Items put at places: the bodies in the order of the items, and the keys in a wheel.
ghost use Rattle.std.specs.Prelude.{◌≡◌, ◌^◌, ◌<◌, ◌≤◌, ◌∷◌, ◌++◌, [], Some, None, IfOk, OnOk};
ghost use Rattle.std.specs.Prelude.{replicate};
ghost use Rattle.std.specs.Vec.{vec_len, vec_capacity};
ghost use Rattle.std.specs.Fn.{FnReturnsAt};
ghost use Rattle.std.specs.List.{All};
ghost use Rattle.sim_queue.specs.Packed.{nothing, CanPutAll};
ghost use Rattle.sim_queue.specs.inside.Placed.{bodies_of, ArePlaced};

use crate::link::Link;
use crate::wheel::Wheel;
use crate::{Item, NoMemory};
use std::alloc::Global;

/// The keys of items at their places, and for each slot the place of its item.
#[derive(Drop)]
pub(crate) struct Placed {
    pub(crate) wheel: Wheel,
    pub(crate) places: Vec<Link>,
}

impl Placed {
    /// Returns the places of these items, for slots from the serial `base` on. The place of an item
    /// is its number in the list.
    pub(crate) fn of<B>(
        alloc: Global,
        items: &Vec<Item<B>>,
        base: u64,
        next_serial: u64,
        width: u32,
    ) -> Result<Placed, NoMemory>
        requires items { CanPutAll items.now.items (nothing next_serial) }
        requires from { All (λ x. base ≤ x.serial) items.now.items }
        requires order { base ≤ next_serial }
        requires small { next_serial ≤ 2 ^ 40 }
        requires width { width ≤ 56 }
        ensures { IfOk result (λ s.
            ArePlaced items.now.items base next_serial s.wheel s.places.items) }
    {
        let mut wheel = Wheel::with_room(alloc, width, with_room(items.len()))?;
        let mut places = empty_places(alloc, (next_serial - base) as usize)?;
        for item in items {
            let at = wheel.add(item.due, item.serial)?;
            places[(item.serial - base) as usize] = Link::to(at);
        }
        Ok(Placed { wheel, places })
    }
}

// Returns the places of `count` empty slots.
fn empty_places(alloc: Global, count: usize) -> Result<Vec<Link>, NoMemory>
    ensures { IfOk result (λ places. places.items ≡ replicate count None) }
{
    let mut places = Vec::with_capacity(alloc, with_room(count))?;
    places.resize(count, Link::none())?;
    Ok(places)
}

/// Returns the bodies of items, each copied by `each`, in the order of the items.
pub(crate) fn copied_bodies<B: Drop, F: Fn(&B) -> Result<B, NoMemory>>(
    alloc: Global,
    items: &Vec<Item<B>>,
    each: &F,
) -> Result<Vec<Option<B>>, NoMemory>
    requires callable { F.IsAlwaysCallable each.now }
    requires equal { (x : B) (r : _) → FnReturnsAt F.Fn each.now x r → IfOk r (λ y. y ≡ x) }
    ensures { IfOk result (λ bodies. bodies.items ≡ bodies_of items.now.items) }
{
    let mut bodies = Vec::with_capacity(alloc, with_room(items.len()))?;
    for item in items {
        push_copy(&mut bodies, &item.body, each)?;
    }
    Ok(bodies)
}

// Adds an equal body. The vector has room for it.
#[inline(always)]
fn push_copy<B: Drop, F: Fn(&B) -> Result<B, NoMemory>>(
    bodies: &mut Vec<Option<B>>,
    body: &B,
    each: &F,
) -> Result<(), NoMemory>
    requires room { vec_len bodies.old < vec_capacity bodies.old }
    requires callable { F.IsAlwaysCallable each.now }
    requires equal { (x : B) (r : _) → FnReturnsAt F.Fn each.now x r → IfOk r (λ y. y ≡ x) }
    ensures items { OnOk result (bodies.new.items ≡ bodies.old.items ++ Some body.now ∷ []) }
    ensures capacity { vec_capacity bodies.new ≡ vec_capacity bodies.old }
{
    match each(body) {
        Ok(body) => {
            bodies.push_reserved(Some(body));
            Ok(())
        }
        Err(refused) => Err(refused),
    }
}

// Returns the capacity of a copy of `len` elements, with some room to grow.
fn with_room(len: usize) -> usize
    ensures { len ≤ result }
{
    len.saturating_add(len / 8).saturating_add(8)
}
