//! The slots of a queue, one for each serial from the oldest on. A slot has the place of its item,
//! which stays there until it is taken out.
ghost use Rattle.std.specs.Prelude.{◌≡◌, ◌≢◌, ℕ, ◌+◌, ◌-◌, ◌^◌, ◌<◌, ◌≤◌, OnOk, OnErr, IfOk};
ghost use Rattle.std.specs.Prelude.{IfSome, IfNone, Bool, Some, None, ◌∷◌, ◌++◌, [], length};
ghost use Rattle.std.specs.Prelude.{slice_set, replicate};
ghost use Rattle.std.specs.Fn.{FnReturnsAt};
ghost use Rattle.std.specs.List.{All};
ghost use Rattle.std.specs.Option.{option_map, IsSome};
ghost use Rattle.std.specs.Vec.{vec_len, vec_capacity};
ghost use Rattle.sim_queue.specs.Items.{item_of, items_from, pending};
ghost use Rattle.sim_queue.specs.Packed.{packed, nothing, CanPutAll};
ghost use Rattle.sim_queue.specs.Pending.{Decides, next_taken};
ghost use Rattle.sim_queue.specs.inside.Slots.{at, IsFirstSlot, HasNoItem};
ghost use Rattle.sim_queue.specs.inside.Sparse.{body_at, items_at, IsPut, IsTaken, HasSameBodies};
ghost use Rattle.sim_queue.specs.inside.Taken.{HasBodies};
ghost use Rattle.sim_queue.specs.inside.Wheel.{key_at, HasSame};

use crate::link::{Link, next_place, skip_blocks};
use crate::placed::{Placed, copied_bodies};
use crate::wheel::Wheel;
use crate::{Item, NoMemory};
use std::alloc::Global;
use std::marker::Model;

/// The items by their serials: the first slot stands for the serial `base`.
#[derive(Drop)]
pub(crate) struct Slots<B> {
    // The due and the serial of each item, by its place.
    wheel: Wheel,
    // The body of each item, by its place.
    bodies: Vec<Option<B>>,
    // The place of each slot's item.
    places: Vec<Link>,
    base: u64,
    // The number of items.
    count: usize,
}

impl<B> Model for Slots<B> {
    ghost use Rattle.sim_queue.specs.inside.Sparse.{SlotList, slots_of, IsSparse};

    ghost Value = { SlotList B };

    ghost view = { λ a. record {
      base = a.base;
      items = slots_of a.wheel a.bodies.items a.places.items;
    } };

    ghost invariant = { λ a. IsSparse a.wheel a.bodies.items a.places.items a.base a.count };
}

impl<B> Slots<B> {
    /// Returns no slots; the first one will stand for the serial `base`. A day of the wheel has 2
    /// to the power of `width` milliseconds.
    pub(crate) fn new(alloc: Global, base: u64, width: u32) -> Slots<B>
        requires { width ≤ 56 }
        ensures { result ≡ record { base = base; items = [] } }
    {
        Slots {
            wheel: Wheel::new(alloc, width),
            bodies: Vec::new(alloc),
            places: Vec::new(alloc),
            base,
            count: 0,
        }
    }

    /// Returns the slots of these items from the serial `base` on. `each` copies a body.
    ///
    /// Copies the bodies first and then makes the keys: in one loop over both the compiler runs out
    /// of registers.
    #[inline(never)]
    pub(crate) fn of<F: Fn(&B) -> Result<B, NoMemory>>(
        alloc: Global,
        items: &Vec<Item<B>>,
        base: u64,
        next_serial: u64,
        width: u32,
        each: &F,
    ) -> Result<Slots<B>, NoMemory>
    where
        B: Drop,
        requires items { CanPutAll items.now.items (nothing next_serial) }
        requires from { All (λ x. base ≤ x.serial) items.now.items }
        requires order { base ≤ next_serial }
        requires small { next_serial ≤ 2 ^ 40 }
        requires width { width ≤ 56 }
        requires callable { F.IsAlwaysCallable each.now }
        requires equal { (x : B) (r : _) → FnReturnsAt F.Fn each.now x r → IfOk r (λ y. y ≡ x) }
        ensures { IfOk result (λ s. pending s.base s.items ≡ packed items.now.items next_serial) }
    {
        let bodies = copied_bodies(alloc, items, each)?;
        let Placed { wheel, places } = Placed::of(alloc, items, base, next_serial, width)?;
        Ok(Slots {
            wheel,
            bodies,
            places,
            base,
            count: items.len(),
        })
    }

    /// Returns the width of a day of the wheel.
    pub(crate) fn width(&self) -> u32
        ensures { result ≤ 56 }
    {
        self.wheel.width()
    }

    /// Returns the serial of the first slot.
    pub(crate) fn base(&self) -> u64
        ensures { result ≡ self.now.base }
    {
        self.base
    }

    /// Returns the number of slots.
    pub(crate) fn len(&self) -> usize
        ensures { result ≡ length self.now.items }
    {
        self.places.len()
    }

    /// Returns the number of slots that have an item.
    pub(crate) fn count(&self) -> usize
        ensures { result ≡ length (items_from self.now.base self.now.items) }
    {
        self.count
    }

    /// Returns the due and the body in a slot.
    pub(crate) fn get(&self, place: usize) -> Option<(u64, &B)>
        ensures { option_map (λ r. (r.0, r.1.now)) result ≡ at self.now.items place }
    {
        let at = self.places.get(place)?.get()?;
        let (due, _serial) = self.wheel.key(at);
        let body = self.bodies[at as usize].as_ref()?;
        Some((due, body))
    }

    /// Returns the slot of the first item.
    pub(crate) fn first(&self) -> Option<usize>
        ensures first { IfSome result (λ i. IsFirstSlot i self.now.items) }
        ensures none { IfNone result (HasNoItem self.now.items) }
    {
        let at = self.wheel.first()?;
        let (_due, serial) = self.wheel.key(at);
        Some((serial - self.base) as usize)
    }

    /// Adds a slot with this due and body at the end. Returns its serial. After an error nothing
    /// has changed.
    #[inline(always)]
    pub(crate) fn push(&mut self, due: u64, body: B) -> Result<u64, NoMemory>
    where
        B: Drop,
        requires { self.old.base + length self.old.items < 2 ^ 40 }
        ensures serial { IfOk result (λ s. s ≡ self.old.base + length self.old.items) }
        ensures ok { OnOk result (self.new.items ≡ self.old.items ++ Some (due, body) ∷ []) }
        ensures err { OnErr result (self.new.items ≡ self.old.items) }
        ensures base { self.new.base ≡ self.old.base }
    {
        let serial = self.base + self.places.len() as u64;
        self.places.reserve(1)?;
        let at = put_in(&mut self.wheel, &mut self.bodies, due, serial, body)?;
        self.places.push_reserved(Link::to(at));
        self.count += 1;
        Ok(serial)
    }

    /// Puts a due and a body into an empty slot. After an error nothing has changed.
    #[inline(always)]
    pub(crate) fn fill(&mut self, place: usize, due: u64, body: B) -> Result<(), NoMemory>
    where
        B: Drop,
        requires within { place < length self.old.items }
        requires empty { at self.old.items place ≡ None }
        requires small { self.old.base + length self.old.items ≤ 2 ^ 40 }
        ensures ok { OnOk result (self.new.items ≡ slice_set self.old.items place
            (Some (due, body))) }
        ensures err { OnErr result (self.new.items ≡ self.old.items) }
        ensures base { self.new.base ≡ self.old.base }
    {
        let serial = self.base + place as u64;
        let at = put_in(&mut self.wheel, &mut self.bodies, due, serial, body)?;
        self.places[place] = Link::to(at);
        self.count += 1;
        Ok(())
    }

    /// Takes the item out of a slot.
    #[inline(always)]
    pub(crate) fn take(&mut self, place: usize) -> Option<Item<B>>
        requires { place < length self.old.items }
        ensures item { result ≡ option_map (item_of (self.old.base + place))
            (at self.old.items place) }
        ensures rest { self.new.items ≡ slice_set self.old.items place None }
        ensures base { self.new.base ≡ self.old.base }
    {
        let at = self.places[place].get()?;
        self.places[place] = Link::none();
        self.count -= 1;
        Some(take_out(&mut self.wheel, &mut self.bodies, at))
    }

    /// Takes the first item out.
    #[inline(always)]
    pub(crate) fn take_first(&mut self) -> Option<Item<B>>
        ensures from { IfSome result (λ x. self.old.base ≤ x.serial) }
        ensures first { IfSome result (λ x.
            IsFirstSlot (x.serial - self.old.base) self.old.items) }
        ensures item { IfSome result (λ x.
            at self.old.items (x.serial - self.old.base) ≡ Some (x.due, x.body)) }
        ensures rest { IfSome result (λ x.
            self.new.items ≡ slice_set self.old.items (x.serial - self.old.base) None) }
        ensures none { IfNone result (HasNoItem self.old.items) }
        ensures same { IfNone result (self.new.items ≡ self.old.items) }
        ensures base { self.new.base ≡ self.old.base }
    {
        let at = self.wheel.first()?;
        let (due, serial) = self.wheel.remove_first(at);
        self.places[(serial - self.base) as usize] = Link::none();
        self.count -= 1;
        let body = take_body(&mut self.bodies, at);
        Some(Item { due, serial, body })
    }

    /// Removes the last slot. Returns its item.
    #[inline(always)]
    pub(crate) fn pop(&mut self) -> Item<B>
        requires { IsSome (at self.old.items (length self.old.items - 1)) }
        ensures items { self.old.items ≡ self.new.items ++ Some (result.due, result.body) ∷ [] }
        ensures serial { result.serial ≡ self.new.base + length self.new.items }
        ensures base { self.new.base ≡ self.old.base }
    {
        let last = self.len() - 1;
        let taken = self.take(last).unwrap();
        self.places.pop();
        taken
    }

    /// Returns whether one more slot would take memory.
    #[inline(always)]
    pub(crate) fn is_full(&self) -> bool {
        self.places.len() == self.places.capacity()
    }

    /// Returns the number of empty slots before the first one that has an item.
    pub(crate) fn empty_at_front(&self) -> usize
        ensures within { result ≤ length self.now.items }
        ensures empty { (i : ℕ) → i < result → at self.now.items i ≡ None }
    {
        let places = self.places.as_slice();
        next_place(places, skip_blocks(places, 0))
    }

    /// Drops the first `count` slots, which are empty.
    pub(crate) fn drop_front(&mut self, count: usize)
        requires within { count ≤ length self.old.items }
        requires empty { (i : ℕ) → i < count → at self.old.items i ≡ None }
        requires small { self.old.base + length self.old.items ≤ 2 ^ 40 }
        ensures items { self.old.items ≡ replicate count None ++ self.new.items }
        ensures base { self.new.base ≡ self.old.base + count }
    {
        let rest = self.places.len() - count;
        self.places.copy_within(count.., 0);
        self.places.truncate(rest);
        self.base += count as u64;
    }

    /// Adds `count` empty slots before the others. After an error nothing has changed.
    pub(crate) fn add_front(&mut self, count: usize) -> Result<(), NoMemory>
        requires { count ≤ self.old.base }
        ensures ok { OnOk result (self.new ≡ record {
          base = self.old.base - count;
          items = replicate count None ++ self.old.items;
        }) }
        ensures err { OnErr result (self.new ≡ self.old) }
    {
        let Some(len) = self.places.len().checked_add(count) else {
            return Err(NoMemory);
        };
        self.places.resize(len, Link::none())?;
        self.places.rotate_right(count);
        self.base -= count as u64;
        Ok(())
    }

    /// Returns the least serial, not below `from`, of an item whose body the test accepts.
    pub(crate) fn next_that<F: Fn(&B) -> bool>(&self, from: u64, test: &F) -> Option<u64>
        requires { F.IsAlwaysCallable test.now }
        ensures { (p : B → Bool) → Decides F.Fn test.now p → result
            ≡ next_taken from p (items_from self.now.base self.now.items) }
    {
        self.wheel.least_taken(&self.bodies, from, test)
    }

    /// Returns the items in the order of their places, with bodies that `each` copies.
    pub(crate) fn pack<F: Fn(&B) -> Result<B, NoMemory>>(
        &self,
        alloc: Global,
        each: &F,
    ) -> Result<Vec<Item<B>>, NoMemory>
    where
        B: Drop,
        requires callable { F.IsAlwaysCallable each.now }
        requires equal { (x : B) (r : _) → FnReturnsAt F.Fn each.now x r → IfOk r (λ y. y ≡ x) }
        ensures value { IfOk result (λ items.
            packed items.items (self.now.base + length self.now.items)
            ≡ pending self.now.base self.now.items) }
        ensures each { IfOk result (λ items.
            CanPutAll items.items (nothing (self.now.base + length self.now.items))) }
    {
        copies(alloc, &self.wheel, &self.bodies, self.count, each)
    }
}

// Puts an item at a place of its own. Returns the place. After an error nothing has changed.
#[inline(always)]
fn put_in<B: Drop>(
    wheel: &mut Wheel,
    bodies: &mut Vec<Option<B>>,
    due: u64,
    serial: u64,
    body: B,
) -> Result<u32, NoMemory>
    requires small { serial < 2 ^ 40 }
    requires fresh { (k d : ℕ) → key_at wheel.old k ≢ Some (d, serial) }
    ensures put { IfOk result (λ k. IsPut k due serial body wheel.old wheel.new bodies.old.items
        bodies.new.items) }
    ensures keys { OnErr result (HasSame wheel.old wheel.new) }
    ensures bodies { OnErr result (HasSameBodies bodies.old.items bodies.new.items) }
    ensures small { IfOk result (λ k. k < 4294967295) }
{
    bodies.reserve(1)?;
    let at = wheel.free_place()?;
    put_body(bodies, at, body)?;
    wheel.put(at, due, serial);
    Ok(at)
}

// Puts a body at a place. After an error nothing has changed. The wheel gives out its places in
// order, so the vector has this place or ends right before it.
#[inline(always)]
fn put_body<B: Drop>(bodies: &mut Vec<Option<B>>, at: u32, body: B) -> Result<(), NoMemory>
    ensures body { OnOk result (body_at bodies.new.items at ≡ Some body) }
    ensures rest { (j : ℕ) → j ≢ at → body_at bodies.new.items j ≡ body_at bodies.old.items j }
    ensures err { OnErr result (HasSameBodies bodies.old.items bodies.new.items) }
{
    let len = bodies.len();
    if (at as usize) < len {
        bodies[at as usize] = Some(body);
        return Ok(());
    }
    if at as usize != len {
        return Err(NoMemory);
    }
    match bodies.push(Some(body)) {
        Ok(()) => Ok(()),
        Err(_refused) => Err(NoMemory),
    }
}

// Takes the item at a place out.
#[inline(always)]
fn take_out<B>(wheel: &mut Wheel, bodies: &mut Vec<Option<B>>, at: u32) -> Item<B>
    requires key { IsSome (key_at wheel.old at) }
    requires body { IsSome (body_at bodies.old.items at) }
    ensures key { key_at wheel.old at ≡ Some (result.due, result.serial) }
    ensures body { body_at bodies.old.items at ≡ Some result.body }
    ensures taken { IsTaken at wheel.old wheel.new bodies.old.items bodies.new.items }
{
    let (due, serial) = wheel.remove(at);
    let body = take_body(bodies, at);
    Item { due, serial, body }
}

// Takes the body at a place out.
#[inline(always)]
fn take_body<B>(bodies: &mut Vec<Option<B>>, at: u32) -> B
    requires { IsSome (body_at bodies.old.items at) }
    ensures body { body_at bodies.old.items at ≡ Some result }
    ensures rest { (j : ℕ) → j ≢ at → body_at bodies.new.items j ≡ body_at bodies.old.items j }
{
    bodies[at as usize].take().unwrap()
}

// Returns the items in the order of their places, with bodies that `each` copies. There are at most
// `count` of them.
#[inline(always)]
fn copies<B: Drop, F: Fn(&B) -> Result<B, NoMemory>>(
    alloc: Global,
    wheel: &Wheel,
    bodies: &Vec<Option<B>>,
    count: usize,
    each: &F,
) -> Result<Vec<Item<B>>, NoMemory>
    requires bodies { HasBodies wheel.now bodies.now.items }
    requires room { length (items_at (length bodies.now.items) wheel.now bodies.now.items) ≤ count }
    requires callable { F.IsAlwaysCallable each.now }
    requires equal { (x : B) (r : _) → FnReturnsAt F.Fn each.now x r → IfOk r (λ y. y ≡ x) }
    ensures { IfOk result (λ items. items.items ≡ items_at (length bodies.now.items) wheel.now
        bodies.now.items) }
{
    let mut items = Vec::with_capacity(alloc, count)?;
    let bodies = bodies.as_slice();
    let places = (wheel.places() as usize).min(bodies.len());
    for at in 0..places as u32 {
        // Mostly a place has an item.
        let Some((due, serial)) = wheel.key_if(at) else {
            continue;
        };
        let body = bodies[at as usize].as_ref().unwrap();
        push_copy(&mut items, due, serial, body, each)?;
    }
    Ok(items)
}

// Adds an item with an equal body. The vector has room for it.
#[inline(always)]
fn push_copy<B: Drop, F: Fn(&B) -> Result<B, NoMemory>>(
    items: &mut Vec<Item<B>>,
    due: u64,
    serial: u64,
    body: &B,
    each: &F,
) -> Result<(), NoMemory>
    requires room { vec_len items.old < vec_capacity items.old }
    requires callable { F.IsAlwaysCallable each.now }
    requires equal { (x : B) (r : _) → FnReturnsAt F.Fn each.now x r → IfOk r (λ y. y ≡ x) }
    ensures items { OnOk result (items.new.items ≡ items.old.items ++ record {
      due = due;
      serial = serial;
      body = body.now;
    } ∷ []) }
    ensures len { OnOk result (vec_len items.new ≡ vec_len items.old + 1) }
    ensures capacity { vec_capacity items.new ≡ vec_capacity items.old }
{
    match each(body) {
        Ok(body) => {
            items.push_reserved(Item { due, serial, body });
            Ok(())
        }
        Err(refused) => Err(refused),
    }
}
