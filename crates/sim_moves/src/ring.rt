//! The records of the last events.
ghost use Rattle.std.specs.Prelude.{◌≡◌, ◌⊎◌, ℕ, ◌+◌, ◌-◌, ◌<◌, ◌≤◌, [], ◌∷◌, ◌++◌, length, take};
ghost use Rattle.std.specs.Prelude.{drop, Some, IfOk, OnOk, IsSome};
ghost use Rattle.std.specs.Vec.{vec_capacity};
ghost use Rattle.sim_world.specs.Clock.{clock_after};
ghost use Rattle.sim_world.specs.Acts.{turns_of, turned_by};
ghost use Rattle.sim_world.specs.Events.{rules, next};
ghost use Rattle.sim_world.specs.Records.{EventRecord as Kept, LeadsBack};
ghost use Rattle.circular_buffer.specs.Buffer.{buffer, keep_last, last_item};
ghost use Rattle.sim_moves.specs.Circle.{around, turned, IsKept, IsTakenBack};

use crate::NoMemory;
use sim_node::Node;
use sim_world::{Event, Undo, World};
use std::alloc::Global;
use std::marker::Model;

/// The records of the last events, in a circle of slots with one slot more than records are kept. A
/// record is filled in its slot and never moved, and its memory stays there for the next one.
#[derive(Drop)]
pub struct Ring<N: Node> {
    // The slots needed so far, with room for all.
    slots: Vec<Undo<N>>,
    // The slot in which the record of the next event is filled; the last records come before it.
    free: usize,
    len: usize,
    capacity: usize,
}

impl<N: Node> Model for Ring<N> {
    ghost use Rattle.std.specs.Prelude.{◌+◌, ◌≤◌, ◌<◌, length};
    ghost use Rattle.std.specs.Vec.{vec_capacity};
    ghost use Rattle.sim_world.specs.Records.{EventRecord as Kept};
    ghost use Rattle.circular_buffer.specs.Buffer.{Buffer, buffer, keep_last};
    ghost use Rattle.sim_moves.specs.Circle.{around};

    ghost Value = { Buffer (Kept N N.Msg N.Undo) };

    ghost view = { λ r. buffer (keep_last r.len (around r.free r.slots.items)) r.capacity };

    ghost invariant = { λ r.
        (r.free < length r.slots.items)
        × (r.len < length r.slots.items)
        × (length r.slots.items ≤ r.capacity + 1)
        × (r.capacity < vec_capacity r.slots)
        × (length r.slots.items ≤ r.capacity → r.len ≤ r.free) };
}

// Adds one more slot until the circle is whole; then goes on to the first.
#[cold]
#[inline(never)]
fn past_the_last<N: Node>(alloc: Global, slots: &mut Vec<Undo<N>>, capacity: usize) -> usize
    requires room { capacity < vec_capacity slots.old }
    requires some { 0 < length slots.old.items }
    requires most { length slots.old.items ≤ capacity + 1 }
    ensures turned { keep_last (length slots.old.items)
        (around result slots.new.items) ≡ slots.old.items }
    ensures inside { result < length slots.new.items }
    ensures more { length slots.old.items ≤ length slots.new.items }
    ensures most { length slots.new.items ≤ capacity + 1 }
    ensures room { capacity < vec_capacity slots.new }
    ensures growing { length slots.new.items ≤ capacity → result ≡ length slots.old.items }
    ensures grown { length slots.old.items ≤ capacity →
        length slots.old.items < length slots.new.items }
{
    let made = slots.len();
    if capacity < made {
        return 0;
    }
    slots.push_reserved(Undo::empty(alloc));
    made
}

// Returns the slot after one.
#[inline]
fn slot_after<N: Node>(
    alloc: Global,
    slots: &mut Vec<Undo<N>>,
    capacity: usize,
    slot: usize,
) -> usize
    requires room { capacity < vec_capacity slots.old }
    requires inside { slot < length slots.old.items }
    requires most { length slots.old.items ≤ capacity + 1 }
    ensures turned { keep_last (length slots.old.items) (around result slots.new.items) ≡ turned
        (around slot slots.old.items) }
    ensures inside { result < length slots.new.items }
    ensures more { length slots.old.items ≤ length slots.new.items }
    ensures most { length slots.new.items ≤ capacity + 1 }
    ensures room { capacity < vec_capacity slots.new }
    ensures growing { length slots.new.items ≤ capacity → result ≡ slot + 1 }
{
    let after = slot + 1;
    if after < slots.len() {
        return after;
    }
    past_the_last(alloc, slots, capacity)
}

// Returns the slot before one, in a circle of `count` slots.
fn slot_before(count: usize, slot: usize) -> usize
    requires { slot < count }
    ensures before { (slot ≡ result + 1) ⊎ ((slot ≡ 0) × (result + 1 ≡ count)) }
    ensures inside { result < count }
{
    if slot == 0 { count - 1 } else { slot - 1 }
}

impl<N: Node> Ring<N> {
    /// Returns no records, with room for `capacity`. Fails only for want of memory.
    pub fn with_capacity(alloc: Global, capacity: usize) -> Result<Ring<N>, NoMemory>
        requires { capacity ≤ 4096 }
        ensures { IfOk result (λ r. r ≡ buffer [] capacity) }
    {
        let mut slots = Vec::with_capacity(alloc, capacity + 1)?;
        slots.push_reserved(Undo::empty(alloc));
        Ok(Ring {
            slots,
            free: 0,
            len: 0,
            capacity,
        })
    }

    /// Returns the number of records.
    pub fn len(&self) -> usize
        ensures value { result ≡ length self.now.items }
    {
        self.len
    }

    /// Returns the world after an event that can happen. Keeps its record as the newest; a full
    /// ring drops the oldest. Fails only for want of memory; the records are useless then.
    #[inline(always)]
    pub fn apply(
        &mut self,
        alloc: Global,
        world: World<N>,
        event: Event,
        meter: &mut N::Meter,
    ) -> Result<World<N>, NoMemory>
        requires can { IsSome (next (rules N.laws N.PROBES world.scenario) world.world event) }
        requires young { world.age < 65536 }
        ensures kept { IfOk result (λ w.
            IsKept N.told N.records (rules N.laws N.PROBES world.scenario)
            self.old.capacity self.old.items world.world event
            self.new.items w) }
        ensures clock { IfOk result (λ w. w.world.clock ≡ clock_after event world.world) }
        ensures on { IfOk result (λ w. world.world.clock ≤ w.world.clock) }
        ensures scenario { IfOk result (λ w. w.scenario ≡ world.scenario) }
        ensures age { IfOk result (λ w. w.age ≡ world.age + 1) }
        ensures work { OnOk result (N.Meter.work meter.new ≡ turned_by (turns_of world.world event)
            (N.Meter.work meter.old)) }
        ensures capacity { self.new.capacity ≡ self.old.capacity }
    {
        let after = world.apply_over(event, &mut self.slots[self.free], meter)?;
        self.free = slot_after(alloc, &mut self.slots, self.capacity, self.free);
        self.len = (self.len + 1).min(self.capacity);
        Ok(after)
    }

    /// Returns the world before the event of the newest record, and removes that record. Fails only
    /// for want of memory; the records are useless then.
    pub fn undo(
        &mut self,
        alloc: Global,
        world: World<N>,
        meter: &mut N::Meter,
    ) -> Result<World<N>, NoMemory>
        requires some { 0 < length self.old.items }
        requires leads { (u : Kept N N.Msg N.Undo) → last_item self.old.items ≡ Some u →
            LeadsBack N.told N.records u world }
        ensures taken { IfOk result (λ w.
            IsTakenBack N.records self.old.items world self.new.items w
            (N.Meter.work meter.old) (N.Meter.work meter.new)) }
        ensures capacity { self.new.capacity ≡ self.old.capacity }
    {
        let newest = slot_before(self.slots.len(), self.free);
        self.free = newest;
        self.len -= 1;
        let before = world.undo_by(alloc, &mut self.slots[newest], meter)?;
        Ok(before)
    }

    /// Drops the records, and takes the memory of a ring that is no longer needed, if it has room
    /// for as many.
    pub fn take_over(&mut self, spent: Ring<N>)
        ensures { self.new ≡ buffer [] self.old.capacity }
    {
        if self.capacity == spent.capacity {
            let Ring { slots, .. } = spent;
            self.free = 0;
            self.len = 0;
            self.slots = slots;
        }
        self.clear();
    }

    /// Drops the records.
    pub fn clear(&mut self)
        ensures { self.new ≡ buffer [] self.old.capacity }
    {
        self.free = 0;
        self.len = 0;
    }
}
