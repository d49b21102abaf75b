//! The operations of a queue on its slots.
ghost use Rattle.std.specs.Prelude.{◌≡◌, ℕ, ◌+◌, ◌^◌, ◌<◌, ◌≤◌, OnOk, OnErr, IfOk, IfSome, IfNone};
ghost use Rattle.std.specs.Prelude.{length, Bool};
ghost use Rattle.std.specs.Fn.{FnReturnsAt};
ghost use Rattle.std.specs.List.{All};
ghost use Rattle.std.specs.Option.{option_map};
ghost use Rattle.sim_queue.specs.Items.{item_of};
ghost use Rattle.sim_queue.specs.Pending.{none_pending, IsPending, HasNewest};
ghost use Rattle.sim_queue.specs.Pending.{Decides, first, insert, take, put_back, uninsert, newest};
ghost use Rattle.sim_queue.specs.Pending.{next_taken, with_serial};
ghost use Rattle.sim_queue.specs.Packed.{packed, nothing, CanPutAll};
ghost use Rattle.sim_queue.specs.inside.Store.{pending_in, IsKeyed};

use crate::packed::PackedQueue;
use crate::slots::Slots;
use crate::{Item, NoMemory};
use std::alloc::Global;

/// The items in slots. It has no invariant: each call states what it requires and ensures.
#[derive(Drop)]
pub(crate) struct Store<B> {
    slots: Slots<B>,
}

impl<B> Store<B> {
    pub(crate) fn new(alloc: Global, width: u32) -> Store<B>
        requires { width ≤ 56 }
        ensures pending { pending_in result ≡ none_pending }
        ensures keyed { IsKeyed result }
    {
        Store {
            slots: Slots::new(alloc, 0, width),
        }
    }

    /// Adds an item. Drops empty slots rather than take memory, if they are many.
    #[inline(always)]
    pub(crate) fn add(&mut self, due: u64, body: B) -> Result<u64, NoMemory>
    where
        B: Drop,
        requires keyed { IsKeyed self.old }
        requires room { (pending_in self.old).next_serial < 2 ^ 40 }
        ensures serial { IfOk result (λ s. s ≡ (pending_in self.old).next_serial) }
        ensures ok { OnOk result (pending_in self.new ≡ insert due body (pending_in self.old)) }
        ensures err { OnErr result (pending_in self.new ≡ pending_in self.old) }
        ensures keyed { IsKeyed self.new }
    {
        self.trim();
        self.slots.push(due, body)
    }

    /// Returns the first item.
    pub(crate) fn first(&self) -> Option<(u64, u64, &B)>
        requires { IsKeyed self.now }
        ensures { option_map (λ r. item_of r.1 (r.0, r.2.now)) result
            ≡ first (pending_in self.now).items }
    {
        let place = self.slots.first()?;
        let (due, body) = self.slots.get(place)?;
        Some((due, self.slots.base() + place as u64, body))
    }

    /// Returns the due and the body of the item of a serial.
    pub(crate) fn get(&self, serial: u64) -> Option<(u64, &B)>
        ensures { option_map (λ r. item_of serial (r.0, r.1.now)) result
            ≡ with_serial serial (pending_in self.now).items }
    {
        if serial < self.slots.base() {
            return None;
        }
        self.slots.get((serial - self.slots.base()) as usize)
    }

    /// Returns the least serial, not below `serial`, of an item whose body the test accepts.
    pub(crate) fn next_that<F: Fn(&B) -> bool>(&self, serial: u64, test: &F) -> Option<u64>
        requires { F.IsAlwaysCallable test.now }
        ensures { (p : B → Bool) → Decides F.Fn test.now p → result
            ≡ next_taken serial p (pending_in self.now).items }
    {
        self.slots.next_that(serial, test)
    }

    /// Returns the serial that the next item gets.
    pub(crate) fn next_serial(&self) -> u64
        requires { (pending_in self.now).next_serial ≤ 2 ^ 40 }
        ensures { result ≡ (pending_in self.now).next_serial }
    {
        self.slots.base() + self.slots.len() as u64
    }

    /// Returns the number of pending items.
    pub(crate) fn count(&self) -> usize
        ensures { result ≡ length (pending_in self.now).items }
    {
        self.slots.count()
    }

    /// Takes the first item out.
    #[inline(always)]
    pub(crate) fn remove_first(&mut self) -> Option<Item<B>>
        requires { IsKeyed self.old }
        ensures item { result ≡ first (pending_in self.old).items }
        ensures rest { IfSome result (λ x. pending_in self.new ≡ take x.serial
            (pending_in self.old)) }
        ensures none { IfNone result (pending_in self.new ≡ pending_in self.old) }
        ensures keyed { IsKeyed self.new }
    {
        self.slots.take_first()
    }

    /// Takes the item of a serial out.
    pub(crate) fn remove(&mut self, serial: u64) -> Option<Item<B>>
        requires { IsKeyed self.old }
        ensures item { result ≡ with_serial serial (pending_in self.old).items }
        ensures rest { pending_in self.new ≡ take serial (pending_in self.old) }
        ensures keyed { IsKeyed self.new }
    {
        if serial < self.slots.base() {
            return None;
        }
        let place = (serial - self.slots.base()) as usize;
        if place >= self.slots.len() {
            return None;
        }
        self.slots.take(place)
    }

    /// Takes the newest item out, with its slot.
    #[inline(always)]
    pub(crate) fn remove_last(&mut self) -> Item<B>
        requires keyed { IsKeyed self.old }
        requires newest { HasNewest (pending_in self.old) }
        ensures item { newest (pending_in self.old) ≡ Some result }
        ensures rest { pending_in self.new ≡ uninsert (pending_in self.old) }
        ensures keyed { IsKeyed self.new }
    {
        self.slots.pop()
    }

    /// Puts an item back. After an error nothing has changed.
    #[inline(always)]
    pub(crate) fn add_back(&mut self, item: Item<B>) -> Result<(), NoMemory>
    where
        B: Drop,
        requires keyed { IsKeyed self.old }
        requires made { item.serial < (pending_in self.old).next_serial }
        requires absent { ¬ (IsPending item.serial (pending_in self.old)) }
        ensures ok { OnOk result (pending_in self.new ≡ put_back item (pending_in self.old)) }
        ensures err { OnErr result (pending_in self.new ≡ pending_in self.old) }
        ensures keyed { IsKeyed self.new }
    {
        self.widen(item.serial)?;
        let Item { due, serial, body } = item;
        let place = (serial - self.slots.base()) as usize;
        self.slots.fill(place, due, body)
    }

    /// Returns equal pending items without their keys and places, with bodies that `each` copies.
    pub(crate) fn pack<F: Fn(&B) -> Result<B, NoMemory>>(
        &self,
        alloc: Global,
        each: &F,
    ) -> Result<PackedQueue<B>, NoMemory>
    where
        B: Drop,
        requires keyed { IsKeyed self.now }
        requires callable { F.IsAlwaysCallable each.now }
        requires equal { (x : B) (r : _) → FnReturnsAt F.Fn each.now x r → IfOk r (λ y. y ≡ x) }
        ensures { IfOk result (λ p. p ≡ pending_in self.now) }
    {
        let items = self.slots.pack(alloc, each)?;
        Ok(PackedQueue::of(items, self.next_serial(), self.slots.width()))
    }

    /// Returns a store of equal items, with bodies that `each` copies. The items may be in any
    /// order.
    pub(crate) fn of<F: Fn(&B) -> Result<B, NoMemory>>(
        alloc: Global,
        items: &Vec<Item<B>>,
        next_serial: u64,
        width: u32,
        each: &F,
    ) -> Result<Store<B>, NoMemory>
    where
        B: Drop,
        requires items { CanPutAll items.now.items (nothing next_serial) }
        requires small { next_serial ≤ 2 ^ 40 }
        requires width { width ≤ 56 }
        requires callable { F.IsAlwaysCallable each.now }
        requires equal { (x : B) (r : _) → FnReturnsAt F.Fn each.now x r → IfOk r (λ y. y ≡ x) }
        ensures pending { IfOk result (λ s. pending_in s ≡ packed items.now.items next_serial) }
        ensures keyed { IfOk result (λ s. IsKeyed s) }
    {
        let base = first_serial(items, next_serial);
        Ok(Store {
            slots: Slots::of(alloc, items, base, next_serial, width, each)?,
        })
    }

    // Drops the empty slots at the front, if one more slot would take memory and they are many.
    #[inline(always)]
    fn trim(&mut self)
        requires { IsKeyed self.old }
        ensures keyed { IsKeyed self.new }
        ensures items { pending_in self.new ≡ pending_in self.old }
    {
        if self.slots.is_full() {
            self.drop_empty();
        }
    }

    // Drops the empty slots at the front, if these are at least half of all, rounded down.
    // Otherwise the insertion takes more memory, so that insertions rarely come here.
    #[cold]
    #[inline(never)]
    fn drop_empty(&mut self)
        requires { IsKeyed self.old }
        ensures keyed { IsKeyed self.new }
        ensures items { pending_in self.new ≡ pending_in self.old }
    {
        let empty = self.slots.empty_at_front();
        if empty >= self.slots.len() / 2 {
            self.slots.drop_front(empty);
        }
    }

    // Makes the slot of this serial if it is before the first one, with those between them. Makes
    // enough of them that putting back one item after another rarely comes here.
    fn widen(&mut self, serial: u64) -> Result<(), NoMemory>
        requires { IsKeyed self.old }
        ensures reached { OnOk result (self.new.slots.base ≤ serial) }
        ensures keyed { IsKeyed self.new }
        ensures items { pending_in self.new ≡ pending_in self.old }
    {
        let base = self.slots.base();
        if base <= serial {
            return Ok(());
        }
        let count = before_first(base - serial, self.slots.len() as u64, base);
        self.slots.add_front(count as usize)
    }
}

// Returns the number of slots to make before the first one, whose serial is `base`: `needed`, or as
// many as there are if that is more, but none before serial 0.
fn before_first(needed: u64, len: u64, base: u64) -> u64
    requires { needed ≤ base }
    ensures enough { needed ≤ result }
    ensures serials { result ≤ base }
{
    let many = if len < base { len } else { base };
    if needed < many { many } else { needed }
}

// Returns the least serial of these items, or the next serial if there are none.
fn first_serial<B>(items: &Vec<Item<B>>, next_serial: u64) -> u64
    ensures below { result ≤ next_serial }
    ensures least { All (λ x. result ≤ x.serial) items.now.items }
{
    let mut least = next_serial;
    for item in items {
        least = least.min(item.serial);
    }
    least
}
