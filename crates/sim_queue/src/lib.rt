//! Pending items: a set of items, each with a due time (ms), a serial and a body.
//!
//! [`Queue::insert`] gives an item the next serial. [`Queue::take_first`] takes the item with the
//! least due and, among equal dues, the least serial. Every change can be undone: `uninsert` undoes
//! an `insert`, and `put_back` a `take` or a `take_first`. Contracts see a list of items in the
//! order of their serials and the next serial (`specs/Pending.antt`).
//!
//! # How it is built
//!
//! - `slots`: an item stays at one place from its insertion until it is taken out. Each serial from
//!   the first one on has a slot of four bytes with the place of its item, so finding an item by
//!   its serial takes two loads. Empty slots at the front are dropped when an insertion would take
//!   more memory and they are at least half of all, rounded down.
//! - `lists`: a place has a node with the due and the serial of its item, which is also the node of
//!   a list. Time is cut into days, and all days that are equal modulo 256 share one of 256 lists,
//!   in the order of (due, serial). A list is a ring through its end, so a key joins or leaves it
//!   by three writes. A new key mostly comes last; otherwise the search for its spot starts at the
//!   end.
//! - `wheel`: the lists and the least due. `marks` has a bit for each list, by which the next due
//!   is found in a few steps. If no key is due within 256 days, the next due is the least of the
//!   lists' first keys.
//! - `taken`: the least serial of an item whose body passes a test. It goes through the lists:
//!   they have the items that exist and nothing else.
//! - `store`: the queue's operations by slots.
//! - `packed`: a packed queue has only its items, in the order of the places that they had.
//!   `placed` gives them places again when it is opened.
//!
//! A day has 2 to the power of its width milliseconds: one for [`Queue::new`]. For
//! [`Queue::with_reach`] 256 days are not shorter than the reach, so that lists stay short. Keys
//! that are due later share the lists; all results are the same at any width.
//!
//! This is a calendar queue (Brown, CACM 1988). A heap, and lists of keys apart from the items with
//! a heap for keys far ahead, were measured too: with delays of up to a second the latter take
//! about twice the instructions.
//!
//! Only `insert`, `put_back`, `copy`, `pack` and `PackedQueue::open` take memory. Taking an item
//! out needs none: its free place leads to the one that was freed before it.
#![tactic(auto)]

mod link;
mod lists;
mod marks;
mod packed;
mod placed;
mod slots;
mod store;
mod taken;
mod wheel;

ghost use Rattle.std.specs.Prelude.{◌≡◌, ℕ, ◌^◌, ◌<◌, ◌≤◌, OnOk, OnErr, IfOk, IfSome, IfNone, Some};
ghost use Rattle.std.specs.Prelude.{length, Bool};
ghost use Rattle.std.specs.Fn.{FnReturnsAt};
ghost use Rattle.std.specs.Option.{option_map};
ghost use Rattle.sim_queue.specs.Items.{item_of};
ghost use Rattle.sim_queue.specs.Pending.{none_pending, IsPending, HasNewest, IsQueue, Decides};
ghost use Rattle.sim_queue.specs.Pending.{first, insert, take, put_back, uninsert, newest};
ghost use Rattle.sim_queue.specs.Pending.{next_taken, with_serial};

pub use packed::PackedQueue;
pub use std::alloc::AllocError as NoMemory;
use std::alloc::Global;
use std::marker::Model;
use store::Store;

/// A pending item: its due (ms), its serial, and its body.
#[derive(Drop)]
pub struct Item<B> {
    pub due: u64,
    pub serial: u64,
    pub body: B,
}

/// The pending items, each with its own serial, and the serial that the next one gets.
#[derive(Drop)]
pub struct Queue<B> {
    store: Store<B>,
}

impl<B> Model for Queue<B> {
    ghost use Rattle.sim_queue.specs.Pending.{Pending};
    ghost use Rattle.sim_queue.specs.inside.Store.{pending_in, IsKeyed};

    ghost Value = { Pending B };

    ghost view = { λ a. pending_in a.store };

    ghost invariant = { λ a. IsKeyed a.store };
}

impl<B> Queue<B> {
    /// Returns a queue with nothing pending, whose next serial is 0.
    pub fn new(alloc: Global) -> Queue<B>
        ensures { result ≡ none_pending }
    {
        Queue {
            store: Store::new(alloc, 0),
        }
    }

    /// Returns an empty queue made for items that are due at most `reach` milliseconds after the
    /// first one. Others may take longer.
    pub fn with_reach(alloc: Global, reach: u64) -> Queue<B>
        ensures { result ≡ none_pending }
    {
        Queue {
            store: Store::new(alloc, width_for(reach)),
        }
    }

    /// States the invariant: its items are listed by rising serials, which differ and are below the
    /// next serial.
    pub fn laws(&self)
        ensures { IsQueue self.now }
    {
        let _store = &self.store;
    }

    /// Adds an item that is due at `due` (ms). Returns its serial, which was the next one.
    ///
    /// The next serial has to be below 2^40. After `NoMemory` the queue is unchanged, and the body
    /// is dropped.
    #[inline(always)]
    pub fn insert(&mut self, due: u64, body: B) -> Result<u64, NoMemory>
    where
        B: Drop,
        requires { self.old.next_serial < 2 ^ 40 }
        ensures serial { IfOk result (λ s. s ≡ self.old.next_serial) }
        ensures ok { OnOk result (self.new ≡ insert due body self.old) }
        ensures back { OnOk result (uninsert self.new ≡ self.old) }
        ensures newest { OnOk result (HasNewest self.new) }
        ensures err { OnErr result (self.new ≡ self.old) }
    {
        self.store.add(due, body)
    }

    /// Returns the due (ms), the serial and the body of the first item: the one with the least due
    /// and, among equal dues, the least serial.
    pub fn first(&self) -> Option<(u64, u64, &B)>
        ensures { option_map (λ r. item_of r.1 (r.0, r.2.now)) result ≡ first self.now.items }
    {
        self.store.first()
    }

    /// Returns the due (ms) and the body of the pending item with this serial.
    pub fn get(&self, serial: u64) -> Option<(u64, &B)>
        ensures { option_map (λ r. item_of serial (r.0, r.1.now)) result
            ≡ with_serial serial self.now.items }
    {
        self.store.get(serial)
    }

    /// Returns the least serial, not below `serial`, of an item whose body passes the test.
    pub fn next_that<F: Fn(&B) -> bool>(&self, serial: u64, test: F) -> Option<u64>
        requires { F.IsAlwaysCallable test }
        ensures { (p : B → Bool) → Decides F.Fn test p → result
            ≡ next_taken serial p self.now.items }
    {
        self.store.next_that(serial, &test)
    }

    /// Returns the serial that the next item gets. It takes no memory.
    pub fn next_serial(&self) -> u64
        ensures { result ≡ self.now.next_serial }
    {
        self.store.next_serial()
    }

    /// Returns the number of pending items.
    pub fn len(&self) -> usize
        ensures count { result ≡ length self.now.items }
        ensures rising { IsQueue self.now }
    {
        self.store.count()
    }

    /// Takes the first item out. `put_back` undoes this. It takes no memory.
    #[inline(always)]
    pub fn take_first(&mut self) -> Option<Item<B>>
        ensures item { result ≡ first self.old.items }
        ensures rest { IfSome result (λ x. self.new ≡ take x.serial self.old) }
        ensures back { IfSome result (λ x. put_back x self.new ≡ self.old) }
        ensures absent { IfSome result (λ x. ¬ (IsPending x.serial self.new)) }
        ensures made { IfSome result (λ x. x.serial < self.new.next_serial) }
        ensures none { IfNone result (self.new ≡ self.old) }
    {
        self.store.remove_first()
    }

    /// Takes out the item of a serial, if it is pending. `put_back` undoes this. It takes no
    /// memory.
    #[inline(always)]
    pub fn take(&mut self, serial: u64) -> Option<Item<B>>
        ensures item { result ≡ with_serial serial self.old.items }
        ensures rest { self.new ≡ take serial self.old }
        ensures back { IfSome result (λ x. put_back x self.new ≡ self.old) }
        ensures absent { IfSome result (λ x. ¬ (IsPending x.serial self.new)) }
        ensures made { IfSome result (λ x. x.serial < self.new.next_serial) }
    {
        self.store.remove(serial)
    }

    /// Puts back an item that was taken. The next serial is unchanged.
    ///
    /// The item's serial must be below the next one, and not pending. After `NoMemory` the queue is
    /// unchanged, and the item is dropped.
    #[inline(always)]
    pub fn put_back(&mut self, item: Item<B>) -> Result<(), NoMemory>
    where
        B: Drop,
        requires made { item.serial < self.old.next_serial }
        requires absent { ¬ (IsPending item.serial self.old) }
        ensures ok { OnOk result (self.new ≡ put_back item self.old) }
        ensures err { OnErr result (self.new ≡ self.old) }
    {
        self.store.add_back(item)
    }

    /// Takes the newest item out, as if it had never been added: the next serial falls by one.
    ///
    /// The item with the serial one below the next must be pending. It takes no memory.
    #[inline(always)]
    pub fn uninsert(&mut self) -> Item<B>
        requires { HasNewest self.old }
        ensures item { newest self.old ≡ Some result }
        ensures rest { self.new ≡ uninsert self.old }
    {
        self.store.remove_last()
    }

    /// Returns a copy. `each` copies a body.
    ///
    /// `each` returns an equal body or `NoMemory`. After `NoMemory` the bodies copied so far are
    /// dropped.
    pub fn copy<F: Fn(&B) -> Result<B, NoMemory>>(
        &self,
        alloc: Global,
        each: F,
    ) -> Result<Queue<B>, NoMemory>
    where
        B: Drop,
        requires callable { F.IsAlwaysCallable each }
        requires equal { (x : B) (r : _) → FnReturnsAt F.Fn each x r → IfOk r (λ y. y ≡ x) }
        ensures { IfOk result (λ q. q ≡ self.now) }
    {
        self.store.pack(alloc, &each)?.open(alloc, each)
    }

    /// Returns a packed copy. `each` copies a body.
    ///
    /// `each` returns an equal body or `NoMemory`. After `NoMemory` the bodies copied so far are
    /// dropped.
    pub fn pack<F: Fn(&B) -> Result<B, NoMemory>>(
        &self,
        alloc: Global,
        each: F,
    ) -> Result<PackedQueue<B>, NoMemory>
    where
        B: Drop,
        requires callable { F.IsAlwaysCallable each }
        requires equal { (x : B) (r : _) → FnReturnsAt F.Fn each x r → IfOk r (λ y. y ≡ x) }
        ensures { IfOk result (λ p. p ≡ self.now) }
    {
        self.store.pack(alloc, &each)
    }
}

// Returns a width of a day with which 256 days are not shorter than `reach` (ms): the day has 2 to
// the power of it milliseconds.
fn width_for(reach: u64) -> u32
    ensures { result ≤ 56 }
{
    let beyond = reach.saturating_sub(1) / 256;
    (64 - beyond.leading_zeros()).min(56)
}
