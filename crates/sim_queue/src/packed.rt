//! Packed queues.
ghost use Rattle.std.specs.Prelude.{◌≡◌, ◌≤◌, ◌^◌, IfOk};
ghost use Rattle.std.specs.Fn.{FnReturnsAt};
ghost use Rattle.sim_queue.specs.Packed.{packed, IsPacked};

use crate::store::Store;
use crate::{Item, NoMemory, Queue};
use std::alloc::Global;
use std::marker::Model;

/// A queue in less memory: its items, without their keys and places. Contracts see the queue.
#[derive(Drop)]
pub struct PackedQueue<B> {
    // The items, in the order of the places that they had; any order is right.
    items: Vec<Item<B>>,
    next_serial: u64,
    // The width of a day.
    width: u32,
}

impl<B> Model for PackedQueue<B> {
    ghost use Rattle.sim_queue.specs.Pending.{Pending};
    ghost use Rattle.sim_queue.specs.Packed.{packed, IsPacked};

    ghost Value = { Pending B };

    ghost view = { λ p. packed p.items.items p.next_serial };

    ghost invariant = { λ p. IsPacked p.items.items p.next_serial p.width };
}

impl<B> PackedQueue<B> {
    // Returns the packed queue of these items.
    pub(crate) fn of(items: Vec<Item<B>>, next_serial: u64, width: u32) -> PackedQueue<B>
        requires { IsPacked items.items next_serial width }
        ensures { result ≡ packed items.items next_serial }
    {
        PackedQueue {
            items,
            next_serial,
            width,
        }
    }

    /// Returns an equal queue. `each` copies a body.
    ///
    /// `each` must return an equal body or `NoMemory`. After `NoMemory` the bodies copied so far
    /// are dropped.
    pub fn open<F: Fn(&B) -> Result<B, NoMemory>>(
        &self,
        alloc: Global,
        each: F,
    ) -> Result<Queue<B>, NoMemory>
    where
        B: Drop,
        requires callable { F.IsAlwaysCallable each }
        requires equal { (x : B) (r : _) → FnReturnsAt F.Fn each x r → IfOk r (λ y. y ≡ x) }
        ensures { IfOk result (λ q. q ≡ self.now) }
    {
        Ok(Queue {
            store: Store::of(alloc, &self.items, self.next_serial, self.width, &each)?,
        })
    }
}
