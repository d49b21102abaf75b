//! A table of directions. It stores only the directions that were ever changed, so a copy and a
//! drop cost what those cost.
ghost use Rattle.std.specs.Prelude.{◌≡◌, ◌<◌, slice_index_or, slice_set, IfOk};
ghost use Rattle.std.specs.Fn.{FnReturnsAt};
ghost use Rattle.sim_links.specs.Link.{all_open, open_link};
ghost use Rattle.sim_links.specs.Table.{links_in, slot_at, IsSound};

use crate::NoMemory;
use crate::direction::Direction;
use std::alloc::Global;

/// The directions by their slots. It has no invariant: each call states what it requires and
/// ensures.
#[derive(Drop)]
pub(crate) struct Table<M> {
    // The slot of each direction: 0 if it was never changed.
    pub(crate) slots: Vec<u16>,
    // An open direction that stands for all others, and then the touched ones in the order in which
    // they were first touched. No two share a slot. There is room for all 1,024 from the start, so
    // that a touch takes no memory.
    pub(crate) touched: Vec<Direction<M>>,
    // No direction from this place on was ever touched.
    pub(crate) past: u16,
}

// Room for the open direction that stands for all others, and for each direction between 32 hosts.
const SLOTS: usize = 1025;

impl<M> Table<M> {
    /// Returns a table of open directions that hold nothing.
    pub(crate) fn new(alloc: Global) -> Result<Table<M>, NoMemory>
    where
        M: Drop,
        ensures links { IfOk result (λ table. links_in table ≡ all_open) }
        ensures sound { IfOk result IsSound }
    {
        let slots = Vec::from_slice(alloc, &[0; 1024])?;
        let mut touched = Vec::with_capacity(alloc, SLOTS)?;
        touched.push_reserved(Direction::open(alloc));
        Ok(Table {
            slots,
            touched,
            past: 0,
        })
    }

    /// Returns the direction at a place.
    pub(crate) fn direction(&self, place: usize) -> &Direction<M>
        requires sound { IsSound self.now }
        requires within { place < 1024 }
        ensures { result.now ≡ slice_index_or (links_in self.now) place open_link }
    {
        &self.touched[self.slots[place] as usize]
    }

    /// Returns the slot of the direction at a place. Gives it its own slot first if it has none.
    pub(crate) fn touch(&mut self, place: usize) -> usize
        requires sound { IsSound self.old }
        requires within { place < 1024 }
        ensures slot { result ≡ slot_at place self.new }
        ensures own { 0 < result }
        ensures links { links_in self.new ≡ links_in self.old }
        ensures sound { IsSound self.new }
    {
        let slot = self.slots[place] as usize;
        if slot > 0 {
            return slot;
        }
        let alloc = *self.touched.allocator();
        let free = self.touched.len();
        self.touched.push_reserved(Direction::open(alloc));
        self.slots[place] = free as u16;
        self.past = self.past.max(place as u16 + 1);
        free
    }

    /// Sets the direction at a place.
    pub(crate) fn put(&mut self, place: usize, direction: Direction<M>)
    where
        M: Drop,
        requires sound { IsSound self.old }
        requires within { place < 1024 }
        ensures links { links_in self.new ≡ slice_set (links_in self.old) place direction }
        ensures sound { IsSound self.new }
    {
        let slot = self.touch(place);
        self.touched[slot] = direction;
    }

    /// Returns the number of directions that are not open. It is only used as a capacity, so it has
    /// no contract.
    pub(crate) fn count(&self) -> usize {
        self.touched
            .iter()
            .filter(|direction| !direction.is_open())
            .count()
    }

    /// Returns an equal table.
    pub(crate) fn copy<F: Fn(&M) -> Result<M, NoMemory>>(
        &self,
        alloc: Global,
        each: &F,
    ) -> Result<Table<M>, NoMemory>
    where
        M: Drop,
        requires sound { IsSound self.now }
        requires callable { F.IsAlwaysCallable each.now }
        requires equal { (m : M) (r : _) → FnReturnsAt F.Fn each.now m r
            → IfOk r (λ copy. copy ≡ m) }
        ensures links { IfOk result (λ table. links_in table ≡ links_in self.now) }
        ensures sound { IfOk result IsSound }
    {
        let slots = Vec::from_slice(alloc, self.slots.as_slice())?;
        let mut touched = Vec::with_capacity(alloc, SLOTS)?;
        for direction in &self.touched {
            let copy = direction.copy(alloc, each)?;
            touched.push_reserved(copy);
        }
        Ok(Table {
            slots,
            touched,
            past: self.past,
        })
    }
}
