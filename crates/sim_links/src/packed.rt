//! Packed links, as in a checkpoint.
ghost use Rattle.std.specs.Prelude.{◌≡◌, ◌<◌, slice_index_or, slice_set, IfOk, OnOk};
ghost use Rattle.std.specs.Fn.{FnReturnsAt};
ghost use Rattle.sim_links.specs.Link.{open_link};

use crate::NoMemory;
use crate::direction::{Direction, copied};
use crate::kept::Kept;
use crate::links::Links;
use crate::table::Table;
use std::alloc::Global;
use std::marker::Model;

/// Links in less memory: only the directions that are not open. Contracts see the links.
#[derive(Drop)]
pub struct PackedLinks<M> {
    kept: Vec<Kept<M>>,
}

impl<M> Model for PackedLinks<M> {
    ghost use Rattle.sim_links.specs.Link.{Links};
    ghost use Rattle.sim_links.specs.Places.{links_of};

    ghost Value = { Links M };

    ghost view = { λ p. links_of p.kept.items };
}

impl<M> Links<M> {
    /// Returns a packed copy. `each` copies a message; if it fails, so does the call.
    pub fn pack<F: Fn(&M) -> Result<M, NoMemory>>(
        &self,
        alloc: Global,
        each: F,
    ) -> Result<PackedLinks<M>, NoMemory>
    where
        M: Drop,
        requires callable { F.IsAlwaysCallable each }
        requires equal { (m : M) (r : _) → FnReturnsAt F.Fn each m r → IfOk r (λ copy. copy ≡ m) }
        ensures { IfOk result (λ packed. packed ≡ self.now) }
    {
        let count = self.table.count();
        let mut packed = PackedLinks {
            kept: Vec::with_capacity(alloc, count)?,
        };
        for place in 0..self.table.past {
            let direction = self.table.direction(place as usize);
            packed.keep(alloc, place, direction, &each)?;
        }
        Ok(packed)
    }
}

impl<M> PackedLinks<M> {
    // Stores a copy of a direction, unless it is open, at a place that was open.
    fn keep<F: Fn(&M) -> Result<M, NoMemory>>(
        &mut self,
        alloc: Global,
        place: u16,
        direction: &Direction<M>,
        each: &F,
    ) -> Result<(), NoMemory>
    where
        M: Drop,
        requires within { place < 1024 }
        requires open { slice_index_or self.old place open_link ≡ open_link }
        requires callable { F.IsAlwaysCallable each.now }
        requires equal { (m : M) (r : _) → FnReturnsAt F.Fn each.now m r
            → IfOk r (λ copy. copy ≡ m) }
        ensures { OnOk result (self.new ≡ slice_set self.old place direction.now) }
    {
        if direction.is_open() {
            return Ok(());
        }
        // The direction is made where it is stored: a whole one would be moved with its padding.
        let state = direction.state();
        let held = copied(alloc, direction.messages(), each)?;
        self.kept.push(Kept {
            place,
            direction: Direction::of(state, held),
        })?;
        Ok(())
    }

    /// Returns the links again, ready for use. `each` copies a message; if it fails, so does the
    /// call.
    pub fn open<F: Fn(&M) -> Result<M, NoMemory>>(
        &self,
        alloc: Global,
        each: F,
    ) -> Result<Links<M>, NoMemory>
    where
        M: Drop,
        requires callable { F.IsAlwaysCallable each }
        requires equal { (m : M) (r : _) → FnReturnsAt F.Fn each m r → IfOk r (λ copy. copy ≡ m) }
        ensures { IfOk result (λ links. links ≡ self.now) }
    {
        let mut table = Table::new(alloc)?;
        for kept in &self.kept {
            let copy = kept.direction.copy(alloc, &each)?;
            table.put(kept.place as usize, copy);
        }
        Ok(Links { table })
    }
}
