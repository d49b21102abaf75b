ghost use Rattle.std.specs.Prelude.{◌≡◌, ◌<◌};
ghost use Rattle.sim_links.specs.Ways as ways;

use crate::Way;
use std::marker::Model;

/// How messages cross each open direction: a fixed table of 32 by 32 ways, in place.
#[derive(Drop)]
pub struct Ways {
    table: [Way; 1024],
}

impl Model for Ways {
    ghost use Rattle.std.specs.Prelude.{List};
    ghost use Rattle.sim_links.specs.declared.Way.{Way};

    ghost Value = { List Way };

    ghost view = { λ w. w.table };
}

impl Ways {
    /// Returns the same way for each direction.
    pub fn all(way: Way) -> Ways
        ensures { result ≡ ways.all way }
    {
        Ways { table: [way; 1024] }
    }

    /// Sets the way from host a to host b, both below 32; the others stay.
    pub fn set(&mut self, a: u16, b: u16, way: Way)
        requires from { a < 32 }
        requires to { b < 32 }
        ensures { self.new ≡ ways.with_way a b way self.old }
    {
        self.table[32 * a as usize + b as usize] = way;
    }

    /// Returns the way from host a to host b, both below 32.
    pub fn way(&self, a: u16, b: u16) -> Way
        requires from { a < 32 }
        requires to { b < 32 }
        ensures { result ≡ ways.way a b self.now }
    {
        self.table[32 * a as usize + b as usize]
    }

    /// Returns an equal table.
    pub fn copy(&self) -> Ways
        ensures { result ≡ self.now }
    {
        Ways { table: self.table }
    }
}
