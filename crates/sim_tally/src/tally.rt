ghost use Rattle.std.specs.Prelude.{◌≡◌};
ghost use Rattle.std.specs.Borrow.{ftrue};
ghost use Rattle.sim_node.specs.Work.{Work};
ghost use Rattle.sim_tally.specs.Tally.{work_code, counted};

use sim_node::Meter;
use std::marker::Model;

/// A meter of which a program can make new ones.
///
/// Code of a program that runs nodes of any type asks for this trait and names no meter: its bound
/// is `N: Node<Meter: FreshMeter>`, and it makes a meter by `N::Meter::fresh()`. With the bound
/// `Meter = Tally` the compiler would make the code of worlds and tapes again for each crate.
///
/// The trait does not ask for `Send`. Code that gives meters to the threads of workers asks for it
/// itself, by `Meter: FreshMeter + Send`.
pub trait FreshMeter: Meter {
    /// Returns a meter that has counted nothing.
    fn fresh() -> Self
        ensures { Self.work result ≡ record { turns = 0; copies = 0; undos = 0 } };
}

/// A meter of size 0: it counts the calls of nodes without limit for contracts, and does nothing at
/// run time.
#[derive(Drop)]
pub struct Tally {
    pub ghost work: { Work } by { work_code },
}

impl Model for Tally {
    ghost also_owns = { λ _. ftrue };
}

/// A call that a meter counts.
#[derive(Clone, Copy)]
enum Call {
    Turn,
    Copy,
    Undo,
}

impl Tally {
    /// Makes a meter that has counted nothing.
    pub fn new() -> Tally
        ensures { result.work ≡ record { turns = 0; copies = 0; undos = 0 } }
    {
        Tally {}
    }

    // Returns the meter after one more call.
    fn counted(&self, _call: &Call) -> Tally
        ensures { result.work ≡ counted _call.now self.now.work }
    {
        Tally {}
    }
}

impl Meter for Tally {
    ghost work = { λ tally. tally.work };

    fn turn(&mut self) {
        *self = self.counted(&Call::Turn);
    }

    fn copied(&mut self) {
        *self = self.counted(&Call::Copy);
    }

    fn undone(&mut self) {
        *self = self.counted(&Call::Undo);
    }
}

impl FreshMeter for Tally {
    fn fresh() -> Tally {
        Tally::new()
    }
}
