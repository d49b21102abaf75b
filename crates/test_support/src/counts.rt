use sim_node::Meter;
use sim_tally::Tally;

/// A meter that counts in numbers: without limit for contracts, and at run time up to the greatest
/// number.
#[derive(Drop)]
pub struct Counts {
    tally: Tally,
    turns: u64,
    copies: u64,
    undos: u64,
}

impl Counts {
    /// Makes a meter that has counted nothing.
    pub fn new() -> Counts {
        Counts {
            tally: Tally::new(),
            turns: 0,
            copies: 0,
            undos: 0,
        }
    }

    /// Returns the turns, the copies and the undos.
    pub fn counted(&self) -> (u64, u64, u64) {
        (self.turns, self.copies, self.undos)
    }

    /// Returns the counts since a time at which they were `before`.
    pub fn since(&self, before: (u64, u64, u64)) -> (u64, u64, u64) {
        (
            self.turns.saturating_sub(before.0),
            self.copies.saturating_sub(before.1),
            self.undos.saturating_sub(before.2),
        )
    }
}

impl Meter for Counts {
    ghost work = { λ counts. counts.tally.work };

    fn turn(&mut self) {
        self.tally.turn();
        self.turns = self.turns.saturating_add(1);
    }

    fn copied(&mut self) {
        self.tally.copied();
        self.copies = self.copies.saturating_add(1);
    }

    fn undone(&mut self) {
        self.tally.undone();
        self.undos = self.undos.saturating_add(1);
    }
}
