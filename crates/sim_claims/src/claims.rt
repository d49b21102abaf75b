//! The word from which workers draw numbers.
ghost use Rattle.std.specs.Prelude.{ℕ, ◌≡◌, ◌+◌, ◌-◌, ◌^◌, ◌<◌, ◌≤◌, [], ◌∷◌, ◌++◌, length, IfOk};
ghost use Rattle.sim_claims.specs.Claims.{hand, past, times, once_below};

use crate::hand::{Apart, Claim, Hand, Law, Limits, Together};
use atomic_table::{Seat, Table};
use std::alloc::{AllocError, Global};

/// A shared word: the number of the next piece.
#[derive(Drop)]
pub(crate) struct Claims {
    table: Table<(), Hand, Limits, Law, Global>,
    pieces: u64,
    ghost sized: { (table.shared.table_id.words ≡ 1) × (table.shared.table_id.slots ≡ 0) },
    ghost known: { (pieces ≡ table.shared.key.pieces) × (pieces + 1 < 2 ^ 64) },
}

/// A worker's right to claim, and the numbers it drew.
pub(crate) type Worker = Seat<(), Hand>;

impl Claims {
    /// Makes the claims, and one worker that has the parts of all workers.
    pub(crate) fn new(
        alloc: Global,
        pieces: u64,
        workers: u64,
    ) -> Result<(Claims, Worker), AllocError>
        requires { (pieces + workers < 2 ^ 64) × (0 < workers) }
        ensures limits { IfOk result (λ r. (r.0.table.shared.key.pieces ≡ pieces)
            × (r.0.table.shared.key.workers ≡ workers)) }
        ensures worker { IfOk result (λ r. (r.1.table_id ≡ r.0.table.shared.table_id)
            × (r.1.me ≡ (hand workers [], []))) }
    {
        let limits = Limits { pieces, workers };
        let (table, worker) = Table::of_words(alloc, &[0], &limits)?;
        Ok((Claims { table, pieces }, worker))
    }

    /// Returns the number of pieces.
    pub(crate) fn count(&self) -> u64
        ensures { (result ≡ self.now.table.shared.key.pieces) × (result + 1 < 2 ^ 64) }
    {
        self.pieces
    }

    /// Draws the next number. No other claim returns the same.
    pub(crate) fn claim(&self, worker: &mut Worker) -> u64
        requires of { worker.old.table_id ≡ self.now.table.shared.table_id }
        requires turn { past self.now.table.shared.key.pieces worker.old.me.0.drawn
            < worker.old.me.0.parts }
        ensures of { worker.new.table_id ≡ self.now.table.shared.table_id }
        ensures drawn { worker.new.me ≡ (
          hand worker.old.me.0.parts (worker.old.me.0.drawn ++ result ∷ []),
          worker.old.me.1,
        ) }
        ensures later { length worker.old.me.0.drawn ≤ result }
    {
        self.table.shared.fetch_add::<Claim>(worker, 0, 1)
    }

    /// Splits one worker off `worker`.
    pub(crate) fn apart(&self, worker: &mut Worker) -> Worker
        requires of { worker.old.table_id ≡ self.now.table.shared.table_id }
        requires parts { 1 < worker.old.me.0.parts }
        requires few { past self.now.table.shared.key.pieces worker.old.me.0.drawn
            ≤ worker.old.me.0.parts - 1 }
        ensures of { (worker.new.table_id ≡ self.now.table.shared.table_id)
            × (result.table_id ≡ self.now.table.shared.table_id) }
        ensures rest { worker.new.me ≡ (
          hand (worker.old.me.0.parts - 1) worker.old.me.0.drawn,
          worker.old.me.1,
        ) }
        ensures one { result.me ≡ (hand 1 [], []) }
    {
        self.table.shared.split_seat::<Apart>(worker)
    }

    /// Joins another worker to `worker`, with the numbers it drew.
    pub(crate) fn together(&self, worker: &mut Worker, other: Worker)
        requires of { (worker.old.table_id ≡ self.now.table.shared.table_id)
            × (other.table_id ≡ self.now.table.shared.table_id) }
        requires bare { other.me.1 ≡ [] }
        ensures of { worker.new.table_id ≡ self.now.table.shared.table_id }
        ensures both { worker.new.me ≡ (
          hand (worker.old.me.0.parts + other.me.0.parts)
              (worker.old.me.0.drawn ++ other.me.0.drawn),
          worker.old.me.1,
        ) }
    {
        self.table.shared.join_seat::<Together>(worker, other);
    }

    /// Ends the claims. The numbers drawn by then are all numbers below some bound, each once.
    pub(crate) fn close(self, worker: Worker)
        requires of { worker.table_id ≡ self.table.shared.table_id }
        requires all { worker.me.0.parts ≡ self.table.shared.key.workers }
        ensures { (n : ℕ) × ((x : ℕ) → times x worker.me.0.drawn ≡ once_below x n) }
    {
        let Claims { table, pieces: _ } = self;
        let closed = table.close_with(worker);
        closed.free();
    }
}
