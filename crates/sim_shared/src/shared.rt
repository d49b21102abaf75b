//! The shared book, and the sessions' calls.
ghost use Rattle.std.specs.Prelude.{◌≡◌, ◌≢◌, ℕ, ◌+◌, ◌<◌, ◌≤◌, List, [], ◌∷◌, ◌++◌, length, All};
ghost use Rattle.std.specs.Prelude.{IfOk, IfErr, OnErr, vec_len};
ghost use Rattle.sim_world.specs.Events.{rules};
ghost use Rattle.sim_events.specs.Scenario.{Scenario as ScenarioValue};
ghost use Rattle.sim_book.specs.Freezing.{GivesFrozen};
ghost use Rattle.sim_book.specs.declared.Entry.{Entry};
ghost use Rattle.sim_book.specs.History.{of_session};
ghost use Rattle.sim_lock.specs.Entries.{Begins, EndsWith, HasEntry};
ghost use Rattle.sim_lock.specs.Seats.{IsReceipt, session, HasScenario, mine, seen};
ghost use Rattle.sim_shared.specs.Full.{TellsFull};
ghost use Rattle.sim_shared.specs.Sharing.{IsLegalHistory, IsAt, AreNew};

use crate::held::Held;
use sim_book::{Book, Command, Entry, NotTaken};
use sim_lock::Lock;
use sim_node::{NoMemory, Node};
use sim_tape::Frozen;
use std::alloc::Global;
use std::marker::Model;
use std::sync::Wait;

/// What a session gets for a command that was taken: a copy of its entry.
pub type Receipt = Entry;

/// One session's place at a shared book.
pub type Seat<N: Node> = sim_lock::Seat<Held<N>>;

/// The entries of all sessions, after all ended.
pub type History<N: Node> = sim_lock::History<Held<N>>;

/// A book that sessions share.
#[derive(Drop)]
pub struct Shared<N: Node> {
    lock: Lock<Held<N>>,
}

impl<N: Node> Model for Shared<N> {
    ghost use Rattle.sim_lock.specs.Seats.{sessions_of, told};
    ghost use Rattle.sim_shared.specs.Sharing.{Shared as SharedValue};

    ghost Value = { SharedValue };

    ghost view = { λ s. record {
      id = s.lock.table.shared.table_id;
      sessions = sessions_of s.lock;
      scenario = told (λ h. h.book.scenario) s.lock;
    } };
}

impl<N: Node> Shared<N> {
    /// Shares a book with an empty history, and makes a seat for each of 1 to 8 sessions, from
    /// session 0 on. Fails only for want of memory; nothing is left then.
    pub fn new(
        alloc: Global,
        book: Book<N>,
        sessions: u8,
    ) -> Result<(Shared<N>, Vec<Seat<N>>), NoMemory>
        requires empty { book.history ≡ [] }
        requires least { 1 ≤ sessions }
        requires most { sessions ≤ 8 }
        ensures shared { IfOk result (λ r. (r.0.sessions ≡ sessions)
            × (r.0.scenario ≡ book.scenario)) }
        ensures count { IfOk result (λ r. vec_len r.1 ≡ sessions) }
        ensures seats { IfOk result (λ r. AreNew r.0 r.1.items) }
    {
        let (lock, seats) = Lock::new(alloc, Held { book, alloc }, sessions)?;
        Ok((Shared { lock }, seats))
    }

    /// Carries out a command in this seat's session, and returns the receipt. After an error the
    /// session's entries are as before; it is `HistoryFull` exactly if the history has 65,536
    /// entries.
    pub fn call<R: Wait>(
        &self,
        rt: &R,
        seat: &mut Seat<N>,
        command: Command,
    ) -> Result<Receipt, NotTaken>
        requires { IsAt self.now seat.old }
        ensures seat { IsAt self.now seat.new × (session seat.new ≡ session seat.old) }
        ensures scenario { (c : ScenarioValue) → HasScenario seat.old c → HasScenario seat.new c }
        ensures asked { IfOk result (λ e. (e.session ≡ session seat.old) × (e.command ≡ command)) }
        ensures number { IfOk result (λ e. e.number ≡ length (mine seat.new)) }
        ensures mine { IfOk result (λ e. mine seat.new ≡ mine seat.old ++ e ∷ []) }
        ensures last { IfOk result (λ e. EndsWith (seen seat.new) e) }
        ensures not_taken { OnErr result (mine seat.new ≡ mine seat.old) }
        ensures full { IfErr result (λ why. TellsFull why (seen seat.new)) }
        ensures seen { Begins (seen seat.old) (seen seat.new) }
        ensures receipt { IfOk result (λ e. IsReceipt seat.new e) }
        ensures receipts { (e : Entry) → IsReceipt seat.old e → IsReceipt seat.new e }
    {
        self.lock.call(rt, seat, command)
    }

    /// Freezes a branch in this seat's session. Returns the receipt, and the frozen run exactly if
    /// the reply is the list of its events. Errors are those of `call`.
    pub fn freeze<R: Wait>(
        &self,
        rt: &R,
        seat: &mut Seat<N>,
        branch: u32,
    ) -> Result<(Receipt, Option<Frozen<N>>), NotTaken>
        requires { IsAt self.now seat.old }
        ensures seat { IsAt self.now seat.new × (session seat.new ≡ session seat.old) }
        ensures scenario { (c : ScenarioValue) → HasScenario seat.old c → HasScenario seat.new c }
        ensures asked { IfOk result (λ r. (r.0.session ≡ session seat.old)
            × (r.0.command ≡ Command.Freeze branch)) }
        ensures number { IfOk result (λ r. r.0.number ≡ length (mine seat.new)) }
        ensures mine { IfOk result (λ r. mine seat.new ≡ mine seat.old ++ r.0 ∷ []) }
        ensures last { IfOk result (λ r. EndsWith (seen seat.new) r.0) }
        ensures frozen { IfOk result (λ r. (c : ScenarioValue) → HasScenario seat.old c
            → GivesFrozen c r.0.reply r.1) }
        ensures not_taken { OnErr result (mine seat.new ≡ mine seat.old) }
        ensures full { IfErr result (λ why. TellsFull why (seen seat.new)) }
        ensures seen { Begins (seen seat.old) (seen seat.new) }
        ensures receipt { IfOk result (λ r. IsReceipt seat.new r.0) }
        ensures receipts { (e : Entry) → IsReceipt seat.old e → IsReceipt seat.new e }
    {
        self.lock.freeze(rt, seat, branch)
    }

    /// Ends the sharing with all its seats, and returns the history. Takes no memory.
    pub fn close(self, seats: Vec<Seat<N>>) -> History<N>
        requires all { vec_len seats ≡ self.sessions }
        requires own { All (IsAt self) seats.items }
        ensures legal { IsLegalHistory (rules N.laws N.PROBES self.scenario) result.entries.items }
        ensures mine { All (λ s. of_session (session s) result.entries.items ≡ mine s) seats.items }
        ensures others { (k : ℕ) → All (λ s. session s ≢ k) seats.items
            → of_session k result.entries.items ≡ [] }
        ensures seen { All (λ s. Begins (seen s) result.entries.items) seats.items }
        ensures receipts { All (λ s. (e : Entry) → IsReceipt s e
            → HasEntry (λ x. x.session) (λ x. x.number) result.entries.items e) seats.items }
    {
        let Shared { lock } = self;
        let Held { book, alloc: _ } = lock.close(seats);
        History {
            entries: book.into_entries(),
        }
    }
}
