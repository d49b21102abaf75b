//! The calls of a lock: they take the book out and give it back.
ghost use Rattle.std.specs.Prelude.{◌≡◌, ◌+◌, ℕ, true, false, None, [], ◌∷◌, length};
ghost use Rattle.sim_lock.specs.Entries.{of_session, Begins, Grows};
ghost use Rattle.sim_lock.specs.Rule.{session_in, mine_in, seen_in, holds_in, ScenarioIs, took};
ghost use Rattle.sim_lock.specs.Rule.{gave};

use crate::kept::{Freezes, Kept};
use crate::rule::{About, Cut, Fold, Give, RawSeat, Take};
use crate::seat::{Lock, Seat};
use atomic_table::{Refused, Table};
use std::alloc::{AllocError, Global};
use std::snapshot::Snapshot;
use std::sync::Wait;
use std::thread::yield_now;

impl<B: Kept> Lock<B> {
    ghost use Rattle.std.specs.Prelude.{◌++◌, IfOk, IfErr, OnErr};
    ghost use Rattle.sim_lock.specs.Entries.{EndsWith};
    ghost use Rattle.sim_lock.specs.Seats.{IsOf, IsReceipt, session, HasScenario, mine, seen};

    // Waits until the book is at home, and takes it out.
    fn take<R: Wait>(&self, rt: &R, raw: &mut RawSeat<B>, session: u8) -> B
        requires table { raw.old.table_id ≡ self.now.table.shared.table_id }
        requires idle { (length raw.old.me.0 ≡ 1) × (holds_in raw.old.me.0 ≡ false)
            × (raw.old.me.1 ≡ []) }
        requires session { session ≡ session_in raw.old.me.0 }
        ensures table { raw.new.table_id ≡ raw.old.table_id }
        ensures seat { raw.new.me ≡ (took raw.old.me.0 (B.entries result), (0, None) ∷ []) }
        ensures scenario { ScenarioIs (B.scenario result) raw.old.me.0 }
        ensures mine { of_session B.session_of (session_in raw.old.me.0) (B.entries result)
            ≡ mine_in raw.old.me.0 }
        ensures seen { Begins (seen_in raw.old.me.0) (B.entries result) }
    {
        for _ in rt.forever() {
            let found = self
                .table
                .shared
                .compare_exchange::<Take>(raw, 0, 0, u64::from(session) + 1);
            if found == 0 {
                let Some(book) = self.table.shared.exchange(raw, 0, None) else {
                    unreachable!()
                };
                return book;
            }
            yield_now();
        }
        unreachable!()
    }

    // Puts the book back, with the same history or a longer one.
    fn give(&self, raw: &mut RawSeat<B>, book: B)
        requires table { raw.old.table_id ≡ self.now.table.shared.table_id }
        requires out { (length raw.old.me.0 ≡ 1) × (holds_in raw.old.me.0 ≡ true)
            × (raw.old.me.1 ≡ (0, None) ∷ []) }
        requires scenario { ScenarioIs (B.scenario book) raw.old.me.0 }
        requires grows { Grows B.session_of (session_in raw.old.me.0) (seen_in raw.old.me.0)
            (B.entries book) }
        ensures table { raw.new.table_id ≡ raw.old.table_id }
        ensures seat { raw.new.me ≡ (gave B.session_of raw.old.me.0 (B.entries book), []) }
    {
        let nothing = self.table.shared.exchange(raw, 0, Some(book));
        let None = nothing else { unreachable!() };
        self.table.shared.store::<Give>(raw, 0, 0);
    }

    /// Carries out a command in this seat's session, and returns its entry as a receipt. After an
    /// error the session's entries are as before.
    pub fn call<R: Wait>(
        &self,
        rt: &R,
        seat: &mut Seat<B>,
        command: B::Command,
    ) -> Result<B::Entry, B::NotTaken>
        requires { IsOf seat.old self.now }
        ensures seat { IsOf seat.new self.now × (session seat.new ≡ session seat.old) }
        ensures scenario { (c : B.Scenario) → HasScenario seat.old c → HasScenario seat.new c }
        ensures asked { IfOk result (λ e. (B.session_of e ≡ session seat.old)
            × (B.command_of e ≡ command)) }
        ensures number { IfOk result (λ e. B.number_of e ≡ length (mine seat.new)) }
        ensures mine { IfOk result (λ e. mine seat.new ≡ mine seat.old ++ e ∷ []) }
        ensures last { IfOk result (λ e. EndsWith (seen seat.new) e) }
        ensures not_taken { OnErr result (mine seat.new ≡ mine seat.old) }
        ensures tells { IfErr result (λ why. B.tells why (seen seat.new)) }
        ensures seen { Begins (seen seat.old) (seen seat.new) }
        ensures receipt { IfOk result (λ e. IsReceipt seat.new e) }
        ensures receipts { (r : B.Entry) → IsReceipt seat.old r → IsReceipt seat.new r }
    {
        let mut book = self.take(rt, &mut seat.raw, seat.session);
        let answer = book.turn(seat.session, command);
        self.give(&mut seat.raw, book);
        answer
    }
}

impl<B: Freezes> Lock<B> {
    ghost use Rattle.std.specs.Prelude.{◌++◌, IfOk, IfErr, OnErr};
    ghost use Rattle.sim_lock.specs.Entries.{EndsWith};
    ghost use Rattle.sim_lock.specs.Seats.{IsOf, IsReceipt, session, HasScenario, mine, seen};

    /// Freezes a branch in this seat's session. Returns the receipt and the frozen copy.
    pub fn freeze<R: Wait>(
        &self,
        rt: &R,
        seat: &mut Seat<B>,
        branch: u32,
    ) -> Result<(B::Entry, Option<B::Frozen>), B::NotTaken>
        requires { IsOf seat.old self.now }
        ensures seat { IsOf seat.new self.now × (session seat.new ≡ session seat.old) }
        ensures scenario { (c : B.Scenario) → HasScenario seat.old c → HasScenario seat.new c }
        ensures asked { IfOk result (λ r. (B.session_of r.0 ≡ session seat.old)
            × (B.command_of r.0 ≡ B.freezing branch)) }
        ensures number { IfOk result (λ r. B.number_of r.0 ≡ length (mine seat.new)) }
        ensures mine { IfOk result (λ r. mine seat.new ≡ mine seat.old ++ r.0 ∷ []) }
        ensures last { IfOk result (λ r. EndsWith (seen seat.new) r.0) }
        ensures given { IfOk result (λ r. (c : B.Scenario) → HasScenario seat.old c
            → B.gives c r.0 r.1) }
        ensures not_taken { OnErr result (mine seat.new ≡ mine seat.old) }
        ensures tells { IfErr result (λ why. B.tells why (seen seat.new)) }
        ensures seen { Begins (seen seat.old) (seen seat.new) }
        ensures receipt { IfOk result (λ r. IsReceipt seat.new r.0) }
        ensures receipts { (r : B.Entry) → IsReceipt seat.old r → IsReceipt seat.new r }
    {
        let mut book = self.take(rt, &mut seat.raw, seat.session);
        let answer = book.freeze(seat.session, branch);
        self.give(&mut seat.raw, book);
        answer
    }
}

impl<B: Kept> Lock<B> {
    ghost use Rattle.std.specs.Prelude.{◌-◌, ◌<◌};
    ghost use Rattle.sim_lock.specs.Rule.{fresh};
    ghost use Rattle.sim_lock.specs.Seats.{IsNew, sessions_of, told};

    // Cuts the seat of the next session off `rest`.
    fn cut(&self, rest: &mut RawSeat<B>, session: u8) -> Seat<B>
        requires table { rest.old.table_id ≡ self.now.table.shared.table_id }
        requires next { (session < sessions_of self.now)
            × (rest.old.me ≡ (
              fresh (told B.scenario self.now) session (sessions_of self.now - session),
              [],
            )) }
        ensures table { rest.new.table_id ≡ self.now.table.shared.table_id }
        ensures next { rest.new.me ≡ (
          fresh (told B.scenario self.now) (session + 1) (sessions_of self.now - (session + 1)),
          [],
        ) }
        ensures seat { IsNew self.now (told B.scenario self.now) session result }
    {
        let raw = self.table.shared.split_seat::<Cut>(rest);
        Seat { raw, session }
    }
}

impl<B: Kept + Drop> Lock<B> {
    ghost use Rattle.std.specs.Prelude.{◌<◌, IfOk, vec_len};
    ghost use Rattle.sim_lock.specs.Rule.{fresh};
    ghost use Rattle.sim_lock.specs.Seats.{AreNew, sessions_of, told};

    // Makes the lock, and a seat that has the parts of all sessions.
    fn open(alloc: Global, book: B, sessions: u8) -> Result<(Lock<B>, RawSeat<B>), AllocError>
        requires empty { B.entries book ≡ [] }
        requires some { 0 < sessions }
        ensures lock { IfOk result (λ r. (sessions_of r.0 ≡ sessions)
            × (told B.scenario r.0 ≡ B.scenario book)) }
        ensures rest { IfOk result (λ r. (r.1.table_id ≡ r.0.table.shared.table_id)
            × (r.1.me ≡ (fresh (B.scenario book) 0 sessions, []))) }
    {
        let about = About {
            book: Snapshot::of(&book),
            sessions,
        };
        let mut slots = Vec::with_capacity(alloc, 1)?;
        slots.push_reserved(Some(book));
        match Table::new(alloc, &[0], slots, &about) {
            Ok((table, rest)) => Ok((Lock { table, sessions }, rest)),
            Err(Refused { slots: _ }) => Err(AllocError),
        }
    }

    /// Makes a lock around a book with an empty history, and a seat for each session.
    pub fn new(alloc: Global, book: B, sessions: u8) -> Result<(Lock<B>, Vec<Seat<B>>), AllocError>
        requires empty { B.entries book ≡ [] }
        requires some { 0 < sessions }
        ensures lock { IfOk result (λ r. (sessions_of r.0 ≡ sessions)
            × (told B.scenario r.0 ≡ B.scenario book)) }
        ensures count { IfOk result (λ r. vec_len r.1 ≡ sessions) }
        ensures seats { IfOk result (λ r. AreNew r.0 (B.scenario book) r.1.items) }
    {
        let (lock, mut rest) = Lock::open(alloc, book, sessions)?;
        let mut seats = Vec::new(alloc);
        for session in 0..sessions {
            let seat = lock.cut(&mut rest, session);
            seats.push(seat)?;
        }
        Ok((lock, seats))
    }
}

impl<B: Kept> Lock<B> {
    ghost use Rattle.std.specs.Prelude.{◌≢◌, ◌<◌, All, vec_len};
    ghost use Rattle.sim_lock.specs.Entries.{HasEntry};
    ghost use Rattle.sim_lock.specs.Seats.{IsOf, IsReceipt, session, mine, seen, sessions_of, told};
    ghost use Rattle.sim_lock.specs.Seats.{gathered};

    // Joins seats to one that knows what all of them know.
    fn fold(&self, mut seats: Vec<Seat<B>>) -> RawSeat<B>
        requires some { 0 < vec_len seats }
        requires own { All (λ s. IsOf s self.now) seats.items }
        ensures table { result.table_id ≡ self.now.table.shared.table_id }
        ensures parts { result.me ≡ (gathered seats.items, []) }
    {
        let Some(last) = seats.pop() else {
            unreachable!()
        };
        let Seat {
            mut raw,
            session: _,
        } = last;
        while let Some(seat) = seats.pop() {
            let Seat {
                raw: other,
                session: _,
            } = seat;
            self.table.shared.join_seat::<Fold>(&mut raw, other);
        }
        seats.destroy_empty();
        raw
    }

    /// Ends the lock with all its seats, and returns the book.
    pub fn close(self, seats: Vec<Seat<B>>) -> B
        requires all { vec_len seats ≡ sessions_of self }
        requires own { All (λ s. IsOf s self) seats.items }
        ensures scenario { B.scenario result ≡ told B.scenario self }
        ensures mine { All (λ s. of_session B.session_of (session s) (B.entries result) ≡ mine s)
            seats.items }
        ensures seen { All (λ s. Begins (seen s) (B.entries result)) seats.items }
        ensures others { (k : ℕ) → All (λ s. session s ≢ k) seats.items
            → of_session B.session_of k (B.entries result) ≡ [] }
        ensures receipts { All (λ s. (r : B.Entry) → IsReceipt s r
            → HasEntry B.session_of B.number_of (B.entries result) r) seats.items }
    {
        let raw = self.fold(seats);
        let Lock { table, sessions: _ } = self;
        let mut closed = table.close_with(raw);
        let home = closed.take(0);
        let Some(book) = home else { unreachable!() };
        closed.free();
        book
    }
}
