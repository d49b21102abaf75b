ghost use Rattle.std.specs.Prelude.{◌≡◌, ℕ, ◌+◌, ◌<◌, ◌≤◌, ◌↔◌, ◌∷◌, [], ◌++◌};
ghost use Rattle.std.specs.Prelude.{List, length, slice_index_or, replicate, true, false, IfOk};
ghost use Rattle.std.specs.Prelude.{OnOk, OnErr, IfErr, OnSome, IfSome, IsSome, None, IsTrue};
ghost use Rattle.std.specs.Prelude.{is_some};
ghost use Rattle.sim_world.specs.Events.{rules};
ghost use Rattle.sim_book.specs.Kept.{all_shown, first_kept, Kept as KeptValue};
ghost use Rattle.sim_book.specs.History.{IsLegal};
ghost use Rattle.sim_book.specs.Book.{branch};
ghost use Rattle.sim_book.specs.Headline.{is_warm, AreOf, AreBranches, HasWorlds, HasStepWorlds};
ghost use Rattle.sim_book.specs.Headline.{IsWorldOf, BackAfterEvent, ForwardAfterBack};
ghost use Rattle.sim_book.specs.BookOf.{Turned};
ghost use Rattle.sim_tape.specs.Works.{Opens};
ghost use Rattle.sim_book.specs.Freezing.{GivesFrozen, GivesMade, IsWhole};

use crate::carry::carry_out;
use crate::copies::twin;
use crate::kept::Kept;
use crate::{Command, Entry, MAX_ENTRIES, MAX_WATCHES, NotTaken, Reply};
use sim_node::{NoMemory, Node};
use sim_tape::{Frozen, Tape};
use sim_world::{Scenario, World};
use std::alloc::Global;
use std::marker::Model;

/// Branches of one run, with the history of the commands that made them.
pub struct Book<N: Node> {
    scenario: Scenario,
    branches: Vec<Kept<N>>,
    history: Vec<Entry>,
    numbers: [u32; 256],
    meter: N::Meter,
}

// Not derived: a crate that drops a book would prove the drop of each of its parts again.
impl<N: Node> Drop for Book<N> {
    fn drop(self) {
        let Book {
            scenario: _scenario,
            branches: _branches,
            history: _history,
            numbers: _numbers,
            meter: _meter,
        } = self;
    }
}

impl<N: Node> Model for Book<N> {
    ghost use Rattle.sim_world.specs.Events.{rules};
    ghost use Rattle.sim_book.specs.Kept.{BookView, view_of};
    ghost use Rattle.sim_book.specs.BookOf.{IsBook};

    ghost Value = { BookView };

    ghost view = { λ b.
        view_of b.scenario b.branches.items b.history.items (N.Meter.work b.meter) };

    ghost invariant = { λ b. IsBook (rules N.laws N.PROBES b.scenario)
        b.scenario b.branches.items b.history.items b.numbers };
}

// Returns the branches of a new book: one branch without events.
fn opening<N: Node>(
    alloc: Global,
    scenario: &Scenario,
    meter: &mut N::Meter,
) -> Result<Vec<Kept<N>>, NoMemory>
    ensures branches { IfOk result (λ branches. branches.items ≡ first_kept scenario.now ∷ []) }
    ensures work { OnOk result (Opens N.laws N.PROBES scenario.now
        (N.Meter.work meter.old) (N.Meter.work meter.new)) }
{
    let tape = Tape::new(alloc, scenario, meter)?;
    let mut branches = Vec::new(alloc);
    branches.push(Kept {
        tape,
        watches: [None, None, None, None, None, None, None, None],
    })?;
    Ok(branches)
}

// Returns the number of entries of each session: 0.
fn no_entries() -> [u32; 256]
    ensures { result ≡ replicate 256 0 }
{
    [0; 256]
}

// Returns `made` if the reply is a list of events, else `None`.
fn where_frozen<N: Node>(reply: &Reply, made: Option<Frozen<N>>) -> Option<Frozen<N>>
    ensures { GivesMade made reply.now result }
{
    match reply {
        Reply::Frozen(_) => made,
        _ => None,
    }
}

impl<N: Node> Book<N> {
    /// Returns a book of one branch without events. Fails only for want of memory.
    pub fn new(alloc: Global, scenario: &Scenario, mut meter: N::Meter) -> Result<Book<N>, NoMemory>
        ensures scenario { IfOk result (λ b. b.scenario ≡ scenario.now) }
        ensures history { IfOk result (λ b. b.history ≡ []) }
        ensures branches { IfOk result (λ b. b.kept ≡ first_kept scenario.now ∷ []) }
        ensures work { IfOk result (λ b.
            Opens N.laws N.PROBES scenario.now (N.Meter.work meter) b.work) }
    {
        let branches = opening(alloc, scenario, &mut meter)?;
        let history = Vec::new(alloc);
        let numbers = no_entries();
        Ok(Book {
            scenario: scenario.copy(),
            branches,
            history,
            numbers,
            meter,
        })
    }

    /// Carries out a session's command. Returns the entry, with the reply; the history keeps an
    /// equal one at its end. After an error the book is unchanged.
    pub fn turn(&mut self, alloc: Global, session: u8, command: Command) -> Result<Entry, NotTaken>
        ensures turned { IfOk result (λ e.
            Turned N.laws N.PROBES session command self.old e self.new) }
        ensures not_taken { OnErr result (self.new ≡ self.old) }
        ensures full { IfErr result (λ why.
            (why ≡ NotTaken.HistoryFull) ↔ (65536 ≤ length self.old.history)) }
    {
        if MAX_ENTRIES <= self.history.len() {
            return Err(NotTaken::HistoryFull);
        }
        match self.history.reserve(1) {
            Err(_) => return Err(NotTaken::NoMemory),
            Ok(()) => {}
        }
        let Ok(again) = command.copy() else {
            return Err(NotTaken::NoMemory);
        };
        let branches = &mut self.branches;
        let reply = carry_out(alloc, &self.scenario, branches, &mut self.meter, &command);
        let (reply, told) = twin(reply);
        let number = self.numbers[session as usize] + 1;
        self.numbers[session as usize] = number;
        self.history.push_reserved(Entry {
            session,
            number,
            command,
            reply,
        });
        Ok(Entry {
            session,
            number,
            command: again,
            reply: told,
        })
    }

    /// Returns the world of a branch at its place: the run of the branch's kept events from the
    /// start up to that place, however the place was reached. Returns `None` if there is no such
    /// branch or its tape is cold. Allocates nothing.
    pub fn here(&self, b: u32) -> Option<&World<N>>
        ensures headline { IfSome result (λ w.
            IsWorldOf (rules N.laws N.PROBES self.now.scenario) (branch b (all_shown self.now.kept))
            w.now.world) }
        ensures age { IfSome result (λ w.
            w.now.age ≡ (branch b (all_shown self.now.kept)).place) }
        ensures scenario { IfSome result (λ w. w.now.scenario ≡ self.now.scenario) }
        ensures there { IsSome result ↔ IsTrue (is_warm b self.now.kept) }
    {
        if self.branches.len() <= b as usize {
            return None;
        }
        let kept = &self.branches[b as usize];
        if !kept.tape.warm() {
            return None;
        }
        Some(kept.tape.here())
    }

    /// States the laws of every book; it does nothing. Each branch has the world of its events up
    /// to its place. Each of its places has a world, and so has each number of further steps that a
    /// run or a tick looks at. An added event and then a `Back` by one lead to the world before the
    /// event. A `Back` and then a `Forward` by as many events lead to the world that was left.
    pub fn laws(&self)
        ensures legal { IsLegal (rules N.laws N.PROBES self.now.scenario) self.now.history
            (all_shown self.now.kept) }
        ensures branches { AreBranches (rules N.laws N.PROBES self.now.scenario)
            (all_shown self.now.kept) }
        ensures worlds { HasWorlds (rules N.laws N.PROBES self.now.scenario)
            (all_shown self.now.kept) }
        ensures ahead { HasStepWorlds (rules N.laws N.PROBES self.now.scenario)
            (all_shown self.now.kept) }
        ensures tapes { AreOf self.now.scenario self.now.kept }
        ensures back { BackAfterEvent (rules N.laws N.PROBES self.now.scenario)
            (all_shown self.now.kept) }
        ensures forward { ForwardAfterBack (rules N.laws N.PROBES self.now.scenario)
            (all_shown self.now.kept) }
    {
        prove!(self.history.len() <= MAX_ENTRIES);
    }

    /// Returns the book's meter.
    pub fn meter(&self) -> &N::Meter
        ensures { N.Meter.work result.now ≡ self.now.work }
    {
        &self.meter
    }

    /// Returns whether the tape of branch `b` is warm, or `None` if there is no such branch.
    pub fn warm(&self, b: u32) -> Option<bool>
        ensures there { OnSome result (b < length self.now.kept) }
        ensures none { result ≡ None → length self.now.kept ≤ b }
        ensures value { IfSome result (λ w. (d : KeptValue) →
            w ≡ (slice_index_or self.now.kept b d).tape.warm) }
    {
        match self.branches.get(b as usize) {
            None => None,
            Some(kept) => Some(kept.tape.warm()),
        }
    }

    /// Returns the place of branch `b`, warm or cold: the number of kept events before it. Returns
    /// `None` if there is no such branch. Allocates nothing.
    pub fn place(&self, b: u32) -> Option<u32>
        ensures there { IsSome result ↔ (b < length self.now.kept) }
        ensures value { IfSome result (λ p. p ≡ (branch b (all_shown self.now.kept)).place) }
        ensures within { IfSome result (λ p.
            p ≤ length (branch b (all_shown self.now.kept)).events) }
    {
        if self.branches.len() <= b as usize {
            return None;
        }
        let kept = &self.branches[b as usize];
        Some(kept.tape.place())
    }

    /// Returns whether branch `b` keeps a watch with this number. It does not if there is no such
    /// branch. Allocates nothing.
    pub fn has_watch(&self, b: u32, number: u32) -> bool
        ensures kept { b < length self.now.kept → result
            ≡ is_some (slice_index_or (branch b (all_shown self.now.kept)).watches number None) }
        ensures none { length self.now.kept ≤ b → result ≡ false }
    {
        if self.branches.len() <= b as usize || MAX_WATCHES <= number as usize {
            return false;
        }
        self.branches[b as usize].watches[number as usize].is_some()
    }

    /// Returns all kept events of branch `b`, which must exist, with the book's scenario. Makes no
    /// entry. Fails only for want of memory.
    pub fn frozen(&self, alloc: Global, b: u32) -> Result<Frozen<N>, NoMemory>
        requires { b < length self.now.kept }
        ensures { IfOk result (λ f. (f.scenario ≡ self.now.scenario) ×
            ((d : KeptValue) → f.events ≡ (slice_index_or self.now.kept b d).tape.events)) }
    {
        self.branches[b as usize].tape.freeze(alloc)
    }

    // Returns all kept events of branch `b`, or `None` if there is no such branch.
    fn whole(&self, alloc: Global, b: u32) -> Result<Option<Frozen<N>>, NoMemory>
        ensures { IfOk result (IsWhole self.now.scenario self.now.kept b) }
    {
        match self.warm(b) {
            None => Ok(None),
            Some(_) => Ok(Some(self.frozen(alloc, b)?)),
        }
    }

    /// Returns whether the history is full, so that no turn can be taken.
    pub fn is_full(&self) -> bool
        ensures full { IsTrue result ↔ (65536 ≤ length self.now.history) }
        ensures legal { IsLegal (rules N.laws N.PROBES self.now.scenario) self.now.history
            (all_shown self.now.kept) }
    {
        MAX_ENTRIES <= self.history.len()
    }

    /// Carries out a session's command to freeze branch `b`, as `turn` does. Also returns all kept
    /// events of the branch, exactly if the reply is their list.
    pub fn freeze(
        &mut self,
        alloc: Global,
        session: u8,
        b: u32,
    ) -> Result<(Entry, Option<Frozen<N>>), NotTaken>
        ensures turned { IfOk result (λ r.
            Turned N.laws N.PROBES session (Command.Freeze b) self.old r.0 self.new) }
        ensures frozen { IfOk result (λ r. GivesFrozen self.old.scenario r.0.reply r.1) }
        ensures not_taken { OnErr result (self.new ≡ self.old) }
        ensures full { IfErr result (λ why.
            (why ≡ NotTaken.HistoryFull) ↔ (65536 ≤ length self.old.history)) }
    {
        if self.is_full() {
            return Err(NotTaken::HistoryFull);
        }
        match self.whole(alloc, b) {
            Err(_) => Err(NotTaken::NoMemory),
            Ok(made) => {
                let entry = self.turn(alloc, session, Command::Freeze(b))?;
                let given = where_frozen(&entry.reply, made);
                Ok((entry, given))
            }
        }
    }

    /// Returns the history, without allocating.
    pub fn into_entries(self) -> Vec<Entry>
        ensures value { result.items ≡ self.history }
        ensures legal { IsLegal (rules N.laws N.PROBES self.scenario) result.items
            (all_shown self.kept) }
    {
        let Book {
            scenario: _scenario,
            branches: _branches,
            history,
            numbers: _numbers,
            meter: _meter,
        } = self;
        history
    }
}
