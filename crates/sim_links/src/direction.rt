ghost use Rattle.std.specs.Prelude.{◌≡◌, ◌<◌, ◌↔◌, [], ◌∷◌, ◌++◌, length, IsTrue, IfOk, OnOk};
ghost use Rattle.std.specs.Prelude.{OnErr};
ghost use Rattle.std.specs.Fn.{FnReturnsAt};

use crate::{Change, LinkState, LinkUndo, NoMemory};
use std::alloc::Global;
use std::marker::Model;
use std::mem;

/// One direction: its state, and the messages that it holds, in the order in which they were sent.
#[derive(Drop)]
pub struct Direction<M> {
    state: LinkState,
    held: Vec<M>,
}

impl<M> Model for Direction<M> {
    ghost use Rattle.sim_links.specs.Link.{Link};

    ghost Value = { Link M };

    ghost view = { λ d. record { state = d.state; held = d.held.items } };
}

impl LinkState {
    ghost use Rattle.sim_links.specs.Link.{state_after};

    /// Returns the state after a change, as the table gives it.
    pub fn after(self, change: Change) -> LinkState
        ensures { result ≡ state_after change self }
    {
        match (change, self) {
            (Change::Hold, _) => LinkState::Held,
            (Change::Cut, _) => LinkState::Cut,
            (Change::Release, LinkState::Cut) => LinkState::Cut,
            (Change::Release, _) => LinkState::Through,
            (Change::Repair, LinkState::Held) => LinkState::Held,
            (Change::Repair, _) => LinkState::Through,
        }
    }
}

/// Returns a copy of the messages, in the same order.
pub(crate) fn copied<M: Drop, F: Fn(&M) -> Result<M, NoMemory>>(
    alloc: Global,
    messages: &[M],
    each: &F,
) -> Result<Vec<M>, NoMemory>
    requires callable { F.IsAlwaysCallable each.now }
    requires equal { (m : M) (r : _) → FnReturnsAt F.Fn each.now m r → IfOk r (λ copy. copy ≡ m) }
    ensures { IfOk result (λ copies. copies.items ≡ messages.now) }
{
    let mut copies = Vec::with_capacity(alloc, messages.len())?;
    for message in messages {
        let copy = each(message)?;
        copies.push_reserved(copy);
    }
    Ok(copies)
}

impl<M> Direction<M> {
    ghost use Rattle.sim_links.specs.Link.{open_link, state_after, kept_in, changed, let_go};
    ghost use Rattle.sim_links.specs.Link.{with_held, without_newest, fits, back};

    /// Returns an open direction that holds nothing.
    pub(crate) fn open(alloc: Global) -> Direction<M>
        ensures { result ≡ open_link }
    {
        Direction {
            state: LinkState::Through,
            held: Vec::new(alloc),
        }
    }

    pub(crate) fn state(&self) -> LinkState
        ensures { result ≡ self.now.state }
    {
        self.state
    }

    /// Returns the messages that it holds, the oldest first.
    pub(crate) fn messages(&self) -> &[M]
        ensures { result.now ≡ self.now.held }
    {
        &self.held
    }

    /// Returns the number of messages that it holds.
    pub(crate) fn count(&self) -> usize
        ensures { result ≡ length self.now.held }
    {
        self.held.len()
    }

    /// Returns whether it is open and holds nothing.
    pub(crate) fn is_open(&self) -> bool
        ensures { IsTrue result ↔ (self.now ≡ open_link) }
    {
        match self.state {
            LinkState::Through => self.held.is_empty(),
            LinkState::Held | LinkState::Cut => false,
        }
    }

    /// Changes the direction. Returns the messages that leave it.
    pub(crate) fn change(&mut self, change: Change) -> Vec<M>
        ensures after { self.new ≡ changed change self.old }
        ensures left { result.items ≡ let_go change self.old }
    {
        let alloc = *self.held.allocator();
        self.state = self.state.after(change);
        match self.state {
            LinkState::Held => Vec::new(alloc),
            _ => mem::replace(&mut self.held, Vec::new(alloc)),
        }
    }

    /// Undoes a change, given its record and the messages that left by it.
    pub(crate) fn undo(&mut self, undo: LinkUndo, messages: Vec<M>)
    where
        M: Drop,
        requires fits { fits undo self.old }
        requires left { kept_in (state_after undo.change undo.was) messages.items ≡ [] }
        ensures { self.new ≡ back undo messages.items self.old }
    {
        match self.state {
            LinkState::Held => {}
            _ => self.held = messages,
        }
        self.state = undo.was;
    }

    /// Adds a held message, the newest. After `NoMemory` the direction is unchanged.
    pub(crate) fn keep(&mut self, message: M) -> Result<(), NoMemory>
    where
        M: Drop,
        ensures ok { OnOk result (self.new ≡ with_held message self.old) }
        ensures err { OnErr result (self.new ≡ self.old) }
    {
        self.held.push(message)?;
        Ok(())
    }

    /// Removes and returns the newest held message.
    pub(crate) fn unkeep(&mut self) -> M
        requires { 0 < length self.old.held }
        ensures message { self.old.held ≡ self.new.held ++ result ∷ [] }
        ensures rest { self.new ≡ without_newest self.old }
    {
        self.held.pop().unwrap()
    }

    /// Returns a direction in this state that holds these messages.
    pub(crate) fn of(state: LinkState, held: Vec<M>) -> Direction<M>
        ensures { result ≡ record { state = state; held = held.items } }
    {
        Direction { state, held }
    }

    /// Returns an equal direction.
    pub(crate) fn copy<F: Fn(&M) -> Result<M, NoMemory>>(
        &self,
        alloc: Global,
        each: &F,
    ) -> Result<Direction<M>, NoMemory>
    where
        M: Drop,
        requires callable { F.IsAlwaysCallable each.now }
        requires equal { (m : M) (r : _) → FnReturnsAt F.Fn each.now m r
            → IfOk r (λ copy. copy ≡ m) }
        ensures { IfOk result (λ copy. copy ≡ self.now) }
    {
        let held = copied(alloc, &self.held, each)?;
        Ok(Direction::of(self.state, held))
    }
}
