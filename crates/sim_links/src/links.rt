ghost use Rattle.std.specs.Prelude.{◌≡◌, ◌<◌, ◌≤◌, ◌+◌, ◌-◌, ◌*◌, ◌^◌, [], ◌∷◌, ◌++◌, length, min};
ghost use Rattle.std.specs.Prelude.{IfOk, OnOk, OnErr};
ghost use Rattle.std.specs.Fn.{FnReturnsAt};

use crate::table::Table;
use crate::{Change, LinkState, LinkUndo, NoMemory};
use std::alloc::Global;
use std::marker::Model;

/// The state and the held messages of every direction between 32 hosts.
#[derive(Drop)]
pub struct Links<M> {
    pub(crate) table: Table<M>,
}

impl<M> Model for Links<M> {
    ghost use Rattle.sim_links.specs.Link.{Links};
    ghost use Rattle.sim_links.specs.Table.{links_in, IsSound};

    ghost Value = { Links M };

    ghost view = { λ l. links_in l.table };

    ghost invariant = { λ l. IsSound l.table };
}

// Returns the place of the direction from a to b.
fn place(a: u16, b: u16) -> usize
    requires from { a < 32 }
    requires to { b < 32 }
    ensures value { result ≡ 32 * a + b }
    ensures within { result < 1024 }
{
    32 * a as usize + b as usize
}

impl<M> Links<M> {
    ghost use Rattle.sim_links.specs.Link.{all_open, link, with_link, changed, let_go, state_after};
    ghost use Rattle.sim_links.specs.Link.{kept_in, fits, back, with_held, without_newest};
    ghost use Rattle.sim_links.specs.declared.LinkState.TheVariants as state;

    /// Returns links that are all open and hold nothing.
    pub fn new(alloc: Global) -> Result<Links<M>, NoMemory>
    where
        M: Drop,
        ensures { IfOk result (λ links. links ≡ all_open) }
    {
        let table = Table::new(alloc)?;
        Ok(Links { table })
    }

    /// States the invariant: there is a direction from each of 32 hosts to each.
    pub fn laws(&self)
        ensures { length self.now ≡ 1024 }
    {
        let _table = &self.table;
    }

    /// Returns the state of the direction from host a to host b, both below 32.
    pub fn state(&self, a: u16, b: u16) -> LinkState
        requires from { a < 32 }
        requires to { b < 32 }
        ensures value { result ≡ (link a b self.now).state }
        ensures whole { length self.now ≡ 1024 }
    {
        let direction = self.table.direction(place(a, b));
        direction.state()
    }

    /// Returns the number of messages that the direction from host a to host b holds, both below
    /// 32, or `u32::MAX` if there are more.
    pub fn held(&self, a: u16, b: u16) -> u32
        requires from { a < 32 }
        requires to { b < 32 }
        ensures { result ≡ min (length (link a b self.now).held) (2 ^ 32 - 1) }
    {
        let direction = self.table.direction(place(a, b));
        direction.count().min(u32::MAX as usize) as u32
    }

    /// Returns the messages that the direction from host a to host b holds, the oldest first. Both
    /// hosts are below 32.
    pub fn messages(&self, a: u16, b: u16) -> &[M]
        requires from { a < 32 }
        requires to { b < 32 }
        ensures { result.now ≡ (link a b self.now).held }
    {
        let direction = self.table.direction(place(a, b));
        direction.messages()
    }

    /// Changes the direction from host a to host b, both below 32. Returns the record of the change
    /// and the messages that leave the direction, in the order in which they were sent; a release
    /// delivers them, a cut drops them. Takes no memory.
    pub fn change(&mut self, a: u16, b: u16, change: Change) -> (LinkUndo, Vec<M>)
        requires from { a < 32 }
        requires to { b < 32 }
        ensures after { self.new ≡ with_link a b (changed change (link a b self.old)) self.old }
        ensures left { result.1.items ≡ let_go change (link a b self.old) }
        ensures whole { length self.old ≡ 1024 }
        ensures undo { result.0 ≡ record {
          a = a;
          b = b;
          change = change;
          was = (link a b self.old).state;
        } }

        // What `undo` requires of them, and that it leads back.
        ensures fits { fits result.0 (link a b self.new) }
        ensures none_left { kept_in (state_after result.0.change result.0.was) result.1.items ≡ [] }
        ensures back { with_link a b (back result.0 result.1.items (link a b self.new)) self.new
            ≡ self.old }
    {
        let slot = self.table.touch(place(a, b));
        let direction = &mut self.table.touched[slot];
        let was = direction.state();
        let messages = direction.change(change);
        let undo = LinkUndo { a, b, change, was };
        (undo, messages)
    }

    /// Undoes a change, given its record and the messages that left the direction. The direction
    /// must be as the change left it. If the change left it held, no message left it. Takes no
    /// memory.
    pub fn undo(&mut self, undo: LinkUndo, messages: Vec<M>)
    where
        M: Drop,
        requires from { undo.a < 32 }
        requires to { undo.b < 32 }
        requires fits { fits undo (link undo.a undo.b self.old) }
        requires none_left { kept_in (state_after undo.change undo.was) messages.items ≡ [] }
        ensures { self.new ≡ with_link undo.a undo.b (back undo messages.items
            (link undo.a undo.b self.old)) self.old }
    {
        let slot = self.table.touch(place(undo.a, undo.b));
        let direction = &mut self.table.touched[slot];
        direction.undo(undo, messages);
    }

    /// Adds a message to those that the direction from host a to host b holds, as the newest. Both
    /// hosts are below 32; the direction must be held, and hold fewer than 4,096 messages. After
    /// `NoMemory` the links are unchanged and the message is dropped.
    pub fn keep(&mut self, a: u16, b: u16, message: M) -> Result<(), NoMemory>
    where
        M: Drop,
        requires from { a < 32 }
        requires to { b < 32 }
        requires held { (link a b self.old).state ≡ state.Held }
        requires few { length (link a b self.old).held < 4096 }
        ensures ok { OnOk result (self.new ≡ with_link a b (with_held message (link a b self.old))
            self.old) }
        ensures some { OnOk result (0 < length (link a b self.new).held) }
        ensures back { OnOk result (with_link a b (without_newest (link a b self.new)) self.new
            ≡ self.old) }
        ensures err { OnErr result (self.new ≡ self.old) }
    {
        let slot = self.table.touch(place(a, b));
        let direction = &mut self.table.touched[slot];
        direction.keep(message)
    }

    /// Removes and returns the newest message that the direction from host a to host b holds. Both
    /// hosts are below 32, and it holds at least one. Takes no memory.
    pub fn unkeep(&mut self, a: u16, b: u16) -> M
        requires from { a < 32 }
        requires to { b < 32 }
        requires some { 0 < length (link a b self.old).held }
        ensures rest { self.new ≡ with_link a b (without_newest (link a b self.old)) self.old }
        ensures message { (link a b self.old).held ≡ (link a b self.new).held ++ result ∷ [] }
    {
        let slot = self.table.slots[place(a, b)] as usize;
        let direction = &mut self.table.touched[slot];
        direction.unkeep()
    }

    /// Returns a copy. `each` copies a message; if it fails, so does the call.
    pub fn copy<F: Fn(&M) -> Result<M, NoMemory>>(
        &self,
        alloc: Global,
        each: F,
    ) -> Result<Links<M>, NoMemory>
    where
        M: Drop,
        requires callable { F.IsAlwaysCallable each }
        requires equal { (m : M) (r : _) → FnReturnsAt F.Fn each m r → IfOk r (λ copy. copy ≡ m) }
        ensures { IfOk result (λ links. links ≡ self.now) }
    {
        let table = self.table.copy(alloc, &each)?;
        Ok(Links { table })
    }
}
