//! The rows of a client of the register: it asks a majority, then stores at a majority.
ghost use Rattle.std.specs.Prelude.{◌≡◌, ◌<◌, ◌^◌, IsTrue, []};
ghost use Rattle.sim_node.specs.Node.{IsHostSetup, IsFrom};
ghost use Rattle.sim_hosts.specs.Reactions.{asked_for};
ghost use Rattle.sim_abd.specs.AbdNumbers.{IsCounted};
ghost use Rattle.sim_abd.specs.Abd.{untagged, is_greater, client_at_boot, is_write, is_majority};
ghost use Rattle.sim_abd.specs.Abd.{ask_of, store_of, begun, stores, has_told, finished, has_kept};
ghost use Rattle.sim_abd.specs.Abd.{asks_again, is_told, is_kept, react_client};

use crate::{AbdMsg, Client, Phase, Tagged};
use sim_hosts::{HostSet, send_to_all, send_to_missing};
use sim_node::{Effects, HostSetup, Input};

/// How long a client waits for answers before it sends again (ms).
const PATIENCE: u32 = 200;

impl Tagged {
    /// Returns a value with the least tag.
    fn untagged() -> Tagged
        ensures { result ≡ untagged }
    {
        Tagged {
            number: 0,
            writer: 0,
            val: 0,
        }
    }

    /// Returns whether this tag is greater than the other.
    pub fn is_greater(&self, other: &Tagged) -> bool
        ensures { result ≡ is_greater self.now other.now }
    {
        self.number > other.number || (self.number == other.number && self.writer > other.writer)
    }
}

/// Returns whether the operation of this number is a write.
fn is_write(i: u32) -> bool
    ensures { result ≡ is_write i }
{
    i % 2 == 1
}

/// Returns whether most servers have answered.
fn is_majority(setup: &HostSetup, answers: HostSet) -> bool
    ensures { result ≡ is_majority setup.now answers }
{
    answers.size() >= (setup.servers / 2 + 1) as u32
}

impl Client {
    pub fn at_boot() -> Client
        ensures { result ≡ client_at_boot }
    {
        Client {
            next: 0,
            phase: Phase::Resting,
            answers: HostSet::nobody(),
            best: Tagged::untagged(),
            last_read: 0,
        }
    }

    /// Returns the message that asks the servers for their value.
    fn ask(&self) -> AbdMsg
        requires { self.now.next < 2 ^ 16 }
        ensures { result ≡ ask_of self.now }
    {
        AbdMsg::Ask(2 * self.next)
    }

    /// Returns the message that asks the servers to store.
    fn store(&self) -> AbdMsg
        requires { self.now.next < 2 ^ 16 }
        ensures { result ≡ store_of self.now }
    {
        AbdMsg::Store(2 * self.next + 1, self.best)
    }

    /// Begins an operation.
    fn begin(&mut self, i: u16, setup: &HostSetup, effects: &mut Effects<AbdMsg>)
        requires setup { IsHostSetup setup.now }
        requires empty { effects.old ≡ asked_for setup.now [] }
        ensures state { self.new ≡ (begun i setup.now self.old).0 }
        ensures counted { IsCounted self.new.phase self.new.next }
        ensures effects { effects.new ≡ asked_for setup.now (begun i setup.now self.old).1 }
    {
        self.next = i as u32;
        self.phase = Phase::Asking;
        self.answers = HostSet::nobody();
        self.best = Tagged::untagged();
        send_to_all(0, setup, self.ask(), effects);
        effects.timer(PATIENCE);
    }

    /// Asks the servers to store, after a majority answered: a read stores the best value, a write
    /// its own.
    fn begin_to_store(&mut self, me: u16, setup: &HostSetup, effects: &mut Effects<AbdMsg>)
        requires setup { IsHostSetup setup.now }
        requires counted { self.old.next < 2 ^ 16 }
        requires empty { effects.old ≡ asked_for setup.now [] }
        ensures state { self.new ≡ (stores me setup.now self.old).0 }
        ensures counted { IsCounted self.new.phase self.new.next }
        ensures effects { effects.new ≡ asked_for setup.now (stores me setup.now self.old).1 }
    {
        self.phase = Phase::Storing;
        self.answers = HostSet::nobody();
        if is_write(self.next) {
            self.best = Tagged {
                number: self.best.number.saturating_add(1),
                writer: me as u64,
                val: (me as u64)
                    .saturating_mul(1000)
                    .saturating_add(self.next as u64),
            };
        }
        send_to_all(0, setup, self.store(), effects);
        effects.timer(PATIENCE);
    }

    /// Handles a server's answer with its value.
    fn has_told(
        &mut self,
        from: u16,
        told: &Tagged,
        me: u16,
        setup: &HostSetup,
        effects: &mut Effects<AbdMsg>,
    )
        requires setup { IsHostSetup setup.now }
        requires from { from < setup.now.hosts }
        requires counted { self.old.next < 2 ^ 16 }
        requires empty { effects.old ≡ asked_for setup.now [] }
        ensures state { self.new ≡ (has_told from told.now me setup.now self.old).0 }
        ensures counted { IsCounted self.new.phase self.new.next }
        ensures effects { effects.new ≡ asked_for setup.now
            (has_told from told.now me setup.now self.old).1 }
    {
        self.answers = self.answers.joined(from);
        if told.is_greater(&self.best) {
            self.best = *told;
        }
        if is_majority(setup, self.answers) {
            self.begin_to_store(me, setup, effects);
        }
    }

    /// Ends the operation, after a majority stored.
    fn finish(&mut self, ops: u16, setup: &HostSetup, effects: &mut Effects<AbdMsg>)
        requires setup { IsHostSetup setup.now }
        requires counted { self.old.next < 2 ^ 16 }
        requires empty { effects.old ≡ asked_for setup.now [] }
        ensures state { self.new ≡ (finished ops setup.now self.old).0 }
        ensures counted { IsCounted self.new.phase self.new.next }
        ensures effects { effects.new ≡ asked_for setup.now (finished ops setup.now self.old).1 }
    {
        if !is_write(self.next) {
            self.last_read = self.best.val;
        }
        let next = self.next + 1;
        if next > ops as u32 {
            self.next = next;
            self.phase = Phase::Resting;
            effects.done();
        } else {
            self.begin(next as u16, setup, effects);
        }
    }

    /// Handles a server's answer that it has stored.
    fn has_kept(&mut self, from: u16, ops: u16, setup: &HostSetup, effects: &mut Effects<AbdMsg>)
        requires setup { IsHostSetup setup.now }
        requires from { from < setup.now.hosts }
        requires counted { self.old.next < 2 ^ 16 }
        requires empty { effects.old ≡ asked_for setup.now [] }
        ensures state { self.new ≡ (has_kept from ops setup.now self.old).0 }
        ensures counted { IsCounted self.new.phase self.new.next }
        ensures effects { effects.new ≡ asked_for setup.now
            (has_kept from ops setup.now self.old).1 }
    {
        self.answers = self.answers.joined(from);
        if is_majority(setup, self.answers) {
            self.finish(ops, setup, effects);
        }
    }

    /// Sends again to the servers that have not answered.
    fn ask_again(&self, setup: &HostSetup, effects: &mut Effects<AbdMsg>)
        requires setup { IsHostSetup setup.now }
        requires counted { IsCounted self.now.phase self.now.next }
        requires empty { effects.old ≡ asked_for setup.now [] }
        ensures { effects.new ≡ asked_for setup.now (asks_again self.now.phase setup.now
            self.now).1 }
    {
        match self.phase {
            Phase::Resting => {}
            Phase::Asking => {
                send_to_missing(0, setup, self.answers, self.ask(), effects);
                effects.timer(PATIENCE);
            }
            Phase::Storing => {
                send_to_missing(0, setup, self.answers, self.store(), effects);
                effects.timer(PATIENCE);
            }
        }
    }

    /// Returns whether the client waits for this answer of a server with its value.
    fn waits_for_told(&self, from: u16, r: u32) -> bool
        requires from { from < 32 }
        requires counted { IsCounted self.now.phase self.now.next }
        ensures answer { result ≡ is_told from r self.now.phase self.now }
        ensures counted { IsTrue result → self.now.next < 2 ^ 16 }
    {
        match self.phase {
            Phase::Asking => r == 2 * self.next && !self.answers.contains(from),
            _ => false,
        }
    }

    /// Returns whether the client waits for this answer of a server that it has stored.
    fn waits_for_kept(&self, from: u16, r: u32) -> bool
        requires from { from < 32 }
        requires counted { IsCounted self.now.phase self.now.next }
        ensures answer { result ≡ is_kept from r self.now.phase self.now }
        ensures counted { IsTrue result → self.now.next < 2 ^ 16 }
    {
        match self.phase {
            Phase::Storing => r == 2 * self.next + 1 && !self.answers.contains(from),
            _ => false,
        }
    }

    /// Reacts to an input.
    pub(crate) fn react(
        &mut self,
        setup: &HostSetup,
        me: u16,
        input: &Input<AbdMsg>,
        effects: &mut Effects<AbdMsg>,
    )
        requires setup { IsHostSetup setup.now }
        requires counted { IsCounted self.old.phase self.old.next }
        requires sender { IsFrom setup.now.hosts input.now }
        requires empty { effects.old ≡ asked_for setup.now [] }
        ensures state { self.new ≡ (react_client setup.now me self.old input.now).0 }
        ensures counted { IsCounted self.new.phase self.new.next }
        ensures effects { effects.new ≡ asked_for setup.now
            (react_client setup.now me self.old input.now).1 }
    {
        match input {
            Input::Start => self.begin(1, setup, effects),
            Input::Timer => self.ask_again(setup, effects),
            Input::Message {
                sender,
                msg: AbdMsg::Tell(r, told),
            } if self.waits_for_told(*sender, *r) => {
                self.has_told(*sender, told, me, setup, effects)
            }
            Input::Message {
                sender,
                msg: AbdMsg::Kept(r),
            } if self.waits_for_kept(*sender, *r) => {
                let ops = setup.ops;
                self.has_kept(*sender, ops, setup, effects)
            }
            _ => {}
        }
    }
}
