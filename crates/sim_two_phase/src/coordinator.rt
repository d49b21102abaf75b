//! The rows of the coordinator: waiting hosts, votes, and what it reads from its disk at a boot.
ghost use Rattle.std.specs.Prelude.{ℕ, List, Option, ◌≡◌, ◌<◌, [], slice_set};
ghost use Rattle.sim_node.specs.Node.{IsHostSetup, IsFrom};
ghost use Rattle.sim_hosts.specs.Reactions.{asked_for};
ghost use Rattle.sim_hosts.specs.Waiting.{restored, IsPlacedSlot};
ghost use Rattle.sim_two_phase.specs.TwoPhase.{presumed, coordinator_at_boot, is_of_this};
ghost use Rattle.sim_two_phase.specs.TwoPhase.{begun_for, begun, is_voting_for, asked_by};
ghost use Rattle.sim_two_phase.specs.TwoPhase.{coordinator_timer, heard, react_coordinator};
ghost use Rattle.sim_two_phase.specs.TwoPhaseRecords.{IsPlacedConduct, IsPlacedSlots};
ghost use Rattle.sim_two_phase.specs.TwoPhaseRecords.{coordinator_before};

use crate::conduct::PATIENCE;
use crate::disk::first_of_byte;
use crate::{CommitMsg, Conduct, Coordinator, First, Phase, Slots};
use sim_hosts::{
    HostSet, SlotBefore, byte_at, is_other, lowest_waiting, number_at, put_back, wait_with,
};
use sim_node::{Effects, HostSetup, Input};

/// A reaction that changed no slot.
const UNCHANGED: Slots = Slots {
    asked: SlotBefore::Same,
    begun: SlotBefore::Same,
};

/// Returns the outcome of transaction 1 at a boot: if it has begun and is open, it is presumed
/// aborted.
fn presumed(transaction: u64, first: First) -> First
    ensures { result ≡ presumed transaction first }
{
    if first == First::Open && 1 <= transaction {
        First::Aborted
    } else {
        first
    }
}

impl Coordinator {
    /// Returns the coordinator that boots from these bytes of its disk.
    pub fn at_boot(disk: &[u8]) -> Coordinator
        ensures { result ≡ coordinator_at_boot disk.now }
    {
        let transaction = number_at(disk, 0);
        Coordinator {
            conduct: Conduct {
                transaction,
                commits: byte_at(disk, 8) == 1,
                first: presumed(transaction, first_of_byte(byte_at(disk, 9))),
                phase: Phase::Resting,
                unsure: 0,
                owed: None,
            },
            waiting: [None; 32],
        }
    }

    /// Sets what a host waits with. Returns what it waited with before.
    fn put(&mut self, host: u16, number: Option<u64>) -> SlotBefore<u64>
        requires { host < 32 }
        ensures state { self.new ≡ record self.old {
          waiting = slice_set self.old.waiting host number;
        } }
        ensures back { restored result self.new.waiting ≡ self.old.waiting }
        ensures host { IsPlacedSlot result }
    {
        wait_with(&mut self.waiting, host, number)
    }

    /// Begins a transaction for a client's operation.
    fn begin_for(
        &mut self,
        client: u16,
        number: u64,
        setup: &HostSetup,
        effects: &mut Effects<CommitMsg>,
    ) -> SlotBefore<u64>
        requires setup { IsHostSetup setup.now }
        requires client { client < setup.now.hosts }
        requires placed { IsPlacedConduct setup.now.hosts self.old.conduct }
        requires empty { effects.old ≡ asked_for setup.now [] }
        ensures state { self.new ≡ (begun_for (client, number) self.old).0 }
        ensures placed { IsPlacedConduct setup.now.hosts self.new.conduct }
        ensures effects { effects.new ≡ asked_for setup.now
            (begun_for (client, number) self.old).1 }
        ensures back { restored result self.new.waiting ≡ self.old.waiting }
        ensures host { IsPlacedSlot result }
    {
        let before = self.put(client, None);
        self.conduct.transaction = self.conduct.transaction.saturating_add(1);
        self.conduct.commits = false;
        self.conduct.phase = Phase::Voting {
            client,
            number,
            votes: HostSet::nobody(),
        };
        self.conduct.unsure = self.conduct.unsure.saturating_add(1);
        self.conduct.force(effects);
        effects.timer(PATIENCE);
        before
    }

    /// Begins a transaction for the lowest waiting host, if one waits.
    fn begin(&mut self, setup: &HostSetup, effects: &mut Effects<CommitMsg>) -> SlotBefore<u64>
        requires setup { IsHostSetup setup.now }
        requires placed { IsPlacedConduct setup.now.hosts self.old.conduct }
        requires empty { effects.old ≡ asked_for setup.now [] }
        ensures state { self.new ≡ (begun setup.now self.old).0 }
        ensures placed { IsPlacedConduct setup.now.hosts self.new.conduct }
        ensures effects { effects.new ≡ asked_for setup.now (begun setup.now self.old).1 }
        ensures back { restored result self.new.waiting ≡ self.old.waiting }
        ensures host { IsPlacedSlot result }
    {
        match lowest_waiting(setup, &self.waiting) {
            None => SlotBefore::Same,
            Some((client, number)) => self.begin_for(client, number, setup, effects),
        }
    }

    fn is_voting_for(&self, host: u16) -> bool
        ensures { result ≡ is_voting_for host self.now.conduct.phase }
    {
        match self.conduct.phase {
            Phase::Voting { client, .. } => client == host,
            _ => false,
        }
    }

    /// Handles a transaction that a host asks for.
    fn asked_by(
        &mut self,
        from: u16,
        number: u64,
        setup: &HostSetup,
        effects: &mut Effects<CommitMsg>,
    ) -> Slots
        requires setup { IsHostSetup setup.now }
        requires from { from < setup.now.hosts }
        requires placed { IsPlacedConduct setup.now.hosts self.old.conduct }
        requires empty { effects.old ≡ asked_for setup.now [] }
        ensures state { self.new ≡ (asked_by from number setup.now self.old).0 }
        ensures placed { IsPlacedConduct setup.now.hosts self.new.conduct }
        ensures effects { effects.new ≡ asked_for setup.now
            (asked_by from number setup.now self.old).1 }
        ensures back { coordinator_before self.old.conduct result self.new ≡ self.old }
        ensures slots { IsPlacedSlots result }
    {
        if self.is_voting_for(from) {
            return UNCHANGED;
        }
        let asked = self.put(from, Some(number));
        let begun = match self.conduct.phase {
            Phase::Resting => self.begin(setup, effects),
            _ => SlotBefore::Same,
        };
        Slots { asked, begun }
    }

    /// Handles the timer.
    fn timed_out(&mut self, setup: &HostSetup, effects: &mut Effects<CommitMsg>) -> SlotBefore<u64>
        requires setup { IsHostSetup setup.now }
        requires placed { IsPlacedConduct setup.now.hosts self.old.conduct }
        requires empty { effects.old ≡ asked_for setup.now [] }
        ensures state { self.new ≡ (coordinator_timer self.old.conduct.phase setup.now self.old).0 }
        ensures placed { IsPlacedConduct setup.now.hosts self.new.conduct }
        ensures effects { effects.new ≡ asked_for setup.now
            (coordinator_timer self.old.conduct.phase setup.now self.old).1 }
        ensures back { restored result self.new.waiting ≡ self.old.waiting }
        ensures host { IsPlacedSlot result }
    {
        if matches!(self.conduct.phase, Phase::Resting) {
            return self.begin(setup, effects);
        }
        self.conduct.timed_out(setup, effects);
        SlotBefore::Same
    }

    /// Returns whether the message is from a participant and about the current transaction.
    fn is_of_this(&self, from: u16, u: u64, setup: &HostSetup) -> bool
        ensures { result ≡ is_of_this from u setup.now self.now.conduct }
    {
        is_other(setup, from) && u == self.conduct.transaction
    }

    /// Reacts to a message that does not change who waits.
    fn hear(
        &mut self,
        from: u16,
        msg: &CommitMsg,
        setup: &HostSetup,
        effects: &mut Effects<CommitMsg>,
    )
        requires setup { IsHostSetup setup.now }
        requires from { from < setup.now.hosts }
        requires placed { IsPlacedConduct setup.now.hosts self.old.conduct }
        requires empty { effects.old ≡ asked_for setup.now [] }
        ensures state { self.new ≡ (heard from msg.now setup.now self.old).0 }
        ensures placed { IsPlacedConduct setup.now.hosts self.new.conduct }
        ensures effects { effects.new ≡ asked_for setup.now
            (heard from msg.now setup.now self.old).1 }
        ensures waiting { self.new.waiting ≡ self.old.waiting }
    {
        match msg {
            CommitMsg::Vote(agrees, u) if self.is_of_this(from, *u, setup) => {
                self.conduct.voted(from, *agrees, setup, effects)
            }
            CommitMsg::Seen(u) if self.is_of_this(from, *u, setup) => {
                self.conduct.seen(from, setup, effects)
            }
            CommitMsg::Inquire(u) => self.conduct.inquired(from, *u, setup, effects),
            _ => {}
        }
    }

    /// Reacts to an input. Returns the changed slots as they were before.
    pub fn react(
        &mut self,
        setup: &HostSetup,
        input: &Input<CommitMsg>,
        effects: &mut Effects<CommitMsg>,
    ) -> Slots
        requires setup { IsHostSetup setup.now }
        requires sender { IsFrom setup.now.hosts input.now }
        requires placed { IsPlacedConduct setup.now.hosts self.old.conduct }
        requires empty { effects.old ≡ asked_for setup.now [] }
        ensures state { self.new ≡ (react_coordinator setup.now self.old input.now).0 }
        ensures placed { IsPlacedConduct setup.now.hosts self.new.conduct }
        ensures effects { effects.new ≡ asked_for setup.now
            (react_coordinator setup.now self.old input.now).1 }
        ensures back { coordinator_before self.old.conduct result self.new ≡ self.old }
        ensures slots { IsPlacedSlots result }
    {
        let mut slots = UNCHANGED;
        match input {
            Input::Start => self.conduct.start(setup, effects),
            Input::Timer => slots.begun = self.timed_out(setup, effects),
            Input::Synced => self.conduct.synced(setup, effects),
            Input::Message {
                sender,
                msg: CommitMsg::Begin(number),
            } => slots = self.asked_by(*sender, *number, setup, effects),
            Input::Message { sender, msg } => self.hear(*sender, msg, setup, effects),
        }
        slots
    }

    /// Undoes a reaction: restores the conduct and the changed slots.
    pub fn take_back(&mut self, conduct: Conduct, slots: Slots)
        requires { IsPlacedSlots slots }
        ensures { self.new ≡ coordinator_before conduct slots self.old }
    {
        self.conduct = conduct;
        put_back(&mut self.waiting, slots.begun);
        put_back(&mut self.waiting, slots.asked);
    }
}
