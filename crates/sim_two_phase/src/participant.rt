//! The rows of a participant: it votes, waits for the decision, and asks for it again.
ghost use Rattle.std.specs.Prelude.{◌≡◌, ◌+◌, ◌<◌, ◌++◌, [], length};
ghost use Rattle.sim_hosts.specs.Reactions.{asked_for};
ghost use Rattle.sim_hosts.specs.Numbers.{raised};
ghost use Rattle.sim_two_phase.specs.TwoPhase.{is_prepared, byte_of_status, status_of_byte};
ghost use Rattle.sim_two_phase.specs.TwoPhase.{participant_at_boot, forced_by_participant};
ghost use Rattle.sim_two_phase.specs.TwoPhase.{inquires, passed_over, votes_yes, votes_no};
ghost use Rattle.sim_two_phase.specs.TwoPhase.{has_stable_vote, prepares, learns, has_seen};
ghost use Rattle.sim_two_phase.specs.TwoPhase.{decided, participant_synced, react_participant};

use crate::disk::{first_of_byte, force, noted};
use crate::{CommitMsg, First, Participant, Status};
use sim_hosts::{byte_at, number_at};
use sim_node::{Effects, HostSetup, Input};

/// How long a prepared participant waits before it asks for the outcome (ms).
const PATIENCE: u32 = 100;

impl Status {
    fn byte(self) -> u8
        ensures { result ≡ byte_of_status self }
    {
        match self {
            Status::Idle => 0,
            Status::Prepared => 1,
            Status::Committed => 2,
            Status::Aborted => 3,
        }
    }

    fn of_byte(byte: u8) -> Status
        ensures { result ≡ status_of_byte byte }
    {
        match byte {
            1 => Status::Prepared,
            2 => Status::Committed,
            3 => Status::Aborted,
            _ => Status::Idle,
        }
    }
}

impl Participant {
    /// Returns the participant that boots from these bytes of its disk.
    pub fn at_boot(disk: &[u8]) -> Participant
        ensures { result ≡ participant_at_boot disk.now }
    {
        Participant {
            transaction: number_at(disk, 0),
            status: Status::of_byte(byte_at(disk, 8)),
            first: first_of_byte(byte_at(disk, 9)),
            unsure: 0,
        }
    }

    fn is_prepared(&self) -> bool
        ensures { result ≡ is_prepared self.now.status }
    {
        self.status == Status::Prepared
    }

    /// Sets the transaction, the status and the outcome of transaction 1, and writes them to the
    /// disk.
    fn force(
        &mut self,
        transaction: u64,
        status: Status,
        first: First,
        effects: &mut Effects<CommitMsg>,
    )
        requires { length effects.old.list < 38 }
        ensures state { self.new ≡ record {
          transaction = transaction;
          status = status;
          first = first;
          unsure = raised self.old.unsure;
        } }
        ensures effects { effects.new ≡ record effects.old {
          list = effects.old.list ++ forced_by_participant self.new;
        } }
    {
        *self = Participant {
            transaction,
            status,
            first,
            unsure: self.unsure.saturating_add(1),
        };
        force(transaction, status.byte(), first, effects);
    }

    /// Asks for the outcome of the transaction, if the participant is prepared.
    fn inquire(&self, setup: &HostSetup, effects: &mut Effects<CommitMsg>)
        requires hosts { 0 < setup.now.hosts }
        requires empty { effects.old ≡ asked_for setup.now [] }
        ensures { effects.new ≡ asked_for setup.now (inquires self.now).1 }
    {
        if self.is_prepared() {
            effects.send(0, CommitMsg::Inquire(self.transaction));
            effects.timer(PATIENCE);
        }
    }

    /// Returns the outcome of transaction 1 once a later one is asked for.
    fn passed_over(&self) -> First
        ensures { result ≡ passed_over self.now }
    {
        if self.is_prepared() && self.transaction == 1 {
            First::Aborted
        } else {
            self.first
        }
    }

    fn vote_yes(&mut self, u: u64, setup: &HostSetup, effects: &mut Effects<CommitMsg>)
        requires empty { effects.old ≡ asked_for setup.now [] }
        ensures state { self.new ≡ (votes_yes u self.old).0 }
        ensures effects { effects.new ≡ asked_for setup.now (votes_yes u self.old).1 }
    {
        self.force(u, Status::Prepared, self.passed_over(), effects);
        effects.timer(PATIENCE);
    }

    fn vote_no(&mut self, u: u64, setup: &HostSetup, effects: &mut Effects<CommitMsg>)
        requires hosts { 0 < setup.now.hosts }
        requires empty { effects.old ≡ asked_for setup.now [] }
        ensures state { self.new ≡ (votes_no u self.old).0 }
        ensures effects { effects.new ≡ asked_for setup.now (votes_no u self.old).1 }
    {
        let first = noted(u, First::Aborted, self.passed_over());
        self.force(u, Status::Aborted, first, effects);
        effects.send(0, CommitMsg::Vote(false, u));
    }

    /// Returns whether the participant has voted on this transaction and its vote is stable.
    fn has_stable_vote(&self, u: u64) -> bool
        ensures { result ≡ has_stable_vote u self.now }
    {
        u == self.transaction
            && (self.status == Status::Prepared || self.status == Status::Aborted)
            && self.unsure == 0
    }

    /// Handles a request for a vote; the random word of the turn decides a new vote.
    fn prepare(&mut self, u: u64, word: u32, setup: &HostSetup, effects: &mut Effects<CommitMsg>)
        requires hosts { 0 < setup.now.hosts }
        requires empty { effects.old ≡ asked_for setup.now [] }
        ensures state { self.new ≡ (prepares u word self.old).0 }
        ensures effects { effects.new ≡ asked_for setup.now (prepares u word self.old).1 }
    {
        if self.transaction < u {
            if word % 8 == 0 {
                self.vote_no(u, setup, effects);
            } else {
                self.vote_yes(u, setup, effects);
            }
        } else if self.has_stable_vote(u) {
            effects.send(0, CommitMsg::Vote(self.is_prepared(), u));
        }
    }

    /// Handles the outcome of the transaction for which the participant is prepared.
    fn learn(&mut self, u: u64, commit: bool, setup: &HostSetup, effects: &mut Effects<CommitMsg>)
        requires empty { effects.old ≡ asked_for setup.now [] }
        requires this { u ≡ self.old.transaction }
        ensures state { self.new ≡ (learns u commit self.old).0 }
        ensures effects { effects.new ≡ asked_for setup.now (learns u commit self.old).1 }
    {
        let (status, outcome) = if commit {
            (Status::Committed, First::Committed)
        } else {
            (Status::Aborted, First::Aborted)
        };
        self.force(u, status, noted(u, outcome, self.first), effects);
    }

    /// Returns whether the participant has a stable commit of this transaction, or is past it.
    fn has_seen(&self, u: u64) -> bool
        ensures { result ≡ has_seen u self.now }
    {
        self.unsure == 0
            && (u < self.transaction || (u == self.transaction && self.status == Status::Committed))
    }

    fn decided(&mut self, u: u64, commit: bool, setup: &HostSetup, effects: &mut Effects<CommitMsg>)
        requires hosts { 0 < setup.now.hosts }
        requires empty { effects.old ≡ asked_for setup.now [] }
        ensures state { self.new ≡ (decided u commit self.old).0 }
        ensures effects { effects.new ≡ asked_for setup.now (decided u commit self.old).1 }
    {
        if u == self.transaction && self.is_prepared() {
            self.learn(u, commit, setup, effects);
        } else if commit && self.has_seen(u) {
            effects.send(0, CommitMsg::Seen(u));
        }
    }

    /// Handles a sync. If the participant is settled, it reports what is now stable.
    fn synced(&mut self, setup: &HostSetup, effects: &mut Effects<CommitMsg>)
        requires hosts { 0 < setup.now.hosts }
        requires empty { effects.old ≡ asked_for setup.now [] }
        ensures state { self.new ≡ (participant_synced self.old).0 }
        ensures effects { effects.new ≡ asked_for setup.now (participant_synced self.old).1 }
    {
        self.unsure = self.unsure.saturating_sub(1);
        if self.unsure == 0 {
            match self.status {
                Status::Prepared => effects.send(0, CommitMsg::Vote(true, self.transaction)),
                Status::Committed => effects.send(0, CommitMsg::Seen(self.transaction)),
                Status::Idle | Status::Aborted => {}
            }
        }
    }

    /// Reacts to an input, with the random word of the turn.
    pub fn react(
        &mut self,
        setup: &HostSetup,
        input: &Input<CommitMsg>,
        word: u32,
        effects: &mut Effects<CommitMsg>,
    )
        requires hosts { 0 < setup.now.hosts }
        requires empty { effects.old ≡ asked_for setup.now [] }
        ensures state { self.new ≡ (react_participant self.old input.now word).0 }
        ensures effects { effects.new ≡ asked_for setup.now
            (react_participant self.old input.now word).1 }
    {
        match input {
            Input::Start | Input::Timer => self.inquire(setup, effects),
            Input::Synced => self.synced(setup, effects),
            Input::Message { msg, .. } => match msg {
                CommitMsg::Prepare(u) => self.prepare(*u, word, setup, effects),
                CommitMsg::Decide(commit, u) => self.decided(*u, *commit, setup, effects),
                _ => {}
            },
        }
    }
}
