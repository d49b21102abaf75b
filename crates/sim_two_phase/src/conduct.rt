//! The coordinator's handling of the current transaction: all of its state but the waiting hosts.
ghost use Rattle.std.specs.Prelude.{◌≡◌, ◌+◌, ◌<◌, ◌≤◌, ◌++◌, [], length};
ghost use Rattle.sim_node.specs.Node.{IsHostSetup};
ghost use Rattle.sim_hosts.specs.Reactions.{asked_for};
ghost use Rattle.sim_two_phase.specs.TwoPhase.{forced_by_coordinator, telling, started, committed};
ghost use Rattle.sim_two_phase.specs.TwoPhase.{voted_yes, voted_no, voted, seen, may_tell};
ghost use Rattle.sim_two_phase.specs.TwoPhase.{inquired, asked_again, timed_out, settled};
ghost use Rattle.sim_two_phase.specs.TwoPhase.{coordinator_synced};
ghost use Rattle.sim_two_phase.specs.TwoPhaseRecords.{IsPlacedConduct};

use crate::disk::{force, noted};
use crate::{CommitMsg, Conduct, First, Owed, Phase};
use sim_hosts::{HostSet, send_to_all, send_to_missing};
use sim_node::{Effects, HostSetup};

/// How long the coordinator waits for the participants before it sends again (ms).
pub const PATIENCE: u32 = 100;

/// How long it rests before it looks for the next client (ms).
const PAUSE: u32 = 1;

impl Conduct {
    /// Writes the conduct to the disk, and asks for a sync.
    pub fn force(&self, effects: &mut Effects<CommitMsg>)
        requires { length effects.old.list < 38 }
        ensures { effects.new ≡ record effects.old {
          list = effects.old.list ++ forced_by_coordinator self.now;
        } }
    {
        force(self.transaction, self.commits as u8, self.first, effects);
    }

    /// Sends all participants the commit of the transaction.
    fn tell(&self, setup: &HostSetup, effects: &mut Effects<CommitMsg>)
        requires setup { IsHostSetup setup.now }
        requires room { length effects.old.list < 8 }
        requires hosts { effects.old.hosts ≡ setup.now.hosts }
        ensures { effects.new ≡ record effects.old {
          list = effects.old.list ++ telling setup.now self.now;
        } }
    {
        send_to_all(1, setup, CommitMsg::Decide(true, self.transaction), effects);
        effects.timer(PATIENCE);
    }

    /// Handles the start: reports the commit that the disk has.
    pub fn start(&mut self, setup: &HostSetup, effects: &mut Effects<CommitMsg>)
        requires setup { IsHostSetup setup.now }
        requires placed { IsPlacedConduct setup.now.hosts self.old }
        requires empty { effects.old ≡ asked_for setup.now [] }
        ensures state { self.new ≡ (started setup.now self.old).0 }
        ensures placed { IsPlacedConduct setup.now.hosts self.new }
        ensures effects { effects.new ≡ asked_for setup.now (started setup.now self.old).1 }
    {
        if self.commits {
            self.phase = Phase::Telling {
                told: HostSet::nobody(),
            };
            self.tell(setup, effects);
        }
    }

    /// Commits after the last vote, and owes the client an answer.
    fn commit(
        &mut self,
        client: u16,
        number: u64,
        setup: &HostSetup,
        effects: &mut Effects<CommitMsg>,
    )
        requires client { client < setup.now.hosts }
        requires placed { IsPlacedConduct setup.now.hosts self.old }
        requires empty { effects.old ≡ asked_for setup.now [] }
        ensures state { self.new ≡ (committed client number self.old).0 }
        ensures placed { IsPlacedConduct setup.now.hosts self.new }
        ensures effects { effects.new ≡ asked_for setup.now (committed client number self.old).1 }
    {
        self.commits = true;
        self.first = noted(self.transaction, First::Committed, self.first);
        self.phase = Phase::Telling {
            told: HostSet::nobody(),
        };
        self.unsure = self.unsure.saturating_add(1);
        self.owed = Some(Owed { client, number });
        self.force(effects);
        effects.timer(PATIENCE);
    }

    /// Handles a vote for the transaction.
    fn voted_yes(
        &mut self,
        from: u16,
        asker: Owed,
        votes: HostSet,
        setup: &HostSetup,
        effects: &mut Effects<CommitMsg>,
    )
        requires setup { IsHostSetup setup.now }
        requires client { asker.client < setup.now.hosts }
        requires from { from < setup.now.hosts }
        requires placed { IsPlacedConduct setup.now.hosts self.old }
        requires empty { effects.old ≡ asked_for setup.now [] }
        ensures state { self.new
            ≡ (voted_yes from asker.client asker.number votes setup.now self.old).0 }
        ensures placed { IsPlacedConduct setup.now.hosts self.new }
        ensures effects { effects.new ≡ asked_for setup.now
            (voted_yes from asker.client asker.number votes setup.now self.old).1 }
    {
        let Owed { client, number } = asker;
        let votes = votes.joined(from);
        if votes.has_servers_from(1, setup) {
            self.commit(client, number, setup, effects);
        } else {
            self.phase = Phase::Voting {
                client,
                number,
                votes,
            };
        }
    }

    /// Handles a vote against the transaction.
    fn voted_no(
        &mut self,
        client: u16,
        number: u64,
        setup: &HostSetup,
        effects: &mut Effects<CommitMsg>,
    )
        requires setup { IsHostSetup setup.now }
        requires client { client < setup.now.hosts }
        requires placed { IsPlacedConduct setup.now.hosts self.old }
        requires empty { effects.old ≡ asked_for setup.now [] }
        ensures state { self.new ≡ (voted_no client number setup.now self.old).0 }
        ensures placed { IsPlacedConduct setup.now.hosts self.new }
        ensures effects { effects.new ≡ asked_for setup.now
            (voted_no client number setup.now self.old).1 }
    {
        self.first = noted(self.transaction, First::Aborted, self.first);
        self.phase = Phase::Resting;
        self.unsure = self.unsure.saturating_add(1);
        self.force(effects);
        effects.send(client, CommitMsg::Answer(false, number));
        send_to_all(
            1,
            setup,
            CommitMsg::Decide(false, self.transaction),
            effects,
        );
        effects.timer(PAUSE);
    }

    /// Handles a vote on the transaction.
    pub fn voted(
        &mut self,
        from: u16,
        agrees: bool,
        setup: &HostSetup,
        effects: &mut Effects<CommitMsg>,
    )
        requires setup { IsHostSetup setup.now }
        requires from { from < setup.now.hosts }
        requires placed { IsPlacedConduct setup.now.hosts self.old }
        requires empty { effects.old ≡ asked_for setup.now [] }
        ensures state { self.new ≡ (voted from agrees self.old.phase setup.now self.old).0 }
        ensures placed { IsPlacedConduct setup.now.hosts self.new }
        ensures effects { effects.new ≡ asked_for setup.now
            (voted from agrees self.old.phase setup.now self.old).1 }
    {
        if let Phase::Voting {
            client,
            number,
            votes,
        } = self.phase
        {
            if agrees {
                let asker = Owed { client, number };
                self.voted_yes(from, asker, votes, setup, effects);
            } else {
                self.voted_no(client, number, setup, effects);
            }
        }
    }

    /// Notes that a participant has seen the commit of the transaction.
    pub fn seen(&mut self, from: u16, setup: &HostSetup, effects: &mut Effects<CommitMsg>)
        requires setup { IsHostSetup setup.now }
        requires from { from < setup.now.hosts }
        requires placed { IsPlacedConduct setup.now.hosts self.old }
        requires empty { effects.old ≡ asked_for setup.now [] }
        ensures state { self.new ≡ (seen from self.old.phase setup.now self.old).0 }
        ensures placed { IsPlacedConduct setup.now.hosts self.new }
        ensures effects { effects.new ≡ asked_for setup.now
            (seen from self.old.phase setup.now self.old).1 }
    {
        if let Phase::Telling { told } = self.phase {
            let told = told.joined(from);
            if told.has_servers_from(1, setup) {
                self.phase = Phase::Resting;
                effects.timer(PAUSE);
            } else {
                self.phase = Phase::Telling { told };
            }
        }
    }

    /// Returns whether the coordinator may report the outcome of its transaction: all votes have
    /// come, and a commit is stable.
    fn may_tell(&self) -> bool
        ensures { result ≡ may_tell self.now.phase self.now.unsure }
    {
        match self.phase {
            Phase::Resting => true,
            Phase::Voting { .. } => false,
            Phase::Telling { .. } => self.unsure == 0,
        }
    }

    /// Handles a host's question for the outcome of a transaction.
    pub fn inquired(&self, from: u16, u: u64, setup: &HostSetup, effects: &mut Effects<CommitMsg>)
        requires from { from < setup.now.hosts }
        requires empty { effects.old ≡ asked_for setup.now [] }
        ensures { effects.new ≡ asked_for setup.now (inquired from u self.now).1 }
    {
        if u < self.transaction {
            effects.send(from, CommitMsg::Decide(false, u));
        } else if u == self.transaction && self.may_tell() {
            effects.send(from, CommitMsg::Decide(self.commits, u));
        }
    }

    /// Sends again to the participants that have not answered yet.
    fn ask_again(&self, setup: &HostSetup, effects: &mut Effects<CommitMsg>)
        requires setup { IsHostSetup setup.now }
        requires empty { effects.old ≡ asked_for setup.now [] }
        ensures room { length effects.new.list ≤ setup.now.servers }
        ensures effects { effects.new ≡ asked_for setup.now
            (asked_again self.now.phase setup.now self.now) }
    {
        match self.phase {
            Phase::Resting => {}
            Phase::Voting { votes, .. } => {
                send_to_missing(
                    1,
                    setup,
                    votes,
                    CommitMsg::Prepare(self.transaction),
                    effects,
                );
            }
            Phase::Telling { told } => {
                let decide = CommitMsg::Decide(true, self.transaction);
                send_to_missing(1, setup, told, decide, effects);
            }
        }
    }

    /// Handles the timer during a transaction.
    pub fn timed_out(&self, setup: &HostSetup, effects: &mut Effects<CommitMsg>)
        requires setup { IsHostSetup setup.now }
        requires empty { effects.old ≡ asked_for setup.now [] }
        ensures { effects.new ≡ asked_for setup.now (timed_out setup.now self.now).1 }
    {
        if self.unsure == 0 {
            self.ask_again(setup, effects);
        }
        effects.timer(PATIENCE);
    }

    /// Goes on once settled: asks for votes, or answers the client and reports the commit.
    fn settle(&mut self, setup: &HostSetup, effects: &mut Effects<CommitMsg>)
        requires setup { IsHostSetup setup.now }
        requires placed { IsPlacedConduct setup.now.hosts self.old }
        requires empty { effects.old ≡ asked_for setup.now [] }
        ensures state { self.new ≡ (settled self.old.phase self.old.owed setup.now self.old).0 }
        ensures placed { IsPlacedConduct setup.now.hosts self.new }
        ensures effects { effects.new ≡ asked_for setup.now
            (settled self.old.phase self.old.owed setup.now self.old).1 }
    {
        match (self.phase, self.owed) {
            (Phase::Voting { .. }, _) => {
                self.ask_again(setup, effects);
                effects.timer(PATIENCE);
            }
            (Phase::Telling { .. }, Some(owed)) => {
                self.owed = None;
                effects.send(owed.client, CommitMsg::Answer(true, owed.number));
                self.tell(setup, effects);
            }
            _ => {}
        }
    }

    /// Handles a sync.
    pub fn synced(&mut self, setup: &HostSetup, effects: &mut Effects<CommitMsg>)
        requires setup { IsHostSetup setup.now }
        requires placed { IsPlacedConduct setup.now.hosts self.old }
        requires empty { effects.old ≡ asked_for setup.now [] }
        ensures state { self.new ≡ (coordinator_synced setup.now self.old).0 }
        ensures placed { IsPlacedConduct setup.now.hosts self.new }
        ensures effects { effects.new ≡ asked_for setup.now
            (coordinator_synced setup.now self.old).1 }
    {
        self.unsure = self.unsure.saturating_sub(1);
        if self.unsure == 0 {
            self.settle(setup, effects);
        }
    }
}
