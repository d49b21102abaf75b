ghost use Rattle.std.specs.Prelude.{◌≡◌, ◌<◌, []};
ghost use Rattle.sim_node.specs.Node.{IsFrom};
ghost use Rattle.sim_hosts.specs.Reactions.{asked_for};
ghost use Rattle.example_raft.specs.declared.roles.Rank.TheVariants as rank;
ghost use Rattle.example_raft.specs.Raft.{answered, settled, synced, timed_out, react_server};
ghost use Rattle.example_raft.specs.RaftRecords.{IsPlacedStanding};
ghost use Rattle.example_raft.specs.Reacting.{MayReact, Reacted, LeadsBack};

use crate::elections::{HEARTBEAT, send_to_others};
use crate::standing::{is_majority, set_timeout};
use crate::{Ack, Change, Context, Message, Rank, Server, Standing};
use sim_node::{Effects, HostSetup, Input};

impl Standing {
    /// As a settled follower, reports the log to the leader, or the vote to a candidate.
    fn answer(&self, setup: &HostSetup, effects: &mut Effects<Message>)
        requires placed { IsPlacedStanding setup.now.hosts self.now }
        requires empty { effects.old ≡ asked_for setup.now [] }
        ensures { effects.new ≡ asked_for setup.now (answered self.now.leader self.now.voted
            self.now) }
    {
        let term = self.term;
        if let Some(leader) = self.leader {
            let at = self.matched;
            let agrees = true;
            effects.send(leader, Message::Appended(Ack { agrees, at, term }));
        } else if let Some(candidate) = self.voted {
            effects.send(candidate, Message::Vote(true, term));
        }
    }
}

impl Server {
    /// As a settled leader, commits what it may, and sends its last entry.
    fn lead_on(&mut self, here: &Context, effects: &mut Effects<Message>)
        requires { MayReact here.now self.old effects.old }
        ensures { Reacted here.now (settled rank.Leader here.now self.old) self.new effects.new }
    {
        self.commit(self.standing.len, here, effects);
        self.spread(here, effects);
    }

    /// As a settled candidate, leads if its own vote is enough, and else asks for votes.
    fn seek(&mut self, here: &Context, effects: &mut Effects<Message>) -> Change
        requires { MayReact here.now self.old effects.old }
        ensures did { Reacted here.now (settled rank.Candidate here.now self.old) self.new
            effects.new }
        ensures back { LeadsBack result self.old self.new }
    {
        if is_majority(self.standing.votes.size(), &here.setup) {
            return self.lead(here, effects);
        }
        send_to_others(here, self.request(), effects);
        Change::Nothing
    }

    /// Goes on once settled, by its rank.
    fn settle(&mut self, here: &Context, effects: &mut Effects<Message>) -> Change
        requires { MayReact here.now self.old effects.old }
        ensures did { Reacted here.now (settled self.old.standing.rank here.now self.old) self.new
            effects.new }
        ensures back { LeadsBack result self.old self.new }
    {
        match self.standing.rank {
            Rank::Follower => self.standing.answer(&here.setup, effects),
            Rank::Candidate => return self.seek(here, effects),
            Rank::Leader => self.lead_on(here, effects),
        }
        Change::Nothing
    }

    /// Handles a sync.
    fn hear_sync(&mut self, here: &Context, effects: &mut Effects<Message>) -> Change
        requires { MayReact here.now self.old effects.old }
        ensures did { Reacted here.now (synced here.now self.old) self.new effects.new }
        ensures back { LeadsBack result self.old self.new }
    {
        self.standing.unsure = self.standing.unsure.saturating_sub(1);
        if self.standing.is_settled() {
            self.settle(here, effects)
        } else {
            Change::Nothing
        }
    }

    /// Handles the timer.
    fn time_out(&mut self, here: &Context, effects: &mut Effects<Message>)
        requires { MayReact here.now self.old effects.old }
        ensures { Reacted here.now (timed_out self.old.standing.rank here.now self.old) self.new
            effects.new }
    {
        match self.standing.rank {
            Rank::Leader => {
                if self.standing.is_settled() {
                    self.spread(here, effects);
                }
                effects.timer(HEARTBEAT);
            }
            _ => self.stand(here, effects),
        }
    }

    /// Reacts to an input. Returns the change of the log or of what the server knows of the others.
    pub fn react(
        &mut self,
        here: &Context,
        input: &Input<Message>,
        effects: &mut Effects<Message>,
    ) -> Change
        requires sender { IsFrom here.now.setup.hosts input.now }
        requires may { MayReact here.now self.old effects.old }
        ensures did { Reacted here.now (react_server here.now self.old input.now) self.new
            effects.new }
        ensures back { LeadsBack result self.old self.new }
    {
        match input {
            Input::Start => set_timeout(here.word, effects),
            Input::Timer => self.time_out(here, effects),
            Input::Synced => return self.hear_sync(here, effects),
            Input::Message { sender, msg } => match msg {
                Message::Put(value) => return self.hear_put(*sender, *value, here, effects),
                Message::RequestVote(ask) => self.hear_request(*sender, ask, here, effects),
                Message::Vote(agrees, term) => {
                    return self.hear_vote(*sender, *agrees, *term, here, effects);
                }
                Message::Append(append) => return self.hear_append(*sender, append, here, effects),
                Message::Appended(ack) => return self.hear_ack(*sender, ack, here, effects),
                _ => {}
            },
        }
        Change::Nothing
    }
}
