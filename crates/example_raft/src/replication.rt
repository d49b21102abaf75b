ghost use Rattle.std.specs.Prelude.{◌≡◌, ◌<◌, ◌≤◌, ◌++◌, length};
ghost use Rattle.example_raft.specs.Raft.{follower_of, fits, verified, acknowledges, agreed, took};
ghost use Rattle.example_raft.specs.Raft.{told_entry, lacks, joins, told};
ghost use Rattle.example_raft.specs.Reacting.{asking, MayReact, Reacted, LeadsBack};

use crate::disk::{save_entry, save_vote};
use crate::standing::{set_timeout, term_of};
use crate::{Ack, Append, Change, Context, Entry, Message, Rank, Server, Standing};
use sim_node::Effects;

impl Standing {
    /// Returns the standing of a follower of this leader.
    fn follower_of(&self, from: u16) -> Standing
        ensures { result ≡ follower_of from self.now }
    {
        Standing {
            rank: Rank::Follower,
            leader: Some(from),
            ..*self
        }
    }

    /// Returns the standing that also knows `n` entries to be the leader's, and as many of them to
    /// be committed as `commit` says.
    fn verified(&self, n: u8, commit: u8) -> Standing
        ensures { result ≡ verified n commit self.now }
    {
        Standing {
            matched: self.matched.max(n),
            commit: self.commit.max(commit.min(n)),
            ..*self
        }
    }

    /// Answers a leader, if it is settled.
    fn acknowledge(&self, to: u16, agrees: bool, at: u8, effects: &mut Effects<Message>)
        requires to { to < effects.old.hosts }
        requires room { length effects.old.list < 8 }
        ensures { effects.new ≡ asking (acknowledges to agrees at self.now) effects.old }
    {
        if self.is_settled() {
            let term = self.term;
            effects.send(to, Message::Appended(Ack { agrees, at, term }));
        }
    }
}

impl Server {
    /// Returns whether the log has the entries before the one of a message.
    fn fits(&self, append: &Append) -> bool
        requires { self.now.standing.len ≤ 64 }
        ensures { result ≡ fits append.now self.now }
    {
        append.prev <= self.standing.len && term_of(append.prev, &self.log) == append.before
    }

    /// Handles a message of the leader when the log has its `n` entries already.
    fn agree(
        &mut self,
        from: u16,
        n: u8,
        commit: u8,
        here: &Context,
        effects: &mut Effects<Message>,
    )
        requires from { from < here.now.setup.hosts }
        requires may { MayReact here.now self.old effects.old }
        ensures { Reacted here.now (agreed here.now from n commit self.old) self.new effects.new }
    {
        self.standing = self.standing.follower_of(from).verified(n, commit);
        set_timeout(here.word, effects);
        let matched = self.standing.matched;
        self.standing.acknowledge(from, true, matched, effects);
    }

    /// Takes an entry of the leader.
    fn take(
        &mut self,
        from: u16,
        append: &Append,
        entry: Entry,
        here: &Context,
        effects: &mut Effects<Message>,
    ) -> Change
        requires from { from < here.now.setup.hosts }
        requires place { append.now.prev < 64 }
        requires may { MayReact here.now self.old effects.old }
        ensures did { Reacted here.now (took here.now from append.now entry self.old) self.new
            effects.new }
        ensures back { LeadsBack result self.old self.new }
    {
        let place = append.prev;
        let follower = self.standing.follower_of(from);
        self.standing = follower.verified(place + 1, append.commit);
        let change = self.keep(place, entry);
        save_entry(place, &self.log, effects);
        set_timeout(here.word, effects);
        change
    }

    /// Handles a leader's message when the log has the entries before it.
    fn hear_entry(
        &mut self,
        from: u16,
        append: &Append,
        here: &Context,
        effects: &mut Effects<Message>,
    ) -> Change
        requires from { from < here.now.setup.hosts }
        requires may { MayReact here.now self.old effects.old }
        ensures did { Reacted here.now (told_entry append.now.entry here.now from append.now
            self.old)
            self.new effects.new }
        ensures back { LeadsBack result self.old self.new }
    {
        let prev = append.prev;
        let commit = append.commit;
        let Some(entry) = append.entry else {
            self.agree(from, prev, commit, here, effects);
            return Change::Nothing;
        };
        if prev < self.standing.len && term_of(prev + 1, &self.log) == entry.term {
            self.agree(from, prev + 1, commit, here, effects);
            return Change::Nothing;
        }
        if prev < 64 {
            return self.take(from, append, entry, here, effects);
        }
        self.agree(from, prev, commit, here, effects);
        Change::Nothing
    }

    /// Handles a leader's message when the log lacks an entry before it.
    fn lack(&mut self, from: u16, prev: u8, here: &Context, effects: &mut Effects<Message>)
        requires from { from < here.now.setup.hosts }
        requires may { MayReact here.now self.old effects.old }
        ensures { Reacted here.now (lacks here.now from prev self.old) self.new effects.new }
    {
        let at = self.standing.len.min(prev.saturating_sub(1));
        self.standing = self.standing.follower_of(from);
        set_timeout(here.word, effects);
        self.standing.acknowledge(from, false, at, effects);
    }

    /// Follows the leader of a later term.
    fn join(&mut self, from: u16, term: u64, here: &Context, effects: &mut Effects<Message>)
        requires from { from < here.now.setup.hosts }
        requires may { MayReact here.now self.old effects.old }
        ensures { Reacted here.now (joins here.now from term self.old) self.new effects.new }
    {
        self.standing = self.standing.following(term).follower_of(from).waiting();
        save_vote(&self.standing, effects);
        set_timeout(here.word, effects);
    }

    /// Handles a leader's message about its log.
    pub fn hear_append(
        &mut self,
        from: u16,
        append: &Append,
        here: &Context,
        effects: &mut Effects<Message>,
    ) -> Change
        requires from { from < here.now.setup.hosts }
        requires may { MayReact here.now self.old effects.old }
        ensures did { Reacted here.now (told here.now from append.now self.old) self.new
            effects.new }
        ensures back { LeadsBack result self.old self.new }
    {
        if append.term < self.standing.term {
            self.standing.acknowledge(from, false, 0, effects);
        } else if self.standing.term < append.term {
            self.join(from, append.term, here, effects);
        } else if self.fits(append) {
            return self.hear_entry(from, append, here, effects);
        } else {
            self.lack(from, append.prev, here, effects);
        }
        Change::Nothing
    }
}
