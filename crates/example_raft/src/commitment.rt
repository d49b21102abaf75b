ghost use Rattle.std.specs.Prelude.{◌≡◌, ◌+◌, ◌<◌, ◌≤◌, ◌++◌, length};
ghost use Rattle.sim_node.specs.Node.{IsHostSetup};
ghost use Rattle.example_raft.specs.declared.roles.Rank.TheVariants as rank;
ghost use Rattle.example_raft.specs.RaftLog.{place_of};
ghost use Rattle.example_raft.specs.Raft.{append_of, spread, holders, may_commit, fin_of, commits};
ghost use Rattle.example_raft.specs.Raft.{known_of, sends_next, advanced, heard_back, acked};
ghost use Rattle.example_raft.specs.Raft.{put_by};
ghost use Rattle.example_raft.specs.Reacting.{asking, IsContext, MayReact, Reacted, LeadsBack};

use crate::elections::send_to_others;
use crate::standing::{is_majority, term_of, value_of};
use crate::{Ack, Append, Change, Context, Message, Rank, Server};
use sim_node::{Effects, HostSetup};

/// Sends the client of a value the answer that it is committed.
fn tell_client(value: u64, setup: &HostSetup, effects: &mut Effects<Message>)
    requires room { length effects.old.list < 8 }
    requires hosts { effects.old.hosts ≡ setup.now.hosts }
    ensures room { length effects.new.list ≤ length effects.old.list + 1 }
    ensures sent { effects.new ≡ asking (fin_of value setup.now) effects.old }
{
    let client = value.saturating_sub(1) / 1000;
    if setup.servers as u64 <= client && client < setup.hosts as u64 {
        effects.send(client as u16, Message::Fin(value));
    }
}

impl Server {
    /// Returns a leader's message about the entry at a place.
    pub fn append_of(&self, place: u8) -> Message
        requires len { self.now.standing.len ≤ 64 }
        requires place { place ≤ 64 }
        ensures { result ≡ append_of place self.now }
    {
        let standing = &self.standing;
        Message::Append(Append {
            term: standing.term,
            prev: place,
            before: term_of(place, &self.log),
            entry: if place < standing.len {
                Some(self.log[place as usize])
            } else {
                None
            },
            commit: standing.commit,
        })
    }

    /// Sends the last entry to all other servers.
    pub fn spread(&self, here: &Context, effects: &mut Effects<Message>)
        requires here { IsContext here.now }
        requires len { self.now.standing.len ≤ 64 }
        requires room { length effects.old.list < 8 }
        requires hosts { effects.old.hosts ≡ here.now.setup.hosts }
        ensures room { length effects.new.list ≤ length effects.old.list + here.now.setup.servers }
        ensures sent { effects.new ≡ asking (spread here.now self.now) effects.old }
    {
        let msg = self.append_of(self.standing.len.saturating_sub(1));
        send_to_others(here, msg, effects);
    }

    /// Returns how many servers have acknowledged `n` entries in this term.
    fn holders(&self, n: u8, setup: &HostSetup) -> u32
        requires { IsHostSetup setup.now }
        ensures value { result ≡ holders n setup.now self.now }
        ensures few { result ≤ 32 }
    {
        let term = self.standing.term;
        let peers = &self.peers[..setup.servers as usize];
        peers
            .iter()
            .filter(|peer| peer.term == term && n <= peer.has)
            .count() as u32
    }

    /// Returns whether the leader may commit `n` entries.
    fn may_commit(&self, n: u8, here: &Context) -> bool
        requires here { IsContext here.now }
        requires len { self.now.standing.len ≤ 64 }
        ensures { result ≡ may_commit here.now n self.now }
    {
        self.standing.commit < n
            && n <= self.standing.len
            && (here.rules.eager || term_of(n, &self.log) == self.standing.term)
            && is_majority(self.holders(n, &here.setup) + 1, &here.setup)
    }

    /// Commits `n` entries if the leader may, and answers the client of the last one.
    pub fn commit(&mut self, n: u8, here: &Context, effects: &mut Effects<Message>)
        requires { MayReact here.now self.old effects.old }
        ensures room { length effects.new.list ≤ 1 }
        ensures did { Reacted here.now (commits here.now n self.old) self.new effects.new }
    {
        if self.may_commit(n, here) {
            self.standing.commit = n;
            tell_client(value_of(n, &self.log), &here.setup, effects);
        }
    }

    /// Returns how many entries a host has acknowledged in this term.
    fn known_of(&self, host: u16) -> u8
        requires { host < 32 }
        ensures { result ≡ known_of host self.now }
    {
        let peer = self.peers[host as usize];
        if peer.term == self.standing.term {
            peer.has
        } else {
            0
        }
    }

    /// Sends a follower the entry at a place, if the leader is settled.
    fn send_next(&self, to: u16, place: u8, effects: &mut Effects<Message>)
        requires len { self.now.standing.len ≤ 64 }
        requires place { place ≤ 64 }
        requires to { to < effects.old.hosts }
        requires room { length effects.old.list < 8 }
        ensures { effects.new ≡ asking (sends_next to place self.now) effects.old }
    {
        if self.standing.is_settled() {
            effects.send(to, self.append_of(place));
        }
    }

    /// Notes that a follower has more of the log than before: commits what it may, and sends the
    /// next entry.
    fn advance(
        &mut self,
        from: u16,
        at: u8,
        here: &Context,
        effects: &mut Effects<Message>,
    ) -> Change
        requires from { from < here.now.setup.hosts }
        requires may { MayReact here.now self.old effects.old }
        ensures did { Reacted here.now (advanced here.now from at self.old) self.new effects.new }
        ensures back { LeadsBack result self.old self.new }
    {
        let len = self.standing.len;
        let change = self.note(from, at);
        self.commit(at, here, effects);
        if at < len {
            self.send_next(from, at, effects);
        }
        change
    }

    /// Handles a follower's answer in this term.
    fn hear_back(
        &mut self,
        from: u16,
        agrees: bool,
        at: u8,
        here: &Context,
        effects: &mut Effects<Message>,
    ) -> Change
        requires from { from < here.now.setup.hosts }
        requires may { MayReact here.now self.old effects.old }
        ensures did { Reacted here.now (heard_back agrees here.now from at self.old) self.new
            effects.new }
        ensures back { LeadsBack result self.old self.new }
    {
        if agrees {
            if self.known_of(from) < at {
                return self.advance(from, at, here, effects);
            }
        } else if at <= self.standing.len {
            self.send_next(from, at, effects);
        }
        Change::Nothing
    }

    /// Handles a server's answer to the leader of a term.
    pub fn hear_ack(
        &mut self,
        from: u16,
        ack: &Ack,
        here: &Context,
        effects: &mut Effects<Message>,
    ) -> Change
        requires from { from < here.now.setup.hosts }
        requires may { MayReact here.now self.old effects.old }
        ensures did { Reacted here.now (acked self.old.standing.rank here.now from ack.now self.old)
            self.new effects.new }
        ensures back { LeadsBack result self.old self.new }
    {
        if self.standing.term < ack.term {
            self.step_down(ack.term, here, effects);
            return Change::Nothing;
        }
        match self.standing.rank {
            Rank::Leader if ack.term == self.standing.term => {
                self.hear_back(from, ack.agrees, ack.at, here, effects)
            }
            _ => Change::Nothing,
        }
    }

    /// Returns the first place of the log with a value.
    fn place_of(&self, value: u64) -> Option<usize>
        requires { self.now.standing.len ≤ 64 }
        ensures { result ≡ place_of value self.now.standing.len self.now.log }
    {
        let log = &self.log[..self.standing.len as usize];
        log.iter().position(|entry| entry.value == value)
    }

    /// Handles a client's value as a leader.
    fn put(
        &mut self,
        from: u16,
        value: u64,
        here: &Context,
        effects: &mut Effects<Message>,
    ) -> Change
        requires from { from < here.now.setup.hosts }
        requires may { MayReact here.now self.old effects.old }
        ensures did { Reacted here.now (put_by rank.Leader from value self.old) self.new
            effects.new }
        ensures back { LeadsBack result self.old self.new }
    {
        match self.place_of(value) {
            None => self.append(value, effects),
            Some(place) => {
                if place < self.standing.commit as usize {
                    effects.send(from, Message::Fin(value));
                }
                Change::Nothing
            }
        }
    }

    /// Handles a client's value.
    pub fn hear_put(
        &mut self,
        from: u16,
        value: u64,
        here: &Context,
        effects: &mut Effects<Message>,
    ) -> Change
        requires from { from < here.now.setup.hosts }
        requires may { MayReact here.now self.old effects.old }
        ensures did { Reacted here.now (put_by self.old.standing.rank from value self.old) self.new
            effects.new }
        ensures back { LeadsBack result self.old self.new }
    {
        if matches!(self.standing.rank, Rank::Leader) {
            return self.put(from, value, here, effects);
        }
        if let Some(leader) = self.standing.leader {
            effects.send(from, Message::Try(leader));
        }
        Change::Nothing
    }
}
