ghost use Rattle.std.specs.Prelude.{◌≡◌, ◌+◌, ◌<◌, ◌≤◌, ◌++◌, length};
ghost use Rattle.example_raft.specs.Raft.{appended, anew, steps_down, stands, leads, request_of};
ghost use Rattle.example_raft.specs.Raft.{is_free, is_new, last_term, grants, granted, asked};
ghost use Rattle.example_raft.specs.Raft.{elected, voted_by, to_others};
ghost use Rattle.example_raft.specs.Reacting.{asking, IsContext, MayReact, Reacted, LeadsBack};

use crate::disk::{save_entry, save_vote};
use crate::standing::{is_majority, set_timeout, term_of};
use crate::{Ask, Change, Context, Entry, Message, Rank, Server, Standing};
use sim_hosts::{HostSet, send_to_missing};
use sim_node::Effects;

/// How long a leader waits before it sends again (ms).
pub const HEARTBEAT: u32 = 50;

/// The value of a leader's first entry.
const BLANK: u64 = 1;

/// Returns whether a server with this vote may vote for the candidate.
fn is_free(voted: Option<u16>, candidate: u16) -> bool
    ensures { result ≡ is_free voted candidate }
{
    match voted {
        None => true,
        Some(voted) => voted == candidate,
    }
}

/// Sends a message to all other servers.
pub fn send_to_others(here: &Context, msg: Message, effects: &mut Effects<Message>)
    requires here { IsContext here.now }
    requires room { length effects.old.list < 8 }
    requires hosts { effects.old.hosts ≡ here.now.setup.hosts }
    ensures room { length effects.new.list ≤ length effects.old.list + here.now.setup.servers }
    ensures sent { effects.new ≡ asking (to_others here.now msg) effects.old }
{
    let myself = HostSet::nobody().joined(here.me);
    send_to_missing(0, &here.setup, myself, msg, effects);
}

/// Sets the timer of a leader that steps down.
fn set_anew(rank: Rank, word: u32, effects: &mut Effects<Message>)
    requires { length effects.old.list < 38 }
    ensures { effects.new ≡ asking (anew rank word) effects.old }
{
    match rank {
        Rank::Leader => set_timeout(word, effects),
        _ => {}
    }
}

impl Server {
    /// Appends an entry of the server's own term, unless the log is full.
    pub fn append(&mut self, value: u64, effects: &mut Effects<Message>) -> Change
        requires len { self.old.standing.len ≤ 64 }
        requires room { length effects.old.list < 8 }
        ensures state { self.new ≡ (appended value self.old).0 }
        ensures effects { effects.new ≡ asking (appended value self.old).1 effects.old }
        ensures room { length effects.new.list ≤ length effects.old.list + 2 }
        ensures back { LeadsBack result self.old self.new }
    {
        let place = self.standing.len;
        if place < 64 {
            let term = self.standing.term;
            let change = self.keep(place, Entry { term, value });
            save_entry(place, &self.log, effects);
            change
        } else {
            Change::Nothing
        }
    }

    /// Steps down to follow in a later term.
    pub fn step_down(&mut self, term: u64, here: &Context, effects: &mut Effects<Message>)
        requires { MayReact here.now self.old effects.old }
        ensures { Reacted here.now (steps_down here.now term self.old) self.new effects.new }
    {
        let rank = self.standing.rank;
        self.standing = self.standing.following(term).waiting();
        save_vote(&self.standing, effects);
        set_anew(rank, here.word, effects);
    }

    /// Becomes a candidate in the next term.
    pub fn stand(&mut self, here: &Context, effects: &mut Effects<Message>)
        requires { MayReact here.now self.old effects.old }
        ensures { Reacted here.now (stands here.now self.old) self.new effects.new }
    {
        self.standing = self.standing.candidacy(here.me);
        save_vote(&self.standing, effects);
        set_timeout(here.word, effects);
    }

    /// Becomes the leader, and appends a blank entry.
    pub fn lead(&mut self, here: &Context, effects: &mut Effects<Message>) -> Change
        requires { MayReact here.now self.old effects.old }
        ensures did { Reacted here.now (leads here.now.me self.old) self.new effects.new }
        ensures back { LeadsBack result self.old self.new }
    {
        self.standing.rank = Rank::Leader;
        self.standing.leader = Some(here.me);
        let change = self.append(BLANK, effects);
        effects.timer(HEARTBEAT);
        change
    }

    /// Returns the term of the last entry.
    fn last_term(&self) -> u64
        requires { self.now.standing.len ≤ 64 }
        ensures { result ≡ last_term self.now }
    {
        term_of(self.standing.len, &self.log)
    }

    /// Returns the request for votes.
    pub fn request(&self) -> Message
        requires { self.now.standing.len ≤ 64 }
        ensures { result ≡ request_of self.now }
    {
        Message::RequestVote(Ask {
            term: self.standing.term,
            len: self.standing.len,
            last: self.last_term(),
        })
    }

    /// Returns whether the log of a candidate is at least as new as this one.
    fn finds_new(&self, ask: &Ask) -> bool
        requires { self.now.standing.len ≤ 64 }
        ensures { result ≡ is_new ask.now self.now }
    {
        let last = self.last_term();
        last < ask.last || ask.last == last && self.standing.len <= ask.len
    }

    /// Returns whether the server grants its vote.
    fn grants(&self, from: u16, ask: &Ask) -> bool
        requires { self.now.standing.len ≤ 64 }
        ensures { result ≡ grants from ask.now self.now }
    {
        let standing = self.standing.caught_up(ask.term);
        ask.term == standing.term && is_free(standing.voted, from) && self.finds_new(ask)
    }

    /// Votes for a candidate.
    fn grant(&mut self, from: u16, ask: &Ask, here: &Context, effects: &mut Effects<Message>)
        requires from { from < here.now.setup.hosts }
        requires may { MayReact here.now self.old effects.old }
        ensures { Reacted here.now (granted here.now from ask.now self.old) self.new effects.new }
    {
        let standing = Standing {
            voted: Some(from),
            ..self.standing.caught_up(ask.term)
        };
        self.standing = standing.waiting();
        save_vote(&self.standing, effects);
        set_timeout(here.word, effects);
        if here.rules.hasty {
            effects.send(from, Message::Vote(true, self.standing.term));
        }
    }

    /// Handles a candidate's request for a vote.
    pub fn hear_request(
        &mut self,
        from: u16,
        ask: &Ask,
        here: &Context,
        effects: &mut Effects<Message>,
    )
        requires from { from < here.now.setup.hosts }
        requires may { MayReact here.now self.old effects.old }
        ensures { Reacted here.now (asked here.now from ask.now self.old) self.new effects.new }
    {
        if self.grants(from, ask) {
            self.grant(from, ask, here, effects);
        } else if self.standing.term < ask.term {
            self.step_down(ask.term, here, effects);
        } else if self.standing.is_settled() {
            effects.send(from, Message::Vote(false, self.standing.term));
        }
    }

    /// Counts a vote for the candidate.
    fn elect(&mut self, from: u16, here: &Context, effects: &mut Effects<Message>) -> Change
        requires from { from < here.now.setup.hosts }
        requires may { MayReact here.now self.old effects.old }
        ensures did { Reacted here.now (elected here.now from self.old) self.new effects.new }
        ensures back { LeadsBack result self.old self.new }
    {
        self.standing.votes = self.standing.votes.joined(from);
        if is_majority(self.standing.votes.size(), &here.setup) {
            self.lead(here, effects)
        } else {
            Change::Nothing
        }
    }

    /// Handles a server's vote.
    pub fn hear_vote(
        &mut self,
        from: u16,
        agrees: bool,
        term: u64,
        here: &Context,
        effects: &mut Effects<Message>,
    ) -> Change
        requires from { from < here.now.setup.hosts }
        requires may { MayReact here.now self.old effects.old }
        ensures did { Reacted here.now (voted_by self.old.standing.rank here.now from agrees term
            self.old)
            self.new effects.new }
        ensures back { LeadsBack result self.old self.new }
    {
        if self.standing.term < term {
            self.step_down(term, here, effects);
            return Change::Nothing;
        }
        match (self.standing.rank, agrees) {
            (Rank::Candidate, true) if term == self.standing.term => {
                self.elect(from, here, effects)
            }
            _ => Change::Nothing,
        }
    }
}
