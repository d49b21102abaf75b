ghost use Rattle.std.specs.Prelude.{◌≡◌, ◌<◌, ◌≤◌, ◌++◌, length};
ghost use Rattle.sim_hosts.specs.Numbers.{is_settled};
ghost use Rattle.example_raft.specs.RaftLog.{term_of, value_of};
ghost use Rattle.example_raft.specs.Raft.{following, waiting, caught_up, candidacy, timeout};
ghost use Rattle.example_raft.specs.Raft.{is_majority};
ghost use Rattle.example_raft.specs.Reacting.{asking};

use crate::{Entry, Message, Rank, Standing};
use sim_hosts::HostSet;
use sim_node::{Effects, HostSetup};

/// Returns the term of the n-th entry, or 0 before the first.
pub fn term_of(n: u8, log: &[Entry; 64]) -> u64
    requires { n ≤ 64 }
    ensures { result ≡ term_of n log.now }
{
    if n == 0 { 0 } else { log[n as usize - 1].term }
}

/// Returns the value of the n-th entry.
pub fn value_of(n: u8, log: &[Entry; 64]) -> u64
    requires low { 1 ≤ n }
    requires high { n ≤ 64 }
    ensures { result ≡ value_of n log.now }
{
    log[n as usize - 1].value
}

/// Sets the timer of a server that does not lead: 150 to 299 ms, by the random word.
pub fn set_timeout(word: u32, effects: &mut Effects<Message>)
    requires { length effects.old.list < 38 }
    ensures { effects.new ≡ asking (timeout word) effects.old }
{
    effects.timer(150 + word % 150);
}

/// Returns whether `n` servers are a majority.
pub fn is_majority(n: u32, setup: &HostSetup) -> bool
    ensures { result ≡ is_majority n setup.now }
{
    (setup.servers as u64) < 2 * n as u64
}

impl Standing {
    /// Returns whether the server waits for no sync.
    pub fn is_settled(&self) -> bool
        ensures { result ≡ is_settled self.now.unsure }
    {
        self.unsure == 0
    }

    /// Returns the standing of a follower in this term that knows no leader and has not voted.
    pub fn following(&self, term: u64) -> Standing
        ensures { result ≡ following term self.now }
    {
        Standing {
            term,
            voted: None,
            rank: Rank::Follower,
            leader: None,
            matched: 0,
            ..*self
        }
    }

    /// Returns the standing that waits for one more sync.
    pub fn waiting(&self) -> Standing
        ensures { result ≡ waiting self.now }
    {
        Standing {
            unsure: self.unsure.saturating_add(1),
            ..*self
        }
    }

    /// Returns the standing in the term of a message, if that is later.
    pub fn caught_up(&self, term: u64) -> Standing
        ensures { result ≡ caught_up term self.now }
    {
        if self.term < term {
            self.following(term)
        } else {
            *self
        }
    }

    /// Returns the standing of a candidate in the next term.
    pub fn candidacy(&self, me: u16) -> Standing
        requires { me < 32 }
        ensures { result ≡ candidacy me self.now }
    {
        Standing {
            term: self.term.saturating_add(1),
            voted: Some(me),
            rank: Rank::Candidate,
            leader: None,
            votes: HostSet::nobody().joined(me),
            matched: 0,
            unsure: self.unsure.saturating_add(1),
            ..*self
        }
    }
}
