ghost use Rattle.std.specs.Prelude.{◌≡◌, ◌≤◌, option_copied, slice_get};
ghost use Rattle.example_raft.specs.RaftProbes.{probe_names, probe_server, leads_term};
ghost use Rattle.example_raft.specs.RaftProbes.{committed_at, leader_of, elected_in};

use crate::standing::value_of;
use crate::{Rank, Server};

/// Returns the name of a probe, or `None`.
///
/// `next` is the operation that a client waits for. At a server, `term`, `commit` and `len` are
/// what their names say, and `leads` is the term that it leads. `c1` to `c8` are the values
/// committed at the first eight places of its log. `e1` to `e8` are one more than the server that
/// it knows to lead terms 1 to 8. A probe without a meaning at a host is 0.
pub fn probe_name(k: u8) -> Option<&'static str>
    ensures { option_copied result ≡ slice_get probe_names k }
{
    match k {
        0 => Some("next"),
        1 => Some("term"),
        2 => Some("leads"),
        3 => Some("commit"),
        4 => Some("len"),
        5 => Some("c1"),
        6 => Some("c2"),
        7 => Some("c3"),
        8 => Some("c4"),
        9 => Some("c5"),
        10 => Some("c6"),
        11 => Some("c7"),
        12 => Some("c8"),
        13 => Some("e1"),
        14 => Some("e2"),
        15 => Some("e3"),
        16 => Some("e4"),
        17 => Some("e5"),
        18 => Some("e6"),
        19 => Some("e7"),
        20 => Some("e8"),
        _ => None,
    }
}

/// Returns one more than the leader, or 0 if there is none.
fn leader_of(leader: Option<u16>) -> u64
    ensures { result ≡ leader_of leader }
{
    match leader {
        None => 0,
        Some(leader) => leader as u64 + 1,
    }
}

impl Server {
    /// Returns the n-th value if the server knows that it is committed, else 0.
    fn committed_at(&self, n: u8) -> u64
        requires low { 1 ≤ n }
        requires high { n ≤ 64 }
        ensures { result ≡ committed_at n self.now }
    {
        if n <= self.standing.commit {
            value_of(n, &self.log)
        } else {
            0
        }
    }

    /// Returns one more than the server that it knows to lead a term, or 0.
    fn elected_in(&self, term: u64) -> u64
        ensures { result ≡ elected_in term self.now.standing }
    {
        if term == self.standing.term {
            leader_of(self.standing.leader)
        } else {
            0
        }
    }

    /// Returns the term that the server leads, or 0.
    fn leads_term(&self) -> u64
        ensures { result ≡ leads_term self.now.standing.rank self.now.standing.term }
    {
        match self.standing.rank {
            Rank::Leader => self.standing.term,
            _ => 0,
        }
    }

    /// Returns the number that a probe shows.
    pub fn probe(&self, k: u8) -> u64
        ensures { result ≡ probe_server k self.now }
    {
        match k {
            1 => self.standing.term,
            2 => self.leads_term(),
            3 => self.standing.commit as u64,
            4 => self.standing.len as u64,
            5..=12 => self.committed_at(k - 4),
            13.. => self.elected_in(k as u64 - 12),
            _ => 0,
        }
    }
}
