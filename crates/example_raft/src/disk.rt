ghost use Rattle.std.specs.Prelude.{◌≡◌, ◌<◌, ◌≤◌, ◌++◌, length, IfSome};
ghost use Rattle.example_raft.specs.RaftLog.{vote_byte, vote_bytes, half_bytes, entry_bytes};
ghost use Rattle.example_raft.specs.RaftLog.{entry_on, is_linked, log_on, term_on, voted_on};
ghost use Rattle.example_raft.specs.RaftLog.{server_on, saved_vote, saved_entry};
ghost use Rattle.example_raft.specs.RaftRecords.{IsPlacedStanding};
ghost use Rattle.sim_node.specs.Node.{IsHostSetup};
ghost use Rattle.example_raft.specs.Reacting.{asking};

use crate::standing::term_of;
use crate::{Entry, Message, Peer, Rank, Server, Standing};
use sim_hosts::{HostSet, byte_at, number_at, put_number};
use sim_node::{Effects, HostSetup};

/// No entry.
const NO_ENTRY: Entry = Entry { term: 0, value: 0 };

/// A peer of which nothing is known.
const UNKNOWN: Peer = Peer { term: 0, has: 0 };

/// Returns the byte of a vote.
fn vote_byte(voted: Option<u16>) -> u8
    requires { IfSome voted (λ host. host < 32) }
    ensures { result ≡ vote_byte voted }
{
    match voted {
        None => 0,
        Some(host) => (host + 1) as u8,
    }
}

/// Returns the 9 bytes of a term, high byte first, and a vote.
fn vote_bytes(standing: &Standing) -> [u8; 9]
    requires { IfSome standing.now.voted (λ host. host < 32) }
    ensures { result ≡ vote_bytes standing.now }
{
    let mut bytes = [0; 9];
    bytes[..8].copy_from_slice(&standing.term.to_be_bytes());
    bytes[8] = vote_byte(standing.voted);
    bytes
}

/// Returns the 24 bytes of an entry and the term of the entry before it.
fn half_bytes(entry: Entry, before: u64) -> [u8; 24]
    ensures { result ≡ half_bytes entry before }
{
    let mut bytes = [0; 24];
    put_number(&mut bytes, 0, entry.term);
    put_number(&mut bytes, 8, entry.value);
    put_number(&mut bytes, 16, before);
    bytes
}

/// Returns the 48 bytes of an entry on a disk.
fn entry_bytes(entry: Entry, before: u64) -> [u8; 48]
    ensures { result ≡ entry_bytes entry before }
{
    let half = half_bytes(entry, before);
    let mut bytes = [0; 48];
    bytes[..24].copy_from_slice(&half);
    bytes[24..].copy_from_slice(&half);
    bytes
}

/// Writes the term and the vote, and asks for a sync.
pub fn save_vote(standing: &Standing, effects: &mut Effects<Message>)
    requires room { length effects.old.list < 8 }
    requires voted { IfSome standing.now.voted (λ host. host < 32) }
    ensures { effects.new ≡ asking (saved_vote standing.now) effects.old }
{
    effects.write(0, &vote_bytes(standing));
    effects.sync();
}

/// Writes the entry at a place, and asks for a sync.
pub fn save_entry(place: u8, log: &[Entry; 64], effects: &mut Effects<Message>)
    requires place { place < 64 }
    requires room { length effects.old.list < 8 }
    ensures { effects.new ≡ asking (saved_entry place log.now) effects.old }
{
    let bytes = entry_bytes(log[place as usize], term_of(place, log));
    effects.write(64 + 48 * place as u32, &bytes);
    effects.sync();
}

/// Reads the entry at a place of a disk.
fn entry_on(disk: &[u8], place: u8) -> Entry
    requires { place < 64 }
    ensures { result ≡ entry_on disk.now place }
{
    let offset = 64 + 48 * place as usize;
    Entry {
        term: number_at(disk, offset),
        value: number_at(disk, offset + 8),
    }
}

/// Returns whether the entry at a place is whole, and the entry before it had the term `before`.
#[tactic(auto, unfolding(crate::specs::RaftLog::is_linked))]
fn is_linked(disk: &[u8], place: u8, before: u64) -> bool
    requires { place < 64 }
    ensures { result ≡ is_linked disk.now place before }
{
    let offset = 64 + 48 * place as usize;
    let term = number_at(disk, offset);
    let value = number_at(disk, offset + 8);
    0 < term
        && number_at(disk, offset + 16) == before
        && number_at(disk, offset + 24) == term
        && number_at(disk, offset + 32) == value
        && number_at(disk, offset + 40) == before
}

/// Reads the log on a disk: its length and its entries.
fn log_on(disk: &[u8]) -> (u8, [Entry; 64])
    ensures value { result ≡ log_on disk.now }
    ensures len { result.0 ≤ 64 }
{
    let mut log = [NO_ENTRY; 64];
    let mut before = 0;
    for place in 0..64u8 {
        if !is_linked(disk, place, before) {
            return (place, log);
        }
        let entry = entry_on(disk, place);
        log[place as usize] = entry;
        before = entry.term;
    }
    (64, log)
}

/// Reads the term on a disk.
fn term_on(disk: &[u8]) -> u64
    ensures { result ≡ term_on disk.now }
{
    u64::from_be_bytes([
        byte_at(disk, 0),
        byte_at(disk, 1),
        byte_at(disk, 2),
        byte_at(disk, 3),
        byte_at(disk, 4),
        byte_at(disk, 5),
        byte_at(disk, 6),
        byte_at(disk, 7),
    ])
}

/// Reads the vote on a disk.
fn voted_on(setup: &HostSetup, disk: &[u8]) -> Option<u16>
    ensures value { result ≡ voted_on setup.now disk.now }
    ensures host { IfSome result (λ host. host < setup.now.servers) }
{
    let byte = byte_at(disk, 8) as u16;
    if 1 <= byte && byte <= setup.servers {
        Some(byte - 1)
    } else {
        None
    }
}

impl Server {
    /// Returns the server that boots from these bytes of its disk.
    pub fn on(setup: &HostSetup, disk: &[u8]) -> Server
        requires { IsHostSetup setup.now }
        ensures state { result ≡ server_on setup.now disk.now }
        ensures placed { IsPlacedStanding setup.now.hosts result.standing }
    {
        let (len, log) = log_on(disk);
        Server {
            standing: Standing {
                term: term_on(disk),
                voted: voted_on(setup, disk),
                rank: Rank::Follower,
                leader: None,
                votes: HostSet::nobody(),
                len,
                matched: 0,
                commit: 0,
                unsure: 0,
            },
            log,
            peers: [UNKNOWN; 32],
        }
    }
}
