ghost use Rattle.std.specs.Prelude.{◌≡◌, ◌<◌};
ghost use Rattle.example_raft.specs.Raft.{kept, noted};
ghost use Rattle.example_raft.specs.RaftRecords.{IsPlacedChange, server_before};
ghost use Rattle.example_raft.specs.Reacting.{LeadsBack};

use crate::{Change, Entry, Peer, Server, Standing};

impl Server {
    /// Stores an entry at a place of the log. Returns what was there.
    pub fn keep(&mut self, place: u8, entry: Entry) -> Change
        requires { place < 64 }
        ensures state { self.new ≡ kept place entry self.old }
        ensures back { LeadsBack result self.old self.new }
    {
        let before = Change::Entry(place, self.log[place as usize]);
        self.log[place as usize] = entry;
        self.standing.len = place + 1;
        self.standing.unsure = self.standing.unsure.saturating_add(1);
        before
    }

    /// Notes what a host has acknowledged. Returns what was noted before.
    pub fn note(&mut self, host: u16, at: u8) -> Change
        requires { host < 32 }
        ensures state { self.new ≡ noted host at self.old }
        ensures back { LeadsBack result self.old self.new }
    {
        let before = Change::Peer(host, self.peers[host as usize]);
        self.peers[host as usize] = Peer {
            term: self.standing.term,
            has: at,
        };
        before
    }

    /// Undoes a reaction.
    pub fn take_back(&mut self, standing: Standing, change: Change)
        requires { IsPlacedChange change }
        ensures { self.new ≡ server_before standing change self.old }
    {
        self.standing = standing;
        match change {
            Change::Nothing => {}
            Change::Entry(place, entry) => self.log[place as usize] = entry,
            Change::Peer(host, peer) => self.peers[host as usize] = peer,
        }
    }
}
