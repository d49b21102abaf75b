//! The rows of a server of the register, and the bytes that it writes to its disk.
ghost use Rattle.std.specs.Prelude.{◌≡◌, ◌<◌, []};
ghost use Rattle.sim_node.specs.Node.{IsFrom};
ghost use Rattle.sim_hosts.specs.Reactions.{asked_for};
ghost use Rattle.sim_abd.specs.Abd.{server_at_boot, tagged_bytes, takes, stored, server_synced};
ghost use Rattle.sim_abd.specs.Abd.{react_server};
ghost use Rattle.sim_abd.specs.AbdRecords.{IsPlacedServer};

use crate::{AbdMsg, Owed, Server, Tagged};
use sim_hosts::{number_at, put_number};
use sim_node::{Effects, HostSetup, Input};

/// Returns the bytes of a tagged value.
fn tagged_bytes(tagged: &Tagged) -> [u8; 24]
    ensures { result ≡ tagged_bytes tagged.now }
{
    let mut bytes = [0; 24];
    put_number(&mut bytes, 0, tagged.number);
    put_number(&mut bytes, 8, tagged.writer);
    put_number(&mut bytes, 16, tagged.val);
    bytes
}

impl Server {
    /// Returns the server that boots from these bytes of its disk.
    pub fn at_boot(disk: &[u8]) -> Server
        ensures { result ≡ server_at_boot disk.now }
    {
        Server {
            kept: Tagged {
                number: number_at(disk, 0),
                writer: number_at(disk, 8),
                val: number_at(disk, 16),
            },
            unsure: 0,
            owed: None,
        }
    }

    /// Takes a value with a greater tag, and owes an answer for it.
    fn take(&mut self, owed: Owed, new: &Tagged, setup: &HostSetup, effects: &mut Effects<AbdMsg>)
        requires host { owed.host < setup.now.hosts }
        requires empty { effects.old ≡ asked_for setup.now [] }
        ensures state { self.new ≡ (takes owed.host owed.request new.now self.old).0 }
        ensures placed { IsPlacedServer setup.now.hosts self.new }
        ensures effects { effects.new ≡ asked_for setup.now
            (takes owed.host owed.request new.now self.old).1 }
    {
        *self = Server {
            kept: *new,
            unsure: self.unsure.saturating_add(1),
            owed: Some(owed),
        };
        effects.write(0, &tagged_bytes(new));
        effects.sync();
    }

    /// Handles a host's request to store a value.
    fn store(
        &mut self,
        from: u16,
        r: u32,
        new: &Tagged,
        setup: &HostSetup,
        effects: &mut Effects<AbdMsg>,
    )
        requires from { from < setup.now.hosts }
        requires placed { IsPlacedServer setup.now.hosts self.old }
        requires empty { effects.old ≡ asked_for setup.now [] }
        ensures state { self.new ≡ (stored from r new.now self.old).0 }
        ensures placed { IsPlacedServer setup.now.hosts self.new }
        ensures effects { effects.new ≡ asked_for setup.now (stored from r new.now self.old).1 }
    {
        let owed = Owed {
            host: from,
            request: r,
        };
        if new.is_greater(&self.kept) {
            self.take(owed, new, setup, effects);
        } else if self.unsure == 0 {
            effects.send(from, AbdMsg::Kept(r));
        } else {
            self.owed = Some(owed);
        }
    }

    /// Handles a sync. If the server is settled, it sends the answer that it owes.
    fn synced(&mut self, setup: &HostSetup, effects: &mut Effects<AbdMsg>)
        requires placed { IsPlacedServer setup.now.hosts self.old }
        requires empty { effects.old ≡ asked_for setup.now [] }
        ensures state { self.new ≡ (server_synced self.old).0 }
        ensures placed { IsPlacedServer setup.now.hosts self.new }
        ensures effects { effects.new ≡ asked_for setup.now (server_synced self.old).1 }
    {
        self.unsure = self.unsure.saturating_sub(1);
        if self.unsure == 0 {
            if let Some(owed) = self.owed {
                self.owed = None;
                effects.send(owed.host, AbdMsg::Kept(owed.request));
            }
        }
    }

    /// Reacts to an input.
    pub fn react(&mut self, setup: &HostSetup, input: &Input<AbdMsg>, effects: &mut Effects<AbdMsg>)
        requires sender { IsFrom setup.now.hosts input.now }
        requires placed { IsPlacedServer setup.now.hosts self.old }
        requires empty { effects.old ≡ asked_for setup.now [] }
        ensures state { self.new ≡ (react_server self.old input.now).0 }
        ensures placed { IsPlacedServer setup.now.hosts self.new }
        ensures effects { effects.new ≡ asked_for setup.now (react_server self.old input.now).1 }
    {
        match input {
            Input::Synced => self.synced(setup, effects),
            Input::Message { sender, msg } => match msg {
                AbdMsg::Ask(r) => effects.send(*sender, AbdMsg::Tell(*r, self.kept)),
                AbdMsg::Store(r, new) => self.store(*sender, *r, new, setup, effects),
                _ => {}
            },
            _ => {}
        }
    }
}
