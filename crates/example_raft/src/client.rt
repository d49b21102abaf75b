ghost use Rattle.std.specs.Prelude.{◌≡◌, ◌<◌, []};
ghost use Rattle.sim_node.specs.Node.{IsHostSetup};
ghost use Rattle.sim_hosts.specs.Reactions.{asked_for};
ghost use Rattle.example_raft.specs.Raft.{value_by, puts, waits, finished, next_server};
ghost use Rattle.example_raft.specs.Raft.{react_client};

use crate::{Client, Message};
use sim_node::{Effects, HostSetup, Input};

/// How long a client waits for an answer before it asks the next server (ms).
const PATIENCE: u32 = 250;

/// Returns the value of an operation.
fn value_by(me: u16, next: u64) -> u64
    ensures { result ≡ value_by me next }
{
    (me as u64).saturating_mul(1000).saturating_add(next)
}

/// Returns the server after this one; server 0 comes after the last.
fn next_server(server: u16, setup: &HostSetup) -> u16
    requires { IsHostSetup setup.now }
    ensures value { result ≡ next_server server setup.now }
    ensures host { result < setup.now.hosts }
{
    if server < setup.servers - 1 {
        server + 1
    } else {
        0
    }
}

impl Client {
    /// Returns whether the client waits for an operation.
    fn waits(&self, ops: u64) -> bool
        ensures { result ≡ waits ops self.now }
    {
        1 <= self.next && self.next <= ops
    }

    /// Sends the client's value to the server that it asks.
    fn put(&self, me: u16, setup: &HostSetup, effects: &mut Effects<Message>)
        requires server { self.now.server < setup.now.hosts }
        requires empty { effects.old ≡ asked_for setup.now [] }
        ensures { effects.new ≡ asked_for setup.now (puts me self.now).1 }
    {
        effects.send(self.server, Message::Put(value_by(me, self.next)));
        effects.timer(PATIENCE);
    }

    /// Goes on to the next operation after the value was committed.
    fn finish(&mut self, me: u16, ops: u64, setup: &HostSetup, effects: &mut Effects<Message>)
        requires server { self.old.server < setup.now.hosts }
        requires empty { effects.old ≡ asked_for setup.now [] }
        ensures state { self.new ≡ (finished me ops self.old).0 }
        ensures server { self.new.server < setup.now.hosts }
        ensures effects { effects.new ≡ asked_for setup.now (finished me ops self.old).1 }
    {
        let last = self.next == ops;
        self.next = self.next.saturating_add(1);
        if last {
            effects.done();
        } else {
            self.put(me, setup, effects);
        }
    }

    /// Reacts to an input.
    pub fn react(
        &mut self,
        setup: &HostSetup,
        me: u16,
        input: &Input<Message>,
        effects: &mut Effects<Message>,
    )
        requires setup { IsHostSetup setup.now }
        requires server { self.old.server < setup.now.hosts }
        requires empty { effects.old ≡ asked_for setup.now [] }
        ensures state { self.new ≡ (react_client setup.now me self.old input.now).0 }
        ensures server { self.new.server < setup.now.hosts }
        ensures effects { effects.new ≡ asked_for setup.now
            (react_client setup.now me self.old input.now).1 }
    {
        let ops = setup.ops as u64;
        match input {
            Input::Start => {
                self.next = 1;
                self.put(me, setup, effects);
            }
            Input::Timer if self.waits(ops) => {
                self.server = next_server(self.server, setup);
                self.put(me, setup, effects);
            }
            Input::Message {
                msg: Message::Fin(value),
                ..
            } if self.waits(ops) && *value == value_by(me, self.next) => {
                self.finish(me, ops, setup, effects)
            }
            Input::Message {
                msg: Message::Try(server),
                ..
            } if self.waits(ops) && *server < setup.servers => {
                self.server = *server;
                self.put(me, setup, effects);
            }
            _ => {}
        }
    }
}
