ghost use Rattle.std.specs.Prelude.{◌≡◌, ◌<◌, []};
ghost use Rattle.example_counter.specs.Table.{count_on, asking, answered, adding};

use crate::{Message, Role, State};
use sim_node::{Effects, Input, Meter, NoMemory, Node, Setup};
use std::alloc::Global;
use std::fmt;
use std::marker::{Model, PhantomData};

/// How long a client waits for an answer before it asks again (ms).
const PATIENCE: u32 = 500;

/// A host of the counter. Contracts see its state.
#[derive(Drop)]
pub struct Counter<T> {
    state: State,
    meter: PhantomData<T>,
}

impl<T> Model for Counter<T> {
    ghost use Rattle.std.specs.Prelude.{◌<◌};
    ghost use Rattle.sim_node.specs.Node.{IsHostSetup};
    ghost use Rattle.example_counter.specs.Records.{IsPlaced};
    ghost use Rattle.example_counter.specs.declared.State.{State};

    ghost Value = { State };

    ghost view = { λ c. c.state };

    ghost invariant = { λ c. IsHostSetup c.state.setup × (c.state.me < c.state.setup.hosts)
        × IsPlaced c.state.setup.hosts c.state.role };
}

/// Shows the role of the host, without its setup and its number, which never change.
impl<T> fmt::Debug for Counter<T> {
    fn fmt<W: fmt::Write>(&self, f: &mut fmt::Formatter<W>) -> fmt::Result {
        fmt::Debug::fmt(&self.state.role, f)
    }
}

/// Returns the count that was saved on a disk, or 0.
fn count_on(disk: &[u8]) -> u64
    ensures { result ≡ count_on disk.now }
{
    if disk.len() != 8 {
        return 0;
    }
    let mut bytes = [0; 8];
    bytes.copy_from_slice(disk);
    u64::from_le_bytes(bytes)
}

impl<T> Counter<T> {
    /// Asks the client's server to add one for operation `n`.
    fn ask(&mut self, n: u64, effects: &mut Effects<Message>)
        requires { effects.old ≡ record { hosts = self.old.setup.hosts; list = [] } }
        ensures state { self.new ≡ (asking n self.old).0 }
        ensures effects { effects.new ≡ record {
          hosts = self.old.setup.hosts;
          list = (asking n self.old).1;
        } }
    {
        self.state.role = Role::Client { next: n };
        effects.send(self.state.me % self.state.setup.servers, Message::Add(n));
        effects.timer(PATIENCE);
    }

    /// Handles the answer to operation `n`.
    fn go_on(&mut self, n: u64, effects: &mut Effects<Message>)
        requires { effects.old ≡ record { hosts = self.old.setup.hosts; list = [] } }
        ensures state { self.new ≡ (answered n self.old).0 }
        ensures effects { effects.new ≡ record {
          hosts = self.old.setup.hosts;
          list = (answered n self.old).1;
        } }
    {
        let next = n.saturating_add(1);
        if n == self.operations() {
            self.state.role = Role::Client { next };
            effects.done();
        } else {
            self.ask(next, effects);
        }
    }

    /// Adds one for a client.
    fn add(&mut self, count: u64, client: u16, n: u64, effects: &mut Effects<Message>)
        requires host { client < self.old.setup.hosts }
        requires empty { effects.old ≡ record { hosts = self.old.setup.hosts; list = [] } }
        ensures state { self.new ≡ (adding count client n self.old).0 }
        ensures effects { effects.new ≡ record {
          hosts = self.old.setup.hosts;
          list = (adding count client n self.old).1;
        } }
    {
        let count = count.saturating_add(1);
        self.state.role = Role::Saving { count, client, n };
        effects.write(0, &count.to_le_bytes());
        effects.sync();
    }

    /// Returns how many operations the client has.
    fn operations(&self) -> u64
        ensures { result ≡ self.now.setup.ops }
    {
        self.state.setup.ops as u64
    }
}

impl<T: Meter> Node for Counter<T> {
    type Msg = Message;

    type Undo = Role;

    type Meter = T;

    const PROBES: u8 = 2;

    ghost use Rattle.example_counter.specs.Table.{counter};
    ghost use Rattle.example_counter.specs.Records.{records};

    ghost PROBES = { 2 };

    ghost laws = { counter };

    ghost told = { λ state. state.setup.hosts };

    ghost records = { records };

    fn boot(
        _alloc: Global,
        setup: &Setup,
        me: u16,
        disk: &[u8],
        meter: &mut T,
    ) -> Result<Self, NoMemory> {
        meter.turn();
        let role = if me < setup.servers {
            Role::Idle {
                count: count_on(disk),
            }
        } else {
            Role::Client { next: 0 }
        };
        Ok(Counter {
            state: State {
                setup: setup.of_host(me),
                me,
                role,
            },
            meter: PhantomData,
        })
    }

    fn act(
        &mut self,
        _alloc: Global,
        _now: u64,
        input: &Input<Message>,
        _word: u32,
        effects: &mut Effects<Message>,
        meter: &mut T,
    ) -> Result<Role, NoMemory> {
        meter.turn(); // one turn, whatever the input
        let before = self.state.role;
        match (before, input) {
            (Role::Client { .. }, Input::Start) => self.ask(1, effects),
            (Role::Client { next }, Input::Timer) if 1 <= next && next <= self.operations() => {
                self.ask(next, effects)
            }
            (
                Role::Client { next },
                Input::Message {
                    msg: Message::Added(n),
                    ..
                },
            ) if *n == next => { self.go_on(next, effects) }
            (
                Role::Idle { count },
                Input::Message {
                    sender,
                    msg: Message::Add(n),
                },
            ) => { self.add(count, *sender, *n, effects) }
            (Role::Saving { count, client, n }, Input::Synced) => {
                self.state.role = Role::Idle { count };
                effects.send(client, Message::Added(n));
            }
            _ => {}
        }
        Ok(before)
    }

    fn undo(&mut self, _alloc: Global, undo: Role, meter: &mut T) -> Result<(), NoMemory> {
        meter.undone();
        self.state.role = undo;
        Ok(())
    }

    fn copy(&self, _alloc: Global, meter: &mut T) -> Result<Self, NoMemory> {
        meter.copied();
        Ok(Counter {
            state: self.state,
            meter: PhantomData,
        })
    }

    fn probe(&self, k: u8) -> u64 {
        match (self.state.role, k) {
            (Role::Client { next }, 0) => next,
            (Role::Idle { count } | Role::Saving { count, .. }, 1) => count,
            _ => 0,
        }
    }

    fn copy_msg(_alloc: Global, msg: &Message) -> Result<Message, NoMemory> {
        Ok(*msg)
    }
}
