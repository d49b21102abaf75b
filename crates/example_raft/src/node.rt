use crate::{Client, Context, Message, RaftUndo, Role, Server, State, Variant};
use sim_hosts::Boxed;
use sim_node::{Effects, Input, Meter, NoMemory, Node, Setup};
use std::alloc::Global;
use std::fmt;
use std::marker::{Model, PhantomData};

/// A host of Raft: `V` is the variant, as [`Sound`](crate::Sound), and `T` the meter. Contracts see
/// its state.
#[derive(Drop)]
pub struct Raft<V, T> {
    state: State,
    variant: PhantomData<V>,
    meter: PhantomData<T>,
}

impl<V, T> Model for Raft<V, T> {
    ghost use Rattle.example_raft.specs.RaftRecords.{IsHost};
    ghost use Rattle.example_raft.specs.declared.roles.State.{State};

    ghost Value = { State };

    ghost view = { λ node. node.state };

    ghost invariant = { λ node. IsHost node.state };
}

/// Shows the role of the host, without its setup and its number, which never change.
impl<V, T> fmt::Debug for Raft<V, T> {
    fn fmt<W: fmt::Write>(&self, f: &mut fmt::Formatter<W>) -> fmt::Result {
        fmt::Debug::fmt(&self.state.role, f)
    }
}

impl<V: Variant, T: Meter> Node for Raft<V, T> {
    type Msg = Message;

    type Undo = RaftUndo;

    type Meter = T;

    const PROBES: u8 = 21;

    ghost use Rattle.example_raft.specs.Raft.{raft};
    ghost use Rattle.example_raft.specs.RaftRecords.{raft_records};

    ghost PROBES = { 21 };

    ghost laws = { raft V.RULES };

    ghost told = { λ state. state.setup.hosts };

    ghost records = { raft_records };

    fn boot(
        alloc: Global,
        setup: &Setup,
        me: u16,
        disk: &[u8],
        meter: &mut T,
    ) -> Result<Self, NoMemory> {
        meter.turn();
        let own = setup.of_host(me);
        let role = if me < own.servers {
            Role::Server(Boxed::new(alloc, Server::on(&own, disk))?)
        } else {
            Role::Client(Client {
                next: 0,
                server: me % own.servers,
            })
        };
        Ok(Raft {
            state: State {
                setup: own,
                me,
                role,
            },
            variant: PhantomData,
            meter: PhantomData,
        })
    }

    fn act(
        &mut self,
        _alloc: Global,
        _now: u64,
        input: &Input<Message>,
        word: u32,
        effects: &mut Effects<Message>,
        meter: &mut T,
    ) -> Result<RaftUndo, NoMemory> {
        meter.turn(); // one turn, whatever the input
        let setup = &self.state.setup;
        let me = self.state.me;
        let undo = match &mut self.state.role {
            Role::Client(client) => {
                let before = *client;
                client.react(setup, me, input, effects);
                RaftUndo::Client(before)
            }
            Role::Server(boxed) => {
                let server = boxed.get_mut();
                let standing = server.standing;
                let here = Context {
                    rules: V::RULES,
                    setup: *setup,
                    me,
                    word,
                };
                let change = server.react(&here, input, effects);
                RaftUndo::Server { standing, change }
            }
        };
        Ok(undo)
    }

    fn undo(&mut self, _alloc: Global, undo: RaftUndo, meter: &mut T) -> Result<(), NoMemory> {
        meter.undone();
        match (undo, &mut self.state.role) {
            (RaftUndo::Client(before), Role::Client(client)) => *client = before,
            (RaftUndo::Server { standing, change }, Role::Server(boxed)) => {
                boxed.get_mut().take_back(standing, change)
            }
            _ => {}
        }
        Ok(())
    }

    fn copy(&self, alloc: Global, meter: &mut T) -> Result<Self, NoMemory> {
        meter.copied();
        let role = match &self.state.role {
            Role::Client(client) => Role::Client(*client),
            Role::Server(boxed) => Role::Server(Boxed::new(alloc, *boxed.get())?),
        };
        Ok(Raft {
            state: State {
                setup: self.state.setup,
                me: self.state.me,
                role,
            },
            variant: PhantomData,
            meter: PhantomData,
        })
    }

    fn probe(&self, k: u8) -> u64 {
        match &self.state.role {
            Role::Client(client) => { if k == 0 { client.next } else { 0 } }
            Role::Server(boxed) => boxed.get().probe(k),
        }
    }

    fn copy_msg(_alloc: Global, msg: &Message) -> Result<Message, NoMemory> {
        Ok(*msg)
    }

    fn copy_input(_alloc: Global, input: &Input<Message>) -> Result<Input<Message>, NoMemory> {
        Ok(*input)
    }
}
