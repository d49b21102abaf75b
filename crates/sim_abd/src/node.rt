//! A host of the register as a node: a client or a server, and how its reactions are undone.
use crate::{AbdMsg, CountedClient, Role, Server, State};
use sim_node::{Effects, Input, Meter, NoMemory, Node, Setup};
use std::alloc::Global;
use std::fmt;
use std::marker::{Model, PhantomData};

/// A host of the register. Contracts see its state.
#[derive(Drop)]
pub struct AbdRegister<T> {
    state: State,
    meter: PhantomData<T>,
}

impl<T> Model for AbdRegister<T> {
    ghost use Rattle.std.specs.Prelude.{◌<◌};
    ghost use Rattle.sim_node.specs.Node.{IsHostSetup};
    ghost use Rattle.sim_abd.specs.AbdRecords.{IsPlaced};
    ghost use Rattle.sim_abd.specs.declared.roles.State.{State};

    ghost Value = { State };

    ghost view = { λ node. node.state };

    ghost invariant = { λ node. IsHostSetup node.state.setup
        × (node.state.me < node.state.setup.hosts)
        × IsPlaced node.state.setup.hosts node.state.role };
}

/// Shows the role of the host, without its setup and its number, which never change.
impl<T> fmt::Debug for AbdRegister<T> {
    fn fmt<W: fmt::Write>(&self, f: &mut fmt::Formatter<W>) -> fmt::Result {
        fmt::Debug::fmt(&self.state.role, f)
    }
}

impl<T: Meter> Node for AbdRegister<T> {
    type Msg = AbdMsg;

    type Undo = Role;

    type Meter = T;

    const PROBES: u8 = 3;

    ghost use Rattle.sim_abd.specs.Abd.{abd};
    ghost use Rattle.sim_abd.specs.AbdRecords.{abd_records};

    ghost PROBES = { 3 };

    ghost laws = { abd };

    ghost told = { λ state. state.setup.hosts };

    ghost records = { abd_records };

    fn boot(
        _alloc: Global,
        setup: &Setup,
        me: u16,
        disk: &[u8],
        meter: &mut T,
    ) -> Result<Self, NoMemory> {
        meter.turn();
        let role = if me < setup.servers {
            Role::Server(Server::at_boot(disk))
        } else {
            Role::Client(CountedClient::at_boot())
        };
        Ok(AbdRegister {
            state: State {
                setup: setup.of_host(me),
                me,
                role,
            },
            meter: PhantomData,
        })
    }

    #[inline(always)]
    fn act(
        &mut self,
        _alloc: Global,
        _now: u64,
        input: &Input<AbdMsg>,
        _word: u32,
        effects: &mut Effects<AbdMsg>,
        meter: &mut T,
    ) -> Result<Role, NoMemory> {
        meter.turn(); // one turn, whatever the input
        let before = self.state.role;
        let setup = &self.state.setup;
        match &mut self.state.role {
            Role::Client(client) => client.react(setup, self.state.me, input, effects),
            Role::Server(server) => server.react(setup, input, effects),
        }
        Ok(before)
    }

    fn undo(&mut self, _alloc: Global, undo: Role, meter: &mut T) -> Result<(), NoMemory> {
        meter.undone();
        self.state.role = undo;
        Ok(())
    }

    fn copy(&self, _alloc: Global, meter: &mut T) -> Result<Self, NoMemory> {
        meter.copied();
        Ok(AbdRegister {
            state: self.state,
            meter: PhantomData,
        })
    }

    fn probe(&self, k: u8) -> u64 {
        match (&self.state.role, k) {
            (Role::Client(client), 0) => client.get().next as u64,
            (Role::Client(client), 2) => client.get().last_read,
            (Role::Server(server), 1) => server.kept.number,
            (Role::Server(server), 2) => server.kept.val,
            _ => 0,
        }
    }

    fn copy_msg(_alloc: Global, msg: &AbdMsg) -> Result<AbdMsg, NoMemory> {
        Ok(*msg)
    }

    fn copy_input(_alloc: Global, input: &Input<AbdMsg>) -> Result<Input<AbdMsg>, NoMemory> {
        Ok(*input)
    }
}
