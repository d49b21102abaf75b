//! A host of two-phase commit as a node, and how its reactions are undone.
use crate::disk::byte_of_first;
use crate::{CommitMsg, CommitUndo, Coordinator, Participant, Role, State, client};
use sim_hosts::Boxed;
use sim_node::{Effects, Input, Meter, NoMemory, Node, Setup};
use std::alloc::Global;
use std::fmt;
use std::marker::{Model, PhantomData};

/// A host of two-phase commit. Contracts see its state.
#[derive(Drop)]
pub struct TwoPhase<T> {
    state: State,
    meter: PhantomData<T>,
}

impl<T> Model for TwoPhase<T> {
    ghost use Rattle.std.specs.Prelude.{◌<◌};
    ghost use Rattle.sim_node.specs.Node.{IsHostSetup};
    ghost use Rattle.sim_two_phase.specs.TwoPhaseRecords.{IsPlaced};
    ghost use Rattle.sim_two_phase.specs.declared.roles.State.{State};

    ghost Value = { State };

    ghost view = { λ node. node.state };

    ghost invariant = { λ node. IsHostSetup node.state.setup
        × (node.state.me < node.state.setup.hosts)
        × IsPlaced node.state.setup.hosts node.state.role };
}

/// Shows the role of the host, without its setup and its number, which never change.
impl<T> fmt::Debug for TwoPhase<T> {
    fn fmt<W: fmt::Write>(&self, f: &mut fmt::Formatter<W>) -> fmt::Result {
        fmt::Debug::fmt(&self.state.role, f)
    }
}

impl<T: Meter> Node for TwoPhase<T> {
    type Msg = CommitMsg;

    type Undo = CommitUndo;

    type Meter = T;

    const PROBES: u8 = 2;

    ghost use Rattle.sim_two_phase.specs.TwoPhase.{two_phase};
    ghost use Rattle.sim_two_phase.specs.TwoPhaseRecords.{commit_records};

    ghost PROBES = { 2 };

    ghost laws = { two_phase };

    ghost told = { λ state. state.setup.hosts };

    ghost records = { commit_records };

    fn boot(
        alloc: Global,
        setup: &Setup,
        me: u16,
        disk: &[u8],
        meter: &mut T,
    ) -> Result<Self, NoMemory> {
        meter.turn();
        let role = if me >= setup.servers {
            Role::Client { next: 0 }
        } else if me == 0 {
            Role::Coordinator(Boxed::new(alloc, Coordinator::at_boot(disk))?)
        } else {
            Role::Participant(Participant::at_boot(disk))
        };
        Ok(TwoPhase {
            state: State {
                setup: setup.of_host(me),
                me,
                role,
            },
            meter: PhantomData,
        })
    }

    #[inline(always)]
    fn act(
        &mut self,
        _alloc: Global,
        _now: u64,
        input: &Input<CommitMsg>,
        word: u32,
        effects: &mut Effects<CommitMsg>,
        meter: &mut T,
    ) -> Result<CommitUndo, NoMemory> {
        meter.turn(); // one turn, whatever the input
        let setup = &self.state.setup;
        let undo = match &mut self.state.role {
            Role::Client { next } => {
                let before = *next;
                let ops = setup.ops as u64;
                *next = client::react(setup, ops, before, input, effects);
                CommitUndo::Client { next: before }
            }
            Role::Coordinator(boxed) => {
                let coordinator = boxed.get_mut();
                let conduct = coordinator.conduct;
                let slots = coordinator.react(setup, input, effects);
                CommitUndo::Coordinator { conduct, slots }
            }
            Role::Participant(participant) => {
                let before = *participant;
                participant.react(setup, input, word, effects);
                CommitUndo::Participant(before)
            }
        };
        Ok(undo)
    }

    fn undo(&mut self, _alloc: Global, undo: CommitUndo, meter: &mut T) -> Result<(), NoMemory> {
        meter.undone();
        match (undo, &mut self.state.role) {
            (CommitUndo::Client { next }, Role::Client { next: now }) => *now = next,
            (CommitUndo::Participant(before), Role::Participant(now)) => *now = before,
            (CommitUndo::Coordinator { conduct, slots }, Role::Coordinator(boxed)) => {
                boxed.get_mut().take_back(conduct, slots)
            }
            _ => {}
        }
        Ok(())
    }

    fn copy(&self, alloc: Global, meter: &mut T) -> Result<Self, NoMemory> {
        meter.copied();
        let role = match &self.state.role {
            Role::Client { next } => Role::Client { next: *next },
            Role::Coordinator(coordinator) => Role::Coordinator(Boxed::new(
                alloc,
                *coordinator.get(),
            )?),
            Role::Participant(participant) => Role::Participant(*participant),
        };
        Ok(TwoPhase {
            state: State {
                setup: self.state.setup,
                me: self.state.me,
                role,
            },
            meter: PhantomData,
        })
    }

    fn probe(&self, k: u8) -> u64 {
        match (&self.state.role, k) {
            (Role::Client { next }, 0) => *next,
            (Role::Coordinator(boxed), 1) => byte_of_first(boxed.get().conduct.first) as u64,
            (Role::Participant(participant), 1) => byte_of_first(participant.first) as u64,
            _ => 0,
        }
    }

    fn copy_msg(_alloc: Global, msg: &CommitMsg) -> Result<CommitMsg, NoMemory> {
        Ok(*msg)
    }

    fn copy_input(_alloc: Global, input: &Input<CommitMsg>) -> Result<Input<CommitMsg>, NoMemory> {
        Ok(*input)
    }
}
