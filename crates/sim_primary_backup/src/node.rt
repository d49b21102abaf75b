//! A host of primary-backup as a node, and how its reactions are undone.
use crate::{BackupMsg, BackupUndo, Primary, Role, State, Store, client};
use sim_hosts::Boxed;
use sim_node::{Effects, Input, Meter, NoMemory, Node, Setup};
use std::alloc::Global;
use std::fmt;
use std::marker::{Model, PhantomData};

/// A host of primary-backup. Contracts see its state.
#[derive(Drop)]
pub struct PrimaryBackup<T> {
    state: State,
    meter: PhantomData<T>,
}

impl<T> Model for PrimaryBackup<T> {
    ghost use Rattle.std.specs.Prelude.{◌<◌};
    ghost use Rattle.sim_node.specs.Node.{IsHostSetup};
    ghost use Rattle.sim_primary_backup.specs.PrimaryBackupRecords.{IsPlaced};
    ghost use Rattle.sim_primary_backup.specs.declared.roles.State.{State};

    ghost Value = { State };

    ghost view = { λ node. node.state };

    ghost invariant = { λ node. IsHostSetup node.state.setup
        × (node.state.me < node.state.setup.hosts)
        × IsPlaced node.state.setup.hosts node.state.role };
}

/// Shows the role of the host, without its setup and its number, which never change.
impl<T> fmt::Debug for PrimaryBackup<T> {
    fn fmt<W: fmt::Write>(&self, f: &mut fmt::Formatter<W>) -> fmt::Result {
        fmt::Debug::fmt(&self.state.role, f)
    }
}

impl<T: Meter> Node for PrimaryBackup<T> {
    type Msg = BackupMsg;

    type Undo = BackupUndo;

    type Meter = T;

    const PROBES: u8 = 2;

    ghost use Rattle.sim_primary_backup.specs.PrimaryBackup.{primary_backup};
    ghost use Rattle.sim_primary_backup.specs.PrimaryBackupRecords.{backup_records};

    ghost PROBES = { 2 };

    ghost laws = { primary_backup };

    ghost told = { λ state. state.setup.hosts };

    ghost records = { backup_records };

    fn boot(
        alloc: Global,
        setup: &Setup,
        me: u16,
        disk: &[u8],
        meter: &mut T,
    ) -> Result<Self, NoMemory> {
        meter.turn();
        let role = if me >= setup.servers {
            Role::Client { next: 0 }
        } else if me == 0 {
            Role::Primary(Boxed::new(alloc, Primary::at_boot(disk))?)
        } else {
            Role::Backup(Boxed::new(alloc, Store::on(disk))?)
        };
        Ok(PrimaryBackup {
            state: State {
                setup: setup.of_host(me),
                me,
                role,
            },
            meter: PhantomData,
        })
    }

    #[inline(always)]
    fn act(
        &mut self,
        _alloc: Global,
        _now: u64,
        input: &Input<BackupMsg>,
        _word: u32,
        effects: &mut Effects<BackupMsg>,
        meter: &mut T,
    ) -> Result<BackupUndo, NoMemory> {
        meter.turn(); // one turn, whatever the input
        let setup = &self.state.setup;
        let undo = match &mut self.state.role {
            Role::Client { next } => {
                let before = *next;
                let ops = setup.ops as u64;
                *next = client::react(setup, self.state.me, ops, before, input, effects);
                BackupUndo::Client { next: before }
            }
            Role::Primary(boxed) => {
                let primary = boxed.get_mut();
                let progress = primary.store.progress;
                let current = primary.current;
                let changes = primary.react(setup, input, effects);
                BackupUndo::Primary {
                    progress,
                    current,
                    changes,
                }
            }
            Role::Backup(boxed) => {
                let store = boxed.get_mut();
                let progress = store.progress;
                let cell = store.react_as_backup(setup, input, effects);
                BackupUndo::Backup { progress, cell }
            }
        };
        Ok(undo)
    }

    fn undo(&mut self, _alloc: Global, undo: BackupUndo, meter: &mut T) -> Result<(), NoMemory> {
        meter.undone();
        match (undo, &mut self.state.role) {
            (BackupUndo::Client { next }, Role::Client { next: now }) => *now = next,
            (
                BackupUndo::Primary {
                    progress,
                    current,
                    changes,
                },
                Role::Primary(boxed),
            ) => { boxed.get_mut().take_back(progress, current, changes) }
            (BackupUndo::Backup { progress, cell }, Role::Backup(boxed)) => {
                boxed.get_mut().take_back(progress, cell)
            }
            _ => {}
        }
        Ok(())
    }

    fn copy(&self, alloc: Global, meter: &mut T) -> Result<Self, NoMemory> {
        meter.copied();
        let role = match &self.state.role {
            Role::Client { next } => Role::Client { next: *next },
            Role::Primary(primary) => Role::Primary(Boxed::new(alloc, *primary.get())?),
            Role::Backup(store) => Role::Backup(Boxed::new(alloc, *store.get())?),
        };
        Ok(PrimaryBackup {
            state: State {
                setup: self.state.setup,
                me: self.state.me,
                role,
            },
            meter: PhantomData,
        })
    }

    fn probe(&self, k: u8) -> u64 {
        match (&self.state.role, k) {
            (Role::Client { next }, 0) => *next,
            (Role::Primary(boxed), 1) => boxed.get().store.progress.applied,
            (Role::Backup(boxed), 1) => boxed.get().progress.applied,
            _ => 0,
        }
    }

    fn copy_msg(_alloc: Global, msg: &BackupMsg) -> Result<BackupMsg, NoMemory> {
        Ok(*msg)
    }

    fn copy_input(_alloc: Global, input: &Input<BackupMsg>) -> Result<Input<BackupMsg>, NoMemory> {
        Ok(*input)
    }
}
