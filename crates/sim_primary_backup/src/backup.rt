//! The rows of a backup, which applies the puts of the primary in order.
ghost use Rattle.std.specs.Prelude.{◌≡◌, ◌+◌, ◌<◌, []};
ghost use Rattle.sim_node.specs.Node.{IsFrom};
ghost use Rattle.sim_hosts.specs.Reactions.{asked_for};
ghost use Rattle.sim_primary_backup.specs.PrimaryBackup.{told, backup_synced, react_backup};
ghost use Rattle.sim_primary_backup.specs.PrimaryBackupRecords.{IsPlacedStore, IsPlacedCell};
ghost use Rattle.sim_primary_backup.specs.PrimaryBackupRecords.{restored_cell};

use crate::{BackupMsg, CellBefore, Store};
use sim_node::{Effects, HostSetup, Input};

/// A put that the primary asks to apply.
#[derive(Clone, Copy)]
struct Apply {
    number: u64,
    cell: u8,
    val: u64,
}

impl Store {
    /// Handles a put from the primary. If the put is applied, returns what the cell held.
    fn told(
        &mut self,
        from: u16,
        put: Apply,
        setup: &HostSetup,
        effects: &mut Effects<BackupMsg>,
    ) -> CellBefore
        requires from { from < setup.now.hosts }
        requires placed { IsPlacedStore self.old.progress }
        requires empty { effects.old ≡ asked_for setup.now [] }
        ensures state { self.new ≡ (told from put.number put.cell put.val self.old).0 }
        ensures placed { IsPlacedStore self.new.progress }
        ensures effects { effects.new ≡ asked_for setup.now
            (told from put.number put.cell put.val self.old).1 }
        ensures cell { IsPlacedCell result }
        ensures back { restored_cell result self.new.cells ≡ self.old.cells }
    {
        let Apply { number, cell, val } = put;
        if number as u128 == self.progress.applied as u128 + 1 {
            return self.apply(number, cell % 16, val, effects);
        }
        if number <= self.progress.applied && self.progress.unsure == 0 {
            effects.send(from, BackupMsg::Ack(number));
        }
        CellBefore::Same
    }

    /// Handles a sync. If the backup is settled, it acknowledges what it has applied.
    fn backup_synced(&mut self, setup: &HostSetup, effects: &mut Effects<BackupMsg>)
        requires hosts { 0 < setup.now.hosts }
        requires empty { effects.old ≡ asked_for setup.now [] }
        ensures state { self.new ≡ (backup_synced self.old).0 }
        ensures effects { effects.new ≡ asked_for setup.now (backup_synced self.old).1 }
    {
        if self.synced() {
            effects.send(0, BackupMsg::Ack(self.progress.applied));
        }
    }

    /// Reacts to an input as a backup. Returns what a cell held, if it has changed.
    pub fn react_as_backup(
        &mut self,
        setup: &HostSetup,
        input: &Input<BackupMsg>,
        effects: &mut Effects<BackupMsg>,
    ) -> CellBefore
        requires hosts { 0 < setup.now.hosts }
        requires sender { IsFrom setup.now.hosts input.now }
        requires placed { IsPlacedStore self.old.progress }
        requires empty { effects.old ≡ asked_for setup.now [] }
        ensures state { self.new ≡ (react_backup self.old input.now).0 }
        ensures placed { IsPlacedStore self.new.progress }
        ensures effects { effects.new ≡ asked_for setup.now (react_backup self.old input.now).1 }
        ensures cell { IsPlacedCell result }
        ensures back { restored_cell result self.new.cells ≡ self.old.cells }
    {
        match input {
            Input::Synced => {
                self.backup_synced(setup, effects);
                CellBefore::Same
            }
            Input::Message {
                sender,
                msg: BackupMsg::Apply(cell, number, val),
            } => {
                let put = Apply {
                    number: *number,
                    cell: *cell,
                    val: *val,
                };
                self.told(*sender, put, setup, effects)
            }
            _ => CellBefore::Same,
        }
    }
}
