//! The cells and the progress of a server, and both on its disk.
ghost use Rattle.std.specs.Prelude.{◌≡◌, ◌+◌, ◌<◌, ◌++◌, [], ◌∷◌, length, slice_index};
ghost use Rattle.sim_hosts.specs.Bytes.{bytes_of};
ghost use Rattle.sim_hosts.specs.Numbers.{is_settled};
ghost use Rattle.sim_primary_backup.specs.declared.roles.CellBefore.TheVariants as before;
ghost use Rattle.sim_primary_backup.specs.PrimaryBackup.{cells_on, store_on, with_put, saved};
ghost use Rattle.sim_primary_backup.specs.PrimaryBackup.{apply_of, after_sync};
ghost use Rattle.sim_primary_backup.specs.PrimaryBackupRecords.{IsPlacedStore, IsPlacedCell};
ghost use Rattle.sim_primary_backup.specs.PrimaryBackupRecords.{restored_cell, store_before};

use crate::{BackupMsg, CellBefore, Progress, Store};
use sim_hosts::{byte_at, number_at, put_number};
use sim_node::Effects;

/// Reads the cells from a disk.
fn cells_on(disk: &[u8]) -> [u64; 16]
    ensures { result ≡ cells_on disk.now }
{
    [
        number_at(disk, 0),
        number_at(disk, 8),
        number_at(disk, 16),
        number_at(disk, 24),
        number_at(disk, 32),
        number_at(disk, 40),
        number_at(disk, 48),
        number_at(disk, 56),
        number_at(disk, 64),
        number_at(disk, 72),
        number_at(disk, 80),
        number_at(disk, 88),
        number_at(disk, 96),
        number_at(disk, 104),
        number_at(disk, 112),
        number_at(disk, 120),
    ]
}

impl Progress {
    /// Returns 9 bytes: the number of puts applied, and the last cell.
    fn bytes(&self) -> [u8; 9]
        ensures { result ≡ bytes_of self.now.applied ++ self.now.last ∷ [] }
    {
        let mut bytes = [0; 9];
        put_number(&mut bytes, 0, self.applied);
        bytes[8] = self.last;
        bytes
    }
}

impl Store {
    /// Reads the store from a disk.
    pub fn on(disk: &[u8]) -> Store
        ensures store { result ≡ store_on disk.now }
        ensures placed { IsPlacedStore result.progress }
    {
        Store {
            cells: cells_on(disk),
            progress: Progress {
                applied: number_at(disk, 128),
                last: byte_at(disk, 136) % 16,
                unsure: 0,
            },
        }
    }

    /// Puts a value into a cell, as put number `n`. Returns what the cell held.
    fn put(&mut self, n: u64, place: u8, val: u64) -> CellBefore
        requires { place < 16 }
        ensures state { self.new ≡ with_put n place val self.old }
        ensures placed { IsPlacedStore self.new.progress }
        ensures held { result ≡ before.Held place (slice_index self.old.cells place) }
        ensures cell { IsPlacedCell result }
        ensures back { restored_cell result self.new.cells ≡ self.old.cells }
    {
        let before = CellBefore::Held(place, self.cells[place as usize]);
        self.cells[place as usize] = val;
        self.progress = Progress {
            applied: n,
            last: place,
            unsure: self.progress.unsure.saturating_add(1),
        };
        before
    }

    /// Writes the last put to the disk, and asks for a sync.
    fn save(&self, effects: &mut Effects<BackupMsg>)
        requires placed { IsPlacedStore self.now.progress }
        requires room { length effects.old.list < 36 }
        ensures { effects.new ≡ record effects.old { list = effects.old.list ++ saved self.now } }
    {
        let val = self.cells[self.progress.last as usize];
        effects.write(8 * self.progress.last as u32, &val.to_le_bytes());
        effects.write(128, &self.progress.bytes());
        effects.sync();
    }

    /// Puts a value into a cell, and writes it to the disk. Returns what the cell held.
    pub fn apply(
        &mut self,
        n: u64,
        place: u8,
        val: u64,
        effects: &mut Effects<BackupMsg>,
    ) -> CellBefore
        requires place { place < 16 }
        requires room { length effects.old.list < 36 }
        ensures state { self.new ≡ with_put n place val self.old }
        ensures placed { IsPlacedStore self.new.progress }
        ensures effects { effects.new ≡ record effects.old {
          list = effects.old.list ++ saved self.new;
        } }
        ensures held { result ≡ before.Held place (slice_index self.old.cells place) }
        ensures cell { IsPlacedCell result }
        ensures back { restored_cell result self.new.cells ≡ self.old.cells }
    {
        let before = self.put(n, place, val);
        self.save(effects);
        before
    }

    /// Returns the message that gives the last put to the backups.
    pub fn last_put(&self) -> BackupMsg
        requires { IsPlacedStore self.now.progress }
        ensures { result ≡ apply_of self.now }
    {
        let progress = &self.progress;
        BackupMsg::Apply(
            progress.last,
            progress.applied,
            self.cells[progress.last as usize],
        )
    }

    /// Counts a sync. Returns whether the store is settled.
    pub fn synced(&mut self) -> bool
        ensures state { self.new ≡ after_sync self.old }
        ensures settled { result ≡ is_settled self.new.progress.unsure }
    {
        self.progress.unsure = self.progress.unsure.saturating_sub(1);
        self.progress.unsure == 0
    }

    /// Undoes a reaction.
    pub fn take_back(&mut self, progress: Progress, cell: CellBefore)
        requires { IsPlacedCell cell }
        ensures { self.new ≡ store_before progress cell self.old }
    {
        self.progress = progress;
        if let CellBefore::Held(place, val) = cell {
            self.cells[place as usize] = val;
        }
    }
}
