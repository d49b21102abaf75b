//! The changes of an event that come after the usual ones.
ghost use Rattle.std.specs.Prelude.{◌≡◌, [], ◌∷◌, ◌++◌, OnOk, IfNone, option_to_list};
ghost use Rattle.std.specs.Bool.{OnTrue};
ghost use Rattle.sim_world.specs.declared.trail.Compact.TheVariants as compact;

use crate::NoMemory;
use crate::trail::Compact;
use crate::trail::disk_work::DiskWork;
use sim_disk::DiskUndo;
use std::alloc::Global;
use std::marker::Model;
use std::mem;

/// The change before those of the list.
#[derive(Clone, Copy, Drop)]
enum TimerChange {
    /// No change before those of the list.
    Nothing,
    /// The timer of a host, with this due and this serial, was taken out.
    TookTimer { host: u16, due: u64, serial: u64 },
    /// An occurrence was queued.
    Queued,
    /// The timer of a host, with this due and this serial, was taken out, and then an occurrence
    /// was queued.
    Reset { host: u16, due: u64, serial: u64 },
}

/// Changes in order: those of a host's disk, then the setting of a timer, then any others. Only the
/// others take memory.
#[derive(Drop)]
pub(crate) struct Rest<S, M, U> {
    disk: DiskWork,
    timer: TimerChange,
    list: Vec<Compact<S, M, U>>,
}

impl<S, M, U> Model for Rest<S, M, U> {
    ghost use Rattle.std.specs.Prelude.{List, ◌++◌};
    ghost use Rattle.sim_world.specs.declared.trail.Compact.{Compact};
    ghost use Rattle.sim_world.specs.inside.Rest.{timer_changes};
    ghost use Rattle.sim_world.specs.inside.DiskWork.{disk_changes};

    ghost Value = { List (Compact S M U) };

    ghost view = { λ f. disk_changes f.disk ++ (timer_changes f.timer ++ f.list.items) };
}

impl<S, M, U> Rest<S, M, U> {
    // Returns no changes.
    pub(crate) fn new(alloc: Global) -> Rest<S, M, U>
        ensures { result ≡ [] }
    {
        Rest {
            disk: DiskWork::Nothing,
            timer: TimerChange::Nothing,
            list: Vec::new(alloc),
        }
    }

    // Returns `true` only if there are no changes.
    pub(crate) fn is_empty(&self) -> bool
        ensures { OnTrue result (self.now ≡ []) }
    {
        match self.timer {
            TimerChange::Nothing => self.disk.is_nothing::<S, M, U>() && self.list.is_empty(),
            TimerChange::TookTimer { .. } | TimerChange::Queued | TimerChange::Reset { .. } =>
                false,
        }
    }

    // Removes and returns the last change.
    pub(crate) fn pop(&mut self) -> Option<Compact<S, M, U>>
        ensures items { self.old ≡ self.new ++ option_to_list result }
        ensures none { IfNone result (self.old ≡ []) }
    {
        if let Some(change) = self.list.pop() {
            return Some(change);
        }
        match self.timer {
            TimerChange::Nothing => self.disk.pop(),
            TimerChange::TookTimer { host, due, serial } => {
                self.timer = TimerChange::Nothing;
                Some(Compact::TookTimer { host, due, serial })
            }
            TimerChange::Queued => {
                self.timer = TimerChange::Nothing;
                Some(Compact::Queued)
            }
            TimerChange::Reset { host, due, serial } => {
                self.timer = TimerChange::TookTimer { host, due, serial };
                Some(Compact::Queued)
            }
        }
    }
}

impl<S: Drop, M: Drop, U: Drop> Rest<S, M, U> {
    // Drops all changes; the memory stays.
    #[inline(always)]
    pub(crate) fn clear(&mut self)
        ensures { self.new ≡ [] }
    {
        self.disk = DiskWork::Nothing;
        self.timer = TimerChange::Nothing;
        if !self.list.is_empty() {
            drop_all(&mut self.list);
        }
    }

    // Drops all changes, and takes the memory of those in `spare`.
    pub(crate) fn take_memory(&mut self, spare: &mut Vec<Compact<S, M, U>>)
        ensures { self.new ≡ [] }
    {
        mem::swap(&mut self.list, spare);
        self.clear();
    }

    // Leaves its memory in `spare`, if it is more than that of `spare`.
    pub(crate) fn leave_memory(&mut self, spare: &mut Vec<Compact<S, M, U>>) {
        if spare.capacity() < self.list.capacity() {
            mem::swap(&mut self.list, spare);
        }
    }

    // Adds a change, and takes memory for it.
    #[cold]
    #[inline(never)]
    fn push_growing(&mut self, change: Compact<S, M, U>) -> Result<(), NoMemory>
        ensures { OnOk result (self.new ≡ self.old ++ change ∷ []) }
    {
        self.list.push(change)?;
        Ok(())
    }

    // Adds a change.
    #[inline]
    pub(crate) fn push(&mut self, change: Compact<S, M, U>) -> Result<(), NoMemory>
        ensures { OnOk result (self.new ≡ self.old ++ change ∷ []) }
    {
        if self.list.len() < self.list.capacity() {
            self.list.push_reserved(change);
            return Ok(());
        }
        self.push_growing(change)
    }

    // Adds that the timer of a host, with this due and this serial, was taken out.
    pub(crate) fn push_took_timer(
        &mut self,
        host: u16,
        due: u64,
        serial: u64,
    ) -> Result<(), NoMemory>
        ensures { OnOk result (self.new ≡ self.old ++ compact.TookTimer host due serial ∷ []) }
    {
        match (self.timer, self.list.is_empty()) {
            (TimerChange::Nothing, true) => {
                self.timer = TimerChange::TookTimer { host, due, serial };
                Ok(())
            }
            _ => self.push(Compact::TookTimer { host, due, serial }),
        }
    }

    // Adds a change of the disk of a host.
    pub(crate) fn push_stored(&mut self, host: u16, undo: DiskUndo) -> Result<(), NoMemory>
        ensures { OnOk result (self.new ≡ self.old ++ compact.Stored host undo ∷ []) }
    {
        match (self.timer, self.list.is_empty(), undo.light()) {
            (TimerChange::Nothing, true, Some(light)) if self.disk.add::<S, M, U>(host, light) =>
                Ok(()),
            _ => self.push(Compact::Stored(host, undo)),
        }
    }

    // Adds that an occurrence was queued.
    pub(crate) fn push_queued(&mut self) -> Result<(), NoMemory>
        ensures { OnOk result (self.new ≡ self.old ++ compact.Queued ∷ []) }
    {
        match (self.timer, self.list.is_empty()) {
            (TimerChange::Nothing, true) => {
                if !self.disk.add_queued::<S, M, U>() {
                    self.timer = TimerChange::Queued;
                }
                Ok(())
            }
            (TimerChange::TookTimer { host, due, serial }, true) => {
                self.timer = TimerChange::Reset { host, due, serial };
                Ok(())
            }
            _ => self.push(Compact::Queued),
        }
    }
}

// Drops the elements of a list; the memory stays.
#[inline(never)]
fn drop_all<T: Drop>(list: &mut Vec<T>)
    ensures { list.new.items ≡ [] }
{
    list.clear();
}
