//! What the node of a host did with its disk after its messages were sent.
ghost use Rattle.std.specs.Prelude.{◌≡◌, [], ◌∷◌, ◌++◌, option_to_list, IfNone};
ghost use Rattle.std.specs.Bool.{OnTrue, OnFalse};
ghost use Rattle.sim_disk.specs.Light.{whole};
ghost use Rattle.sim_world.specs.declared.trail.Compact.TheVariants as compact;
ghost use Rattle.sim_world.specs.inside.DiskWork.{disk_changes};

use crate::trail::Compact;
use sim_disk::LightUndo;

/// Writes to the disk of a host, then a sync that asks for them, then the queued coming of the
/// sync.
#[derive(Clone, Copy, Drop)]
pub(crate) enum DiskWork {
    /// Nothing was done.
    Nothing,
    /// This number of writes was added.
    Wrote { host: u16, writes: u32 },
    /// This number of writes was added, and then a sync asked; `was` writes had been asked for
    /// before.
    Asked { host: u16, writes: u32, was: u32 },
    /// As for `Asked`, and then an occurrence was queued.
    Queued { host: u16, writes: u32, was: u32 },
}

impl DiskWork {
    // Returns whether nothing was done.
    #[inline(always)]
    pub(crate) fn is_nothing<S, M, U>(&self) -> bool
        ensures { OnTrue result (disk_changes {State = S} {Msg = M} {Undo = U} self.now ≡ []) }
    {
        matches!(self, DiskWork::Nothing)
    }

    // Adds a change of the disk of a host, if it can come next. Returns whether it can.
    #[inline(always)]
    pub(crate) fn add<S, M, U>(&mut self, host: u16, undo: LightUndo) -> bool
        ensures added { OnTrue result (disk_changes {State = S} {Msg = M} {Undo = U} self.new
            ≡ disk_changes {State = S} {Msg = M} {Undo = U} self.old
            ++ compact.Stored host (whole undo) ∷ []) }
        ensures refused { OnFalse result (self.new ≡ self.old) }
    {
        match (*self, undo) {
            (DiskWork::Nothing, LightUndo::Added) => {
                *self = DiskWork::Wrote { host, writes: 1 };
                true
            }
            (DiskWork::Nothing, LightUndo::Asked(was)) => {
                *self = DiskWork::Asked {
                    host,
                    writes: 0,
                    was,
                };
                true
            }
            (DiskWork::Wrote { host: h, writes }, LightUndo::Added)
                if h == host && writes < u32::MAX => {
                *self = DiskWork::Wrote {
                    host,
                    writes: writes + 1,
                };
                true
            }
            (DiskWork::Wrote { host: h, writes }, LightUndo::Asked(was)) if h == host => {
                *self = DiskWork::Asked { host, writes, was };
                true
            }
            _ => false,
        }
    }

    // Adds that an occurrence was queued, if that can come next. Returns whether it can.
    #[inline(always)]
    pub(crate) fn add_queued<S, M, U>(&mut self) -> bool
        ensures added { OnTrue result (disk_changes {State = S} {Msg = M} {Undo = U} self.new
            ≡ disk_changes {State = S} {Msg = M} {Undo = U} self.old ++ compact.Queued ∷ []) }
        ensures refused { OnFalse result (self.new ≡ self.old) }
    {
        match *self {
            DiskWork::Asked { host, writes, was } => {
                *self = DiskWork::Queued { host, writes, was };
                true
            }
            DiskWork::Nothing | DiskWork::Wrote { .. } | DiskWork::Queued { .. } => false,
        }
    }

    // Removes and returns the last change.
    pub(crate) fn pop<S, M, U>(&mut self) -> Option<Compact<S, M, U>>
        ensures items { disk_changes {State = S} {Msg = M} {Undo = U} self.old
            ≡ disk_changes {State = S} {Msg = M} {Undo = U} self.new ++ option_to_list result }
        ensures none { IfNone result (disk_changes {State = S} {Msg = M} {Undo = U} self.old ≡ []) }
    {
        match *self {
            DiskWork::Nothing | DiskWork::Wrote { writes: 0, .. } => None,
            DiskWork::Wrote { host, writes } => {
                *self = DiskWork::Wrote {
                    host,
                    writes: writes - 1,
                };
                Some(Compact::Stored(host, LightUndo::Added.whole()))
            }
            DiskWork::Asked { host, writes, was } => {
                *self = DiskWork::Wrote { host, writes };
                Some(Compact::Stored(host, LightUndo::Asked(was).whole()))
            }
            DiskWork::Queued { host, writes, was } => {
                *self = DiskWork::Asked { host, writes, was };
                Some(Compact::Queued)
            }
        }
    }
}
