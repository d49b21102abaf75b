//! Scans for the first place of a run at which a condition fails.
//!
//! [`pieces`] and [`piece`] cut a range of places at the checkpoints of a run. [`scan`] finds the
//! first failing place of a piece, [`scan_after`] does the same with the tape of the piece before,
//! and [`scan_seed`] finds the first failing place of a scenario's own steps. Their contracts also
//! bound the work. For a piece it is one walk from the checkpoint below it, fewer turns than the
//! interval between two checkpoints, at most one copy of a world, and no undo. For `scan_seed` it
//! is a turn for each host and at most one for each step up to the place found.
//!
//! Why it is built this way:
//!
//! - Each piece but the first begins at a checkpoint, so the walk of a piece and the walk from its
//!   checkpoint are one.
//! - A sweep walks a world and not a tape, with steps that keep no record.
//! - A step changes one host alone. So after the first place the condition is tested only after a
//!   step of a host that it is about, and after an advance or a fault.
#![tactic(auto)]

mod cutting;
mod places;
mod scanning;

pub use cutting::{piece, pieces};
pub use places::{Finding, Piece};
pub use scanning::{scan, scan_after, scan_seed};
