//! Places that a user of a run looks for.
use crate::shared::SharedCond;

/// A place to find among the kept events of a branch.
#[derive(Drop)]
pub enum Sought {
    /// The first place at which the clock is at this time or later (ms).
    At(u32),
    /// The place before the event that queued what happens next.
    Cause,
    /// The place before the last event of this host that comes before the branch's place.
    Last(u16),
    /// The first place at which a condition fails.
    First(SharedCond),
    /// The last place before this one at which a condition holds.
    Held(SharedCond),
}
