//! How a run is planned.
ghost use Rattle.std.specs.Prelude.{◌≡◌, ◌↔◌, ◌≤◌, ℕ, IsTrue, IfSome, IfNone};
ghost use Rattle.std.specs.Option.{ForSome};
ghost use Rattle.sim_plan.specs.Happening.{IsPlan, IsWide, plan_with};

/// The widest spacing of a plan; the narrowest is 2.
pub const MAX_SPACING: u32 = 65_536;

/// The most given events, planned events and quiet steps of a run together.
pub const MAX_PLANNED: u64 = 65_534;

/// How a run is planned.
#[derive(Clone, Copy)]
pub struct Plan {
    /// One event in this many is a fault or a healing, on average: 2 to 65,536. With `None`, each
    /// planned event is a step.
    pub spacing: Option<u32>,
    /// The number of events planned before the quiet end.
    pub events: u32,
    /// The number of steps of the quiet end. With 0, the faults that are left are not healed.
    pub quiet: u32,
    /// Whether the condition is tested only after the last event.
    pub at_end: bool,
}

// Returns the spacing of faults, or `None` if it does not fit 32 bits.
fn spacing_of(faults: Option<u64>) -> Option<Option<u32>>
    ensures some { IfSome result (λ spacing. spacing ≡ faults) }
    ensures none { IfNone result (IsWide faults) }
{
    match faults {
        Some(faults) => Some(Some(u32::try_from(faults).ok()?)),
        None => Some(None),
    }
}

impl Plan {
    /// Returns the plan with these numbers, or `None` if one of them does not fit 32 bits, so that
    /// no plan can have it. `is_within` tests the other limits.
    pub fn new(faults: Option<u64>, events: u64, quiet: u64, at_end: bool) -> Option<Plan>
        ensures some { IfSome result (λ plan. plan ≡ plan_with faults events quiet at_end) }
        ensures none { IfNone result ((given : ℕ) →
            ¬ (IsPlan given (plan_with faults events quiet at_end))) }
    {
        Some(Plan {
            spacing: spacing_of(faults)?,
            events: u32::try_from(events).ok()?,
            quiet: u32::try_from(quiet).ok()?,
            at_end,
        })
    }

    /// Returns whether the plan, after `given` given events, is within the limits: the spacing, if
    /// there is one, is 2 to 65,536, and given events, planned events and quiet steps are at most
    /// 65,534 together.
    pub fn is_within(&self, given: usize) -> bool
        ensures { IsTrue result ↔ IsPlan given self.now }
    {
        let steps = u64::from(self.events) + u64::from(self.quiet);
        self.is_spaced() && steps <= MAX_PLANNED && given as u64 <= MAX_PLANNED - steps
    }

    // Returns whether the spacing, if there is one, is within the limits.
    fn is_spaced(&self) -> bool
        ensures { IsTrue result ↔ ForSome self.now.spacing (λ f. (2 ≤ f) × (f ≤ 65536)) }
    {
        match self.spacing {
            None => true,
            Some(spacing) => 2 <= spacing && spacing <= MAX_SPACING,
        }
    }
}
