//! Passes over the faults that stay: they drop those that the failure does not need.
ghost use Rattle.std.specs.Prelude.{◌≡◌, ◌+◌, ◌<◌, ◌≤◌, true, false, IfOk, length};
ghost use Rattle.sim_world.specs.Events.{rules};
ghost use Rattle.sim_shrink.specs.Choices.{count_left};
ghost use Rattle.sim_shrink.specs.Shrunk.{IsMinimal};
ghost use Rattle.sim_shrink.specs.Passing.{StillFails, IsTried};

use crate::Listener;
use crate::case::Case;
use crate::choice::{Choice, count_of_left, drop_from, has_left};
use sim_node::{NoMemory, Node};

// Returns the choice after one more trial, and reports the trial to the listener.
fn after_trial<L: Listener>(stays: Vec<bool>, trials: u64, listener: &mut L) -> Choice
    ensures { result.stays ≡ stays }
{
    let trials = trials.saturating_add(1);
    listener.tried(count_of_left(&stays), trials);
    Choice { stays, trials }
}

impl<'a, N: Node> Case<'a, N> {
    // Drops `count` faults from number `from` on if the condition still fails without them. Returns
    // the choice after that, and whether it dropped them.
    fn drop_part<L: Listener>(
        &self,
        choice: Choice,
        from: usize,
        count: usize,
        meter: &mut N::Meter,
        listener: &mut L,
    ) -> Result<(Choice, bool), NoMemory>
        requires within { from + count ≤ length choice.stays.items }
        requires fails { StillFails (rules N.laws N.PROBES self.now.scenario.now)
            self.now.cond.now self.now.events.now choice.stays.items }
        ensures tried { IfOk result (λ r. IsTried (rules N.laws N.PROBES self.now.scenario.now)
            self.now.cond.now self.now.events.now
            choice.stays.items from count r.0.stays.items r.1) }
    {
        if !has_left(&choice.stays, from, count) {
            return Ok((choice, false));
        }
        let Choice { stays, trials } = choice;
        let fewer = drop_from(self.alloc, &stays, from, count)?;
        match self.trial(&fewer, meter)? {
            Some(_) => Ok((after_trial(fewer, trials, listener), true)),
            None => Ok((after_trial(stays, trials, listener), false)),
        }
    }

    // Drops each part of `size` faults without which the condition still fails. Returns the choice
    // after that, and whether it dropped one.
    fn pass<L: Listener>(
        &self,
        choice: Choice,
        size: usize,
        meter: &mut N::Meter,
        listener: &mut L,
    ) -> Result<(Choice, bool), NoMemory>
        requires some { 1 ≤ size }
        requires fails { StillFails (rules N.laws N.PROBES self.now.scenario.now)
            self.now.cond.now self.now.events.now choice.stays.items }
        ensures fails { IfOk result (λ r. StillFails (rules N.laws N.PROBES self.now.scenario.now)
            self.now.cond.now self.now.events.now r.0.stays.items) }
        ensures fewer { IfOk result (λ r. r.1 ≡ true
            → count_left r.0.stays.items < count_left choice.stays.items) }
        ensures minimal { IfOk result (λ r. r.1 ≡ false → size ≡ 1
            → IsMinimal (rules N.laws N.PROBES self.now.scenario.now)
            self.now.cond.now self.now.events.now r.0.stays.items) }
    {
        let faults = choice.stays.len();
        let mut choice = choice;
        let mut has_dropped = false;
        for from in 0..faults {
            if from % size != 0 {
                continue;
            }
            let count = size.min(faults - from);
            let (next, is_dropped) = self.drop_part(choice, from, count, meter, listener)?;
            choice = next;
            has_dropped = has_dropped || is_dropped;
        }
        Ok((choice, has_dropped))
    }

    /// Drops halves of the faults, quarters, and so on, if the condition still fails without them.
    pub fn halve<L: Listener>(
        &self,
        choice: Choice,
        meter: &mut N::Meter,
        listener: &mut L,
    ) -> Result<Choice, NoMemory>
        requires fails { StillFails (rules N.laws N.PROBES self.now.scenario.now)
            self.now.cond.now self.now.events.now choice.stays.items }
        ensures fails { IfOk result (λ r. StillFails (rules N.laws N.PROBES self.now.scenario.now)
            self.now.cond.now self.now.events.now r.stays.items) }
    {
        let mut size = choice.stays.len() / 2;
        let mut choice = choice;
        while size > 1 {
            let (next, _) = self.pass(choice, size, meter, listener)?;
            choice = next;
            size /= 2;
        }
        Ok(choice)
    }

    /// Drops single faults until the condition fails nowhere without any one of the faults that
    /// stay.
    pub fn settle<L: Listener>(
        &self,
        choice: Choice,
        meter: &mut N::Meter,
        listener: &mut L,
    ) -> Result<Choice, NoMemory>
        requires fails { StillFails (rules N.laws N.PROBES self.now.scenario.now)
            self.now.cond.now self.now.events.now choice.stays.items }
        ensures fails { IfOk result (λ r. StillFails (rules N.laws N.PROBES self.now.scenario.now)
            self.now.cond.now self.now.events.now r.stays.items) }
        ensures minimal { IfOk result (λ r. IsMinimal (rules N.laws N.PROBES self.now.scenario.now)
            self.now.cond.now self.now.events.now r.stays.items) }
    {
        let mut choice = choice;
        for _ in 0..choice.stays.len() {
            let (next, has_dropped) = self.pass(choice, 1, meter, listener)?;
            choice = next;
            if !has_dropped {
                return Ok(choice);
            }
        }
        Ok(choice)
    }
}
