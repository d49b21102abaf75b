//! Occurrences: what is pending for a host.
ghost use Rattle.std.specs.Prelude.{◌≡◌, IfOk};
ghost use Rattle.sim_pending.specs.Occurrence.{input_of, sync_count};

use crate::NoMemory;
use sim_node::{Input, Node};
use std::alloc::Global;
use std::marker::Model;

/// An occurrence that is pending for a host: the input that the host will get. A sync covers the
/// first `covered` writes of the host's disk.
#[derive(Drop)]
pub struct Occurrence<M> {
    pub host: u16,
    pub covered: u32,
    pub input: Input<M>,
}

impl<M> Model for Occurrence<M> {
    ghost use Rattle.sim_pending.specs.Occurrence.{Occurrence as OccurrenceValue, body_of};

    ghost Value = { OccurrenceValue M };

    ghost view = { λ o. record { host = o.host; body = body_of o.covered o.input } };
}

impl<M> Occurrence<M> {
    /// Returns the host of the occurrence.
    pub fn host(&self) -> u16
        ensures { result ≡ self.now.host }
    {
        self.host
    }

    /// Returns the input that the host will get.
    pub fn input(&self) -> &Input<M>
        ensures { result.now ≡ input_of self.now.body }
    {
        &self.input
    }

    /// Returns the number of writes that a sync covers, the oldest ones, or `None` if it is no
    /// sync.
    pub fn sync_count(&self) -> Option<u32>
        ensures { result ≡ sync_count self.now.body }
    {
        match &self.input {
            Input::Synced => Some(self.covered),
            Input::Start | Input::Timer | Input::Message { .. } => None,
        }
    }
}

/// Returns an equal occurrence. Fails only for want of memory.
pub fn copied_occurrence<N: Node>(
    alloc: Global,
    occurrence: &Occurrence<N::Msg>,
) -> Result<Occurrence<N::Msg>, NoMemory>
    ensures { IfOk result (λ copy. copy ≡ occurrence.now) }
{
    let input = N::copy_input(alloc, &occurrence.input)?;
    Ok(Occurrence {
        host: occurrence.host,
        covered: occurrence.covered,
        input,
    })
}
