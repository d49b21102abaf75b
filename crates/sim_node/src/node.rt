ghost use Rattle.std.specs.Prelude.{◌≡◌, ℕ, ◌<◌, ◌≤◌, List, [], IfOk, OnOk};
ghost use Rattle.sim_node.specs.Work.{Work, turned, copied, undone};
ghost use Rattle.sim_node.specs.Node.{NodeLaws, NodeRecords, IsSetup, IsFrom};

use crate::effects::Effects;
use crate::meter::Meter;
use crate::{Input, NoMemory, Setup};
use std::alloc::Global;

/// A node: the state of what runs on a host. It boots, reacts to inputs with effects, and can undo
/// a reaction.
///
/// An impl gives its tables as ghost members and is proved to follow them. The world that runs the
/// nodes relies on this contract alone. A method fails only for want of memory. After an error
/// `boot`, `copy` and `copy_msg` leave nothing; after one of `act` or `undo` the value of the node
/// is unspecified, and the world that held it drops it.
pub trait Node: Drop {
    /// The messages that nodes send to each other.
    type Msg: Drop;

    /// The record of a reaction, by which `undo` undoes it. It is best small: fixed fields, without
    /// a collection.
    type Undo: Drop;

    /// The counter of the calls. A node that works with any meter takes it as a type parameter.
    type Meter: Meter;

    /// The number of probes: numbers that the outside may look at.
    const PROBES: u8;

    /// The number of probes, for contracts.
    ghost PROBES: { ℕ };

    /// The tables: how a node boots, how it reacts, and what its probes show.
    ghost laws: { NodeLaws Self Self.Msg };

    /// The number of hosts of the cluster, which the boot is told and every later state keeps.
    ghost told: { Self → ℕ };

    /// Which states a record fits, and to which state it leads back.
    ghost records: { NodeRecords Self Self.Undo };

    /// Returns the state in which the host `me` starts from the stable bytes of its disk. Counts
    /// one turn.
    fn boot(
        alloc: Global,
        setup: &Setup,
        me: u16,
        disk: &[u8],
        meter: &mut Self::Meter,
    ) -> Result<Self, NoMemory>
        requires setup { IsSetup setup.now }
        requires me { me < setup.now.hosts }
        ensures state { IfOk result (λ s. s ≡ laws.boot setup.now me disk.now) }
        ensures keeps { IfOk result (λ s. told s ≡ setup.now.hosts) }
        ensures work { Self.Meter.work meter.new ≡ turned (Self.Meter.work meter.old) };

    /// Reacts to an input at clock `now` (ms), with one random word, and asks for at most 40
    /// effects; there are none yet, and the sender of a message is a host of the cluster. Returns
    /// the record by which `undo` undoes the reaction. Counts one turn.
    fn act(
        &mut self,
        alloc: Global,
        now: u64,
        input: &Input<Self::Msg>,
        word: u32,
        effects: &mut Effects<Self::Msg>,
        meter: &mut Self::Meter,
    ) -> Result<Self::Undo, NoMemory>
        requires empty { effects.old ≡ record { hosts = told self.old; list = [] } }
        requires sender { IsFrom (told self.old) input.now }
        ensures state { OnOk result (self.new ≡ (laws.react self.old now input.now word).0) }
        ensures effects { OnOk result (effects.new ≡ record {
          hosts = told self.old;
          list = (laws.react self.old now input.now word).1;
        }) }
        ensures keeps { OnOk result (told self.new ≡ told self.old) }
        ensures fits { IfOk result (λ r. records.fits r self.new) }
        ensures back { IfOk result (λ r. records.back r self.new ≡ self.old) }
        ensures work { Self.Meter.work meter.new ≡ turned (Self.Meter.work meter.old) };

    /// Undoes a reaction, given its record, which must fit the state. Counts one undo.
    fn undo(
        &mut self,
        alloc: Global,
        undo: Self::Undo,
        meter: &mut Self::Meter,
    ) -> Result<(), NoMemory>
        requires { records.fits undo self.old }
        ensures state { OnOk result (self.new ≡ records.back undo self.old) }
        ensures keeps { OnOk result (told self.new ≡ told self.old) }
        ensures work { Self.Meter.work meter.new ≡ undone (Self.Meter.work meter.old) };

    /// Returns an equal node. Counts one copy.
    fn copy(&self, alloc: Global, meter: &mut Self::Meter) -> Result<Self, NoMemory>
        ensures state { IfOk result (λ s. s ≡ self.now) }
        ensures work { Self.Meter.work meter.new ≡ copied (Self.Meter.work meter.old) };

    /// Returns the number that the probe `k` shows.
    fn probe(&self, k: u8) -> u64
        requires { k < PROBES }
        ensures { result ≡ laws.probe self.now k };

    /// Returns an equal message.
    fn copy_msg(alloc: Global, msg: &Self::Msg) -> Result<Self::Msg, NoMemory>
        ensures { IfOk result (λ m. m ≡ msg.now) };

    /// Returns an equal input. A node with `Copy` messages can give `Ok(*input)`, which is faster:
    /// a checkpoint copies each pending input.
    fn copy_input(alloc: Global, input: &Input<Self::Msg>) -> Result<Input<Self::Msg>, NoMemory>
        ensures { IfOk result (λ copy. copy ≡ input.now) }
    {
        let copy = match input {
            Input::Start => Input::Start,
            Input::Message { sender, msg } => Input::Message {
                sender: *sender,
                msg: Self::copy_msg(alloc, msg)?,
            },
            Input::Timer => Input::Timer,
            Input::Synced => Input::Synced,
        };
        Ok(copy)
    }
}

/// Lets a node react and undoes the reaction at once: the node is as before, and `effects` keeps
/// what the reaction asked for. Counts one turn and one undo. Fails only for want of memory; the
/// value of the node is then unspecified.
pub fn there_and_back<N: Node>(
    node: &mut N,
    alloc: Global,
    now: u64,
    input: &Input<N::Msg>,
    word: u32,
    effects: &mut Effects<N::Msg>,
    meter: &mut N::Meter,
) -> Result<(), NoMemory>
    requires empty { effects.old ≡ record { hosts = N.told node.old; list = [] } }
    requires sender { IsFrom (N.told node.old) input.now }
    ensures same { OnOk result (node.new ≡ node.old) }
    ensures effects { OnOk result (effects.new ≡ record {
      hosts = N.told node.old;
      list = (N.laws.react node.old now input.now word).1;
    }) }
    ensures work { OnOk result (N.Meter.work meter.new ≡ undone (turned (N.Meter.work meter.old))) }
{
    let undo = node.act(alloc, now, input, word, effects, meter)?;
    node.undo(alloc, undo, meter)
}
