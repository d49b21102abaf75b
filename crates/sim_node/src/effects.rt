ghost use Rattle.std.specs.Prelude.{◌≡◌, ◌+◌, ◌<◌, ◌≤◌, List, [], ◌∷◌, ◌++◌, length, IfOk, IfNone};
ghost use Rattle.std.specs.Prelude.{IfSome, slice_get};
ghost use Rattle.std.specs.Option.{option_map};
ghost use Rattle.sim_node.specs.Effects.{Effect as Asked, Effects as EffectsValue, IsWithin};
ghost use Rattle.sim_node.specs.Effects.{AllWithin, IsLimited};
ghost use Rattle.sim_node.specs.Seen.{seen, IsStored};

use crate::{MAX_EFFECTS, MAX_WRITE_BYTES, NoMemory, Setup};
use std::alloc::Global;
use std::marker::Model;

/// An effect that a node asks for when it reacts.
#[derive(Debug, PartialEq, Drop)]
pub enum Effect<M> {
    /// A message to a host, which may be the node's own.
    Send {
        to: u16,
        msg: M,
    },
    /// A timer after a delay of 1 to 60,000 ms, which replaces the pending one.
    Timer(u32),
    /// A write to the disk from an offset on (both in bytes): the first `len` of `bytes`, 1 to 64.
    /// The rest of `bytes` has no meaning. A write that would end beyond the 4,096 bytes of the
    /// disk is skipped.
    Write {
        offset: u32,
        len: u32,
        bytes: [u8; 64],
    },
    /// A sync: the writes so far shall become stable. The input `Synced` reports that they are.
    Sync,
    /// The host is done: it has nothing more to do as a client.
    Done,
}

/// The effects of one reaction, in order, with room for 40.
///
/// Contracts see the number of hosts and the list of the effects. Only `new` takes memory. After
/// all effects have been taken out, the value is as `new` made it and can be reused for the next
/// reaction.
#[derive(Drop)]
pub struct Effects<M> {
    hosts: u16,
    list: Vec<Effect<M>>,
}

impl<M> Model for Effects<M> {
    ghost use Rattle.std.specs.Prelude.{◌≤◌, length, map};
    ghost use Rattle.std.specs.Vec.{vec_capacity};
    ghost use Rattle.sim_node.specs.Effects.{Effects as EffectsValue};
    ghost use Rattle.sim_node.specs.Seen.{seen, AllStored};

    ghost Value = { EffectsValue M };

    ghost view = { λ e. record { hosts = e.hosts; list = map seen e.list.items } };

    ghost invariant = { λ e. (length e.list.items ≤ 40) × (40 ≤ vec_capacity e.list)
        × AllStored e.hosts e.list.items };
}

impl<M> Effects<M> {
    /// Returns no effects, for the hosts of the setup, with room for 40. Fails only for want of
    /// memory.
    pub fn new(alloc: Global, setup: &Setup) -> Result<Effects<M>, NoMemory>
        ensures { IfOk result (λ e. e ≡ record { hosts = setup.now.hosts; list = [] }) }
    {
        Ok(Effects {
            hosts: setup.hosts,
            list: Vec::with_capacity(alloc, MAX_EFFECTS)?,
        })
    }

    /// States the invariant: there are at most 40 effects, and each is within the limits.
    pub fn laws(&self)
        ensures { IsLimited self.now }
    {
        let _list = &self.list;
    }

    /// Returns the number of effects: at most 40, and each is within the limits.
    pub fn len(&self) -> usize
        ensures value { result ≡ length self.now.list }
        ensures bound { length self.now.list ≤ 40 }
        ensures within { AllWithin self.now.hosts self.now.list }
    {
        self.list.len()
    }

    /// Returns the effect at a place, or `None` if there are fewer. It is within the limits.
    #[inline(always)]
    pub fn get(&self, i: usize) -> Option<&Effect<M>>
        ensures effect { option_map (λ e. seen e.now) result ≡ slice_get self.now.list i }
        ensures stored { IfSome result (λ e. IsStored self.now.hosts e.now) }
    {
        self.list.get(i)
    }

    /// Removes and returns the first effect; the others keep their order. If there is none, returns
    /// `None` and changes nothing. The effects are within the limits.
    pub fn take_first(&mut self) -> Option<Effect<M>>
        ensures none { IfNone result ((self.old.list ≡ []) × (self.new ≡ self.old)) }
        ensures some { IfSome result (λ e. self.old ≡ record self.new
            { list = seen e ∷ self.new.list }) }
        ensures stored { IfSome result (λ e. IsStored self.old.hosts e) }
        ensures limited { IsLimited self.old }
    {
        if self.list.is_empty() {
            return None;
        }
        Some(self.list.remove(0))
    }
}

impl<M: Drop> Effects<M> {
    /// Drops all effects. The value is then as `new` made it.
    #[inline(always)]
    pub fn clear(&mut self)
        ensures { self.new ≡ record self.old { list = [] } }
    {
        self.list.clear();
    }

    fn push(&mut self, effect: Effect<M>)
        requires room { length self.old.list < 40 }
        requires stored { IsStored self.old.hosts effect }
        ensures { self.new ≡ record self.old { list = self.old.list ++ seen effect ∷ [] } }
    {
        self.list.push_reserved(effect);
    }

    /// Asks to send a message to a host of the cluster, which may be the node's own. There are
    /// fewer than 40 effects so far.
    pub fn send(&mut self, to: u16, msg: M)
        requires room { length self.old.list < 40 }
        requires host { to < self.old.hosts }
        ensures { self.new ≡ record self.old { list = self.old.list ++ Asked.Send to msg ∷ [] } }
    {
        self.push(Effect::Send { to, msg });
    }

    /// Asks for a timer after a delay of 1 to 60,000 ms, which replaces the pending one. There are
    /// fewer than 40 effects so far.
    pub fn timer(&mut self, delay: u32)
        requires room { length self.old.list < 40 }
        requires low { 1 ≤ delay }
        requires high { delay ≤ 60000 }
        ensures { self.new ≡ record self.old { list = self.old.list ++ Asked.Timer delay ∷ [] } }
    {
        self.push(Effect::Timer(delay));
    }

    /// Asks for a write of 1 to 64 bytes to the disk, from an offset in bytes on. The world skips a
    /// write that would end beyond the 4,096 bytes of the disk. There are fewer than 40 effects so
    /// far.
    pub fn write(&mut self, offset: u32, bytes: &[u8])
        requires room { length self.old.list < 40 }
        requires some { 1 ≤ length bytes.now }
        requires few { length bytes.now ≤ 64 }
        ensures { self.new ≡ record self.old {
          list = self.old.list ++ Asked.Write offset bytes.now ∷ [];
        } }
    {
        let mut stored = [0; MAX_WRITE_BYTES];
        stored[..bytes.len()].copy_from_slice(bytes);
        self.push(Effect::Write {
            offset,
            len: bytes.len() as u32,
            bytes: stored,
        });
    }

    /// Asks for a sync: the writes so far shall become stable. There are fewer than 40 effects so
    /// far.
    pub fn sync(&mut self)
        requires { length self.old.list < 40 }
        ensures { self.new ≡ record self.old { list = self.old.list ++ Asked.Sync ∷ [] } }
    {
        self.push(Effect::Sync);
    }

    /// Reports that the host is done. There are fewer than 40 effects so far.
    pub fn done(&mut self)
        requires { length self.old.list < 40 }
        ensures { self.new ≡ record self.old { list = self.old.list ++ Asked.Done ∷ [] } }
    {
        self.push(Effect::Done);
    }
}
