//! What becomes of an effect.
ghost use Rattle.std.specs.Prelude.{◌≡◌};
ghost use Rattle.sim_node.specs.Seen.{seen};

use sim_node::Effect;
use std::marker::Model;

/// The fate of an effect.
#[derive(Clone, Copy)]
pub enum Fate {
    /// The message or the timer is pending, due at this time (ms).
    Pending { due: u64, serial: u64 },
    /// The message is lost on its way.
    Lost,
    /// The link holds the message.
    Held,
    /// The link is cut, so the message is dropped.
    Cut,
    /// 4,096 messages are in flight and held, so the message is dropped.
    Full,
    /// The write is added to those that are not stable yet.
    Added,
    /// The write would end past the disk's 4,096 bytes, so it is skipped.
    Skipped,
    /// A sync of the newest `count` writes is pending, due at this time (ms).
    Asked { due: u64, serial: u64, count: u32 },
    /// The host is done.
    Done,
}

/// An effect, and its fate.
#[derive(Drop)]
pub struct ToldEffect<M> {
    pub(crate) effect: Effect<M>,
    pub(crate) fate: Fate,
}

impl<M> Model for ToldEffect<M> {
    ghost use Rattle.sim_node.specs.Seen.{seen};
    ghost use Rattle.sim_account.specs.Account.{ToldEffect as ToldValue};

    ghost Value = { ToldValue M };

    ghost view = { λ t. record { effect = seen t.effect; fate = t.fate } };
}

impl<M> ToldEffect<M> {
    /// Returns the effect that the node asks for.
    pub fn effect(&self) -> &Effect<M>
        ensures { seen result.now ≡ self.now.effect }
    {
        &self.effect
    }

    /// Returns the fate of the effect.
    pub fn fate(&self) -> Fate
        ensures { result ≡ self.now.fate }
    {
        self.fate
    }
}
