//! What a node does in a step.
ghost use Rattle.std.specs.Prelude.{◌≡◌};

use crate::fate::ToldEffect;
use sim_node::Node;
use std::marker::Model;

/// The account of a reaction: the word drawn for it, the node after it, and its effects in order,
/// each with its fate.
#[derive(Drop)]
pub struct Reaction<N: Node> {
    pub(crate) word: u32,
    pub(crate) node: N,
    pub(crate) effects: Vec<ToldEffect<N::Msg>>,
}

impl<N: Node> Model for Reaction<N> {
    ghost use Rattle.sim_account.specs.Account.{Reaction as ReactionValue};

    ghost Value = { ReactionValue N N.Msg };

    ghost view = { λ r. record { word = r.word; state = r.node; effects = r.effects.items } };
}

impl<N: Node> Reaction<N> {
    /// Returns the word drawn for the reaction.
    pub fn word(&self) -> u32
        ensures { result ≡ self.now.word }
    {
        self.word
    }

    /// Returns the node after the reaction.
    pub fn node(&self) -> &N
        ensures { result.now ≡ self.now.state }
    {
        &self.node
    }

    /// Returns the effects in order, each with its fate.
    pub fn effects(&self) -> &[ToldEffect<N::Msg>]
        ensures { result.now ≡ self.now.effects }
    {
        &self.effects
    }
}
