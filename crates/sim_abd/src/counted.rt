//! A client whose numbers fit into messages.
ghost use Rattle.std.specs.Prelude.{◌≡◌, []};
ghost use Rattle.sim_node.specs.Node.{IsHostSetup, IsFrom};
ghost use Rattle.sim_hosts.specs.Reactions.{asked_for};
ghost use Rattle.sim_abd.specs.Abd.{client_at_boot, react_client};

use crate::{AbdMsg, Client};
use sim_node::{Effects, HostSetup, Input};
use std::marker::Model;

/// A client whose current operation has a number of 16 bits, so that its requests fit into
/// messages. Contracts see the client.
#[derive(Clone, Copy, Debug)]
pub struct CountedClient {
    inner: Client,
}

impl Model for CountedClient {
    ghost use Rattle.sim_abd.specs.declared.roles.Client.{Client};
    ghost use Rattle.sim_abd.specs.AbdNumbers.{IsCounted};

    ghost Value = { Client };

    ghost view = { λ counted. counted.inner };

    ghost inverse = { λ client. record { inner = client } };

    ghost invariant = { λ counted. IsCounted counted.inner.phase counted.inner.next };
}

impl CountedClient {
    pub fn at_boot() -> CountedClient
        ensures { result ≡ client_at_boot }
    {
        CountedClient {
            inner: Client::at_boot(),
        }
    }

    /// Returns the client.
    #[inline]
    pub fn get(&self) -> &Client
        ensures { result.now ≡ self.now }
    {
        &self.inner
    }

    /// Reacts to an input.
    pub fn react(
        &mut self,
        setup: &HostSetup,
        me: u16,
        input: &Input<AbdMsg>,
        effects: &mut Effects<AbdMsg>,
    )
        requires setup { IsHostSetup setup.now }
        requires sender { IsFrom setup.now.hosts input.now }
        requires empty { effects.old ≡ asked_for setup.now [] }
        ensures state { self.new ≡ (react_client setup.now me self.old input.now).0 }
        ensures effects { effects.new ≡ asked_for setup.now
            (react_client setup.now me self.old input.now).1 }
    {
        self.inner.react(setup, me, input, effects);
    }
}
