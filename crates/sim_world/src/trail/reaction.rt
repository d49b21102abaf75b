//! The reaction of a node, stored inline in a trail.
ghost use Rattle.std.specs.Prelude.{◌≡◌, None, Some, is_some, not};

use std::marker::Model;

/// The host whose node reacted and the record of the reaction, or none. A record that is no longer
/// needed is not touched until another one replaces it, so clearing costs next to nothing.
#[derive(Drop)]
pub(crate) struct Reaction<U> {
    is_there: bool,
    host: u16,
    undo: Option<U>,
}

impl<U> Model for Reaction<U> {
    ghost use Rattle.std.specs.Prelude.{ℕ, Option};
    ghost use Rattle.sim_world.specs.inside.Trail.{acted_in};

    ghost Value = { Option (ℕ × U) };

    ghost view = { λ a. acted_in a.is_there a.host a.undo };
}

impl<U> Reaction<U> {
    pub(crate) fn none() -> Reaction<U>
        ensures { result ≡ None }
    {
        Reaction {
            is_there: false,
            host: 0,
            undo: None,
        }
    }

    pub(crate) fn is_none(&self) -> bool
        ensures { result ≡ not (is_some self.now) }
    {
        !self.is_there || self.undo.is_none()
    }

    pub(crate) fn clear(&mut self)
        ensures { self.new ≡ None }
    {
        self.is_there = false;
    }

    pub(crate) fn put(&mut self, host: u16, undo: U)
    where
        U: Drop,
        ensures { self.new ≡ Some (host, undo) }
    {
        self.is_there = true;
        self.host = host;
        self.undo = Some(undo);
    }

    pub(crate) fn take(&mut self) -> Option<(u16, U)>
        ensures value { result ≡ self.old }
        ensures none { self.new ≡ None }
    {
        if !self.is_there {
            return None;
        }
        self.is_there = false;
        let undo = self.undo.take()?;
        Some((self.host, undo))
    }
}
