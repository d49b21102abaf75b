//! The lock, and the seats that sessions call from.
ghost use Rattle.std.specs.Prelude.{◌≡◌, ◌<◌, [], length, false};
ghost use Rattle.sim_lock.specs.Rule.{session_in, holds_in};

use crate::kept::Kept;
use crate::rule::{About, Law, Part};
use atomic_table::Table;
use std::alloc::Global;
use std::collections::LinkedList;

/// A value that sessions share.
#[derive(Drop)]
pub struct Lock<B: Kept> {
    pub(crate) table: Table<
        Option<B>,
        LinkedList<Part<B::Scenario, B::Entry>>,
        About<B>,
        Law<B>,
        Global,
    >,
    pub(crate) sessions: u8,
    ghost sized: { (table.shared.table_id.words ≡ 1) × (table.shared.table_id.slots ≡ 1) },
    ghost some: { 0 < sessions },
    ghost counted: { sessions ≡ table.shared.key.sessions },
}

/// One session's place at a lock.
#[derive(Drop)]
pub struct Seat<B: Kept> {
    pub(crate) raw: atomic_table::Seat<Option<B>, LinkedList<Part<B::Scenario, B::Entry>>>,
    pub(crate) session: u8,
    ghost one: { length raw.me.0 ≡ 1 },
    ghost idle: { holds_in raw.me.0 ≡ false },
    ghost bare: { raw.me.1 ≡ [] },
    ghost number: { session ≡ session_in raw.me.0 },
}

impl<B: Kept> Seat<B> {
    ghost use Rattle.sim_lock.specs.Seats.{session};

    /// Returns the number of the seat's session, from 0.
    pub fn session(&self) -> u8
        ensures { result ≡ session self.now }
    {
        self.session
    }
}
