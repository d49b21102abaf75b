//! What the sessions know, and the rule of the table.
use crate::kept::Kept;
use atomic_table::{Join, Play, Seat, Split, TableRule};
use std::collections::LinkedList;
use std::marker::PhantomData;
use std::snapshot::Snapshot;

/// What one session knows: its number, the scenario, its own entries, the history it has seen, and
/// whether it has the book. It exists only in contracts.
pub(crate) struct Part<C, E> {
    pub(crate) session: u8,
    pub(crate) scenario: C,
    pub(crate) mine: LinkedList<E>,
    pub(crate) seen: LinkedList<E>,
    pub(crate) holds: bool,
}

/// What the table is made with: the book, and the number of sessions.
#[derive(Drop)]
pub(crate) struct About<B> {
    pub(crate) book: Snapshot<B>,
    pub(crate) sessions: u8,
}

/// A seat at the table.
pub(crate) type RawSeat<B: Kept> = Seat<Option<B>, LinkedList<Part<B::Scenario, B::Entry>>>;

/// The rule of the table.
pub(crate) struct Law<B> {
    of: PhantomData<B>,
}

impl<B: Kept> TableRule<Option<B>, LinkedList<Part<B::Scenario, B::Entry>>, About<B>> for Law<B> {
    ghost use Rattle.sim_lock.specs.Rule.{Keeps, fresh};

    ghost holds = { λ about s. Keeps B.session_of B.scenario B.entries
        (B.scenario about.book.value) about.sessions s };

    ghost first = { λ about. fresh (B.scenario about.book.value) 0 about.sessions };
}

/// Takes the book out, if it is at home.
pub(crate) struct Take;

impl<B: Kept> Play<Option<B>, LinkedList<Part<B::Scenario, B::Entry>>> for Take {
    ghost use Rattle.sim_lock.specs.Rule.{Takes};

    ghost then = { Takes B.session_of B.scenario B.entries };
}

/// Puts the book back home.
pub(crate) struct Give;

impl<B: Kept> Play<Option<B>, LinkedList<Part<B::Scenario, B::Entry>>> for Give {
    ghost use Rattle.sim_lock.specs.Rule.{Gives};

    ghost then = { Gives B.session_of B.scenario B.entries };
}

/// Cuts one session off a seat that has several.
pub(crate) struct Cut;

impl<C, E> Split<LinkedList<Part<C, E>>> for Cut {
    ghost use Rattle.sim_lock.specs.Rule.{first_of, rest_of};

    ghost left = { rest_of };

    ghost right = { first_of };
}

/// Joins the sessions of a seat to another seat.
pub(crate) struct Fold;

impl<C, E> Join<LinkedList<Part<C, E>>> for Fold {
    ghost use Rattle.std.specs.Prelude.{[], ◌++◌};

    ghost both = { λ v w. v ++ w };

    ghost spent = { [] };
}
