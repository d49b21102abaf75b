//! What a worker knows, and the rule of the table.
use atomic_table::{Join, Play, Split, TableRule};
use std::collections::LinkedList;

/// The parts of a worker's right to claim, and the numbers it drew. It exists only in contracts.
pub(crate) struct Hand {
    pub(crate) parts: u64,
    pub(crate) drawn: LinkedList<u64>,
}

/// The number of pieces and of workers.
#[derive(Clone, Copy)]
pub(crate) struct Limits {
    pub(crate) pieces: u64,
    pub(crate) workers: u64,
}

/// The rule of the table.
pub(crate) struct Law;

impl TableRule<(), Hand, Limits> for Law {
    ghost use Rattle.std.specs.Prelude.{[]};
    ghost use Rattle.sim_claims.specs.Claims.{Given, hand};

    ghost holds = { λ l s. Given l.pieces l.workers s };

    ghost first = { λ l. hand l.workers [] };
}

/// Draws the next number.
pub(crate) struct Claim;

impl Play<(), Hand> for Claim {
    ghost use Rattle.sim_claims.specs.Claims.{Draws};

    ghost then = { Draws };
}

/// Splits one worker off.
pub(crate) struct Apart;

impl Split<Hand> for Apart {
    ghost use Rattle.std.specs.Prelude.{[], ◌-◌};
    ghost use Rattle.sim_claims.specs.Claims.{hand};

    ghost left = { λ v. hand (v.parts - 1) v.drawn };

    ghost right = { λ v. hand 1 [] };
}

/// Joins the numbers of two workers.
pub(crate) struct Together;

impl Join<Hand> for Together {
    ghost use Rattle.std.specs.Prelude.{[], ◌+◌, ◌++◌};
    ghost use Rattle.sim_claims.specs.Claims.{hand};

    ghost both = { λ v w. hand (v.parts + w.parts) (v.drawn ++ w.drawn) };

    ghost spent = { hand 0 [] };
}
