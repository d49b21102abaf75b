//! Tests of runs: of tapes and books of them, and of searches among them. There is nothing else
//! here. The head of each module says what its tests check and catch.
//!
//! - `book`: books of echo and their tapes, with `proofs/BookRows.antt`. `shared`: books that
//!   sessions share.
//! - `search`: searches and sweeps of echo.
//! - `plan`: runs of two-phase commit with planned faults, and what is left of one.
//! - `scenes` has what several of them begin with.
//!
//! Tests stand in few crates, by what they stand on: each crate of tests loads all libraries below
//! it, and is compiled with them. The crate is one of tests alone, since a crate with tests is
//! proved twice. Here that is an empty library. A test is proved before it runs, so there are few
//! functions, over rows.
#![tactic(auto)]

#[cfg(test)]
mod book;
#[cfg(test)]
mod plan;
#[cfg(test)]
mod scenes;
#[cfg(test)]
mod search;
#[cfg(test)]
mod shared;
