//! Worked runs of worlds: lemmas over the definitions in `proofs/`, and plays in a world as tests.
//! There is nothing else here. The head of each module says what its tests check.
//!
//! - `world`: worlds of echo and of a scribe, with `EchoRows`, `DiskRows` and `MessageRows`.
//! - `protocols`: primary-backup, the register and two-phase commit, with a file of rows each.
//! - `raft`: the variants of Raft, with `RaftRows`.
//!
//! Tests stand in few crates, by what they stand on: each crate of tests loads all libraries below
//! it, and is compiled with them. The crate is one of tests alone, since a crate with tests is
//! proved twice. Here that is an empty library.
#![tactic(auto)]

#[cfg(test)]
mod protocols;
#[cfg(test)]
mod raft;
#[cfg(test)]
mod world;
