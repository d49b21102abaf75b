//! Tests of the texts of scenarios, of scripts and of command lines. There is nothing else here.
//! The head of each module says what its tests check.
//!
//! - `scenario`: texts of scenarios, with the fault or the values of each.
//! - `input`: scripts and conditions that are written, and mistakes in bad lines.
//! - `reseed`: scenarios with the seed of a numbered run.
//! - `command_line`: the words of command lines, and the messages for those that make no request.
//! - `same`, `shipped`: what several of them use.
//!
//! Tests stand in few crates, by what they stand on: each crate of tests loads all libraries below
//! it, and is compiled with them. The crate is one of tests alone, since a crate with tests is
//! proved twice. Here that is an empty library.
#![tactic(auto)]

#[cfg(test)]
mod command_line;
#[cfg(test)]
mod input;
#[cfg(test)]
mod reseed;
#[cfg(test)]
mod same;
#[cfg(test)]
mod scenario;
#[cfg(test)]
mod shipped;
