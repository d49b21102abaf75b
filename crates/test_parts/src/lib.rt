//! Tests of the small parts: those of a world, lines of input, and the two libraries in which
//! threads meet. There is nothing else here. The head of each module says what its tests check.
//!
//! - `parts`: streams, queue, links, disk, nodes, echo, lines.
//! - `threads`: sessions at a lock of a plain list, and searches over a row of numbers.
//!
//! Tests stand in few crates, by what they stand on: each crate of tests loads all libraries below
//! it, and is compiled with them. The crate is one of tests alone, since a crate with tests is
//! proved twice. Here that is an empty library.
#![tactic(auto)]

#[cfg(test)]
mod parts;
#[cfg(test)]
mod threads;
