//! Tests of what the jobs of command lines write, and of sessions of a walk. There is nothing else
//! here; `test_play` has the tests of plays, and `test_texts` those of command lines. The head of
//! each module says what each of its tests would catch.
//!
//! The contracts say that a job writes the text of a definition. These tests say what that text is,
//! byte by byte, for inputs whose answers were worked out by hand from the documents, or by another
//! implementation of their rules. They never come from the program's own output.
//!
//! - `answers`: searches and sweeps by several workers, with faults and without, strict jobs, and
//!   logs, a row each. A contract does not rule out that a second worker never starts.
//! - `outputs`: outputs that are looked at in part, and a search that writes none.
//! - `cases`: random cases of all jobs but walks, pages and shrunk runs.
//! - `walk`: sessions of a walk, whose words no contract has.
//! - `running`: what the first three share.
//!
//! The gate's longest chain ends here, so the tests are rows of texts that few functions go over.
//!
//! Tests stand in few crates, by what they stand on: each crate of tests loads all libraries below
//! it, and is compiled with them. The crate is one of tests alone, since a crate with tests is
//! proved twice. Here that is an empty library.
#![tactic(auto)]

#[cfg(test)]
mod answers;
#[cfg(test)]
mod cases;
#[cfg(test)]
mod outputs;
#[cfg(test)]
mod running;
#[cfg(test)]
mod walk;
