//! Tests of plays by their bytes: the output for an input. There is nothing else here.
//!
//! `play` is proved to write the text of its definition. These tests say what that text is, byte by
//! byte, for inputs whose answers were worked out by hand from docs/SCRIPT.md and docs/WORLD.md, or
//! by another implementation of these rules. They never come from the program's own output.
//! `tests.rt` says what each test would catch.
//!
//! - `examples`: each play of the folder `examples`, with its answers, but for that of the counter,
//!   which is in `streams`.
//! - `rows`: small plays in both formats, for 15 pairs of checkpoint and window from the least to
//!   the greatest. No pair may change a byte.
//! - `lines`, `faults`, `probes`: lines of scripts, faults of scenarios, names of probes.
//! - `full`: 65,536 events and commands, 64 branches, eight watches, 4,096 held messages, a trace
//!   of 5,000 events.
//! - `streams`, `ports`: readers and writers of one byte a call, which fail at each call in turn. A
//!   contract does not rule out that a play blames them without cause; these tests do.
//! - `scenes`: a scenario, and plays of rows of text.
//!
//! A test is a short function over a text with many rows, since the prover goes through functions
//! and not through what they are run on. The reader holds slices, and the writer compares the bytes
//! that it gets with a slice. So a play owns nothing here, and the prover has nothing to go through
//! at its exits.
//!
//! The tests have a crate of their own, since a crate with tests is proved twice. Here that is an
//! empty library.
#![tactic(auto)]

#[cfg(test)]
mod tests;
