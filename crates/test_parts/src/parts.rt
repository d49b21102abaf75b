//! Tests of the small parts of a world: streams, queue, links, disk, nodes, echo, lines.
//!
//! The contracts of these libraries are equations of whole values. What they cannot say is that a
//! call succeeds if memory is ample, and that a definition is the one that was meant: that the
//! words of a stream are really those of ChaCha20, say. These tests check both, in a file for each
//! part.
//!
//! - A test is rows of acts on one value, each act with its expected answer, and one function that
//!   carries out an act. The prover goes through that function once, whatever the number of rows.
//! - Each kind of change that has an undo is also undone, and the value is checked again.
//! - The words of streams are compared with those of another implementation of ChaCha20; the head
//!   of `parts/streams.rt` names it.
//! - Readers and writers take a byte at a time and fail after a given number of calls, each number
//!   in turn.
mod disk;
mod echo;
mod lines;
mod links;
mod node;
mod queue;
mod streams;
