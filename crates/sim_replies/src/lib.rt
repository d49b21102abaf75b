//! Writes the line that answers one turn of a book: a place and a clock, a refusal, a view or a
//! trace.
//!
//! [`tell_turn`] is the one public call. It takes the result of a turn and the names of hosts and
//! probes, and writes the line into bytes that the caller reuses. In a long play no common line
//! allocates.
//!
//! The contract says that the line is the one of the definitions in `sim_answers`, for every reply,
//! stop, refusal and view. The line of `trace` is JSON; it is, by the JSON library's own
//! definition, the compact text of the object with the keys `branch` and `events`.
//!
//! Why it is built this way:
//!
//! - A line is written from its end to its front, in 192 bytes on the stack, because the digits of
//!   a number are computed from the last to the first. No length has to be known before. Names have
//!   no bound, so they go into the text directly, before the part that follows them.
//! - The words for a refusal, a stop or a state are functions. The types belong to the book and to
//!   the world, and an `impl Display` for another crate's type is not allowed.
//! - A line is bytes and no `String`. They go to a writer, and without `unsafe` only a UTF-8 check
//!   leads from bytes to a `String`, which would take a twentieth of the instructions of a short
//!   line.
//! - Only the line of `trace` allocates for each event. If that is refused, the contract says
//!   nothing about the bytes, and the caller gets the error.
#![tactic(auto)]

mod ending;
mod event;
mod lines;
mod named;
mod trace;
mod view;

pub use lines::tell_turn;
