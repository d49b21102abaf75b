//! Plays a scenario and a script on a simulated cluster, over any reader and any writer.
//!
//! - [`play`] reads a scenario, a line `---` and a script, carries out the commands on a book, and
//!   writes one line for each. It is all that `simback play` without `--strict` does with its input
//!   and output.
//! - [`play_strictly`] is a play that ends with the answer to the first line of its script that is
//!   at fault, which it reports on standard error.
//! - [`answer_lines`] and [`answer_lines_strictly`] are the loops over the lines of a script, on a
//!   book of the caller's. [`Playing`] and [`PlayingStrictly`] are the tasks over nodes of any
//!   type.
//!
//! The contract of `play` holds for every reader and writer whose bytes contracts can name. If
//! memory suffices and neither fails, the output is a function of the input: `out` in
//! `specs/Play.antt` of `sim_cli`. If a line reports want of memory, the output is the text of some
//! list of turns, each as the book's contract allows. If the writer fails or memory is wanted
//! outside a command, the output is a beginning of such a text. If the reader fails, it is the text
//! for all whole lines that were read.
//!
//! Why it is built this way:
//!
//! - A play is session 0 of a book and has no state of its own. The history, the speed of a `back`
//!   and what remains after want of memory are matters of the book's contracts.
//! - It is a crate of its own, since searches, pages and walks use scenarios, protocols and scripts
//!   (`sim_cli`) and no play. So their proofs need not wait for this one. Those of searches and
//!   pages need not wait for that of the answers' text either.
//! - Want of memory before the first line of the script ends the play with status 4 before anything
//!   is written.
#![tactic(auto)]

mod answering;
mod playing;
mod strictly;

pub use answering::answer_lines;
pub use playing::{Playing, play};
pub use strictly::{PlayingStrictly, answer_lines_strictly, play_strictly};
