//! Walks a run from a terminal, forward and back, and says in words what happens.
//!
//! - [`walk`] reads a scenario and a script, carries the script out on a book, and then answers
//!   commands, a line each, from any reader to any writer. docs/WALK.md lists the commands.
//! - A [`Style`] says whether to write a prompt, as for a terminal, or each command before its
//!   answer.
//!
//! A line becomes an order by the table of commands (`sim_orders`). The desk (`desk.rt`) carries it
//! out on the book and returns an answer: the line that replies to a turn, its account
//! (`account.rt`), and words. The words come from the run of the branch (`sim_inspect`) and from its
//! world (`sim_sight`).
//!
//! What is proved:
//!
//! - A line of a script is one turn of the book, as in a play, and the answer has the line of that
//!   turn. A command that looks for a place is a turn that goes there, or leaves the book as it
//!   was. So does any other command. `Walks` in `specs/Walks.antt` says so, and the contract of
//!   `Desk::answer` cites it.
//! - The answer to a turn has the lines of the events that it passed, from the branch's place
//!   before it, at most 20, or after a move back the line of the next one: `IsAccount` in
//!   `specs/Accounts.antt`, over the lines of `sim_log`.
//! - The output of a command is its answer (`CarriesOut`), and the writer's contents only grow
//!   (`Grows` in `specs/Growth.antt`).
//!
//! The words are tested and not proved: messages and states are shown by `Debug`, whose texts no
//! contract can name. The contracts of `sim_log` say how far an account agrees with the events.
//!
//! Why it is built this way:
//!
//! - A walk keeps no state but its branch and its last line. It is session 0 of a book, as a play
//!   is.
//! - The orders and the words about a run have crates of their own. Their proofs do not wait for
//!   that of a play.
//! - Want of memory for an answer is reported, and the walk goes on: the book is as its contract
//!   says.
#![tactic(auto)]

mod account;
mod desk;
mod walking;

pub use walking::{Style, walk};
