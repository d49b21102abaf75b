//! The example nodes as a program: `play`, `search`, `sweep` and the other commands of `simback`,
//! over scenarios that say `protocol = "counter"` or `"raft"`. `"raft_eager"` and `"raft_hasty"`
//! name variants of Raft with a planted mistake. docs/NODES.md has the counter, docs/RAFT.md has
//! Raft, and docs/TOUR.md finds one of the mistakes.
//!
//! A program over protocols of one's own takes two things:
//!
//! - A [`Subject`](sim_cli::Subject) for each: the name of the protocol, the least number of its
//!   servers, the type of its nodes and the names of their probes. `counting.rt` has that of the
//!   counter. `raft.rt` has one subject for all variants of Raft, which differ in their names.
//! - A `main` of one line over the list of them. `sim_program::run` reads the command line and the
//!   input, and writes the answers.
//!
//! Why it is built this way:
//!
//! - A list of subjects is a type and no value: [`Only`] one, or [`With`] one before others. So
//!   everything is compiled for each type of node. A variant of Raft is a type of node too, so a
//!   cluster has servers of one variant only. The same scenario runs with and without a mistake:
//!   change the protocol's name and nothing else.
//! - The ghost items of a subject say the same as the functions below them, for contracts. With
//!   them the contract of `perform`, which `run` calls, names these protocols and their probes.
//! - The nodes have crates of their own, `example_counter` and `example_raft`, so that libraries
//!   and tests can use them without the program.
//! - One program plays all examples, since the gate pays for each program by the libraries below
//!   it. A program for the counter alone lists `Only<Counting>`.
//!
//! The gate runs it on the file `stdin`, in which a server of Raft votes twice in a term, and
//! compares its output with `stdout`.
#![tactic(auto)]

mod counting;
mod raft;

use crate::counting::Counting;
use crate::raft::RaftSubject;
use example_raft::{Eager, Hasty, Sound};
use sim_cli::{Only, With};
use sim_program::run;
use std::process::ExitCode;

type RaftVariants = With<RaftSubject<Sound>, With<RaftSubject<Eager>, Only<RaftSubject<Hasty>>>>;

fn main(rt: HostRuntime) -> ExitCode {
    ExitCode::from(run::<With<Counting, RaftVariants>, _>(&rt))
}
