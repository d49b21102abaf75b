//! The protocols that ship, each as a subject that a program can play.
//!
//! [`EchoSubject`], [`BackupSubject`], [`AbdSubject`] and [`CommitSubject`] have the name of a
//! protocol, its type of nodes and the names of their probes. A program lists those that it plays.
//! `player` lists all four by `With` and `Only`. `sim_shipped` lists them as a type of its own,
//! which can also be searched.
//!
//! `specs/Subjects.antt` has the protocols' names, and how many servers each needs.
//!
//! Why it is built this way: the crate needs no threads and knows no search. So a program that only
//! plays is proved without the crates of searches and sweeps, which `sim_shipped` stands on.
#![tactic(auto)]

mod subjects;

pub use subjects::{AbdSubject, BackupSubject, CommitSubject, EchoSubject};
