//! The list of the protocols that ship, as a program plays and searches them.
//!
//! - [`Shipped`] is the list of the four. `simback` plays it.
//! - [`EchoSubject`], [`BackupSubject`], [`AbdSubject`] and [`CommitSubject`] are its members, from
//!   `sim_subjects`, for a program whose list has some of them beside protocols of its own.
//!
//! `specs/Shipped.antt` defines the list and the nodes of each place.
//!
//! Why it is built this way: `Shipped` is a type of its own, and not made by `With` and `Only`. At
//! each call over such a list the prover goes through its four protocols, and through what their
//! nodes owe to the traits. Of `Shipped` it looks at the traits alone; only a call that may search
//! still goes through the subjects.
#![tactic(auto)]

mod shipped;

pub use shipped::Shipped;
pub use sim_subjects::{AbdSubject, BackupSubject, CommitSubject, EchoSubject};
