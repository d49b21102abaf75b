//! The protocols that ship with the simulator, under one name each, and the names of their probes.
//!
//! The four nodes are [`Echo`], [`PrimaryBackup`], [`AbdRegister`] and [`TwoPhase`]. Each lives in
//! a crate of its own, so that their checks run side by side; this crate only exports them.
//!
//! A probe is a number that a node shows to the outside, for looks and conditions. Scripts name
//! probes, and nodes number them. [`probe_number`] and [`probe_name`] translate, for each
//! [`Protocol`]:
//!
//! ```text
//! probe_number(Protocol::TwoPhase, "first") == Some(1)
//! probe_name(Protocol::TwoPhase, 1) == Some("first")
//! ```
//!
//! Both are proved against one table of names (`specs/Probes.antt`). A name appears once in the
//! table of its protocol, so the two are inverse to each other.
//!
//! The crate does not depend on the world. A program with nodes of its own does not need this
//! crate.
#![tactic(auto)]

mod probes;

pub use probes::{probe_name, probe_number};
pub use sim_abd::{AbdMsg, AbdRegister};
pub use sim_echo::{Echo, EchoMsg, EchoUndo};
pub use sim_primary_backup::{BackupMsg, BackupUndo, PrimaryBackup};
pub use sim_two_phase::{CommitMsg, CommitUndo, TwoPhase};

/// The protocols.
#[derive(Clone, Copy)]
pub enum Protocol {
    Echo,
    PrimaryBackup,
    AbdRegister,
    TwoPhase,
}
