//! The whole of a program, over a list of protocols: its jobs, and its command line.
//!
//! - [`perform`] carries out a job over any reader and any writer: a play, a search of the run that
//!   a script leaves, a sweep over seeds, the script of a run, a shrinking, a log or a page. It
//!   passes each job to the crate that does it, with the same contract. Its contract covers all of
//!   them, for every reader and writer whose bytes contracts can name (`Performed` in
//!   `specs/Jobs.antt`).
//! - [`run`] reads the words of the command line and carries out their job, by [`perform`] or
//!   `sim_walk::walk`, over the file that the words name or the standard input, and the standard
//!   output. If a file cannot be opened or read, it reports that on standard error, with status 3.
//!   Help goes to the standard output with status 0, a mistake to standard error with status 2.
//!   Words that are not UTF-8 end with status 2 and are not repeated. A failure of standard error
//!   does not change the status.
//!
//! Why it is built this way: a crate is a library or a program, and each program over protocols of
//! its own needs all this.
#![tactic(auto)]

mod performing;
mod program;

pub use performing::perform;
pub use program::run;
pub use sim_cli::Status;
pub use sim_hunt::{FaultPlan, Searchable, Team};
pub use sim_job::Job;
