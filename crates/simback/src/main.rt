//! The program `simback`: a simulated cluster that can be walked backwards.
//!
//! ```text
//! simback play [FILE]                            plays a script and writes a line for each command
//! simback search LO HI COND [FILE]               finds the first place of a run where COND fails
//! simback sweep FIRST COUNT EVENTS COND [FILE]   finds the first seed with such a place
//! simback script I EVENTS [FILE]                 writes the run of a seed as an input for a play
//! simback shrink COND [FILE]                     drops the faults that a failure does not need
//! simback walk FILE                              walks a run, by commands on standard input
//! simback log [FILE]                             writes in words what each event of a run did
//! simback page [FILE]                            writes a run as a page to walk back and forth
//! simback help                                   lists the commands and their options
//! ```
//!
//! The input is a scenario, a line `---` and a script, from FILE or from standard input;
//! docs/SCENARIO.md, docs/SCRIPT.md, docs/SEARCH.md, docs/WALK.md, docs/LOG.md and docs/PAGE.md
//! describe them.
//!
//! This crate has no logic of its own: `sim_program::run` does all and returns the exit status. It
//! is 0, or 1 for a bad scenario, 2 for a wrong command line or a request that cannot be carried
//! out, 3 if the input or the output failed, 4 for want of memory. A crate is a library or a
//! program, so everything that can be proved or tested over any reader and writer is in the
//! libraries below.
#![tactic(auto)]

use sim_program::run;
use sim_shipped::Shipped;
use std::process::ExitCode;

fn main(rt: HostRuntime) -> ExitCode {
    ExitCode::from(run::<Shipped, _>(&rt))
}
