//! Writes inputs that repeat a run: the run of a seed, or the failing run of a script without the
//! faults that its failure does not need.
//!
//! - [`write_run`] reads a scenario and writes the run of one of its seeds as an input: the
//!   scenario with that seed, a line `---`, and a line of script for each event of the run. A place
//!   that a sweep prints is the place in the play of that input, if the sweep has the same numbers
//!   and no script.
//! - [`write_shrunk`] plays a script and writes its run as an input, up to the first place at which
//!   a condition fails, without the faults that the failure does not need.
//!
//! The contract is a round trip (`Written` of `sim_export`): cut and read as a play does it, the
//! input has the text of the scenario, and, if each name is read as its host, the lines of its
//! script are read as the commands that make exactly the events of the run. `specs/SeedRuns.antt`
//! and `specs/Shrinks.antt` say which events these are.
//!
//! Why it is built this way: writing a run needs no threads, so it is a task over the nodes of the
//! protocol that the scenario names (`sim_cli::Task`), for every list of protocols. It is apart
//! from `sim_export`, so that logs, pages and walks do not stand on sweeps.
#![tactic(auto)]

mod seed_run;
mod shrinking;

pub use seed_run::{SeedRun, write_run};
pub use shrinking::{Shrink, write_shrunk};
pub use sim_cli::Status;
