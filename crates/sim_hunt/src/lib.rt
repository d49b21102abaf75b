//! Hunts for a condition: in the places of the run that a script leaves, or in the runs of many
//! seeds.
//!
//! [`hunt_scenario`] is the one call, for a list of at most eight protocols ([`Searchable`]). It
//! reads the scenario as a play does, looks for the condition with several workers, and writes one
//! line: `first P`, `seed I place P`, `none`, `bad range` or `bad condition`. The answer of a sweep
//! can be a JSON object ([`Form`]), by serde_json, and the contract gives its text by the
//! definitions of that library. Progress, if asked for, is reported on standard error: how many
//! pieces are done, at most twice a second.
//!
//! The output is a function of the input (`Hunted` in `specs/Outcomes.antt`): the line of the
//! scenario's fault, of the first failing place of the run that the script leaves, of the first
//! failing seed, of `none`, or of the reason to refuse the request. If a line of a strict script is
//! at fault, the output is empty. The status says whether there is a scenario and whether the
//! request was refused. If the writer fails, a beginning of that line was written. If the reader
//! fails or memory is wanted, nothing was. No contract covers standard error, where a sentence says
//! why a condition or a range is bad (`reasons.rt`).
//!
//! Why it is built this way:
//!
//! - Hunts need threads and a clock, and a play needs neither. So they have a crate of their own
//!   beside the play. It does not wait for plays, pages and the shrinking of runs.
//! - A search follows its script by `sim_cli::played`, which writes nothing. If a command wants
//!   memory, the search ends with status 4. With the loop of a play and a writer that drops its
//!   text, the search would go on over a run that the script does not describe.
//! - Mistakes are reported in the order of the calls: the scenario, the words of the condition, the
//!   lines of a strict script, the range, and last the hosts and probes of the condition.
#![tactic(auto)]

mod answer;
mod hunting;
mod hunts;
mod planned;
mod progress;
mod reasons;
mod searchable;

pub use answer::{Answer, Form, Swept};
pub use hunting::{Area, Hunt, PlannedRuns};
pub use hunts::hunt_scenario;
pub use searchable::Searchable;
pub use sim_cli::Status;
pub use sim_job::{FaultPlan, Team};
