//! Scenarios, the protocols of a program, and scripts whose answers nobody wants.
//!
//! - A [`Subject`] is a protocol with its name, its type of nodes and the names of their probes. A
//!   program plays a list of subjects: `Shipped` of `sim_shipped`, or a list of its own, made by
//!   [`With`] and [`Only`].
//! - A [`Task`] is done over nodes of any type, as a play. [`Subjects`] carries it out over the
//!   nodes of the protocol that a scenario names, and [`open`] reads that scenario.
//! - [`turn_of`] takes the turn that a line of a script asks for.
//! - [`follow`] carries out a script and writes no answers. [`played`] does it on a new book, and
//!   returns all kept events of its first branch; [`given_events`] returns these as a list.
//!   Strictly, the first line at fault ends the script with a [`ScriptStop`].
//! - A [`ScriptFault`] is a line at fault, which [`tell_fault`] reports on standard error.
//! - [`Status`] says how a play ended; its number is the exit status of the program.
//! - [`explain_fault`] explains on standard error why a text is no scenario; [`open`] calls it.
//!   [`report_condition`] says there why words are no condition.
//! - [`write_text`] writes a text and flushes the writer, as for the line of a scenario's fault.
//!
//! `specs/Play.antt` defines the output of a play as a function of its input; `sim_play` writes it.
//!
//! Why it is built this way:
//!
//! - The definitions speak of `Nodes`: the rules of a run and the names of probes. A list of
//!   subjects gives the `Nodes` of each place, so one definition and one body serve every type of
//!   nodes.
//! - A list of subjects is a type and not a value. So each task is compiled for each type of nodes,
//!   and no call goes through a pointer. `Subjects::carry_out` is where a protocol becomes a type
//!   of nodes: a new task needs no `match` over protocols. Searches and sweeps alone choose the
//!   type themselves.
//! - The crate needs no threads and no clock. Searches and sweeps, which do, are in `sim_hunt`.
//! - A script that is followed without answers ends if a command wants memory. With the loop of a
//!   play and a writer that drops its text, a search would go on over a run that the script does
//!   not describe.
//! - No public item mentions `ScenarioText` of `sim_scenario`: it has a map, and each crate above
//!   would load all that is proved of maps.
#![tactic(auto)]

mod explaining;
mod fault;
mod following;
mod opened;
mod opening;
mod reasons;
mod scenario;
mod script_run;
mod status;
mod stop;
mod subjects;
mod turn;

pub use explaining::explain_fault;
pub use fault::{LineFault, ScriptFault, fault_of_turn, tell_fault, tells_want};
pub use following::follow;
pub use opened::Opened;
pub use opening::{open, write_text};
pub use reasons::report_condition;
pub use script_run::{given_events, played};
pub use sim_tally::{FreshMeter, Tally};
pub use status::{Answered, Status};
pub use stop::ScriptStop;
pub use subjects::{Only, Subject, Subjects, Task, With};
pub use turn::turn_of;
