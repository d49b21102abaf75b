//! Plans faults at random: the events of a numbered run besides its steps.
//!
//! A [`Plan`] has the distance between faults, if there are any, the number of planned events, the
//! number of quiet steps after them, and whether only the last place is tested. [`Plan::new`] makes
//! one from the numbers of a command line, and [`report_plan`] says on standard error which of them
//! is past its limit. A [`Planner`] gives the planned events of a scenario one
//! by one: steps, and now and then a fault or the healing of an earlier one. At most two faults
//! wait for their healing. [`run_of`] returns the run of a scenario as a list: the planned events
//! that can happen. [`run_of_planner`] does it for any planner, such as one over a slice of events.
//!
//! The faults follow from the seed, the spacing and the numbers of servers and hosts alone. What
//! the nodes do does not change which faults are planned.
//!
//! Why it is built this way:
//!
//! - Contracts see a planner as the list of events that it has yet to give. So a loop over a
//!   planner is a walk along a list (`specs/Planned.antt`), and a caller needs no list.
//! - The words come from stream 34 of the seed. The 34 streams of a world have the numbers 0 to 33,
//!   so a plan takes no word from a run. `sim_streams` has no further stream, so a planner has its
//!   own generator, which computes each word once and in order.
//! - A plan without faults draws no word, which saves the time. Its definition names the same
//!   words, but each of them plans a step.
//! - A planner receives the seed beside the scenario, and its contract requires that it is the
//!   scenario's.
//! - The events given before the plan pass through the planner too, so its caller has one loop.
#![tactic(auto)]

mod forecast;
mod owed;
mod plan;
mod planner;
mod reasons;
mod run;

pub use plan::{MAX_PLANNED, MAX_SPACING, Plan};
pub use planner::Planner;
pub use reasons::report_plan;
pub use run::{run_of, run_of_planner};
pub use std::alloc::AllocError as NoMemory;
