//! Finds the first of many seeds whose planned run fails, with several workers.
//!
//! - [`sweep_planned`] runs a scenario under as many of `count` numbered seeds as it takes, each
//!   with its planned events, which are steps and, if the plan has a spacing, faults. It returns the
//!   least number with a failing place and the first such place of that run.
//! - [`scan_planned`] does it for one run.
//!
//! A place is a number of events that happened: an event of the plan that cannot happen is left out
//! of the run. With [`Plan::at_end`](sim_plan::Plan) only the last place of each run is tested.
//!
//! The contract gives the same result for every number of workers and every order in which their
//! threads run. A bad range is reported before a bad condition, and both before any work. No
//! contract says that more than one worker runs, or that a call returns.
//!
//! Why it is built this way:
//!
//! - Each run is walked once, forward. Its steps keep no record, its faults share one record, and
//!   the planner gives the events without a list. So no event of a sweep copies a node.
//! - A step changes one host alone, so after the first place the condition is tested only after a
//!   step of a concerned host, and after an advance or a fault.
#![tactic(auto)]

mod seeds;
mod walk;

pub use seeds::{Course, numbered_seed, sweep_planned};
pub use sim_search::{Gate, OpenGate, SearchFault};
pub use walk::scan_planned;
