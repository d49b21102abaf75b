//! A cluster of hosts, run as a world of discrete events.
//!
//! One event at a time changes a world: a step takes the first pending occurrence, an advance moves
//! the clock, a fault crashes a host or changes a link. The same scenario and the same events
//! always give the same world, and the record of an event undoes it exactly.
//!
//! # Main types
//!
//! * [`World`]: the type that the crates above hold. It boxes a `Cluster` and keeps it sound.
//!   Contracts see the world's value, its scenario and its age (`InHand` in `specs/Records.antt`).
//! * `Cluster`: the `Parts`, the `Tools`, the shared scenario, the age, and memory for reuse.
//! * `Parts`: the world proper. The clock, the streams of words, the queue, the links, the hosts.
//! * `Tools`: what a step uses beside the parts: an `Index`, and room for a node's effects.
//! * `Index`: counts of messages, and the serial of each host's timer. The parts determine it; it
//!   is kept beside them so that no step searches the queue.
//! * [`Undo`]: the record of one event. It has what a step took out of the queue (`Taken`), a
//!   `Trail`, and the entries of the index that the event may have changed (`Beside`).
//! * `Trail`: the small changes of one event, in order.
//! * [`PackedWorld`]: a world in less memory, as in a checkpoint.
//!
//! # The life of an event
//!
//! 1. [`World::can`] returns whether it can happen (`views.rt`).
//! 2. [`World::apply`] clears the trail, saves the entries of the index, and calls one of three:
//!    `step` (`step.rt`), `advance` (`events.rt`), `fault` (`faults.rt`, `crash.rt`).
//! 3. A step pops the first occurrence. If its host runs, a sync makes writes stable, the host
//!    draws a word, its node reacts, and the effects are carried out in order (`effects.rt`).
//! 4. Each primitive change of the parts (`changes.rt`) keeps the index true, and says which small
//!    changes it adds to the trail.
//! 5. [`World::undo`] undoes the changes from the last to the first, each kind by its own function
//!    (`take_back.rt`), puts back what the step took out, and restores the index.
//!
//! [`World::step_for_good`] is a step without a record.
//!
//! # Why the trail has so many places
//!
//! Most steps do the same few things in the same order: a sync, a word, a reaction, messages,
//! writes with a sync, a timer. The trail has fields for these (`trail.rt`, `trail/`), so the
//! record of such a step needs no memory, and a run forward and back is fast. Anything else, or
//! anything out of this order, goes into a vector. Contracts see one list of small changes.
//!
//! # Where to begin
//!
//! Read `specs/World.antt` (what a world is) and `specs/Events.antt` (what each event makes of it):
//! these two are the simulator. `specs/Records.antt` says what a record is and when it leads back,
//! `specs/Room.antt` the bounds that [`World::laws`] states. Callers also need `Clock`, `Acts`,
//! `Memory`, `Looks` and `Undone`. The files in `specs/inside/` serve the private functions: the
//! invariant, the index, the parts of a trail. Events and scenarios are in `sim_events`;
//! occurrences, and the latency and the loss of a message, in `sim_pending`. What a step will do,
//! told before it, is in `sim_account`.
//!
//! No wrong body stands here, since the prover would need the whole crate again for each: those for
//! an undo, for the words of a message and for copies stand in `sim_streams`, `sim_pending`,
//! `sim_disk` and `sim_tape`.
#![tactic(auto)]

mod changes;
mod cluster;
mod contents;
mod copy;
mod crash;
mod effects;
mod events;
mod faults;
mod host;
mod index;
mod packed;
mod packed_hosts;
mod parts;
mod small;
mod start;
mod step;
mod take_back;
mod tools;
mod trail;
mod undo;
mod views;
mod world;

pub use packed::PackedWorld;
pub use sim_events::{
    BadLimits, Coming, Event, Fault, Kind, MAX_ADVANCE, MAX_INTERVAL, MAX_TICK, MAX_WINDOW, Query,
    Refusal, Scenario, View,
};
pub use sim_pending::Occurrence;
pub use std::alloc::AllocError as NoMemory;
pub use undo::Undo;
pub use world::World;
