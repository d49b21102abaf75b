//! A world that moves along the events of a log, forward and back.
//!
//! [`Walk`] holds the world at a place of a log, if there is one, and the records of the last events
//! before it. [`Walk::on`] plays the next events, [`Walk::back`] undoes the last ones by their
//! records, [`Walk::anew`] plays from a copy of a checkpoint, and [`Walk::step`] applies an event
//! that is about to be added to the log. [`Ring`] keeps the records.
//!
//! A walk does not know its place: the caller names it with each move. `IsWalkIn` of
//! `specs/Walk.antt` says what a walk at a place is: the world is the run of the events up to there,
//! and each record leads back over its event. Each move asks for it at one place and gives it at
//! another. Begin there. `specs/Places.antt` has the worlds along the events, `specs/Circle.antt`
//! the records, `specs/Works.antt` the work.
//!
//! Why it is built this way:
//!
//! - The records are in a circle of slots, with one slot more than records are kept. A record is
//!   filled in its slot and never moved, and the slot keeps its memory for the next one. So a move
//!   forward seldom wants memory for its record once the circle is full.
//! - Several events are played segment by segment, so that no loop looks up each event in the log.
//! - A world is taken out of the walk while it moves. Want of memory on the way leaves no world and
//!   no records, and the log is unchanged, so the caller can make the world anew.
#![tactic(auto)]

mod ring;
mod walk;

pub use ring::Ring;
pub use std::alloc::AllocError as NoMemory;
pub use walk::Walk;
