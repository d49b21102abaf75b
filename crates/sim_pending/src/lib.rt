//! What is pending in a world, and what becomes of a message on its way.
//!
//! * [`Occurrence`]: what is pending for a host: a start, a timer, a message, or a sync.
//! * [`draw_crossing`] draws the two words of a message over an open link: they say how long it
//!   takes, and whether it is lost.
//! * [`recall`] takes the newest messages out of a queue again, where the undo of a release puts
//!   them back into their link.
//!
//! `specs/Occurrence.antt` defines occurrences, `specs/Fate.antt` latency and loss, and
//! `specs/Recall.antt` which messages are the newest.
//!
//! These functions need a queue or the streams of words, and no world. So the wrong bodies that the
//! prover must refuse stand here, where a check takes seconds.
#![tactic(auto)]

mod crossing;
mod newest;
mod occurrence;

pub use crossing::{Crossing, draw_crossing, latency};
pub use newest::recall;
pub use occurrence::{Occurrence, copied_occurrence};
pub use std::alloc::AllocError as NoMemory;
