//! The history of a run: its scenario and its kept events, in parts that are shared.
//!
//! ```text
//! let mut log = Log::new(alloc, scenario)?;           // no events
//! log.reserve(alloc)?;                                // room for one more
//! log.push(Entry::new(event, clock));
//! let list = log.events(alloc)?;                      // shared, for other threads
//! ```
//!
//! - [`Log`]: the scenario, and each kept event with the clock after it (an [`Entry`]).
//! - [`EventList`]: the events of a log, shared and never changed.
//! - [`SharedList`]: values behind an `Arc`, shared by groups. A log keeps its full segments in one,
//!   and a tape its checkpoints.
//!
//! No world is here: this crate moves no run and judges none. Begin with `specs/Log.antt`, which
//! has what contracts see of a log, and then `log.rt`. `specs/Segments.antt` says how items stand
//! in parts of one length.
//!
//! Why it is built this way:
//!
//! - Events are in segments of one interval. A full segment never changes, so a split of a log and
//!   a list of its events share all full segments, and copy the last part alone.
//! - A list of shared values is in groups of eight, each shared as a whole. So a list of 65,537
//!   values is shared by some eight thousand counts, not by one for each value.
//! - Room for an event is made apart from adding it. So a tape can make room before it moves a
//!   world, and want of memory changes nothing.
#![tactic(auto)]

mod entry;
mod event_list;
mod log;
mod segments;
mod shared_list;

pub use entry::Entry;
pub use event_list::EventList;
pub use log::Log;
pub use shared_list::SharedList;
pub use std::alloc::AllocError as NoMemory;
