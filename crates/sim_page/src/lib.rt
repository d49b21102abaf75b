//! Shows the run that a script leaves: as a log, and as a page on which one walks it.
//!
//! - [`write_log`] plays a script and writes a line for each event of its run, in words or as JSON.
//! - [`write_page`] plays a script and writes one HTML file with the whole run in it.
//!
//! Both are tasks over a list of subjects, as a play is ([`Task`](sim_cli::Task)). They play a
//! script strictly: they report the first line at fault on standard error, and write nothing.
//!
//! Why it is built this way:
//!
//! - `sim_log` describes the events. The run is walked on a tape of the frozen run, one event after
//!   the other.
//! - A log or a page is completed in memory before it is written, so that want of memory leaves
//!   nothing behind. The contract of [`write_log`] says that there is a line for each requested
//!   event. A line in words has its place and the clock of the world there; of a line of JSON the
//!   contract names neither. No contract can name the rest of a line, since `Debug` shows messages
//!   and states.
//! - The page's text is a constant on both sides of the data (`template.rt`). page/embed.py writes
//!   it from page/template.html; edit that file instead.
//! - The data is JSON within a script element that no browser runs. It has no `<` (`Data`), so no
//!   title, name or message can end that element, whatever its bytes are.
#![tactic(auto)]

mod data;
mod log;
mod logging;
mod page;
mod paging;
mod template;

pub use log::LogRange;
pub use logging::write_log;
pub use paging::{PageRequest, write_page};
