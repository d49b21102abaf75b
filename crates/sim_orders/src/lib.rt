//! The commands of a walk: what a line asks for, the help for each, and what a mistake says.
//!
//! [`order_of`] reads a line as a [`Request`]: an [`Order`] and its branch. An order is a command
//! of the book, a place to find, something to show ([`Shown`]), or a word about the walk itself.
//! docs/WALK.md lists the commands.
//!
//! - `order`: a line becomes an order. The words after a command of the walk's own are read as
//!   those of a line of a script with the same form: a host as after `crash`, a number as after
//!   `goto`, a condition as after `watch`. So there is one grammar, and one report of mistakes.
//! - `topic`: the table of the commands, with their short names and their help ([`tell_help`]).
//! - `saying`: the sentences that say why a command was refused or not taken, and why a line is no
//!   order ([`Known`]).
//!
//! Nothing is proved of the words; tests of whole walks compare them. Of a book the crate uses only
//! the commands and the refusals, so its proof does not wait for `sim_inspect` or for plays.
#![tactic(auto)]

mod order;
mod saying;
mod topic;

pub use order::{Order, OrderError, Request, Shown, order_of};
pub use saying::{Known, tell_not_taken};
pub use topic::{Kind, Topic, tell_help};
