//! Says in a sentence why a text is no scenario: what was found, and what is allowed.
//!
//! [`Explanation::new`] takes the text, the fault that `sim_scenario::read` returned for it, and
//! the protocols that a scenario may name. It prints as one line without its end:
//!
//! ```text
//! tick is 0; it has to be a whole number from 1 to 60,000 (ms)
//! line 3, column 8: invalid string; up to the line `---` the text has to be TOML
//! ```
//!
//! Nothing is proved of the words. They are made anew from the text, so the reader and its proof do
//! not know them, and the fault decides what is looked for. If memory is refused, the sentence is
//! that of the fault alone.
//!
//! - `sentences`: a sentence, as a text and the parts that come into it, and the small questions
//!   to a table that all sentences ask.
//! - `keys`: the keys of the text itself. `tables`: the keys of clients and of links, and items
//!   that are not what they must be. `hosts`: servers, clients and their names. `links`: links
//!   beside hosts and each other.
//! - `position`: the line and the column of a place in the text.
#![tactic(auto)]

mod explanation;
mod hosts;
mod keys;
mod links;
mod position;
mod sentences;
mod tables;

pub use explanation::{Explanation, KnownProtocol};
