//! Reads the lines of a script, and conditions: what they ask for, with names as numbers.
//!
//! [`line_of`] reads one line. It returns a [`ScriptLine`]: nothing (an empty line or a comment), a
//! bad line, or an [`Ask`]. `Ask::into_command` turns that into a command of a book.
//! [`condition_of`] reads the words of a condition, also those of a command line. [`Names`] has the
//! names of hosts and probes with their numbers. [`mistake_of`] says which word makes a line bad,
//! and what was expected in its place; [`condition_mistake_of`] says that of a condition.
//! [`tell_mistake`] and [`tell_bad_condition`] say it in words, with the names that there are.
//!
//! ```text
//! match line_of(&names, b"@1 crash a") {
//!     ScriptLine::Asked(ask) => book.turn(alloc, 0, ask.into_command(alloc)?),
//!     ..
//! }
//! ```
//!
//! Reading takes no memory, for any line, whatever its bytes. Only a condition needs memory, when
//! its `Ask` becomes a command, since a command holds it in shared memory. An `Ask` holds the text
//! of the condition, which is read again then: a condition takes hundreds of bytes, and each line
//! would move them. The words about a mistake need memory too; they are tested and not proved.
//!
//! The contract of `line_of` is a definition over the list of the line's words: a table of first
//! words, each with what may follow (`specs/Script.antt`). A condition has two definitions in
//! `specs/Conditions.antt`: a grammar, which says which words write which condition and nothing
//! about reading, and a reader from the front. The contract of `condition_of` says that they agree,
//! so no words write two conditions.
//!
//! Why it is built this way:
//!
//! - The first words of a term give its length, so reading from the front is the only way to read,
//!   and no word is reserved: a host may be named `and`, `up` or `done`.
//! - A name that no host or probe has becomes a number that none has (65,535 or 255). So the book
//!   refuses it, in its own order of refusals.
//! - A line is read in one walk. UTF-8 is never tested: a word that is no keyword, no number and no
//!   name makes a line bad, and each of these is ASCII.
//! - The crate needs no book, since commands are in `sim_watch`. So an edit of the book or of
//!   `play` does not check it again. A search reads its condition with the same function as a
//!   watch.
#![tactic(auto)]

mod ask;
mod condition;
mod mistake;
mod names;
mod script;
mod telling;
mod unknown;
mod words;

pub use ask::Ask;
pub use condition::condition_of;
pub use mistake::{Expected, LineMistake, condition_mistake_of, mistake_of};
pub use names::Names;
pub use script::{ScriptLine, line_of};
pub use telling::{CONDITION_FORM, tell_advice, tell_bad_condition, tell_mistake, word_at};
