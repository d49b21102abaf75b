//! The lines that answer the turns of a book, as definitions.
//!
//! `specs/Lines.antt` has the words for a reply, a stop, a view and a refusal, `specs/Trace.antt`
//! the JSON of a trace, and `specs/Spacing.antt` joins words to a line. There is no code here:
//! `sim_replies` writes these lines, and what a play writes is defined by them. Crates that only
//! speak of the lines need not wait for the proof of the code that writes them.
#![tactic(auto)]
