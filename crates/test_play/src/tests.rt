//! The output of plays for their input. The expected bytes were worked out by hand from the rules,
//! or by another implementation of them.
//!
//! What each test catches:
//! - `examples`, `rows`: a command that is answered in other words, or by another world, of each
//!   protocol, in both formats, for checkpoints and windows from the least to the greatest; a play
//!   that wants memory for no reason. The examples are those of the folder `examples`, whose texts
//!   are in `test_support`, and `streams` has that of the counter.
//! - `full`: a table that is full early, or takes more than its limit; a trace of 5,000 events or
//!   of a late branch that is cut off or has other events.
//! - `faults`: a scenario that is read as another, or refused for another reason, or one that is
//!   refused without a script.
//! - `lines`: a line that is accepted, or refused, against the rules of scripts.
//! - `streams::answers_whole_lines_up_to_a_failed_read`: a play that blames its reader without
//!   cause, or not at all, or loses an answer; answers that wait for a later line.
//! - `streams::stops_at_a_failed_write`, `streams::stops_at_a_failed_flush`: the same of its
//!   writer, also of one that takes nothing, and text that is written after the failure.
//! - `streams::reads_no_more_than_a_bad_scenario`: input that is read past the fault.
//! - `streams::plays_subjects_of_ones_own`: a play over a user's node that gives up, or that knows
//!   other probes.
//! - `probes::probes_have_names`: a name, or a number, that is left out.
mod examples;
mod faults;
mod full;
mod lines;
mod ports;
mod probes;
mod rows;
mod scenes;
mod streams;
