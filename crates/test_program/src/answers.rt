//! Jobs and what they write, a row each: searches and sweeps by several workers, with faults and
//! without, strict jobs, and logs.
//!
//! What the rows catch:
//! - a line that is not the result of the search in the run that the script leaves; an exit status
//!   that does not fit; a fault that hides an earlier one;
//! - a condition of any form that is read as another, or holds elsewhere; one that is accepted
//!   against the rules;
//! - an option of a sweep that is ignored or taken for another; a failure under planned faults that
//!   is not found, or found elsewhere; a number past its limit that is accepted;
//! - `--strict` that is ignored or taken for another; a line at fault that does not end the job;
//! - a log that leaves an event out, or shows another.
use crate::running::gives;
use std::alloc::{AllocError, Global};
use std::process::Abort;
use std::rt::Clock;
use std::sync::Wait;
use std::thread::Threads;
use test_support::jobs::{ROWS, SCENARIOS};

// Returns the scenario of this name.
fn scenario_of(name: &str) -> Option<&'static str> {
    for named in SCENARIOS.split('^') {
        let (first, text) = named.split_once('\n')?;
        if first == name {
            return Some(text);
        }
    }
    None
}

// Returns the lines that are separated by `; `, each with its end.
fn lines_of(alloc: Global, parted: &str) -> Result<String, AllocError> {
    let mut lines = String::new(alloc);
    if parted == "-" {
        return Ok(lines);
    }
    for line in parted.split("; ") {
        lines.push_str(line)?;
        lines.push('\n')?;
    }
    Ok(lines)
}

// Returns a scenario, and the lines of a script after it if there are any.
fn input_of(alloc: Global, scenario: &str, script: &str) -> Result<String, AllocError> {
    let lines = lines_of(alloc, script)?;
    let mut input = String::from_str(alloc, scenario)?;
    if !lines.is_empty() {
        input.push_str("---\n")?;
        input.push_str(lines.as_str())?;
    }
    Ok(input)
}

// Returns the words of a command line: those between spaces, and a last one if there is one.
fn words_of<'a>(alloc: Global, plain: &'a str, last: &'a str) -> Result<Vec<&'a str>, AllocError> {
    let mut words = Vec::new(alloc);
    words.push("simback")?;
    for word in plain.split(' ') {
        words.push(word)?;
    }
    if last != "-" {
        words.push(last)?;
    }
    Ok(words)
}

// Returns whether a row is as expected, or `None` if it is not laid out as a row.
fn is_right<R: Threads + Wait + Sync + Clock + Eprint>(
    rt: &R,
    alloc: Global,
    row: &str,
) -> Option<bool> {
    let mut fields = row.split(" | ");
    let scenario = scenario_of(fields.next()?)?;
    let input = input_of(alloc, scenario, fields.next()?).ok()?;
    let (plain, last) = (fields.next()?, fields.next()?);
    let words = words_of(alloc, plain, last).ok()?;
    let status = fields.next()?;
    let output = lines_of(alloc, fields.next()?).ok()?;
    let want = (status, output.as_str());
    Some(gives(rt, alloc, words.as_slice(), input.as_str(), want))
}

#[test]
fn rows(rt: HostRuntime) {
    for row in ROWS.lines().filter(|row| !row.starts_with('#')) {
        assert!(rt; is_right(&rt, rt.alloc(), row) == Some(true), "{row}");
    }
}
