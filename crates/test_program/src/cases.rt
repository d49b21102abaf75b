//! Random cases with the outputs of a plain simulator, `tests/oracle`, which shares no code and no
//! definition with the program, and is not proved. `test_support` has the cases, which tests/rows.py
//! writes; tests/fuzz.py tries any number of others.
//!
//! What the tests catch: a definition of a world, a node, a play, a search, a plan, a log or a
//! script that is not the one that was meant, in code and contract alike; a job that gives up.
use crate::running::gives;
use std::alloc::{AllocError, Global};
use std::process::Abort;
use std::rt::Clock;
use std::sync::Wait;
use std::thread::Threads;
use test_support::cases::{JOBS, PLAYS, RUNS};

// Returns the words of a command line, which stand on a line each.
fn words_of(alloc: Global, lines: &str) -> Result<Vec<&str>, AllocError> {
    let mut words = Vec::new(alloc);
    words.push("simback")?;
    for line in lines.lines() {
        words.push(line)?;
    }
    Ok(words)
}

// Returns whether a case is as expected, or `None` if it is not laid out as a case.
fn is_right<R: Threads + Wait + Sync + Clock + Eprint>(
    rt: &R,
    alloc: Global,
    case: &str,
) -> Option<bool> {
    let (head, texts) = case.split_once('~')?;
    let (numbers, lines) = head.split_once('\n')?;
    let (_, status) = numbers.split_once(' ')?;
    let (input, output) = texts.split_once('~')?;
    let words = words_of(alloc, lines).ok()?;
    Some(gives(rt, alloc, words.as_slice(), input, (status, output)))
}

// Checks each of these cases.
fn check<R: Threads + Wait + Sync + Clock + Eprint + Abort>(rt: &R, alloc: Global, cases: &str) {
    assert!(rt; cases.starts_with('^'));
    for case in cases.split('^').skip(1) {
        assert!(rt; is_right(rt, alloc, case) == Some(true), "case {case}");
    }
}

#[test]
fn cases(rt: HostRuntime) {
    let alloc = rt.alloc();
    check(&rt, alloc, PLAYS);
    check(&rt, alloc, JOBS);
    check(&rt, alloc, RUNS);
}
