//! Outputs that are looked at in part, and a search that writes none.
//!
//! What each test catches:
//! - `the_run_of_a_seed_made_small`: the script of a run that is another run; a fault that was not
//!   needed and stays.
//! - `a_page_with_a_title_that_would_leave_its_place`: a page whose title ends the data; a
//!   condition that is shown as holding where it fails.
//! - `writes_nothing_after_a_failed_read`: a search that goes on over a part of a script.
use crate::running::{Text, gives, performed, performed_over};
use sim_job::request;
use sim_program::Status;
use std::alloc::{AllocError, Global};
use std::process::Abort;
use std::rt::Clock;
use std::sync::Wait;
use std::test::Fail;
use std::thread::Threads;
use test_support::jobs::{HELD_PINGS, SLOW_COMMIT};

// Returns the output over an input of a job that these words ask for, which ends well.
fn written<R: Threads + Wait + Sync + Clock + Eprint + Abort>(
    rt: &R,
    alloc: Global,
    input: &str,
    words: &[&str],
) -> String {
    let (status, text) = match request(alloc, words) {
        Ok(asked) => performed(rt, alloc, &asked.job, input),
        Err(_) => (Status::BadRequest, Vec::new(alloc)),
    };
    assert!(rt; status == Status::Well);
    match String::from_utf8(text) {
        Ok(text) => text,
        Err(_) => String::new(alloc),
    }
}

// Returns the lines of an input's script that are no steps.
fn faults(alloc: Global, input: &str) -> Result<String, AllocError> {
    let mut faults = String::new(alloc);
    let mut is_script = false;
    for line in input.lines() {
        if is_script && line != "step" {
            faults.push_str(line)?;
            faults.push('\n')?;
        }
        is_script = is_script || line == "---";
    }
    Ok(faults)
}

// The run that a sweep finds is written and shrunk: it fails at the same place, and four faults are
// left.
#[test]
fn the_run_of_a_seed_made_small(rt: HostRuntime) -> Result<(), Fail> {
    let alloc = rt.alloc();
    let cond = "agree first unless 0";
    let search = ["simback", "search", "0", "26", cond];
    let words = ["simback", "script", "--faults", "8", "654", "120"];
    let found = written(&rt, alloc, SLOW_COMMIT, &words);
    let want = ("0", "first 26\n");
    assert!(rt; gives(&rt, alloc, &search, found.as_str(), want));
    let small = written(&rt, alloc, found.as_str(), &["simback", "shrink", cond]);
    assert!(rt; gives(&rt, alloc, &search, small.as_str(), want));
    let left = faults(alloc, small.as_str())?;
    assert_eq!(rt; left.as_str(), "bounce a\ncrash b\nbounce a\nbounce b\n");
    Ok(())
}

#[test]
fn a_page_with_a_title_that_would_leave_its_place(rt: HostRuntime) {
    let watch = "w.next <= 1; done w";
    let words = ["simback", "page", "--title", "</script>", "--watch", watch];
    let page = written(&rt, rt.alloc(), HELD_PINGS, &words);
    let page = page.as_str();
    assert!(rt; page.contains("\"title\":\"\\u003c/script>\""));
    assert!(rt; page.contains("\"holds\":[[1,1,1,1,0,0,0,0,0],[0,0,0,0,0,0,0,0,1]]"));
}

// A search whose script cannot be read to its end has no run to look at.
#[test]
fn writes_nothing_after_a_failed_read(rt: HostRuntime) {
    let mut reader = Text {
        rest: HELD_PINGS.as_bytes(),
        fails: true,
    };
    let words = ["simback", "search", "0", "6", "w.next <= 1"];
    let asked = request(rt.alloc(), words.as_slice()).expect(&rt, "a request");
    let (ended, written) = performed_over(&rt, rt.alloc(), &asked.job, &mut reader);
    assert!(rt; ended == Status::ReaderFailed && written.is_empty());
}
