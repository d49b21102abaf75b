//! Command lines, and the messages for those that make no request.
//!
//! What each test catches:
//! - `jobs`: words that ask for another job, or for none.
//! - `rows`: a file that is not taken for one; a text of help that leaves something out; a mistake
//!   that is accepted or reported as another; a value that is no number and is not named with its
//!   range; a status that does not fit.
use sim_job::{FaultPlan, Job, LineError, Request, Team, request};
use std::alloc::{AllocError, Global};
use std::process::Abort;

// Returns the request that the words make, or `None` if they make none.
fn asked_by<'a>(rt: &HostRuntime, words: &'a [&str]) -> Option<Request<'a>> {
    request(rt.alloc(), words).ok()
}

// Returns whether a play was asked for, with nothing said of it.
fn is_plain_play(asked: &Option<Request<'_>>) -> bool {
    matches!(
        asked,
        Some(Request {
            job: Job::Play { strict: false },
            file: None,
        })
    )
}

// Returns whether a search was asked for, with no option.
fn is_plain_search(asked: &Option<Request<'_>>) -> bool {
    matches!(
        asked,
        Some(Request {
            job: Job::Search {
                team: Team {
                    workers: 2,
                    progress: false,
                },
                strict: false,
                lo: 0,
                hi: 6,
                cond: "w.next <= 1",
            },
            file: None,
        })
    )
}

// Returns whether a search was asked for, with each of its options.
fn is_full_search(asked: &Option<Request<'_>>) -> bool {
    matches!(
        asked,
        Some(Request {
            job: Job::Search {
                team: Team {
                    workers: 3,
                    progress: true,
                },
                strict: true,
                lo: 1,
                hi: 7,
                cond: "up a",
            },
            file: None,
        })
    )
}

// Returns whether a sweep over a file was asked for, with two of its options.
fn is_sweep(asked: &Option<Request<'_>>) -> bool {
    matches!(
        asked,
        Some(Request {
            job: Job::Sweep {
                team: Team {
                    workers: 16,
                    progress: false,
                },
                plan: FaultPlan {
                    faults: None,
                    quiet: 0,
                },
                at_end: false,
                script: false,
                strict: false,
                json: true,
                first: 18446744073709551615,
                count: 2,
                events: 6,
                cond: "up a",
            },
            file: Some("a.play"),
        })
    )
}

#[test]
fn jobs(rt: HostRuntime) {
    assert!(rt; is_plain_play(&asked_by(&rt, &["simback", "play"])));
    let words = ["simback", "search", "0", "6", "w.next <= 1"];
    assert!(rt; is_plain_search(&asked_by(&rt, &words)));
    let words = [
        "simback",
        "search",
        "--workers=3",
        "1",
        "--progress",
        "--strict",
        "7",
        "up a",
    ];
    assert!(rt; is_full_search(&asked_by(&rt, &words)));
    let words = [
        "simback",
        "sweep",
        "18446744073709551615",
        "2",
        "6",
        "up a",
        "--workers",
        "16",
        "--json",
        "a.play",
    ];
    assert!(rt; is_sweep(&asked_by(&rt, &words)));
}

/// A row a line: what the words give, the words with `; ` between them or `-` for none, and a text.
/// Words that read a file name it. Help has the text in it, with status 0. Words that make no
/// request end with status 2; the usage has the text in it, or says it and nothing more. This is a
/// text and no table, since the prover takes a text as one value.
const ROWS: &str = r#"# The last word may name a file.
reads | play; --strict; a.play | a.play
reads | search; 0; 6; up a; b.play | b.play
reads | sweep; 0; 2; 6; up a; --; -x | -x
reads | script; 654; 120; c | c
reads | shrink; up a; d | d
reads | log; --from; 2; e | e
reads | page; f; --title; x | f
blames | play; a.play; b.play | unexpected argument 'b.play'
# Help, and the version.
helps | --help | Usage: simback <COMMAND>
helps | --help | play
helps | --help | search
helps | --help | sweep
helps | --help | help
helps | --help | --help
helps | --help | --version
helps | help | Usage: simback <COMMAND>
helps | help | play
helps | help | search
helps | help | sweep
helps | help | help
helps | help | --help
helps | help | --version
helps | -V | simback 0.1.0
helps | --version | simback 0.1.0
helps | play; --help | Usage: simback play [OPTIONS] [FILE]
helps | play; --help | Example: simback play examples/
helps | help; play | Usage: simback play [OPTIONS] [FILE]
helps | help; play | Example: simback play examples/
helps | search; --help | Usage: simback search [OPTIONS] <LO> <HI> <COND> [FILE]
helps | search; --help | --workers <N>
helps | search; --help | [default: 2]
helps | search; --help | --progress
helps | search; --help | as one word in quotes
helps | search; --help | Example: simback search
helps | sweep; -h | Usage: simback sweep [OPTIONS] <FIRST> <COUNT> <EVENTS> <COND> [FILE]
helps | sweep; -h | --workers <N>
helps | sweep; -h | [default: 2]
helps | sweep; -h | --progress
helps | sweep; -h | Example: simback sweep
# Words that make no request.
blames | - | Usage: simback <COMMAND>
blames | stroll | unrecognized subcommand 'stroll'
blames | help; stroll | unrecognized subcommand 'stroll'
blames | walk | <FILE>
blames | play; --json | unexpected argument '--json'
blames | search; 0; 6 | <COND>
blames | search; --workers; 0; 0; 1; up a | error: --workers is "0"; it has to be a whole number from 1 to 16
blames | search; --workers; 17; 0; 1; up a | --workers is "17"
blames | sweep; --workers=3; --workers=4; 1; 7; 9; up a | cannot be used multiple times
# Numbers that are none. The message is all that is said, but for the way to the help.
says | search; 0; x; up a | error: HI is "x"; it has to be a whole number from 0 to 65536
says | search; -1; 6; up a | error: LO is "-1"; it has to be a whole number from 0 to 65536
says | sweep; 18446744073709551616; 1; 6; up a | error: FIRST is "18446744073709551616"; it has to be a whole number from 0 to 18446744073709551615
says | sweep; 0; 1.5; 6; up a | error: COUNT is "1.5"; it has to be a whole number from 1 to 4294967296
says | log; --from; -3 | error: --from is "-3"; it has to be a whole number from 1 to 65536
says | log; --from=-3 | error: --from is "-3"; it has to be a whole number from 1 to 65536
# Without a condition too, which is the mistake that is left when the number is one.
blames | search; 0; -1 | <COND>
# Another option that there is not is clap's to report.
blames | search; -x; -1; up a | unexpected argument '-x' found"#;

// Returns the words of a command line.
fn words_of(alloc: Global, parted: &str) -> Result<Vec<&str>, AllocError> {
    let mut words = Vec::new(alloc);
    words.push("simback")?;
    for word in parted.split("; ").filter(|word| *word != "-") {
        words.push(word)?;
    }
    Ok(words)
}

// Returns whether an error is of this kind, with this text and its status.
fn is_told(kind: &str, error: &LineError, text: &str) -> bool {
    match error {
        LineError::Help(told) => {
            kind == "helps" && error.status() == 0 && told.as_str().contains(text)
        }
        LineError::Usage(told) if kind == "says" => {
            let help = "\n\nFor more information, try '--help'.\n";
            error.status() == 2 && told.as_str().strip_suffix(help) == Some(text)
        }
        LineError::Usage(told) => {
            let told = told.as_str();
            kind == "blames"
                && error.status() == 2
                && told.contains("error: ")
                && told.contains(text)
        }
        LineError::NoMemory => false,
    }
}

// Returns whether a row is as expected, or `None` if it is not laid out as a row.
fn is_right(alloc: Global, row: &str) -> Option<bool> {
    let (kind, rest) = row.split_once(" | ")?;
    let (parted, text) = rest.split_once(" | ")?;
    let words = words_of(alloc, parted).ok()?;
    match request(alloc, words.as_slice()) {
        Ok(asked) => Some(kind == "reads" && asked.file == Some(text)),
        Err(error) => Some(is_told(kind, &error, text)),
    }
}

#[test]
fn rows(rt: HostRuntime) {
    for row in ROWS.lines().filter(|row| !row.starts_with('#')) {
        assert!(rt; is_right(rt.alloc(), row) == Some(true), "{row}");
    }
}
