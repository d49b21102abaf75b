//! The program `player`: it plays a script over a cluster of one of the protocols that ship.
//!
//! ```text
//! player < FILE     writes a line for each command of the script, as `simback play < FILE` does
//! ```
//!
//! The input is a scenario, a line `---` and a script; docs/SCENARIO.md and docs/SCRIPT.md describe
//! them. The exit status is 0, or 1 for a bad scenario, 2 for any word on the command line, 3 if
//! the input or the output failed, 4 for want of memory. With a word it plays nothing.
//!
//! Why it is built this way:
//!
//! - It is the first program that a newcomer can have proved. It stands on plays alone, the core
//!   and the texts below them. `simback` also waits for searches, sweeps, walks and pages.
//! - It has no options and opens no files, so it needs no command line of `sim_job`. It needs no
//!   threads either. Its input and its errors are those of `simback`, since both call
//!   `sim_play::play`.
//! - Its list is made by `With` and `Only`: `Shipped` of `sim_shipped` is a list for searches too,
//!   so it stands above them. There is one call over the list, in a function over any list.
//!
//! The gate runs it on the file `stdin`, the first example, and compares its output with `stdout`.
#![tactic(auto)]

ghost use Rattle.std.specs.Prelude.{◌≤◌, length};

use sim_cli::{Only, Status, Subjects, With};
use sim_play::play;
use sim_subjects::{AbdSubject, BackupSubject, CommitSubject, EchoSubject};
use std::env::FillError;
use std::io;
use std::io::IsTerminal;
use std::process::ExitCode;
use std::rt::Env;

type Protocols = With<EchoSubject, With<BackupSubject, With<AbdSubject, Only<CommitSubject>>>>;

// Returns whether the command line has a word after the name of the program.
fn has_words<R: Env>(rt: &R) -> bool {
    !matches!(rt.arg(1, &mut []), Err(FillError::NotPresent))
}

// Plays the standard input over a list of protocols. Says on standard error if that is a terminal,
// since the program would wait in silence.
fn play_input<L: Subjects, R: Input + Print + Eprint + AllocGlobal>(rt: &R) -> Status
where
    R::Reader: IsTerminal,
    requires few { length L.listed ≤ 255 }
{
    let mut reader = rt.reader();
    if reader.is_terminal() {
        let _told = eprintln!(rt;
            "reading the input from the terminal; to read a file, run player < FILE"
        );
    }
    let mut writer = io::writer(rt);
    play::<L, R, _, _>(rt, rt.alloc(), &mut reader, &mut writer)
}

fn main(rt: HostRuntime) -> ExitCode {
    if has_words(&rt) {
        let _told = eprintln!(rt;
            "usage: player < FILE; files by name, options and all other commands: simback"
        );
        return ExitCode::from(Status::BadRequest.number());
    }
    ExitCode::from(play_input::<Protocols, _>(&rt).number())
}
