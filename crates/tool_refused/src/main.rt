//! Carries out commands on a book, and repeats each that wanted memory.
//!
//! A command that wanted memory must leave all branches unchanged, and the next command goes on. So
//! the output in the end does not depend on which allocations were refused. The program ends well
//! if all of this holds.
//!
//! Why it is built this way:
//!
//! - No contract can say that memory was refused, so a body that gives up is still proved. Here
//!   each command must succeed when it is given again.
//! - The calls of a shared book and the jobs of the program are not here: by their contracts a call
//!   that is not taken adds no entry, and a search that wants memory writes nothing.
//! - `rt try --fail-alloc N` refuses the allocation of number N, and `1..` each in turn. All of
//!   these runs must print the same text.
#![tactic(auto)]

mod book;
mod opening;

use std::alloc::Global;
use std::io;
use std::process::ExitCode;

/// What went wrong.
#[derive(Clone, Copy, Debug, PartialEq, Eq)]
pub enum Trouble {
    /// Memory for the program's own values was refused; it may be tried again.
    NoMemory,
    /// A command that wanted memory changed something.
    Changed,
    /// A command still wanted memory when it was repeated.
    StillWanting,
    /// An answer was one that can't be.
    Wrong,
}

impl From<std::alloc::AllocError> for Trouble {
    fn from(_fault: std::alloc::AllocError) -> Trouble {
        Trouble::NoMemory
    }
}

/// How often something that wants memory is tried.
pub const TRIES: u8 = 3;

/// Repeats something that wanted memory.
fn again<T, F: Fn() -> Result<T, Trouble>>(attempt: F) -> Result<T, Trouble>
    requires { F.IsAlwaysCallable attempt }
{
    for _attempt in 1..TRIES {
        match attempt() {
            Err(Trouble::NoMemory) => {}
            ended => return ended,
        }
    }
    attempt()
}

/// Returns the lines of a book. Checks that a second book gives the same lines.
fn told<H: Eprint>(host: &H, alloc: Global) -> Result<String, Trouble> {
    let first = again(|| book::lines(host, alloc))?;
    let second = again(|| book::lines(host, alloc))?;
    if first.as_str() != second.as_str() {
        return Err(Trouble::Wrong);
    }
    Ok(first)
}

fn main(rt: HostRuntime) -> io::Result<ExitCode> {
    match told(&rt, rt.alloc()) {
        Ok(lines) => {
            print!(rt; "{lines}")?;
            Ok(ExitCode::from(0))
        }
        Err(trouble) => {
            println!(rt; "{trouble:?}")?;
            Ok(ExitCode::from(1))
        }
    }
}
