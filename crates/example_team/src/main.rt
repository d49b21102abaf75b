//! Four sessions at one book, each in a thread of its own. Each session has a branch of a run of
//! two-phase commit. It crashes the coordinator there, each session after a different number of
//! events, and looks at the outcome.
//!
//! docs/SESSIONS.md says what the calls promise. The program makes a book, lends it to four seats
//! (`Shared::new`), lets each thread give seven commands through its seat, and writes the entries
//! of each session from the history at the end.
//!
//! Why it is built this way:
//!
//! - Nobody says which session comes first. Each has a branch of its own, so its answers are the
//!   same each time, and the gate can compare what the program writes with `stdout`. The numbers of
//!   the entries in the whole history are not written, since they depend on the order.
//! - Session 0 makes all branches before the threads start, since the number of a branch depends on
//!   the order in which they are made.
//! - A session ends early if a command is not taken; a refused command does not end it. The
//!   contracts of the helpers say only that a seat stays at its book (`IsAt`), which the next call
//!   requires.
//! - `told.rt` shows entries in a few words of its own; a program that wants the lines of
//!   `simback play` calls `sim_replies`.
#![tactic(auto)]

mod told;

ghost use Rattle.std.specs.Prelude.{◌≡◌, All};
ghost use Rattle.sim_shared.specs.Sharing.{IsAt};

use crate::told::Told;
use anyhow::{Context, Result, ensure};
use sim_book::{Book, Command, Entry};
use sim_links::{Way, Ways};
use sim_node::Setup;
use sim_shared::{Seat, Shared};
use sim_tally::Tally;
use sim_two_phase::TwoPhase;
use sim_world::{Fault, Query, Scenario};
use std::sync::Wait;
use std::thread;
use std::thread::Threads;

type Node = TwoPhase<Tally>;

const SESSIONS: u8 = 4;

/// Three commands make branches, and each of four sessions gives seven.
const ENTRIES: usize = 31;

const COORDINATOR: u16 = 0;

const PARTICIPANT: u16 = 1;

/// The probe of the first transaction's outcome: 1 if it is committed, 2 if it is aborted, else 0.
const FIRST: u8 = 1;

// Returns a scenario with a coordinator, a participant and a client with one transaction. A message
// takes 10 ms, a sync of a disk 5 ms.
fn scenario() -> Result<Scenario> {
    let ways = Ways::all(Way {
        latency_min: 10,
        latency_max: 10,
        loss: 0,
    });
    let setup = Setup {
        servers: 2,
        hosts: 3,
        ops: [1; 32],
    };
    let scenario = Scenario::new([0; 32], 100, ways, 5, setup, 4, 2)
        .ok()
        .context("the scenario is not within the limits")?;
    Ok(scenario.numbered(5))
}

// Makes a branch without events for each session but session 0, which has the first branch.
fn make_branches<R: Wait>(rt: &R, shared: &Shared<Node>, seat: &mut Seat<Node>) -> Result<()>
    requires { IsAt shared.now seat.old }
    ensures { IsAt shared.now seat.new }
{
    for _ in 1..SESSIONS {
        shared
            .call(rt, seat, Command::Branch(0, 0))
            .ok()
            .context("a branch was not made")?;
    }
    Ok(())
}

// Crashes the coordinator of the session's branch, and looks at the outcome of the transaction at
// both servers. Ends early if a command is not taken.
fn crash<R: Wait>(rt: &R, shared: &Shared<Node>, seat: &mut Seat<Node>)
    requires { IsAt shared.now seat.old }
    ensures { IsAt shared.now seat.new }
{
    let branch = u32::from(seat.session());
    let commands = [
        Command::Run(branch, 6 + branch),
        Command::Fault(branch, Fault::Crash(COORDINATOR)),
        Command::Fault(branch, Fault::Bounce(COORDINATOR)),
        Command::Run(branch, 100),
        Command::Tick(branch),
        Command::Look(branch, Query::Probe(COORDINATOR, FIRST)),
        Command::Look(branch, Query::Probe(PARTICIPANT, FIRST)),
    ];
    for command in commands {
        if shared.call(rt, seat, command).is_err() {
            break;
        }
    }
}

// Writes the entries of one session after the other.
fn write_all<R: Print>(rt: &R, entries: &[Entry]) -> Result<()> {
    for session in 0..SESSIONS {
        for entry in entries.iter().filter(|e| e.session == session) {
            println!(rt; "{}", Told(entry))?;
        }
    }
    Ok(())
}

fn main(rt: HostRuntime) -> Result<()> {
    let alloc = rt.alloc();
    let book = Book::new(alloc, &scenario()?, Tally::new())?;
    let (shared, mut seats) = Shared::new(alloc, book, SESSIONS)?;
    make_branches(&rt, &shared, &mut seats[0])?;
    thread::for_each_mut(&rt, &mut seats, 4, &|_, seat| crash(&rt, &shared, seat));
    let history = shared.close(seats);
    ensure!(history.entries.len() == ENTRIES, "a command was not taken");
    write_all(&rt, &history.entries)
}
