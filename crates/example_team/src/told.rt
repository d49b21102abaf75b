//! Entries in plain words.
use sim_book::{Command, Entry, Reply, Stop};
use sim_world::{Fault, Query, View};
use std::fmt;

/// Shows an entry as a line: its session, its number, the command, and the reply.
#[derive(Clone, Copy)]
pub struct Told<'a>(pub &'a Entry);

impl fmt::Display for Told<'_> {
    fn fmt<W: fmt::Write>(&self, f: &mut fmt::Formatter<W>) -> fmt::Result {
        let Told(entry) = *self;
        write!(f, "session {} number {}: ", entry.session, entry.number)?;
        tell_command(f, &entry.command)?;
        tell_reply(f, &entry.reply)
    }
}

// Writes the command, without its branch.
fn tell_command<W: fmt::Write>(f: &mut fmt::Formatter<W>, command: &Command) -> fmt::Result {
    match command {
        Command::Branch(_, events) => write!(f, "branch of {events} events"),
        Command::Run(_, events) => write!(f, "run {events}"),
        Command::Tick(_) => write!(f, "tick"),
        Command::Fault(_, Fault::Crash(host)) => write!(f, "crash host {host}"),
        Command::Fault(_, Fault::Bounce(host)) => write!(f, "start host {host} anew"),
        Command::Look(_, Query::Probe(host, probe)) => write!(f, "probe {probe} of host {host}"),
        _ => write!(f, "another command"),
    }
}

// Writes the reply.
fn tell_reply<W: fmt::Write>(f: &mut fmt::Formatter<W>, reply: &Reply) -> fmt::Result {
    match reply {
        Reply::Made(branch) => write!(f, ", made {branch}"),
        Reply::Moved { place, clock, stop } => {
            write!(f, ", now at place {place}, clock {clock} ms{}", why(*stop))
        }
        Reply::Seen {
            view: View::Probe {
                value: Some(value),
                ..
            },
            ..
        } => write!(f, ", it is {value}"),
        Reply::Refused(_) => write!(f, ", refused"),
        _ => write!(f, ", another answer"),
    }
}

// Returns why a run stopped if all clients are done or nothing is pending, else an empty text.
fn why(stop: Stop) -> &'static str {
    match stop {
        Stop::AllDone => ", all clients are done",
        Stop::Idle => ", nothing is pending",
        _ => "",
    }
}
