//! The page of the run that a script leaves.
ghost use Rattle.std.specs.Prelude.{◌≡◌, ◌≤◌, ℕ, List, Some, IsSome, length};
ghost use Rattle.sim_cli.specs.Play.{Ended};
ghost use Rattle.sim_cli.specs.Subjects.{nodes_by};
ghost use Rattle.sim_export.specs.Exports.{WritesFor, Written};
ghost use Rattle.sim_page.specs.Pages.{page_right};

use crate::page::{Frame, Watched, page_of};
use sim_cli::{
    FreshMeter, Opened, ScriptStop, Status, Subjects, Task, open, played, report_condition,
    tell_fault,
};
use sim_export::{Export, write_export};
use sim_lines::Ahead;
use sim_node::Node;
use sim_script::condition_of;
use sim_watch::Cond;
use std::alloc::{AllocError, Global};
use std::fmt::Debug;
use std::io::{Read, Write};

/// What a page shows beside the run.
#[derive(Clone, Copy)]
pub struct PageRequest<'a> {
    /// The heading.
    pub title: Option<&'a str>,
    /// The words of conditions, separated by `;`. The page shows where each fails.
    pub watch: Option<&'a str>,
}

// The task to write the page of a script's run, in the scenario with this text.
#[derive(Drop)]
struct Paging<'a, H: Eprint> {
    alloc: Global,
    host: &'a H,
    text: &'a [u8],
    asked: PageRequest<'a>,
}

impl<'a, H: Eprint> Task for Paging<'a, H> {
    ghost can = { λ _. Unit {0} };

    ghost does = { λ task r names old new ended.
        WritesFor (page_right task.asked) task.text.now r names old new ended };

    fn carry_out<N: Node<Meter: FreshMeter> + Send + Sync + Debug, R: Read, W: Write>(
        &self,
        opened: &Opened,
        reader: &mut R,
        ahead: &mut Ahead,
        writer: &mut W,
    ) -> Status
    where
        N::Msg: Send + Sync + Debug,
        N::Undo: Send + Sync,
    {
        let alloc = self.alloc;
        let watched = match watched_by(self.host, alloc, opened, self.asked.watch, N::PROBES) {
            Ok(watched) => watched,
            Err(WatchError::BadCondition) => return write_export(writer, &Export::BadCondition),
            Err(WatchError::NoMemory) => return Status::MemoryWanted,
        };
        let (scenario, names) = (&opened.scenario, &opened.names);
        let run = match played::<N, R>(alloc, scenario, names, reader, ahead, true) {
            Ok(run) => run,
            Err(ScriptStop::Ended(status)) => return status,
            Err(ScriptStop::Fault(fault)) => {
                tell_fault(self.host, opened, &fault);
                return write_export(writer, &Export::BadScript);
            }
        };
        let title = self.asked.title.unwrap_or("A run of simback");
        let frame = Frame {
            alloc,
            title,
            opened,
        };
        match page_of::<N>(&frame, &run, watched) {
            Ok(page) => write_export(writer, &Export::Shown(page)),
            Err(_) => Status::MemoryWanted,
        }
    }
}

// Why the conditions to watch could not be read.
#[derive(Clone, Copy)]
enum WatchError {
    BadCondition,
    NoMemory,
}

impl From<AllocError> for WatchError {
    ghost use Rattle.std.specs.Prelude.{◌≡◌};
    ghost use Rattle.sim_page.specs.declared.paging.WatchError.TheVariants as watch;

    ghost from_gives = { λ _ e. e ≡ watch.NoMemory };

    fn from(_error: AllocError) -> WatchError {
        WatchError::NoMemory
    }
}

// Reads the conditions that these words write, separated by `;`. Reports on standard error why one
// is none.
fn watched_by<'a, H: Eprint>(
    host: &H,
    alloc: Global,
    opened: &Opened,
    words: Option<&'a str>,
    probes: u8,
) -> Result<Vec<Watched<'a>>, WatchError>
    ensures { result ≡ Err WatchError.BadCondition → IsSome words.entry }
{
    let mut watched = Vec::new(alloc);
    let Some(words) = words else {
        return Ok(watched);
    };
    for words in words.split(';') {
        let words = words.trim();
        let Some(cond) = usable(opened, words, probes) else {
            report_condition(host, alloc, &opened.names, words);
            return Err(WatchError::BadCondition);
        };
        watch(alloc, words, cond, &mut watched)?;
    }
    Ok(watched)
}

// Adds a condition to those that are watched.
fn watch<'a>(
    alloc: Global,
    words: &'a str,
    cond: Cond,
    watched: &mut Vec<Watched<'a>>,
) -> Result<(), AllocError> {
    let holding = Vec::new(alloc);
    watched.push(Watched {
        words,
        cond,
        holding,
    })?;
    Ok(())
}

// Reads the condition that these words write, if the scenario has its hosts and probes.
fn usable(opened: &Opened, words: &str, probes: u8) -> Option<Cond> {
    let cond = condition_of(&opened.names, words.as_bytes())?;
    match cond.check(opened.scenario.hosts(), probes) {
        Ok(()) => Some(cond),
        Err(_) => None,
    }
}

/// Plays a script without writing its answers, and writes the run of its first branch as a page:
/// one HTML file that loads nothing. docs/PAGE.md describes the page and its data.
///
/// Writes `bad condition` with status 2 if the words write no condition, or if the scenario has no
/// such host or probe; standard error says why. If a line of the script is no command, or its
/// command is refused or not taken, reports that on standard error and writes nothing, with status
/// 2. If the reader fails or memory is wanted, writes nothing either. Takes at most 255 subjects.
pub fn write_page<L: Subjects, H: Eprint, R: Read, W: Write>(
    host: &H,
    alloc: Global,
    asked: PageRequest<'_>,
    reader: &mut R,
    writer: &mut W,
) -> Status
    requires few { length L.listed ≤ 255 }
    ensures { (given : List ℕ) → R.remaining reader.old ≡ Some given →
        Ended (W.contents writer.old) (W.contents writer.new)
        (Written (page_right asked.entry) L.listed (nodes_by L.nodes) given result) }
{
    let mut ahead = Ahead::new();
    match open::<L, H, R, W>(host, alloc, reader, &mut ahead, writer) {
        Ok(opened) => {
            let text = opened.text.as_slice();
            let task = Paging {
                alloc,
                host,
                text,
                asked,
            };
            L::carry_out(opened.protocol, &task, &opened, reader, &mut ahead, writer)
        }
        Err(status) => status,
    }
}
