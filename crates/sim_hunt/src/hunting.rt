//! Hunts for a condition in the run that a script leaves, or in the runs of many seeds.
ghost use Rattle.std.specs.Prelude.{◌≡◌, ◌<◌, ℕ, List, IfOk, IfErr, Some, Ok, vec_len};
ghost use Rattle.std.specs.Io.KnownBytes.{prepend_known};
ghost use Rattle.sim_world.specs.Events.{rules};
ghost use Rattle.sim_cli.specs.Statuses.{Stops};
ghost use Rattle.sim_hunt.specs.Hunts.{IsTeam, StopIs, found_on, hunt_answer};
ghost use Rattle.sim_hunt.specs.Hunts.{search_answer, sweep_answer};

use crate::Status;
use crate::answer::{Answer, of_search, of_sweep};
use crate::planned::sweep_runs;
use crate::progress::Progress;
use crate::reasons::{report_places, report_seeds, report_steps};
use sim_cli::{Opened, ScriptStop, given_events, played, tell_fault};
use sim_job::{FaultPlan, Team};
use sim_lines::Ahead;
use sim_node::{NoMemory, Node};
use sim_scan::pieces;
use sim_script::condition_of;
use sim_search::{search, sweep};
use sim_tally::FreshMeter;
use sim_tape::Frozen;
use sim_watch::Cond;
use std::alloc::Global;
use std::io::Read;
use std::rt::Clock;
use std::sync::Wait;
use std::thread::Threads;

/// The request of a command line: a condition in words, where to look for it, and the workers.
#[derive(Clone, Copy)]
pub struct Hunt<'a> {
    pub area: Area,
    /// The condition in words.
    pub cond: &'a str,
    /// The workers, 1 to 16, and whether progress is reported.
    pub team: Team,
}

/// Where a condition is looked for.
#[derive(Clone, Copy)]
pub enum Area {
    /// In the places from `lo` to `hi`, both included, of the first branch of a script's run. With
    /// `strict`, no line of the script may be at fault.
    Places { lo: u64, hi: u64, strict: bool },
    /// In the runs of `count` seeds, from number `first` on, of at most `events` steps each.
    Seeds { first: u64, count: u64, events: u64 },
    /// In the planned runs of seeds.
    Planned(PlannedRuns),
}

/// The planned runs of `count` seeds, from number `first` on.
#[derive(Clone, Copy)]
pub struct PlannedRuns {
    pub first: u64,
    pub count: u64,
    /// The number of events planned before the quiet end.
    pub events: u64,
    /// The spacing of faults, and the number of steps of the quiet end.
    pub plan: FaultPlan,
    /// Whether the condition is tested only at the last place of each run.
    pub at_end: bool,
    /// Whether each run begins with the events that the script leaves.
    pub script: bool,
    /// Whether no line of the script may be at fault.
    pub strict: bool,
}

/// A hunt in a scenario that was read, with the condition, read by the names of the scenario's
/// hosts and probes.
#[derive(Drop)]
pub(crate) struct Quest<'a> {
    pub(crate) opened: &'a Opened,
    pub(crate) cond: Cond,
    pub(crate) hunt: &'a Hunt<'a>,
}

/// Returns a meter for each worker. Fails only for want of memory.
pub fn meters<M: FreshMeter>(alloc: Global, workers: u64) -> Result<Vec<M>, NoMemory>
    ensures { IfOk result (λ v. vec_len v ≡ workers) }
{
    let mut meters = Vec::new(alloc);
    for _worker in 0..workers {
        meters.push(M::fresh())?;
    }
    Ok(meters)
}

// Returns the number of pieces of the places from `lo` to `hi`, or 0 if the range is bad.
fn pieces_of<N: Node>(frozen: &Frozen<N>, lo: u64, hi: u64) -> u64 {
    if hi < lo || u64::from(frozen.events().len()) < hi {
        return 0;
    }
    pieces(lo as u32, hi as u32, frozen.interval())
}

// Searches for the first place of a run at which the condition fails.
fn search_run<
    N: Node<Meter: FreshMeter + Send> + Send + Sync,
    H: Threads + Wait + Sync + Clock + Eprint,
>(
    rt: &H,
    alloc: Global,
    frozen: &Frozen<N>,
    lo: u64,
    hi: u64,
    quest: &Quest<'_>,
) -> Result<Answer, NoMemory>
where
    N::Msg: Send + Sync,
    N::Undo: Send + Sync,
    requires { IsTeam quest.now.hunt.now.team.workers }
    ensures { IfOk result (λ a. a ≡ search_answer (rules N.laws N.PROBES frozen.now.scenario)
        quest.now.cond frozen.now.events lo hi) }
{
    report_places(rt, lo, hi, frozen.events().len());
    let meters = meters(alloc, quest.hunt.team.workers)?;
    let gate = Progress::new(rt, quest.hunt.team.progress, pieces_of(frozen, lo, hi));
    of_search(search(rt, alloc, frozen, lo, hi, &quest.cond, meters, &gate))
}

// Searches for the first seed under which the condition fails.
fn sweep_seeds<
    N: Node<Meter: FreshMeter + Send> + Send + Sync,
    H: Threads + Wait + Sync + Clock + Eprint,
>(
    rt: &H,
    alloc: Global,
    first: u64,
    count: u64,
    events: u64,
    quest: &Quest<'_>,
) -> Result<Answer, NoMemory>
where
    N::Msg: Send + Sync,
    N::Undo: Send + Sync,
    requires { IsTeam quest.now.hunt.now.team.workers }
    ensures { IfOk result (λ a. a ≡ sweep_answer (rules N.laws N.PROBES
        quest.now.opened.now.scenario)
        quest.now.cond first count events) }
{
    report_seeds(rt, first, count);
    report_steps(rt, events);
    let scenario = &quest.opened.scenario;
    let cond = &quest.cond;
    let meters = meters(alloc, quest.hunt.team.workers)?;
    let gate = Progress::new(rt, quest.hunt.team.progress, count);
    of_sweep(sweep::<N, _, _>(
        rt, alloc, scenario, first, count, events, cond, meters, &gate,
    ))
}

// Returns the answer; after want of memory fails with its status.
fn told(answer: Result<Answer, NoMemory>) -> Result<Answer, Status>
    ensures ok { IfOk result (λ a. answer ≡ Ok a) }
    ensures stops { IfErr result Stops }
{
    match answer {
        Ok(answer) => Ok(answer),
        Err(_) => Err(Status::MemoryWanted),
    }
}

// Returns how a hunt ends if its script was not carried out to its end. Reports a line at fault on
// standard error.
fn at_stop<H: Eprint>(rt: &H, opened: &Opened, stop: ScriptStop) -> Result<Answer, Status>
    ensures { StopIs stop result }
{
    match stop {
        ScriptStop::Ended(status) => Err(status),
        ScriptStop::Fault(fault) => {
            tell_fault(rt, opened, &fault);
            Ok(Answer::BadScript)
        }
    }
}

// Hunts over nodes of one type. Writes no answers of the script; a sweep without `script` reads
// none.
fn hunt_quest<
    N: Node<Meter: FreshMeter + Send> + Send + Sync,
    H: Threads + Wait + Sync + Clock + Eprint,
    R: Read,
>(
    rt: &H,
    alloc: Global,
    quest: &Quest<'_>,
    reader: &mut R,
    ahead: &mut Ahead,
) -> Result<Answer, Status>
where
    N::Msg: Send + Sync,
    N::Undo: Send + Sync,
    requires { IsTeam quest.now.hunt.now.team.workers }
    ensures answer { (script : List ℕ) →
        prepend_known ahead.old.bytes (R.remaining reader.old) ≡ Some script →
        IfOk result (λ a. a ≡ found_on (rules N.laws N.PROBES quest.now.opened.now.scenario)
        quest.now.opened.now.names quest.now.hunt.now.area script quest.now.cond) }
    ensures stops { IfErr result Stops }
{
    match quest.hunt.area {
        Area::Places { lo, hi, strict } => {
            let opened = quest.opened;
            let (scenario, names) = (&opened.scenario, &opened.names);
            match played::<N, R>(alloc, scenario, names, reader, ahead, strict) {
                Ok(frozen) => told(search_run(rt, alloc, &frozen, lo, hi, quest)),
                Err(stop) => at_stop(rt, opened, stop),
            }
        }
        Area::Seeds {
            first,
            count,
            events,
        } => told(sweep_seeds::<N, H>(rt, alloc, first, count, events, quest)),
        Area::Planned(runs) => {
            let opened = quest.opened;
            let (script, strict) = (runs.script, runs.strict);
            match given_events::<N, R>(alloc, opened, script, strict, reader, ahead) {
                Ok(given) => told(sweep_runs::<N, H>(rt, alloc, &runs, given.as_slice(), quest)),
                Err(stop) => at_stop(rt, opened, stop),
            }
        }
    }
}

/// Hunts over nodes of one type, in a scenario that was read. Reads the words of the condition
/// first.
pub(crate) fn hunt_nodes<
    N: Node<Meter: FreshMeter + Send> + Send + Sync,
    H: Threads + Wait + Sync + Clock + Eprint,
    R: Read,
>(
    rt: &H,
    alloc: Global,
    opened: &Opened,
    hunt: &Hunt<'_>,
    reader: &mut R,
    ahead: &mut Ahead,
) -> Result<Answer, Status>
where
    N::Msg: Send + Sync,
    N::Undo: Send + Sync,
    requires { IsTeam hunt.now.team.workers }
    ensures answer { (script : List ℕ) →
        prepend_known ahead.old.bytes (R.remaining reader.old) ≡ Some script →
        IfOk result (λ a. a ≡ hunt_answer (rules N.laws N.PROBES opened.now.scenario)
        opened.now.names hunt.now.area hunt.now.cond.now script) }
    ensures stops { IfErr result Stops }
{
    let Some(cond) = condition_of(&opened.names, hunt.cond.as_bytes()) else {
        return Ok(Answer::BadCondition);
    };
    let quest = Quest { opened, cond, hunt };
    hunt_quest::<N, H, R>(rt, alloc, &quest, reader, ahead)
}
