//! Carries out a job over any reader and any writer.
ghost use Rattle.std.specs.Prelude.{◌≡◌, ◌≤◌, ℕ, Bool, false, List, Some, length};
ghost use Rattle.sim_job.specs.CommandLine.{HasFewWorkers};
ghost use Rattle.sim_job.specs.declared.wanted.Job.TheVariants as jobs;
ghost use Rattle.sim_cli.specs.Play.{Ended, IsWithinReads};
ghost use Rattle.sim_play.specs.Plain.{IsDone, IsPlain};
ghost use Rattle.sim_cli.specs.Subjects.{nodes_by};
ghost use Rattle.sim_hunt.specs.Hunts.{area_of};
ghost use Rattle.sim_hunt.specs.Outcomes.{form_of};
ghost use Rattle.sim_program.specs.Jobs.{Performed};

use sim_cli::Status;
use sim_hunt::{Area, Form, Hunt, PlannedRuns, Searchable, Swept, hunt_scenario};
use sim_job::Job;
use sim_page::{LogRange, PageRequest, write_log, write_page};
use sim_play::{play, play_strictly};
use sim_repro::{SeedRun, Shrink, write_run, write_shrunk};
use std::alloc::Global;
use std::io::{Read, Write};
use std::rt::Clock;
use std::sync::Wait;
use std::thread::Threads;

// Returns where a sweep looks: in runs of steps alone, or in planned runs if the command line asks
// for anything more.
fn area_of(runs: PlannedRuns) -> Area
    ensures { result ≡ area_of runs }
{
    let plan = runs.plan;
    if plan.faults.is_none() && plan.quiet == 0 && !runs.at_end && !runs.script {
        Area::Seeds {
            first: runs.first,
            count: runs.count,
            events: runs.events,
        }
    } else {
        Area::Planned(runs)
    }
}

// Returns the form of a sweep's answer.
fn form_of(json: bool, swept: Swept) -> Form
    ensures { result ≡ form_of json swept.first swept.count swept.events }
{
    if json { Form::Json(swept) } else { Form::Words }
}

/// Carries out a job with 1 to 16 workers over a reader and a writer, for the protocols of a list.
/// A play writes one line for each command of the script. A search or a sweep writes one line: its
/// result, or why it was refused. A sweep can write its result as JSON. A fault of the scenario is
/// reported first, then words that are no condition, then a bad range, and last a host or probe of
/// the condition that the scenario does not have. If the reader fails or memory is wanted, a search
/// or a sweep writes nothing.
///
/// A strict play ends with the answer to the first line of its script that is at fault: one that is
/// no command, or whose command is refused or not taken, but not for want of memory. A strict
/// search or sweep, and each shrinking, log and page, writes nothing then. The line is reported on
/// standard error, and the status is `BadRequest`. Standard error also says why a condition or a
/// range is bad. Progress, if asked for, is reported there: by a search or a sweep at most twice a
/// second, by a shrinking after each trial.
///
/// A walk is no job for this call: it writes nothing and returns `BadRequest`.
pub fn perform<L: Searchable, H: Threads + Wait + Sync + Clock + Eprint, R: Read, W: Write>(
    rt: &H,
    alloc: Global,
    job: &Job<'_>,
    reader: &mut R,
    writer: &mut W,
) -> Status
    requires workers { HasFewWorkers job.now }
    requires few { length L.listed ≤ 8 }
    ensures performed { (given : List ℕ) → R.remaining reader.old ≡ Some given →
        Ended (W.contents writer.old) (W.contents writer.new)
        (Performed L.listed (nodes_by L.nodes) job.now given (R.remaining reader.new) result) }
    ensures plain { job.now ≡ jobs.Play false →
        (given : List ℕ) → R.remaining reader.old ≡ Some given → IsDone result →
        Ended (W.contents writer.old) (W.contents writer.new)
        (IsPlain L.listed (nodes_by L.nodes) given) }
    ensures within { (strict : Bool) → job.now ≡ jobs.Play strict →
        IsWithinReads (R.remaining reader.old) (R.remaining reader.new) }
{
    match *job {
        Job::Play { strict } => {
            if strict {
                play_strictly::<L, H, R, W>(rt, alloc, reader, writer)
            } else {
                play::<L, H, R, W>(rt, alloc, reader, writer)
            }
        }
        Job::Search {
            team,
            strict,
            lo,
            hi,
            cond,
        } => {
            let area = Area::Places { lo, hi, strict };
            let hunt = Hunt { area, cond, team };
            hunt_scenario::<L, H, R, W>(rt, alloc, &hunt, Form::Words, reader, writer)
        }
        Job::Sweep {
            team,
            plan,
            at_end,
            script,
            strict,
            json,
            first,
            count,
            events,
            cond,
        } => {
            let area = area_of(PlannedRuns {
                first,
                count,
                events,
                plan,
                at_end,
                script,
                strict,
            });
            let form = form_of(
                json,
                Swept {
                    first,
                    count,
                    events,
                },
            );
            let hunt = Hunt { area, cond, team };
            hunt_scenario::<L, H, R, W>(rt, alloc, &hunt, form, reader, writer)
        }
        Job::Script { plan, seed, events } => {
            let run = SeedRun {
                seed,
                events,
                faults: plan.faults,
                quiet: plan.quiet,
            };
            write_run::<L, H, R, W>(rt, alloc, run, reader, writer)
        }
        Job::Shrink { progress, cond } => {
            write_shrunk::<L, H, R, W>(rt, alloc, Shrink { cond, progress }, reader, writer)
        }
        Job::Log { from, to, json } => {
            let range = LogRange { from, to, json };
            write_log::<L, H, R, W>(rt, alloc, range, reader, writer)
        }
        Job::Page { title, watch } => {
            let asked = PageRequest { title, watch };
            write_page::<L, H, R, W>(rt, alloc, asked, reader, writer)
        }
        // A walk reads its commands from another reader, so it is no job for this call.
        Job::Walk => Status::BadRequest,
    }
}
