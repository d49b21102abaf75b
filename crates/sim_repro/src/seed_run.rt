//! The run of a seed as an input for a play.
ghost use Rattle.std.specs.Prelude.{◌≡◌, ◌≤◌, ℕ, List, [], Some, Ok, IfOk, length};
ghost use Rattle.std.specs.Prelude.{string_bytes};
ghost use Rattle.sim_world.specs.Events.{rules};
ghost use Rattle.sim_events.specs.Seeds.{numbered};
ghost use Rattle.sim_plan.specs.Happening.{IsPlan, planned_run};
ghost use Rattle.sim_scenario.specs.Scenario.{Protocol, ScenarioText};
ghost use Rattle.sim_reseed.specs.Numbered.{numbered as numbered_scenario};
ghost use Rattle.sim_cli.specs.Play.{Ended, read_scenario};
ghost use Rattle.sim_export.specs.Exports.{IsInput};
ghost use Rattle.sim_cli.specs.Subjects.{nodes_by};
ghost use Rattle.sim_export.specs.Exports.{WritesFor, Written};
ghost use Rattle.sim_repro.specs.SeedRuns.{IsExportOf, seed_run_right};

use sim_cli::{FreshMeter, Opened, Status, Subjects, Task, open};
use sim_export::{Export, InputError, input_of, write_export};
use sim_lines::Ahead;
use sim_node::{NoMemory, Node};
use sim_plan::{Plan, report_plan, run_of};
use sim_reseed::{ReseedError, numbered_text};
use sim_sweep::numbered_seed;
use sim_world::Event;
use std::alloc::Global;
use std::fmt::Debug;
use std::io::{Read, Write};

/// The run of a seed, with its planned events.
#[derive(Clone, Copy)]
pub struct SeedRun {
    /// The number of the seed, as in a sweep.
    pub seed: u64,
    /// How many events are planned before the quiet end.
    pub events: u64,
    /// On average, one event in `faults` is a fault or a healing; with `None`, no fault is planned.
    pub faults: Option<u64>,
    /// The number of steps of the quiet end.
    pub quiet: u64,
}

// Returns the events of a run whose plan is within the limits. Fails only for want of memory.
fn events_of<N: Node<Meter: FreshMeter>>(
    alloc: Global,
    opened: &Opened,
    seed: u64,
    plan: Plan,
) -> Result<Vec<Event>, NoMemory>
    requires { IsPlan 0 plan }
    ensures { IfOk result (λ run. run.items ≡ planned_run N.laws N.PROBES
        (numbered seed opened.now.scenario) [] plan) }
{
    let scenario = opened.scenario.numbered(seed);
    let bytes = numbered_seed(opened.seed, seed);
    run_of::<N>(alloc, &scenario, bytes, &[], plan, &mut N::Meter::fresh())
}

// Returns the input of a run whose plan is within the limits.
fn input_with<N: Node<Meter: FreshMeter>>(
    alloc: Global,
    opened: &Opened,
    text: &[u8],
    seed: u64,
    plan: Plan,
) -> Result<String, InputError>
    requires { IsPlan 0 plan }
    ensures { IfOk result (λ t. (protocols : List Protocol) (said : ScenarioText) →
        read_scenario protocols text.now ≡ Ok said →
        IsInput protocols (numbered_scenario seed said) opened.now.names
        (planned_run N.laws N.PROBES (numbered seed opened.now.scenario) [] plan)
        (string_bytes t)) }
{
    let Ok(text) = str::from_utf8(text) else {
        return Err(InputError::NoInput);
    };
    let events = events_of::<N>(alloc, opened, seed, plan)?;
    let scenario = numbered_text(alloc, text, seed)?;
    input_of(alloc, scenario.as_str(), &opened.names, events.as_slice())
}

// Returns what is written of a run in a scenario that was read. Fails only for want of memory.
fn export_of<N: Node<Meter: FreshMeter>>(
    alloc: Global,
    opened: &Opened,
    text: &[u8],
    run: SeedRun,
) -> Result<Export, NoMemory>
    ensures { IfOk result (λ e. (script : List ℕ) →
        IsExportOf (rules N.laws N.PROBES opened.now.scenario) run
        opened.now.names text.now script e) }
{
    let Some(plan) = Plan::new(run.faults, run.events, run.quiet, false) else {
        return Ok(Export::BadRange);
    };
    if !plan.is_within(0) {
        return Ok(Export::BadRange);
    }
    match input_with::<N>(alloc, opened, text, run.seed, plan) {
        Ok(input) => Ok(Export::Input(input)),
        Err(InputError::NoInput) => Ok(Export::NoInput),
        Err(InputError::NoMemory) => Err(NoMemory),
    }
}

// The task to write a run of the scenario with this text.
#[derive(Drop)]
struct RunWriting<'a> {
    alloc: Global,
    text: &'a [u8],
    run: SeedRun,
}

impl<'a> Task for RunWriting<'a> {
    ghost can = { λ _. Unit {0} };

    ghost does = { λ task r names old new ended.
        WritesFor (seed_run_right task.run) task.text.now r names old new ended };

    fn carry_out<N: Node<Meter: FreshMeter> + Send + Sync + Debug, R: Read, W: Write>(
        &self,
        opened: &Opened,
        _reader: &mut R,
        _ahead: &mut Ahead,
        writer: &mut W,
    ) -> Status
    where
        N::Msg: Send + Sync + Debug,
        N::Undo: Send + Sync,
    {
        match export_of::<N>(self.alloc, opened, self.text, self.run) {
            Ok(export) => write_export(writer, &export),
            Err(_) => Status::MemoryWanted,
        }
    }
}

/// Reads a scenario and writes the run of one of its seeds as an input for a play: the scenario
/// with that seed, a line `---`, and a line of script for each event. Ignores the script of the
/// input.
///
/// Writes `bad range` with status 2 if the spacing of faults is not 2 to 65,536 or there are more
/// than 65,534 events with the quiet end (standard error says which), and `no input` with status 2
/// if the run has none. Takes at most 255 subjects.
pub fn write_run<L: Subjects, H: Eprint, R: Read, W: Write>(
    host: &H,
    alloc: Global,
    run: SeedRun,
    reader: &mut R,
    writer: &mut W,
) -> Status
    requires few { length L.listed ≤ 255 }
    ensures { (given : List ℕ) → R.remaining reader.old ≡ Some given →
        Ended (W.contents writer.old) (W.contents writer.new)
        (Written (seed_run_right run) L.listed (nodes_by L.nodes) given result) }
{
    let mut ahead = Ahead::new();
    match open::<L, H, R, W>(host, alloc, reader, &mut ahead, writer) {
        Ok(opened) => {
            report_plan(host, 0, run.events, run.quiet, run.faults);
            let text = opened.text.as_slice();
            let task = RunWriting { alloc, text, run };
            L::carry_out(opened.protocol, &task, &opened, reader, &mut ahead, writer)
        }
        Err(status) => status,
    }
}
