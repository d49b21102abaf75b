//! The failing run of a script, without the faults it does not need, as an input for a play.
ghost use Rattle.std.specs.Prelude.{◌≡◌, ◌≤◌, ℕ, List, Some, Ok, IfOk, length, string_bytes};
ghost use Rattle.sim_events.specs.declared.Event.{Event as EventValue};
ghost use Rattle.sim_world.specs.Events.{rules};
ghost use Rattle.sim_scenario.specs.Scenario.{Protocol, ScenarioText};
ghost use Rattle.sim_cli.specs.Play.{Ended, read_scenario};
ghost use Rattle.sim_cli.specs.Subjects.{nodes_by};
ghost use Rattle.sim_export.specs.Exports.{IsInput, WritesFor, Written};
ghost use Rattle.sim_repro.specs.Shrinks.{IsShrinkOf, shrink_right};

use sim_cli::{
    FreshMeter, Opened, ScriptStop, Status, Subjects, Task, given_events, open, report_condition,
    tell_fault,
};
use sim_export::{Export, InputError, input_of, write_export};
use sim_lines::Ahead;
use sim_node::{NoMemory, Node};
use sim_reseed::ends_its_lines;
use sim_script::{Names, condition_of};
use sim_search::SearchFault;
use sim_shrink::{Listener, shrink};
use sim_watch::Cond;
use sim_world::Event;
use std::alloc::Global;
use std::fmt::Debug;
use std::io::{Read, Write};

// Reports the progress of the shrinking on standard error, if it is asked to.
#[derive(Drop)]
struct Reporter<'a, H: Eprint> {
    host: &'a H,
    reports: bool,
}

impl<'a, H: Eprint> Listener for Reporter<'a, H> {
    fn tried(&mut self, faults: u64, trials: u64) {
        if self.reports {
            // If the write to standard error fails, the shrinking goes on.
            let _told = eprintln!(self.host; "{faults} faults left after {trials} trials");
        }
    }
}

// Returns the input that makes the events in the scenario with this text.
fn input_with(
    alloc: Global,
    text: &[u8],
    names: &Names,
    events: &[Event],
) -> Result<String, InputError>
    ensures { IfOk result (λ t. (protocols : List Protocol) (said : ScenarioText) →
        read_scenario protocols text.now ≡ Ok said →
        IsInput protocols said names.now events.now (string_bytes t)) }
{
    let Ok(text) = str::from_utf8(text) else {
        return Err(InputError::NoInput);
    };
    if !ends_its_lines(text) {
        return Err(InputError::NoInput);
    }
    input_of(alloc, text, names, events)
}

// Returns what is written of the run of these events in a scenario that was read. Fails only for
// want of memory.
fn export_of<N: Node<Meter: FreshMeter>, P: Listener>(
    alloc: Global,
    opened: &Opened,
    text: &[u8],
    cond: &Cond,
    events: &[Event],
    listener: &mut P,
) -> Result<Export, NoMemory>
    ensures { IfOk result (IsShrinkOf (rules N.laws N.PROBES opened.now.scenario)
        opened.now.names text.now events.now cond.now) }
{
    let run = match shrink::<N, P>(
        alloc,
        &opened.scenario,
        events,
        cond,
        &mut N::Meter::fresh(),
        listener,
    ) {
        Ok(Some(run)) => run,
        Ok(None) => return Ok(Export::Nowhere),
        Err(SearchFault::BadRange) => return Ok(Export::BadRange),
        Err(SearchFault::BadCondition) => return Ok(Export::BadCondition),
        Err(SearchFault::NoMemory) => return Err(NoMemory),
    };
    match input_with(alloc, text, &opened.names, run.as_slice()) {
        Ok(input) => Ok(Export::Input(input)),
        Err(InputError::NoInput) => Ok(Export::NoInput),
        Err(InputError::NoMemory) => Err(NoMemory),
    }
}

/// A request: the words of a condition, and whether to report progress.
#[derive(Clone, Copy)]
pub struct Shrink<'a> {
    pub cond: &'a str,
    pub progress: bool,
}

// The task to shrink the run of a script, in the scenario with this text.
#[derive(Drop)]
struct Shrinking<'a, H: Eprint> {
    alloc: Global,
    host: &'a H,
    text: &'a [u8],
    asked: Shrink<'a>,
}

impl<'a, H: Eprint> Shrinking<'a, H> {
    // Reports why the run of these events is not shrunk, if the answer does not say it: the words
    // are no condition of the scenario, or there are no events.
    fn report(&self, opened: &Opened, events: &[Event], export: &Export) {
        match export {
            Export::BadCondition => {
                report_condition(self.host, self.alloc, &opened.names, self.asked.cond)
            }
            Export::Nowhere if events.is_empty() => {
                let _told = eprintln!(self.host;
                    "shrink: the input has no events, so there is nothing to shrink"
                );
            }
            _ => {}
        }
    }
}

impl<'a, H: Eprint> Task for Shrinking<'a, H> {
    ghost can = { λ _. Unit {0} };

    ghost does = { λ task r names old new ended.
        WritesFor (shrink_right task.asked.cond.now) task.text.now r names old new ended };

    fn carry_out<N: Node<Meter: FreshMeter> + Send + Sync + Debug, R: Read, W: Write>(
        &self,
        opened: &Opened,
        reader: &mut R,
        ahead: &mut Ahead,
        writer: &mut W,
    ) -> Status
    where
        N::Msg: Send + Sync + Debug,
        N::Undo: Send + Sync,
    {
        let Some(cond) = condition_of(&opened.names, self.asked.cond.as_bytes()) else {
            self.report(opened, &[], &Export::BadCondition);
            return write_export(writer, &Export::BadCondition);
        };
        let events = match given_events::<N, R>(self.alloc, opened, true, true, reader, ahead) {
            Ok(events) => events,
            Err(ScriptStop::Ended(status)) => return status,
            Err(ScriptStop::Fault(fault)) => {
                tell_fault(self.host, opened, &fault);
                return write_export(writer, &Export::BadScript);
            }
        };
        let mut listener = Reporter {
            host: self.host,
            reports: self.asked.progress,
        };
        let text = self.text;
        let events = events.as_slice();
        match export_of::<N, Reporter<'_, H>>(
            self.alloc,
            opened,
            text,
            &cond,
            events,
            &mut listener,
        ) {
            Ok(export) => {
                self.report(opened, events, &export);
                write_export(writer, &export)
            }
            Err(_) => Status::MemoryWanted,
        }
    }
}

/// Plays a script without writing its answers. Then writes the kept events of its first branch as
/// an input for a play, up to the first place at which a condition fails and without the faults
/// that the failure does not need.
///
/// Writes `none` if the condition fails nowhere (if there are no events, standard error says so),
/// `bad condition` with status 2 if the words write none or the scenario has no such host or probe
/// (standard error says why), and `no input` with status 2 if no line of a script makes some event
/// of the run, or if the text of the scenario does not end with a line end. If a line of the script
/// is no command, or its command is refused or not taken, reports that on standard error and writes
/// nothing, with status 2. If the reader fails or memory is wanted, writes nothing either. Takes at
/// most 255 subjects.
pub fn write_shrunk<L: Subjects, H: Eprint, R: Read, W: Write>(
    host: &H,
    alloc: Global,
    asked: Shrink<'_>,
    reader: &mut R,
    writer: &mut W,
) -> Status
    requires few { length L.listed ≤ 255 }
    ensures { (given : List ℕ) → R.remaining reader.old ≡ Some given →
        Ended (W.contents writer.old) (W.contents writer.new)
        (Written (shrink_right asked.entry.cond.now) L.listed (nodes_by L.nodes) given result) }
{
    let mut ahead = Ahead::new();
    match open::<L, H, R, W>(host, alloc, reader, &mut ahead, writer) {
        Ok(opened) => {
            let text = opened.text.as_slice();
            let task = Shrinking {
                alloc,
                host,
                text,
                asked,
            };
            L::carry_out(opened.protocol, &task, &opened, reader, &mut ahead, writer)
        }
        Err(status) => status,
    }
}
