//! Runs: steps added one after the other.
ghost use Rattle.std.specs.Prelude.{◌≡◌, ◌<◌, ◌≤◌, List, None, length, IsTrue, OnOk, OnErr, IfOk};
ghost use Rattle.sim_world.specs.Events.{rules};
ghost use Rattle.sim_tape.specs.Tape.{KeepsRun, raised};
ghost use Rattle.sim_runs.specs.OnTape.{IsLengthened, HasGrown, step_refusal, run_on};
ghost use Rattle.sim_runs.specs.Watches.{AreChecked, NoneFrom};
ghost use Rattle.sim_runs.specs.Works.{Adds};

use crate::{MAX_EVENTS, Stop, stops};
use sim_node::{NoMemory, Node};
use sim_tape::Tape;
use sim_watch::Cond;
use sim_world::Event;
use std::alloc::Global;

// Adds at most `count` steps, until a run has to stop. Tests the watches after the first, and then
// after each step that can make one fail. After want of memory some may have been added.
#[inline(always)]
fn add_steps<N: Node>(
    alloc: Global,
    tape: &mut Tape<N>,
    watches: &[Option<Cond>; 8],
    end: usize,
    meter: &mut N::Meter,
    count: u32,
) -> Result<Stop, NoMemory>
    requires some { 1 ≤ count }
    requires reach { tape.old.reach ≤ tape.old.scenario.window }
    requires warm { IsTrue tape.old.warm }
    requires place { tape.old.place ≡ length tape.old.events }
    requires room { length tape.old.events < 65536 }
    requires can { step_refusal N.laws N.PROBES tape.old ≡ None }
    requires few { end ≤ 8 }
    requires none { NoneFrom end watches.now }
    requires checked { AreChecked tape.old.scenario.setup.hosts N.PROBES watches.now }
    ensures stop { IfOk result (λ why.
        why ≡ (run_on N.laws N.PROBES count watches.now tape.old).stop) }
    ensures ok { OnOk result (IsLengthened
        (run_on N.laws N.PROBES count watches.now tape.old).events tape.old tape.new) }
    ensures reach { OnOk result (tape.new.reach ≡ raised
        (length (run_on N.laws N.PROBES count watches.now tape.old).events) tape.old) }
    ensures work { OnOk result (Adds (rules N.laws N.PROBES tape.old.scenario)
        (length (run_on N.laws N.PROBES count watches.now tape.old).events) tape.new.events
        (N.Meter.work meter.old) (N.Meter.work meter.new)) }
    ensures err { OnErr result (HasGrown tape.old tape.new) }
{
    let concerned = stops::concerned(watches, count);
    for added in 0..count {
        let looks = stops::may_fail(tape, &concerned, end, added);
        tape.add(alloc, Event::Step, meter)?;
        let asked = added + 1 == count;
        if let Some(why) = stops::stop(tape, watches, end, asked, looks) {
            return Ok(why);
        }
    }
    unreachable!()
}

/// Adds at most `count` steps, at least 1, until a run has to stop. The tape is warm and at its
/// end, with fewer than 65,536 events, and a step can happen. After want of memory the events and
/// the place are as before, and the tape may be cold.
pub fn run<N: Node>(
    alloc: Global,
    tape: &mut Tape<N>,
    watches: &[Option<Cond>; 8],
    meter: &mut N::Meter,
    count: u32,
) -> Result<Stop, NoMemory>
    requires some { 1 ≤ count }
    requires warm { IsTrue tape.old.warm }
    requires place { tape.old.place ≡ length tape.old.events }
    requires room { length tape.old.events < 65536 }
    requires can { step_refusal N.laws N.PROBES tape.old ≡ None }
    requires checked { AreChecked tape.old.scenario.setup.hosts N.PROBES watches.now }
    ensures stop { IfOk result (λ why.
        why ≡ (run_on N.laws N.PROBES count watches.now tape.old).stop) }
    ensures ok { OnOk result (IsLengthened
        (run_on N.laws N.PROBES count watches.now tape.old).events tape.old tape.new) }
    ensures reach { OnOk result (tape.new.reach ≡ raised
        (length (run_on N.laws N.PROBES count watches.now tape.old).events) tape.old) }
    ensures work { OnOk result (Adds (rules N.laws N.PROBES tape.old.scenario)
        (length (run_on N.laws N.PROBES count watches.now tape.old).events) tape.new.events
        (N.Meter.work meter.old) (N.Meter.work meter.new)) }
    ensures err { OnErr result (KeepsRun tape.old tape.new) }
{
    let start = tape.len();
    // Without watches the loop is compiled on its own, and tests none.
    let added = match stops::end_of(watches) {
        0 => add_steps(alloc, tape, watches, 0, meter, count),
        end => add_steps(alloc, tape, watches, end, meter, count),
    };
    match added {
        Ok(why) => Ok(why),
        Err(want) => {
            tape.truncate(start);
            Err(want)
        }
    }
}
