//! Ticks: steps up to a time, and an advance to it.
ghost use Rattle.std.specs.Prelude.{◌≡◌, ℕ, ◌+◌, ◌-◌, ◌*◌, ◌==◌, ◌<◌, ◌≤◌, true, List, [], min};
ghost use Rattle.std.specs.Prelude.{length, IsTrue, OnOk, OnErr, IfOk, if◌then◌else◌};
ghost use Rattle.sim_world.specs.Events.{rules};
ghost use Rattle.sim_tape.specs.Tape.{KeepsRun, raised};
ghost use Rattle.sim_runs.specs.Branch.{branch_with};
ghost use Rattle.sim_runs.specs.Works.{Adds};
ghost use Rattle.sim_runs.specs.Runs.{all_done, is_due_by, tick_end, tick_room};
ghost use Rattle.sim_runs.specs.OnTape.{IsLengthened, HasGrown, world_on, tick_on};

use crate::{MAX_EVENTS, MAX_TICK_EVENTS, Stop};
use sim_node::{NoMemory, Node};
use sim_tape::Tape;
use sim_world::Event;
use std::alloc::Global;

// Returns the most events that a tick can add to `kept` events.
fn room_of(kept: u32) -> u32
    requires { kept ≤ 65536 }
    ensures { result ≡ min 1024 (65536 - kept) }
{
    let room = MAX_EVENTS - kept;
    if room < MAX_TICK_EVENTS {
        room
    } else {
        MAX_TICK_EVENTS
    }
}

// Returns the clock at the place of a warm tape (ms).
fn clock<N: Node>(tape: &Tape<N>) -> u64
    requires { IsTrue tape.now.warm }
    ensures value { result ≡ (world_on N.laws N.PROBES tape.now).clock }
    ensures small { result ≤ 60000 * 65536 }
{
    tape.here().clock()
}

// Returns whether something is due at or before `time` (ms), at the place of a warm tape.
fn is_due_by<N: Node>(tape: &Tape<N>, time: u64) -> bool
    requires { IsTrue tape.now.warm }
    ensures { result ≡ is_due_by time (world_on N.laws N.PROBES tape.now) }
{
    tape.here().is_due_by(time)
}

// Returns the reason to stop for a tick that reached its time, at the place of a warm tape.
fn stop_at_end<N: Node>(tape: &Tape<N>) -> Stop
    requires { IsTrue tape.now.warm }
    ensures { result ≡ (if all_done (rules N.laws N.PROBES tape.now.scenario)
        (world_on N.laws N.PROBES tape.now) then Stop.AllDone else Stop.Asked) }
{
    if tape.here().are_clients_done() {
        Stop::AllDone
    } else {
        Stop::Asked
    }
}

// Returns the reason to stop for a tick that did not reach its time.
fn stop_short<N: Node>(tape: &Tape<N>) -> Stop
    ensures { result ≡ (if length tape.now.events == 65536 then Stop.Full else Stop.Long) }
{
    if tape.len() == MAX_EVENTS {
        Stop::Full
    } else {
        Stop::Long
    }
}

// Adds steps while something is due by `end` (ms), and then an advance to it: at most `room`
// events. After want of memory some may have been added.
fn add_tick<N: Node>(
    alloc: Global,
    tape: &mut Tape<N>,
    meter: &mut N::Meter,
    end: u64,
    room: u32,
) -> Result<Stop, NoMemory>
    requires end { end ≡ tick_end (rules N.laws N.PROBES tape.old.scenario)
        (branch_with [] tape.old) }
    requires near { tape.old.scenario.tick ≤ 60000 }
    requires room { room ≡ tick_room (rules N.laws N.PROBES tape.old.scenario)
        (branch_with [] tape.old) }
    requires reach { tape.old.reach ≤ tape.old.scenario.window }
    requires warm { IsTrue tape.old.warm }
    requires place { tape.old.place ≡ length tape.old.events }
    ensures stop { IfOk result (λ why. why ≡ (tick_on N.laws N.PROBES tape.old).stop) }
    ensures ok { OnOk result (IsLengthened
        (tick_on N.laws N.PROBES tape.old).events tape.old tape.new) }
    ensures reach { OnOk result (tape.new.reach ≡ raised
        (length (tick_on N.laws N.PROBES tape.old).events) tape.old) }
    ensures work { OnOk result (Adds (rules N.laws N.PROBES tape.old.scenario)
        (length (tick_on N.laws N.PROBES tape.old).events) tape.new.events
        (N.Meter.work meter.old) (N.Meter.work meter.new)) }
    ensures err { OnErr result (HasGrown tape.old tape.new) }
{
    for _ in 0..room {
        if !is_due_by(tape, end) {
            tape.add(alloc, Event::Advance(end), meter)?;
            return Ok(stop_at_end(tape));
        }
        tape.add(alloc, Event::Step, meter)?;
    }
    Ok(stop_short(tape))
}

/// Adds the events of a tick of `takes` ms, the scenario's tick. The tape is warm and at its end.
/// After want of memory the events and the place are as before, and the tape may be cold.
pub fn tick<N: Node>(
    alloc: Global,
    tape: &mut Tape<N>,
    meter: &mut N::Meter,
    takes: u32,
) -> Result<Stop, NoMemory>
    requires takes { takes ≡ tape.old.scenario.tick }
    requires near { takes ≤ 60000 }
    requires warm { IsTrue tape.old.warm }
    requires place { tape.old.place ≡ length tape.old.events }
    ensures stop { IfOk result (λ why. why ≡ (tick_on N.laws N.PROBES tape.old).stop) }
    ensures ok { OnOk result (IsLengthened
        (tick_on N.laws N.PROBES tape.old).events tape.old tape.new) }
    ensures reach { OnOk result (tape.new.reach ≡ raised
        (length (tick_on N.laws N.PROBES tape.old).events) tape.old) }
    ensures work { OnOk result (Adds (rules N.laws N.PROBES tape.old.scenario)
        (length (tick_on N.laws N.PROBES tape.old).events) tape.new.events
        (N.Meter.work meter.old) (N.Meter.work meter.new)) }
    ensures err { OnErr result (KeepsRun tape.old tape.new) }
{
    let start = tape.len();
    let end = clock(tape) + takes as u64;
    match add_tick(alloc, tape, meter, end, room_of(start)) {
        Ok(why) => Ok(why),
        Err(want) => {
            tape.truncate(start);
            Err(want)
        }
    }
}
