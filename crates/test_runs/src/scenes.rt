//! Tapes of echo, meters, and terms on a client's next operation.
ghost use Rattle.std.specs.Prelude.{◌≡◌, IfOk, vec_len};

use sim_echo::Echo;
use sim_node::{Meter, NoMemory};
use sim_tally::Tally;
use sim_tape::Tape;
use sim_watch::{Comparison, Op, Term, Value};
use sim_world::{Event, Scenario};
use std::alloc::Global;
use std::test::Fail;

/// The probe of a client of echo that shows its next operation.
pub const NEXT: u8 = 0;

/// Returns the term that a client's next operation is at most this.
pub fn next_at_most(client: u16, n: u64) -> Term {
    let most = Comparison {
        op: Op::LessOrEqual,
        value: Value::Number(n),
    };
    Term::Cmp(client, NEXT, most)
}

/// Makes a meter for each worker.
pub fn tallies(alloc: Global, workers: u32) -> Result<Vec<Tally>, NoMemory>
    ensures { IfOk result (λ v. vec_len v ≡ workers) }
{
    let mut meters = Vec::new(alloc);
    for _ in 0..workers {
        meters.push(Tally::new())?;
    }
    Ok(meters)
}

// Adds a step at the end, if one can happen.
fn add<M: Meter>(alloc: Global, tape: &mut Tape<Echo<M>>, meter: &mut M) -> Result<bool, NoMemory> {
    if tape.place() != tape.len() || 65_536 <= tape.len() {
        return Ok(false);
    }
    tape.make_warm(alloc, meter)?;
    if tape.here().can(Event::Step).is_err() {
        return Ok(false);
    }
    tape.add(alloc, Event::Step, meter)?;
    Ok(true)
}

/// Returns a tape of this many steps, or of as many as can happen.
pub fn tape_of<M: Meter>(
    alloc: Global,
    scenario: &Scenario,
    steps: u32,
    meter: &mut M,
) -> Result<Tape<Echo<M>>, NoMemory> {
    let mut tape = Tape::new(alloc, scenario, meter)?;
    for _step in 0..steps {
        add(alloc, &mut tape, meter)?;
    }
    Ok(tape)
}
