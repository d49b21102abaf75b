//! The lines that tell the events of a run, one after the other.
ghost use Rattle.std.specs.Prelude.{◌≡◌, ◌+◌, ◌-◌, ◌<◌, length, true, false};
ghost use Rattle.std.specs.Prelude.{IfOk, IsTrue, OnOk, string_bytes};
ghost use Rattle.sim_world.specs.Events.{rules};
ghost use Rattle.sim_log.specs.Lines.{AddsLine, AreLines, IsObjectLine, IsPast, word_line};
ghost use Rattle.sim_log.specs.Range.{IsRange};

use crate::line::Line;
use crate::places::Places;
use crate::rows::{values_after, values_before};
use crate::told::Told;
use serde_json::{Value, json};
use sim_node::{NoMemory, Node};
use sim_script::Names;
use sim_tape::{Frozen, Tape};
use sim_world::{Event, World};
use std::alloc::Global;
use std::fmt::Debug;

// The line of an event in words: the place after it, the clock there (ms), and what happened.
fn word_line(alloc: Global, place: u32, clock: u64, words: &str) -> Result<String, NoMemory>
    ensures { IfOk result (λ line. string_bytes line ≡ word_line place clock words.now) }
{
    format!(in alloc; "{place} clock {clock}: {words}\n")
}

// The line of an event as a JSON object.
fn object_line(alloc: Global, place: u32, clock: u64, rows: Vec<Value>) -> Result<String, NoMemory>
    ensures { IfOk result (λ line. IsObjectLine (string_bytes line)) }
{
    let object = json!(in alloc; {"place": place, "clock": clock, "rows": rows})?;
    let object = object.to_string(alloc)?;
    format!(in alloc; "{object}\n")
}

// What an event does, in words.
fn words_of<'a, N: Node>(
    alloc: Global,
    names: &'a Names,
    places: &'a Places,
    told: &'a Told<'a, N>,
) -> Result<String, NoMemory>
where
    N::Msg: Debug,
{
    let line = Line {
        names,
        places,
        told,
    };
    format!(in alloc; "{line}")
}

// Rows, and then others.
fn joined(rows: Vec<Value>, more: Vec<Value>) -> Result<Vec<Value>, NoMemory> {
    let mut rows = rows;
    for row in more {
        rows.push(row)?;
    }
    Ok(rows)
}

/// Tells the events of a run.
#[derive(Clone, Copy)]
pub struct Teller<'a> {
    pub alloc: Global,
    pub names: &'a Names,
    pub places: &'a Places,
}

impl Teller<'_> {
    // What happens at an event, in words. It is told in the world before it.
    fn words<N: Node>(
        self,
        world: &World<N>,
        event: Event,
        meter: &mut N::Meter,
    ) -> Result<String, NoMemory>
    where
        N::Msg: Debug,
    {
        let told = Told::new(self.alloc, world, event, meter)?;
        words_of(self.alloc, self.names, self.places, &told)
    }

    // Adds the line in words of the next event of a tape, and walks the tape past it.
    fn add_words<N: Node>(
        self,
        tape: &mut Tape<N>,
        event: Event,
        place: u32,
        log: &mut Vec<u8>,
        meter: &mut N::Meter,
    ) -> Result<(), NoMemory>
    where
        N::Msg: Debug,
        requires warm { IsTrue tape.old.warm }
        requires next { tape.old.place < length tape.old.events }
        requires place { place ≡ tape.old.place + 1 }
        ensures tape { OnOk result (IsPast tape.old tape.new) }
        ensures line { OnOk result (AddsLine (rules N.laws N.PROBES tape.old.scenario)
            tape.old.events false place log.old.items log.new.items) }
    {
        let alloc = self.alloc;
        let words = self.words(tape.here(), event, meter)?;
        tape.forward(alloc, 1, meter)?;
        let world = tape.here();
        let line = word_line(alloc, place, world.clock(), words.as_str())?;
        log.extend_from_slice(line.as_bytes())?;
        Ok(())
    }

    // Adds the line as JSON of the next event of a tape, and walks the tape past it.
    fn add_object<N: Node + Debug>(
        self,
        tape: &mut Tape<N>,
        event: Event,
        place: u32,
        log: &mut Vec<u8>,
        meter: &mut N::Meter,
    ) -> Result<(), NoMemory>
    where
        N::Msg: Debug,
        requires warm { IsTrue tape.old.warm }
        requires next { tape.old.place < length tape.old.events }
        requires place { place ≡ tape.old.place + 1 }
        ensures tape { OnOk result (IsPast tape.old tape.new) }
        ensures line { OnOk result (AddsLine (rules N.laws N.PROBES tape.old.scenario)
            tape.old.events true place log.old.items log.new.items) }
    {
        let alloc = self.alloc;
        let rows = values_before(alloc, tape.here(), event, meter)?;
        tape.forward(alloc, 1, meter)?;
        let world = tape.here();
        let rows = joined(rows, values_after(alloc, event, world)?)?;
        let line = object_line(alloc, place, world.clock(), rows)?;
        log.extend_from_slice(line.as_bytes())?;
        Ok(())
    }

    // Adds the line of the next event of a tape, and walks the tape past it.
    fn add_line<N: Node + Debug>(
        self,
        tape: &mut Tape<N>,
        event: Event,
        place: u32,
        json: bool,
        log: &mut Vec<u8>,
        meter: &mut N::Meter,
    ) -> Result<(), NoMemory>
    where
        N::Msg: Debug,
        requires warm { IsTrue tape.old.warm }
        requires next { tape.old.place < length tape.old.events }
        requires place { place ≡ tape.old.place + 1 }
        ensures tape { OnOk result (IsPast tape.old tape.new) }
        ensures line { OnOk result (AddsLine (rules N.laws N.PROBES tape.old.scenario)
            tape.old.events json place log.old.items log.new.items) }
    {
        if json {
            self.add_object(tape, event, place, log, meter)
        } else {
            self.add_words(tape, event, place, log, meter)
        }
    }

    /// The lines of the events from one to another, each in words or as a JSON object: the place
    /// after the event, the clock there, and what happens. The only error is want of memory.
    pub fn lines<N: Node + Debug>(
        self,
        run: &Frozen<N>,
        json: bool,
        first: u32,
        last: u32,
        meter: &mut N::Meter,
    ) -> Result<Vec<u8>, NoMemory>
    where
        N::Msg: Debug,
        requires { IsRange first last (length run.now.events) }
        ensures { IfOk result (λ log. AreLines (rules N.laws N.PROBES run.now.scenario)
            run.now.events json first (last + 1 - first) log.items) }
    {
        let mut log = Vec::new(self.alloc);
        let mut tape = run.tape(self.alloc, first - 1, meter)?;
        for place in first..last + 1 {
            let Some(event) = run.events().get(place - 1) else {
                unreachable!()
            };
            self.add_line(&mut tape, event, place, json, &mut log, meter)?;
        }
        Ok(log)
    }
}
