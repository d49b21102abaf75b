//! Where in a run an occurrence was queued, and where it happened.
ghost use Rattle.std.specs.Prelude.{◌≡◌, ◌<◌, ◌≤◌, length};

use sim_node::{NoMemory, Node};
use sim_tape::{Frozen, Tape};
use sim_world::Event;
use std::alloc::Global;
use std::collections::HashMap;

/// For each occurrence of a run, the event that queued it and the step at which it happened. An
/// event is named by the place after it, from 1 on.
#[derive(Drop)]
pub struct Places {
    // The next serial at each place but the last.
    serials: Vec<u64>,
    // For each event, whether it is a step.
    are_steps: Vec<bool>,
    // The steps, by the serial of the occurrence that happened.
    steps: HashMap<u64, u32>,
}

impl Places {
    /// Walks a run from its start. Fails only for want of memory.
    pub fn new<N: Node>(
        alloc: Global,
        run: &Frozen<N>,
        meter: &mut N::Meter,
    ) -> Result<Places, NoMemory> {
        let mut places = Places {
            serials: Vec::new(alloc),
            are_steps: Vec::new(alloc),
            steps: HashMap::new(alloc),
        };
        let events = run.events();
        let mut tape = run.tape(alloc, 0, meter)?;
        for place in 0..events.len() {
            if let Some(event) = events.get(place) {
                places.note(alloc, &mut tape, event, place, meter)?;
            }
        }
        Ok(places)
    }

    // Notes an event, and walks past it.
    fn note<N: Node>(
        &mut self,
        alloc: Global,
        tape: &mut Tape<N>,
        event: Event,
        place: u32,
        meter: &mut N::Meter,
    ) -> Result<(), NoMemory>
        requires { place < 65536 }
    {
        tape.make_warm(alloc, meter)?;
        let world = tape.here();
        self.serials.push(world.next_serial())?;
        self.are_steps.push(event == Event::Step)?;
        if let (Event::Step, Some((_due, serial, _occurrence))) = (event, world.first()) {
            self.steps.insert(serial, place + 1)?;
        }
        if tape.place() < tape.len() {
            tape.forward(alloc, 1, meter)?;
        }
        Ok(())
    }

    /// Returns the event that queued an occurrence, or `None` if it was pending from the start.
    pub fn queued_by(&self, serial: u64) -> Option<u32> {
        // Serials rise along a run: the last event before which the occurrence had no serial yet.
        let before = self.serials.partition_point(|next| *next <= serial);
        u32::try_from(before).ok().filter(|place| *place > 0)
    }

    /// Returns whether an event is a step. If a message was queued by another event, it was held
    /// before and then released.
    pub fn is_step(&self, place: u32) -> bool {
        let before = place.saturating_sub(1) as usize;
        self.are_steps.get(before).copied().unwrap_or(false)
    }

    /// Returns the step at which an occurrence happens, or `None` if it does not happen in this
    /// run.
    pub fn step_of(&self, serial: u64) -> Option<u32> {
        self.steps.get(&serial).copied()
    }
}
