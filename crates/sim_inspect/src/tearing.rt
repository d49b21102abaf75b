//! The writes that a crash tears or drops, and the events that made them.
use crate::run::{Run, pass};
use sim_account::tears;
use sim_disk::Disk;
use sim_node::{NoMemory, Node};
use sim_tally::FreshMeter;
use sim_tape::{Frozen, Tape};
use sim_world::{Event, Fault, World};
use std::alloc::Global;
use std::fmt::Debug;

// Returns how many writes of a host are not stable.
fn unsynced<N: Node>(world: &World<N>, host: u16) -> u32 {
    if host < world.hosts() {
        world.disk(host).unsynced()
    } else {
        0
    }
}

// Returns how many writes of a host are not stable after the next event, without those that this
// event makes. A sync that is done makes its writes stable. A crash is not looked at: it leaves
// none, and makes none.
fn left_after<N: Node>(world: &World<N>, next: Option<Event>, host: u16) -> u32 {
    let count = unsynced(world, host);
    match (next, world.first()) {
        (Some(Event::Step), Some((_due, _serial, occurrence))) if occurrence.host() == host => {
            count.saturating_sub(occurrence.sync_count().unwrap_or(0))
        }
        _ => count,
    }
}

// Adds an event to those that made writes, once for each of its `count` writes.
fn add_writer(writers: &mut Vec<u32>, event: u32, count: u32) -> Result<(), NoMemory> {
    for _write in 0..count {
        writers.push(event)?;
    }
    Ok(())
}

// Walks a tape past its next event. Returns how many writes of a host this event makes.
fn made_by_next<N: Node>(
    alloc: Global,
    tape: &mut Tape<N>,
    next: Option<Event>,
    host: u16,
    meter: &mut N::Meter,
) -> Result<u32, NoMemory> {
    tape.make_warm(alloc, meter)?;
    let left = left_after(tape.here(), next, host);
    pass(alloc, tape, meter)?;
    Ok(unsynced(tape.here(), host).saturating_sub(left))
}

// Returns for each write of a host before a place the event that made it, the oldest write first.
// Those that are not stable at the place are the last ones. Fails only for want of memory.
fn writers_of<N: Node<Meter: FreshMeter>>(
    alloc: Global,
    run: &Frozen<N>,
    place: u32,
    host: u16,
) -> Result<Vec<u32>, NoMemory> {
    let mut meter = N::Meter::fresh();
    let mut tape = run.tape(alloc, 0, &mut meter)?;
    let mut writers = Vec::new(alloc);
    for before in 0..place {
        let next = run.events().get(before);
        let made = made_by_next(alloc, &mut tape, next, host, &mut meter)?;
        add_writer(&mut writers, before.saturating_add(1), made)?;
    }
    Ok(writers)
}

// Appends what a crash does to a write that is not stable, by its place among these writes, unless
// it keeps the write whole. Returns whether it appended that.
fn tell_write(disk: &Disk, at: usize, kept: u32, said: &mut String) -> Result<bool, NoMemory> {
    let count = disk.unsynced();
    if at >= count as usize {
        return Ok(false);
    }
    let (offset, bytes) = disk.write_at(at as u32);
    let (number, len) = (at + 1, bytes.len());
    if kept as usize >= len {
        return Ok(false);
    }
    if kept == 0 {
        write!(
            said,
            "drops write {number} of {count} ({len} bytes at {offset})"
        )?;
    } else {
        write!(
            said,
            "tears write {number} of {count} (keeps {kept} of {len} bytes at {offset})"
        )?;
    }
    Ok(true)
}

impl<N: Node<Meter: FreshMeter> + Debug> Run<'_, N>
where
    N::Msg: Debug,
{
    // Appends the event that made a write, after the words about the write.
    fn tell_writer(&self, writer: Option<u32>, said: &mut String) -> Result<(), NoMemory> {
        match writer {
            Some(event) => {
                said.push_str(", made by ")?;
                self.tell(event, event, said)
            }
            None => said.push('\n'),
        }
    }

    // Appends the writes of a disk that a crash tears or drops, by what it keeps of each one that
    // is not stable, with the events that made them. `writers` has those of all writes so far.
    fn tell_tears(
        &self,
        disk: &Disk,
        tears: &[u32],
        writers: &[u32],
        said: &mut String,
    ) -> Result<(), NoMemory> {
        let first = writers.len().saturating_sub(tears.len());
        for (at, kept) in tears.iter().enumerate() {
            if tell_write(disk, at, *kept, said)? {
                self.tell_writer(writers.get(first.saturating_add(at)).copied(), said)?;
            }
        }
        Ok(())
    }

    // Appends the writes that the crash of a host tears or drops in the world at a place, if the
    // host runs there, with the events that made them.
    fn tell_crash(
        &self,
        world: &World<N>,
        place: u32,
        host: u16,
        said: &mut String,
    ) -> Result<(), NoMemory> {
        if host >= world.hosts() || !world.is_up(host) {
            return Ok(());
        }
        let tears = tears(self.alloc, world, host)?;
        let writers = writers_of(self.alloc, &self.frozen, place, host)?;
        self.tell_tears(world.disk(host), tears.as_slice(), writers.as_slice(), said)
    }

    /// Appends the writes that the event that leads to a place tears or drops, if it is the crash
    /// or the bounce of a running host, with the events that made them. Fails only for want of
    /// memory.
    pub(crate) fn tell_torn(
        &self,
        event: Event,
        place: u32,
        said: &mut String,
    ) -> Result<(), NoMemory> {
        let Event::Fault(Fault::Crash(host) | Fault::Bounce(host)) = event else {
            return Ok(());
        };
        let before = place.saturating_sub(1).min(self.len());
        let tape = self
            .frozen
            .tape(self.alloc, before, &mut N::Meter::fresh())?;
        self.tell_crash(tape.here(), before, host, said)
    }
}
