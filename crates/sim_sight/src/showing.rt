//! Shows a place: pending occurrences, the hosts, their disks, and the links.
ghost use Rattle.std.specs.Prelude.{◌<◌};

use crate::shortening::shortened;
use sim_disk::Disk;
use sim_links::LinkState;
use sim_log::Places;
use sim_node::{Input, NoMemory, Node};
use sim_script::Names;
use sim_world::{Occurrence, World};
use std::alloc::Global;
use std::fmt::Debug;

/// The world at a place, and what is needed to describe it.
#[derive(Drop)]
pub struct Sight<'a, N: Node> {
    /// Where texts are allocated.
    pub alloc: Global,
    /// The names of hosts and probes.
    pub names: &'a Names,
    /// Where the occurrences of its run were queued.
    pub places: &'a Places,
    pub world: &'a World<N>,
}

// Returns the pending occurrences, for a host or for all: the due and the serial of each, in the
// order in which they happen.
fn pending_of<N: Node>(
    alloc: Global,
    world: &World<N>,
    host: Option<u16>,
) -> Result<Vec<(u64, u64)>, NoMemory> {
    let mut found = Vec::new(alloc);
    let mut from = 0;
    // Each round passes a serial.
    for _ in 0..world.next_serial() {
        let Some(serial) = world.next_pending(from) else {
            break;
        };
        if let Some((due, occurrence)) = world.pending(serial) {
            if host.unwrap_or(occurrence.host()) == occurrence.host() {
                found.push((due, serial))?;
            }
        }
        from = serial.saturating_add(1);
    }
    found.sort_unstable();
    Ok(found)
}

// Returns the ending of a noun after a number.
fn plural(count: usize) -> &'static str {
    if count == 1 { "" } else { "s" }
}

// Returns whether a host runs, and whether it is done, in words.
fn host_words(is_up: bool, is_done: bool) -> &'static str {
    match (is_up, is_done) {
        (true, true) => "up, done",
        (true, false) => "up, not done",
        (false, true) => "down, done",
        (false, false) => "down, not done",
    }
}

// Returns the state of a link in a word.
fn state_name(state: LinkState) -> &'static str {
    match state {
        LinkState::Through => "open",
        LinkState::Held => "held",
        LinkState::Cut => "cut",
    }
}

// Appends bytes in hexadecimal, in a line.
fn tell_row(bytes: &[u8], said: &mut String) -> Result<(), NoMemory> {
    for byte in bytes {
        write!(said, " {byte:02x}")?;
    }
    said.push('\n')
}

// Appends bytes in hexadecimal, 16 in a row after the number of the first.
fn tell_bytes(bytes: &[u8], said: &mut String) -> Result<(), NoMemory> {
    let mut offset: usize = 0;
    for row in bytes.chunks(16) {
        write!(said, "{offset:>6} ")?;
        tell_row(row, said)?;
        offset = offset.saturating_add(16);
    }
    Ok(())
}

// Appends the writes of a disk that are not stable.
fn tell_writes(disk: &Disk, said: &mut String) -> Result<(), NoMemory> {
    let covered = disk.unsynced().saturating_sub(disk.not_asked());
    for place in 0..disk.unsynced() {
        let (offset, bytes) = disk.write_at(place);
        let len = bytes.len();
        let sync = if place < covered {
            "a sync is on its way"
        } else {
            "no sync was asked for"
        };
        let plural = plural(len);
        write!(said, "not stable: {len} byte{plural} at {offset} ({sync}):")?;
        tell_row(bytes, said)?;
    }
    Ok(())
}

// Appends the sizes of a disk.
fn tell_sizes(disk: &Disk, said: &mut String) -> Result<(), NoMemory> {
    let (stable, unsynced) = (disk.stable().len(), disk.unsynced());
    let (bytes, writes) = (plural(stable), plural(unsynced as usize));
    writeln!(
        said,
        "disk: {stable} byte{bytes} stable, {unsynced} write{writes} not stable"
    )
}

// Appends the state of a node, by its text of `Debug`.
fn tell_state(alloc: Global, text: &[u8], said: &mut String) -> Result<(), NoMemory> {
    let short = shortened(alloc, text)?;
    let state = str::from_utf8(short.as_slice()).unwrap_or("");
    writeln!(said, "state: {state}")
}

// Appends the messages that a link holds.
fn tell_held<M: Debug>(held: &[M], said: &mut String) -> Result<(), NoMemory> {
    for msg in held {
        writeln!(said, "  {msg:?}")?;
    }
    Ok(())
}

impl<N: Node + Debug> Sight<'_, N>
where
    N::Msg: Debug,
{
    // Appends what happens at an occurrence, after the name of its host.
    fn tell_input(
        &self,
        occurrence: &Occurrence<N::Msg>,
        said: &mut String,
    ) -> Result<(), NoMemory> {
        match occurrence.input() {
            Input::Start => said.push_str(" starts"),
            Input::Timer => said.push_str("'s timer ends"),
            Input::Synced => {
                let count = occurrence.sync_count().unwrap_or(0);
                write!(said, "'s sync of {count} is done")
            }
            Input::Message { sender, msg } => {
                let sender = self.names.host_name(*sender);
                write!(said, " gets {msg:?} from {sender}")
            }
        }
    }

    // Appends the occurrence with a serial, if it is pending.
    fn tell_occurrence(&self, serial: u64, said: &mut String) -> Result<(), NoMemory> {
        let Some((due, occurrence)) = self.world.pending(serial) else {
            return Ok(());
        };
        let host = self.names.host_name(occurrence.host());
        write!(said, "due {due}: {host}")?;
        self.tell_input(occurrence, said)?;
        match self.places.queued_by(serial) {
            Some(place) => writeln!(said, " (queued at {place})"),
            None => said.push('\n'),
        }
    }

    /// Appends the pending occurrences, for a host or for all, in the order in which they happen.
    /// Fails only for want of memory.
    pub fn tell_pending(&self, host: Option<u16>, said: &mut String) -> Result<(), NoMemory> {
        let found = pending_of(self.alloc, self.world, host)?;
        if found.is_empty() {
            return said.push_str("nothing is pending\n");
        }
        for (_due, serial) in found.as_slice() {
            self.tell_occurrence(*serial, said)?;
        }
        Ok(())
    }

    // Appends the probes of a node.
    fn tell_probes(&self, node: &N, said: &mut String) -> Result<(), NoMemory> {
        said.push_str("probes:")?;
        for probe in 0..N::PROBES {
            let name = self.names.probe_name(probe);
            let value = node.probe(probe);
            write!(said, " {name} {value}")?;
        }
        said.push('\n')
    }

    // Appends the state and the probes of a node.
    fn tell_node(&self, node: &N, said: &mut String) -> Result<(), NoMemory> {
        let state = format!(in self.alloc; "{node:?}")?;
        tell_state(self.alloc, state.as_bytes(), said)?;
        self.tell_probes(node, said)
    }

    /// Appends a host: whether it runs and is done, its state and its probes, what is pending for
    /// it, and the sizes on its disk. For an unknown host it appends nothing. Fails only for want
    /// of memory.
    pub fn tell_host(&self, host: u16, said: &mut String) -> Result<(), NoMemory> {
        if host >= self.world.hosts() {
            return Ok(());
        }
        let name = self.names.host_name(host);
        let words = host_words(self.world.is_up(host), self.world.is_done(host));
        writeln!(said, "{name}: {words}")?;
        if let Some(node) = self.world.node(host) {
            self.tell_node(node, said)?;
        }
        tell_sizes(self.world.disk(host), said)?;
        self.tell_pending(Some(host), said)
    }

    /// Appends the disk of a host: its stable bytes, and the writes that are not stable. For an
    /// unknown host it appends nothing. Fails only for want of memory.
    pub fn tell_disk(&self, host: u16, said: &mut String) -> Result<(), NoMemory> {
        if host >= self.world.hosts() {
            return Ok(());
        }
        let disk = self.world.disk(host);
        let name = self.names.host_name(host);
        let stable = disk.stable();
        let len = stable.len();
        let plural = plural(len);
        writeln!(said, "{name}: {len} byte{plural} stable")?;
        tell_bytes(stable, said)?;
        tell_writes(disk, said)
    }

    // Appends a direction, if it is not open.
    fn tell_direction(&self, from: u16, to: u16, said: &mut String) -> Result<(), NoMemory>
        requires from { from < 32 }
        requires to { to < 32 }
    {
        let state = self.world.link(from, to);
        if state == LinkState::Through {
            return Ok(());
        }
        let (a, b) = (self.names.host_name(from), self.names.host_name(to));
        let held = self.world.held(from, to);
        let (word, count) = (state_name(state), held.len());
        let plural = plural(count);
        writeln!(said, "{a} to {b}: {word}, {count} message{plural}")?;
        tell_held(held, said)
    }

    // Appends the directions from a host that are not open.
    fn tell_links_of(&self, from: u16, said: &mut String) -> Result<(), NoMemory>
        requires { from < 32 }
    {
        for to in 0..self.world.hosts().min(32) {
            if from != to {
                self.tell_direction(from, to, said)?;
            }
        }
        Ok(())
    }

    /// Appends the links that are not open, with the messages that they hold. Fails only for want
    /// of memory.
    pub fn tell_links(&self, said: &mut String) -> Result<(), NoMemory> {
        let before = said.len();
        for from in 0..self.world.hosts().min(32) {
            self.tell_links_of(from, said)?;
        }
        if said.len() > before {
            return Ok(());
        }
        said.push_str("all links are open\n")
    }
}
