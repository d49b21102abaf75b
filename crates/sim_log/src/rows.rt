//! What an event changes, as rows of JSON.
use crate::told::{LinkFault, Told, host_fault};
use serde_json::{Number, Value};
use sim_account::{Fate, Reaction, ToldEffect};
use sim_links::{Change, LinkState};
use sim_node::{Effect, NoMemory, Node};
use sim_world::{Event, Fault, World};
use std::alloc::Global;
use std::fmt;

// A row that is being made: a word, and then numbers and texts. docs/PAGE.md has every row.
#[derive(Drop)]
struct Row {
    cells: Vec<Value>,
}

impl Row {
    // A row of a word and numbers.
    fn new(alloc: Global, word: &str, numbers: &[u64]) -> Result<Row, NoMemory> {
        let cells = Vec::new(alloc);
        let mut row = Row { cells }.text(String::from_str(alloc, word)?)?;
        for number in numbers {
            row = row.number(*number)?;
        }
        Ok(row)
    }

    fn number(mut self, number: u64) -> Result<Row, NoMemory> {
        self.cells.push(Value::Number(Number::from(number)))?;
        Ok(self)
    }

    fn text(mut self, text: String) -> Result<Row, NoMemory> {
        self.cells.push(Value::String(text))?;
        Ok(self)
    }
}

// A list of rows that is being made.
#[derive(Drop)]
struct Rows {
    alloc: Global,
    rows: Vec<Value>,
}

impl Rows {
    fn new(alloc: Global) -> Rows {
        Rows {
            alloc,
            rows: Vec::new(alloc),
        }
    }

    fn push(&mut self, row: Row) -> Result<(), NoMemory> {
        let Row { cells } = row;
        self.rows.push(Value::Array(cells))?;
        Ok(())
    }

    // Adds a row of a word and numbers.
    fn add(&mut self, word: &str, numbers: &[u64]) -> Result<(), NoMemory> {
        let row = Row::new(self.alloc, word, numbers)?;
        self.push(row)
    }

    // Adds a row of a word, numbers and a text.
    fn add_text(&mut self, word: &str, numbers: &[u64], text: String) -> Result<(), NoMemory> {
        let row = Row::new(self.alloc, word, numbers)?.text(text)?;
        self.push(row)
    }

    fn into_vec(self) -> Vec<Value> {
        let Rows { alloc: _, rows } = self;
        rows
    }

    // Adds the row of a host's node, with the values of its probes.
    fn node<N: Node + fmt::Debug>(&mut self, host: u16, node: &N) -> Result<(), NoMemory> {
        let alloc = self.alloc;
        let mut row = Row::new(alloc, "node", &[u64::from(host)])?;
        for probe in 0..N::PROBES {
            row = row.text(decimal(alloc, node.probe(probe))?)?;
        }
        let row = row.text(shown(alloc, node)?)?;
        self.push(row)
    }

    // Adds the row of the node that runs on a host, if there is one.
    fn host<N: Node + fmt::Debug>(&mut self, world: &World<N>, host: u16) -> Result<(), NoMemory> {
        if host >= world.hosts() {
            return Ok(());
        }
        match world.node(host) {
            Some(node) => self.node(host, node),
            None => Ok(()),
        }
    }

    // Adds the rows of the start: the nodes, and then the starts of the hosts.
    fn start<N: Node + fmt::Debug>(&mut self, world: &World<N>) -> Result<(), NoMemory> {
        for host in 0..world.hosts() {
            self.host(world, host)?;
        }
        for host in 0..world.hosts() {
            self.add("start", &[u64::from(host), u64::from(host), 0])?;
        }
        Ok(())
    }

    // Adds the rows of a host that booted, in the world after that: its node and its start.
    fn boot<N: Node + fmt::Debug>(&mut self, world: &World<N>, host: u16) -> Result<(), NoMemory> {
        self.host(world, host)?;
        let serial = world.next_serial().saturating_sub(1);
        self.add("start", &[u64::from(host), serial, world.clock()])
    }

    // Adds the row of a message that was sent, with what becomes of it.
    fn message(&mut self, to: u16, text: String, fate: Fate) -> Result<(), NoMemory> {
        let row = Row::new(self.alloc, sent_word(fate), &[u64::from(to)])?.text(text)?;
        match fate {
            Fate::Pending { due, serial } => self.push(row.number(serial)?.number(due)?),
            _ => self.push(row),
        }
    }

    // Adds the row of a write, with its bytes in hexadecimal.
    fn write(&mut self, offset: u32, bytes: &[u8], fate: Fate) -> Result<(), NoMemory> {
        let word = match fate {
            Fate::Skipped => "nowrite",
            _ => "write",
        };
        let hex = hex::encode(self.alloc, bytes)?;
        self.add_text(word, &[u64::from(offset)], hex)
    }

    // Adds the row of a timer, a sync or the end of a host's work, by what becomes of it.
    fn request(&mut self, fate: Fate) -> Result<(), NoMemory> {
        match fate {
            Fate::Pending { due, serial } => self.add("timer", &[serial, due]),
            Fate::Asked { due, serial, count } => {
                self.add("sync", &[serial, due, u64::from(count)])
            }
            _ => self.add("done", &[]),
        }
    }

    fn effect<M: fmt::Debug>(&mut self, told: &ToldEffect<M>) -> Result<(), NoMemory> {
        match told.effect() {
            Effect::Send { to, msg } => self.message(*to, shown(self.alloc, msg)?, told.fate()),
            Effect::Write { offset, len, bytes } => {
                let len = (*len as usize).min(bytes.len());
                self.write(*offset, &bytes[..len], told.fate())
            }
            _ => self.request(told.fate()),
        }
    }

    // Adds the rows of a reaction: the word, the node after it, and the effects.
    fn reaction<N: Node + fmt::Debug>(
        &mut self,
        host: u16,
        reaction: &Reaction<N>,
    ) -> Result<(), NoMemory>
    where
        N::Msg: fmt::Debug,
    {
        self.add("word", &[u64::from(reaction.word())])?;
        self.node(host, reaction.node())?;
        for effect in reaction.effects() {
            self.effect(effect)?;
        }
        Ok(())
    }

    // Adds the rows of a step: what happened, and then the reaction.
    fn step<N: Node + fmt::Debug>(&mut self, told: &Told<'_, N>) -> Result<(), NoMemory>
    where
        N::Msg: fmt::Debug,
    {
        let Some((due, serial, occurrence)) = told.world.first() else {
            return Ok(());
        };
        self.add("step", &[due, serial])?;
        match &told.reaction {
            Some(reaction) => self.reaction(occurrence.host(), reaction),
            None => Ok(()),
        }
    }

    // Adds the rows of a crash or a bounce: when and of which host it is, and what the host keeps
    // of each unstable write.
    fn crash(&mut self, word: &str, of: [u64; 2], tears: &[u32]) -> Result<(), NoMemory> {
        self.add(word, &of)?;
        for kept in tears {
            self.add("kept", &[u64::from(*kept)])?;
        }
        Ok(())
    }

    // Adds the rows of the directions that a fault names, with the messages that a release lets go.
    fn links<N: Node>(&mut self, world: &World<N>, fault: LinkFault) -> Result<(), NoMemory> {
        let LinkFault {
            from,
            to,
            change,
            ..
        } = fault;
        let ends = [world.clock(), u64::from(from), u64::from(to)];
        self.add(fault.word, &ends)?;
        let serial = self.direction(world, (from, to), change, world.next_serial())?;
        if fault.is_both {
            self.direction(world, (to, from), change, serial)?;
        }
        Ok(())
    }

    // Adds the row of a direction's state after a change, and those of the messages that are
    // released, with serials from `serial` on. Returns the serial after theirs.
    fn direction<N: Node>(
        &mut self,
        world: &World<N>,
        (from, to): (u16, u16),
        change: Change,
        serial: u64,
    ) -> Result<u64, NoMemory> {
        if from >= 32 || to >= 32 {
            return Ok(serial);
        }
        let state = world.link(from, to).after(change);
        self.link([u64::from(from), u64::from(to)], state)?;
        if state == LinkState::Through {
            self.freed(serial, world.held(from, to).len(), world.clock())
        } else {
            Ok(serial)
        }
    }

    // Adds the row of a direction's new state.
    fn link(&mut self, ends: [u64; 2], state: LinkState) -> Result<(), NoMemory> {
        let word = String::from_str(self.alloc, state_word(state))?;
        self.add_text("link", &ends, word)
    }

    // Adds the rows of messages of a direction that are released, with serials from `serial` on.
    // Returns the serial after theirs.
    fn freed(&mut self, serial: u64, count: usize, clock: u64) -> Result<u64, NoMemory> {
        let mut serial = serial;
        for _ in 0..count {
            self.add("freed", &[serial, clock])?;
            serial = serial.saturating_add(1);
        }
        Ok(serial)
    }

    // Adds the rows of a fault.
    fn fault<N: Node>(&mut self, told: &Told<'_, N>, fault: Fault) -> Result<(), NoMemory> {
        if let Some((word, host)) = host_fault(fault) {
            let of = [told.world.clock(), u64::from(host)];
            return self.crash(word, of, told.tears.as_slice());
        }
        match LinkFault::of(fault) {
            Some(fault) => self.links(told.world, fault),
            None => Ok(()),
        }
    }

    // Adds the rows of an event that was gathered.
    fn event<N: Node + fmt::Debug>(&mut self, told: &Told<'_, N>) -> Result<(), NoMemory>
    where
        N::Msg: fmt::Debug,
    {
        match told.event {
            Event::Step => self.step(told),
            Event::Advance(to) => self.add("advance", &[to]),
            Event::Fault(fault) => self.fault(told, fault),
        }
    }
}

// Returns a number in decimal, as a text.
fn decimal(alloc: Global, number: u64) -> Result<String, NoMemory> {
    format!(in alloc; "{number}")
}

// Returns the text of a message or a node.
fn shown<T: fmt::Debug>(alloc: Global, value: &T) -> Result<String, NoMemory> {
    format!(in alloc; "{value:?}")
}

// Returns the word of a message's row.
fn sent_word(fate: Fate) -> &'static str {
    match fate {
        Fate::Pending { .. } => "sent",
        Fate::Lost => "lost",
        Fate::Held => "held",
        Fate::Cut => "cut",
        Fate::Full | Fate::Added | Fate::Skipped | Fate::Asked { .. } | Fate::Done => "full",
    }
}

// Returns the state of a direction in a word.
fn state_word(state: LinkState) -> &'static str {
    match state {
        LinkState::Through => "open",
        LinkState::Held => "held",
        LinkState::Cut => "cut",
    }
}

// Returns rows as texts, each compact JSON.
fn texts(alloc: Global, rows: Vec<Value>) -> Result<Vec<String>, NoMemory> {
    let mut texts = Vec::new(alloc);
    for row in rows {
        texts.push(row.to_string(alloc)?)?;
    }
    Ok(texts)
}

// Returns the rows of `rows_before` as values.
pub(crate) fn values_before<N: Node + fmt::Debug>(
    alloc: Global,
    world: &World<N>,
    event: Event,
    meter: &mut N::Meter,
) -> Result<Vec<Value>, NoMemory>
where
    N::Msg: fmt::Debug,
{
    let told = Told::new(alloc, world, event, meter)?;
    let mut rows = Rows::new(alloc);
    rows.event(&told)?;
    Ok(rows.into_vec())
}

// Returns the rows of `rows_after` as values.
pub(crate) fn values_after<N: Node + fmt::Debug>(
    alloc: Global,
    event: Event,
    after: &World<N>,
) -> Result<Vec<Value>, NoMemory> {
    let mut rows = Rows::new(alloc);
    if let Event::Fault(Fault::Bounce(host)) = event {
        rows.boot(after, host)?;
    }
    Ok(rows.into_vec())
}

/// Returns the rows of an event, each as compact JSON: the event itself, and then its changes in
/// order, without those that [`rows_after`] adds. `world` is the world before it. Fails only for
/// want of memory.
pub fn rows_before<N: Node + fmt::Debug>(
    alloc: Global,
    world: &World<N>,
    event: Event,
    meter: &mut N::Meter,
) -> Result<Vec<String>, NoMemory>
where
    N::Msg: fmt::Debug,
{
    texts(alloc, values_before(alloc, world, event, meter)?)
}

/// Returns the rows that the world after an event adds, each as compact JSON: for a bounce, the
/// node that booted and its start. Fails only for want of memory.
pub fn rows_after<N: Node + fmt::Debug>(
    alloc: Global,
    event: Event,
    after: &World<N>,
) -> Result<Vec<String>, NoMemory> {
    texts(alloc, values_after(alloc, event, after)?)
}

/// Returns the rows before the first event, each as compact JSON: the node and the start of each
/// host. Fails only for want of memory.
pub fn first_rows<N: Node + fmt::Debug>(
    alloc: Global,
    world: &World<N>,
) -> Result<Vec<String>, NoMemory> {
    let mut rows = Rows::new(alloc);
    rows.start(world)?;
    texts(alloc, rows.into_vec())
}
