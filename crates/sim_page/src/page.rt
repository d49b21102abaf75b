//! Writes a page, event by event.
ghost use Rattle.std.specs.List.{list_all};
ghost use Rattle.std.specs.Prelude.{◌==◌, not, IsTrue};

use crate::data::{Data, number, string};
use crate::template::{AFTER, BEFORE};
use serde_json::Value;
use sim_cli::{FreshMeter, Opened};
use sim_export::{InputError, input_of};
use sim_log::{first_rows, rows_after, rows_before};
use sim_node::{NoMemory, Node};
use sim_tape::{EventList, Frozen, Tape};
use sim_watch::{Cond, holds};
use sim_world::{Event, World};
use std::alloc::Global;
use std::fmt::Debug;
use std::mem;

/// A condition that a page watches.
#[derive(Drop)]
pub(crate) struct Watched<'a> {
    /// Its words, as they were given, without the spaces around them.
    pub words: &'a str,
    pub cond: Cond,
    /// For each place so far, 1 if it holds there, else 0.
    pub holding: Vec<Value>,
}

/// What a page shows beside the run.
#[derive(Drop)]
pub(crate) struct Frame<'a> {
    pub alloc: Global,
    /// The heading.
    pub title: &'a str,
    pub opened: &'a Opened,
}

// Adds a member, and drops its value.
fn add(data: &mut Data, name: &str, value: Result<Value, NoMemory>) -> Result<(), NoMemory>
    requires { IsTrue (list_all (λ b. not (b == 60)) name.now) }
{
    data.member(name, &value?)
}

impl Frame<'_> {
    fn about(&self) -> Result<Value, NoMemory> {
        let mut about = Vec::new(self.alloc);
        about.push(string(self.alloc, "seed")?)?;
        let seed = hex::encode(self.alloc, self.opened.seed)?;
        about.push(Value::String(seed))?;
        Ok(Value::Array(about))
    }

    // Returns the input that makes the events of the run, or an empty text if no line of a script
    // makes one of them.
    fn input(&self, events: &EventList) -> Result<Value, NoMemory> {
        let mut listed = Vec::new(self.alloc);
        for place in 0..events.len() {
            if let Some(event) = events.get(place) {
                listed.push(event)?;
            }
        }
        let Ok(text) = str::from_utf8(self.opened.text.as_slice()) else {
            return string(self.alloc, "");
        };
        match input_of(self.alloc, text, &self.opened.names, listed.as_slice()) {
            Ok(input) => Ok(Value::String(input)),
            Err(InputError::NoInput) => string(self.alloc, ""),
            Err(InputError::NoMemory) => Err(NoMemory),
        }
    }

    fn hosts(&self) -> Result<Value, NoMemory> {
        let mut names = Vec::new(self.alloc);
        for host in 0..self.opened.scenario.hosts() {
            names.push(string(self.alloc, self.opened.names.host_name(host))?)?;
        }
        Ok(Value::Array(names))
    }

    fn probes(&self, count: u8) -> Result<Value, NoMemory> {
        let mut names = Vec::new(self.alloc);
        for probe in 0..count {
            names.push(string(self.alloc, self.opened.names.probe_name(probe))?)?;
        }
        Ok(Value::Array(names))
    }

    // Writes the members before the rows.
    fn head(&self, data: &mut Data, events: &EventList, probes: u8) -> Result<(), NoMemory> {
        data.put("{\"format\":1")?;
        add(data, "title", string(self.alloc, self.title))?;
        add(data, "about", self.about())?;
        add(data, "input", self.input(events))?;
        add(data, "hosts", self.hosts())?;
        let servers = number(u64::from(self.opened.scenario.servers()));
        add(data, "servers", Ok(servers))?;
        add(data, "probes", self.probes(probes))?;
        data.put(",\n\"log\":[\n")
    }
}

/// The rows of a run, and whether each condition holds, collected as the run is walked.
#[derive(Drop)]
struct Rows<'a, N: Node> {
    alloc: Global,
    data: Data,
    // It is at the place before the event whose rows come next.
    tape: Tape<N>,
    meter: N::Meter,
    watched: Vec<Watched<'a>>,
}

impl<N: Node<Meter: FreshMeter> + Debug> Rows<'_, N>
where
    N::Msg: Debug,
{
    // Adds the rows before the first event. There is a host, so there is a first row.
    fn start(&mut self) -> Result<(), NoMemory> {
        self.tape.make_warm(self.alloc, &mut self.meter)?;
        let rows = first_rows(self.alloc, self.tape.here())?;
        if let [first, others @ ..] = rows.as_slice() {
            self.data.json(first.as_str())?;
            self.data.more_rows(others)?;
        }
        self.note_holding()
    }

    // Adds the rows of the next event, and walks the tape past it.
    fn event(&mut self, event: Event) -> Result<(), NoMemory> {
        let alloc = self.alloc;
        self.tape.make_warm(alloc, &mut self.meter)?;
        let rows = rows_before(alloc, self.tape.here(), event, &mut self.meter)?;
        self.data.more_rows(rows.as_slice())?;
        if self.tape.place() < self.tape.len() {
            self.tape.forward(alloc, 1, &mut self.meter)?;
        }
        self.tape.make_warm(alloc, &mut self.meter)?;
        let rows = rows_after(alloc, event, self.tape.here())?;
        self.data.more_rows(rows.as_slice())?;
        self.note_holding()
    }

    // Notes for each condition whether it holds in the tape's world.
    fn note_holding(&mut self) -> Result<(), NoMemory> {
        self.tape.make_warm(self.alloc, &mut self.meter)?;
        let world = self.tape.here();
        for watched in self.watched.iter_mut() {
            let is_held = is_held(&watched.cond, world);
            watched.holding.push(number(u64::from(is_held)))?;
        }
        Ok(())
    }

    // Writes the members after the rows.
    fn end(&mut self) -> Result<(), NoMemory> {
        self.data.put("\n]")?;
        let conditions = words_of(self.alloc, self.watched.as_slice());
        add(&mut self.data, "conditions", conditions)?;
        let holds = holding_of(self.alloc, self.watched.as_mut_slice());
        add(&mut self.data, "holds", holds)?;
        self.data.put("\n}\n")
    }

    // Returns the page of the run.
    fn page(&mut self, frame: &Frame<'_>, events: &EventList) -> Result<Vec<u8>, NoMemory> {
        frame.head(&mut self.data, events, N::PROBES)?;
        self.start()?;
        for place in 0..events.len() {
            if let Some(event) = events.get(place) {
                self.event(event)?;
            }
        }
        self.end()?;
        in_page(&self.data)
    }
}

// Returns the words of conditions.
fn words_of(alloc: Global, watched: &[Watched<'_>]) -> Result<Value, NoMemory> {
    let mut words = Vec::new(alloc);
    for watched in watched {
        words.push(string(alloc, watched.words)?)?;
    }
    Ok(Value::Array(words))
}

// Takes from each condition whether it holds at each place.
fn holding_of(alloc: Global, watched: &mut [Watched<'_>]) -> Result<Value, NoMemory> {
    let mut holds = Vec::new(alloc);
    for watched in watched {
        let holding = mem::replace(&mut watched.holding, Vec::new(alloc));
        holds.push(Value::Array(holding))?;
    }
    Ok(Value::Array(holds))
}

// Returns whether a condition holds in a world. If it names a host or a probe that does not exist,
// it does not hold.
fn is_held<N: Node>(cond: &Cond, world: &World<N>) -> bool {
    match cond.check(world.hosts(), N::PROBES) {
        Ok(()) => holds(cond, world),
        Err(_) => false,
    }
}

// Puts data into the text of the page. It does nothing else: a proof carries the long text through
// each block of the function that names it.
fn in_page(data: &Data) -> Result<Vec<u8>, NoMemory> {
    data.between(BEFORE, AFTER)
}

/// Returns the page of a run. Fails only for want of memory.
pub(crate) fn page_of<N: Node<Meter: FreshMeter> + Debug>(
    frame: &Frame<'_>,
    run: &Frozen<N>,
    watched: Vec<Watched<'_>>,
) -> Result<Vec<u8>, NoMemory>
where
    N::Msg: Debug,
{
    let mut meter = N::Meter::fresh();
    let tape = run.tape(frame.alloc, 0, &mut meter)?;
    let mut rows = Rows {
        alloc: frame.alloc,
        data: Data::new(frame.alloc),
        tape,
        meter,
        watched,
    };
    rows.page(frame, run.events())
}
