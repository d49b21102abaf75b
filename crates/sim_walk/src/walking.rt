//! Reads a scenario and a script, and then answers commands one after the other.
ghost use Rattle.std.specs.Prelude.{◌≡◌, ◌<◌, ◌≤◌, ◌++◌, ℕ, List, Some, length};
ghost use Rattle.std.specs.Io.KnownBytes.{Appends};
ghost use Rattle.sim_world.specs.Events.{rules};
ghost use Rattle.sim_lines.specs.Waiting.{budget};
ghost use Rattle.sim_cli.specs.Turns.{course_of};
ghost use Rattle.sim_walk.specs.Growth.{Grows};
ghost use Rattle.sim_walk.specs.Walks.{CarriesOut, account_text, text_of};

use crate::account::Account;
use crate::desk::{Answer, Desk};
use sim_book::Book;
use sim_cli::{
    Answered, FreshMeter, Opened, ScriptStop, Status, Subjects, Task, follow, open, tell_fault,
    write_text,
};
use sim_inspect::{kept_of, whereabouts};
use sim_lines::{Ahead, Next, NextLine, next_byte, next_line};
use sim_node::{NoMemory, Node};
use sim_orders::{Order, Request, order_of};
use std::alloc::Global;
use std::fmt::Debug;
use std::io::{Read, Write};

/// How a walk is shown.
#[derive(Clone, Copy)]
pub struct Style {
    /// Whether a prompt is written before each command is read, as for a terminal. If not, each
    /// command is written before its answer.
    pub is_prompted: bool,
}

// A walk: its book, its branch, and the line that an empty one repeats.
#[derive(Drop)]
struct Walker<'a, N: Node> {
    desk: Desk<'a>,
    style: Style,
    book: Book<N>,
    branch: u32,
    last: Vec<u8>,
}

// How a line ended.
#[derive(Clone, Copy)]
enum Turned {
    On,
    /// The walk is over.
    Ended(Status),
}

// Writes a text.
fn say<W: Write>(writer: &mut W, text: &[u8]) -> Turned
    ensures grows { Grows (W.contents writer.old) (W.contents writer.new) }
    ensures on { result ≡ Turned.On → Appends (W.contents writer.old)
        (W.contents writer.new) text.now }
{
    match write_text(writer, text) {
        Answered::Well => Turned::On,
        Answered::WriterFailed => Turned::Ended(Status::WriterFailed),
        Answered::MemoryWanted => Turned::Ended(Status::MemoryWanted),
    }
}

impl<N: Node<Meter: FreshMeter> + Debug> Walker<'_, N>
where
    N::Msg: Debug,
{
    // Returns the prompt: the branch, its place, of how many events unless that is the end, and the
    // clock.
    fn prompt_text(&self) -> Result<String, NoMemory> {
        let (alloc, branch) = (self.desk.alloc, self.branch);
        let kept = kept_of(alloc, &self.book, branch)?;
        match whereabouts(alloc, &self.book, branch)? {
            Some((place, clock)) if place < kept => {
                format!(in alloc; "{branch} @ {place} of {kept}, {clock} ms> ")
            }
            Some((place, clock)) => format!(in alloc; "{branch} @ {place}, {clock} ms> "),
            None => format!(in alloc; "{branch}> "),
        }
    }

    // Writes the prompt, if the style has one.
    fn prompt<W: Write>(&self, writer: &mut W) -> Turned
        ensures { Grows (W.contents writer.old) (W.contents writer.new) }
    {
        if !self.style.is_prompted {
            return Turned::On;
        }
        match self.prompt_text() {
            Ok(text) => say(writer, text.as_bytes()),
            Err(_) => say(writer, b"> "),
        }
    }

    // Writes the opening of a walk, on a terminal.
    fn greet<W: Write>(&self, writer: &mut W) -> Turned
        ensures { Grows (W.contents writer.old) (W.contents writer.new) }
    {
        if !self.style.is_prompted {
            return Turned::On;
        }
        say(writer, b"`help` lists the commands.\n")
    }

    // Writes the end of the walk: on a terminal, the end of the line of the last prompt.
    fn end<W: Write>(&self, writer: &mut W) -> Status
        ensures { Grows (W.contents writer.old) (W.contents writer.new) }
    {
        if !self.style.is_prompted {
            return Status::Well;
        }
        match say(writer, b"\n") {
            Turned::On => Status::Well,
            Turned::Ended(status) => status,
        }
    }

    // Keeps a line for repetition; an empty line becomes the last one.
    fn line_or_last(&mut self, line: &mut Vec<u8>) -> Result<(), NoMemory> {
        if line.is_empty() {
            return line.extend_from_slice(self.last.as_slice());
        }
        self.last.clear();
        self.last.extend_from_slice(line.as_slice())
    }

    // Writes a command before its answer, if the style has no prompt.
    fn echo<W: Write>(&self, line: &[u8], writer: &mut W) -> Turned
        ensures { Grows (W.contents writer.old) (W.contents writer.new) }
    {
        if self.style.is_prompted {
            return Turned::On;
        }
        match self.echo_text(line) {
            Ok(text) => say(writer, text.as_slice()),
            Err(_) => say(writer, b">\n"),
        }
    }

    fn echo_text(&self, line: &[u8]) -> Result<Vec<u8>, NoMemory> {
        let mut text = Vec::new(self.desk.alloc);
        text.extend_from_slice(b"> ")?;
        text.extend_from_slice(line)?;
        text.push(b'\n')?;
        Ok(text)
    }

    // Returns the request of a line, or the words that say why it makes none.
    fn request(&self, line: &[u8]) -> Result<Request, String> {
        let desk = &self.desk;
        match order_of(desk.alloc, &desk.opened.names, self.branch, line) {
            Ok(request) => Ok(request),
            Err(error) => {
                let mut said = String::new(desk.alloc);
                let _told = desk.known(N::PROBES).tell_error(line, error, &mut said);
                Err(said)
            }
        }
    }

    // Carries out a request, and writes the answer.
    fn carry_out<W: Write>(&mut self, request: Request, writer: &mut W) -> Turned
        ensures grows { Grows (W.contents writer.old) (W.contents writer.new) }
        ensures carries { CarriesOut (rules N.laws N.PROBES self.old.book.scenario)
            self.old.desk.opened.now.names (course_of self.old.book) (course_of self.new.book)
            request.branch request.order
            (W.contents writer.old) (W.contents writer.new) result }
    {
        match &request.order {
            Order::Quit => return Turned::Ended(Status::Well),
            Order::Branch if self.book.warm(request.branch).is_some() => {
                self.branch = request.branch;
            }
            _ => {}
        }
        match self.desk.answer(&mut self.book, request) {
            Ok(answer) => write_answer(&answer, writer),
            Err(_) => say(writer, b"there was not enough memory\n"),
        }
    }

    // Answers a line; an empty line repeats the last one.
    fn answer<W: Write>(&mut self, line: &mut Vec<u8>, writer: &mut W) -> Turned
        ensures { Grows (W.contents writer.old) (W.contents writer.new) }
    {
        if self.line_or_last(line).is_err() {
            return Turned::Ended(Status::MemoryWanted);
        }
        let line = line.as_slice();
        match self.echo(line, writer) {
            Turned::On => {}
            Turned::Ended(status) => return Turned::Ended(status),
        }
        match self.request(line) {
            Ok(request) => self.carry_out(request, writer),
            Err(said) => say(writer, said.as_bytes()),
        }
    }
}

// Writes the reply of a turn, and then the account.
fn write_answer<W: Write>(answer: &Answer, writer: &mut W) -> Turned
    ensures grows { Grows (W.contents writer.old) (W.contents writer.new) }
    ensures on { result ≡ Turned.On → Appends (W.contents writer.old) (W.contents writer.new)
        (text_of answer.now) }
{
    match say(writer, answer.reply.as_slice()) {
        Turned::On => write_account(&answer.account, writer),
        Turned::Ended(status) => Turned::Ended(status),
    }
}

// Writes the lines of an account between its words.
fn write_account<W: Write>(account: &Account, writer: &mut W) -> Turned
    ensures grows { Grows (W.contents writer.old) (W.contents writer.new) }
    ensures on { result ≡ Turned.On → Appends (W.contents writer.old) (W.contents writer.new)
        (account_text account.now) }
{
    match say(writer, account.lead.as_bytes()) {
        Turned::On => {}
        Turned::Ended(status) => return Turned::Ended(status),
    }
    match say(writer, account.told.as_slice()) {
        Turned::On => say(writer, account.said.as_bytes()),
        Turned::Ended(status) => Turned::Ended(status),
    }
}

// Answers the next line, or ends the walk.
fn walk_line<N: Node<Meter: FreshMeter> + Debug, R: Read, W: Write>(
    walk: &mut Walker<'_, N>,
    reader: &mut R,
    ahead: &mut Ahead,
    line: &mut Vec<u8>,
    writer: &mut W,
) -> Turned
where
    N::Msg: Debug,
    ensures grows { Grows (W.contents writer.old) (W.contents writer.new) }
    ensures spends { result ≡ Turned.On → budget ahead.new < budget ahead.old }
{
    match walk.prompt(writer) {
        Turned::On => {}
        Turned::Ended(status) => return Turned::Ended(status),
    }
    match next_line(reader, ahead, line) {
        NextLine::Line => walk.answer(line, writer),
        NextLine::Last => match walk.answer(line, writer) {
            Turned::On => Turned::Ended(walk.end(writer)),
            Turned::Ended(status) => Turned::Ended(status),
        },
        NextLine::End => Turned::Ended(walk.end(writer)),
        NextLine::Failed => Turned::Ended(Status::ReaderFailed),
        NextLine::NoMemory => Turned::Ended(Status::MemoryWanted),
    }
}

// Answers the lines of commands up to the end of the reader.
fn walk_lines<N: Node<Meter: FreshMeter> + Debug, R: Read, W: Write>(
    walk: &mut Walker<'_, N>,
    reader: &mut R,
    ahead: &mut Ahead,
    writer: &mut W,
) -> Status
where
    N::Msg: Debug,
    ensures { Grows (W.contents writer.old) (W.contents writer.new) }
{
    let mut line = Vec::new(walk.desk.alloc);
    match walk.greet(writer) {
        Turned::On => {}
        Turned::Ended(status) => return status,
    }
    loop {
        match walk_line(walk, reader, ahead, &mut line, writer) {
            Turned::On => {}
            Turned::Ended(status) => return status,
        }
    }
}

// The task to walk the run of a script, by commands.
#[derive(Drop)]
struct Walking<'a, H: Eprint> {
    alloc: Global,
    host: &'a H,
    style: Style,
    script: &'a [u8],
}

impl<'a, H: Eprint> Walking<'a, H> {
    // Carries out the script and returns the book that it leaves. Reports the first line at fault,
    // if any, on standard error, and then fails with `BadRequest`.
    fn book<N: Node<Meter: FreshMeter>>(&self, opened: &Opened) -> Result<Book<N>, Status> {
        let alloc = self.alloc;
        let Ok(mut book) = Book::<N>::new(alloc, &opened.scenario, N::Meter::fresh()) else {
            return Err(Status::MemoryWanted);
        };
        let mut script = self.script;
        let mut ahead = Ahead::new();
        match follow(
            alloc,
            &mut book,
            &opened.names,
            &mut script,
            &mut ahead,
            true,
        ) {
            Ok(()) => Ok(book),
            Err(ScriptStop::Ended(status)) => Err(status),
            Err(ScriptStop::Fault(fault)) => {
                tell_fault(self.host, opened, &fault);
                Err(Status::BadRequest)
            }
        }
    }
}

impl<'a, H: Eprint> Task for Walking<'a, H> {
    ghost can = { λ _. Unit {0} };

    ghost does = { λ _ _ _ old new _. Grows old.held new.held };

    fn carry_out<N: Node<Meter: FreshMeter> + Send + Sync + Debug, R: Read, W: Write>(
        &self,
        opened: &Opened,
        reader: &mut R,
        ahead: &mut Ahead,
        writer: &mut W,
    ) -> Status
    where
        N::Msg: Send + Sync + Debug,
        N::Undo: Send + Sync,
    {
        let book = match self.book::<N>(opened) {
            Ok(book) => book,
            Err(status) => return status,
        };
        let alloc = self.alloc;
        let mut walk = Walker {
            desk: Desk { alloc, opened },
            style: self.style,
            book,
            branch: 0,
            last: Vec::new(alloc),
        };
        walk_lines(&mut walk, reader, ahead, writer)
    }
}

// Returns all bytes that a reader has left.
fn rest_of<F: Read>(alloc: Global, reader: &mut F, ahead: &mut Ahead) -> Result<Vec<u8>, Status> {
    let mut script = Vec::new(alloc);
    loop {
        match next_byte(reader, ahead) {
            Next::Byte(byte) => {
                if script.push(byte).is_err() {
                    return Err(Status::MemoryWanted);
                }
            }
            Next::End => return Ok(script),
            Next::Failed => return Err(Status::ReaderFailed),
        }
    }
}

/// Walks a run: reads a scenario and, after a line `---`, a script; carries the script out; and
/// then answers commands, a line each, up to their end.
///
/// If a line of the script is no command, or its command is refused or not taken, reports that on
/// standard error and ends with status 2. There are at most 255 subjects.
pub fn walk<L: Subjects, H: Eprint, F: Read, R: Read, W: Write>(
    host: &H,
    alloc: Global,
    input: &mut F,
    style: Style,
    commands: &mut R,
    writer: &mut W,
) -> Status
    requires few { length L.listed ≤ 255 }
    ensures { (given : List ℕ) → F.remaining input.old ≡ Some given →
        Grows (W.contents writer.old) (W.contents writer.new) }
{
    let mut ahead = Ahead::new();
    let opened = match open::<L, H, F, W>(host, alloc, input, &mut ahead, writer) {
        Ok(opened) => opened,
        Err(status) => return status,
    };
    let script = match rest_of(alloc, input, &mut ahead) {
        Ok(script) => script,
        Err(status) => return status,
    };
    let task = Walking {
        alloc,
        host,
        style,
        script: script.as_slice(),
    };
    let mut typed = Ahead::new();
    L::carry_out(
        opened.protocol,
        &task,
        &opened,
        commands,
        &mut typed,
        writer,
    )
}
