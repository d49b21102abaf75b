//! The whole of a program: its command line, its input and its standard output.
ghost use Rattle.std.specs.Prelude.{◌≤◌, length};
ghost use Rattle.sim_job.specs.CommandLine.{HasFewWorkers};

use crate::performing::perform;
use either::Either;
use sim_cli::{Status, Subjects};
use sim_hunt::Searchable;
use sim_job::{Job, LineError, Request, request};
use sim_walk::{Style, walk};
use std::fs::File;
use std::io::{IsTerminal, Read};
use std::rt::{Clock, Env, Files};
use std::sync::Wait;
use std::thread::Threads;
use std::{env, io};

// An input file, and the error of the last read that failed.
#[derive(Drop)]
struct InputFile<F: Read + Drop> {
    file: F,
    fault: Option<io::Error>,
}

impl<F: Read + Drop> Read for InputFile<F> {
    ghost remaining = { λ input. F.remaining input.file };

    fn read(&mut self, buf: &mut [u8]) -> io::Result<usize> {
        match self.file.read(buf) {
            Ok(count) => Ok(count),
            Err(fault) => {
                let kind = fault.kind();
                self.fault = Some(fault);
                Err(io::Error::from(kind))
            }
        }
    }
}

// Returns the words of the command line; the first names the program.
fn words<R: Env + AllocGlobal>(rt: &R) -> io::Result<Vec<String>> {
    let mut words = Vec::new(rt.alloc());
    for word in env::args(rt)? {
        words.push(word)?;
    }
    Ok(words)
}

// Prints why there is no job: help on the standard output, a mistake on standard error. Ignores a
// failure of either. Returns the exit status.
fn tell<R: Print + Eprint>(rt: &R, fault: &LineError) -> u8 {
    let _told = match fault {
        LineError::Help(text) => print!(rt; "{text}"),
        LineError::Usage(text) => eprint!(rt; "{text}"),
        LineError::NoMemory => Ok(()),
    };
    fault.status()
}

// Reports that a file cannot be read, and why.
fn tell_unread<R: Eprint>(rt: &R, name: &str, fault: &io::Error) {
    let _told = eprintln!(rt; "error: cannot read {name:?}: {fault}");
}

// Opens the file of this name. If it cannot be opened, reports that.
fn opened<R: Files + Eprint>(rt: &R, name: &str) -> Result<InputFile<R::File>, Status> {
    match File::open(rt, name) {
        Ok(file) => Ok(InputFile { file, fault: None }),
        Err(fault) => {
            tell_unread(rt, name, &fault);
            Err(Status::ReaderFailed)
        }
    }
}

// Reports why the file of this name could not be read to its end, if it could not.
fn tell_fault<R: Eprint, F: Read + Drop>(rt: &R, name: &str, input: &InputFile<F>, ended: Status) {
    if let Some(fault) = &input.fault {
        if ended == Status::ReaderFailed {
            tell_unread(rt, name, fault);
        }
    }
}

// What a job reads: a file, or the standard input.
type Source<R> = Either<InputFile<<R as Files>::File>, <R as Input>::Reader>;

// Returns the file of this name, or the standard input if there is no name. Says on standard error
// if that is a terminal: a word that was meant as the file may have been taken for another, and the
// program would wait in silence.
fn source<R: Files + Input + Eprint>(rt: &R, name: Option<&str>) -> Result<Source<R>, Status>
where
    R::Reader: IsTerminal,
{
    if let Some(name) = name {
        return Ok(Either::Left(opened(rt, name)?));
    }
    let reader = rt.reader();
    if reader.is_terminal() {
        let _told = eprintln!(rt;
            "reading the input from the terminal; to read a file, give its name as the last word"
        );
    }
    Ok(Either::Right(reader))
}

// Carries out a job over the file of this name, or over the standard input. All jobs but walks read
// one type, so that the code of a job is proved and compiled once.
fn run_job<
    L: Searchable,
    R: Threads + Wait + Sync + Clock + Files + Input + Print + Eprint + AllocGlobal,
>(rt: &R, job: &Job<'_>, name: Option<&str>) -> Status
where
    R::Reader: IsTerminal,
    requires workers { HasFewWorkers job.now }
    requires few { length L.listed ≤ 8 }
{
    let mut source = match source(rt, name) {
        Ok(source) => source,
        Err(status) => return status,
    };
    let mut writer = io::writer(rt);
    let ended = perform::<L, R, _, _>(rt, rt.alloc(), job, &mut source, &mut writer);
    if let (Some(name), Either::Left(input)) = (name, &source) {
        tell_fault(rt, name, input, ended);
    }
    ended
}

// Walks over the file of this name, by commands on the standard input.
fn walk_file<L: Subjects, R: Files + Input + Print + Eprint + AllocGlobal>(
    rt: &R,
    name: &str,
) -> Status
where
    R::Reader: IsTerminal,
    requires few { length L.listed ≤ 8 }
{
    let mut input = match opened(rt, name) {
        Ok(input) => input,
        Err(status) => return status,
    };
    let mut commands = rt.reader();
    let style = Style {
        is_prompted: commands.is_terminal(),
    };
    let mut writer = io::writer(rt);
    let alloc = rt.alloc();
    let ended = walk::<L, R, _, _, _>(rt, alloc, &mut input, style, &mut commands, &mut writer);
    tell_fault(rt, name, &input, ended);
    ended
}

// Returns the exit status where the words of the command line cannot be read.
fn status_of(fault: &io::Error) -> u8 {
    match fault.kind() {
        io::ErrorKind::OutOfMemory => Status::MemoryWanted.number(),
        _ => Status::BadRequest.number(),
    }
}

/// Carries out the request of the command line, for a list of at most eight protocols, over the
/// file that it names, or the standard input, and the standard output. If the file cannot be opened
/// or read, reports its name and the reason on standard error. Returns the exit status, 0 to 4. It
/// is all that a `main` does.
pub fn run<
    L: Searchable,
    R: Threads + Wait + Sync + Clock + Env + Files + Input + Print + Eprint + AllocGlobal,
>(rt: &R) -> u8
where
    R::Reader: IsTerminal,
    requires few { length L.listed ≤ 8 }
{
    let words = match words(rt) {
        Ok(words) => words,
        Err(fault) => return status_of(&fault),
    };
    let Request { job, file } = match request(rt.alloc(), &words) {
        Ok(asked) => asked,
        Err(fault) => return tell(rt, &fault),
    };
    let ended = match (job, file) {
        (Job::Walk, Some(name)) => walk_file::<L, R>(rt, name),
        (job, name) => run_job::<L, R>(rt, &job, name),
    };
    ended.number()
}
