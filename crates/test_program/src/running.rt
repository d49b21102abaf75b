//! Carries out jobs over texts, for the protocols that ship.
ghost use Rattle.sim_job.specs.CommandLine.{HasFewWorkers};

use sim_job::request;
use sim_program::{Job, Status, perform};
use sim_shipped::Shipped;
use std::alloc::Global;
use std::io;
use std::io::{ErrorKind, Read};
use std::rt::Clock;
use std::sync::Wait;
use std::thread::Threads;

/// Gives a text, and then its end, or an error if `fails`.
#[derive(Drop)]
pub struct Text<'a> {
    pub rest: &'a [u8],
    pub fails: bool,
}

impl Read for Text<'_> {
    fn read(&mut self, buf: &mut [u8]) -> io::Result<usize> {
        if self.fails && self.rest.is_empty() {
            return Err(io::Error::from(ErrorKind::Other));
        }
        self.rest.read(buf)
    }
}

/// Returns the status and the output of a job over what a reader gives. All tests call `perform`
/// here: the prover takes long for each call of it over the protocols that ship.
pub fn performed_over<R: Threads + Wait + Sync + Clock + Eprint>(
    rt: &R,
    alloc: Global,
    job: &Job<'_>,
    reader: &mut Text<'_>,
) -> (Status, Vec<u8>)
    requires { HasFewWorkers job.now }
{
    let mut written = Vec::new(alloc);
    let ended = perform::<Shipped, R, _, _>(rt, alloc, job, reader, &mut written);
    (ended, written)
}

/// Returns the status and the output of a job over an input.
pub fn performed<R: Threads + Wait + Sync + Clock + Eprint>(
    rt: &R,
    alloc: Global,
    job: &Job<'_>,
    input: &str,
) -> (Status, Vec<u8>)
    requires { HasFewWorkers job.now }
{
    let mut reader = Text {
        rest: input.as_bytes(),
        fails: false,
    };
    performed_over(rt, alloc, job, &mut reader)
}

/// Returns whether the words over an input give this exit status and this output.
pub fn gives<R: Threads + Wait + Sync + Clock + Eprint>(
    rt: &R,
    alloc: Global,
    words: &[&str],
    input: &str,
    (status, output): (&str, &str),
) -> bool {
    let Ok(asked) = request(alloc, words) else {
        return false;
    };
    let (ended, written) = performed(rt, alloc, &asked.job, input);
    status.parse::<u8>() == Ok(ended.number()) && written.as_slice() == output.as_bytes()
}
