//! Commands on the branches of a run, as data.
ghost use Rattle.std.specs.Prelude.{◌≡◌, MatchOption, IfOk, OnErr, true, false};
ghost use Rattle.sim_watch.specs.Commands.{branch_of, is_watch, makes_branch};

use crate::SharedCond;
use sim_node::NoMemory;
use sim_world::{Fault, Query};

/// A command. Its first number is that of the branch.
#[derive(Drop)]
pub enum Command {
    /// Adds a step.
    Step(u32),
    /// Adds the steps that are due up to one tick after the clock, and then an advance to that
    /// time: the first 1,024 of these events, and no more than the branch has room for.
    Tick(u32),
    /// Adds at most this many steps, until it has to stop.
    Run(u32, u32),
    /// Adds a fault.
    Fault(u32, Fault),
    /// Goes back by this many events.
    Back(u32, u32),
    /// Goes forward by this many events.
    Forward(u32, u32),
    /// Goes to a place.
    Goto(u32, u32),
    /// Goes back by at most this many events, until a watch fails.
    Rewind(u32, u32),
    /// Drops the events past the place.
    Cut(u32),
    /// Makes a branch of this many first events, with its place at their end and without watches.
    Branch(u32, u32),
    /// Keeps a condition, under the lowest free number.
    Watch(u32, SharedCond),
    /// Drops a condition.
    Unwatch(u32, u32),
    /// Replies with a view of the world at the place.
    Look(u32, Query),
    /// Replies with all kept events.
    Freeze(u32),
}

impl Command {
    /// Returns the number of the command's branch.
    pub fn branch(&self) -> u32
        ensures { result ≡ branch_of self.now }
    {
        match self {
            Command::Step(b) => *b,
            Command::Tick(b) => *b,
            Command::Run(b, _) => *b,
            Command::Fault(b, _) => *b,
            Command::Back(b, _) => *b,
            Command::Forward(b, _) => *b,
            Command::Goto(b, _) => *b,
            Command::Rewind(b, _) => *b,
            Command::Cut(b) => *b,
            Command::Branch(b, _) => *b,
            Command::Watch(b, _) => *b,
            Command::Unwatch(b, _) => *b,
            Command::Look(b, _) => *b,
            Command::Freeze(b) => *b,
        }
    }

    /// Returns the place of the branch that the command makes, if it makes one.
    pub fn made_at(&self) -> Option<u32>
        ensures { MatchOption result (makes_branch self.now ≡ false) (λ p.
            self.now ≡ Command.Branch (branch_of self.now) p) }
    {
        match self {
            Command::Branch(_, p) => Some(*p),
            _ => None,
        }
    }

    /// Returns an equal command, which shares the condition. Fails only for a watch, and only for
    /// want of memory.
    pub fn copy(&self) -> Result<Command, NoMemory>
        ensures equal { IfOk result (λ c. c ≡ self.now) }
        ensures fails { OnErr result (is_watch self.now ≡ true) }
    {
        Ok(match self {
            Command::Step(b) => Command::Step(*b),
            Command::Tick(b) => Command::Tick(*b),
            Command::Run(b, n) => Command::Run(*b, *n),
            Command::Fault(b, f) => Command::Fault(*b, *f),
            Command::Back(b, n) => Command::Back(*b, *n),
            Command::Forward(b, n) => Command::Forward(*b, *n),
            Command::Goto(b, p) => Command::Goto(*b, *p),
            Command::Rewind(b, n) => Command::Rewind(*b, *n),
            Command::Cut(b) => Command::Cut(*b),
            Command::Branch(b, p) => Command::Branch(*b, *p),
            Command::Watch(b, c) => Command::Watch(*b, c.share()?),
            Command::Unwatch(b, w) => Command::Unwatch(*b, *w),
            Command::Look(b, q) => Command::Look(*b, *q),
            Command::Freeze(b) => Command::Freeze(*b),
        })
    }
}
