//! The command that a line gives.
ghost use Rattle.std.specs.Prelude.{◌≡◌, [], IfOk};
ghost use Rattle.std.specs.Option.{unwrap_or};
ghost use Rattle.sim_script.specs.Words.{words};
ghost use Rattle.sim_script.specs.Conditions.{condition};

use crate::condition::condition_of;
use crate::names::Names;
use sim_node::NoMemory;
use sim_watch::{Command, Cond, SharedCond};
use std::alloc::Global;
use std::marker::Model;

/// What the words of a command mean. It is small: the condition of a watch is still its text, since
/// a condition takes hundreds of bytes, which each call would move.
#[derive(Drop)]
pub(crate) enum Parsed<'a> {
    /// Any command but a watch.
    Plain(Command),
    /// A watch, with its branch and the text of its condition.
    Watch(u32, &'a [u8]),
}

/// A command as a line gives it; its condition is still a text of the line. Contracts see the
/// command.
#[derive(Drop)]
pub struct Ask<'a> {
    pub(crate) names: &'a Names,
    pub(crate) parsed: Parsed<'a>,
}

/// Returns the condition that a text writes, in its own memory. Fails only for want of memory.
fn shared_condition(alloc: Global, names: &Names, text: &[u8]) -> Result<SharedCond, NoMemory>
    ensures { IfOk result (λ c. c ≡ unwrap_or (condition names.now (words text.now)) []) }
{
    match condition_of(names, text) {
        Some(cond) => SharedCond::new(alloc, cond),
        // No line gives such a text.
        None => SharedCond::new(alloc, Cond::new()),
    }
}

impl<'a> Model for Ask<'a> {
    ghost use Rattle.sim_watch.specs.declared.command.Command.{Command};

    ghost Value = { Command };

    ghost use Rattle.sim_script.specs.Asks.{command_in};

    ghost view = { λ ask. command_in ask.names.now ask.parsed };
}

impl<'a> Ask<'a> {
    /// Returns the command. Fails only for want of memory for a condition.
    #[inline]
    pub fn into_command(self, alloc: Global) -> Result<Command, NoMemory>
        ensures { IfOk result (λ c. c ≡ self.entry) }
    {
        let Ask { names, parsed } = self;
        match parsed {
            Parsed::Plain(command) => Ok(command),
            Parsed::Watch(branch, text) => {
                Ok(Command::Watch(branch, shared_condition(alloc, names, text)?))
            }
        }
    }
}
