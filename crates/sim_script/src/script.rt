//! The lines of a script.
ghost use Rattle.std.specs.Prelude.{◌≡◌, Some, None};
ghost use Rattle.std.specs.Option.{option_map, option_or};
ghost use Rattle.sim_script.specs.Conditions.{condition};
ghost use Rattle.sim_script.specs.Script.{script_line, asked, command_of, command_by, numbered_of};
ghost use Rattle.sim_script.specs.Script.{fault_of, query_of, a_host, a_number, two_hosts};
ghost use Rattle.sim_script.specs.Script.{a_host_and_probe, nothing, words, number};
ghost use Rattle.sim_script.specs.Sorts.{link_fault, numbered_by, numbered_command};
ghost use Rattle.sim_script.specs.Parsed.{meant};

use crate::ask::{Ask, Parsed};
use crate::condition::condition_of;
use crate::names::Names;
use crate::words::{is_keyword, next_word, parse_number};
use sim_watch::Command;
use sim_world::{Fault, Query};

/// The greatest length of a line (bytes). A longer line is bad.
pub(crate) const MAX_LINE: usize = 256;

/// The greatest number of digits of a number outside a condition.
pub(crate) const MAX_DIGITS: usize = 9;

/// What a line of a script asks.
#[derive(Drop)]
pub enum ScriptLine<'a> {
    /// An empty line, or a comment.
    Nothing,
    /// A line that is no command.
    Bad,
    Asked(Ask<'a>),
}

/// Reads a number of a command, of 1 to 9 decimal digits.
fn parse_count(word: &[u8]) -> Option<u32>
    ensures { result ≡ number 9 word.now }
{
    match parse_number(word, MAX_DIGITS) {
        Some(count) => Some(count as u32),
        None => None,
    }
}

/// Reads one number and no more words.
fn one_number(text: &[u8]) -> Option<u32>
    ensures { result ≡ a_number (words text.now) }
{
    let (word, rest) = next_word(text)?;
    match next_word(rest) {
        None => parse_count(word),
        Some(_) => None,
    }
}

/// Reads one host and no more words.
fn one_host(names: &Names, text: &[u8]) -> Option<u16>
    ensures { result ≡ a_host names.now (words text.now) }
{
    let (word, rest) = next_word(text)?;
    match next_word(rest) {
        None => names.host(word),
        Some(_) => None,
    }
}

/// Reads two hosts and no more words.
fn both_hosts(names: &Names, text: &[u8]) -> Option<(u16, u16)>
    ensures { result ≡ two_hosts names.now (words text.now) }
{
    let (first, rest) = next_word(text)?;
    let (second, rest) = next_word(rest)?;
    match next_word(rest) {
        None => {
            let a = names.host(first)?;
            let b = names.host(second)?;
            Some((a, b))
        }
        Some(_) => None,
    }
}

/// Reads a host and a probe and no more words.
fn host_and_probe(names: &Names, text: &[u8]) -> Option<(u16, u8)>
    ensures { result ≡ a_host_and_probe names.now (words text.now) }
{
    let (first, rest) = next_word(text)?;
    let (second, rest) = next_word(rest)?;
    match next_word(rest) {
        None => {
            let host = names.host(first)?;
            let probe = names.probe(second)?;
            Some((host, probe))
        }
        Some(_) => None,
    }
}

/// Returns the command if no more words follow.
fn alone(text: &[u8], command: Command) -> Option<Command>
    ensures { result ≡ nothing command (words text.now) }
{
    match next_word(text) {
        None => Some(command),
        Some(_) => None,
    }
}

/// Returns the fault of a link that the word names, or `None` if it names none.
#[tactic(auto, unfolding(crate::specs::Sorts::link_fault))]
pub(crate) fn link_fault(word: &[u8], a: u16, b: u16) -> Option<Fault>
    ensures { result ≡ link_fault word.now a b }
{
    if is_keyword(word, b"hold") {
        Some(Fault::Hold(a, b))
    } else if is_keyword(word, b"release") {
        Some(Fault::Release(a, b))
    } else if is_keyword(word, b"partition") {
        Some(Fault::Cut(a, b))
    } else if is_keyword(word, b"repair") {
        Some(Fault::Repair(a, b))
    } else if is_keyword(word, b"cutoneway") {
        Some(Fault::CutOneway(a, b))
    } else if is_keyword(word, b"repaironeway") {
        Some(Fault::RepairOneway(a, b))
    } else {
        None
    }
}

/// Reads a fault, by its first word and the text after it.
#[tactic(auto, using(crate::proofs::Sorts::fault_is))]
fn parse_fault(names: &Names, word: &[u8], rest: &[u8]) -> Option<Fault>
    ensures { result ≡ fault_of names.now word.now (words rest.now) }
{
    if is_keyword(word, b"crash") {
        return Some(Fault::Crash(one_host(names, rest)?));
    }
    if is_keyword(word, b"bounce") {
        return Some(Fault::Bounce(one_host(names, rest)?));
    }
    let (a, b) = both_hosts(names, rest)?;
    link_fault(word, a, b)
}

/// Reads a query, by the text after `look`.
#[tactic(auto, unfolding(crate::specs::Script::query_of))]
fn parse_query(names: &Names, text: &[u8]) -> Option<Query>
    ensures { result ≡ query_of names.now (words text.now) }
{
    let Some((word, rest)) = next_word(text) else {
        return Some(Query::Summary);
    };
    if is_keyword(word, b"next") {
        match next_word(rest) {
            None => Some(Query::Next),
            Some(_) => None,
        }
    } else if is_keyword(word, b"host") {
        Some(Query::HostView(one_host(names, rest)?))
    } else if is_keyword(word, b"link") {
        let (a, b) = both_hosts(names, rest)?;
        Some(Query::Link(a, b))
    } else if is_keyword(word, b"probe") {
        let (host, probe) = host_and_probe(names, rest)?;
        Some(Query::Probe(host, probe))
    } else {
        None
    }
}

/// A command that takes a number.
#[derive(Clone, Copy)]
pub(crate) enum Numbered {
    Run,
    Back,
    Forward,
    Goto,
    Rewind,
    Branch,
    Unwatch,
}

impl Numbered {
    /// Returns the command that a word names, or `None` if it names none of these.
    #[tactic(auto, unfolding(crate::specs::Sorts::numbered_by))]
    pub(crate) fn of_word(word: &[u8]) -> Option<Numbered>
        ensures { result ≡ numbered_by word.now }
    {
        if is_keyword(word, b"run") {
            Some(Numbered::Run)
        } else if is_keyword(word, b"back") {
            Some(Numbered::Back)
        } else if is_keyword(word, b"forward") {
            Some(Numbered::Forward)
        } else if is_keyword(word, b"goto") {
            Some(Numbered::Goto)
        } else if is_keyword(word, b"rewind") {
            Some(Numbered::Rewind)
        } else if is_keyword(word, b"branch") {
            Some(Numbered::Branch)
        } else if is_keyword(word, b"unwatch") {
            Some(Numbered::Unwatch)
        } else {
            None
        }
    }

    /// Returns the command on a branch with its number.
    fn command(self, branch: u32, number: u32) -> Command
        ensures { result ≡ numbered_command self branch number }
    {
        match self {
            Numbered::Run => Command::Run(branch, number),
            Numbered::Back => Command::Back(branch, number),
            Numbered::Forward => Command::Forward(branch, number),
            Numbered::Goto => Command::Goto(branch, number),
            Numbered::Rewind => Command::Rewind(branch, number),
            Numbered::Branch => Command::Branch(branch, number),
            Numbered::Unwatch => Command::Unwatch(branch, number),
        }
    }
}

/// Reads a command that takes a number, by its first word and the text after it.
#[tactic(auto, using(crate::proofs::Sorts::numbered_is))]
fn parse_numbered(branch: u32, word: &[u8], rest: &[u8]) -> Option<Command>
    ensures { result ≡ numbered_of branch word.now (words rest.now) }
{
    let numbered = Numbered::of_word(word)?;
    let number = one_number(rest)?;
    Some(numbered.command(branch, number))
}

/// Returns a command that is no watch, if there is one.
fn plain<'a>(command: Option<Command>) -> Option<Parsed<'a>>
    ensures { (names : _) → meant names result ≡ command }
{
    Some(Parsed::Plain(command?))
}

/// Reads a line that sets a watch, by the text of its condition.
fn parse_watch<'a>(names: &'a Names, branch: u32, text: &'a [u8]) -> ScriptLine<'a>
    ensures { result ≡ asked (option_map (Command.Watch branch)
        (condition names.now (words text.now))) }
{
    match condition_of(names, text) {
        Some(_) => ScriptLine::Asked(Ask {
            names,
            parsed: Parsed::Watch(branch, text),
        }),
        None => ScriptLine::Bad,
    }
}

/// Reads a look, by the text after `look`.
fn parse_look(names: &Names, branch: u32, rest: &[u8]) -> Option<Command>
    ensures { result ≡ option_map (Command.Look branch) (query_of names.now (words rest.now)) }
{
    Some(Command::Look(branch, parse_query(names, rest)?))
}

/// Reads a command that takes a number, or a fault, by its first word and the text after it.
fn parse_change(names: &Names, branch: u32, word: &[u8], rest: &[u8]) -> Option<Command>
    ensures { result ≡ option_or (numbered_of branch word.now (words rest.now))
        (option_map (Command.Fault branch) (fault_of names.now word.now (words rest.now))) }
{
    match parse_numbered(branch, word, rest) {
        Some(command) => Some(command),
        None => Some(Command::Fault(branch, parse_fault(names, word, rest)?)),
    }
}

/// Reads a command on a branch, by its first word and the text after it.
#[tactic(auto, unfolding(crate::specs::Script::command_by))]
fn parse_on<'a>(names: &Names, branch: u32, word: &[u8], rest: &'a [u8]) -> Option<Parsed<'a>>
    ensures { meant names.now result ≡ command_by names.now branch word.now (words rest.now) }
{
    if is_keyword(word, b"step") {
        plain(alone(rest, Command::Step(branch)))
    } else if is_keyword(word, b"tick") {
        plain(alone(rest, Command::Tick(branch)))
    } else if is_keyword(word, b"cut") {
        plain(alone(rest, Command::Cut(branch)))
    } else if is_keyword(word, b"trace") {
        plain(alone(rest, Command::Freeze(branch)))
    } else if is_keyword(word, b"look") {
        plain(parse_look(names, branch, rest))
    } else if is_keyword(word, b"watch") {
        Some(Parsed::Watch(branch, rest))
    } else {
        plain(parse_change(names, branch, word, rest))
    }
}

/// Reads a command, with its branch or without.
#[tactic(auto, unfolding(crate::specs::Script::command_of))]
fn parse_command<'a>(names: &Names, text: &'a [u8]) -> Option<Parsed<'a>>
    ensures { meant names.now result ≡ command_of names.now (words text.now) }
{
    let (word, rest) = next_word(text)?;
    match word {
        [b'@', digits @ ..] => {
            let branch = parse_count(digits)?;
            let (word, rest) = next_word(rest)?;
            parse_on(names, branch, word, rest)
        }
        _ => parse_on(names, 0, word, rest),
    }
}

/// Reads a line of a script, given without its line end. Takes no memory.
#[tactic(auto, unfolding(crate::specs::Script::script_line))]
pub fn line_of<'a>(names: &'a Names, line: &'a [u8]) -> ScriptLine<'a>
    ensures { result ≡ script_line names.now line.now }
{
    if line.is_empty() || line[0] == b'#' {
        return ScriptLine::Nothing;
    }
    if line.len() > MAX_LINE {
        return ScriptLine::Bad;
    }
    match parse_command(names, line) {
        Some(Parsed::Plain(command)) => ScriptLine::Asked(Ask {
            names,
            parsed: Parsed::Plain(command),
        }),
        Some(Parsed::Watch(branch, text)) => parse_watch(names, branch, text),
        None => ScriptLine::Bad,
    }
}
