//! Sentences: why a command was refused, and why a line is no command.
use crate::order::OrderError;
use crate::topic::tell_names;
use sim_book::{NotTaken, Refusal};
use sim_node::NoMemory;
use sim_script::{Expected, LineMistake, Names, tell_advice, tell_mistake, word_at};
use std::alloc::Global;

/// What a sentence about a mistake needs: the names of hosts and probes, and their numbers.
#[derive(Drop)]
pub struct Known<'a> {
    /// Where texts are allocated.
    pub alloc: Global,
    pub names: &'a Names,
    /// The number of hosts.
    pub hosts: u16,
    /// The number of probes of a node.
    pub probes: u8,
}

// Returns in a sentence why a command was refused.
fn refusal_sentence(why: Refusal) -> &'static str {
    match why {
        Refusal::UnknownBranch => "there is no such branch; `branch P` makes one",
        Refusal::UnknownHost => "there is no such host",
        Refusal::SameHost => "the two hosts must be different ones",
        Refusal::NotAtEnd => {
            "events are added at the end of the kept events: go forward to it, `cut` what lies \
             past this place, or `branch` here"
        }
        Refusal::TooFar => "there is no such place among the kept events",
        Refusal::EventsFull => "65536 events are kept, and no more can be",
        Refusal::Idle => "nothing is pending",
        Refusal::BranchesFull => "there are 64 branches, and no more can be",
        Refusal::WatchesFull =>
            "the branch has 8 watches, and no more can be; `unwatch W` drops one",
        Refusal::UnknownWatch => "there is no such watch",
        Refusal::BadCondition => "there is no such probe",
        Refusal::NoMemory => "there was not enough memory, and nothing has changed",
    }
}

// Returns in a sentence why a command was not taken.
fn not_taken_sentence(why: NotTaken) -> &'static str {
    match why {
        NotTaken::HistoryFull => "65536 commands were taken, and no more can be",
        NotTaken::NoMemory => "there was not enough memory, and nothing has changed",
    }
}

impl Known<'_> {
    /// Appends why a command was refused. Fails only for want of memory.
    pub fn tell_refusal(&self, why: Refusal, said: &mut String) -> Result<(), NoMemory> {
        let sentence = refusal_sentence(why);
        writeln!(said, "{sentence}")?;
        match why {
            Refusal::UnknownHost => self.names.tell_hosts(said)?,
            Refusal::BadCondition => self.names.tell_probes(said)?,
            _ => return Ok(()),
        }
        said.push('\n')
    }

    /// Appends why a command was refused, on a branch at place `place` of `kept` events. Fails only
    /// for want of memory.
    pub fn tell_refusal_at(
        &self,
        why: Refusal,
        place: u32,
        kept: u32,
        said: &mut String,
    ) -> Result<(), NoMemory> {
        match why {
            Refusal::NotAtEnd => writeln!(
                said,
                "this is place {place} of {kept}, and events are added at the end: `goto {kept}` \
                 goes there, `cut` drops the events past this place, `branch {place}` makes a \
                 branch that ends here"
            ),
            Refusal::TooFar => {
                let left = kept.saturating_sub(place);
                writeln!(
                    said,
                    "there is no such place: this is place {place} of {kept}, so go back by at \
                     most {place} or forward by at most {left}"
                )
            }
            _ => self.tell_refusal(why, said),
        }
    }

    // Appends which word of a line is wrong, and what is possible there.
    fn tell_word(
        &self,
        line: &[u8],
        mistake: LineMistake,
        said: &mut String,
    ) -> Result<(), NoMemory> {
        tell_mistake(line, mistake, said)?;
        said.push('\n')?;
        match mistake.expected {
            Expected::Command => {
                let word = str::from_utf8(word_at(line, mistake.word)).unwrap_or("");
                tell_names(self.alloc, word, said)
            }
            _ => tell_advice(self.names, line, mistake, ("", "\n"), said),
        }
    }

    /// Appends why a line makes no request. Fails only for want of memory.
    pub fn tell_error(
        &self,
        line: &[u8],
        error: OrderError,
        said: &mut String,
    ) -> Result<(), NoMemory> {
        match error {
            OrderError::Mistake(mistake) => self.tell_word(line, mistake, said),
            OrderError::NotText => said.push_str("the line is no UTF-8\n"),
            OrderError::NoMemory => said.push_str("there was not enough memory\n"),
        }
    }
}

/// Appends why a command was not taken. Fails only for want of memory.
pub fn tell_not_taken(why: NotTaken, said: &mut String) -> Result<(), NoMemory> {
    let sentence = not_taken_sentence(why);
    writeln!(said, "{sentence}")
}
