//! Explains a fault of a scenario's text in a sentence.
use crate::hosts::{explain_equal_names, explain_host_count, explain_servers};
use crate::keys::{explain_key, explain_protocol, explain_seed, explain_unknown};
use crate::links::{explain_bad_link, explain_repeated_link};
use crate::position::Position;
use crate::sentences::{Part, tell};
use crate::tables::{CLIENT, LINK, explain_tables};
use sim_scenario::{Key, ScenarioFault};
use std::alloc::Global;
use std::fmt;
use toml::Table;

/// A protocol that a scenario may name, and the number of servers that it needs.
#[derive(Clone, Copy)]
pub struct KnownProtocol<'a> {
    pub name: &'a str,
    pub least_servers: usize,
}

// What the explanation of a fault is made from.
#[derive(Drop)]
enum Source {
    /// The table that the text contains.
    Table(Table),
    /// The text is not TOML from this place on: a value is missing, or the error says why.
    NotToml {
        place: Position,
        is_value_missing: bool,
        error: toml::de::Error,
    },
    /// The fault alone.
    Fault,
}

/// Why a text is no scenario, in a sentence: what was found, and what is allowed.
///
/// The sentence is made at once. If it were made from the tables of the text as it is shown, each
/// crate that shows one would load all that is proved of tables.
#[derive(Drop)]
pub struct Explanation<'a> {
    fault: &'a ScenarioFault,
    // None if memory was refused.
    sentence: Option<String>,
}

impl<'a> Explanation<'a> {
    /// Explains the fault of a text that may name these protocols. If memory is refused, the
    /// sentence says less.
    pub fn new(
        alloc: Global,
        text: &[u8],
        fault: &'a ScenarioFault,
        protocols: &[KnownProtocol],
    ) -> Explanation<'a> {
        let source = match fault {
            ScenarioFault::TooLong | ScenarioFault::NoMemory => Source::Fault,
            _ => source_of(alloc, text),
        };
        let explained = Explained {
            fault,
            protocols,
            source,
        };
        let sentence = match format!(in alloc; "{explained}") {
            Ok(sentence) => Some(sentence),
            Err(_) => None,
        };
        Explanation { fault, sentence }
    }
}

impl fmt::Display for Explanation<'_> {
    fn fmt<W: fmt::Write>(&self, f: &mut fmt::Formatter<W>) -> fmt::Result {
        match &self.sentence {
            Some(sentence) => f.write_str(sentence.as_str()),
            None => explain_alone(f, self.fault),
        }
    }
}

// A fault with what its explanation is made from.
#[derive(Drop)]
struct Explained<'a> {
    fault: &'a ScenarioFault,
    protocols: &'a [KnownProtocol<'a>],
    source: Source,
}

// Returns whether a line ends at a place.
fn is_line_end(text: &[u8], place: usize) -> bool {
    matches!(text.get(place), None | Some(b'\n' | b'\r' | b'#'))
}

// Reads a text again. Where a line ends after an `=`, a value is missing; the library has no error
// of its own for that.
fn source_of(alloc: Global, text: &[u8]) -> Source {
    match toml::table_from_slice(alloc, text) {
        Ok(table) => Source::Table(table),
        Err(error) => match error.span() {
            Some(span) => {
                let place = Position::behind(text, span.start);
                Source::NotToml {
                    place,
                    is_value_missing: place.follows_equals && is_line_end(text, span.start),
                    error,
                }
            }
            None => Source::Fault,
        },
    }
}

// Returns the key at which a value is missing or wrong by itself, if the fault is that.
fn key_at_fault(fault: &ScenarioFault) -> Option<Key> {
    match fault {
        ScenarioFault::Missing(key)
        | ScenarioFault::WrongType(key)
        | ScenarioFault::OutOfRange(key)
        | ScenarioFault::BadName(key) => Some(*key),
        ScenarioFault::UnknownFormat => Some(Key::Format),
        ScenarioFault::UnknownClientKey => Some(Key::Client),
        ScenarioFault::UnknownLinkKey => Some(Key::Link),
        _ => None,
    }
}

// Writes what is wrong with the value at a key.
fn explain_value<W: fmt::Write>(
    f: &mut fmt::Formatter<W>,
    table: &Table,
    fault: &ScenarioFault,
    key: Key,
) -> fmt::Result {
    match key {
        Key::Servers => {
            let types = matches!(fault, ScenarioFault::WrongType(_));
            explain_servers(f, table, types)
        }
        Key::Client => explain_tables(f, table, &CLIENT),
        Key::Link => explain_tables(f, table, &LINK),
        _ => explain_key(f, table, key),
    }
}

// Writes what is wrong with a key that is unknown, or with values beside each other.
fn explain_other<W: fmt::Write>(
    f: &mut fmt::Formatter<W>,
    table: &Table,
    fault: &ScenarioFault,
    protocols: &[KnownProtocol],
) -> fmt::Result {
    match fault {
        ScenarioFault::UnknownKey(key) => explain_unknown(f, table, key.as_str()),
        ScenarioFault::BadSeed => explain_seed(f, table),
        ScenarioFault::UnknownProtocol => explain_protocol(f, table, protocols),
        ScenarioFault::HostCount => explain_host_count(f, table, protocols),
        ScenarioFault::EqualNames(_) => explain_equal_names(f, table),
        ScenarioFault::BadLink => explain_bad_link(f, table),
        ScenarioFault::RepeatedLink => explain_repeated_link(f, table),
        _ => explain_alone(f, fault),
    }
}

// Writes a fault by itself.
fn explain_alone<W: fmt::Write>(f: &mut fmt::Formatter<W>, fault: &ScenarioFault) -> fmt::Result {
    match fault {
        ScenarioFault::TooLong => f.write_str(
            "the text is longer than 65,536 bytes; a script begins below a line ---",
        ),
        _ => write!(f, "{fault}"),
    }
}

// Writes from which place on a text is not TOML, and why.
fn explain_not_toml<W: fmt::Write>(
    f: &mut fmt::Formatter<W>,
    place: Position,
    why: &str,
) -> fmt::Result {
    tell(
        f,
        "line %, column %: %; up to the line --- the text has to be TOML",
        &[
            Part::Count(place.line),
            Part::Count(place.column),
            Part::Words(why),
        ],
    )
}

impl fmt::Display for Explained<'_> {
    fn fmt<W: fmt::Write>(&self, f: &mut fmt::Formatter<W>) -> fmt::Result {
        match &self.source {
            Source::Table(table) => match key_at_fault(self.fault) {
                Some(key) => explain_value(f, table, self.fault, key),
                None => explain_other(f, table, self.fault, self.protocols),
            },
            Source::NotToml {
                place,
                is_value_missing,
                error,
            } => {
                let why = if *is_value_missing {
                    "a value is missing"
                } else {
                    error.message()
                };
                explain_not_toml(f, *place, why)
            }
            Source::Fault => explain_alone(f, self.fault),
        }
    }
}
