//! The parts of a sentence.
use crate::explanation::KnownProtocol;
use crate::hosts::{MAX_HOSTS, host_name};
use std::fmt;
use toml::{Table, Value};

/// The most characters of a text that are shown.
const MAX_SHOWN: usize = 64;

/// What a name is.
pub const NAME: &str = "a name: 1 to 16 lower-case letters and digits, the first a letter";

/// A part of a sentence.
#[derive(Clone, Copy)]
pub enum Part<'a> {
    /// Words that are written unchanged.
    Words(&'a str),
    /// A text in quotes on one line, with `?` for each control character, and `..` for all after
    /// the first 64 characters.
    Quoted(&'a str),
    Count(usize),
    Integer(i64),
    /// An ordinal number, by the count of those before it: 1st for 0.
    Ordinal(usize),
    /// What a `latency_max` must be, beside this `latency_min`.
    LatencyMax(u32),
    /// The names of protocols, each in quotes.
    Protocols(&'a [KnownProtocol<'a>]),
    /// The names of the hosts of a scenario.
    Hosts(&'a Table),
}

// Returns the character that is shown for one.
fn shown(c: char) -> char {
    if c.is_control() { '?' } else { c }
}

// Writes a text in quotes.
fn write_quoted<W: fmt::Write>(f: &mut fmt::Formatter<W>, text: &str) -> fmt::Result {
    f.write_str("\"")?;
    for (i, c) in text.chars().enumerate() {
        if i == MAX_SHOWN {
            return f.write_str("..\"");
        }
        f.write_char(shown(c))?;
    }
    f.write_str("\"")
}

// Returns the ending of an ordinal number.
fn ending(number: usize) -> &'static str {
    if matches!(number % 100, 11..=13) {
        return "th";
    }
    match number % 10 {
        1 => "st",
        2 => "nd",
        3 => "rd",
        _ => "th",
    }
}

// Writes what a `latency_max` must be, with a comma before the last three digits of a number.
fn write_latency_max<W: fmt::Write>(f: &mut fmt::Formatter<W>, low: u32) -> fmt::Result {
    let (thousands, rest) = (low / 1_000, low % 1_000);
    if thousands == 0 {
        write!(f, "a whole number from latency_min ({rest}) to 60,000 (ms)")
    } else {
        write!(
            f,
            "a whole number from latency_min ({thousands},{rest:03}) to 60,000 (ms)"
        )
    }
}

// Writes the names of protocols, with commas between them.
fn write_protocols<W: fmt::Write>(
    f: &mut fmt::Formatter<W>,
    protocols: &[KnownProtocol],
) -> fmt::Result {
    for (i, protocol) in protocols.iter().enumerate() {
        if i > 0 {
            f.write_str(", ")?;
        }
        write_quoted(f, protocol.name)?;
    }
    Ok(())
}

// Writes the names of all hosts, with commas between them.
fn write_hosts<W: fmt::Write>(f: &mut fmt::Formatter<W>, table: &Table) -> fmt::Result {
    for number in 0..MAX_HOSTS {
        if let Some(name) = host_name(table, number) {
            if number > 0 {
                f.write_str(", ")?;
            }
            f.write_str(name)?;
        }
    }
    Ok(())
}

fn write_part<W: fmt::Write>(f: &mut fmt::Formatter<W>, part: &Part<'_>) -> fmt::Result {
    match *part {
        Part::Words(words) => f.write_str(words),
        Part::Quoted(text) => write_quoted(f, text),
        Part::Count(count) => write!(f, "{count}"),
        Part::Integer(number) => write!(f, "{number}"),
        Part::Ordinal(before) => {
            let number = before.saturating_add(1);
            write!(f, "{number}{}", ending(number))
        }
        Part::LatencyMax(low) => write_latency_max(f, low),
        Part::Protocols(protocols) => write_protocols(f, protocols),
        Part::Hosts(table) => write_hosts(f, table),
    }
}

/// Writes a sentence: a text with the next of the parts in place of each `%`. So a sentence is a
/// value, and one function writes them all.
pub fn tell<W: fmt::Write>(
    f: &mut fmt::Formatter<W>,
    text: &'static str,
    parts: &[Part<'_>],
) -> fmt::Result {
    let mut rest = text;
    for part in parts {
        let (words, after) = rest.split_once('%').unwrap_or((rest, ""));
        f.write_str(words)?;
        write_part(f, part)?;
        rest = after;
    }
    f.write_str(rest)
}

/// Returns what was found at a key, if anything.
pub fn found(value: Option<&Value>) -> Part<'_> {
    let kind = match value {
        None => "missing",
        Some(Value::String(text)) => return Part::Quoted(text.as_str()),
        Some(Value::Integer(number)) => return Part::Integer(*number),
        Some(Value::Float(_)) => "a floating-point number",
        Some(Value::Boolean(true)) => "true",
        Some(Value::Boolean(false)) => "false",
        Some(Value::Datetime(_)) => "a date or a time",
        Some(Value::Array(items)) if items.is_empty() => "an empty array",
        Some(Value::Array(_)) => "an array",
        Some(Value::Table(_)) => "a table",
    };
    Part::Words(kind)
}

/// Returns a value that is a text.
pub fn text_of(value: Option<&Value>) -> Option<&str> {
    match value {
        Some(Value::String(text)) => Some(text.as_str()),
        _ => None,
    }
}

/// Returns the text at a key, or an empty one if there is no text.
pub fn text_at<'a>(table: &'a Table, key: &str) -> &'a str {
    text_of(table.get(key)).unwrap_or("")
}

/// Returns the text at a key of an item that is a table.
pub fn text_in<'a>(item: Option<&'a Value>, key: &str) -> Option<&'a str> {
    match item {
        Some(Value::Table(table)) => text_of(table.get(key)),
        _ => None,
    }
}

/// Returns the items of an array at a key, or none if there is no array.
pub fn items_at<'a>(table: &'a Table, key: &str) -> &'a [Value] {
    match table.get(key) {
        Some(Value::Array(items)) => items.as_slice(),
        _ => &[],
    }
}

/// Returns the `latency_min` of a table, or 0 if it has none in its range.
pub fn latency_min(table: &Table) -> u32 {
    match table.get("latency_min") {
        Some(Value::Integer(number)) if 0 <= *number && *number <= 60_000 => *number as u32,
        _ => 0,
    }
}
