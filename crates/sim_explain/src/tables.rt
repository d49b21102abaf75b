//! The tables of clients and of links, each by itself.
use crate::keys::explain_key;
use crate::sentences::{NAME, Part, found, items_at, latency_min, tell, text_of};
use sim_scenario::{Key, is_name};
use std::fmt;
use toml::{Table, Value};

// What the value at a key of a table must be.
#[derive(Clone, Copy)]
enum Rule {
    /// The name of the host itself.
    Name,
    /// The name of another host, so any string.
    Host,
    /// A whole number from the first to the second, and the words for that.
    Number(i64, i64, &'static str),
    /// A whole number from the `latency_min` of the table to 60,000.
    LatencyMax,
}

/// A key that each table of a kind has, and what its value must be.
#[derive(Clone, Copy)]
pub struct Field {
    key: &'static str,
    rule: Rule,
}

/// The keys of the tables at a key of a scenario.
#[derive(Clone, Copy)]
pub struct Kind {
    key: Key,
    fields: &'static [Field],
    /// The keys of the fields, as a list in words.
    known: &'static str,
}

/// The clients.
pub static CLIENT: Kind = Kind {
    key: Key::Client,
    fields: &[
        Field {
            key: "name",
            rule: Rule::Name,
        },
        Field {
            key: "ops",
            rule: Rule::Number(1, 1_000, "a whole number from 1 to 1,000 (operations)"),
        },
    ],
    known: "name and ops",
};

/// The links.
pub static LINK: Kind = Kind {
    key: Key::Link,
    fields: &[
        Field {
            key: "source",
            rule: Rule::Host,
        },
        Field {
            key: "target",
            rule: Rule::Host,
        },
        Field {
            key: "latency_min",
            rule: Rule::Number(0, 60_000, "a whole number from 0 to 60,000 (ms)"),
        },
        Field {
            key: "latency_max",
            rule: Rule::LatencyMax,
        },
        Field {
            key: "loss",
            rule: Rule::Number(
                0,
                1_000,
                "a whole number from 0 to 1,000 (of 1,000 messages)",
            ),
        },
    ],
    known: "source, target, latency_min, latency_max and loss",
};

// Returns whether a value is a whole number in a range.
fn is_number(value: Option<&Value>, low: i64, high: i64) -> bool {
    match value {
        Some(Value::Integer(number)) => low <= *number && *number <= high,
        _ => false,
    }
}

// Returns whether a table has the value that a field must have.
fn is_met(table: &Table, field: &Field) -> bool {
    let value = table.get(field.key);
    match field.rule {
        Rule::Name => is_name(text_of(value).unwrap_or("")),
        Rule::Host => text_of(value).is_some(),
        Rule::Number(low, high, _) => is_number(value, low, high),
        Rule::LatencyMax => is_number(value, i64::from(latency_min(table)), 60_000),
    }
}

// Returns what the value of a field must be.
fn wanted(table: &Table, rule: Rule) -> Part<'static> {
    match rule {
        Rule::Name => Part::Words(NAME),
        Rule::Host => Part::Words("the name of a host"),
        Rule::Number(_, _, words) => Part::Words(words),
        Rule::LatencyMax => Part::LatencyMax(latency_min(table)),
    }
}

fn is_among(key: &str, fields: &[Field]) -> bool {
    for field in fields {
        if key == field.key {
            return true;
        }
    }
    false
}

// Returns the first key of a table that is not that of a field.
fn unknown_key<'a>(table: &'a Table, fields: &[Field]) -> Option<&'a str> {
    for (key, _) in table.iter() {
        if !is_among(key.as_str(), fields) {
            return Some(key.as_str());
        }
    }
    None
}

// Returns the first field of which a table has no value, or a wrong one.
fn unmet(table: &Table, fields: &'static [Field]) -> Option<&'static Field> {
    for field in fields {
        if !is_met(table, field) {
            return Some(field);
        }
    }
    None
}

// Returns the first item of an array that is no table.
fn no_table(items: &[Value]) -> Option<usize> {
    for (i, item) in items.iter().enumerate() {
        if !item.is_table() {
            return Some(i);
        }
    }
    None
}

// Writes an unknown key of a table.
fn explain_unknown_key<W: fmt::Write>(
    f: &mut fmt::Formatter<W>,
    which: usize,
    kind: &'static Kind,
    key: &str,
) -> fmt::Result {
    tell(
        f,
        "the % %'s key % is unknown; its keys are %",
        &[
            Part::Ordinal(which),
            Part::Words(kind.key.text()),
            Part::Quoted(key),
            Part::Words(kind.known),
        ],
    )
}

// Writes what is at a key of a table, and what must be there.
fn explain_field<W: fmt::Write>(
    f: &mut fmt::Formatter<W>,
    table: &Table,
    which: usize,
    kind: &'static Kind,
    field: &'static Field,
) -> fmt::Result {
    tell(
        f,
        "the % %'s % is %; it has to be %",
        &[
            Part::Ordinal(which),
            Part::Words(kind.key.text()),
            Part::Words(field.key),
            found(table.get(field.key)),
            wanted(table, field.rule),
        ],
    )
}

/// Writes which table of a kind is at fault, and why, or that an item is no table.
pub fn explain_tables<W: fmt::Write>(
    f: &mut fmt::Formatter<W>,
    table: &Table,
    kind: &'static Kind,
) -> fmt::Result {
    let items = items_at(table, kind.key.text());
    for (i, item) in items.iter().enumerate() {
        if let Value::Table(item) = item {
            if let Some(key) = unknown_key(item, kind.fields) {
                return explain_unknown_key(f, i, kind, key);
            }
            if let Some(field) = unmet(item, kind.fields) {
                return explain_field(f, item, i, kind, field);
            }
        }
    }
    explain_item(f, table, kind.key, no_table(items), "a table")
}

/// Writes which item of an array is not what it must be, or that there is no array or an empty one.
pub fn explain_item<W: fmt::Write>(
    f: &mut fmt::Formatter<W>,
    table: &Table,
    key: Key,
    at_fault: Option<usize>,
    wanted: &'static str,
) -> fmt::Result {
    let Some(i) = at_fault else {
        return explain_key(f, table, key);
    };
    tell(
        f,
        "the % item of % is %; it has to be %",
        &[
            Part::Ordinal(i),
            Part::Words(key.text()),
            found(items_at(table, key.text()).get(i)),
            Part::Words(wanted),
        ],
    )
}
