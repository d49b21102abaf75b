//! The keys of a scenario itself.
use crate::explanation::KnownProtocol;
use crate::sentences::{Part, found, latency_min, tell, text_at};
use sim_scenario::Key;
use std::fmt;
use toml::{Table, Value};

/// What is said of a key that format 1 does not have.
const UNKNOWN_IN_1: &str = "key % is unknown; the keys of format 1 are format, seed, protocol, \
    tick, latency_min, latency_max, loss, servers, checkpoint, window and client";

/// What is said of a key that format 2 does not have.
const UNKNOWN_IN_2: &str = "key % is unknown; the keys are format, seed, protocol, tick, \
    latency_min, latency_max, loss, servers, checkpoint, window, client, disk_latency and link";

// Returns what a key of a scenario must be.
fn wanted(table: &Table, key: Key) -> Part<'static> {
    Part::Words(match key {
        Key::Format => "1 or 2",
        Key::Seed => "a string of 64 hexadecimal digits",
        Key::Protocol => "the name of a protocol, a string",
        Key::Tick => "a whole number from 1 to 60,000 (ms)",
        Key::LatencyMin | Key::DiskLatency => "a whole number from 0 to 60,000 (ms)",
        Key::LatencyMax => return Part::LatencyMax(latency_min(table)),
        Key::Loss => "a whole number from 0 to 1,000 (of 1,000 messages)",
        Key::Servers => "an array of one or more names",
        Key::Checkpoint => "a whole number from 1 to 1,024 (events)",
        Key::Window => "a whole number from 1 to 4,096 (events)",
        Key::Client => "one or more tables, each below a line [[client]]",
        Key::Link => "tables, each below a line [[link]]",
    })
}

/// Writes what is at a key of a scenario, and what must be there.
pub fn explain_key<W: fmt::Write>(
    f: &mut fmt::Formatter<W>,
    table: &Table,
    key: Key,
) -> fmt::Result {
    tell(
        f,
        "% is %; it has to be %",
        &[
            Part::Words(key.text()),
            found(table.get(key.text())),
            wanted(table, key),
        ],
    )
}

/// Writes that a key is unknown, and which keys there are.
pub fn explain_unknown<W: fmt::Write>(
    f: &mut fmt::Formatter<W>,
    table: &Table,
    key: &str,
) -> fmt::Result {
    let text = if matches!(table.get("format"), Some(Value::Integer(2))) {
        UNKNOWN_IN_2
    } else if key == "disk_latency" || key == "link" {
        "key % is unknown here; a scenario has it only with format = 2"
    } else {
        UNKNOWN_IN_1
    };
    tell(f, text, &[Part::Quoted(key)])
}

// Returns whether a text has a character that is not a hexadecimal digit.
fn has_other_digit(text: &str) -> bool {
    for c in text.chars() {
        if !c.is_ascii_hexdigit() {
            return true;
        }
    }
    false
}

/// Writes what is wrong with the seed, a string.
pub fn explain_seed<W: fmt::Write>(f: &mut fmt::Formatter<W>, table: &Table) -> fmt::Result {
    let seed = text_at(table, "seed");
    let (text, what) = if has_other_digit(seed) {
        (
            "seed is %, not all hexadecimal digits; it has to be a string of 64 of them",
            Part::Quoted(seed),
        )
    } else {
        (
            "seed has % hexadecimal digits; it has to be a string of 64 of them",
            Part::Count(seed.len()),
        )
    };
    tell(f, text, &[what])
}

/// Writes which protocol was named, and which ones exist.
pub fn explain_protocol<W: fmt::Write>(
    f: &mut fmt::Formatter<W>,
    table: &Table,
    protocols: &[KnownProtocol],
) -> fmt::Result {
    let named = Part::Quoted(text_at(table, "protocol"));
    tell(
        f,
        "protocol is %; it has to be one of %",
        &[named, Part::Protocols(protocols)],
    )
}
