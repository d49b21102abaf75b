//! Texts of scenarios: each fault by its number and key, and the values of a text.
//!
//! The reader is proved to follow a definition: a list of checks, of which the first that fails is
//! the fault. These tests compare the definition with docs/SCENARIO.md. The expected values were
//! worked out from that page.
//!
//! - `rows`, `links`: texts with a fault each, or with several, so that the order of faults is
//!   checked too. A row has only what differs from a text without a fault.
//! - `texts`, `said`: texts that are scenarios, and the values of each.
//! - `sentences`: the sentence for a text with each of the faults.
//! - The limit of 65,536 bytes, no text at all, and line ends of two bytes.
//!
//! Rows are lines of a long text, and not an array of tuples: the prover takes a text as one value,
//! and such an array part by part.
//!
//! What each test would catch, where proofs say nothing or definitions may be wrong:
//!
//! * `tables_hold`: a text that is refused with another fault, number or key than the format says,
//!   or refused though it is a scenario; the order of faults.
//! * `short_and_long_texts`: no text, a comment, the limit of 65,536 bytes, line ends of two bytes.
//! * `texts_say_what_they_say`: a value, a name or a way that is read from elsewhere.
//! * the tests of `sentences`: a sentence that names another place of the text, another value, or
//!   other limits.
//! * `faults_and_names`: the text of a fault, the number of want of memory, and which names are
//!   names.

mod links;
mod rows;
mod said;
mod sentences;
mod texts;

use crate::same::same;
use links::{LINES_2, both_formats, ways_of_links};
use said::{names_are, scenario, ways_are};
use sim_links::Way;
use sim_scenario::{ScenarioFault, ScenarioText, is_name};
use std::alloc::{AllocError, Global};
use std::test::Fail;
use texts::{LINES, is_answered, padded, rows_hold, text_with, with_crlf};

// Checks the answers to texts of format 1.
fn first_format_holds(alloc: Global) -> Result<(), Fail> {
    rows_hold(alloc, LINES, rows::NOT_TOML)?;
    rows_hold(alloc, LINES, rows::UNKNOWN_KEYS)?;
    rows_hold(alloc, LINES, rows::MISSING_KEYS)?;
    rows_hold(alloc, LINES, rows::WRONG_TYPES)?;
    rows_hold(alloc, LINES, rows::SEEDS)?;
    rows_hold(alloc, LINES, rows::PROTOCOLS)?;
    rows_hold(alloc, LINES, rows::FORMATS)?;
    rows_hold(alloc, LINES, rows::NUMBERS)?;
    rows_hold(alloc, LINES, rows::NAMES)?;
    rows_hold(alloc, LINES, rows::EQUAL_NAMES)?;
    rows_hold(alloc, LINES, rows::HOST_COUNTS)?;
    rows_hold(alloc, LINES, rows::CLIENTS)?;
    rows_hold(alloc, LINES, rows::PAIRS)?;
    rows_hold(alloc, LINES, rows::OTHER_WAYS)
}

#[test]
fn tables_hold(rt: HostRuntime) -> Result<(), Fail> {
    first_format_holds(rt.alloc())?;
    rows_hold(rt.alloc(), LINES_2, links::SECOND_LINKS)?;
    rows_hold(rt.alloc(), LINES_2, links::FORMAT_KEYS)?;
    rows_hold(rt.alloc(), LINES_2, links::NO_LINK)
}

/// The length of a text, what comes after it, and the answer.
const LENGTHS: [(usize, &str, &str); 3] = [
    (65_536, "", "0"),
    (65_537, "", "1 text"),
    (65_537, "\n]", "1 text"),
];

/// Returns whether a text of this length has this answer.
fn is_long_answered(
    alloc: Global,
    len: usize,
    end: &str,
    wanted: &str,
) -> Result<bool, AllocError> {
    let text = padded(alloc, len, end)?;
    Ok(is_answered(alloc, text.as_str(), wanted))
}

/// Returns whether a text whose lines end in two bytes is a scenario.
fn is_crlf_answered(alloc: Global) -> Result<bool, AllocError> {
    let text = text_with(alloc, LINES, "")?;
    let text = with_crlf(alloc, text.as_str())?;
    Ok(is_answered(alloc, text.as_str(), "0"))
}

#[test]
fn short_and_long_texts(rt: HostRuntime) -> Result<(), Fail> {
    let alloc = rt.alloc();
    for (text, wanted) in [
        ("", "4 format"),
        ("# nothing\n", "4 format"),
        ("]", "2 text"),
    ] {
        assert!(rt; is_answered(alloc, text, wanted), "{text}");
    }
    for (len, end, wanted) in LENGTHS {
        assert!(rt; is_long_answered(alloc, len, end, wanted)?, "{len}");
    }
    assert!(rt; is_crlf_answered(alloc)?);
    Ok(())
}

/// A text that has another value at each key.
const OTHER: &str = "
seed = \"00112233445566778899aAbBcCdDeEfF000102030405060708090A0B0c0d0eFf\"
format = 1
protocol = \"echo\"
servers = [\"north\", \"east2\"]
client = [{ name = \"w\", ops = 7 }, { ops = 1000, name = \"x\" }, { name = \"a\", ops = 1 }]
window = 4096
checkpoint = 1024
loss = 250
latency_max = 60000
latency_min = 3
tick = 17
";

/// The bytes of the seed of `OTHER`.
const SEED: [u8; 32] = [
    0x00, 0x11, 0x22, 0x33, 0x44, 0x55, 0x66, 0x77, 0x88, 0x99, 0xaa, 0xbb, 0xcc, 0xdd, 0xee, 0xff,
    0, 1, 2, 3, 4, 5, 6, 7, 8, 9, 10, 11, 12, 13, 14, 255,
];

/// The operations of the hosts of `OTHER`.
const OPS: [u16; 32] = [
    0, 0, 7, 1000, 1, 0, 0, 0, 0, 0, 0, 0, 0, 0, 0, 0, 0, 0, 0, 0, 0, 0, 0, 0, 0, 0, 0, 0, 0, 0, 0,
    0,
];

fn says_the_numbers(said: &ScenarioText) -> Result<(), Fail> {
    same(&said.protocol, &0, "protocol")?;
    same(&said.tick, &17, "tick")?;
    same(&said.disk_latency, &0, "disk_latency")?;
    same(&said.servers, &2, "servers")?;
    same(&said.checkpoint, &1024, "checkpoint")?;
    same(&said.window, &4096, "window")
}

fn says_the_lists(said: &ScenarioText) -> Result<(), Fail> {
    same(&said.seed, &SEED, "seed")?;
    same(&said.ops, &OPS, "ops")?;
    let way = Way {
        latency_min: 3,
        latency_max: 60_000,
        loss: 250,
    };
    ways_are(&said.ways, way, &[])
}

fn other_text(alloc: Global) -> Result<(), Fail> {
    let said = scenario(alloc, OTHER)?;
    names_are(&said.names, &["north", "east2", "w", "x", "a"], "b")?;
    says_the_numbers(&said)?;
    says_the_lists(&said)
}

#[test]
fn texts_say_what_they_say(rt: HostRuntime) -> Result<(), Fail> {
    other_text(rt.alloc())?;
    both_formats(rt.alloc())?;
    ways_of_links(rt.alloc())
}

/// Checks the text of a fault.
fn a_fault_is_printed(alloc: Global) -> Result<(), Fail> {
    let fault = ScenarioFault::UnknownKey(String::from_str(alloc, "tock")?);
    same(&fault.number(), &3, "number")?;
    same(&fault.key(), &"tock", "key")?;
    let shown = format!(in alloc; "{fault}")?;
    same(&shown.as_str(), &"there is an unknown key, `tock`", "shown")
}

#[test]
fn faults_and_names(rt: HostRuntime) -> Result<(), Fail> {
    a_fault_is_printed(rt.alloc())?;
    assert_eq!(rt; ScenarioFault::NoMemory.number(), 0);
    assert_eq!(rt; ScenarioFault::NoMemory.key(), "memory");
    for name in ["a", "w2", "abcdefghijklmno7"] {
        assert!(rt; is_name(name), "{name}");
    }
    for name in ["", "2w", "W", "abcdefghijklmno78"] {
        assert!(rt; !is_name(name), "{name}");
    }
    Ok(())
}
