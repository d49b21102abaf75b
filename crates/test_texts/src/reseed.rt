//! Scenarios with the seed of a numbered run. The expected texts were worked out by hand.
//!
//! It is proved that such a text is read as the scenario with the number in its seed. The contract
//! leaves open how the text is laid out, and the definition could put the number elsewhere than the
//! code of a sweep does.
//!
//! - The text of run 654 of an example is compared byte by byte, in the order of keys in which the
//!   library for TOML prints tables.
//! - Three numbers, with the bytes of the seed that each gives.
//! - A text for each error but `NoMemory`, so that none has another name than the documentation
//!   says.
//!
//! What each test would catch, where the proofs say nothing:
//!
//! * `a_numbered_text_reads_back`: a call that never succeeds, a number at another place than a
//!   sweep puts it, a text that is not laid out as the library prints tables.
//! * `bytes_of_a_number`: the other order of bytes, or other places, in definition and code alike.
//! * `texts_are_refused`: an error of another name than the documentation says.

use crate::same::same;
use crate::shipped::Shipped;
use sim_reseed::{ReseedError, join_input, numbered_input, numbered_text};
use std::alloc::Global;
use std::test::Fail;

/// The scenario of `examples/torn-commit.play`, with a link.
const SCENARIO: &str = "# Two-phase commit on slow disks.
format = 2
seed = \"0000000000000000000000000000000000000000000000000500000000000000\"
protocol = \"two_phase\"
tick = 100
latency_min = 10
latency_max = 10
loss = 0
disk_latency = 5
servers = [\"a\", \"b\"]
checkpoint = 4
window = 2

[[client]]
name = \"w\"
ops = 1

[[link]]
source = \"w\"
target = \"a\"
latency_min = 1
latency_max = 2
loss = 3
";

/// The same for run number 654, which is 0x28e, as the library prints tables.
const NUMBERED: &str = "checkpoint = 4
disk_latency = 5
format = 2
latency_max = 10
latency_min = 10
loss = 0
protocol = \"two_phase\"
seed = \"0000000000000000000000000000000000000000000000008e02000000000000\"
servers = [\"a\", \"b\"]
tick = 100
window = 2

[[client]]
name = \"w\"
ops = 1

[[link]]
latency_max = 2
latency_min = 1
loss = 3
source = \"w\"
target = \"a\"
";

const SEED_654: [u8; 32] = [
    0, 0, 0, 0, 0, 0, 0, 0, 0, 0, 0, 0, 0, 0, 0, 0, 0, 0, 0, 0, 0, 0, 0, 0, 0x8e, 2, 0, 0, 0, 0, 0,
    0,
];

/// Returns the text of a run, or the word of the error.
fn text_of(alloc: Global, text: &str, number: u64) -> Result<String, Fail> {
    match numbered_text(alloc, text, number) {
        Ok(text) => Ok(text),
        Err(error) => Err(Fail::new(error)),
    }
}

fn reads_back(alloc: Global) -> Result<(), Fail> {
    let text = text_of(alloc, SCENARIO, 654)?;
    same(&text.as_str(), &NUMBERED, "text")?;
    let Ok(said) = sim_scenario::read::<Shipped>(alloc, text.as_str()) else {
        return Err(Fail::new("it is no scenario"));
    };
    same(&said.seed, &SEED_654, "seed")?;
    same(&said.names.len(), &3, "hosts")
}

fn begins_an_input(alloc: Global) -> Result<(), Fail> {
    let wanted = format!(in alloc; "{NUMBERED}---\nstep\n")?;
    match numbered_input(alloc, SCENARIO, 654, "step\n") {
        Ok(input) => same(&input.as_str(), &wanted.as_str(), "input"),
        Err(error) => Err(Fail::new(error)),
    }
}

#[test]
fn a_numbered_text_reads_back(rt: HostRuntime) -> Result<(), Fail> {
    reads_back(rt.alloc())?;
    begins_an_input(rt.alloc())
}

/// A table with a seed, and nothing else.
const SEED: &str = "seed = \"00112233445566778899aAbBcCdDeEfF0001020304050607ffffffffffffffff\"";

/// Numbers, and their bytes in the seed.
const SEEDS: [(u64, &str); 3] = [
    (0, "0000000000000000"),
    (0x0102_0304_0506_0708, "0807060504030201"),
    (u64::MAX, "ffffffffffffffff"),
];

#[test]
fn bytes_of_a_number(rt: HostRuntime) -> Result<(), Fail> {
    let alloc = rt.alloc();
    for (number, bytes) in SEEDS {
        let text = text_of(alloc, SEED, number)?;
        let wanted = format!(in alloc;
            "seed = \"00112233445566778899aabbccddeeff0001020304050607{bytes}\"\n"
        )?;
        same(&text.as_str(), &wanted.as_str(), "seed")?;
    }
    Ok(())
}

/// Texts that no list of protocols makes a scenario.
const REFUSED: [&str; 7] = [
    "]",
    "",
    "seed = 5",
    "seed = \"00\"",
    "seed = \"gg112233445566778899aabbccddeeff000102030405060708090a0b0c0d0e0f\"",
    "seed = \"00112233445566778899aabbccddeeff000102030405060708090a0b0c0d0e0f\"\nx = 0.5",
    "seed = \"00112233445566778899aabbccddeeff000102030405060708090a0b0c0d0e0f\"\n[x]",
];

/// Returns a text of 36,000 bytes with so many tables that their lines are more than 65,536 bytes.
fn wide(alloc: Global) -> Result<String, Fail> {
    let mut text = format!(in alloc; "{SEED}\nx = [")?;
    for _ in 0..6000 {
        text.push_str("{a=1},")?;
    }
    text.push_str("]\n")?;
    Ok(text)
}

#[test]
fn texts_are_refused(rt: HostRuntime) -> Result<(), Fail> {
    let alloc = rt.alloc();
    for text in REFUSED {
        let error = numbered_text(alloc, text, 1).err();
        assert!(rt; error == Some(ReseedError::NoScenario), "{text}");
    }
    let text = wide(alloc)?;
    let error = numbered_text(alloc, text.as_str(), 1).err();
    assert!(rt; error == Some(ReseedError::TooLong));
    let text = format!(in alloc; "{SEED}\nx = \"\\n---\\n\"\n")?;
    let error = numbered_input(alloc, text.as_str(), 1, "step\n").err();
    assert!(rt; error == Some(ReseedError::HasMarker));
    let marked = "seed = 1\n---\r\n";
    let error = join_input(alloc, marked, "step\n").err();
    assert!(rt; error == Some(ReseedError::HasMarker));
    Ok(())
}
