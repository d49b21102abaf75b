//! What is told of a text that is no scenario: a sentence for each fault, with what was found and
//! what is allowed.

use super::links::LINES_2;
use super::texts::{LINES, padded, text_with};
use crate::shipped::Shipped;
use sim_explain::{Explanation, KnownProtocol};
use sim_scenario::{ScenarioFault, read};
use std::alloc::{AllocError, Global};
use std::test::Fail;

static PROTOCOLS: [KnownProtocol; 4] = [
    KnownProtocol {
        name: "echo",
        least_servers: 1,
    },
    KnownProtocol {
        name: "primary_backup",
        least_servers: 2,
    },
    KnownProtocol {
        name: "abd",
        least_servers: 1,
    },
    KnownProtocol {
        name: "two_phase",
        least_servers: 2,
    },
];

/// Texts of format 1. A row says the sentence that is wanted, and then of each changed line the key
/// of the line and what stands in its place.
const FIRST_FORMAT: &str = r#"
> line 4, column 8: a value is missing; up to the line --- the text has to be TOML @tick
tick = 
> line 5, column 1: duplicate key; up to the line --- the text has to be TOML @tick
tick = 100
tick = 100
> key "latency" is unknown; the keys of format 1 are format, seed, protocol, tick, latency_min, latency_max, loss, servers, checkpoint, window and client @tick
tick = 100
latency = 10
> key "disk_latency" is unknown here; a scenario has it only with format = 2 @window
window = 2
disk_latency = 5
> the 2nd client's key "op" is unknown; its keys are name and ops @client
[[client]]
name = "w"
ops = 2
[[client]]
name = "x"
ops = 2
op = 3
> tick is missing; it has to be a whole number from 1 to 60,000 (ms) @tick

> the 1st client's ops is missing; it has to be a whole number from 1 to 1,000 (operations) @client
[[client]]
name = "w"
> client is missing; it has to be one or more tables, each below a line [[client]] @client

> format is "1"; it has to be 1 or 2 @format
format = "1"
> tick is a floating-point number; it has to be a whole number from 1 to 60,000 (ms) @tick
tick = 100.0
> client is a table; it has to be one or more tables, each below a line [[client]] @client
[client]
name = "w"
ops = 2
> servers is "a"; it has to be an array of one or more names @servers
servers = "a"
> the 2nd item of servers is true; it has to be a name: 1 to 16 lower-case letters and digits, the first a letter @servers
servers = ["A", true]
> the 2nd item of client is 7; it has to be a table @client
client = [{ name = "w", ops = 2 }, 7]
> the 1st client's ops is a date or a time; it has to be a whole number from 1 to 1,000 (operations) @client
[[client]]
name = "w"
ops = 2026-11-27
> seed has 63 hexadecimal digits; it has to be a string of 64 of them @seed
seed = "000000000000000000000000000000000000000000000000000000000000000"
> seed is "0x00000000000000000000000000000000000000000000000000000000000000", not all hexadecimal digits; it has to be a string of 64 of them @seed
seed = "0x00000000000000000000000000000000000000000000000000000000000000"
> protocol is "Echo"; it has to be one of "echo", "primary_backup", "abd", "two_phase" @protocol
protocol = "Echo"
> format is 3; it has to be 1 or 2 @format
format = 3
> tick is 0; it has to be a whole number from 1 to 60,000 (ms) @tick
tick = 0
> latency_max is 9; it has to be a whole number from latency_min (10) to 60,000 (ms) @latency_max
latency_max = 9
> loss is -1; it has to be a whole number from 0 to 1,000 (of 1,000 messages) @loss
loss = -1
> servers is an empty array; it has to be an array of one or more names @servers
servers = []
> the 1st client's ops is 1001; it has to be a whole number from 1 to 1,000 (operations) @client
[[client]]
name = "w"
ops = 1001
> the 2nd item of servers is "server_b"; it has to be a name: 1 to 16 lower-case letters and digits, the first a letter @servers
servers = ["a", "server_b"]
> the 1st client's name is "?w"; it has to be a name: 1 to 16 lower-case letters and digits, the first a letter @client
[[client]]
name = "\nw"
ops = 2
> servers has 1 server; two_phase needs at least 2 servers @protocol
protocol = "two_phase"
> the 3rd server has the name "a", as the 1st server; each has to have its own @servers
servers = ["a", "b", "a"]
> the 1st client has the name "a", as the 1st server; each has to have its own @client
[[client]]
name = "a"
ops = 2
"#;

/// Texts of format 2. The first link goes from `w` to `a` unless the row changes it.
const SECOND_FORMAT: &str = r#"
> key "disks" is unknown; the keys are format, seed, protocol, tick, latency_min, latency_max, loss, servers, checkpoint, window, client, disk_latency and link @loss
loss = 0
disks = 1
> disk_latency is missing; it has to be a whole number from 0 to 60,000 (ms) @format
format = 2
> the 2nd link's key "delay" is unknown; its keys are source, target, latency_min, latency_max and loss @more
[[link]]
delay = 3
> the 1st link's target is missing; it has to be the name of a host @link
[[link]]
source = "w"
latency_min = 3
latency_max = 3
loss = 0
> the 1st link's latency_max is 2; it has to be a whole number from latency_min (3) to 60,000 (ms) @link
[[link]]
source = "w"
target = "a"
latency_min = 3
latency_max = 2
loss = 0
> the 1st link's target is "z"; it has to be one of a, w @link
[[link]]
source = "w"
target = "z"
latency_min = 3
latency_max = 3
loss = 0
> the 1st link goes from w to w; it has to go to another host @link
[[link]]
source = "w"
target = "w"
latency_min = 3
latency_max = 3
loss = 0
> the 2nd link goes from w to a, as the 1st does; a direction has at most one link @more
[[link]]
source = "w"
target = "a"
latency_min = 0
latency_max = 0
loss = 0
"#;

/// What is told of a text.
fn told(alloc: Global, text: &str) -> Result<String, AllocError> {
    match read::<Shipped>(alloc, text) {
        Ok(_) => String::from_str(alloc, "it is a scenario"),
        Err(fault) => {
            format!(in alloc;
                "{}",
                Explanation::new(alloc, text.as_bytes(), &fault, &PROTOCOLS)
            )
        }
    }
}

/// Each row of a table holds: of the text with its changes this is told. A row stands after a `>`.
fn sentences_hold(alloc: Global, lines: &str, table: &str) -> Result<(), Fail> {
    for row in table.split('>') {
        if let Some((wanted, changes)) = row.split_once('@') {
            let text = text_with(alloc, lines, changes)?;
            let told = told(alloc, text.as_str())?;
            if told.as_str() != wanted.trim() {
                return Err(Fail::new(told.as_str()));
            }
        }
    }
    Ok(())
}

/// A text with 32 servers and a client, one host more than a scenario may have.
fn many_hosts(alloc: Global) -> Result<String, AllocError> {
    let mut servers = String::from_str(alloc, "servers\nservers = [\"a\"")?;
    for number in 1..32_u8 {
        let more = format!(in alloc; ", \"a{number}\"")?;
        servers.push_str(more.as_str())?;
    }
    servers.push_str("]\n")?;
    text_with(alloc, LINES, servers.as_str())
}

fn is_told(alloc: Global, text: &str, wanted: &str) -> Result<(), Fail> {
    let told = told(alloc, text)?;
    if told.as_str() == wanted {
        Ok(())
    } else {
        Err(Fail::new(told.as_str()))
    }
}

#[test]
fn each_fault_has_a_sentence(rt: HostRuntime) -> Result<(), Fail> {
    let alloc = rt.alloc();
    sentences_hold(alloc, LINES, FIRST_FORMAT)?;
    sentences_hold(alloc, LINES_2, SECOND_FORMAT)
}

#[test]
fn long_texts_have_sentences(rt: HostRuntime) -> Result<(), Fail> {
    let alloc = rt.alloc();
    let long = padded(alloc, 65_537, "")?;
    is_told(
        alloc,
        long.as_str(),
        "the text is longer than 65,536 bytes; a script begins below a line ---",
    )?;
    let many = many_hosts(alloc)?;
    is_told(
        alloc,
        many.as_str(),
        "there are 32 servers and 1 client; together they have to be at most 32",
    )
}

/// Bytes that are no text: where they begin.
#[test]
fn bytes_have_a_sentence(rt: HostRuntime) -> Result<(), Fail> {
    let alloc = rt.alloc();
    let bytes = b"# \xc3\xa4\nformat = \"\xff\"\n";
    let fault = ScenarioFault::NotToml;
    let told = format!(in alloc; "{}", Explanation::new(alloc, bytes, &fault, &PROTOCOLS))?;
    let wanted = "line 2, column 11: invalid UTF-8; up to the line --- the text has to be TOML";
    if told.as_str() == wanted {
        Ok(())
    } else {
        Err(Fail::new(told.as_str()))
    }
}
