//! Texts, and the answers to them.

use crate::shipped::Shipped;
use sim_scenario::read;
use std::alloc::{AllocError, Global};
use std::test::Fail;

/// The lines of a text that is a scenario, each below its key, which follows an `@`.
pub const LINES: &str = r#"
@format
format = 1
@seed
seed = "0000000000000000000000000000000000000000000000000000000000000000"
@protocol
protocol = "echo"
@tick
tick = 100
@latency_min
latency_min = 10
@latency_max
latency_max = 10
@loss
loss = 0
@servers
servers = ["a"]
@checkpoint
checkpoint = 4
@window
window = 2
@client
[[client]]
name = "w"
ops = 2
"#;

/// Returns the replacement of a key's line, if it is changed. Each change is the key after an `@`,
/// and below it the lines.
fn changed<'a>(changes: &'a str, key: &str) -> Option<&'a str> {
    for change in changes.split('@') {
        if let Some((named, lines)) = change.split_once('\n') {
            if named == key {
                return Some(lines);
            }
        }
    }
    None
}

/// Returns the text of these lines, some of them changed.
pub fn text_with(alloc: Global, lines: &str, changes: &str) -> Result<String, AllocError> {
    let mut text = String::new(alloc);
    for entry in lines.split('@') {
        if let Some((key, line)) = entry.split_once('\n') {
            text.push_str(changed(changes, key).unwrap_or(line))?;
        }
    }
    Ok(text)
}

/// Returns the text with CR and LF at the end of each line.
pub fn with_crlf(alloc: Global, lines: &str) -> Result<String, AllocError> {
    let mut text = String::new(alloc);
    for line in lines.lines() {
        text.push_str(line)?;
        text.push_str("\r\n")?;
    }
    Ok(text)
}

/// Returns a scenario with a comment after it, of this many bytes in all, and then an end.
pub fn padded(alloc: Global, len: usize, end: &str) -> Result<String, AllocError> {
    let mut text = text_with(alloc, LINES, "")?;
    text.push_str("#")?;
    for _ in text.len()..len {
        text.push_str("x")?;
    }
    text.push_str(end)?;
    Ok(text)
}

/// Returns whether the text is refused with this number and key, or is a scenario if `wanted` is
/// `0`.
pub fn is_answered(alloc: Global, text: &str, wanted: &str) -> bool {
    match read::<Shipped>(alloc, text) {
        Ok(_) => wanted == "0",
        Err(fault) => {
            let (number, key) = wanted.split_once(' ').unwrap_or((wanted, ""));
            number.parse::<u8>().unwrap_or(255) == fault.number() && key == fault.key()
        }
    }
}

/// Checks each row of a table: the text with its changes has the expected answer. A row follows a
/// `>`; its answer comes before its first `@`.
pub fn rows_hold(alloc: Global, lines: &str, table: &str) -> Result<(), Fail> {
    for row in table.split('>') {
        if let Some((wanted, changes)) = row.split_once('@') {
            let text = text_with(alloc, lines, changes)?;
            if !is_answered(alloc, text.as_str(), wanted.trim()) {
                return Err(Fail::new(row));
            }
        }
    }
    Ok(())
}
