//! A scenario, plays of it, and plays of rows of text.
use super::ports::{Narrow, Pieces, Quiet};
use sim_cli::Status;
use sim_play::play;
use sim_shipped::Shipped;
use std::alloc::Global;
use std::process::Abort;
use std::test::Fail;

/// A scenario of the server `a` and the client `w`, which sends two pings of 10 ms, and the line
/// `---`. The scenarios of rows are edits of this one.
pub const HEAD: &str = r#"format = 1
seed = "0000000000000000000000000000000000000000000000000000000000000000"
protocol = "echo"
tick = 100
latency_min = 10
latency_max = 10
loss = 0
servers = ["a"]
checkpoint = 4
window = 2
[[client]]
name = "w"
ops = 2
---
"#;

/// Plays what a reader gives. All tests but one call `play` here: the prover takes long for each
/// call of it over the protocols that ship.
pub fn play_shipped(alloc: Global, reader: &mut Pieces<'_>, writer: &mut Narrow<'_>) -> Status {
    play::<Shipped, _, _, _>(&Quiet, alloc, reader, writer)
}

/// Returns the status of the play of two texts, one after the other, if it writes exactly this.
pub fn status_of(alloc: Global, head: &[u8], script: &[u8], want: &str) -> Option<Status> {
    let mut reader = Pieces {
        most: 65_536,
        ..Pieces::new(head, script)
    };
    let mut writer = Narrow {
        most: usize::MAX,
        ..Narrow::new(want)
    };
    let status = play_shipped(alloc, &mut reader, &mut writer);
    writer.is_short_by(0).then_some(status)
}

/// Returns the scenario of `HEAD` with these edits, which are separated by ` & `: a text, ` -> `,
/// and what stands in its place. `-` is no edit. Returns `None` if memory is wanted, or if a text
/// is not there.
fn scenario_of(alloc: Global, edits: &str) -> Option<String> {
    let (scenario, _) = HEAD.split_once("---")?;
    let mut text = String::from_str(alloc, scenario).ok()?;
    for edit in edits.split(" & ").filter(|edit| *edit != "-") {
        let (old, new) = edit.split_once(" -> ")?;
        if !text.as_str().contains(old) {
            return None;
        }
        text = text.as_str().replacen(alloc, old, new, 1).ok()?;
    }
    Some(text)
}

/// Returns these lines, the last one with its end too. Where `~N*TEXT~` stands, they have the text
/// N times. `-` is no line.
pub fn lines_of(alloc: Global, lines: &str) -> Option<String> {
    let mut text = String::new(alloc);
    if lines == "-" {
        return Some(text);
    }
    for part in lines.split('~') {
        let (times, piece) = part.split_once('*').unwrap_or(("1", part));
        let times = times.parse::<usize>().ok()?;
        let pieces = piece.repeat(alloc, times).ok()?;
        text.push_str(pieces.as_str()).ok()?;
    }
    text.push('\n').ok()?;
    Some(text)
}

/// Returns the status of the play of a row, if it writes exactly what stands there. A row has the
/// edits of its scenario, the lines after this scenario, and the lines of the output, separated by
/// ` | `. Lines are separated by `; `.
pub fn status_of_row(alloc: Global, row: &str) -> Option<Status> {
    let row = row.replace(alloc, "; ", "\n").ok()?;
    let (edits, texts) = row.as_str().split_once(" | ")?;
    let (script, want) = texts.split_once(" | ")?;
    let scenario = scenario_of(alloc, edits)?;
    let script = lines_of(alloc, script)?;
    let want = lines_of(alloc, want)?;
    status_of(alloc, scenario.as_bytes(), script.as_bytes(), want.as_str())
}

/// Checks the plays of rows, one a line: of each row with the edits of a format, and with those of
/// each line of `grains`. `#` begins a comment. Rows are a text and no table, since the prover
/// takes a text as one value.
pub fn plays(
    rt: &impl Abort,
    alloc: Global,
    format: &str,
    grains: &str,
    rows: &str,
) -> Result<(), Fail> {
    for row in rows.lines().filter(|row| !row.starts_with('#')) {
        for grain in grains.lines() {
            let row = format!(in alloc; "{format} & {grain} & {row}")?;
            let status = status_of_row(alloc, row.as_str());
            assert!(rt; status == Some(Status::Well), "{row}");
        }
    }
    Ok(())
}
