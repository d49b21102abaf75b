//! The scenario, the script, and the names of both.
use crate::Trouble;
use sim_book::{Command, Entry, NotTaken, Refusal, Reply};
use sim_cli::{Only, Status, Tally, open};
use sim_lines::Ahead;
use sim_protocols::PrimaryBackup;
use sim_replies::tell_turn;
use sim_script::{Names, ScriptLine, line_of};
use sim_shipped::BackupSubject;
use sim_world::Scenario;
use std::alloc::Global;
use std::str;

// The protocols that the scenario may name. The prover takes longer for a longer list.
type Listed = Only<BackupSubject>;

/// The nodes of the run.
pub type Nodes = PrimaryBackup<Tally>;

/// A primary, a backup and a client, on disks whose syncs take 5 ms.
pub const SCENARIO: &str = r#"format = 2
seed = "000102030405060708090a0b0c0d0e0f101112131415161718191a1b1c1d1e1f"
protocol = "primary_backup"
tick = 40
latency_min = 5
latency_max = 15
loss = 0
disk_latency = 5
servers = ["p", "b"]
checkpoint = 3
window = 2

[[client]]
name = "c"
ops = 2
---
"#;

/// A script with a command of each kind, on three branches.
pub const SCRIPT: &str = "step
run 4
tick
watch up p and c.next <= 1
watch up b
back 3
forward 2
goto 1
branch 4
@1 crash b
@1 hold p c
@1 run 6
@1 release p c
@1 partition p b
@1 bounce b
@1 watch agree applied unless 0
@1 run 3
@1 rewind 5
unwatch 1
goto 5
cut
run 2
@1 branch 2
@2 tick
@2 look host p
forward 1
rewind 4
forward 9
goto 7
run 20
rewind 9
trace
@1 repair p b
@1 trace
";

/// The looks at each branch that show whether it is unchanged.
pub const LOOKS: &str = "look
look next
trace
@1 look
@1 look next
@1 trace
@2 look
@2 look next
@2 trace
";

/// Returns the scenario and the names.
pub fn opening<H: Eprint>(host: &H, alloc: Global) -> Result<(Scenario, Names), Trouble> {
    let mut reader = SCENARIO.as_bytes();
    let mut ahead = Ahead::new();
    let mut writer = Vec::new(alloc);
    match open::<Listed, H, _, _>(host, alloc, &mut reader, &mut ahead, &mut writer) {
        Ok(opened) => Ok((opened.scenario, opened.names)),
        Err(Status::MemoryWanted) => Err(Trouble::NoMemory),
        Err(_) => Err(Trouble::Wrong),
    }
}

/// Returns the command of a line.
pub fn command(alloc: Global, names: &Names, line: &str) -> Result<Command, Trouble> {
    match line_of(names, line.as_bytes()) {
        ScriptLine::Asked(ask) => Ok(ask.into_command(alloc)?),
        ScriptLine::Nothing | ScriptLine::Bad => Err(Trouble::Wrong),
    }
}

/// Returns whether a turn wanted memory.
pub fn wants_memory(turn: &Result<Entry, NotTaken>) -> bool {
    match turn {
        Ok(entry) => matches!(entry.reply, Reply::Refused(Refusal::NoMemory)),
        Err(why) => *why == NotTaken::NoMemory,
    }
}

/// Adds the line of a turn to a text.
pub fn tell(
    alloc: Global,
    text: &mut String,
    names: &Names,
    turn: &Result<Entry, NotTaken>,
) -> Result<(), Trouble> {
    let mut line = Vec::new(alloc);
    tell_turn(alloc, &mut line, names, turn)?;
    match str::from_utf8(line.as_slice()) {
        Ok(line) => Ok(text.push_str(line)?),
        Err(_) => Err(Trouble::Wrong),
    }
}
