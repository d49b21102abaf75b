//! Plays whose reader and writer handle one byte a call, and fail at each call in turn.
ghost use Rattle.std.specs.Prelude.{codes, [], ◌∷◌};

use super::ports::{Narrow, Pieces, Quiet};
use super::scenes::{HEAD, play_shipped};
use example_counter::{Counter, Message, Role};
use sim_cli::{Only, Status, Subject, Tally, With};
use sim_play::play;
use sim_shipped::EchoSubject;
use std::alloc::Global;
use std::process::Abort;
use std::test::Fail;

/// All that can happen to the two pings.
const FIRST_RUN: &str = "step\nstep\nstep\nstep\nstep\nstep\nstep\nlook\n";

const FIRST_ANSWERS: &str =
    "place 1 clock 0\nplace 2 clock 0\nplace 3 clock 10\nplace 4 clock 20\nplace 5 clock 30\nplace 6 clock 40\nrefused 7 Idle\nplace 6 clock 40 serial 6 net 8 torn 0 pending 0 held 0\n";

/// A scenario of a primary, a backup and a client, on disks whose syncs take 5 ms; the line `---`;
/// and two lines that are skipped.
const DISKS_HEAD: &str = r#"format = 2
seed = "000102030405060708090a0b0c0d0e0f101112131415161718191a1b1c1d1e1f"
protocol = "primary_backup"
tick = 40
latency_min = 5
latency_max = 15
loss = 0
disk_latency = 5
servers = ["p", "b"]
checkpoint = 8
window = 4
[[client]]
name = "c"
ops = 2
---
# a comment, and an empty line

"#;

/// A script of all commands, over three branches. Some are refused. Its last line has no end.
const EACH_COMMAND: &str = r#"look next
step
run 5
branch 6
watch c.next <= 1 and up p
watch agree applied unless 1
run 90
look host p
  look  probe c next
back 2
step
forward 1
goto 4
cut
tick
unwatch 0
unwatch 0
run 90
@1 crash b
@1 look
@1 look probe b applied
@1 hold p b
@1 bounce b
@1 run 2
@1 watch c.next < 2 and b.applied != 2
@1 watch p.applied >= 1
@1 look link p b
@1 release p b
@1 run 9
@1 partition p c
@1 repair p c
@1 cutoneway b p
@1 repaironeway b p
@1 unwatch 0
@1 watch c.next = 2
@1 rewind 9
@1 trace
@1 branch 3
@2 crash p
@2 crash c
@2 run 90
@3 step
unwatch 1
run 90
tick
watch done c
rewind 9
crash z
hold p p
watch p.other > 0
goto 99
up p
look"#;

/// The answers, a line for each command. Another program wrote the same.
const EACH_ANSWER: &str = r#"due 0 serial 0 host p start
place 1 clock 0
place 6 clock 27
made 1
made 0
made 1
place 9 clock 51 watch 0
p up done no draws 4 stable 137 unsynced 0
c next 2
place 7 clock 32
refused 4 NotAtEnd
place 8 clock 39
place 4 clock 7
place 4 clock 7
place 9 clock 47
dropped 0
refused 10 UnknownWatch
place 11 clock 60 watch 1
place 7 clock 27
place 7 clock 27 serial 10 net 4 torn 2 pending 2 held 0
b applied down
place 8 clock 27
place 9 clock 27
place 11 clock 112
made 0
made 1
p b held messages 1
place 12 clock 112
place 15 clock 131 watch 0
place 16 clock 131
place 17 clock 131
place 18 clock 131
place 19 clock 131
dropped 0
made 0
place 14 clock 119 watch 0
{"branch":1,"events":["step","step","step","step","step","step","crash b","hold p b","bounce b","step","step","release p b","step","step","step","partition p c","repair p c","cutoneway b p","repaironeway b p"]}
made 2
place 4 clock 0
place 5 clock 0
place 6 clock 7 idle
refused 1 UnknownBranch
dropped 1
place 16 clock 102 all done
place 17 clock 142 all done
made 0
place 15 clock 95 watch 0
refused 2 UnknownHost
refused 3 SameHost
refused 11 BadCondition
refused 5 TooFar
bad line
place 15 clock 95 serial 21 net 16 torn 0 pending 3 held 0
"#;

/// A play: a scenario up to its line `---`, a script, and its answers.
#[derive(Clone, Copy)]
struct Example {
    head: &'static str,
    script: &'static str,
    answers: &'static str,
    /// How often the answers are flushed if each byte takes a read: before each line of the script,
    /// before the end of the input if the last line has an end, and at the end.
    flushes: usize,
}

const FIRST: Example = Example {
    head: HEAD,
    script: FIRST_RUN,
    answers: FIRST_ANSWERS,
    flushes: 10,
};

/// Each command, on slow disks.
const EACH: Example = Example {
    head: DISKS_HEAD,
    script: EACH_COMMAND,
    answers: EACH_ANSWER,
    flushes: 56,
};

impl Example {
    fn reader(&self) -> Pieces<'static> {
        Pieces::new(self.head.as_bytes(), self.script.as_bytes())
    }

    /// Returns how many bytes of the answers are to come after this many reads of a byte: a line
    /// answers each whole line, and one the rest if the reads came to the end.
    fn to_come(&self, reads: usize) -> usize {
        let script = self.script.as_bytes();
        let reads = reads.saturating_sub(self.head.len());
        if reads > script.len() {
            return 0;
        }
        let (front, _) = script.split_at(reads);
        let lines = front.iter().filter(|byte| **byte == b'\n').count();
        let mut rest = self.answers;
        for _ in 0..lines {
            rest = rest.split_once('\n').unwrap_or(("", "")).1;
        }
        rest.len()
    }
}

/// Each read of an input fails in turn, also the one that finds its end, and at last none does. The
/// answers of the whole lines are written and flushed.
#[test]
fn answers_whole_lines_up_to_a_failed_read(rt: HostRuntime) {
    for example in [FIRST, EACH] {
        let len = example.head.len().saturating_add(example.script.len());
        for reads in 0..len.saturating_add(2) {
            let mut reader = Pieces {
                reads_left: reads,
                ..example.reader()
            };
            let mut writer = Narrow {
                flushes_left: example.flushes,
                ..Narrow::new(example.answers)
            };
            let status = play_shipped(rt.alloc(), &mut reader, &mut writer);
            if reads > len {
                assert_eq!(rt; (status, status.number()), (Status::Well, 0));
                assert_eq!(rt; writer.flushes_left, 0);
            } else {
                assert_eq!(rt; status, Status::ReaderFailed, "at read {reads}");
            }
            let to_come = example.to_come(reads);
            assert!(rt; writer.is_short_by(to_come), "at read {reads}");
            assert_eq!(rt; writer.to_flush, to_come, "at read {reads}");
        }
    }
}

/// Each write of the answers fails in turn, the last one first, and before that none does; if they
/// are written line by line, and if they are buffered.
#[test]
fn stops_at_a_failed_write(rt: HostRuntime) {
    for (example, most) in [(FIRST, 1), (EACH, 1), (FIRST, 100_000)] {
        for to_come in 0..example.answers.len().saturating_add(1) {
            let mut reader = Pieces {
                most,
                ..example.reader()
            };
            let mut writer = Narrow {
                writes_left: example.answers.len().saturating_sub(to_come),
                ..Narrow::new(example.answers)
            };
            let status = play_shipped(rt.alloc(), &mut reader, &mut writer);
            let want = if to_come == 0 {
                Status::Well
            } else {
                Status::WriterFailed
            };
            assert_eq!(rt; status, want, "{to_come} bytes before the end");
            assert!(rt;
                writer.is_short_by(to_come),
                "{to_come} bytes before the end"
            );
        }
    }
}

const TWO_STEPS: &str = "step\nstep\n";

const TWO_PLACES: &str = "place 1 clock 0\nplace 2 clock 0\n";

/// A flush fails before the script takes a read, before its next line does, at the end of the
/// input, and for a fault. At last a writer takes nothing. A row has the most bytes of a read and
/// of a write, and the number of flushes before the one that fails.
#[test]
fn stops_at_a_failed_flush(rt: HostRuntime) {
    for (head, script, read, written, flushes_left, want) in [
        (HEAD, TWO_STEPS, 100_000, 1, 0, ""),
        (HEAD, TWO_STEPS, 100_000, 1, 1, TWO_PLACES),
        (HEAD, TWO_STEPS, 100_000, 1, 2, TWO_PLACES),
        ("---\n", "", 100_000, 1, 0, "scenario fault 4 format\n"),
        (HEAD, FIRST_RUN, 1, 0, 1_000, ""),
    ] {
        let mut reader = Pieces {
            most: read,
            ..Pieces::new(head.as_bytes(), script.as_bytes())
        };
        let mut writer = Narrow {
            most: written,
            flushes_left,
            ..Narrow::new(want)
        };
        let status = play_shipped(rt.alloc(), &mut reader, &mut writer);
        assert_eq!(rt; status, Status::WriterFailed, "at flush {flushes_left}");
        assert!(rt; writer.is_short_by(0), "at flush {flushes_left}");
    }
}

/// A text that is no scenario is read up to its end, and a long one not even so far. What comes
/// after it stays unread.
#[test]
fn reads_no_more_than_a_bad_scenario(rt: HostRuntime) -> Result<(), Fail> {
    let alloc = rt.alloc();
    let long = "#".repeat(alloc, 65_700)?;
    for (input, left, want) in [
        (b"".as_slice(), 0, "scenario fault 4 format\n"),
        (b"---\nstep\n".as_slice(), 5, "scenario fault 4 format\n"),
        (
            b"\xff\n---\r\nstep\n".as_slice(),
            5,
            "scenario fault 2 text\n",
        ),
        (long.as_bytes(), 100, "scenario fault 1 text\n"),
    ] {
        let mut reader = Pieces::new(input, b"");
        let mut writer = Narrow::new(want);
        let status = play_shipped(alloc, &mut reader, &mut writer);
        assert_eq!(rt; (status, reader.rest.len()), (Status::BadScenario, left));
        assert!(rt; writer.is_short_by(0), "{want}");
    }
    Ok(())
}

/// The counter of `example_counter`, as a program of one's own plays it.
struct Counting;

impl Subject for Counting {
    type Node = Counter<Tally>;

    type Msg = Message;

    type Undo = Role;

    ghost protocol = { record { name = codes "counter"; least_servers = 1 } };

    ghost probes = { codes "next" ∷ codes "count" ∷ [] };

    fn name() -> &'static str {
        "counter"
    }

    fn least_servers() -> usize {
        1
    }

    fn probe_names() -> &'static [&'static str] {
        &["next", "count"]
    }
}

/// The example `counted-twice`.
const COUNTED_TWICE: &str =
    r#"# The counter of docs/NODES.md, for `example_play`: a server a and two clients. Every message takes 10 ms, and a sync 5 ms.
# A crash of a after its write and before its answer: the client asks again, and its operation is counted twice.
format = 2
seed = "000102030405060708090a0b0c0d0e0f101112131415161718191a1b1c1d1e1f"
protocol = "counter"
tick = 1000
latency_min = 10
latency_max = 10
loss = 0
disk_latency = 5
servers = ["a"]
checkpoint = 4
window = 8
[[client]]
name = "w"
ops = 2
[[client]]
name = "x"
ops = 1
---
# Until all clients have counted.
tick
look probe a count
look probe w next
# Back to where the server has written a count that is not stable yet.
goto 5
look probe a count
look host a
# On a branch it crashes before it can answer. The disk keeps the write, and the client asks again: it is counted twice.
branch 5
@1 crash a
@1 bounce a
@1 look probe a count
@1 tick
@1 look probe a count
# Here nothing has happened.
look probe a count
forward 12
look probe a count
"#;

const COUNTED_ANSWERS: &str = r#"place 17 clock 1000 all done
a count 3
w next 3
place 5 clock 10
a count 1
a up done no draws 3 stable 0 unsynced 1
made 1
place 6 clock 10
place 7 clock 10
a count 1
place 20 clock 1010
a count 4
a count 1
place 17 clock 1000
a count 3
"#;

/// Returns the status of a play over echo and the counter, if it writes exactly this.
fn status_of_own(alloc: Global, head: &str, script: &[u8], want: &str) -> Option<Status> {
    let mut reader = Pieces::new(head.as_bytes(), script);
    let mut writer = Narrow::new(want);
    let status = play::<With<EchoSubject, Only<Counting>>, _, _, _>(
        &Quiet,
        alloc,
        &mut reader,
        &mut writer,
    );
    writer.is_short_by(0).then_some(status)
}

#[test]
fn plays_subjects_of_ones_own(rt: HostRuntime) {
    let alloc = rt.alloc();
    let counted = status_of_own(alloc, COUNTED_TWICE, b"", COUNTED_ANSWERS);
    assert!(rt; counted == Some(Status::Well));

    let script = b"step\nlook probe w count\n".as_slice();
    let want = "place 1 clock 0\nrefused 11 BadCondition\n";
    assert!(rt;
        status_of_own(alloc, HEAD, script, want) == Some(Status::Well),
        "of echo"
    );
    let want = "scenario fault 7 protocol\n";
    let unknown = status_of_own(alloc, DISKS_HEAD, script, want);
    assert!(rt; unknown == Some(Status::BadScenario));
}
