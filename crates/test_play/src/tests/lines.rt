//! Bad lines, and unusual lines that are not bad.
use super::scenes::{HEAD, lines_of, status_of};
use sim_cli::Status;
use std::process::Abort;

/// 61 lines that are no commands, and one that is. A carriage return is dropped only before a
/// line's end.
const BAD: &[u8] = b"   
 # step
step now
Step
step\t
step\r\r
\xff\xfe
step \xff
tick 1
run
run x
run 1 2
run +1
run 1234567890
back
back -1
forward a
goto
goto 1.0
rewind 0x1
cut 1
branch
branch a
unwatch
unwatch 0 1
@ step
@1
@x step
@1234567890 step
@1 @1 step
look at
look next w
look host
look host A
look host 1a
look host abcdefghijklmnopq
look link a
look link a w a
look probe w
look probe w next next
crash
crash a w
hold a
trace 0
watch
watch up
watch up a w
watch up a or
watch up a and
watch and up a
watch up a and and up w
watch w.next
watch w.next < x
watch w.next == 1
watch w. next < 1
watch w.next.next < 1
watch .next < 1
watch w.next < 12345678901234567890
watch agree next 0
watch agree next unless
watch up a and up a and up a and up a and up a and up a and up a and up a and up a
look next
";

#[test]
fn refuses_lines_that_are_no_commands(rt: HostRuntime) {
    let want = lines_of(rt.alloc(), "~61*bad line\n~due 0 serial 0 host a start");
    let want = want.expect(&rt, "the answers");
    let status = status_of(rt.alloc(), HEAD.as_bytes(), BAD, want.as_str());
    assert_eq!(rt; status, Some(Status::Well));
}

/// A scenario, and lines of all forms. A line has at most 256 bytes and is read whatever its
/// spaces; other lines are bad and change nothing.
const LINES: &[u8] = b"format = 1
seed = \"0000000000000000000000000000000000000000000000000000000000000000\"
protocol = \"echo\"
tick = 100
latency_min = 10
latency_max = 10
loss = 0
servers = [\"a\"]
checkpoint = 4
window = 2
[[client]]
name = \"w\"
ops = 2
---\r
step\r
# a comment \xff

   
\xff
  step  
back 0000000001
back 000000001
look host z
look host Z
@0000000000 look
watch w.next < 00000000000000000001
unwatch 0
watch w.next < 0000000000000000001
";

const ANSWERS: &str = "place 1 clock 0
bad line
bad line
place 2 clock 0
bad line
place 1 clock 0
refused 2 UnknownHost
bad line
bad line
bad line
refused 10 UnknownWatch
made 0
bad line
due 0 serial 1 host w start
bad line
bad line
place 0 clock 0
";

/// More lines, of 256 bytes and of more. The last one has no end.
const LONG_LINES: &str = "\
@0 ~245* ~look next
@0 ~244* ~look next
x~256*x~
#~256*x~
x~300000*x~
#~300000*x~
back 1";

#[test]
fn takes_lines_as_they_come(rt: HostRuntime) {
    let long = lines_of(rt.alloc(), LONG_LINES).expect(&rt, "the lines");
    let long = long.as_str().trim_end().as_bytes();
    let status = status_of(rt.alloc(), LINES, long, ANSWERS);
    assert_eq!(rt; status, Some(Status::Well));
}
