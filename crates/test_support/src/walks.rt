//! Sessions of a walk: inputs, what is typed, and what the walk writes, byte by byte. `test_program`
//! plays them. They stand here, since the gate reserves twelve times as much memory for a line of a
//! crate as for one of a crate below it, and `test_program` is proved beside the programs.

/// Two-phase commit on slow disks. A crash tears the write of the commit, and three events follow.
pub const TORN: &str = r#"format = 2
seed = "0000000000000000000000000000000000000000000000000500000000000000"
protocol = "two_phase"
tick = 100
latency_min = 10
latency_max = 10
loss = 0
disk_latency = 5
servers = ["a", "b"]
checkpoint = 4
window = 2

[[client]]
name = "w"
ops = 1
---
run 8
crash a
bounce a
run 2
"#;

/// The way from the failing place of [`TORN`] to its cause.
pub const TO_THE_CAUSE: &str = "\
first agree first unless 0
e
b
cause
disk a
cause
event
b
d a
p
";

/// What a walk writes for [`TO_THE_CAUSE`].
pub const CAUSE: &str = "\
> first agree first unless 0
place 12 clock 50
fails: agree first unless 0: a.first 2 b.first 1 w.first 0
> e
12 clock 50: b gets Decide(true, 1) from a (sent at 11): writes 10 bytes at 0; asks for a \
sync, due 55
caused by 11 clock 40: a starts: sends Decide(true, 1) to b, due 50 (arrives at 12); timer 140
> b
place 11 clock 40
back by 1; next is 12 clock 50: b gets Decide(true, 1) from a (sent at 11): writes 10 bytes \
at 0; asks for a sync, due 55
> cause
place 10 clock 40
back by 1; next is 11 clock 40: a starts: sends Decide(true, 1) to b, due 50 (arrives at \
12); timer 140
> disk a
a: 10 bytes stable
     0  01 00 00 00 00 00 00 00 01 00
> cause
place 9 clock 40
back by 1; next is 10 clock 40: bounce a
> event
9 clock 40: crash a: keeps 9 of 10 bytes at 0; loses its sync, due 45; loses its timer, due 140
tears write 1 of 1 (keeps 9 of 10 bytes at 0), made by 8 clock 40: a gets Vote(true, 1) from b \
(sent at 7): writes 10 bytes at 0; asks for a sync, due 45; timer 140
> b
place 8 clock 40
back by 1; next is 9 clock 40: crash a: keeps 9 of 10 bytes at 0; loses its sync, due 45; \
loses its timer, due 140
> d a
a: 10 bytes stable
     0  01 00 00 00 00 00 00 00 00 00
not stable: 10 bytes at 0 (a sync is on its way): 01 00 00 00 00 00 00 00 01 01
> p
due 45: a's sync of 1 is done (queued at 8)
due 125: b's timer ends (queued at 6)
due 140: a's timer ends (queued at 8)
due 200: w's timer ends (queued at 3)
";

/// Two pings over links of 10 ms.
pub const PINGS: &str = r#"format = 1
seed = "0000000000000000000000000000000000000000000000000000000000000000"
protocol = "echo"
tick = 100
latency_min = 10
latency_max = 10
loss = 0
servers = ["a"]
checkpoint = 4
window = 2

[[client]]
name = "w"
ops = 2
---
run 4
"#;

/// Most commands of a walk, and mistakes, over [`PINGS`].
pub const COMMANDS: &str = "\
pending
hold a w
s
links

host w
disk a
log 3 4
log 9 3
log 9
log 0 0
log 4 9
at 10
f 9
last a
c
held w.next <= 1
first w.next <= 1
held w.next <= 1
first done w
first z.next = 0
event 3
event 9
g 2
s
script
branch 2
@1
crash a
@0 look
bounce z
log
t
script
@7
@x step
crsh a
goto a
back 1 2
host
held w.next
last z
help first
# a comment
w w.next<=1
w wnext <= 1
w w.next <= 1
look probe w next
trace
quit
s
";

/// What a walk writes for [`COMMANDS`].
pub const ANSWERS: &str = "\
> pending
due 30: a gets Ping(2) from w (queued at 4)
> hold a w
place 5 clock 20
5 clock 20: hold a w
> s
place 6 clock 30
6 clock 30: a gets Ping(2) from w (sent at 4): sends Pong(2) to w, held
> links
a to w: held, 1 message
  Pong(2)
w to a: held, 0 messages
> links
a to w: held, 1 message
  Pong(2)
w to a: held, 0 messages
> host w
w: up, not done
state: Client { next: 2 }
probes: next 2 served 0
disk: 0 bytes stable, 0 writes not stable
nothing is pending
> disk a
a: 0 bytes stable
> log 3 4
3 clock 10: a gets Ping(1) from w (sent at 2): sends Pong(1) to w, due 20 (arrives at 4)
4 clock 20: w gets Pong(1) from a (sent at 3): sends Ping(2) to a, due 30 (arrives at 6)
> log 9 3
there are no events from 9 to 3: 9 is after 3
> log 9
there is no event 9; the last kept event is 6
> log 0 0
there is no event 0; the last kept event is 6
> log 4 9
4 clock 20: w gets Pong(1) from a (sent at 3): sends Ping(2) to a, due 30 (arrives at 6)
5 clock 20: hold a w
6 clock 30: a gets Ping(2) from w (sent at 4): sends Pong(2) to w, held
> at 10
place 3 clock 10
back by 3; next is 4 clock 20: w gets Pong(1) from a (sent at 3): sends Ping(2) to a, due \
30 (arrives at 6)
> f 9
refused 5 TooFar
there is no such place: this is place 3 of 6, so go back by at most 3 or forward by at most 3
> last a
place 2 clock 0
back by 1; next is 3 clock 10: a gets Ping(1) from w (sent at 2): sends Pong(1) to w, due \
20 (arrives at 4)
> c
place 1 clock 0
back by 1; next is 2 clock 0: w starts: sends Ping(1) to a, due 10 (arrives at 3)
> held w.next <= 1
the condition holds here: go forward, or `first COND` goes to where it first fails
> first w.next <= 1
place 4 clock 20
2 clock 0: w starts: sends Ping(1) to a, due 10 (arrives at 3)
3 clock 10: a gets Ping(1) from w (sent at 2): sends Pong(1) to w, due 20 (arrives at 4)
4 clock 20: w gets Pong(1) from a (sent at 3): sends Ping(2) to a, due 30 (arrives at 6)
fails: w.next <= 1: w.next 2
> held w.next <= 1
place 3 clock 10
back by 1; next is 4 clock 20: w gets Pong(1) from a (sent at 3): sends Ping(2) to a, due \
30 (arrives at 6)
> first done w
place 0 clock 0
back by 3; next is 1 clock 0: a starts
fails: done w
> first z.next = 0
there is no such host
hosts: a w
> event 3
3 clock 10: a gets Ping(1) from w (sent at 2): sends Pong(1) to w, due 20 (arrives at 4)
caused by 2 clock 0: w starts: sends Ping(1) to a, due 10 (arrives at 3)
leads to 4 clock 20: w gets Pong(1) from a (sent at 3): sends Ping(2) to a, due 30 (arrives \
at 6)
> event 9
there is no event 9; the last kept event is 6
> g 2
place 2 clock 0
1 clock 0: a starts
2 clock 0: w starts: sends Ping(1) to a, due 10 (arrives at 3)
> s
refused 4 NotAtEnd
this is place 2 of 6, and events are added at the end: `goto 6` goes there, `cut` drops the \
events past this place, `branch 2` makes a branch that ends here
> script
format = 1
seed = \"0000000000000000000000000000000000000000000000000000000000000000\"
protocol = \"echo\"
tick = 100
latency_min = 10
latency_max = 10
loss = 0
servers = [\"a\"]
checkpoint = 4
window = 2

[[client]]
name = \"w\"
ops = 2
---
step
step
> branch 2
made 1
> @1
branch 1, place 2, clock 0
> crash a
place 3 clock 0
3 clock 0: crash a
> @0 look
place 2 clock 0 serial 3 net 2 torn 0 pending 1 held 0
> bounce z
refused 2 UnknownHost
there is no such host
hosts: a w
> log
1 clock 0: a starts
2 clock 0: w starts: sends Ping(1) to a, due 10
3 clock 0: crash a
> t
place 5 clock 100
4 clock 10: a gets Ping(1) from w (sent at 2): it is stopped, and the message is dropped
5 clock 100: the clock goes on
> script
there is none: no line makes the clock move alone, as `tick` does
> @7
there is no such branch; `branch P` makes one
> @x step
word 1, \"@x\": expected `@` and the number of a branch
> crsh a
word 1, \"crsh\": expected a command
`crash` is near; `help` lists the commands
> goto a
word 2, \"a\": expected a number of 1 to 9 digits
> back 1 2
word 3, \"2\": expected the end of the line
> host
a word is missing at the end: expected the name of a host
hosts: a w
> held w.next
a word is missing at the end: expected `<`, `<=`, `=`, `!=`, `>=` or `>`
> last z
there is no such host
hosts: a w
> help first
       first COND         to the first place at which the condition fails
COND is 1 to 8 terms, joined by `and` and `or`. A term is one of:
  HOST.PROBE OP VALUE          up HOST      not up HOST
  any PROBE OP VALUE           done HOST    not done HOST
  all PROBE OP VALUE           agree PROBE unless N
  count PROBE OP VALUE OP K    agree PROBE by PROBE unless N
                               differ PROBE unless N
OP is <, <=, =, !=, >= or >, between spaces; VALUE is a number or HOST.PROBE.
> # a comment
> w w.next<=1
word 2, \"w.next<=1\": expected a term of a condition
an operator stands between spaces, as in `w.next <= 3`
> w wnext <= 1
word 2, \"wnext\": expected a term of a condition
hosts: a w
probes: next served
COND is 1 to 8 terms, joined by `and` and `or`. A term is one of:
  HOST.PROBE OP VALUE          up HOST      not up HOST
  any PROBE OP VALUE           done HOST    not done HOST
  all PROBE OP VALUE           agree PROBE unless N
  count PROBE OP VALUE OP K    agree PROBE by PROBE unless N
                               differ PROBE unless N
OP is <, <=, =, !=, >= or >, between spaces; VALUE is a number or HOST.PROBE.
> w w.next <= 1
made 0
> look probe w next
w next 1
> trace
{\"branch\":1,\"events\":[\"step\",\"step\",\"crash a\",\"step\",\"advance 100\"]}
> quit
";

/// The other commands, over [`PINGS`].
pub const OTHER_COMMANDS: &str = "\
partition a w
repair a w
cutoneway w a
repaironeway w a
hold a w
release a w
run 9
watch done w
rewind 9
w up a
w up w
unwatch 1
unwatch 1
unwatch 2
unwatch 0
unwatch 0
cut
forward
r
r 1
bounce w
? quit
?
goto 0
q
";

/// What a walk writes for [`OTHER_COMMANDS`].
pub const OTHER_ANSWERS: &str = "\
> partition a w
place 5 clock 20
5 clock 20: partition a w
> repair a w
place 6 clock 20
6 clock 20: repair a w
> cutoneway w a
place 7 clock 20
7 clock 20: cutoneway w a
> repaironeway w a
place 8 clock 20
8 clock 20: repaironeway w a
> hold a w
place 9 clock 20
9 clock 20: hold a w
> release a w
place 10 clock 20
10 clock 20: release a w
> run 9
place 12 clock 40 all done
11 clock 30: a gets Ping(2) from w (sent at 4): sends Pong(2) to w, due 40 (arrives at 12)
12 clock 40: w gets Pong(2) from a (sent at 11): is done
> watch done w
made 0
> rewind 9
place 11 clock 30 watch 0
back by 1; next is 12 clock 40: w gets Pong(2) from a (sent at 11): is done
> w up a
made 1
> w up w
made 2
> unwatch 1
dropped 1
> unwatch 1
refused 10 UnknownWatch
there is no such watch
watches: 0 2
> unwatch 2
dropped 2
> unwatch 0
dropped 0
> unwatch 0
refused 10 UnknownWatch
there is no such watch
the branch has none; `watch COND` keeps one
> cut
place 11 clock 30
> forward
refused 5 TooFar
there is no such place: this is place 11 of 11, so go back by at most 11 or forward by at most 0
> r
a word is missing at the end: expected a number of 1 to 9 digits
> r 1
place 12 clock 40 all done
12 clock 40: w gets Pong(2) from a (sent at 11): is done
> bounce w
place 13 clock 40
13 clock 40: bounce w
> ? quit
        quit           q  ends the walk, as the end of the input does
> ?
go on   step (s), run N (r), tick (t)
move    back [N] (b), forward [N] (f), goto P (g), at T, rewind N
find    cause (c), last H, first COND, held COND
show    pending (p), event [P] (e), log [P [Q]], host H (h), disk H (d),
        links (l), look [VIEW], trace, script
faults  crash H, bounce H, hold A B, release A B, partition A B, repair A B,
        cutoneway A B, repaironeway A B
events  cut, branch P
watches watch COND (w), unwatch W
walk    help [COMMAND] (?), quit (q)

`help COMMAND`, as `help first`, says what a command does. H, A and B are hosts,
N is a number of events, P and Q are places, T is a time in ms, W is the number
of a watch, and COND is a condition, as in `first w.next <= 3` (without quotes).
A first word @1, as in `@1 step`, names branch 1; alone it goes there. An empty
line is the last command again.
> goto 0
place 0 clock 0
back by 13; next is 1 clock 0: a starts
> q
";

/// Holds and releases a link twelve times: 24 events.
pub const MANY_HOLDS: &str = "\
hold a w
release a w
hold a w
release a w
hold a w
release a w
hold a w
release a w
hold a w
release a w
hold a w
release a w
hold a w
release a w
hold a w
release a w
hold a w
release a w
hold a w
release a w
hold a w
release a w
hold a w
release a w
";

/// What a walk over [`PINGS`] with [`MANY_HOLDS`] writes for a move over all of these events.
pub const A_LONG_WAY: &str = "\
> goto 4
place 4 clock 20
back by 24; next is 5 clock 20: hold a w
> forward 24
place 28 clock 20
5 clock 20: hold a w
6 clock 20: release a w
7 clock 20: hold a w
8 clock 20: release a w
9 clock 20: hold a w
10 clock 20: release a w
11 clock 20: hold a w
12 clock 20: release a w
13 clock 20: hold a w
14 clock 20: release a w
15 clock 20: hold a w
16 clock 20: release a w
17 clock 20: hold a w
18 clock 20: release a w
19 clock 20: hold a w
20 clock 20: release a w
21 clock 20: hold a w
22 clock 20: release a w
23 clock 20: hold a w
24 clock 20: release a w
.. and 3 more: `log 25 27` tells them
28 clock 20: release a w
";

/// Three servers with slow disks. Two clients store at each server, one after the other, and at the
/// first server one of the two writes is stable.
pub const STORES: &str = r#"format = 2
seed = "0000000000000000000000000000000000000000000000000000000000000000"
protocol = "abd"
tick = 100
latency_min = 1
latency_max = 1
loss = 0
disk_latency = 60
servers = ["a", "b", "c"]
checkpoint = 4
window = 2

[[client]]
name = "w"
ops = 4

[[client]]
name = "x"
ops = 4
---
run 24
"#;

/// Crashes of the servers of [`STORES`], and what led to them.
pub const CRASHES: &str = "\
bounce c
e
crash b
e
crash a
e
crash a
e
";

/// What a walk writes for [`CRASHES`].
pub const STORES_TORN: &str = "\
> bounce c
place 25 clock 63
25 clock 63: bounce c: keeps 24 bytes at 0; keeps 4 of 24 bytes at 0; loses its sync, due 63; \
loses its sync, due 63
> e
25 clock 63: bounce c: keeps 24 bytes at 0; keeps 4 of 24 bytes at 0; loses its sync, due 63; \
loses its sync, due 63
tears write 2 of 2 (keeps 4 of 24 bytes at 0), made by 23 clock 3: c gets Store(3, Tagged \
{ number: 1, writer: 4, val: 4001 }) from x (sent at 16): writes 24 bytes at 0; asks for a sync, \
due 63
> crash b
place 26 clock 63
26 clock 63: crash b: keeps 24 bytes at 0; drops 24 bytes at 0; loses its sync, due 63; \
loses its sync, due 63
> e
26 clock 63: crash b: keeps 24 bytes at 0; drops 24 bytes at 0; loses its sync, due 63; \
loses its sync, due 63
drops write 2 of 2 (24 bytes at 0), made by 22 clock 3: b gets Store(3, Tagged { number: 1, \
writer: 4, val: 4001 }) from x (sent at 16): writes 24 bytes at 0; asks for a sync, due 63
> crash a
place 27 clock 63
27 clock 63: crash a: keeps 5 of 24 bytes at 0; loses its sync, due 63
> e
27 clock 63: crash a: keeps 5 of 24 bytes at 0; loses its sync, due 63
tears write 1 of 1 (keeps 5 of 24 bytes at 0), made by 21 clock 3: a gets Store(3, Tagged \
{ number: 1, writer: 4, val: 4001 }) from x (sent at 16): writes 24 bytes at 0; asks for a sync, \
due 63
> crash a
place 28 clock 63
28 clock 63: crash a
> e
28 clock 63: crash a
";
