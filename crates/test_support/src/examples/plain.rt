//! The plays of the folder `examples` that neither `early_or_torn` nor `test_play` has.

/// Plays, each after `^` and its name; after `~` its answers, which are separated by `; `. These
/// are texts and no tables, since the prover takes a text as one value.
pub const PLAIN: &str = r#"^first-run
# One server `a` and one client `w`, which sends two pings. Every message takes 10 ms.
# It shows the smallest run: a step for each thing that happens, until nothing is pending.
format = 1
seed = "0000000000000000000000000000000000000000000000000000000000000000"
protocol = "echo"
tick = 100
latency_min = 10
latency_max = 10
loss = 0
servers = ["a"]
checkpoint = 4
window = 2

[[client]]
name = "w"
ops = 2
---
step
step
step
step
step
step
step
look
~
place 1 clock 0; place 2 clock 0; place 3 clock 10; place 4 clock 20; place 5 clock 30; place 6 clock 40; refused 7 Idle; place 6 clock 40 serial 6 net 8 torn 0 pending 0 held 0
^partition
# Two servers and two clients. The link between `a` and `w` is cut while a ping is on its way, and heals later.
# It shows what a cut loses, and a step back over 13 events to before it.
format = 1
seed = "000102030405060708090a0b0c0d0e0f101112131415161718191a1b1c1d1e1f"
protocol = "echo"
tick = 100
latency_min = 5
latency_max = 15
loss = 0
servers = ["a", "b"]
checkpoint = 16
window = 16

[[client]]
name = "w"
ops = 2

[[client]]
name = "x"
ops = 2
---
# The four hosts start. `w` sends a ping to `a`, and `x` one to `b`.
step
step
step
step
look
look next

# Nothing that is sent between `a` and `w` comes through any more. The ping is on its way already and arrives, but the pong is lost.
partition a w
look link a w
step
step
step
step
step
look host x
look host w
look next

# The link heals. `w` still waits for the pong that was lost, so it is started anew, and gets through.
repair a w
look link a w
bounce w
step
step
step
step
step
look host w
look probe a served
look probe b served

# Back to just before the cut, with both pings on their way.
back 13
look
look next
look link a w
look probe a served
~
place 1 clock 0; place 2 clock 0; place 3 clock 0; place 4 clock 0; place 4 clock 0 serial 6 net 4 torn 0 pending 2 held 0; due 7 serial 4 host a message; place 5 clock 0; a w cut messages 0; place 6 clock 7; place 7 clock 15; place 8 clock 22; place 9 clock 34; place 10 clock 43; x up done yes draws 3 stable 0 unsynced 0; w up done no draws 1 stable 0 unsynced 0; none; place 11 clock 43; a w open messages 0; place 12 clock 43; place 13 clock 43; place 14 clock 57; place 15 clock 68; place 16 clock 75; place 17 clock 87; w up done yes draws 4 stable 0 unsynced 0; a served 3; b served 2; place 4 clock 0; place 4 clock 0 serial 6 net 4 torn 0 pending 2 held 0; due 7 serial 4 host a message; a w open messages 0; a served 0
^crash-and-bounce
# One server and three clients. The server crashes while pings are on their way to it, and starts again.
# It shows that what was sent to a stopped host is lost, that echo keeps nothing on its disk, and the world just before the crash.
format = 1
seed = "000102030405060708090a0b0c0d0e0f101112131415161718191a1b1c1d1e1f"
protocol = "echo"
tick = 100
latency_min = 5
latency_max = 15
loss = 100
servers = ["s"]
checkpoint = 16
window = 16
client = [{ name = "a", ops = 1 }, { name = "b", ops = 2 }, { name = "c", ops = 1 }]
---
# The four hosts start, and the clients send their pings.
step
step
step
step
look
look next

# The first ping reaches the server; then the server crashes. What was sent to it still arrives, but nothing happens there.
step
look probe s served
crash s
look host s
look probe s served
step
step
step
look

# It starts again, and has forgotten what it served.
bounce s
look next
step
look host s
look probe s served

# What was on its way when it crashed? Back to just before the crash.
back 6
look
look next
look probe s served
look host s
~
place 1 clock 0; place 2 clock 0; place 3 clock 0; place 4 clock 0; place 4 clock 0 serial 7 net 6 torn 0 pending 3 held 0; due 7 serial 4 host s message; place 5 clock 7; s served 1; place 6 clock 7; s down done no draws 2 stable 0 unsynced 0; s served down; place 7 clock 7; place 8 clock 15; place 9 clock 19; place 9 clock 19 serial 8 net 8 torn 0 pending 0 held 0; place 10 clock 19; due 19 serial 8 host s start; place 11 clock 19; s up done no draws 3 stable 0 unsynced 0; s served 0; place 5 clock 7; place 5 clock 7 serial 8 net 8 torn 0 pending 3 held 0; due 7 serial 6 host s message; s served 1; s up done no draws 2 stable 0 unsynced 0
^slow-disks
# Primary-backup on slow disks. `a` is the primary, `b` the backup, and a sync takes 20 ms.
# It shows a crash of `a` between a write and its sync: how much of each write its disk keeps, and what `a` knows after its restart.
format = 2
seed = "000102030405060708090a0b0c0d0e0f101112131415161718191a1b1c1d1e1f"
protocol = "primary_backup"
tick = 100
latency_min = 5
latency_max = 5
loss = 0
disk_latency = 20
servers = ["a", "b"]
checkpoint = 16
window = 16

[[client]]
name = "w"
ops = 1
---
# The hosts start, and `w` sends a value to `a`.
step
step
step
look next

# `a` writes the value and asks for a sync. For 20 ms what it wrote is not stable, and `b` hears nothing of it.
step
look host a
look next

# It crashes before the sync comes. Of each write its disk keeps all, a part, or nothing. The second one, which ends at byte 137, is there whole.
crash a
look
look host a

# It starts again and finds the value on its disk, so it tells `b`, which writes it and waits for a sync of its own.
bounce a
look probe a applied
look next
step
look next
step
look host b
look next
step
look host b
look probe b applied

# Back to just before the crash: two writes that are not stable yet, and the sync that would have come at 25 ms.
back 5
look host a
look next
look probe b applied
~
place 1 clock 0; place 2 clock 0; place 3 clock 0; due 5 serial 3 host a message; place 4 clock 5; a up done no draws 2 stable 0 unsynced 2; due 25 serial 5 host a sync; place 5 clock 5; place 5 clock 5 serial 7 net 2 torn 2 pending 1 held 0; a down done no draws 2 stable 137 unsynced 0; place 6 clock 5; a applied 1; due 5 serial 7 host a start; place 7 clock 5; due 10 serial 8 host b message; place 8 clock 10; b up done no draws 2 stable 0 unsynced 2; due 30 serial 10 host b sync; place 9 clock 30; b up done no draws 3 stable 137 unsynced 0; b applied 1; place 4 clock 5; a up done no draws 2 stable 0 unsynced 2; due 25 serial 5 host a sync; b applied 0
^lossy-direction
# Three servers keep a register. All that `c` sends to the client `w` is lost, and nothing else: a majority is enough for `w`.
# It shows a link with numbers of its own, for one direction.
format = 2
seed = "000102030405060708090a0b0c0d0e0f101112131415161718191a1b1c1d1e1f"
protocol = "abd"
tick = 100
latency_min = 5
latency_max = 15
loss = 0
disk_latency = 0
servers = ["a", "b", "c"]
checkpoint = 16
window = 16

[[client]]
name = "w"
ops = 1

[[link]]
source = "c"
target = "w"
latency_min = 5
latency_max = 15
loss = 1000
---
# The hosts start, and `w` asks all servers for what they keep.
step
step
step
step
look

# The three questions arrive. Each server answers, but what `c` sends does not become pending.
step
step
step
look
look link c w

# Two answers are a majority: `w` sends its value to all servers, and they write it.
step
step
step
step
step
look probe a val
look probe b val
look probe c val

# Two servers have told that they keep it, so `w` is done. What `c` would tell never comes.
step
step
step
step
step
step
look host w
look next
~
place 1 clock 0; place 2 clock 0; place 3 clock 0; place 4 clock 0; place 4 clock 0 serial 8 net 6 torn 0 pending 4 held 0; place 5 clock 7; place 6 clock 7; place 7 clock 15; place 7 clock 15 serial 10 net 12 torn 0 pending 3 held 0; c w open messages 0; place 8 clock 19; place 9 clock 29; place 10 clock 36; place 11 clock 36; place 12 clock 40; a val 3001; b val 3001; c val 0; place 13 clock 40; place 14 clock 41; place 15 clock 41; place 16 clock 45; place 17 clock 47; place 18 clock 229; w up done yes draws 6 stable 0 unsynced 0; none
^aborted
# Two-phase commit on slow disks: a is the coordinator, b the participant, and a sync takes 5 ms.
# Under this seed b votes against transaction 1, and it is aborted.
format = 2
seed = "0000000000000000000000000000000000000000000000000900000000000000"
protocol = "two_phase"
tick = 100
latency_min = 10
latency_max = 10
loss = 0
disk_latency = 5
servers = ["a", "b"]
checkpoint = 4
window = 2

[[client]]
name = "w"
ops = 1
---
run 1000
~
place 11 clock 45 all done
"#;
