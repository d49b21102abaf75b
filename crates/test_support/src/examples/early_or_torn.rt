//! The plays of the folder `examples` in which a put comes to a host before its start, or a crash
//! tears a write, laid out as in `plain`.

/// Plays, each after `^` and its name; after `~` its answers, which are separated by `; `.
pub const EARLY_OR_TORN: &str = r#"^early-put
# Primary-backup with a primary a and a backup b. Every message takes 10 ms, and a sync 5 ms. w puts two values.
# a restarts, and takes a put before its start: b never gets the put before that one, and w is never done.
format = 2
seed = "0000000000000000000000000000000000000000000000000000000000000000"
protocol = "primary_backup"
tick = 100
latency_min = 10
latency_max = 10
loss = 0
disk_latency = 5
servers = ["a", "b"]
checkpoint = 64
window = 64

[[client]]
name = "w"
ops = 2
---
# a has put 1 on its disk, and the cut keeps it from b. w has no answer, and sends the put again.
partition a b
run 5
hold w a
run 2
look probe a applied
look probe b applied

# The put comes to a just as a restarts. It has the older serial, so it comes before the start.
release w a
bounce a
look next
step
look probe a applied
look next
step

# a begins the put as its second one, and sends that alone. b waits for the first one, and takes no other.
repair a b
run 1000
look probe w next
look probe a applied
look probe b applied

# If the start comes first, the put waits until b has the one before it, and w is done.
branch 9
@1 bounce a
@1 step
@1 release w a
@1 repair a b
@1 run 1000
~
place 1 clock 0; place 6 clock 15; place 7 clock 15; place 9 clock 200; a applied 1; b applied 0; place 10 clock 200; place 11 clock 200; due 200 serial 10 host a message; place 12 clock 200; a applied 2; due 200 serial 11 host a start; place 13 clock 200; place 14 clock 200; place 1014 clock 33515; w next 1; a applied 2; b applied 0; made 1; place 10 clock 200; place 11 clock 200; place 12 clock 200; place 13 clock 200; place 29 clock 415 all done
^early-apply
# Primary-backup with a primary a and a backup b. Every message takes 10 ms, and a sync 5 ms. w puts one value.
# a restarts, and takes a put before its start: the start sends the put to b before it is stable, and a crash of a loses it.
format = 2
seed = "0000000000000000000000000000000000000000000000000400000000000000"
protocol = "primary_backup"
tick = 100
latency_min = 10
latency_max = 10
loss = 0
disk_latency = 5
servers = ["a", "b"]
checkpoint = 64
window = 64

[[client]]
name = "w"
ops = 1
---
# The put comes to a just as a restarts. It has the older serial, so it comes before the start.
hold w a
run 3
release w a
bounce a
watch b.applied <= a.applied
run 2
look host a
look next

# a has sent the put to b, and its own write is not stable. The crash loses it.
crash a
look host a
bounce a
run 2
look probe a applied
look probe b applied

# a begins the put again, as its first one. b takes it for one that it has, and acknowledges it.
unwatch 0
run 1000
look probe w next
~
place 1 clock 0; place 4 clock 0; place 5 clock 0; place 6 clock 0; made 0; place 8 clock 0; a up done no draws 3 stable 0 unsynced 2; due 5 serial 6 host a sync; place 9 clock 0; a down done no draws 3 stable 16 unsynced 0; place 10 clock 0; place 12 clock 10 watch 0; a applied 0; b applied 1; dropped 0; place 20 clock 245 all done; w next 2
^torn-commit
# Two-phase commit on slow disks: a is the coordinator, b the participant, and a sync takes 5 ms.
# A crash that tears the coordinator's write of its commit breaks their agreement on transaction 1.
format = 2
seed = "0000000000000000000000000000000000000000000000000500000000000000"
protocol = "two_phase"
tick = 100
latency_min = 10
latency_max = 10
loss = 0
disk_latency = 5
servers = ["a", "b"]
checkpoint = 4
window = 2

[[client]]
name = "w"
ops = 1
---
# w asks for a transaction, a asks b for its vote, and b votes for it. At place 8 a writes that it commits:
# transaction 1, the commit flag, and what became of transaction 1. That write is not stable yet.
step
step
step
step
step
step
step
step
look host a

# The crash tears the write after its ninth byte: the commit flag is on the disk, what became of transaction 1 is not.
crash a
bounce a
look host a

# At its boot a found transaction 1 open, and presumed that it was aborted (2). For b it is open (0).
look probe a first
look probe b first

# At its start a looks at its commit flag, and tells b to commit.
step
look next
step

# Now transaction 1 is aborted for a and committed (1) for b.
look probe a first
look probe b first

# A step back they still agreed.
back 1
look probe b first
~
place 1 clock 0; place 2 clock 0; place 3 clock 0; place 4 clock 10; place 5 clock 15; place 6 clock 25; place 7 clock 30; place 8 clock 40; a up done no draws 4 stable 10 unsynced 1; place 9 clock 40; place 10 clock 40; a up done no draws 4 stable 10 unsynced 0; a first 2; b first 0; place 11 clock 40; due 50 serial 15 host b message; place 12 clock 50; a first 2; b first 1; place 11 clock 40; b first 0
^walk-back
# The run of torn-commit.play, approached from behind: a watch stops the run where the servers disagree, a rewind finds where it
# began, and a branch shows what happens without the crash.
format = 2
seed = "0000000000000000000000000000000000000000000000000500000000000000"
protocol = "two_phase"
tick = 100
latency_min = 10
latency_max = 10
loss = 0
disk_latency = 5
servers = ["a", "b"]
checkpoint = 4
window = 2

[[client]]
name = "w"
ops = 1
---
# Servers that know of transaction 1 agree on it. Eight events in, a writes that it commits; a branch is made there for later.
watch agree first unless 0
run 8
branch 8

# The crash tears that write, and from the start of a on the run stops as soon as the watch fails.
crash a
bounce a
run 100
look probe a first
look probe b first

# When did a come to hold it for aborted (2)? A rewind stops at the last place where it did not.
watch a.first = 2
rewind 12
look host a
forward 1
forward 1
look probe a first

# On the branch there was no crash: after a tick (100 ms) both have committed.
@1 tick
@1 look probe a first
@1 look probe b first

# All events that the first branch keeps.
trace
~
made 0; place 8 clock 40; made 1; place 9 clock 40; place 10 clock 40; place 12 clock 50 watch 0; a first 2; b first 1; made 1; place 8 clock 40 watch 1; a up done no draws 4 stable 10 unsynced 1; place 9 clock 40; place 10 clock 40; a first 2; place 16 clock 140 all done; a first 1; b first 1; {"branch":0,"events":["step","step","step","step","step","step","step","step","crash a","bounce a","step","step"]}
^torn-tag
# The register on slow disks: a, b and c keep it, and a sync takes 5 ms. w writes 3001, reads, writes 3003, and reads again.
# A crash of a tears its write of 3003: it keeps the new tag with the old value, and the last read goes back to 3001.
format = 2
seed = "0000000000000000000000000000000000000000000000000200000000000000"
protocol = "abd"
tick = 100
latency_min = 10
latency_max = 10
loss = 0
disk_latency = 5
servers = ["a", "b", "c"]
checkpoint = 16
window = 16

[[client]]
name = "w"
ops = 4
---
# Operations 1 and 2: w has written 3001 and has read it.
watch w.next <= 2
run 100
look probe w val

# Operation 3: a is the first that writes 3003, under tag 2. Number, writer and value are one write of 24 bytes, not stable yet.
unwatch 0
watch a.num <= 1
run 100
look host a
look probe a val

# The crash keeps four of those bytes: the number of the tag is new, the value is old.
crash a
bounce a
look host a
look probe a num
look probe a val

# b and c keep 3003. They are a majority, so w has written it, and goes on to operation 4.
unwatch 0
watch w.next <= 3
run 100
look probe w next
look probe a val
look probe b val
look probe c val

# Operation 4 is a read. The answer of a comes first; those of b and c have the same tag, so w takes them for the same value.
unwatch 0
run 100
look probe w val

# On a branch from before the crash the read finds 3003.
branch 38
@1 run 100
@1 look probe w val
~
made 0; place 30 clock 85 watch 0; w val 3001; dropped 0; made 0; place 38 clock 115 watch 0; a up done no draws 8 stable 24 unsynced 1; a val 3003; place 39 clock 115; place 40 clock 115; a up done no draws 8 stable 24 unsynced 0; a num 2; a val 3001; dropped 0; made 0; place 47 clock 130 watch 0; w next 4; a val 3001; b val 3003; c val 3003; dropped 0; place 58 clock 170 all done; w val 3001; made 1; place 57 clock 170 all done; w val 3003
^torn-cell
# Primary-backup on slow disks: a is the primary, b the backup, and a sync takes 5 ms. w puts one value into cell 1.
# A crash of a keeps the cell that it wrote and loses the count beside it: a has a value that b does not have.
format = 2
seed = "0000000000000000000000000000000000000000000000000400000000000000"
protocol = "primary_backup"
tick = 100
latency_min = 10
latency_max = 10
loss = 0
disk_latency = 5
servers = ["a", "b"]
checkpoint = 4
window = 2

[[client]]
name = "w"
ops = 1
---
# a has begun the put: it wrote cell 1 (bytes 8 to 15), and then the count of its puts with the last cell (bytes 128 to 136).
run 4
look host a
look probe a applied

# The crash keeps the first of the two writes and loses the second: 16 bytes are stable, and none of them counts a put.
crash a
bounce a
look host a
look probe a applied

# So a has nothing to tell to b. If w does not ask again, because it stops too, it stays so. No probe shows a cell: by their
# probes the servers agree, by their disks they do not.
branch 6
crash w
run 100
look host a
look host b
look probe a applied
look probe b applied

# On branch 1 w asks again. The put is begun anew, and both servers have it.
@1 run 100
@1 look host a
@1 look host b
@1 look probe a applied
@1 look probe b applied
~
place 4 clock 10; a up done no draws 2 stable 0 unsynced 2; a applied 1; place 5 clock 10; place 6 clock 10; a up done no draws 2 stable 16 unsynced 0; a applied 0; made 1; place 7 clock 10; place 8 clock 10 idle; a up done no draws 3 stable 16 unsynced 0; b up done no draws 1 stable 0 unsynced 0; a applied 0; b applied 0; place 14 clock 250 all done; a up done no draws 6 stable 137 unsynced 0; b up done no draws 3 stable 137 unsynced 0; a applied 1; b applied 1
^torn-count
# Primary-backup on slow disks: a is the primary, b the backup, and a sync takes 5 ms. w puts 300 values.
# A crash of a tears its count of puts on the way from 255 to 256, so that it reads 0: the puts from there on never reach b.
format = 2
seed = "0000000000000000000000000000000000000000000000000700000000000000"
protocol = "primary_backup"
tick = 100
latency_min = 10
latency_max = 10
loss = 0
disk_latency = 5
servers = ["a", "b"]
checkpoint = 64
window = 64

[[client]]
name = "w"
ops = 300
---
# a begins put 256. On its disk the count is ff 00 .. 00 (255, low byte first), and 00 01 .. 00 (256) is not stable yet.
watch a.applied <= 255
run 2000
look host a
look probe b applied

# The crash keeps one byte of the new count, and the others are old: 00 00 .. 00.
crash a
bounce a
look probe a applied
look probe b applied

# a counts from 0 again. b takes each of its puts for one that it has, and acknowledges it without applying it.
unwatch 0
run 2000
look probe w next
look probe a applied
look probe b applied

# Without the crash b has all 300.
branch 1534
@1 run 2000
@1 look probe w next
@1 look probe a applied
@1 look probe b applied
~
made 0; place 1534 clock 12760 watch 0; a up done no draws 767 stable 137 unsynced 2; b applied 255; place 1535 clock 12760; place 1536 clock 12760; a applied 0; b applied 255; dropped 0; place 1763 clock 14975 all done; w next 301; a applied 45; b applied 255; made 1; place 1803 clock 15000 all done; w next 301; a applied 300; b applied 300
"#;
