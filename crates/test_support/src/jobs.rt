//! Jobs and what they write. `test_program` carries them out. They stand here for the reason that
//! `walks` gives.

/// Scenarios, each after `^` and its name. The first one, `nothing`, is an empty text.
pub const SCENARIOS: &str = r#"nothing
^pings
format = 1
seed = "0000000000000000000000000000000000000000000000000000000000000000"
protocol = "echo"
tick = 100
latency_min = 10
latency_max = 10
loss = 0
servers = ["a"]
checkpoint = 4
window = 2

[[client]]
name = "w"
ops = 2
^abd
format = 2
seed = "0000000000000000000000000000000000000000000000000000000000000000"
protocol = "abd"
tick = 100
latency_min = 5
latency_max = 45
loss = 0
disk_latency = 20
servers = ["a", "b", "c"]
checkpoint = 64
window = 64

[[client]]
name = "w"
ops = 3
^two clients
format = 2
seed = "0000000000000000000000000000000000000000000000000000000000000000"
protocol = "abd"
tick = 100
latency_min = 5
latency_max = 45
loss = 0
disk_latency = 20
servers = ["a", "b", "c"]
checkpoint = 64
window = 64

[[client]]
name = "w"
ops = 3

[[client]]
name = "x"
ops = 3
^backup
format = 2
seed = "0000000000000000000000000000000000000000000000000000000000000000"
protocol = "primary_backup"
tick = 100
latency_min = 5
latency_max = 45
loss = 0
disk_latency = 20
servers = ["a", "b", "c"]
checkpoint = 64
window = 64

[[client]]
name = "w"
ops = 4

[[client]]
name = "x"
ops = 4
^two_phase
format = 2
seed = "0000000000000000000000000000000000000000000000000000000000000000"
protocol = "two_phase"
tick = 100
latency_min = 5
latency_max = 45
loss = 0
disk_latency = 20
servers = ["a", "b"]
checkpoint = 64
window = 64

[[client]]
name = "w"
ops = 3
"#;

/// A row a line: the scenario, the lines of its script, the words of the command line, a last word
/// that may have spaces, the status, and the lines of the output. Lines are separated by `; `, and
/// `-` is nothing. This is a text and no table, since the prover takes a text as one value.
pub const ROWS: &str = r#"# Searches of the run of all steps.
pings | step; step; step; step; step; step; step; look | search --workers 1 0 6 | w.next <= 1 | 0 | first 4
pings | step; step; step; step; step; step; step; look | search --workers 1 0 6 | w.next <= 3 | 0 | none
pings | step; step; step; step; step; step; step; look | search --workers 1 0 7 | up a | 2 | bad range
pings | step; step; step; step; step; step; step; look | search --workers 2 0 6 | w.next <= 1 | 0 | first 4
pings | step; step; step; step; step; step; step; look | search --workers 2 0 6 | w.next <= 3 | 0 | none
pings | step; step; step; step; step; step; step; look | search --workers 2 0 7 | up a | 2 | bad range
pings | step; step; step; step; step; step; step; look | search --workers 16 0 6 | w.next <= 1 | 0 | first 4
pings | step; step; step; step; step; step; step; look | search --workers 16 0 6 | w.next <= 3 | 0 | none
pings | step; step; step; step; step; step; step; look | search --workers 16 0 7 | up a | 2 | bad range
# Sweeps, which read no script.
pings | step; step; step; step; step; step; step; look | sweep --workers 1 0 3 6 | w.next <= 1 | 0 | seed 0 place 4
pings | step; step; step; step; step; step; step; look | sweep --workers 1 5 3 6 | w.next <= 3 | 0 | none
pings | step; step; step; step; step; step; step; look | sweep --workers 1 7 2 3 | w.next <= 1 | 0 | none
pings | step; step; step; step; step; step; step; look | sweep --workers 1 18446744073709551615 2 6 | up a | 2 | bad range
pings | step; step; step; step; step; step; step; look | sweep --workers 1 0 0 6 | up a | 2 | bad range
pings | step; step; step; step; step; step; step; look | sweep --workers 1 0 4294967297 6 | up a | 2 | bad range
pings | step; step; step; step; step; step; step; look | sweep --workers 1 0 1 6 | up z | 2 | bad condition
pings | step; step; step; step; step; step; step; look | sweep --workers 2 0 3 6 | w.next <= 1 | 0 | seed 0 place 4
pings | step; step; step; step; step; step; step; look | sweep --workers 2 5 3 6 | w.next <= 3 | 0 | none
pings | step; step; step; step; step; step; step; look | sweep --workers 2 7 2 3 | w.next <= 1 | 0 | none
pings | step; step; step; step; step; step; step; look | sweep --workers 2 18446744073709551615 2 6 | up a | 2 | bad range
pings | step; step; step; step; step; step; step; look | sweep --workers 2 0 0 6 | up a | 2 | bad range
pings | step; step; step; step; step; step; step; look | sweep --workers 2 0 4294967297 6 | up a | 2 | bad range
pings | step; step; step; step; step; step; step; look | sweep --workers 2 0 1 6 | up z | 2 | bad condition
pings | step; step; step; step; step; step; step; look | sweep --workers 16 0 3 6 | w.next <= 1 | 0 | seed 0 place 4
pings | step; step; step; step; step; step; step; look | sweep --workers 16 5 3 6 | w.next <= 3 | 0 | none
pings | step; step; step; step; step; step; step; look | sweep --workers 16 7 2 3 | w.next <= 1 | 0 | none
pings | step; step; step; step; step; step; step; look | sweep --workers 16 18446744073709551615 2 6 | up a | 2 | bad range
pings | step; step; step; step; step; step; step; look | sweep --workers 16 0 0 6 | up a | 2 | bad range
pings | step; step; step; step; step; step; step; look | sweep --workers 16 0 4294967297 6 | up a | 2 | bad range
pings | step; step; step; step; step; step; step; look | sweep --workers 16 0 1 6 | up z | 2 | bad condition
# A scenario's fault comes before bad words of a condition, these before a bad range, and that before a host or probe
# that does not exist.
nothing | - | search 0 7 | up | 1 | scenario fault 4 format
nothing | - | sweep 0 0 6 | up | 1 | scenario fault 4 format
pings | step; step; step; step; step; step; step; look | search 0 7 | up | 2 | bad condition
pings | step; step; step; step; step; step; step; look | sweep 0 0 6 | up | 2 | bad condition
pings | step; step; step; step; step; step; step; look | search 0 7 | up z | 2 | bad range
pings | step; step; step; step; step; step; step; look | sweep 0 0 6 | up z | 2 | bad range
pings | step; step; step; step; step; step; step; look | search 0 6 | up z | 2 | bad condition
pings | step; step; step; step; step; step; step; look | sweep 0 1 6 | up z | 2 | bad condition
pings | step; step; step; step; step; step; step; look | search 0 6 | w.first <= 1 | 2 | bad condition
pings | step; step; step; step; step; step; step; look | sweep 0 1 6 | w.first <= 1 | 2 | bad condition
pings | step; step; step; step; step; step; step; look | search 0 6 | up a and | 2 | bad condition
pings | step; step; step; step; step; step; step; look | sweep 0 1 6 | up a and | 2 | bad condition
# Conditions that a replicated service promises: a client and a register, two clients, a primary and its backups.
abd | - | sweep 0 100 200 | agree val by num unless 0 | 0 | none
abd | - | sweep 0 5 200 | not up w or w.next <= 2 and any num < 3 | 0 | seed 0 place 28
abd | - | sweep 0 100 200 | count val >= w.val >= 3 | 0 | none
two clients | - | sweep 0 20 200 | differ num unless 0 | 0 | seed 0 place 19
two clients | - | sweep 0 20 200 | all num <= 2 | 0 | seed 1 place 81
two clients | - | sweep 0 20 200 | w.val <= x.val | 0 | seed 0 place 52
two clients | - | sweep 0 20 200 | agree val by num unless 0 | 0 | seed 0 place 20
two clients | - | sweep 0 20 200 | not done w or w.next >= x.next | 0 | none
backup | - | sweep 0 20 200 | all applied <= a.applied | 0 | none
backup | - | sweep 0 20 200 | a.applied <= b.applied | 0 | seed 0 place 6
backup | - | sweep 0 20 200 | any applied >= w.next | 0 | seed 0 place 4
backup | - | sweep 0 20 200 | not done w or any applied >= 4 | 0 | none
backup | - | sweep 0 20 200 | not done w or not done x or count applied >= 8 = 3 | 0 | none
# Words that are no condition of the scenario; the last has nine terms.
abd | - | sweep 0 1 200 | agree val by | 2 | bad condition
abd | - | sweep 0 1 200 | count val >= z.val >= 3 | 2 | bad condition
abd | - | sweep 0 1 200 | not w.val = 1 | 2 | bad condition
abd | - | sweep 0 1 200 | up a or up a or up a or up a or up a or up a or up a or up a or up a | 2 | bad condition
# Planned faults that break two-phase commit.
two_phase | bounce a | sweep --workers 1 --faults 8 0 1500 120 | agree first unless 0 | 0 | seed 654 place 26
two_phase | bounce a | sweep --workers 2 --faults 8 0 1500 120 | agree first unless 0 | 0 | seed 654 place 26
two_phase | bounce a | sweep --workers 16 --faults 8 0 1500 120 | agree first unless 0 | 0 | seed 654 place 26
two_phase | bounce a | sweep --json --faults 8 0 1500 120 | agree first unless 0 | 0 | {"count":1500,"events":120,"first":0,"place":26,"seed":654}
two_phase | bounce a | sweep --faults 8 --quiet 500 --at-end 0 1500 120 | done w | 0 | seed 6 place 622
# Planned faults that break what clients are promised.
abd | - | sweep --faults 8 0 100 200 | agree val by num unless 0 | 0 | seed 15 place 52
abd | - | sweep --faults 8 0 300 120 | up a and up b or up c | 0 | seed 1 place 68
abd | - | sweep --faults 8 0 300 120 | count num >= 0 > 2 | 0 | seed 1 place 68
backup | - | sweep --faults 8 0 100 200 | not done w or not done x or count applied >= 8 = 3 | 0 | seed 0 place 133
# The script bounces a host. So the first event of each run is that fault, and not a step.
two_phase | bounce a | sweep --script 7 2 0 | up a | 0 | none
two_phase | bounce a | sweep --script --at-end 7 2 3 | w.next = 9 | 0 | seed 7 place 4
# Numbers past their limits.
abd | - | sweep --faults 1 0 1 9 | up a | 2 | bad range
abd | - | sweep --faults 65537 0 1 9 | up a | 2 | bad range
abd | - | sweep --faults 8 0 1 65535 | up a | 2 | bad range
abd | - | sweep --quiet 65534 0 1 1 | up a | 2 | bad range
abd | - | sweep --quiet 4294967296 0 1 0 | up z | 2 | bad range
abd | - | script --faults 1 0 9 | - | 2 | bad range
# Runs that are not shrunk.
two_phase | bounce a | shrink | up a or not up a | 0 | none
two_phase | bounce a | shrink | up a and | 2 | bad condition
two_phase | bounce a | shrink | up z | 2 | bad condition
# A strict job ends at the first line at fault. A search and a shrinking write nothing then.
pings | # fine; ; step | play --strict | - | 0 | place 1 clock 0
pings | step; @1 step; step | play --strict | - | 2 | place 1 clock 0; refused 1 UnknownBranch
pings | step; crsh a | play --strict | - | 2 | place 1 clock 0; bad line
pings | run 4 | search --strict 0 4 | w.next <= 1 | 0 | first 4
pings | run 4; crsh a | search --strict 0 4 | w.next <= 1 | 2 | -
pings | crash a | sweep --script --strict 0 1 0 | up a | 0 | seed 0 place 1
pings | crash a; crash z | sweep --script --strict 0 1 0 | up a | 2 | -
pings | crash a; crsh a | shrink | up a | 2 | -
# Logs. The second answer is held and released.
pings | run 4; hold a w; step; release a w; step | log | - | 0 | 1 clock 0: a starts; 2 clock 0: w starts: sends Ping(1) to a, due 10 (arrives at 3); 3 clock 10: a gets Ping(1) from w (sent at 2): sends Pong(1) to w, due 20 (arrives at 4); 4 clock 20: w gets Pong(1) from a (sent at 3): sends Ping(2) to a, due 30 (arrives at 6); 5 clock 20: hold a w; 6 clock 30: a gets Ping(2) from w (sent at 4): sends Pong(2) to w, held; 7 clock 30: release a w: lets Pong(2) go to w (arrives at 8); 8 clock 30: w gets Pong(2) from a (let go at 7): is done
pings | run 4; hold a w; step; release a w; step | log --json --from 5 --to 5 | - | 0 | {"clock":20,"place":5,"rows":[["hold",20,0,1],["link",0,1,"held"],["link",1,0,"held"]]}
pings | run 4; hold a w; step; release a w; step | log --to 9 | - | 2 | bad range
pings | run 4; hold a w; step; release a w; step; crsh a | log | - | 2 | -
pings | run 4; hold a w; step; release a w; step; crsh a | page | - | 2 | -
pings | run 4; hold a w; step; release a w; step | page --watch | w.next <= 1; x.next <= 1 | 2 | bad condition"#;

/// Two-phase commit over slow disks, with one fault.
pub const SLOW_COMMIT: &str = r#"format = 2
seed = "0000000000000000000000000000000000000000000000000000000000000000"
protocol = "two_phase"
tick = 100
latency_min = 5
latency_max = 45
loss = 0
disk_latency = 20
servers = ["a", "b"]
checkpoint = 64
window = 64
[[client]]
name = "w"
ops = 3
---
bounce a
"#;

/// Two pings over links of 10 ms. The second answer is held and released.
pub const HELD_PINGS: &str = r#"format = 1
seed = "0000000000000000000000000000000000000000000000000000000000000000"
protocol = "echo"
tick = 100
latency_min = 10
latency_max = 10
loss = 0
servers = ["a"]
checkpoint = 4
window = 2

[[client]]
name = "w"
ops = 2
---
run 4
hold a w
step
release a w
step
"#;
