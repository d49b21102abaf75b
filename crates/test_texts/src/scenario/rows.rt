//! Tables of texts. A row has the number and the key of the expected fault, or 0 if the text is a
//! scenario, and then for each changed line its key and its replacement.

/// Texts that are not TOML.
pub const NOT_TOML: &str = r#"
> 2 text @tick
tick = 
> 2 text @tick
tick = 100
tick = 100
> 2 text @loss
loss = 0 0
"#;

/// Unknown keys, the least of them in the order of their bytes.
pub const UNKNOWN_KEYS: &str = r#"
> 3 tock @tick
tick = 100
tock = 1
> 3 alpha @tick
tick = 100
zero = 1
alpha = 2
> 3 Z @tick
tick = 100
a = 1
Z = 2
> 3 @tick
tick = 100
"" = 1
a = 2
> 3 Tick @tick
Tick = 100
> 3 disk_latency @window
window = 2
disk_latency = 0
> 3 link @client
[[client]]
name = "w"
ops = 2
[[link]]
loss = 0
> 3 client @client
[[client]]
name = "w"
ops = 2
op = 3
> 3 client @client
[[client]]
name = "w"
ops = 2
[[client]]
name = "x"
ops = 2
loss = 0
"#;

/// Missing keys.
pub const MISSING_KEYS: &str = r#"
> 4 format @format

> 4 seed @seed

> 4 protocol @protocol

> 4 tick @tick

> 4 latency_min @latency_min

> 4 latency_max @latency_max

> 4 loss @loss

> 4 servers @servers

> 4 checkpoint @checkpoint

> 4 window @window

> 4 client @client

> 4 client @client
[[client]]
ops = 2
> 4 client @client
[[client]]
name = "w"
> 4 client @client
[[client]]
name = "w"
ops = 2
[[client]]
"#;

/// Wrong types.
pub const WRONG_TYPES: &str = r#"
> 5 format @format
format = "1"
> 5 format @format
format = 1.0
> 5 seed @seed
seed = 0
> 5 seed @seed
seed = ["00"]
> 5 protocol @protocol
protocol = true
> 5 protocol @protocol
protocol = 1979-05-27
> 5 tick @tick
tick = 100.0
> 5 tick @tick
tick = 1979-05-27T07:32:00Z
> 5 latency_min @latency_min
latency_min = "10"
> 5 latency_min @latency_min
latency_min = 07:32:00
> 5 latency_max @latency_max
latency_max = [10]
> 5 latency_max @latency_max
latency_max = inf
> 5 loss @loss
loss = false
> 5 loss @loss
loss = { of = 1000 }
> 5 servers @servers
servers = "a"
> 5 servers @servers
servers = ["a", 1]
> 5 servers @servers
servers = [["a"]]
> 5 checkpoint @checkpoint
checkpoint = nan
> 5 checkpoint @checkpoint
checkpoint = "4"
> 5 window @window
window = [2]
> 5 window @window
window = 2.5
> 5 client @client
client = 1
> 5 client @client
client = ["w"]
> 5 client @client
[client]
name = "w"
ops = 2
> 5 client @client
client = [{ name = "w", ops = 2 }, 2]
> 5 client @client
[[client]]
name = 1
ops = 2
> 5 client @client
[[client]]
name = "w"
ops = "2"
> 5 client @client
[[client]]
name = "w"
ops = 2.0
"#;

/// Seeds: 63 digits, 65, 66, none, signs that are no digits, and 64 digits in both cases.
pub const SEEDS: &str = r#"
> 6 seed @seed
seed = "000000000000000000000000000000000000000000000000000000000000000"
> 6 seed @seed
seed = "00000000000000000000000000000000000000000000000000000000000000000"
> 6 seed @seed
seed = "0000000000000000000000000000000000000000000000000000000000000000ab"
> 6 seed @seed
seed = ""
> 6 seed @seed
seed = "000000000000000000000000000000000000000000000000000000000000000g"
> 6 seed @seed
seed = "0x00000000000000000000000000000000000000000000000000000000000000"
> 6 seed @seed
seed = "0000000000000000000000000000000 00000000000000000000000000000000"
> 0 @seed
seed = "00112233445566778899aAbBcCdDeEfF000102030405060708090A0B0c0d0eFf"
"#;

/// Unknown protocols, those that need two servers, and one that does with one.
pub const PROTOCOLS: &str = r#"
> 7 protocol @protocol
protocol = "paxos"
> 7 protocol @protocol
protocol = "Echo"
> 7 protocol @protocol
protocol = "echo "
> 7 protocol @protocol
protocol = ""
> 7 protocol @protocol
protocol = "primary-backup"
> 11 servers @protocol
protocol = "primary_backup"
> 11 servers @protocol
protocol = "two_phase"
> 0 @protocol
protocol = "abd"
"#;

/// Formats.
pub const FORMATS: &str = r#"
> 8 format @format
format = 0
> 4 disk_latency @format
format = 2
> 8 format @format
format = 3
> 8 format @format
format = 9223372036854775807
> 5 format @format
format = 2.0
> 3 disk_latency @format
format = 2.0
disk_latency = 0
> 8 format @format
format = -1
> 0 @format
format = 0x01
"#;

/// Numbers at the ends of their ranges, and past them.
pub const NUMBERS: &str = r#"
> 9 tick @tick
tick = 0
> 0 @tick
tick = 1
> 0 @tick
tick = 60000
> 9 tick @tick
tick = 60001
> 9 tick @tick
tick = -1
> 9 tick @tick
tick = 9223372036854775807
> 9 tick @tick
tick = -9223372036854775808
> 9 tick @tick
tick = 4294967297
> 0 @tick
tick = 6_000
> 0 @latency_min
latency_min = 0
> 9 latency_min @latency_min
latency_min = -1
> 9 latency_min @latency_min
latency_min = 60001
> 9 latency_max @latency_min
latency_min = 11
> 9 latency_max @latency_min
latency_min = 60000
> 9 latency_max @latency_max
latency_max = 9
> 9 latency_max @latency_max
latency_max = 0
> 0 @latency_max
latency_max = 11
> 0 @latency_max
latency_max = 60000
> 9 latency_max @latency_max
latency_max = 60001
> 0 @loss
loss = 1000
> 9 loss @loss
loss = 1001
> 9 loss @loss
loss = -1
> 9 checkpoint @checkpoint
checkpoint = 0
> 0 @checkpoint
checkpoint = 1
> 0 @checkpoint
checkpoint = 1024
> 9 checkpoint @checkpoint
checkpoint = 1025
> 9 window @window
window = 0
> 0 @window
window = 1
> 0 @window
window = 4096
> 9 window @window
window = 4097
> 9 servers @servers
servers = []
> 9 client @client
client = []
> 9 client @client
[[client]]
name = "w"
ops = 0
> 0 @client
[[client]]
name = "w"
ops = 1
> 0 @client
[[client]]
name = "w"
ops = 1000
> 9 client @client
[[client]]
name = "w"
ops = 1001
> 9 client @client
[[client]]
name = "w"
ops = -2
"#;

/// Names.
pub const NAMES: &str = r#"
> 10 servers @servers
servers = [""]
> 10 servers @servers
servers = ["A"]
> 10 servers @servers
servers = ["a", "1b"]
> 10 servers @servers
servers = ["a", "b_"]
> 10 servers @servers
servers = ["é"]
> 0 @servers
servers = ["abcdefghijklmno7"]
> 10 servers @servers
servers = ["abcdefghijklmno78"]
> 0 @servers
servers = ["z09"]
> 10 client @client
[[client]]
name = ""
ops = 2
> 10 client @client
[[client]]
name = "W"
ops = 2
> 10 client @client
[[client]]
name = "w w"
ops = 2
> 10 client @client
[[client]]
name = "wwwwwwwwwwwwwwwww"
ops = 2
> 0 @client
[[client]]
name = "wwwwwwwwwwwwwwww"
ops = 2
"#;

/// Equal names.
pub const EQUAL_NAMES: &str = r#"
> 12 servers @servers
servers = ["a", "a"]
> 12 servers @servers
servers = ["a", "b", "c", "b"]
> 12 client @servers
servers = ["a", "w"]
> 12 client @client
[[client]]
name = "a"
ops = 2
> 12 client @client
[[client]]
name = "w"
ops = 2
[[client]]
name = "w"
ops = 2
> 0 @client
[[client]]
name = "w"
ops = 2
[[client]]
name = "x"
ops = 2
"#;

/// The same values written in other ways, and a tick that is a table.
pub const OTHER_WAYS: &str = r#"
> 0 @client
client = [{ name = "w", ops = 2 }]
> 0 @client
client = [{ name = 'w', ops = 0b10 }]
> 0 @client
[[client]]
"name" = "w"
'ops' = 2
> 0 @client
[['client']]
name = "w" # who
ops = 2
> 0 @tick
# a comment
  tick   =   100   # another
> 0 @tick
"tick" = +100
> 5 tick @tick
tick.length = 100
> 0 @servers
servers = [
  "a", # the only one
]
"#;

/// 32 hosts and 33 of them; a wrong number of hosts is found before two equal names.
pub const HOST_COUNTS: &str = r#"
> 0 @servers
servers = ["a0", "a1", "a2", "a3", "a4", "a5", "a6", "a7", "a8", "a9", "a10", "a11", "a12", "a13", "a14", "a15", "a16", "a17", "a18", "a19", "a20", "a21", "a22", "a23", "a24", "a25", "a26", "a27", "a28", "a29", "a30"]
> 11 servers @servers
servers = ["a0", "a1", "a2", "a3", "a4", "a5", "a6", "a7", "a8", "a9", "a10", "a11", "a12", "a13", "a14", "a15", "a16", "a17", "a18", "a19", "a20", "a21", "a22", "a23", "a24", "a25", "a26", "a27", "a28", "a29", "a30", "a31"]
> 11 servers @servers
servers = ["a0", "a1", "a2", "a3", "a4", "a5", "a6", "a7", "a8", "a9", "a10", "a11", "a12", "a13", "a14", "a15", "a16", "a17", "a18", "a19", "a20", "a21", "a22", "a23", "a24", "a25", "a26", "a27", "a28", "a29", "a30", "a31"]
@client
[[client]]
name = "a0"
ops = 2
"#;

/// Two changed lines, each a fault: the first fault in the order is reported. What is not TOML
/// comes before all others, and an unknown key of the text before one of a client, a missing key
/// and a wrong type; then the keys in the order of the table; for servers their types, their
/// number and their names; clients before equal names.
pub const PAIRS: &str = r#"
> 2 text @format

@window
window =
> 3 zebra @format

@window
window = 2
zebra = 1
> 3 zebra @format
format = true
@window
window = 2
zebra = 1
> 3 zebra @tick
tick = 100
zebra = 1
@client
[[client]]
alpha = 1
> 8 format @format
format = 3
@seed

> 6 seed @seed
seed = ""
@protocol
protocol = "x"
> 6 seed @seed
seed = ""
@protocol

> 7 protocol @protocol
protocol = "x"
@tick

> 9 tick @tick
tick = 0
@latency_min
latency_min = ""
> 9 latency_max @latency_max
latency_max = 9
@loss

> 9 latency_min @latency_min
latency_min = -1
@latency_max
latency_max = -2
> 9 loss @loss
loss = 1001
@servers
servers = 1
> 10 servers @servers
servers = ["A"]
@checkpoint

> 9 servers @servers
servers = []
@client

> 9 checkpoint @checkpoint
checkpoint = 0
@window

> 9 window @window
window = 0
@client
[[client]]
zebra = 1
> 5 servers @servers
servers = ["A", 1]
@client

> 4 client @servers
servers = ["a", "a"]
@client
[[client]]
name = "w"
> 12 servers @servers
servers = ["a", "a"]
@client
[[client]]
name = "a"
ops = 2
> 12 client @servers
servers = ["a", "b"]
@client
[[client]]
name = "b"
ops = 2
[[client]]
name = "a"
ops = 2
"#;

/// Clients with two faults: the tables in order, in each an unknown key, then its name, then its
/// operations.
pub const CLIENTS: &str = r#"
> 3 client @client
[[client]]
name = "W"
ops = 2
zebra = 1
> 3 client @client
[[client]]
ops = 0
zebra = 1
> 4 client @client
[[client]]
ops = 0
> 10 client @client
[[client]]
name = "W"
ops = "2"
> 10 client @client
[[client]]
name = "W"
> 9 client @client
[[client]]
name = "w"
ops = 0
[[client]]
zebra = 1
> 10 client @client
[[client]]
name = "W"
ops = 2
[[client]]
name = "w"
ops = 0
> 5 client @client
client = [{ zebra = 1 }, 1]
"#;
