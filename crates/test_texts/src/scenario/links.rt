//! Texts of format 2: their links, and the latency of a sync.

ghost use Rattle.sim_scenario.specs.Hosts.{IsNumbered};

use super::said::{names_are, scenario, ways_are};
use super::texts::{LINES, text_with};
use crate::same::same;
use sim_links::Way;
use sim_scenario::ScenarioText;
use std::alloc::Global;
use std::test::Fail;

/// The lines of a text of format 2, whose syncs take no time, with a link from `w` to `a` and room
/// for more.
pub const LINES_2: &str = r#"
@format
format = 2
disk_latency = 0
@seed
seed = "0000000000000000000000000000000000000000000000000000000000000000"
@protocol
protocol = "echo"
@tick
tick = 100
@latency_min
latency_min = 10
@latency_max
latency_max = 10
@loss
loss = 0
@servers
servers = ["a"]
@checkpoint
checkpoint = 4
@window
window = 2
@client
[[client]]
name = "w"
ops = 2
@link
[[link]]
source = "w"
target = "a"
latency_min = 3
latency_max = 3
loss = 0
@more

"#;

/// Links that follow another: unknown keys, missing ones, wrong types and numbers out of their
/// ranges, in the order of the keys and a table before the next; then a source or target that is no
/// host, or both one; then a pair twice, also where both say the same.
pub const SECOND_LINKS: &str = r#"
> 0 @more
[[link]]
source = "a"
target = "w"
latency_min = 0
latency_max = 60000
loss = 1000
> 3 link @more
[[link]]
zebra = 1
> 3 link @more
[[link]]
name = "w"
> 4 link @more
[[link]]
> 4 link @more
[[link]]
target = "w"
latency_min = 0
latency_max = 0
loss = 0
> 4 link @more
[[link]]
source = "a"
latency_min = 0
latency_max = 0
loss = 0
> 4 link @more
[[link]]
source = "a"
target = "w"
latency_max = 0
loss = 0
> 4 link @more
[[link]]
source = "a"
target = "w"
latency_min = 0
loss = 0
> 4 link @more
[[link]]
source = "a"
target = "w"
latency_min = 0
latency_max = 0
> 5 link @more
[[link]]
source = 0
target = "w"
latency_min = 0
latency_max = 0
loss = 0
> 5 link @more
[[link]]
source = "a"
target = ["w"]
latency_min = 0
latency_max = 0
loss = 0
> 5 link @more
[[link]]
source = "a"
target = "w"
latency_min = "0"
latency_max = 0
loss = 0
> 5 link @more
[[link]]
source = "a"
target = "w"
latency_min = 0
latency_max = 0.0
loss = 0
> 5 link @more
[[link]]
source = "a"
target = "w"
latency_min = 0
latency_max = 0
loss = false
> 9 link @more
[[link]]
source = "a"
target = "w"
latency_min = -1
latency_max = 0
loss = 0
> 9 link @more
[[link]]
source = "a"
target = "w"
latency_min = 60001
latency_max = 60001
loss = 0
> 9 link @more
[[link]]
source = "a"
target = "w"
latency_min = 2
latency_max = 1
loss = 0
> 9 link @more
[[link]]
source = "a"
target = "w"
latency_min = 2
latency_max = 60001
loss = 0
> 9 link @more
[[link]]
source = "a"
target = "w"
latency_min = 0
latency_max = 0
loss = 1001
> 5 link @more
[[link]]
loss = 1001
source = 1
> 4 link @more
[[link]]
loss = 1001
latency_max = -1
latency_min = 0
target = "w"
> 5 link @more
[[link]]
loss = 0
latency_max = -1
latency_min = true
target = "w"
source = "z"
> 5 link @more
[[link]]
source = 1
[[link]]
zebra = 1
> 13 link @more
[[link]]
source = "a"
target = "z"
latency_min = 0
latency_max = 0
loss = 0
> 13 link @more
[[link]]
source = ""
target = "w"
latency_min = 0
latency_max = 0
loss = 0
> 13 link @more
[[link]]
source = "W"
target = "a"
latency_min = 0
latency_max = 0
loss = 0
> 13 link @more
[[link]]
source = "a"
target = "a"
latency_min = 0
latency_max = 0
loss = 0
> 14 link @more
[[link]]
source = "w"
target = "a"
latency_min = 0
latency_max = 0
loss = 0
> 14 link @more
[[link]]
source = "w"
target = "a"
latency_min = 3
latency_max = 3
loss = 0
> 13 link @more
[[link]]
source = "w"
target = "a"
latency_min = 3
latency_max = 3
loss = 0
[[link]]
source = "w"
target = "z"
latency_min = 3
latency_max = 3
loss = 0
> 9 link @more
[[link]]
source = "w"
target = "z"
latency_min = 3
latency_max = 3
loss = 0
[[link]]
source = "w"
target = "a"
latency_min = 3
latency_max = 2
loss = 0
"#;

/// A link in each format, and the keys of format 2.
pub const FORMAT_KEYS: &str = r#"
> 0 @format
format = 2
disk_latency = 0
> 0 @format
format = 2
disk_latency = 60000
> 4 disk_latency @format
format = 2
> 9 disk_latency @format
format = 2
disk_latency = 60001
> 9 disk_latency @format
format = 2
disk_latency = -1
> 5 disk_latency @format
format = 2
disk_latency = "0"
> 3 link @format
format = 1
> 3 disk_latency @format
format = 1
disk_latency = 0
> 3 disk_latency @format
format = 3
disk_latency = 0
> 3 disk_latency @format
format = "2"
disk_latency = 0
> 3 disk_latency @format
disk_latency = 0
> 3 kink @format
format = 2
disk_latency = 0
kink = 1
"#;

/// No links, links that are no array of tables, and equal names before a link to no host.
pub const NO_LINK: &str = r#"
> 0 @link

@more
> 3 client @link
link = []
@more
> 5 link @link
[link]
@more
> 0 @format
format = 2
disk_latency = 0
link = []
@link
@more
> 5 link @format
format = 2
disk_latency = 0
link = 1
@link
@more
> 5 link @format
format = 2
disk_latency = 0
link = [1]
@link
@more
> 12 servers @servers
servers = ["a", "a"]
@link
[[link]]
source = "w"
target = "z"
latency_min = 0
latency_max = 0
loss = 0
@more
"#;

/// Changes of `LINES_2`: another sync latency, protocol and server, and a second link.
const TWO_LINKS: &str = r#"
@format
format = 2
disk_latency = 5
@protocol
protocol = "two_phase"
@servers
servers = ["a", "b"]
@more
[[link]]
source = "b"
target = "w"
latency_min = 1
latency_max = 2
loss = 250
"#;

/// Returns a way of one latency that loses no message.
fn steady(latency: u32) -> Way {
    Way {
        latency_min: latency,
        latency_max: latency,
        loss: 0,
    }
}

/// Checks that both formats mean the same if syncs take no time and there is no link.
pub fn both_formats(alloc: Global) -> Result<(), Fail> {
    let text = text_with(alloc, LINES, "")?;
    let one = scenario(alloc, text.as_str())?;
    let text = text_with(alloc, LINES_2, "link\n\n@more\n")?;
    let two = scenario(alloc, text.as_str())?;
    say_the_same(&two, &one)?;
    ways_are(&one.ways, steady(10), &[])?;
    ways_are(&two.ways, steady(10), &[])
}

/// Returns the numbers of a text.
fn numbers(said: &ScenarioText) -> (u32, u32, u16, u32, u32) {
    (
        said.tick,
        said.disk_latency,
        said.servers,
        said.checkpoint,
        said.window,
    )
}

fn say_the_same(two: &ScenarioText, one: &ScenarioText) -> Result<(), Fail>
    requires two { IsNumbered two.now.names }
    requires one { IsNumbered one.now.names }
{
    names_are(&two.names, &["a", "w"], "b")?;
    names_are(&one.names, &["a", "w"], "b")?;
    same(&two.protocol, &one.protocol, "protocol")?;
    same(&two.seed, &one.seed, "seed")?;
    same(&numbers(two), &numbers(one), "numbers")?;
    same(&two.ops, &one.ops, "ops")
}

/// Checks that links change only their own directions.
pub fn ways_of_links(alloc: Global) -> Result<(), Fail> {
    let text = text_with(alloc, LINES_2, TWO_LINKS)?;
    let said = scenario(alloc, text.as_str())?;
    same(&said.protocol, &3, "protocol")?;
    same(&said.disk_latency, &5, "disk_latency")?;
    let quick = Way {
        latency_min: 1,
        latency_max: 2,
        loss: 250,
    };
    ways_are(&said.ways, steady(10), &[(2, 0, steady(3)), (1, 2, quick)])
}
