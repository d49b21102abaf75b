//! Reads the whole text of a scenario.
ghost use Rattle.std.specs.Prelude.{◌≡◌, ◌≢◌, ◌≤◌, ◌<◌, ◌+◌, length, IfOk, IfErr, Ok, Err, map};
ghost use Rattle.std.specs.Prelude.{string_bytes, vec_len};
ghost use Rattle.toml.specs.View.{table_view};
ghost use Rattle.sim_scenario.specs.Faults as faults;
ghost use Rattle.sim_scenario.specs.Hosts.{IsNumbered};
ghost use Rattle.sim_scenario.specs.Limits.{IsWithinLimits};
ghost use Rattle.sim_scenario.specs.Links.{link_said};
ghost use Rattle.sim_scenario.specs.Parts as parts;
ghost use Rattle.sim_scenario.specs.Scenario as scenario;
ghost use Rattle.sim_scenario.specs.Seen.{seen};

use crate::fault::{Key, ScenarioFault};
use crate::fields::{disk_latency, format, known_keys, number, protocol, seed};
use crate::hosts::{Hosts, all_hosts, fitting, host_operations, number_hosts, server_names};
use crate::links::{LinkText, links, ways};
use crate::{Protocols, ScenarioText};
use sim_links::Way;
use std::alloc::Global;
use toml::Table;

/// The longest text of a scenario, in bytes.
const MAX_TEXT: usize = 65_536;

/// Reads the text of a scenario. Fails with the first fault of the text, in the order of the
/// format's description, or with `NoMemory` if memory was refused before that fault or the end of
/// the text was reached. The scenario is within the limits of a run.
pub fn read<P: Protocols>(alloc: Global, text: &str) -> Result<ScenarioText, ScenarioFault>
    requires few { length P.listed ≤ 255 }
    ensures accepted { IfOk result (λ s. scenario.read P.listed text.now ≡ Ok (seen s)) }
    ensures refused { IfErr result (λ e. e ≢ ScenarioFault.NoMemory
        → scenario.read P.listed text.now ≡ Err (faults.fault_of e)) }
    ensures numbered { IfOk result (λ s. IsNumbered s.names) }
    ensures within { IfOk result (λ s. IsWithinLimits (seen s)) }
    ensures known { IfOk result (λ s. s.protocol < length P.listed) }
{
    if text.len() > MAX_TEXT {
        return Err(ScenarioFault::TooLong);
    }
    match toml::table_from_str(alloc, text) {
        Ok(table) => read_table::<P>(alloc, &table),
        Err(error) => {
            if error.is_memory() {
                Err(ScenarioFault::NoMemory)
            } else {
                Err(ScenarioFault::NotToml)
            }
        }
    }
}

/// The first part of a text: the seed, the protocol, the tick (ms), and the way of each pair
/// without a link.
#[derive(Clone, Copy)]
struct Opening {
    seed: [u8; 32],
    protocol: usize,
    tick: u32,
    way: Way,
}

/// The numbers after the servers: two in events, one in milliseconds.
#[derive(Clone, Copy)]
struct Rest {
    checkpoint: u32,
    window: u32,
    disk_latency: u32,
}

// Reads the first part, and then the hosts.
#[tactic(auto, unfolding(crate::specs::Parts::scenario_in))]
fn read_table<P: Protocols>(alloc: Global, table: &Table) -> Result<ScenarioText, ScenarioFault>
    requires few { length P.listed ≤ 255 }
    ensures said { faults.Gives seen result (parts.scenario_in P.listed (table_view table.now)) }
    ensures numbered { IfOk result (λ s. IsNumbered s.names) }
{
    known_keys(alloc, table)?;
    format(table)?;
    let seed = seed(table)?;
    let protocol = protocol::<P>(table)?;
    let tick = number(table, Key::Tick, 1, 60_000)?;
    let latency_min = number(table, Key::LatencyMin, 0, 60_000)?;
    let latency_max = number(table, Key::LatencyMax, latency_min, 60_000)?;
    let loss = number(table, Key::Loss, 0, 1_000)?;
    let way = Way {
        latency_min,
        latency_max,
        loss,
    };
    let opening = Opening {
        seed,
        protocol,
        tick,
        way,
    };
    read_hosts::<P>(alloc, table, opening)
}

// Reads the hosts and the links, and then joins them.
#[tactic(auto, unfolding(crate::specs::Parts::hosts_in))]
fn read_hosts<P: Protocols>(
    alloc: Global,
    table: &Table,
    opening: Opening,
) -> Result<ScenarioText, ScenarioFault>
    ensures said { faults.Gives seen result (parts.hosts_in P.listed opening
        (table_view table.now)) }
    ensures numbered { IfOk result (λ s. IsNumbered s.names) }
{
    let server_names = server_names(alloc, table)?;
    let servers = server_names.len();
    let checkpoint = number(table, Key::Checkpoint, 1, 1_024)?;
    let window = number(table, Key::Window, 1, 4_096)?;
    let hosts = all_hosts(alloc, table, server_names)?;
    let disk_latency = disk_latency(table)?;
    let links = links(alloc, table)?;
    let rest = Rest {
        checkpoint,
        window,
        disk_latency,
    };
    joined::<P>(alloc, opening, servers, hosts, rest, links.as_slice())
}

// Numbers the hosts, and places the links between them.
#[tactic(auto, unfolding(crate::specs::Parts::joined_in))]
fn joined<P: Protocols>(
    alloc: Global,
    opening: Opening,
    servers: usize,
    hosts: Hosts,
    rest: Rest,
    links: &[LinkText],
) -> Result<ScenarioText, ScenarioFault>
    requires counted { vec_len hosts.names ≡ servers + vec_len hosts.operations }
    ensures said { faults.Gives seen result
        (parts.joined_in P.listed opening servers (map string_bytes hosts.names.items)
        hosts.operations.items rest (map link_said links.now)) }
    ensures numbered { IfOk result (λ s. IsNumbered s.names) }
{
    let Opening {
        seed,
        protocol,
        tick,
        way,
    } = opening;
    fitting::<P>(protocol, servers, hosts.names.len())?;
    let ops = host_operations(servers, hosts.operations.as_slice());
    let names = number_hosts(alloc, hosts.names, servers)?;
    let ways = ways(alloc, way, &names, links)?;
    Ok(ScenarioText {
        names,
        protocol,
        seed,
        tick,
        ways,
        disk_latency: rest.disk_latency,
        servers: servers as u16,
        ops,
        checkpoint: rest.checkpoint,
        window: rest.window,
    })
}
