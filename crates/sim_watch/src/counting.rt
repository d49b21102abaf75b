//! Counts and tests over the values of a probe of all running hosts.
ghost use Rattle.std.specs.Prelude.{◌≡◌, ℕ, ◌<◌, ◌≤◌};
ghost use Rattle.sim_watch.specs.Condition.{compares, if_any, if_some, value_of, count_in, all_in};
ghost use Rattle.sim_world.specs.World.{host_at};

use crate::Op;
use sim_node::Node;
use sim_world::World;

// Returns whether the host is stopped, or its value of a probe compares by `op` with a number.
fn is_in<N: Node>(world: &World<N>, host: u16, probe: u8, op: Op, number: u64) -> bool
    requires host { host < world.now.scenario.setup.hosts }
    requires probe { probe < N.PROBES }
    ensures { result ≡ if_any (λ v. compares op v number)
        (value_of N.laws probe (host_at host world.now.world)) }
{
    match world.probe(host, probe) {
        None => true,
        Some(value) => op.compares(value, number),
    }
}

// Returns whether the host runs, and its value of a probe compares by `op` with a number.
fn counts<N: Node>(world: &World<N>, host: u16, probe: u8, op: Op, number: u64) -> bool
    requires host { host < world.now.scenario.setup.hosts }
    requires probe { probe < N.PROBES }
    ensures { result ≡ if_some (λ v. compares op v number)
        (value_of N.laws probe (host_at host world.now.world)) }
{
    match world.probe(host, probe) {
        None => false,
        Some(value) => op.compares(value, number),
    }
}

/// Returns the number of running hosts whose value of a probe compares by `op` with a number.
pub(crate) fn count_in<N: Node>(world: &World<N>, probe: u8, op: Op, number: u64) -> u64
    requires { probe < N.PROBES }
    ensures { result ≡ count_in N.laws probe op number world.now.world.hosts }
{
    let mut count: u16 = 0;
    for host in 0..world.hosts() {
        if counts(world, host, probe, op, number) {
            count += 1;
        }
    }
    u64::from(count)
}

/// Returns whether all running hosts' values of a probe compare by `op` with a number.
pub(crate) fn all_in<N: Node>(world: &World<N>, probe: u8, op: Op, number: u64) -> bool
    requires { probe < N.PROBES }
    ensures { result ≡ all_in N.laws probe op number world.now.world.hosts }
{
    for host in 0..world.hosts() {
        if !is_in(world, host, probe, op, number) {
            return false;
        }
    }
    true
}
