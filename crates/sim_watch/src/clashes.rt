//! Values that no two running hosts may show.
ghost use Rattle.std.specs.Prelude.{◌≡◌, ℕ, ◌<◌, ◌≤◌, drop, ◌+◌, IsFalse};
ghost use Rattle.std.specs.List.{list_any};
ghost use Rattle.sim_world.specs.World.{host_at};
ghost use Rattle.sim_watch.specs.Condition.{no_two, show_same, show_equal, show_other};
ghost use Rattle.sim_watch.specs.Clashing.{clash, is_of_no_probe};

use sim_node::Node;
use sim_world::World;

/// What no two running hosts may show together.
#[derive(Clone, Copy)]
pub(crate) enum Clash {
    /// The same value of a probe, other than this number.
    Same(u8, u64),
    /// The same value of the second probe, and different values of the first, neither of which is
    /// the number.
    Apart(u8, u8, u64),
}

// Returns whether two hosts run and show the same value of a probe, other than `number`.
fn show_same<N: Node>(world: &World<N>, a: u16, b: u16, probe: u8, number: u64) -> bool
    requires a { a < world.now.scenario.setup.hosts }
    requires b { b < world.now.scenario.setup.hosts }
    requires probe { probe < N.PROBES }
    ensures { result ≡ show_same N.laws probe number (host_at a world.now.world)
        (host_at b world.now.world) }
{
    let (Some(x), Some(y)) = (world.probe(a, probe), world.probe(b, probe)) else {
        return false;
    };
    x == y && x != number
}

// Returns whether two hosts run and show the same value of a probe.
fn show_equal<N: Node>(world: &World<N>, a: u16, b: u16, probe: u8) -> bool
    requires a { a < world.now.scenario.setup.hosts }
    requires b { b < world.now.scenario.setup.hosts }
    requires probe { probe < N.PROBES }
    ensures { result ≡ show_equal N.laws probe (host_at a world.now.world)
        (host_at b world.now.world) }
{
    let (Some(x), Some(y)) = (world.probe(a, probe), world.probe(b, probe)) else {
        return false;
    };
    x == y
}

// Returns whether two hosts run and show different values of a probe, neither of which is `number`.
fn show_other<N: Node>(world: &World<N>, a: u16, b: u16, probe: u8, number: u64) -> bool
    requires a { a < world.now.scenario.setup.hosts }
    requires b { b < world.now.scenario.setup.hosts }
    requires probe { probe < N.PROBES }
    ensures { result ≡ show_other N.laws probe number (host_at a world.now.world)
        (host_at b world.now.world) }
{
    let (Some(x), Some(y)) = (world.probe(a, probe), world.probe(b, probe)) else {
        return false;
    };
    x != y && x != number && y != number
}

impl Clash {
    // Returns whether two hosts clash.
    fn is_between<N: Node>(self, world: &World<N>, a: u16, b: u16) -> bool
        requires a { a < world.now.scenario.setup.hosts }
        requires b { b < world.now.scenario.setup.hosts }
        requires probes { IsFalse (is_of_no_probe N.PROBES self) }
        ensures { result ≡ clash N.laws self (host_at a world.now.world)
            (host_at b world.now.world) }
    {
        match self {
            Clash::Same(probe, number) => show_same(world, a, b, probe, number),
            Clash::Apart(probe, by, number) => {
                show_equal(world, a, b, by) && show_other(world, a, b, probe, number)
            }
        }
    }

    // Returns whether a host clashes with one of those after it.
    fn is_after<N: Node>(self, world: &World<N>, host: u16) -> bool
        requires host { host < world.now.scenario.setup.hosts }
        requires probes { IsFalse (is_of_no_probe N.PROBES self) }
        ensures { result ≡ list_any (clash N.laws self (host_at host world.now.world))
            (drop (host + 1) world.now.world.hosts) }
    {
        let hosts = world.hosts();
        for other in host + 1..hosts {
            if self.is_between(world, host, other) {
                return true;
            }
        }
        false
    }

    /// Returns whether no two hosts clash.
    pub(crate) fn is_nowhere<N: Node>(self, world: &World<N>) -> bool
        requires { IsFalse (is_of_no_probe N.PROBES self) }
        ensures { result ≡ no_two (clash N.laws self) world.now.world.hosts }
    {
        for host in 0..world.hosts() {
            if self.is_after(world, host) {
                return false;
            }
        }
        true
    }
}
