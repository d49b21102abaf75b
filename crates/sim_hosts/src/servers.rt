ghost use Rattle.std.specs.Prelude.{◌≡◌, ◌+◌, ◌≤◌, ◌++◌, length};
ghost use Rattle.sim_hosts.specs.Hosts.{servers_from, is_other, not_in, to_all};

use crate::HostSet;
use sim_node::{Effects, HostSetup};

/// Returns whether the host is a server other than server 0 (the primary or the coordinator).
pub fn is_other(setup: &HostSetup, host: u16) -> bool
    ensures { result ≡ is_other setup.now host }
{
    1 <= host && host < setup.servers
}

/// Sends a message to each server from `first` on.
pub fn send_to_all<M: Copy + Drop>(first: u16, setup: &HostSetup, msg: M, effects: &mut Effects<M>)
    requires room { length effects.old.list + setup.now.servers ≤ 40 }
    requires hosts { setup.now.servers ≤ effects.old.hosts }
    ensures room { length effects.new.list ≤ length effects.old.list + setup.now.servers }
    ensures sent { effects.new ≡ record effects.old {
      list = effects.old.list ++ to_all (servers_from first setup.now) msg;
    } }
{
    for host in first..setup.servers {
        effects.send(host, msg);
    }
}

/// Sends a message to each server from `first` on that is not in the set.
pub fn send_to_missing<M: Copy + Drop>(
    first: u16,
    setup: &HostSetup,
    set: HostSet,
    msg: M,
    effects: &mut Effects<M>,
)
    requires room { length effects.old.list + setup.now.servers ≤ 40 }
    requires few { setup.now.servers ≤ 32 }
    requires hosts { setup.now.servers ≤ effects.old.hosts }
    ensures room { length effects.new.list ≤ length effects.old.list + setup.now.servers }
    ensures sent { effects.new ≡ record effects.old {
      list = effects.old.list ++ to_all (not_in (servers_from first setup.now) set) msg;
    } }
{
    for host in first..setup.servers {
        if !set.contains(host) {
            effects.send(host, msg);
        }
    }
}
