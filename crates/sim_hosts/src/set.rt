ghost use Rattle.std.specs.Prelude.{◌≡◌, ◌<◌, ◌≤◌};
ghost use Rattle.sim_hosts.specs.Hosts.{nobody, is_in, joined, size, servers_from, all_in};

use sim_node::HostSetup;

/// A set of hosts: the bit of each host that is in it is set.
#[derive(Clone, Copy, Debug)]
pub struct HostSet {
    pub bits: u32,
}

impl HostSet {
    /// Returns the empty set.
    pub fn nobody() -> HostSet
        ensures { result ≡ nobody }
    {
        HostSet { bits: 0 }
    }

    /// Returns whether a host is in the set.
    pub fn contains(self, host: u16) -> bool
        requires { host < 32 }
        ensures { result ≡ is_in self host }
    {
        (self.bits >> host) % 2 == 1
    }

    /// Returns the set with a host added.
    pub fn joined(self, host: u16) -> HostSet
        requires { host < 32 }
        ensures { result ≡ joined host self }
    {
        HostSet {
            bits: self.bits | (1 << host),
        }
    }

    /// Returns the number of hosts in the set.
    pub fn size(self) -> u32
        ensures { result ≡ size self }
    {
        self.bits.count_ones()
    }

    /// Returns whether all servers from `first` on are in the set.
    pub fn has_servers_from(self, first: u16, setup: &HostSetup) -> bool
        requires { setup.now.servers ≤ 32 }
        ensures { result ≡ all_in (servers_from first setup.now) self }
    {
        for host in first..setup.servers {
            if !self.contains(host) {
                return false;
            }
        }
        true
    }
}
