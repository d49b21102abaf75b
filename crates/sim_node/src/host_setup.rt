//! What a host keeps of a setup.
ghost use Rattle.std.specs.Prelude.{◌≡◌, ◌<◌, ◌≤◌};
ghost use Rattle.sim_node.specs.Node.{host_setup};

use crate::Setup;

/// The part of a setup that one host needs, in six bytes. A checkpoint copies each node, so nodes
/// keep this and not the whole setup, which has the operations of all hosts.
#[derive(Clone, Copy)]
pub struct HostSetup {
    /// The number of servers.
    pub servers: u16,
    /// The number of hosts, servers and clients together.
    pub hosts: u16,
    /// The operations of the host itself. For a server the number has no meaning.
    pub ops: u16,
}

impl Setup {
    /// Returns the part of the setup that the host `me` needs.
    pub fn of_host(&self, me: u16) -> HostSetup
        requires hosts { self.now.hosts ≤ 32 }
        requires me { me < self.now.hosts }
        ensures { result ≡ host_setup self.now me }
    {
        HostSetup {
            servers: self.servers,
            hosts: self.hosts,
            ops: self.ops[me as usize],
        }
    }
}
