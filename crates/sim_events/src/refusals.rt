//! Why a fault cannot happen.
ghost use Rattle.std.specs.Prelude.{◌≡◌, [], ◌∷◌};
ghost use Rattle.sim_events.specs.Faults.{hosts_of, hosts_refusal};

use crate::{Fault, Refusal, Scenario};

// Refuses a host that does not exist.
fn one_host(hosts: u16, h: u16) -> Option<Refusal>
    ensures { result ≡ hosts_refusal hosts (h ∷ []) }
{
    if hosts <= h {
        return Some(Refusal::UnknownHost);
    }
    None
}

// Refuses two hosts if one does not exist, or if both are the same.
fn two_hosts(hosts: u16, a: u16, b: u16) -> Option<Refusal>
    ensures { result ≡ hosts_refusal hosts (a ∷ b ∷ []) }
{
    if hosts <= a || hosts <= b {
        return Some(Refusal::UnknownHost);
    }
    if a == b {
        return Some(Refusal::SameHost);
    }
    None
}

impl Scenario {
    /// Returns why a fault cannot happen: one of its hosts does not exist, or a fault of a link
    /// names one host twice. The first is tested first.
    pub fn refusal(&self, fault: Fault) -> Option<Refusal>
        ensures { result ≡ hosts_refusal self.now.setup.hosts (hosts_of fault) }
    {
        let hosts = self.hosts();
        match fault {
            Fault::Crash(h) | Fault::Bounce(h) => one_host(hosts, h),
            Fault::Hold(a, b)
            | Fault::Release(a, b)
            | Fault::Cut(a, b)
            | Fault::CutOneway(a, b)
            | Fault::Repair(a, b)
            | Fault::RepairOneway(a, b) => two_hosts(hosts, a, b),
        }
    }
}
