ghost use Rattle.std.specs.Prelude.{◌≡◌, ◌<◌, ◌≤◌, IfSome, slice_set};
ghost use Rattle.sim_hosts.specs.Waiting.{lowest_waiting, restored, IsPlacedSlot};

use sim_node::HostSetup;

/// A host's slot before a reaction: the record by which a change of the table is undone.
#[derive(Clone, Copy)]
pub enum SlotBefore<A> {
    /// The reaction changed no slot.
    Same,
    /// This host did not wait.
    Empty(u16),
    /// This host waited with this.
    Waited(u16, A),
}

/// Returns the lowest host that waits, with what it waits with.
pub fn lowest_waiting<A: Copy>(setup: &HostSetup, waiting: &[Option<A>; 32]) -> Option<(u16, A)>
    requires { setup.now.hosts ≤ 32 }
    ensures value { result ≡ lowest_waiting setup.now waiting.now }
    ensures host { IfSome result (λ w. w.0 < setup.now.hosts) }
{
    for host in 0..setup.hosts {
        if let Some(what) = waiting[host as usize] {
            return Some((host, what));
        }
    }
    None
}

/// Sets what a host waits with. Returns what it waited with before.
pub fn wait_with<A: Copy>(
    waiting: &mut [Option<A>; 32],
    host: u16,
    what: Option<A>,
) -> SlotBefore<A>
    requires { host < 32 }
    ensures after { waiting.new ≡ slice_set waiting.old host what }
    ensures back { restored result waiting.new ≡ waiting.old }
    ensures placed { IsPlacedSlot result }
{
    let before = waiting[host as usize];
    waiting[host as usize] = what;
    match before {
        None => SlotBefore::Empty(host),
        Some(before) => SlotBefore::Waited(host, before),
    }
}

/// Restores the slot of a host.
pub fn put_back<A: Copy>(waiting: &mut [Option<A>; 32], slot: SlotBefore<A>)
    requires { IsPlacedSlot slot }
    ensures { waiting.new ≡ restored slot waiting.old }
{
    match slot {
        SlotBefore::Same => {}
        SlotBefore::Empty(host) => waiting[host as usize] = None,
        SlotBefore::Waited(host, what) => waiting[host as usize] = Some(what),
    }
}
