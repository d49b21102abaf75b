//! What a crash keeps of a disk.
ghost use Rattle.std.specs.Prelude.{◌≡◌, ◌<◌, ◌≤◌, IfOk};
ghost use Rattle.sim_disk.specs.Disk as disk;
ghost use Rattle.sim_world.specs.Events.{rules};
ghost use Rattle.sim_account.specs.Account.{tears};

use crate::NoMemory;
use sim_node::Node;
use sim_world::World;
use std::alloc::Global;

// Returns the number of bytes that a crash keeps of a write of `len` bytes, by a word.
fn kept_len(word: u32, len: usize) -> u32
    requires some { 0 < len }
    requires few { len ≤ 64 }
    ensures { result ≡ disk.kept_len word len }
{
    match word % 3 {
        0 => 0,
        1 => len as u32,
        _ => word / 3 % len as u32,
    }
}

/// Returns the number of bytes that a crash of the host keeps of each of its writes that are not
/// stable, the oldest first: 0 for a write that is dropped, all for one that is kept whole. Fails
/// only for want of memory.
pub fn tears<N: Node>(alloc: Global, world: &World<N>, host: u16) -> Result<Vec<u32>, NoMemory>
    requires { host < world.now.scenario.setup.hosts }
    ensures { IfOk result (λ kept. kept.items
        ≡ tears (rules N.laws N.PROBES world.now.scenario) host world.now.world) }
{
    let disk = world.disk(host);
    let mut kept = Vec::with_capacity(alloc, disk.unsynced() as usize)?;
    for place in 0..disk.unsynced() {
        let (_offset, bytes) = disk.write_at(place);
        kept.push(kept_len(world.peek(1, place), bytes.len()))?;
    }
    Ok(kept)
}
