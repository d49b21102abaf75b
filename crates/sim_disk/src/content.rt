//! The content of a disk, and its changes by a sync and a crash.
ghost use Rattle.std.specs.Prelude.{◌≡◌, ◌≤◌, length, IfOk, OnOk};
ghost use Rattle.sim_disk.specs.Disk as disk;
ghost use Rattle.sim_disk.specs.Change.{disk_in};

use crate::NoMemory;
use crate::lay::{all_laid, append_all, copy_all, kept_laid, lay_all};
use crate::write::Write;
use std::alloc::Global;

/// Stable bytes and, in order, the writes that are not stable yet. It has no invariant, since spare
/// memory can hold any content.
#[derive(Drop)]
pub(crate) struct Content {
    pub(crate) stable: Vec<u8>,
    pub(crate) writes: Vec<Write>,
    // The number of writes, from the first on, that the syncs in flight cover.
    pub(crate) asked: u32,
}

impl Content {
    /// Returns a content of no bytes and no writes.
    pub(crate) fn empty(alloc: Global) -> Content
        ensures { disk_in result ≡ disk.empty_disk }
    {
        Content {
            stable: Vec::new(alloc),
            writes: Vec::new(alloc),
            asked: 0,
        }
    }

    /// Returns a copy of these bytes and writes, of which syncs cover the first `asked`.
    #[inline(always)]
    pub(crate) fn of(
        alloc: Global,
        bytes: &[u8],
        writes: &[Write],
        asked: u32,
    ) -> Result<Content, NoMemory>
        ensures { IfOk result (λ c. disk_in c ≡ record {
          stable = bytes.now;
          writes = writes.now;
          asked = asked;
        }) }
    {
        // Most disks of a checkpoint have neither, and need no call.
        if bytes.is_empty() && writes.is_empty() {
            return Ok(Content {
                stable: Vec::new(alloc),
                writes: Vec::new(alloc),
                asked,
            });
        }
        let stable = Vec::from_slice(alloc, bytes)?;
        let mut all = Vec::with_capacity(alloc, writes.len())?;
        append_all(&mut all, writes)?;
        Ok(Content {
            stable,
            writes: all,
            asked,
        })
    }

    /// Sets it to what a sync of the first `count` writes makes of another content. After an error
    /// it is unspecified.
    pub(crate) fn become_synced(&mut self, was: &Content, count: u32) -> Result<(), NoMemory>
        requires asked { count ≤ was.now.asked }
        requires there { count ≤ length was.now.writes.items }
        ensures { OnOk result (disk_in self.new ≡ disk.synced count (disk_in was.now)) }
    {
        let (covered, rest) = was.writes.as_slice().split_at(count as usize);
        all_laid(&mut self.stable, was.stable.as_slice(), covered)?;
        copy_all(&mut self.writes, rest)?;
        self.asked = was.asked - count;
        Ok(())
    }

    /// Makes its first `count` writes stable, in place. After an error it is unspecified.
    pub(crate) fn settle(&mut self, count: u32) -> Result<(), NoMemory>
        requires asked { count ≤ self.old.asked }
        requires there { count ≤ length self.old.writes.items }
        ensures { OnOk result (disk_in self.new ≡ disk.synced count (disk_in self.old)) }
    {
        let covered = count as usize;
        if covered == self.writes.len() {
            lay_all(&mut self.stable, self.writes.as_slice())?;
            self.writes.clear();
        } else {
            let rest = self.writes.split_off(covered)?;
            lay_all(&mut self.stable, self.writes.as_slice())?;
            self.writes = rest;
        }
        self.asked -= count;
        Ok(())
    }

    /// Drops all bytes and writes.
    pub(crate) fn clear(&mut self)
        ensures { disk_in self.new ≡ disk.empty_disk }
    {
        self.stable.clear();
        self.writes.clear();
        self.asked = 0;
    }

    /// Sets it to what a crash makes of another content, given a word for each of its writes. After
    /// an error it is unspecified.
    pub(crate) fn become_crashed(&mut self, was: &Content, words: &[u32]) -> Result<(), NoMemory>
        requires { length words.now ≡ length was.now.writes.items }
        ensures { OnOk result (disk_in self.new ≡ disk.crashed words.now (disk_in was.now)) }
    {
        kept_laid(
            &mut self.stable,
            was.stable.as_slice(),
            was.writes.as_slice(),
            words,
        )?;
        self.writes.clear();
        self.asked = 0;
        Ok(())
    }
}
