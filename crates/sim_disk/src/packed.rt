//! Packed disks, as in a checkpoint.
ghost use Rattle.std.specs.Prelude.{◌≡◌, ◌+◌, ◌<◌, ◌^◌, [], ◌∷◌, ◌++◌, length, slice_get, Some};
ghost use Rattle.std.specs.Prelude.{IfOk, OnOk, OnErr};

use crate::content::Content;
use crate::lay::append_all;
use crate::write::Write;
use crate::{Disk, NoMemory};
use std::alloc::Global;
use std::marker::Model;

/// Disks side by side in three vectors, as a checkpoint stores them. Contracts see a list of disks.
/// Together they have at most 2^32 - 1 stable bytes and as many writes; adding a disk beyond that
/// fails with `NoMemory`.
#[derive(Drop)]
pub struct PackedDisks {
    // The stable bytes of all disks, and the writes of all.
    bytes: Vec<u8>,
    writes: Vec<Write>,
    // The span of each disk in these.
    spans: Vec<Span>,
}

// The span of a disk's bytes and writes, and the number of the writes that the syncs in flight
// cover.
#[derive(Clone, Copy)]
struct Span {
    from: u32,
    to: u32,
    first: u32,
    last: u32,
    asked: u32,
}

impl Model for PackedDisks {
    ghost use Rattle.std.specs.Prelude.{List};
    ghost use Rattle.sim_disk.specs.Disk as disk;

    ghost Value = { List disk.Disk };

    ghost use Rattle.sim_disk.specs.Spans.{disks_at, AreSpans};

    ghost view = { λ p. disks_at p.bytes.items p.writes.items p.spans.items };

    ghost invariant = { λ p. AreSpans p.bytes.items p.writes.items p.spans.items };
}

// Returns the sum, in 32 bits: where `more` elements after the first `before` end. Fails with
// `NoMemory` if it is greater.
fn end(before: usize, more: usize) -> Result<u32, NoMemory>
    requires { before + more < 2 ^ 64 }
    ensures { IfOk result (λ end. end ≡ before + more) }
{
    let end = before + more;
    if end > u32::MAX as usize {
        return Err(NoMemory);
    }
    Ok(end as u32)
}

// Adds bytes at the end. Most disks of a checkpoint have none, and need no call.
#[inline(always)]
fn append_bytes(all: &mut Vec<u8>, bytes: &[u8]) -> Result<(), NoMemory>
    ensures ok { OnOk result (all.new.items ≡ all.old.items ++ bytes.now) }
    ensures err { OnErr result (all.new.items ≡ all.old.items) }
{
    if bytes.is_empty() {
        return Ok(());
    }
    all.extend_from_slice(bytes)
}

impl PackedDisks {
    /// Returns no disks, with room for `disks` disks that have `bytes` stable bytes and `writes`
    /// writes together.
    pub fn with_room(
        alloc: Global,
        disks: usize,
        bytes: usize,
        writes: usize,
    ) -> Result<PackedDisks, NoMemory>
        ensures { IfOk result (λ p. p ≡ []) }
    {
        Ok(PackedDisks {
            bytes: Vec::with_capacity(alloc, bytes)?,
            writes: Vec::with_capacity(alloc, writes)?,
            spans: Vec::with_capacity(alloc, disks)?,
        })
    }

    /// Adds an equal disk at the end. After `NoMemory` the disks are unchanged.
    pub fn push(&mut self, disk: &Disk) -> Result<(), NoMemory>
        ensures ok { OnOk result (self.new ≡ self.old ++ disk.now ∷ []) }
        ensures err { OnErr result (self.new ≡ self.old) }
    {
        let content = &disk.content;
        let from = self.bytes.len();
        let to = end(from, content.stable.len())?;
        let first = self.writes.len();
        let last = end(first, content.writes.len())?;
        let span = Span {
            from: from as u32,
            to,
            first: first as u32,
            last,
            asked: content.asked,
        };
        append_bytes(&mut self.bytes, content.stable.as_slice())?;
        append_all(&mut self.writes, content.writes.as_slice())?;
        self.spans.push(span)?;
        Ok(())
    }

    /// Returns a copy of the disk at a place.
    pub fn get(&self, alloc: Global, place: usize) -> Result<Disk, NoMemory>
        requires { place < length self.now }
        ensures { IfOk result (λ d. slice_get self.now place ≡ Some d) }
    {
        let span = self.spans[place];
        let bytes = &self.bytes[span.from as usize..span.to as usize];
        let writes = &self.writes[span.first as usize..span.last as usize];
        let content = Content::of(alloc, bytes, writes, span.asked)?;
        Ok(Disk { content })
    }
}
