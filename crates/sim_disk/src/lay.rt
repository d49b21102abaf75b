//! Lays writes over bytes.
ghost use Rattle.std.specs.Prelude.{◌≡◌, ◌+◌, ◌<◌, ◌≤◌, ◌++◌, length, take, drop, OnOk};
ghost use Rattle.sim_disk.specs.Disk as disk;
ghost use Rattle.sim_disk.specs.Disk.{filled_to, laid_at, kept_len};

use crate::NoMemory;
use crate::write::Write;

// Extends bytes with zeros at least to a place.
fn fill_to(bytes: &mut Vec<u8>, place: usize) -> Result<(), NoMemory>
    ensures { OnOk result (bytes.new.items ≡ filled_to place bytes.old.items) }
{
    if bytes.len() < place {
        bytes.resize(place, 0)?;
    }
    Ok(())
}

// Copies bytes over others from an offset on.
fn copy_over(bytes: &mut Vec<u8>, offset: usize, source: &[u8])
    requires { offset + length source.now ≤ length bytes.old.items }
    ensures { bytes.new.items ≡ take offset bytes.old.items ++ source.now
        ++ drop (offset + length source.now) bytes.old.items }
{
    bytes.as_mut_slice()[offset..offset + source.len()].copy_from_slice(source);
}

// Lays bytes over others from an offset on. A gap is filled with 0.
fn lay(bytes: &mut Vec<u8>, offset: u32, source: &[u8]) -> Result<(), NoMemory>
    requires { length source.now ≤ 64 }
    ensures { OnOk result (bytes.new.items ≡ laid_at offset source.now bytes.old.items) }
{
    if source.is_empty() {
        return Ok(());
    }
    let offset = offset as usize;
    fill_to(bytes, offset + source.len())?;
    copy_over(bytes, offset, source);
    Ok(())
}

// Returns the number of bytes that a crash keeps of a write, by the word drawn for it.
fn kept(word: u32, len: usize) -> usize
    requires { 0 < len }
    ensures kept { result ≡ kept_len word len }
    ensures within { result ≤ len }
{
    match word % 3 {
        0 => 0,
        1 => len,
        _ => (word / 3) as usize % len,
    }
}

// Sets bytes to a copy of others.
fn set_to(bytes: &mut Vec<u8>, others: &[u8]) -> Result<(), NoMemory>
    ensures { OnOk result (bytes.new.items ≡ others.now) }
{
    bytes.clear();
    bytes.extend_from_slice(others)?;
    Ok(())
}

// Lays writes in order over bytes. After an error some of them may have been laid.
pub(crate) fn lay_all(bytes: &mut Vec<u8>, writes: &[Write]) -> Result<(), NoMemory>
    ensures { OnOk result (bytes.new.items ≡ disk.all_laid bytes.old.items writes.now) }
{
    for write in writes {
        lay(bytes, write.offset(), write.bytes())?;
    }
    Ok(())
}

// Sets bytes to others with the writes laid over them in order.
pub(crate) fn all_laid(bytes: &mut Vec<u8>, over: &[u8], writes: &[Write]) -> Result<(), NoMemory>
    ensures { OnOk result (bytes.new.items ≡ disk.all_laid over.now writes.now) }
{
    set_to(bytes, over)?;
    lay_all(bytes, writes)
}

// Sets bytes to others with what the words keep of the writes laid over them in order.
pub(crate) fn kept_laid(
    bytes: &mut Vec<u8>,
    over: &[u8],
    writes: &[Write],
    words: &[u32],
) -> Result<(), NoMemory>
    requires { length words.now ≡ length writes.now }
    ensures { OnOk result (bytes.new.items ≡ disk.all_laid over.now
        (disk.all_kept words.now writes.now)) }
{
    set_to(bytes, over)?;
    for i in 0..writes.len() {
        let write = &writes[i];
        let source = write.bytes();
        let len = kept(words[i], source.len());
        lay(bytes, write.offset(), &source[..len])?;
    }
    Ok(())
}

// Adds copies of writes at the end. After an error some of them have been added.
pub(crate) fn append_all(all: &mut Vec<Write>, writes: &[Write]) -> Result<(), NoMemory>
    ensures ok { OnOk result (all.new.items ≡ all.old.items ++ writes.now) }
    ensures grown { (more : _) × (all.new.items ≡ all.old.items ++ more) }
{
    for write in writes {
        all.push(write.copy())?;
    }
    Ok(())
}

// Sets writes to copies of others.
pub(crate) fn copy_all(all: &mut Vec<Write>, writes: &[Write]) -> Result<(), NoMemory>
    ensures { OnOk result (all.new.items ≡ writes.now) }
{
    all.clear();
    append_all(all, writes)
}
