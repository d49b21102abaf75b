//! The bytes of a disk after writes, syncs and crashes, and after these are undone.
ghost use Rattle.std.specs.Prelude.{◌≡◌, ◌+◌, ◌≤◌, ◌<◌, length, IfOk, OnOk};

use sim_disk::{Disk, NoMemory, PackedDisks, SpareDisks, WriteFault};
use std::alloc::Global;
use std::test::Fail;

#[derive(Clone, Copy)]
enum Act {
    Write(u32, &'static [u8]),
    // A write and two syncs that take it with this many writes. All three are undone, the first
    // sync by its light record.
    WriteAndBack(u32, &'static [u8], u32),
    // A write that would end past the disk.
    OutOfDisk(u32, &'static [u8]),
    // A sync of this many writes.
    Sync(u32),
    // The words of a crash.
    Crash(&'static [u32]),
    // A crash with these words, the stable bytes after it, and its undo.
    CrashAndBack(&'static [u32], &'static [u8]),
    // The stable bytes, and the number of unstable writes.
    Is(&'static [u8], u32),
    Read(&'static [u8]),
    // The number of bytes that are read, and the bytes 4,031 and 4,032 of them.
    ReadsLast(usize, &'static [u8; 2]),
}

fn is(disk: &Disk, stable: &[u8], unsynced: u32) -> bool {
    disk.stable() == stable && disk.unsynced() == unsynced
}

// Makes a write. Returns false if it is out of the disk.
fn write(disk: &mut Disk, offset: u32, bytes: &[u8]) -> Result<bool, NoMemory>
    ensures { disk.new.asked ≡ disk.old.asked }
{
    if bytes.is_empty() || bytes.len() > 64 || disk.unsynced() >= 1 << 24 {
        return Err(NoMemory);
    }
    match disk.write(offset, bytes) {
        Ok(_undo) => Ok(true),
        Err(WriteFault::OutOfDisk) => Ok(false),
        Err(WriteFault::NoMemory) => Err(NoMemory),
    }
}

fn write_and_back(
    disk: &mut Disk,
    spare: &mut SpareDisks,
    offset: u32,
    bytes: &[u8],
    count: u32,
) -> bool {
    if bytes.is_empty() || bytes.len() > 64 || disk.unsynced() >= 1 << 24 {
        return false;
    }
    let Ok(added) = disk.write(offset, bytes) else {
        return false;
    };
    let (first, asked) = disk.ask();
    let Some(light) = asked.light() else {
        return false;
    };
    disk.undo(light.whole(), spare);
    let (second, asked) = disk.ask();
    disk.undo(asked, spare);
    disk.undo(added, spare);
    first == count && second == count
}

// Takes a sync, and drops its record. Returns how many writes it covers, or `None` if a sync for
// good of a copy has another result.
fn sync(alloc: Global, disk: &mut Disk, spare: &mut SpareDisks) -> Result<Option<u32>, NoMemory> {
    let (count, _asked) = disk.ask();
    let mut other = disk.copy(alloc)?;
    let synced = disk.sync(alloc, count, spare)?;
    synced.leave(spare);
    other.sync_for_good(count)?;
    Ok(is(&other, disk.stable(), disk.unsynced()).then_some(count))
}

fn crash(
    alloc: Global,
    disk: &mut Disk,
    spare: &mut SpareDisks,
    words: &[u32],
) -> Result<bool, NoMemory> {
    if words.len() != disk.unsynced() as usize {
        return Ok(false);
    }
    disk.crash(alloc, words, spare)?;
    Ok(true)
}

fn crash_and_back(
    alloc: Global,
    disk: &mut Disk,
    spare: &mut SpareDisks,
    words: &[u32],
    stable: &[u8],
) -> Result<bool, NoMemory> {
    if words.len() != disk.unsynced() as usize {
        return Ok(false);
    }
    let undo = disk.crash(alloc, words, spare)?;
    let well = is(disk, stable, 0);
    disk.undo(undo, spare);
    Ok(well)
}

// Carries out an act, and returns whether the answer is the expected one.
fn goes(
    alloc: Global,
    disk: &mut Disk,
    spare: &mut SpareDisks,
    act: Act,
) -> Result<bool, NoMemory> {
    match act {
        Act::Write(offset, bytes) => write(disk, offset, bytes),
        Act::WriteAndBack(offset, bytes, count) => {
            Ok(write_and_back(disk, spare, offset, bytes, count))
        }
        Act::OutOfDisk(offset, bytes) => Ok(!write(disk, offset, bytes)?),
        Act::Sync(count) => Ok(sync(alloc, disk, spare)? == Some(count)),
        Act::Crash(words) => crash(alloc, disk, spare, words),
        Act::CrashAndBack(words, stable) => crash_and_back(alloc, disk, spare, words, stable),
        Act::Is(stable, unsynced) => Ok(is(disk, stable, unsynced)),
        Act::Read(bytes) => Ok(disk.read(alloc)?.as_slice() == bytes),
        Act::ReadsLast(len, [zero, one]) => {
            let read = disk.read(alloc)?;
            Ok(read.len() == len && read.get(4031) == Some(zero) && read.get(4032) == Some(one))
        }
    }
}

// Returns whether all acts have the expected answers.
fn all_go(alloc: Global, disk: &mut Disk, acts: &[Act]) -> Result<bool, NoMemory> {
    let mut spare = SpareDisks::new(alloc);
    let mut well = true;
    for act in acts {
        well &= goes(alloc, disk, &mut spare, *act)?;
    }
    Ok(well)
}

// Makes a disk of four stable bytes, all 0.
fn zeros(alloc: Global) -> Result<Disk, NoMemory> {
    let mut disk = Disk::new(alloc);
    all_go(alloc, &mut disk, &[Act::Write(0, &[0; 4]), Act::Sync(1)])?;
    Ok(disk)
}

// Plays on a disk of four stable bytes, all 0: a torn write, and a gap.
const PLAYS: [&[Act]; 2] = [
    &[
        Act::Is(&[0; 4], 0),
        Act::Write(0, &[0x11, 0x22, 0x33, 0x44]),
        Act::CrashAndBack(&[0], &[0; 4]),
        Act::CrashAndBack(&[1], &[0x11, 0x22, 0x33, 0x44]),
        Act::CrashAndBack(&[5], &[0x11, 0, 0, 0]),
        Act::CrashAndBack(&[2], &[0; 4]),
        Act::Is(&[0; 4], 1),
        Act::Read(&[0x11, 0x22, 0x33, 0x44]),
    ],
    &[
        Act::Write(6, &[7, 8]),
        Act::Read(&[0, 0, 0, 0, 0, 0, 7, 8]),
        Act::CrashAndBack(&[2], &[0; 4]),
        Act::Crash(&[5]),
        Act::Is(&[0, 0, 0, 0, 0, 0, 7], 0),
        Act::CrashAndBack(&[], &[0, 0, 0, 0, 0, 0, 7]),
        Act::Is(&[0, 0, 0, 0, 0, 0, 7], 0),
    ],
];

// The end of the disk.
const END: [Act; 7] = [
    Act::OutOfDisk(4033, &[1; 64]),
    Act::OutOfDisk(4096, &[1]),
    Act::OutOfDisk(u32::MAX, &[1]),
    Act::WriteAndBack(1, &[2], 1),
    Act::Is(&[], 0),
    Act::Write(4032, &[1; 64]),
    Act::ReadsLast(4096, &[0, 1]),
];

#[test]
fn disks_go_by_their_rows(rt: HostRuntime) -> Result<(), Fail> {
    for acts in &PLAYS {
        let mut disk = zeros(rt.alloc())?;
        assert!(rt; all_go(rt.alloc(), &mut disk, *acts)?);
    }
    let mut disk = Disk::new(rt.alloc());
    assert!(rt; all_go(rt.alloc(), &mut disk, &END)?);
    Ok(())
}

// Makes a write, and a sync for it. Returns how many writes the sync covers.
fn write_and_ask(disk: &mut Disk, offset: u32, byte: u8) -> Result<u32, NoMemory>
    ensures { IfOk result (λ count. disk.new.asked ≡ disk.old.asked + count) }
{
    write(disk, offset, &[byte])?;
    let (count, _asked) = disk.ask();
    Ok(count)
}

// Takes a sync of these writes, and undoes it. Returns whether the disk is as expected in between.
fn sync_and_back(
    alloc: Global,
    disk: &mut Disk,
    spare: &mut SpareDisks,
    count: u32,
    stable: &[u8],
    unsynced: u32,
) -> Result<bool, NoMemory>
    requires { count ≤ disk.old.asked }
    ensures { OnOk result (disk.new ≡ disk.old) }
{
    let record = disk.sync(alloc, count, spare)?;
    let well = is(disk, stable, unsynced);
    disk.undo(record, spare);
    Ok(well)
}

// Returns whether a disk of four bytes with two syncs in flight is as expected: in the first one,
// after its undo, and after both and a sync of no writes.
fn synced(alloc: Global, disk: &mut Disk, spare: &mut SpareDisks) -> Result<bool, NoMemory> {
    let first = write_and_ask(disk, 0, 1)?;
    let second = write_and_ask(disk, 1, 2)?;
    let one = sync_and_back(alloc, disk, spare, first, &[1, 0, 0, 0], 1)?;
    let none = is(disk, &[0; 4], 2);
    disk.sync(alloc, first, spare)?;
    disk.sync(alloc, second, spare)?;
    disk.sync(alloc, 0, spare)?;
    Ok(one && none && is(disk, &[1, 2, 0, 0], 0))
}

// Packs an empty disk and this one, side by side.
fn beside_an_empty_one(alloc: Global, disk: &Disk) -> Result<PackedDisks, NoMemory>
    ensures { IfOk result (λ packed. length packed ≡ 2) }
{
    let mut packed = PackedDisks::with_room(alloc, 2, 4, 2)?;
    packed.push(&Disk::new(alloc))?;
    packed.push(disk)?;
    Ok(packed)
}

// Makes a disk of four stable bytes, all 0, with two writes and a sync for each.
fn two_asked(alloc: Global) -> Result<Disk, NoMemory> {
    let mut disk = zeros(alloc)?;
    write_and_ask(&mut disk, 0, 1)?;
    write_and_ask(&mut disk, 1, 2)?;
    Ok(disk)
}

// Returns whether a packed disk is as expected.
fn keeps(
    alloc: Global,
    packed: &PackedDisks,
    place: usize,
    stable: &[u8],
    unsynced: u32,
) -> Result<bool, NoMemory>
    requires { place < length packed.now }
{
    let disk = packed.get(alloc, place)?;
    Ok(is(&disk, stable, unsynced))
}

// Returns whether two disks that were packed side by side are unchanged.
fn are_kept(alloc: Global) -> Result<bool, NoMemory> {
    let disk = two_asked(alloc)?;
    let packed = beside_an_empty_one(alloc, &disk)?;
    Ok(keeps(alloc, &packed, 0, &[], 0)? && keeps(alloc, &packed, 1, &[0; 4], 2)?)
}

#[test]
fn syncs_and_copies(rt: HostRuntime) -> Result<(), Fail> {
    let mut disk = zeros(rt.alloc())?;
    let mut spare = SpareDisks::new(rt.alloc());
    assert!(rt; synced(rt.alloc(), &mut disk, &mut spare)?);
    assert!(rt; are_kept(rt.alloc())?);
    Ok(())
}
