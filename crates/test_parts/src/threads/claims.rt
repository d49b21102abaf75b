//! Searches over a row of numbers, with gates that count and that wait.
ghost use Rattle.std.specs.Prelude.{◌≡◌, ◌≤◌, ◌==◌, length, ltb, cond, Some, None, slice_index};
ghost use Rattle.std.specs.Prelude.{vec_len, IfOk};

use sim_claims::{Gate, NoMemory, OpenGate, Pieces, least};
use std::alloc::Global;
use std::process::Abort;
use std::sync::Wait;
use std::sync::atomic::Ordering::SeqCst;
use std::sync::atomic::{AtomicBool, AtomicU64};
use std::test::Fail;
use std::thread::{Threads, yield_now};

// A row of numbers, each above `most` a finding. It counts the scans.
#[derive(Drop)]
struct Row<'a> {
    numbers: &'a [u32],
    most: u32,
    scans: AtomicU64,
}

impl<'a> Pieces<()> for Row<'a> {
    ghost count = { λ r. length r.numbers.now };

    ghost finding = { λ r i. cond (ltb r.most (slice_index r.numbers.now i))
        (Some (slice_index r.numbers.now i)) None };

    fn count(&self) -> u64 {
        self.numbers.len() as u64
    }

    fn scan(&self, piece: u64, _meter: &mut ()) -> Result<Option<u32>, NoMemory> {
        self.scans.fetch_add(1, SeqCst);
        let n = self.numbers[piece as usize];
        Ok(if n > self.most { Some(n) } else { None })
    }
}

fn row_of(numbers: &[u32], most: u32) -> Row<'_>
    ensures { result.numbers.now ≡ numbers.now }
{
    Row {
        numbers,
        most,
        scans: AtomicU64::new(0),
    }
}

// Makes as many meters as there are workers.
fn units(alloc: Global, workers: u32) -> Result<Vec<()>, NoMemory>
    ensures { IfOk result (λ v. vec_len v ≡ workers) }
{
    let mut meters = Vec::new(alloc);
    for _ in 0..workers {
        meters.push(())?;
    }
    Ok(meters)
}

const NUMBERS: [u32; 8] = [3, 1, 4, 1, 5, 9, 2, 6];

// For each piece: 1 for each time that it was entered, and 1,000 for each time that it was left.
#[derive(Drop)]
struct Counts {
    pieces: [AtomicU64; 8],
}

fn no_counts() -> Counts {
    Counts {
        pieces: [
            AtomicU64::new(0),
            AtomicU64::new(0),
            AtomicU64::new(0),
            AtomicU64::new(0),
            AtomicU64::new(0),
            AtomicU64::new(0),
            AtomicU64::new(0),
            AtomicU64::new(0),
        ],
    }
}

impl Counts {
    fn add(&self, piece: u64, n: u64) {
        if let Some(count) = self.pieces.get(piece as usize) {
            count.fetch_add(n, SeqCst);
        }
    }

    // Returns whether each piece was entered and left once.
    fn are_even(&self) -> bool {
        for count in &self.pieces {
            if count.load(SeqCst) != 1_001 {
                return false;
            }
        }
        true
    }
}

impl Gate for Counts {
    fn enter<R: Wait>(&self, _rt: &R, piece: u64) {
        self.add(piece, 1);
    }

    fn leave<R: Wait>(&self, _rt: &R, piece: u64) {
        self.add(piece, 1_000);
    }
}

// Checks that this many workers find this, and enter and leave each piece once. Returns the number
// of scans.
fn scans_of<R: Threads + Wait + Sync + Abort>(
    rt: &R,
    alloc: Global,
    workers: u32,
    most: u32,
    want: Option<(u64, u32)>,
) -> Result<u64, NoMemory>
    requires { (1 ≤ workers) × (workers ≤ 16) }
{
    let meters = units(alloc, workers)?;
    let gate = no_counts();
    let row = row_of(&NUMBERS, most);
    let found = least(rt, alloc, &row, &gate, meters);
    assert!(rt;
        found == Ok(want) && gate.are_even(),
        "{workers} above {most}"
    );
    Ok(row.scans.load(SeqCst))
}

#[test]
fn any_number_of_workers(rt: HostRuntime) -> Result<(), Fail> {
    for workers in 1..17u32 {
        scans_of(&rt, rt.alloc(), workers, 5, Some((5, 9)))?;
    }
    Ok(())
}

#[test]
fn each_piece_is_scanned_once(rt: HostRuntime) -> Result<(), Fail> {
    for workers in 1..17u32 {
        let scans = scans_of(&rt, rt.alloc(), workers, 9, None)?;
        assert_eq!(rt; scans, 8);
    }
    Ok(())
}

#[test]
fn a_worker_scans_no_piece_past_its_finding(rt: HostRuntime) -> Result<(), Fail> {
    let scans = scans_of(&rt, rt.alloc(), 1, 4, Some((4, 5)))?;
    assert_eq!(rt; scans, 5);
    Ok(())
}

// Eight pieces, of which the first wants memory.
#[derive(Drop)]
struct Wanting;

impl Pieces<()> for Wanting {
    ghost count = { λ r. 8 };

    ghost finding = { λ r i. None };

    fn count(&self) -> u64 {
        8
    }

    fn scan(&self, piece: u64, _meter: &mut ()) -> Result<Option<u32>, NoMemory> {
        if piece == 0 { Err(NoMemory) } else { Ok(None) }
    }
}

#[test]
fn a_scan_that_wants_memory_fails_the_search(rt: HostRuntime) -> Result<(), Fail> {
    let alloc = rt.alloc();
    for workers in 1..17u32 {
        let found = least(&rt, alloc, &Wanting, &OpenGate, units(alloc, workers)?);
        assert!(rt; found == Err(NoMemory));
    }
    Ok(())
}

const LOOKS: u32 = 10_000_000;

// A meeting of two, and how many of them saw the other come.
#[derive(Drop)]
struct Meeting {
    zero: AtomicBool,
    one: AtomicBool,
    met: AtomicU64,
}

fn new_meeting() -> Meeting {
    Meeting {
        zero: AtomicBool::new(false),
        one: AtomicBool::new(false),
        met: AtomicU64::new(0),
    }
}

impl Meeting {
    // Lets the first two pieces wait for each other.
    fn come(&self, piece: u64) {
        let (mine, other) = match piece {
            0 => (&self.zero, &self.one),
            1 => (&self.one, &self.zero),
            _ => return,
        };
        mine.store(true, SeqCst);
        for _ in 0..LOOKS {
            if other.load(SeqCst) {
                self.met.fetch_add(1, SeqCst);
                return;
            }
            yield_now();
        }
    }
}

impl Gate for Meeting {
    fn enter<R: Wait>(&self, _rt: &R, piece: u64) {
        self.come(piece);
    }

    fn leave<R: Wait>(&self, _rt: &R, _piece: u64) {}
}

// Eight pieces without a finding, of which the first two are scanned together.
#[derive(Drop)]
struct Together {
    meeting: Meeting,
}

impl Pieces<()> for Together {
    ghost count = { λ r. 8 };

    ghost finding = { λ r i. None };

    fn count(&self) -> u64 {
        8
    }

    fn scan(&self, piece: u64, _meter: &mut ()) -> Result<Option<u32>, NoMemory> {
        self.meeting.come(piece);
        Ok(None)
    }
}

#[test]
fn two_workers_are_inside_the_gate(rt: HostRuntime) -> Result<(), Fail> {
    let meters = units(rt.alloc(), 2)?;
    let gate = new_meeting();
    let row = row_of(&NUMBERS, 4);
    let found = least(&rt, rt.alloc(), &row, &gate, meters);
    assert!(rt; found == Ok(Some((4, 5))) && gate.met.load(SeqCst) == 2);
    Ok(())
}

#[test]
fn two_workers_scan_at_once(rt: HostRuntime) -> Result<(), Fail> {
    let meters = units(rt.alloc(), 2)?;
    let pieces = Together {
        meeting: new_meeting(),
    };
    let found = least(&rt, rt.alloc(), &pieces, &OpenGate, meters);
    assert!(rt; found == Ok(None) && pieces.meeting.met.load(SeqCst) == 2);
    Ok(())
}
