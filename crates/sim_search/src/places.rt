//! The first place of a frozen run at which a condition fails.
ghost use Rattle.std.specs.Prelude.{◌≡◌, ℕ, ◌<◌, ◌≤◌, false, length, None, IfOk, OnOk, IfErr};
ghost use Rattle.std.specs.Prelude.{vec_len, Option};
ghost use Rattle.sim_world.specs.Events.{rules, IsRunnable};
ghost use Rattle.sim_watch.specs.Condition.{fault_of};
ghost use Rattle.sim_scan.specs.Search.{pieces, piece, first_failing};
ghost use Rattle.sim_search.specs.Faults.{is_bad_search, search_fault, reason};

use crate::SearchFault;
use sim_claims::{Gate, Pieces, least};
use sim_node::{NoMemory, Node};
use sim_scan::{Finding, piece, pieces, scan_after};
use sim_tape::{Frozen, Tape};
use sim_watch::Cond;
use std::alloc::Global;
use std::sync::Wait;
use std::thread::Threads;

// The places of a frozen run, cut into pieces between its checkpoints, and a condition checked for
// the run.
#[derive(Drop)]
struct Places<'a, N: Node> {
    alloc: Global,
    frozen: &'a Frozen<N>,
    cond: &'a Cond,
    lo: u32,
    hi: u32,
    interval: u32,
    ghost order: { lo ≤ hi },
    ghost end: { hi ≤ length frozen.now.events },
    ghost few: { hi ≤ 65536 },
    ghost own: { interval ≡ frozen.now.scenario.interval },
    ghost least: { 1 ≤ interval },
    ghost most: { interval ≤ 1024 },
    ghost checked: { fault_of frozen.now.scenario.setup.hosts N.PROBES cond.now ≡ None },
}

// What a worker scans with: its meter, and the tape of its last piece.
#[derive(Drop)]
struct Scanner<N: Node> {
    meter: N::Meter,
    last: Option<Tape<N>>,
}

// Makes a scanner for each meter, with no last piece.
fn scanners<N: Node>(alloc: Global, meters: Vec<N::Meter>) -> Result<Vec<Scanner<N>>, NoMemory>
    ensures { IfOk result (λ made. length made.items ≡ length meters.items) }
{
    let mut made = Vec::new(alloc);
    for meter in meters {
        made.push(Scanner { meter, last: None })?;
    }
    Ok(made)
}

impl<'a, N: Node> Pieces<Scanner<N>> for Places<'a, N> {
    ghost count = { λ s. pieces s.lo s.hi s.interval };

    ghost finding = { λ s i. let p = piece s.lo s.hi s.interval i in
        first_failing (rules N.laws N.PROBES s.frozen.now.scenario) s.cond.now s.frozen.now.events
        p.lo p.hi };

    fn count(&self) -> u64 {
        pieces(self.lo, self.hi, self.interval)
    }

    fn scan(&self, number: u64, scanner: &mut Scanner<N>) -> Result<Option<u32>, NoMemory> {
        let part = piece(self.lo, self.hi, self.interval, number);
        let Finding { piece: _, place } = scan_after(
            self.alloc,
            self.frozen,
            &mut scanner.last,
            part,
            self.cond,
            &mut scanner.meter,
        )?;
        Ok(place)
    }
}

// Returns whether the places are out of order, or pass the kept end.
fn is_bad(lo: u64, hi: u64, end: u32) -> bool
    ensures value { result ≡ is_bad_search lo hi end }
    ensures fine { result ≡ false → (lo ≤ hi) × (hi ≤ end) }
{
    hi < lo || u64::from(end) < hi
}

/// Returns the first place of a frozen run, from `lo` to `hi`, at which a condition fails, or
/// `None`. Uses as many workers as there are meters.
///
/// No piece between two checkpoints is scanned twice, and a worker scans none past its finding. The
/// gate hears about each, unless memory is wanted. There are 1 to 16 meters. Fails with
/// `BadRange` if `lo` is above `hi` or `hi` past the kept end, else with `BadCondition` if the
/// condition can't be asked of this run, else only for want of memory. The contract also says that
/// the run's events can happen in order, so `None` covers no place without a world.
pub fn search<N: Node + Send + Sync, G: Gate + Sync, R: Threads + Wait + Sync>(
    rt: &R,
    alloc: Global,
    frozen: &Frozen<N>,
    lo: u64,
    hi: u64,
    cond: &Cond,
    meters: Vec<N::Meter>,
    gate: &G,
) -> Result<Option<u32>, SearchFault>
where
    N::Msg: Send + Sync,
    N::Undo: Send + Sync,
    N::Meter: Send,
    requires some { 0 < vec_len meters }
    requires few { vec_len meters ≤ 16 }
    ensures runs { IsRunnable (rules N.laws N.PROBES frozen.now.scenario) frozen.now.events }
    ensures found { IfOk result (λ place. place ≡ first_failing
        (rules N.laws N.PROBES frozen.now.scenario) cond.now frozen.now.events lo hi) }
    ensures allowed { OnOk result (search_fault lo hi (length frozen.now.events)
        frozen.now.scenario.setup.hosts N.PROBES cond.now ≡ None) }
    ensures refused { IfErr result (λ why. why ≡ reason
        (search_fault lo hi (length frozen.now.events) frozen.now.scenario.setup.hosts N.PROBES
        cond.now)) }
{
    frozen.laws();
    if is_bad(lo, hi, frozen.events().len()) {
        return Err(SearchFault::BadRange);
    }
    match cond.check(frozen.hosts(), N::PROBES) {
        Err(_) => return Err(SearchFault::BadCondition),
        Ok(()) => {}
    }
    let places = Places {
        alloc,
        frozen,
        cond,
        lo: lo as u32,
        hi: hi as u32,
        interval: frozen.interval(),
    };
    let scanners = match scanners::<N>(alloc, meters) {
        Ok(scanners) => scanners,
        Err(_) => return Err(SearchFault::NoMemory),
    };
    match least(rt, alloc, &places, gate, scanners) {
        Ok(Some((_, place))) => Ok(Some(place)),
        Ok(None) => Ok(None),
        Err(_) => Err(SearchFault::NoMemory),
    }
}
