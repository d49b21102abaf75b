//! Worked searches and sweeps of a run of six steps, also refused ones.
ghost use Rattle.std.specs.Prelude.{◌≤◌};

use crate::scenes::{NEXT, tallies, tape_of};
use sim_echo::Echo;
use sim_search::{Gate, OpenGate, SearchFault, search, sweep};
use sim_tally::Tally;
use sim_tape::Frozen;
use sim_watch::{Comparison, Cond, Op, Term, Value};
use std::alloc::Global;
use std::sync::Wait;
use std::sync::atomic::AtomicU64;
use std::sync::atomic::Ordering::SeqCst;
use std::test::Fail;
use std::thread::Threads;
use test_support::TWO_ECHOES;

// For two pieces, how often each was entered and left: enters and leaves of the first in units and
// thousands, those of the second in millions and billions.
#[derive(Drop)]
struct Visits {
    count: AtomicU64,
}

const ONE_EACH: u64 = 1_001_001_001;

impl Gate for Visits {
    fn enter<R: Wait>(&self, _rt: &R, piece: u64) {
        self.count
            .fetch_add(if piece == 0 { 1 } else { 1_000_000 }, SeqCst);
    }

    fn leave<R: Wait>(&self, _rt: &R, piece: u64) {
        self.count
            .fetch_add(if piece == 0 { 1_000 } else { 1_000_000_000 }, SeqCst);
    }
}

// The next operation of client 1 is at most 1, or at most 3.
const AT_MOST_ONE: Term = Term::Cmp(
    1,
    NEXT,
    Comparison {
        op: Op::LessOrEqual,
        value: Value::Number(1),
    },
);

const AT_MOST_THREE: Term = Term::Cmp(
    1,
    NEXT,
    Comparison {
        op: Op::LessOrEqual,
        value: Value::Number(3),
    },
);

// A search between two places, with its result and the visits of the pieces.
#[derive(Clone, Copy)]
struct Search {
    lo: u64,
    hi: u64,
    term: Term,
    found: Result<Option<u32>, SearchFault>,
    visits: u64,
}

// Pieces are entered and left once each, or not at all if the search is refused.
const SEARCHES: [Search; 5] = [
    Search {
        lo: 0,
        hi: 6,
        term: AT_MOST_ONE,
        found: Ok(Some(4)),
        visits: ONE_EACH,
    },
    Search {
        lo: 0,
        hi: 6,
        term: AT_MOST_THREE,
        found: Ok(None),
        visits: ONE_EACH,
    },
    Search {
        lo: 0,
        hi: 7,
        term: Term::Up(0),
        found: Err(SearchFault::BadRange),
        visits: 0,
    },
    Search {
        lo: 4,
        hi: 3,
        term: Term::Up(0),
        found: Err(SearchFault::BadRange),
        visits: 0,
    },
    Search {
        lo: 0,
        hi: 6,
        term: Term::Up(2),
        found: Err(SearchFault::BadCondition),
        visits: 0,
    },
];

// Returns whether this many workers find what they should.
fn finds<R: Threads + Wait + Sync>(
    rt: &R,
    alloc: Global,
    run: &Frozen<Echo<Tally>>,
    row: &Search,
    workers: u32,
) -> Result<bool, Fail>
    requires { (1 ≤ workers) × (workers ≤ 16) }
{
    let cond = Cond::new().and(row.term)?;
    let meters = tallies(alloc, workers)?;
    let gate = Visits {
        count: AtomicU64::new(0),
    };
    let found = search(rt, alloc, run, row.lo, row.hi, &cond, meters, &gate);
    Ok(found == row.found && gate.count.load(SeqCst) == row.visits)
}

// A sweep of seeds, by the first seed, their count and the number of steps of their runs, with its
// result.
#[derive(Clone, Copy)]
struct Sweep(u64, u64, u64, Term, Result<Option<(u64, u32)>, SearchFault>);

const SWEEPS: [Sweep; 7] = [
    Sweep(0, 3, 6, AT_MOST_ONE, Ok(Some((0, 4)))),
    Sweep(5, 3_000, 6, AT_MOST_THREE, Ok(None)),
    Sweep(7, 2, 3, AT_MOST_ONE, Ok(None)),
    Sweep(u64::MAX, 2, 6, Term::Up(0), Err(SearchFault::BadRange)),
    Sweep(0, 0, 6, Term::Up(0), Err(SearchFault::BadRange)),
    Sweep(0, 4_294_967_297, 6, Term::Up(0), Err(SearchFault::BadRange)),
    Sweep(0, 1, 6, Term::Up(2), Err(SearchFault::BadCondition)),
];

// Returns whether this many workers find what they should among seeds.
fn finds_seed<R: Threads + Wait + Sync>(
    rt: &R,
    alloc: Global,
    row: &Sweep,
    workers: u32,
) -> Result<bool, Fail>
    requires { (1 ≤ workers) × (workers ≤ 16) }
{
    let Sweep(first, count, events, term, want) = *row;
    let scenario = TWO_ECHOES.scenario()?;
    let cond = Cond::new().and(term)?;
    let meters = tallies(alloc, workers)?;
    let found = sweep::<Echo<Tally>, _, _>(
        rt, alloc, &scenario, first, count, events, &cond, meters, &OpenGate,
    );
    Ok(found == want)
}

#[test]
fn searches(rt: HostRuntime) -> Result<(), Fail> {
    let alloc = rt.alloc();
    let run = tape_of(alloc, &TWO_ECHOES.scenario()?, 7, &mut Tally::new())?.freeze(alloc)?;
    for workers in [1, 2, 16] {
        for row in &SEARCHES {
            let is_found = finds(&rt, alloc, &run, row, workers)?;
            assert!(rt; is_found, "{} to {} by {workers}", row.lo, row.hi);
        }
    }
    Ok(())
}

#[test]
fn sweeps(rt: HostRuntime) -> Result<(), Fail> {
    for workers in [1, 2, 16] {
        for row in &SWEEPS {
            let is_found = finds_seed(&rt, rt.alloc(), row, workers)?;
            assert!(rt; is_found, "{} from {} by {workers}", row.1, row.0);
        }
    }
    Ok(())
}
