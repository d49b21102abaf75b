//! Pieces of work, scanned by several workers.
ghost use Rattle.std.specs.Prelude.{◌≡◌, ℕ, ◌+◌, ◌^◌, ◌<◌, ◌≤◌, Option, [], IfOk, vec_len};
ghost use denote.Param.Send.{IsSync, IsSend};
ghost use Rattle.sim_claims.specs.Claims.{hand, past};
ghost use Rattle.sim_claims.specs.Best.{both_of, nearer_of, at_piece, IsBest, IsDone, IsFirst};
ghost use Rattle.sim_claims.specs.Best.{first_from};

use crate::NoMemory;
use crate::claims::{Claims, Worker};
use std::alloc::Global;
use std::sync::Wait;
use std::thread::{Threads, join};

/// Called before and after each piece.
pub trait Gate {
    fn enter<R: Wait>(&self, rt: &R, piece: u64);

    fn leave<R: Wait>(&self, rt: &R, piece: u64);
}

/// A gate that does nothing.
#[derive(Clone, Copy)]
pub struct OpenGate;

impl Gate for OpenGate {
    fn enter<R: Wait>(&self, _rt: &R, _piece: u64) {}

    fn leave<R: Wait>(&self, _rt: &R, _piece: u64) {}
}

/// Pieces of work, numbered from 0, each with a finding or none.
pub trait Pieces<M> {
    // the number of pieces
    ghost count: { Self → ℕ };

    // the finding of a piece
    ghost finding: { Self → ℕ → Option ℕ };

    /// Returns the number of pieces.
    fn count(&self) -> u64
        ensures { result ≡ count self.now };

    /// Returns the finding of a piece, or `None`.
    fn scan(&self, piece: u64, meter: &mut M) -> Result<Option<u32>, NoMemory>
        requires { piece < count self.now }
        ensures { IfOk result (λ r. r ≡ finding self.now piece) };
}

// A piece with its finding.
type Found = Option<(u64, u32)>;

// Returns the finding with the lesser piece.
fn nearer(a: Found, b: Found) -> Found
    ensures { result ≡ nearer_of a b }
{
    match (a, b) {
        (None, b) => b,
        (Some(x), None) => Some(x),
        (Some(x), Some(y)) => if x.0 <= y.0 { Some(x) } else { Some(y) },
    }
}

// Returns a finding with its piece.
fn placed(piece: u64, found: Option<u32>) -> Found
    ensures { result ≡ at_piece piece found }
{
    match found {
        Some(place) => Some((piece, place)),
        None => None,
    }
}

// Scans a piece unless it is past the best one. Returns the nearer of `best` and the piece's
// finding.
fn look<M, S: Pieces<M>>(
    pieces: &S,
    piece: u64,
    meter: &mut M,
    best: Found,
) -> Result<Found, NoMemory>
    requires { piece < S.count pieces.now }
    ensures { IfOk result (λ r. r ≡ nearer_of best (at_piece piece (S.finding pieces.now piece))) }
{
    match best {
        Some(known) if known.0 < piece => Ok(Some(known)),
        _ => {
            let found = pieces.scan(piece, meter)?;
            Ok(nearer(best, placed(piece, found)))
        }
    }
}

// Scans one piece as `look` does, and calls the gate before and after it.
fn visit<M, S: Pieces<M>, G: Gate, R: Wait>(
    rt: &R,
    pieces: &S,
    gate: &G,
    piece: u64,
    meter: &mut M,
    best: Found,
) -> Result<Found, NoMemory>
    requires { piece < S.count pieces.now }
    ensures { IfOk result (λ r. r ≡ nearer_of best (at_piece piece (S.finding pieces.now piece))) }
{
    gate.enter(rt, piece);
    let looked = look(pieces, piece, meter, best);
    gate.leave(rt, piece);
    looked
}

// Claims pieces and scans them until none is left. Returns the least of them with a finding.
fn work<M, S: Pieces<M>, G: Gate, R: Wait>(
    rt: &R,
    claims: &Claims,
    pieces: &S,
    gate: &G,
    meter: &mut M,
    worker: &mut Worker,
) -> Result<Found, NoMemory>
    requires of { worker.old.table_id ≡ claims.now.table.shared.table_id }
    requires fresh { worker.old.me ≡ (hand 1 [], []) }
    requires count { claims.now.table.shared.key.pieces ≡ S.count pieces.now }
    ensures { IsDone claims.now.table.shared.table_id (S.finding pieces.now)
        (S.count pieces.now) 1 worker.new result }
{
    let count = claims.count();
    let mut best = None;
    for _ in 0..u64::MAX {
        let piece = claims.claim(worker);
        if piece >= count {
            return Ok(best);
        }
        best = visit(rt, pieces, gate, piece, meter, best)?;
    }
    unreachable!()
}

// Returns the nearer of two findings, if both workers were done.
fn both(a: Result<Found, NoMemory>, b: Result<Found, NoMemory>) -> Result<Found, NoMemory>
    ensures { result ≡ both_of a b }
{
    match (a, b) {
        (Ok(x), Ok(y)) => Ok(nearer(x, y)),
        (Ok(_), Err(e)) => Err(e),
        (Err(e), _) => Err(e),
    }
}

// Runs one worker to its end. Returns it and the least of its pieces with a finding.
fn alone<M: Drop, S: Pieces<M>, G: Gate, R: Wait>(
    rt: &R,
    claims: &Claims,
    pieces: &S,
    gate: &G,
    mut meter: M,
    mut worker: Worker,
) -> (Worker, Result<Found, NoMemory>)
    requires of { worker.table_id ≡ claims.now.table.shared.table_id }
    requires fresh { worker.me ≡ (hand 1 [], []) }
    requires count { claims.now.table.shared.key.pieces ≡ S.count pieces.now }
    ensures { IsDone claims.now.table.shared.table_id (S.finding pieces.now)
        (S.count pieces.now) 1 result.0 result.1 }
{
    let best = work(rt, claims, pieces, gate, &mut meter, &mut worker);
    (worker, best)
}

// Runs a worker for each meter, each in a thread of its own if one can be made. The last one runs
// in this thread.
fn share<M: Drop + Send, S: Pieces<M> + Sync, G: Gate + Sync, R: Threads + Wait + Sync>(
    rt: &R,
    claims: &Claims,
    pieces: &S,
    gate: &G,
    mut meters: Vec<M>,
    mut worker: Worker,
) -> (Worker, Result<Found, NoMemory>)
    requires some { 0 < vec_len meters }
    requires of { worker.table_id ≡ claims.now.table.shared.table_id }
    requires fresh { worker.me ≡ (hand (vec_len meters) [], []) }
    requires count { claims.now.table.shared.key.pieces ≡ S.count pieces.now }
    ensures { IsDone claims.now.table.shared.table_id (S.finding pieces.now) (S.count pieces.now)
        (vec_len meters) result.0 result.1 }
{
    let Some(meter) = meters.pop() else {
        unreachable!()
    };
    if meters.is_empty() {
        return alone(rt, claims, pieces, gate, meter, worker);
    }
    let mine = claims.apart(&mut worker);
    let ((mine, a), (mut worker, b)) = join(
        rt,
        move || -> (Worker, Result<Found, NoMemory>)
            requires { (mine.table_id ≡ claims.now.table.shared.table_id)
                × (mine.me ≡ (hand 1 [], []))
                × (claims.now.table.shared.key.pieces ≡ S.count pieces.now) }
            ensures { IsDone claims.entry.now.table.shared.table_id (S.finding pieces.entry.now)
                (S.count pieces.entry.now) 1 result.0 result.1 }
        { alone(rt, claims, pieces, gate, meter, mine) },
        move || -> (Worker, Result<Found, NoMemory>)
            requires { IsSync R.row × IsSync S.row × IsSync G.row × IsSend M.row
                × (0 < vec_len meters)
                × (worker.table_id ≡ claims.now.table.shared.table_id)
                × (worker.me ≡ (hand (vec_len meters) [], []))
                × (claims.now.table.shared.key.pieces ≡ S.count pieces.now) }
            ensures { IsDone claims.entry.now.table.shared.table_id (S.finding pieces.entry.now)
                (S.count pieces.entry.now) (vec_len meters) result.0 result.1 }
        { share(rt, claims, pieces, gate, meters, worker) },
    );
    claims.together(&mut worker, mine);
    (worker, both(b, a))
}

/// Returns the least piece with a finding, and that finding. Uses as many workers as there are
/// meters.
///
/// No piece is scanned twice, and a worker scans none past its best one. The gate hears about each
/// piece, unless a scan fails. The result is the same for every number of workers and every order
/// of their threads. If any scan fails for want of memory, so does the search.
pub fn least<M: Drop + Send, S: Pieces<M> + Sync, G: Gate + Sync, R: Threads + Wait + Sync>(
    rt: &R,
    alloc: Global,
    pieces: &S,
    gate: &G,
    meters: Vec<M>,
) -> Result<Option<(u64, u32)>, NoMemory>
    requires some { 0 < vec_len meters }
    requires room { S.count pieces.now + vec_len meters < 2 ^ 64 }
    ensures least { IfOk result (λ r. IsFirst (S.finding pieces.now) (S.count pieces.now) r) }
    ensures plain { IfOk result (λ r. r ≡ first_from (S.finding pieces.now) 0
        (S.count pieces.now)) }
{
    let (claims, worker) = Claims::new(alloc, pieces.count(), meters.len() as u64)?;
    let (worker, best) = share(rt, &claims, pieces, gate, meters, worker);
    claims.close(worker);
    best
}
