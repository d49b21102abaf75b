//! The progress of a search or a sweep, reported while it works.

use sim_search::Gate;
use std::rt::Clock;
use std::sync::Wait;
use std::sync::atomic::AtomicU64;
use std::sync::atomic::Ordering::SeqCst;
use std::time::Instant;

/// The least time from one line to the next (ms).
const PAUSE: u64 = 500;

/// A gate that reports on standard error how many pieces are done and how long the work has taken,
/// at most twice a second, if that is asked for.
#[derive(Drop)]
pub struct Progress<'a, H: Clock + Eprint> {
    host: &'a H,
    // when the work began, if progress is reported
    start: Option<Instant>,
    pieces: u64,
    done: AtomicU64,
    // when the last line was written (ms after the start)
    told: AtomicU64,
}

impl<'a, H: Clock + Eprint> Progress<'a, H> {
    /// Begins the work. If progress is not asked for, or the clock cannot be read, nothing is
    /// reported.
    pub fn new(host: &'a H, is_asked: bool, pieces: u64) -> Self {
        let start = if is_asked {
            Instant::now(host).ok()
        } else {
            None
        };
        Progress {
            host,
            start,
            pieces,
            done: AtomicU64::new(0),
            told: AtomicU64::new(0),
        }
    }

    // Returns how long the work has taken (ms) since it began, or `None` if the clock cannot be
    // read.
    fn so_far(&self, start: Instant) -> Option<u64> {
        let passed = start.elapsed(self.host).ok()?;
        u64::try_from(passed.as_millis()).ok()
    }

    // Claims the next line if it is due. If several workers find it due, one claims it.
    fn claims_line(&self, now: u64) -> bool {
        let last = self.told.load(SeqCst);
        last.saturating_add(PAUSE) <= now
            && self
                .told
                .compare_exchange(last, now, SeqCst, SeqCst)
                .is_ok()
    }

    // Writes a line. A failure of standard error is ignored: the search goes on.
    fn tell(&self, done: u64, now: u64) {
        let pieces = self.pieces;
        let (seconds, tenths) = (now / 1_000, now % 1_000 / 100);
        let _told = eprintln!(self.host; "{done} of {pieces} pieces in {seconds}.{tenths} s");
    }
}

impl<'a, H: Clock + Eprint> Gate for Progress<'a, H> {
    fn enter<R: Wait>(&self, _rt: &R, _piece: u64) {}

    fn leave<R: Wait>(&self, _rt: &R, _piece: u64) {
        let Some(start) = self.start else {
            return;
        };
        let done = self.done.fetch_add(1, SeqCst).saturating_add(1);
        if let Some(now) = self.so_far(start) {
            if self.claims_line(now) {
                self.tell(done, now);
            }
        }
    }
}
