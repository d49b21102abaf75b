//! Two workers that wait for each other, at a gate or at a turn, each for at most `LOOKS` looks.
use sim_search::Gate;
use std::sync::Wait;
use std::sync::atomic::Ordering::SeqCst;
use std::sync::atomic::{AtomicBool, AtomicU64};
use std::thread::yield_now;

const LOOKS: u32 = 10_000_000;

/// A meeting of two, and how many of them saw the other come.
#[derive(Drop)]
pub struct Meeting {
    zero: AtomicBool,
    one: AtomicBool,
    /// How many of the two saw the other.
    pub met: AtomicU64,
}

impl Meeting {
    pub fn new() -> Meeting {
        Meeting {
            zero: AtomicBool::new(false),
            one: AtomicBool::new(false),
            met: AtomicU64::new(0),
        }
    }

    /// Lets numbers 0 and 1 wait for each other; any other goes on.
    pub fn come(&self, number: u64) {
        let (mine, other) = match number {
            0 => (&self.zero, &self.one),
            1 => (&self.one, &self.zero),
            _ => return,
        };
        mine.store(true, SeqCst);
        for _ in 0..LOOKS {
            if other.load(SeqCst) {
                self.met.fetch_add(1, SeqCst);
                return;
            }
            yield_now();
        }
    }
}

impl Gate for Meeting {
    fn enter<R: Wait>(&self, _rt: &R, piece: u64) {
        self.come(piece);
    }

    fn leave<R: Wait>(&self, _rt: &R, _piece: u64) {}
}
