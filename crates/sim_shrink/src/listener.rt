//! Listeners to the trials of a shrinking.

/// Hears about each trial of a shrinking.
pub trait Listener {
    /// Called after a trial, with how many faults are left and how many trials were made.
    fn tried(&mut self, faults: u64, trials: u64);
}

/// A listener that does nothing.
#[derive(Clone, Copy)]
pub struct NoListener;

impl Listener for NoListener {
    fn tried(&mut self, _faults: u64, _trials: u64) {}
}
