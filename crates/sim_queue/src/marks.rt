//! Marks on days, one for all days that are equal modulo 256.
ghost use Rattle.std.specs.Prelude.{◌≡◌, ◌≢◌, ℕ, ◌+◌, ◌<◌, ◌≤◌, ◌/◌, ◌%◌, IfSome, IfNone};
ghost use Rattle.std.specs.Bool.{OnTrue, OnFalse};
ghost use Rattle.sim_queue.specs.inside.Marks.{mark_of, IsMarked, IsUnmarked};

/// The marked days: a bit for each day modulo 256, 64 in a word.
#[derive(Clone, Copy)]
pub(crate) struct Marks {
    pub(crate) words: [u64; 4],
}

impl Marks {
    /// Returns no marks.
    pub(crate) fn new() -> Marks
        ensures { (d : ℕ) → IsUnmarked result.words d }
    {
        Marks { words: [0; 4] }
    }

    /// Marks a day.
    #[inline(always)]
    pub(crate) fn set(&mut self, due: u64)
        ensures set { (d : ℕ) → d % 256 ≡ due % 256 → IsMarked self.new.words d }
        ensures others { (d : ℕ) → d % 256 ≢ due % 256 → mark_of self.new.words d
            ≡ mark_of self.old.words d }
    {
        self.words[(due % 256 / 64) as usize] |= 1 << (due % 64);
    }

    /// Removes the mark of a day, if `told`.
    #[inline(always)]
    pub(crate) fn clear_if(&mut self, told: bool, due: u64)
        ensures cleared { OnTrue told ((d : ℕ) → d % 256 ≡ due % 256
            → IsUnmarked self.new.words d) }
        ensures others { (d : ℕ) → d % 256 ≢ due % 256 → mark_of self.new.words d
            ≡ mark_of self.old.words d }
        ensures same { OnFalse told (self.new ≡ self.old) }
    {
        if told {
            self.words[(due % 256 / 64) as usize] &= !(1 << (due % 64));
        }
    }

    /// Returns the distance from a day to the next marked one, if that is in the same word.
    #[inline(always)]
    pub(crate) fn distance(&self, due: u64) -> Option<u64>
        ensures within { IfSome result (λ n. due % 64 + n < 64) }
        ensures marked { IfSome result (λ n. IsMarked self.now.words (due + n)) }
        ensures between { IfSome result (λ n. (d : ℕ) → due ≤ d → d < due + n
            → IsUnmarked self.now.words d) }
        ensures none { IfNone result ((d : ℕ) → due ≤ d → d / 64 ≡ due / 64
            → IsUnmarked self.now.words d) }
    {
        let rest = self.words[(due % 256 / 64) as usize] >> (due % 64);
        if rest == 0 {
            return None;
        }
        Some(rest.trailing_zeros() as u64)
    }
}
