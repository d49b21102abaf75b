//! The history after all sessions ended.
ghost use Rattle.std.specs.Prelude.{◌≡◌};
ghost use Rattle.sim_lock.specs.Entries.{HasEntry};

use crate::kept::Kept;

/// The entries of all sessions, in the order in which their commands ran.
pub struct History<B: Kept> {
    pub entries: Vec<B::Entry>,
}

impl<B: Kept> Drop for History<B> {
    fn drop(self) {
        let History { entries: _ } = self;
    }
}

impl<B: Kept> History<B> {
    /// Returns the entry of a receipt: the session's entry of that number.
    pub fn entry(&self, receipt: &B::Entry) -> &B::Entry
        requires { HasEntry B.session_of B.number_of self.now.entries.items receipt.now }
        ensures { result.now ≡ receipt.now }
    {
        let session = B::session(receipt);
        let mut left = B::number(receipt);
        for e in &self.entries {
            if B::session(e) == session {
                if left <= 1 {
                    return e;
                }
                left -= 1;
            }
        }
        unreachable!()
    }
}
