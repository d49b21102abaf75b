ghost use Rattle.std.specs.Prelude.{◌≡◌, IfOk};
ghost use Rattle.std.specs.Borrow.{Lends, sem};
ghost use Rattle.sim_hosts.specs.contracts.boxed.Boxed as boxed;

use sim_node::NoMemory;
use std::alloc::Global;
use std::fmt;
use std::marker::Model;

/// The state of a role on the heap, so that hosts in other roles do not carry it. Contracts see the
/// state.
#[derive(Drop)]
pub struct Boxed<T> {
    inner: Box<T>,
}

impl<T> Model for Boxed<T> {
    ghost use Rattle.std.specs.Prelude.{◌≡◌};

    ghost Value = { T };

    ghost view = { λ boxed. boxed.inner.value };
}

/// Shows the state.
impl<T: fmt::Debug> fmt::Debug for Boxed<T> {
    fn fmt<W: fmt::Write>(&self, f: &mut fmt::Formatter<W>) -> fmt::Result {
        fmt::Debug::fmt(&*self.inner, f)
    }
}

impl<T: Copy> Boxed<T> {
    /// Puts the state on the heap. Fails only for want of memory.
    pub fn new(alloc: Global, state: T) -> Result<Boxed<T>, NoMemory>
        ensures { IfOk result (λ boxed. boxed ≡ state) }
    {
        Ok(Boxed {
            inner: Box::new(alloc, state)?,
        })
    }

    /// Returns the state.
    #[inline]
    pub fn get(&self) -> &T
        ensures { result.now ≡ self.now }
    {
        &self.inner
    }

    /// Returns the state mutably.
    #[inline]
    pub fn get_mut(&mut self) -> &mut T
        ensures value { result.now ≡ self.old }
        ensures* writes_back { sem 𝓛 (Lends (boxed.the_row T.row) T.row self.entry result
            (λ now. now)) }
    {
        &mut self.inner
    }
}
