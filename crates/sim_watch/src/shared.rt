ghost use Rattle.std.specs.Prelude.{◌≡◌, IfOk};

use crate::Cond;
use sim_node::NoMemory;
use std::alloc::Global;
use std::marker::Model;
use std::sync::Arc;

/// A condition in its own memory, shared and never changed. Contracts see the condition.
pub struct SharedCond {
    inner: Arc<Cond>,
}

// Not derived: a crate that drops a command would prove the drop of each part of a condition again.
impl Drop for SharedCond {
    fn drop(self) {
        let SharedCond { inner: _inner } = self;
    }
}

impl Model for SharedCond {
    ghost use Rattle.sim_watch.specs.Condition.{Cond as Alternatives};

    ghost Value = { Alternatives };

    ghost view = { λ shared. shared.inner.value };
}

impl SharedCond {
    /// Moves the condition to its own memory. Fails only for want of memory.
    pub fn new(alloc: Global, cond: Cond) -> Result<SharedCond, NoMemory>
        ensures { IfOk result (λ shared. shared ≡ cond) }
    {
        Ok(SharedCond {
            inner: Arc::new(alloc, cond)?,
        })
    }

    /// Returns an equal condition, in the same memory. Fails only if it cannot be shared once more.
    pub fn share(&self) -> Result<SharedCond, NoMemory>
        ensures { IfOk result (λ shared. shared ≡ self.now) }
    {
        Ok(SharedCond {
            inner: Arc::try_clone(&self.inner)?,
        })
    }

    /// Returns the condition.
    #[inline]
    pub fn get(&self) -> &Cond
        ensures { result.now ≡ self.now }
    {
        &self.inner
    }
}
