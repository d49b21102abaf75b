//! Memory of records that are no longer needed.
ghost use Rattle.std.specs.Prelude.{◌≡◌};

use crate::NoMemory;
use crate::content::Content;
use std::alloc::Global;
use std::marker::Model;

// The greatest number of stored boxes.
const MAX_SPARE: usize = 4096;

/// Memory of records that are no longer needed, for later records: at most 4,096 boxes. It affects
/// only the speed.
#[derive(Drop)]
pub struct SpareDisks {
    contents: Vec<Box<Content>>,
}

impl Model for SpareDisks {
    ghost Value = { Unit {0} };

    ghost view = { λ _. tt };
}

impl SpareDisks {
    /// Returns no spare memory. Takes no memory.
    pub fn new(alloc: Global) -> SpareDisks {
        SpareDisks {
            contents: Vec::new(alloc),
        }
    }

    // Returns a box with any content. If it allocates one, it also makes the room to keep it later.
    pub(crate) fn take(&mut self, alloc: Global) -> Result<Box<Content>, NoMemory> {
        if let Some(content) = self.contents.pop() {
            return Ok(content);
        }
        if self.contents.capacity() < MAX_SPARE {
            self.contents.reserve(MAX_SPARE)?;
        }
        let content = Box::new(alloc, Content::empty(alloc))?;
        Ok(content)
    }

    // Keeps a box for later, if there is room. It takes no memory.
    pub(crate) fn put(&mut self, content: Box<Content>) {
        if self.contents.len() < self.contents.capacity() {
            self.contents.push_reserved(content);
        }
    }
}
