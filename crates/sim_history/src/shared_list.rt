//! Values that are shared and never changed.
ghost use Rattle.std.specs.Prelude.{◌≡◌, ℕ, ◌+◌, ◌-◌, ◌*◌, ◌/◌, ◌%◌, ◌<◌, ◌≤◌, [], ◌∷◌, ◌++◌};
ghost use Rattle.std.specs.Prelude.{length, take, map, slice_get, Some, IfOk, OnOk, OnErr, IsTrue};
ghost use Rattle.std.specs.Arc.{arc_value};
ghost use Rattle.sim_history.specs.Segments.{AreFull, values_of, all_values};

use crate::NoMemory;
use std::alloc::Global;
use std::marker::Model;
use std::mem;
use std::sync::Arc;

/// The number of values in a group.
const GROUP: usize = 8;

/// A group of shared values, shared as a whole.
type Group<T> = Arc<Vec<Arc<T>>>;

/// At most 65,537 values, each shared and never changed. They are in groups, each shared as a
/// whole, and in a last part. After a cut within a group only the first values of the list count,
/// until it grows again.
pub struct SharedList<T> {
    groups: Vec<Group<T>>,
    last: Vec<Arc<T>>,
    len: usize,
}

// Not derived, for the reason that `Log` gives.
impl<T: Drop> Drop for SharedList<T> {
    fn drop(self) {
        let SharedList {
            groups: _groups,
            last: _last,
            len: _len,
        } = self;
    }
}

impl<T> Model for SharedList<T> {
    ghost use Rattle.std.specs.Prelude.{◌≡◌, ◌≤◌, ◌*◌, ◌&&◌, length, take, nat_eq, nat_lt};
    ghost use Rattle.std.specs.Vec.{vec_capacity};
    ghost use Rattle.sim_history.specs.Segments.{AreFull, SharedView, values_of, all_values};

    ghost Value = { SharedView T };

    ghost view = { λ s. record {
      items = take s.len (all_values s.groups.items s.last.items);
      has_room = nat_eq s.len (length (all_values s.groups.items s.last.items))
          && (nat_lt (length s.last.items) 8 && nat_lt (length s.last.items) (vec_capacity s.last));
    } };

    ghost invariant = { λ s.
        AreFull values_of 8 s.groups.items
        × (length s.last.items ≤ 8)
        × (s.len ≤ length (all_values s.groups.items s.last.items))
        × (length s.groups.items * 8 ≤ s.len →
        length (all_values s.groups.items s.last.items) ≡ s.len)
        × (length (all_values s.groups.items s.last.items) ≤ 65537) };
}

// Returns the first values, shared. Fails only for want of memory.
fn shared<T: Drop>(alloc: Global, values: &[Arc<T>], n: usize) -> Result<Vec<Arc<T>>, NoMemory>
    requires { n ≤ length values.now }
    ensures { IfOk result (λ shared.
        map arc_value shared.items ≡ take n (map arc_value values.now)) }
{
    let mut shared = Vec::with_capacity(alloc, n)?;
    for i in 0..n {
        shared.push(Arc::try_clone(&values[i])?)?;
    }
    Ok(shared)
}

// Makes the last part from the group in which a list was cut to `len` values. Fails only for want
// of memory; nothing has changed then.
fn reopen<T: Drop>(
    alloc: Global,
    groups: &mut Vec<Group<T>>,
    last: &mut Vec<Arc<T>>,
    len: usize,
) -> Result<(), NoMemory>
    requires full { AreFull values_of 8 groups.old.items }
    requires cut { len < length groups.old.items * 8 }
    ensures ok { OnOk result (all_values groups.new.items last.new.items ≡ take len
        (all_values groups.old.items last.old.items)) }
    ensures full { AreFull values_of 8 groups.new.items }
    ensures short { OnOk result (length last.new.items < 8) }
    ensures groups { OnErr result (groups.new ≡ groups.old) }
    ensures last { OnErr result (last.new ≡ last.old) }
{
    let whole = len / GROUP;
    *last = shared(alloc, groups[whole].as_slice(), len % GROUP)?;
    groups.truncate(whole);
    Ok(())
}

// Makes a group of a full last part. Fails only for want of memory; the values are unchanged.
fn seal<T: Drop>(
    alloc: Global,
    groups: &mut Vec<Group<T>>,
    last: &mut Vec<Arc<T>>,
) -> Result<(), NoMemory>
    requires { length last.old.items ≡ 8 }
    ensures full { AreFull values_of 8 groups.old.items → AreFull values_of 8 groups.new.items }
    ensures same { all_values groups.new.items last.new.items ≡
        all_values groups.old.items last.old.items }
    ensures empty { OnOk result (last.new.items ≡ []) }
    ensures groups { OnErr result (groups.new.items ≡ groups.old.items) }
    ensures last { OnErr result (last.new ≡ last.old) }
{
    groups.reserve(1)?;
    let full = mem::replace(last, Vec::new(alloc));
    match Arc::new(alloc, full) {
        Ok(group) => {
            groups.push_reserved(group);
            Ok(())
        }
        Err(refused) => {
            *last = refused.value;
            Err(NoMemory)
        }
    }
}

// Keeps the first values, and the others of the group in which they end.
fn cut<T: Drop>(groups: &mut Vec<Group<T>>, last: &mut Vec<Arc<T>>, count: usize)
    requires full { AreFull values_of 8 groups.old.items }
    requires within { count ≤ length (all_values groups.old.items last.old.items) }
    requires few { length (all_values groups.old.items last.old.items) ≤ 65537 }
    ensures same { take count (all_values groups.new.items last.new.items) ≡ take count
        (all_values groups.old.items last.old.items) }
    ensures full { AreFull values_of 8 groups.new.items }
    ensures short { length last.new.items ≤ length last.old.items }
    ensures within { count ≤ length (all_values groups.new.items last.new.items) }
    ensures whole { length groups.new.items * 8 ≤ count →
        length (all_values groups.new.items last.new.items) ≡ count }
    ensures few { length (all_values groups.new.items last.new.items) ≤ 65537 }
{
    let grouped = groups.len() * GROUP;
    if count <= grouped {
        last.clear();
        groups.truncate(count.div_ceil(GROUP));
    } else {
        last.truncate(count - grouped);
    }
}

impl<T: Drop> SharedList<T> {
    /// Returns no values.
    pub fn new(alloc: Global) -> SharedList<T>
        ensures { result.items ≡ [] }
    {
        SharedList {
            groups: Vec::new(alloc),
            last: Vec::new(alloc),
            len: 0,
        }
    }

    /// Returns the number of values.
    pub fn len(&self) -> usize
        ensures { result ≡ length self.now.items }
    {
        self.len
    }

    /// Returns the value at a place.
    pub fn get(&self, i: usize) -> &T
        requires { i < length self.now.items }
        ensures { slice_get self.now.items i ≡ Some result.now }
    {
        let whole = i / GROUP;
        if whole < self.groups.len() {
            let group = self.groups[whole].as_slice();
            &group[i % GROUP]
        } else {
            &self.last[i - self.groups.len() * GROUP]
        }
    }

    /// Makes room for one more value. Fails only for want of memory.
    pub fn reserve(&mut self, alloc: Global) -> Result<(), NoMemory>
        ensures items { self.new.items ≡ self.old.items }
        ensures room { OnOk result (IsTrue self.new.has_room) }
    {
        if self.len < self.groups.len() * GROUP {
            reopen(alloc, &mut self.groups, &mut self.last, self.len)?;
        }
        if self.last.len() == GROUP {
            seal(alloc, &mut self.groups, &mut self.last)?;
        }
        self.last.reserve(1)
    }

    /// Adds a value at the end. There must be room for it.
    pub fn push(&mut self, value: Arc<T>)
        requires room { IsTrue self.old.has_room }
        requires few { length self.old.items < 65537 }
        ensures { self.new.items ≡ self.old.items ++ arc_value value ∷ [] }
    {
        self.last.push_reserved(value);
        self.len += 1;
    }

    /// Keeps the first values.
    pub fn truncate(&mut self, count: usize)
        ensures { self.new.items ≡ take count self.old.items }
    {
        if self.len <= count {
            return;
        }
        cut(&mut self.groups, &mut self.last, count);
        self.len = count;
    }

    /// Returns the first values, shared. Fails only for want of memory.
    pub fn share(&self, alloc: Global, count: usize) -> Result<SharedList<T>, NoMemory>
        requires { count ≤ length self.now.items }
        ensures { IfOk result (λ s. s.items ≡ take count self.now.items) }
    {
        let whole = count.div_ceil(GROUP).min(self.groups.len());
        let rest = count.saturating_sub(self.groups.len() * GROUP);
        let groups = shared(alloc, self.groups.as_slice(), whole)?;
        let last = shared(alloc, self.last.as_slice(), rest)?;
        Ok(SharedList {
            groups,
            last,
            len: count,
        })
    }
}
