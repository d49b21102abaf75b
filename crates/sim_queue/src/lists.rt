//! Keys in 256 lists, each in the order of its keys. A due falls into a day, and days that are
//! equal modulo 256 share a list.
ghost use Rattle.std.specs.Prelude.{◌≡◌, ◌≢◌, ℕ, ◌^◌, ◌<◌, ◌≤◌, ◌%◌, OnOk, OnErr, IfOk, IfSome};
ghost use Rattle.std.specs.Prelude.{IfNone, ◌+◌, ◌-◌, length, slice_set, nat_lt};
ghost use Rattle.std.specs.Vec.{vec_capacity};
ghost use Rattle.sim_queue.specs.inside.Lists.{node, day, list_of, order_of, key_order, end_of};
ghost use Rattle.sim_queue.specs.inside.Lists.{no_node, HasKey, IsLinked, IsLists, IsFree};
ghost use Rattle.sim_queue.specs.inside.Lists.{IsSpot, KeepsKeys, KeepsOthers, IsEmptyList};
ghost use Rattle.sim_queue.specs.inside.Lists.{HasNoKeys};

use crate::NoMemory;
use std::alloc::Global;

/// The number of lists. As many nodes at the front are the ends of the lists.
pub(crate) const LISTS: u32 = 256;

/// The serials of keys are below this.
pub(crate) const SERIALS: u64 = 1 << 40;

/// The serial of a node without a key: one that is free, or an end of a list.
const NO_SERIAL: u64 = u64::MAX;

/// The most keys for which lists are made with room.
const MOST_KEYS: usize = 1 << 20;

/// A key, and the places of the nodes before and after it in its list.
#[derive(Clone, Copy, Drop)]
pub(crate) struct Node {
    pub(crate) due: u64,
    pub(crate) serial: u64,
    pub(crate) before: u32,
    pub(crate) after: u32,
}

/// The nodes of all lists. Each list is a ring: its end comes before the first key and after the
/// last one.
#[derive(Drop)]
pub(crate) struct Lists {
    pub(crate) nodes: Vec<Node>,
    // A place that most likely holds a free node, which leads to the next one.
    pub(crate) free: u32,
    // A day has 2 to the power of `width` milliseconds.
    pub(crate) width: u32,
}

impl Lists {
    /// Returns lists without keys, with room for `count` keys but at most 2^20.
    pub(crate) fn with_room(alloc: Global, width: u32, count: usize) -> Result<Lists, NoMemory>
        requires { width ≤ 56 }
        ensures width { IfOk result (λ l. l.width ≡ width) }
        ensures lists { IfOk result (λ l. IsLists width l.nodes.items) }
        ensures none { IfOk result (λ l. HasNoKeys l.nodes.items) }
        ensures size { IfOk result (λ l. length l.nodes.items ≡ 256) }
    {
        Ok(Lists {
            nodes: ends(alloc, width, count.min(MOST_KEYS))?,
            free: LISTS,
            width,
        })
    }

    /// Returns the day of a due.
    #[inline(always)]
    pub(crate) fn day(&self, due: u64) -> u64
        requires { self.now.width ≤ 56 }
        ensures { result ≡ day self.now.width due }
    {
        due >> self.width
    }

    /// Returns the place of the first key of a list.
    #[inline(always)]
    pub(crate) fn head(&self, list: u64) -> Option<u32>
        requires { list < 256 }
        ensures first { IfSome result (λ p. (list < length self.now.nodes.items) × (256 ≤ p)
            × ((node self.now.nodes.items list).after ≡ p)) }
        ensures none { IfNone result (list < length self.now.nodes.items
            → (node self.now.nodes.items list).after < 256) }
    {
        let place = self.nodes.get(list as usize)?.after;
        if place < LISTS {
            return None;
        }
        Some(place)
    }

    /// Returns the place of a node without a key.
    #[inline(always)]
    pub(crate) fn free_place(&mut self) -> Result<u32, NoMemory>
        requires lists { IsLists self.old.width self.old.nodes.items }
        requires width { self.old.width ≤ 56 }
        ensures free { IfOk result (λ p. IsFree p self.new.nodes.items) }
        ensures small { IfOk result (λ p. p < 4294967295) }
        ensures keeps { KeepsKeys self.old self.new }
    {
        let place = self.free;
        let Some(next) = next_free(&self.nodes, place) else {
            return self.make_place();
        };
        self.free = next;
        Ok(place)
    }

    // Makes the ends of the lists, unless they exist, and adds a node behind the others.
    #[cold]
    #[inline(never)]
    fn make_place(&mut self) -> Result<u32, NoMemory>
        requires lists { IsLists self.old.width self.old.nodes.items }
        requires width { self.old.width ≤ 56 }
        ensures free { IfOk result (λ p. IsFree p self.new.nodes.items) }
        ensures small { IfOk result (λ p. p < 4294967295) }
        ensures keeps { KeepsKeys self.old self.new }
    {
        self.make_ends()?;
        self.add_node()
    }

    // Adds a node without a key behind the others. Returns its place.
    #[inline(always)]
    fn add_node(&mut self) -> Result<u32, NoMemory>
        requires lists { IsLists self.old.width self.old.nodes.items }
        requires made { 256 ≤ length self.old.nodes.items }
        ensures free { IfOk result (λ p. IsFree p self.new.nodes.items) }
        ensures small { IfOk result (λ p. p < 4294967295) }
        ensures keeps { KeepsKeys self.old self.new }
    {
        let place = self.nodes.len();
        if place >= u32::MAX as usize {
            return Err(NoMemory);
        }
        self.nodes.push(free_node(0))?;
        Ok(place as u32)
    }

    /// Makes the ends of the lists, unless they exist.
    #[inline(always)]
    pub(crate) fn make_ends(&mut self) -> Result<(), NoMemory>
        requires lists { IsLists self.old.width self.old.nodes.items }
        requires width { self.old.width ≤ 56 }
        ensures made { OnOk result (256 ≤ length self.new.nodes.items) }
        ensures places { OnOk result (length self.new.nodes.items - 256
            ≡ length self.old.nodes.items - 256) }
        ensures keeps { KeepsKeys self.old self.new }
    {
        if self.nodes.len() < LISTS as usize {
            self.nodes = ends(*self.nodes.allocator(), self.width, 64)?;
        }
        Ok(())
    }

    /// Returns the place after which a key belongs in its list.
    #[inline(always)]
    pub(crate) fn spot(&self, due: u64, serial: u64) -> u32
        requires lists { IsLists self.now.width self.now.nodes.items }
        requires width { self.now.width ≤ 56 }
        requires made { 256 ≤ length self.now.nodes.items }
        requires small { serial < 2 ^ 40 }
        requires fresh { (i : ℕ) → HasKey (node self.now.nodes.items i)
            → (node self.now.nodes.items i).serial ≢ serial }
        ensures { IsSpot self.now.width due serial result self.now.nodes.items }
    {
        let list = (self.day(due) % 256) as usize;
        let last = self.nodes[list].before;
        if last < LISTS || is_before(&self.nodes[last as usize], due, serial) {
            return last;
        }
        let first = self.nodes[list].after;
        if is_behind(&self.nodes[first as usize], due, serial) {
            return list as u32;
        }
        self.spot_before(last, due, serial)
    }

    // Returns the same, starting from the place of a node in its list that comes after the key.
    #[inline(never)]
    fn spot_before(&self, last: u32, due: u64, serial: u64) -> u32
        requires lists { IsLists self.now.width self.now.nodes.items }
        requires small { serial < 2 ^ 40 }
        requires fresh { (i : ℕ) → HasKey (node self.now.nodes.items i)
            → (node self.now.nodes.items i).serial ≢ serial }
        requires key { HasKey (node self.now.nodes.items last) }
        requires list { list_of self.now.width (node self.now.nodes.items last)
            ≡ day self.now.width due % 256 }
        requires behind { key_order due serial < order_of (node self.now.nodes.items last) }
        ensures { IsSpot self.now.width due serial result self.now.nodes.items }
    {
        let mut at = self.nodes[last as usize].before;
        while at >= LISTS && !is_before(&self.nodes[at as usize], due, serial) {
            at = self.nodes[at as usize].before;
        }
        at
    }

    /// Gives the node at a place a key. The node comes right after the node at `before`.
    #[inline(always)]
    pub(crate) fn join(&mut self, place: u32, before: u32, due: u64, serial: u64)
        requires lists { IsLists self.old.width self.old.nodes.items }
        requires free { IsFree place self.old.nodes.items }
        requires spot { IsSpot self.old.width due serial before self.old.nodes.items }
        requires small { serial < 2 ^ 40 }
        ensures lists { IsLists self.new.width self.new.nodes.items }
        ensures due { (node self.new.nodes.items place).due ≡ due }
        ensures serial { (node self.new.nodes.items place).serial ≡ serial }
        ensures others { KeepsOthers place self.old.nodes.items self.new.nodes.items }
        ensures width { self.new.width ≡ self.old.width }
        ensures size { length self.new.nodes.items ≡ length self.old.nodes.items }
    {
        let nodes = self.nodes.as_mut_slice();
        let after = nodes[before as usize].after;
        nodes[place as usize] = Node {
            due,
            serial,
            before,
            after,
        };
        set_after(nodes, before, place);
        set_before(nodes, after, place);
    }

    /// Adds a node with this key behind the others. The node comes right after the node at `before`
    /// in its list. Returns its place. After an error nothing has changed.
    #[inline(always)]
    pub(crate) fn add(&mut self, before: u32, due: u64, serial: u64) -> Result<u32, NoMemory>
        requires lists { IsLists self.old.width self.old.nodes.items }
        requires made { 256 ≤ length self.old.nodes.items }
        requires spot { IsSpot self.old.width due serial before self.old.nodes.items }
        requires small { serial < 2 ^ 40 }
        ensures place { IfOk result (λ p. p ≡ length self.old.nodes.items) }
        ensures lists { IsLists self.new.width self.new.nodes.items }
        ensures due { IfOk result (λ p. (node self.new.nodes.items p).due ≡ due) }
        ensures serial { IfOk result (λ p. (node self.new.nodes.items p).serial ≡ serial) }
        ensures others { IfOk result (λ p. KeepsOthers p self.old.nodes.items
            self.new.nodes.items) }
        ensures small { IfOk result (λ p. p < 4294967295) }
        ensures size { IfOk result (λ p. length self.new.nodes.items ≡ p + 1) }
        ensures width { self.new.width ≡ self.old.width }
        ensures err { OnErr result (self.new.nodes.items ≡ self.old.nodes.items) }
    {
        let place = self.nodes.len();
        if place >= u32::MAX as usize {
            return Err(NoMemory);
        }
        let after = self.nodes[before as usize].after;
        self.nodes.push(Node {
            due,
            serial,
            before,
            after,
        })?;
        let nodes = self.nodes.as_mut_slice();
        set_after(nodes, before, place as u32);
        set_before(nodes, after, place as u32);
        Ok(place as u32)
    }

    /// Removes the key of a node. Returns the node as it was.
    #[inline(always)]
    pub(crate) fn leave(&mut self, place: u32) -> Node
        requires lists { IsLists self.old.width self.old.nodes.items }
        requires key { HasKey (node self.old.nodes.items place) }
        ensures node { result ≡ node self.old.nodes.items place }
        ensures lists { IsLists self.new.width self.new.nodes.items }
        ensures gone { 2 ^ 40 ≤ (node self.new.nodes.items place).serial }
        ensures others { KeepsOthers place self.old.nodes.items self.new.nodes.items }
        ensures last { result.before ≡ result.after → IsEmptyList self.new.width
            (list_of self.new.width result) self.new.nodes.items }
        ensures width { self.new.width ≡ self.old.width }
        ensures size { length self.new.nodes.items ≡ length self.old.nodes.items }
    {
        let nodes = self.nodes.as_mut_slice();
        let node = nodes[place as usize];
        set_after(nodes, node.before, node.after);
        set_before(nodes, node.after, node.before);
        free_at(nodes, place, self.free);
        self.free = place;
        node
    }
}

// Returns the place to which a node leads, if the node is free.
#[inline(always)]
fn next_free(nodes: &Vec<Node>, place: u32) -> Option<u32>
    ensures free { IfSome result (λ next. IsFree place nodes.now.items) }
    ensures small { IfSome result (λ next. place < 4294967295) }
{
    let node = nodes.get(place as usize)?;
    if node.serial != NO_SERIAL || place < LISTS || place == u32::MAX {
        return None;
    }
    Some(node.after)
}

// Returns a node without a key.
#[inline(always)]
fn free_node(next: u32) -> Node
    ensures { result ≡ record no_node { after = next } }
{
    Node {
        due: 0,
        serial: NO_SERIAL,
        before: 0,
        after: next,
    }
}

// Returns the ends of all lists, which have no keys. The vector has room for `room` more nodes.
fn ends(alloc: Global, width: u32, room: usize) -> Result<Vec<Node>, NoMemory>
    requires narrow { width ≤ 56 }
    requires few { room ≤ 1048576 }
    ensures len { IfOk result (λ made. length made.items ≡ 256) }
    ensures room { IfOk result (λ made. 256 + room ≤ vec_capacity made) }
    ensures ends { IfOk result (λ made. (i : ℕ) → i < 256 → node made.items i ≡ end_of width i) }
{
    let mut made = Vec::with_capacity(alloc, LISTS as usize + room)?;
    for list in 0..LISTS {
        made.push_reserved(Node {
            due: (list as u64) << width,
            serial: NO_SERIAL,
            before: list,
            after: list,
        });
    }
    Ok(made)
}

// Returns whether a node's key is before this one.
#[inline(always)]
fn is_before(node: &Node, due: u64, serial: u64) -> bool
    requires key { node.now.serial < 2 ^ 40 }
    requires small { serial < 2 ^ 40 }
    ensures { result ≡ nat_lt (order_of node.now) (key_order due serial) }
{
    node.due < due || (node.due == due && node.serial < serial)
}

// Returns whether a node's key is after this one.
#[inline(always)]
fn is_behind(node: &Node, due: u64, serial: u64) -> bool
    requires key { node.now.serial < 2 ^ 40 }
    requires small { serial < 2 ^ 40 }
    ensures { result ≡ nat_lt (key_order due serial) (order_of node.now) }
{
    due < node.due || (due == node.due && serial < node.serial)
}

// Makes the node at a place free. It leads to the next free one.
#[inline(always)]
fn free_at(nodes: &mut [Node], place: u32, next: u32)
    requires { place < length nodes.old }
    ensures { nodes.new ≡ slice_set nodes.old place
        (record (node nodes.old place) { serial = 18446744073709551615; after = next }) }
{
    let node = &mut nodes[place as usize];
    node.serial = NO_SERIAL;
    node.after = next;
}

// Sets the place after the node at a place.
#[inline(always)]
fn set_after(nodes: &mut [Node], place: u32, after: u32)
    requires { place < length nodes.old }
    ensures { nodes.new ≡ slice_set nodes.old place
        (record (node nodes.old place) { after = after }) }
{
    nodes[place as usize].after = after;
}

// Sets the place before the node at a place.
#[inline(always)]
fn set_before(nodes: &mut [Node], place: u32, before: u32)
    requires { place < length nodes.old }
    ensures { nodes.new ≡ slice_set nodes.old place
        (record (node nodes.old place) { before = before }) }
{
    nodes[place as usize].before = before;
}
