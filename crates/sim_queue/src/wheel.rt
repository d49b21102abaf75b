//! Keys in lists by their days; the first key is at hand.
ghost use Rattle.std.specs.Prelude.{◌≡◌, ◌≢◌, ℕ, ◌+◌, ◌-◌, ◌^◌, ◌<◌, ◌≤◌, Some, None, OnErr};
ghost use Rattle.std.specs.Prelude.{IfOk, IfSome, IfNone, Bool, length};
ghost use Rattle.std.specs.Option.{IsSome};
ghost use Rattle.sim_queue.specs.Pending.{Decides};
ghost use Rattle.sim_queue.specs.inside.Lists.{day, IsLists};
ghost use Rattle.sim_queue.specs.inside.Taken.{HasBodies, IsLeastTaken};
ghost use Rattle.sim_queue.specs.inside.Wheel.{key_at, HasNone, HasSame, HasSameBut, IsPlace};
ghost use Rattle.sim_queue.specs.inside.Wheel.{IsFirst, HasMarks, Fits64, IsFrom, IsFloor};

use crate::NoMemory;
use crate::lists::{LISTS, Lists, SERIALS};
use crate::marks::Marks;
use crate::taken::least_taken;
use std::alloc::Global;
use std::marker::Model;

/// Keys at places, each in the list of its day.
#[derive(Drop)]
pub(crate) struct Wheel {
    lists: Lists,
    // The marks of the days of all keys.
    marks: Marks,
    // The least due, or the greatest time if there are no keys.
    floor: u64,
}

impl Model for Wheel {
    ghost use Rattle.std.specs.Prelude.{ℕ, List, Option};
    ghost use Rattle.sim_queue.specs.inside.Wheel.{keys_of, IsWheel};

    ghost Value = { List (Option (ℕ × ℕ)) };

    ghost view = { λ w. keys_of w.lists.nodes.items };

    ghost invariant = { λ w. IsWheel w.lists.width w.lists.nodes.items w.marks.words w.floor };
}

impl Wheel {
    /// Returns no keys. A day has 2 to the power of `width` milliseconds.
    pub(crate) fn new(alloc: Global, width: u32) -> Wheel
        requires { width ≤ 56 }
        ensures { HasNone result }
    {
        Wheel {
            lists: Lists {
                nodes: Vec::new(alloc),
                free: 0,
                width,
            },
            marks: Marks::new(),
            floor: u64::MAX,
        }
    }

    /// Returns no keys, with room for `count` keys but at most 2^20.
    pub(crate) fn with_room(alloc: Global, width: u32, count: usize) -> Result<Wheel, NoMemory>
        requires { width ≤ 56 }
        ensures none { IfOk result (λ w. HasNone w) }
        ensures places { IfOk result (λ w. length w ≡ 256) }
    {
        Ok(Wheel {
            lists: Lists::with_room(alloc, width, count)?,
            marks: Marks::new(),
            floor: u64::MAX,
        })
    }

    /// Returns the width of a day.
    pub(crate) fn width(&self) -> u32
        ensures { result ≤ 56 }
    {
        self.lists.width
    }

    /// Returns a place without a key.
    #[inline(always)]
    pub(crate) fn free_place(&mut self) -> Result<u32, NoMemory>
        ensures place { IfOk result (λ p. IsPlace p self.new) }
        ensures small { IfOk result (λ p. p < 4294967295) }
        ensures same { HasSame self.old self.new }
    {
        Ok(self.lists.free_place()? - LISTS)
    }

    /// Puts a key at a new place, behind the others. Returns the place. After an error nothing has
    /// changed.
    #[inline(always)]
    pub(crate) fn add(&mut self, due: u64, serial: u64) -> Result<u32, NoMemory>
        requires small { serial < 2 ^ 40 }
        requires fresh { (k d : ℕ) → key_at self.old k ≢ Some (d, serial) }
        ensures place { IfOk result (λ p. p ≡ length self.old - 256) }
        ensures next { IfOk result (λ p. p + 1 ≡ length self.new - 256) }
        ensures was { IfOk result (λ p. key_at self.old p ≡ None) }
        ensures there { IfOk result (λ p. key_at self.new p ≡ Some (due, serial)) }
        ensures others { IfOk result (λ p. HasSameBut p self.old self.new) }
        ensures small { IfOk result (λ p. p < 4294967295) }
        ensures err { OnErr result (HasSame self.old self.new) }
    {
        self.lists.make_ends()?;
        let before = self.lists.spot(due, serial);
        let place = self.lists.add(before, due, serial)?;
        if before < LISTS {
            self.marks.set(self.lists.day(due));
            self.floor = self.floor.min(due);
        }
        Ok(place - LISTS)
    }

    /// Puts a key at a place.
    #[inline(always)]
    pub(crate) fn put(&mut self, place: u32, due: u64, serial: u64)
        requires place { IsPlace place self.old }
        requires small { serial < 2 ^ 40 }
        requires fresh { (k d : ℕ) → key_at self.old k ≢ Some (d, serial) }
        ensures there { key_at self.new place ≡ Some (due, serial) }
        ensures others { HasSameBut place self.old self.new }
    {
        let before = self.lists.spot(due, serial);
        self.lists.join(place + LISTS, before, due, serial);
        // After another key in its list, the key's day is marked and it is not before the floor.
        if before < LISTS {
            self.marks.set(self.lists.day(due));
            self.floor = self.floor.min(due);
        }
    }

    /// Takes the key at a place out. Returns its due and its serial.
    #[inline(always)]
    pub(crate) fn remove(&mut self, place: u32) -> (u64, u64)
        requires { IsSome (key_at self.old place) }
        ensures key { key_at self.old place ≡ Some (result.0, result.1) }
        ensures gone { key_at self.new place ≡ None }
        ensures others { HasSameBut place self.old self.new }
    {
        let node = self.lists.leave(place + LISTS);
        self.marks
            .clear_if(node.before == node.after, self.lists.day(node.due));
        self.floor = floor_after(&self.lists, &self.marks, self.floor, node.due);
        (node.due, node.serial)
    }

    /// Takes the first key out, which is at this place. Returns its due and its serial.
    #[inline(always)]
    pub(crate) fn remove_first(&mut self, place: u32) -> (u64, u64)
        requires { IsFirst place self.old }
        ensures key { key_at self.old place ≡ Some (result.0, result.1) }
        ensures gone { key_at self.new place ≡ None }
        ensures others { HasSameBut place self.old self.new }
    {
        let today = self.lists.day(self.floor);
        let node = self.lists.leave(place + LISTS);
        self.marks.clear_if(node.before == node.after, today);
        self.floor = next_floor(&self.lists, &self.marks, node.due, today);
        (node.due, node.serial)
    }

    /// Returns the due and the serial of the key at a place.
    #[inline(always)]
    pub(crate) fn key(&self, place: u32) -> (u64, u64)
        requires { IsSome (key_at self.now place) }
        ensures { key_at self.now place ≡ Some (result.0, result.1) }
    {
        let node = self.lists.nodes[(place + LISTS) as usize];
        (node.due, node.serial)
    }

    /// Returns the number of places.
    #[inline(always)]
    pub(crate) fn places(&self) -> u32
        ensures within { (k : ℕ) → k < result → k + 256 < length self.now }
        ensures all { (k : ℕ) → result ≤ k → key_at self.now k ≡ None }
    {
        (self.lists.nodes.len() as u32).saturating_sub(LISTS)
    }

    /// Returns the due and the serial of the key at a place, if there is one.
    #[inline(always)]
    pub(crate) fn key_if(&self, place: u32) -> Option<(u64, u64)>
        requires { place + 256 < length self.now }
        ensures { result ≡ key_at self.now place }
    {
        let node = self.lists.nodes[(place + LISTS) as usize];
        if node.serial >= SERIALS {
            return None;
        }
        Some((node.due, node.serial))
    }

    /// Returns the least serial, not below `from`, of a key whose body the test accepts.
    pub(crate) fn least_taken<B, F: Fn(&B) -> bool>(
        &self,
        bodies: &Vec<Option<B>>,
        from: u64,
        test: &F,
    ) -> Option<u64>
        requires callable { F.IsAlwaysCallable test.now }
        requires bodies { HasBodies self.now bodies.now.items }
        ensures { (p : B → Bool) → Decides F.Fn test.now p
            → IsLeastTaken p self.now bodies.now.items from result }
    {
        least_taken(&self.lists, &self.marks, bodies, from, test)
    }

    /// Returns the place of the first key.
    #[inline(always)]
    pub(crate) fn first(&self) -> Option<u32>
        ensures first { IfSome result (λ p. IsFirst p self.now) }
        ensures none { IfNone result (HasNone self.now) }
    {
        Some(self.lists.head(self.lists.day(self.floor) % 256)? - LISTS)
    }
}

// Returns the floor after a key of this due was taken out.
#[inline(always)]
fn floor_after(lists: &Lists, marks: &Marks, floor: u64, due: u64) -> u64
    requires narrow { lists.now.width ≤ 56 }
    requires lists { IsLists lists.now.width lists.now.nodes.items }
    requires marked { HasMarks lists.now.width marks.now.words lists.now.nodes.items }
    requires from { IsFrom floor lists.now.nodes.items }
    requires stays { due ≢ floor → IsFloor floor lists.now.nodes.items }
    ensures { IsFloor result lists.now.nodes.items }
{
    if due != floor {
        return floor;
    }
    least_from(lists, marks, floor)
}

// Returns the least due, given that none is before `floor`, which is today. Mostly the list of the
// day still has a key that is due today.
#[inline(always)]
fn next_floor(lists: &Lists, marks: &Marks, floor: u64, today: u64) -> u64
    requires narrow { lists.now.width ≤ 56 }
    requires lists { IsLists lists.now.width lists.now.nodes.items }
    requires made { 256 ≤ length lists.now.nodes.items }
    requires marked { HasMarks lists.now.width marks.now.words lists.now.nodes.items }
    requires from { IsFrom floor lists.now.nodes.items }
    requires today { today ≡ day lists.now.width floor }
    ensures { IsFloor result lists.now.nodes.items }
{
    let place = lists.nodes[(today % 256) as usize].after;
    if place >= LISTS {
        let due = lists.nodes[place as usize].due;
        if lists.day(due) == today {
            return due;
        }
    }
    least_from(lists, marks, floor)
}

// Returns the least due, given that none is before `floor`: goes from one marked day to the next,
// through all lists and on to the end of a word. The first key of a list is its least, so if none
// is due within 256 days, the least of these first keys is the first of all.
#[inline(never)]
fn least_from(lists: &Lists, marks: &Marks, floor: u64) -> u64
    requires narrow { lists.now.width ≤ 56 }
    requires lists { IsLists lists.now.width lists.now.nodes.items }
    requires marked { HasMarks lists.now.width marks.now.words lists.now.nodes.items }
    requires from { IsFrom floor lists.now.nodes.items }
    ensures { IsFloor result lists.now.nodes.items }
{
    // Days are counted from the last one before the floor that is a multiple of 256.
    let first_day = lists.day(floor);
    let start = first_day - first_day % 256;
    let mut day = first_day % 256;
    let end = (day + 320) / 64 * 64;
    let mut least = u64::MAX;
    while day < end {
        let Some(distance) = marks.distance(day) else {
            day = day / 64 * 64 + 64;
            continue;
        };
        day += distance;
        if let Some(place) = lists.head(day % 256) {
            let due = lists.nodes[place as usize].due;
            if lists.day(due) - start == day {
                return due;
            }
            least = least.min(due);
        }
        day += 1;
    }
    least
}
