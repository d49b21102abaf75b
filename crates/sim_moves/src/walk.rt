//! A world that walks along the events of a log, forward and back.
ghost use Rattle.std.specs.Prelude.{◌≡◌, ◌≢◌, ℕ, ◌+◌, ◌-◌, ◌*◌, ◌<◌, ◌≤◌, [], ◌∷◌, ◌++◌};
ghost use Rattle.std.specs.Prelude.{if◌then◌else◌, length, min, is_some, true, false, IfOk, OnOk};
ghost use Rattle.std.specs.Prelude.{OnErr, IsSome, IfSome, Some, None, IsTrue, MatchOption};
ghost use Rattle.std.specs.Arc.{arc_value};
ghost use Rattle.std.specs.List.{count_by};
ghost use Rattle.sim_world.specs.World.{host_at};
ghost use Rattle.sim_world.specs.Acts.{acts, running};
ghost use Rattle.sim_world.specs.Clock.{clock_after};
ghost use Rattle.sim_world.specs.Events.{rules, run, next, refusal_of};
ghost use Rattle.sim_world.specs.Records.{LeadsBack, AnswersFor};
ghost use Rattle.sim_world.specs.Undone.{is_reaction};
ghost use Rattle.circular_buffer.specs.Buffer.{buffer};
ghost use Rattle.sim_history.specs.Log.{events_of};
ghost use Rattle.sim_history.specs.Segments.{stretch};
ghost use Rattle.sim_moves.specs.Walk.{IsRun, IsWalkIn, IsWalkAfter, AreRecordsIn, IsAtIn};
ghost use Rattle.sim_moves.specs.Walk.{IsAfter, rules_in, world_at_end, world_after};
ghost use Rattle.sim_moves.specs.Places.{acting, ChangesOnly};
ghost use Rattle.sim_moves.specs.Works.{undone_by, OnlyTurns, Plays};

use crate::NoMemory;
use crate::ring::Ring;
use sim_history::Log;
use sim_node::Node;
use sim_world::{Event, PackedWorld, World};
use std::alloc::Global;
use std::ops::Range;
use std::sync::Arc;

/// The world at a place of a log, if there is one, and the records of the last events before it.
pub struct Walk<N: Node> {
    pub world: Option<World<N>>,
    pub ring: Ring<N>,
}

// Not derived: a crate that drops a walk would prove the drop of each of its parts again.
impl<N: Node> Drop for Walk<N> {
    fn drop(self) {
        let Walk {
            world: _world,
            ring: _ring,
        } = self;
    }
}

// Returns a copy of a world that can be shared.
#[cold]
#[inline(never)]
fn shared_copy<N: Node>(
    alloc: Global,
    world: &World<N>,
    meter: &mut N::Meter,
) -> Result<Arc<PackedWorld<N>>, NoMemory>
    ensures copy { IfOk result (λ copy. arc_value copy ≡ world.now) }
    ensures work { OnOk result (N.Meter.work meter.new ≡ record (N.Meter.work meter.old) {
      copies = (N.Meter.work meter.old).copies + running world.now.world;
    }) }
{
    let copy = world.pack(alloc, meter)?;
    Ok(Arc::new(alloc, copy)?)
}

// Puts a world where there is none, so that no code to drop one is run there.
#[inline(always)]
fn put<N: Node>(place: &mut Option<World<N>>, world: World<N>)
    requires { place.old ≡ None }
    ensures { place.new ≡ Some world }
{
    if let Some(_) = place.replace(world) {
        unreachable!()
    }
}

// Returns the world after an event that can happen, without a record, and the host of a step: no
// other host changes. The records in the ring are useless then.
#[inline(always)]
fn passed<N: Node>(
    alloc: Global,
    ring: &mut Ring<N>,
    world: World<N>,
    event: Event,
    meter: &mut N::Meter,
) -> Result<(World<N>, Option<u16>), NoMemory>
    requires can { IsSome (next (rules N.laws N.PROBES world.scenario) world.world event) }
    requires young { world.age < 65536 }
    ensures next { IfOk result (λ x.
        next (rules N.laws N.PROBES world.scenario) world.world event ≡ Some x.0.world) }
    ensures scenario { IfOk result (λ x. x.0.scenario ≡ world.scenario) }
    ensures age { IfOk result (λ x. x.0.age ≡ world.age + 1) }
    ensures there { IfOk result (λ x. IfSome x.1 (λ h. h < 32)) }
    ensures others { IfOk result (λ x. IfSome x.1 (λ h.
        (k : ℕ) → k ≢ h → host_at k x.0.world ≡ host_at k world.world)) }
    ensures work { OnOk result (OnlyTurns 1 (N.Meter.work meter.old) (N.Meter.work meter.new)) }
    ensures capacity { ring.new.capacity ≡ ring.old.capacity }
{
    match event {
        Event::Step => {
            let (after, host) = world.step_for_good(meter)?;
            Ok((after, Some(host)))
        }
        Event::Advance(_) | Event::Fault(_) => {
            let after = ring.apply(alloc, world, event, meter)?;
            Ok((after, None))
        }
    }
}

// Returns the world after the events of a range, or after those of them in the segment that
// holds the first, and the place reached. Keeps their records.
fn play_stretch<N: Node>(
    log: &Log,
    alloc: Global,
    way: Range<usize>,
    world: World<N>,
    ring: &mut Ring<N>,
    meter: &mut N::Meter,
) -> Result<(World<N>, usize), NoMemory>
    requires runs { IsRun (rules_in N.laws N.PROBES log.now) log.now.entries }
    requires order { way.start < way.end }
    requires within { way.end ≤ length log.now.entries }
    requires here { IsAtIn N.laws N.PROBES log.now way.start world }
    requires records { AreRecordsIn N.told N.records N.laws N.PROBES log.now way.start
        ring.old.items }
    requires room { length ring.old.items ≤ ring.old.capacity }
    ensures place { IfOk result (λ x.
        x.1 ≡ way.start + stretch log.now.scenario.interval way.start way.end) }
    ensures on { IfOk result (λ x. way.start < x.1) }
    ensures within { IfOk result (λ x. x.1 ≤ way.end) }
    ensures here { IfOk result (λ x. IsAtIn N.laws N.PROBES log.now x.1 x.0) }
    ensures records { IfOk result (λ x.
        AreRecordsIn N.told N.records N.laws N.PROBES log.now x.1 ring.new.items) }
    ensures reach { IfOk result (λ x.
        length ring.new.items ≡ min ring.old.capacity
        (length ring.old.items + (x.1 - way.start))) }
    ensures capacity { ring.new.capacity ≡ ring.old.capacity }
    ensures work { IfOk result (λ x.
        OnlyTurns (x.1 - way.start) (N.Meter.work meter.old) (N.Meter.work meter.new)) }
{
    let entries = log.stretch(way.start, way.end);
    let mut world = world;
    for entry in entries {
        world = ring.apply(alloc, world, entry.event(), meter)?;
    }
    Ok((world, way.start + entries.len()))
}

// Returns the world after the event at a place. Keeps its record.
fn play_event<N: Node>(
    log: &Log,
    alloc: Global,
    place: usize,
    world: World<N>,
    ring: &mut Ring<N>,
    meter: &mut N::Meter,
) -> Result<World<N>, NoMemory>
    requires runs { IsRun (rules_in N.laws N.PROBES log.now) log.now.entries }
    requires within { place < length log.now.entries }
    requires here { IsAtIn N.laws N.PROBES log.now place world }
    requires records { AreRecordsIn N.told N.records N.laws N.PROBES log.now place
        ring.old.items }
    requires room { length ring.old.items ≤ ring.old.capacity }
    ensures here { IfOk result (λ w. IsAtIn N.laws N.PROBES log.now (place + 1) w) }
    ensures records { OnOk result (AreRecordsIn N.told N.records N.laws N.PROBES log.now
        (place + 1) ring.new.items) }
    ensures reach { OnOk result (length ring.new.items ≡ min ring.old.capacity
        (length ring.old.items + 1)) }
    ensures capacity { ring.new.capacity ≡ ring.old.capacity }
    ensures work { OnOk result (OnlyTurns 1 (N.Meter.work meter.old) (N.Meter.work meter.new)) }
{
    let event = log.entry(place).event();
    let after = ring.apply(alloc, world, event, meter)?;
    Ok(after)
}

// Returns the world after the events of a range, and keeps their records, segment by segment.
#[inline(never)]
fn play_stretches<N: Node>(
    log: &Log,
    alloc: Global,
    way: Range<usize>,
    world: World<N>,
    ring: &mut Ring<N>,
    meter: &mut N::Meter,
) -> Result<World<N>, NoMemory>
    requires runs { IsRun (rules_in N.laws N.PROBES log.now) log.now.entries }
    requires order { way.start ≤ way.end }
    requires within { way.end ≤ length log.now.entries }
    requires here { IsAtIn N.laws N.PROBES log.now way.start world }
    requires records { AreRecordsIn N.told N.records N.laws N.PROBES log.now way.start
        ring.old.items }
    requires room { length ring.old.items ≤ ring.old.capacity }
    ensures here { IfOk result (λ w. IsAtIn N.laws N.PROBES log.now way.end w) }
    ensures records { OnOk result (AreRecordsIn N.told N.records N.laws N.PROBES log.now
        way.end ring.new.items) }
    ensures reach { OnOk result (length ring.new.items ≡ min ring.old.capacity
        (length ring.old.items + (way.end - way.start))) }
    ensures capacity { ring.new.capacity ≡ ring.old.capacity }
    ensures work { OnOk result (OnlyTurns (way.end - way.start)
        (N.Meter.work meter.old) (N.Meter.work meter.new)) }
{
    let mut world = world;
    let mut place = way.start;
    while place < way.end {
        let rest = place..way.end;
        let (after, reached) = play_stretch(log, alloc, rest, world, ring, meter)?;
        world = after;
        place = reached;
    }
    Ok(world)
}

// Returns the world after the events of a range. Keeps their records.
#[inline]
fn play<N: Node>(
    log: &Log,
    alloc: Global,
    way: Range<usize>,
    world: World<N>,
    ring: &mut Ring<N>,
    meter: &mut N::Meter,
) -> Result<World<N>, NoMemory>
    requires runs { IsRun (rules_in N.laws N.PROBES log.now) log.now.entries }
    requires order { way.start ≤ way.end }
    requires within { way.end ≤ length log.now.entries }
    requires here { IsAtIn N.laws N.PROBES log.now way.start world }
    requires records { AreRecordsIn N.told N.records N.laws N.PROBES log.now way.start
        ring.old.items }
    requires room { length ring.old.items ≤ ring.old.capacity }
    ensures here { IfOk result (λ w. IsAtIn N.laws N.PROBES log.now way.end w) }
    ensures records { OnOk result (AreRecordsIn N.told N.records N.laws N.PROBES log.now
        way.end ring.new.items) }
    ensures reach { OnOk result (length ring.new.items ≡ min ring.old.capacity
        (length ring.old.items + (way.end - way.start))) }
    ensures capacity { ring.new.capacity ≡ ring.old.capacity }
    ensures work { OnOk result (OnlyTurns (way.end - way.start)
        (N.Meter.work meter.old) (N.Meter.work meter.new)) }
{
    if way.end - way.start == 1 {
        return play_event(log, alloc, way.start, world, ring, meter);
    }
    play_stretches(log, alloc, way, world, ring, meter)
}

// Returns the world before the events of a range, the last of which led to this one. Undoes
// them by their records.
fn unwind<N: Node>(
    log: &Log,
    alloc: Global,
    back: Range<usize>,
    world: World<N>,
    ring: &mut Ring<N>,
    meter: &mut N::Meter,
) -> Result<World<N>, NoMemory>
    requires order { back.start ≤ back.end }
    requires here { IsAtIn N.laws N.PROBES log.now back.end world }
    requires records { AreRecordsIn N.told N.records N.laws N.PROBES log.now back.end
        ring.old.items }
    requires reach { back.end - back.start ≤ length ring.old.items }
    ensures here { IfOk result (λ w. IsAtIn N.laws N.PROBES log.now back.start w) }
    ensures records { OnOk result (AreRecordsIn N.told N.records N.laws N.PROBES log.now
        back.start ring.new.items) }
    ensures reach { OnOk result (length ring.new.items ≡ length ring.old.items -
        (back.end - back.start)) }
    ensures capacity { ring.new.capacity ≡ ring.old.capacity }
    ensures work { OnOk result (N.Meter.work meter.new ≡
        undone_by (acting (rules_in N.laws N.PROBES log.now) back.start (back.end - back.start)
        (events_of log.now.entries)) (N.Meter.work meter.old)) }
{
    let mut world = world;
    for _ in 0..back.end - back.start {
        world = ring.undo(alloc, world, meter)?;
    }
    Ok(world)
}

impl<N: Node> Walk<N> {
    /// Returns a walk without a world, with room for `window` records. Fails only for want of
    /// memory.
    pub fn cold(alloc: Global, window: usize) -> Result<Walk<N>, NoMemory>
        requires { window ≤ 4096 }
        ensures world { IfOk result (λ w. w.world ≡ None) }
        ensures ring { IfOk result (λ w. w.ring ≡ buffer [] window) }
    {
        let ring = Ring::with_capacity(alloc, window)?;
        Ok(Walk { world: None, ring })
    }

    /// Drops the world and the records.
    pub fn leave(&mut self)
        ensures world { self.new.world ≡ None }
        ensures ring { self.new.ring ≡ buffer [] self.old.ring.capacity }
    {
        self.world = None;
        self.ring.clear();
    }

    /// Walks on over the events of a range. Fails only for want of memory; there is no world then.
    pub fn on(
        &mut self,
        alloc: Global,
        log: &Log,
        way: Range<usize>,
        meter: &mut N::Meter,
    ) -> Result<(), NoMemory>
        requires runs { IsRun (rules_in N.laws N.PROBES log.now) log.now.entries }
        requires walk { IsWalkIn N.told N.records N.laws N.PROBES log.now way.start self.old.world
            self.old.ring.items }
        requires warm { IsSome self.old.world }
        requires ring { length self.old.ring.items ≤ self.old.ring.capacity }
        requires order { way.start ≤ way.end }
        requires within { way.end ≤ length log.now.entries }
        ensures ok { OnOk result (IsWalkIn N.told N.records N.laws N.PROBES log.now way.end
            self.new.world self.new.ring.items) }
        ensures warm { OnOk result (IsSome self.new.world) }
        ensures reach { OnOk result (length self.new.ring.items ≡ min self.old.ring.capacity
            (length self.old.ring.items + (way.end - way.start))) }
        ensures work { OnOk result (OnlyTurns (way.end - way.start)
            (N.Meter.work meter.old) (N.Meter.work meter.new)) }
        ensures capacity { self.new.ring.capacity ≡ self.old.ring.capacity }
        ensures ring { length self.new.ring.items ≤ self.new.ring.capacity }
        ensures err { OnErr result (IsWalkIn N.told N.records N.laws N.PROBES log.now way.start
            self.new.world self.new.ring.items) }
    {
        let Some(world) = self.world.take() else {
            unreachable!()
        };
        match play(log, alloc, way, world, &mut self.ring, meter) {
            Ok(after) => {
                self.world = Some(after);
                Ok(())
            }
            Err(refused) => {
                self.ring.clear();
                Err(refused)
            }
        }
    }

    /// Walks on by one event and drops all records, its own too. Returns the host of a step: no
    /// other host changes. Fails only for want of memory; there is no world then.
    pub fn pass(
        &mut self,
        alloc: Global,
        log: &Log,
        place: usize,
        meter: &mut N::Meter,
    ) -> Result<Option<u16>, NoMemory>
        requires runs { IsRun (rules_in N.laws N.PROBES log.now) log.now.entries }
        requires walk { IsWalkIn N.told N.records N.laws N.PROBES log.now place self.old.world
            self.old.ring.items }
        requires warm { IsSome self.old.world }
        requires within { place < length log.now.entries }
        ensures ok { OnOk result (IsWalkIn N.told N.records N.laws N.PROBES log.now (place + 1)
            self.new.world []) }
        ensures warm { OnOk result (IsSome self.new.world) }
        ensures only { IfOk result (λ host. IfSome host (λ h.
            ChangesOnly (rules_in N.laws N.PROBES log.now) h place (events_of log.now.entries))) }
        ensures work { OnOk result (OnlyTurns 1 (N.Meter.work meter.old) (N.Meter.work meter.new)) }
        ensures ring { self.new.ring ≡ buffer [] self.old.ring.capacity }
        ensures err { OnErr result (self.new.world ≡ None) }
    {
        let Some(world) = self.world.take() else {
            unreachable!()
        };
        let event = log.entry(place).event();
        let passed = passed(alloc, &mut self.ring, world, event, meter);
        self.ring.clear();
        let (after, host) = passed?;
        self.world = Some(after);
        Ok(host)
    }

    /// Walks back over the events of a range, whose records must be there. Fails only for want of
    /// memory; there is no world then.
    pub fn back(
        &mut self,
        alloc: Global,
        log: &Log,
        back: Range<usize>,
        meter: &mut N::Meter,
    ) -> Result<(), NoMemory>
        requires walk { IsWalkIn N.told N.records N.laws N.PROBES log.now back.end self.old.world
            self.old.ring.items }
        requires warm { IsSome self.old.world }
        requires ring { length self.old.ring.items ≤ self.old.ring.capacity }
        requires order { back.start ≤ back.end }
        requires reach { back.end - back.start ≤ length self.old.ring.items }
        ensures ok { OnOk result (IsWalkIn N.told N.records N.laws N.PROBES log.now back.start
            self.new.world self.new.ring.items) }
        ensures warm { OnOk result (IsSome self.new.world) }
        ensures reach { OnOk result (length self.new.ring.items ≡ length self.old.ring.items -
            (back.end - back.start)) }
        ensures work { OnOk result (N.Meter.work meter.new ≡
            undone_by (acting (rules_in N.laws N.PROBES log.now) back.start (back.end - back.start)
            (events_of log.now.entries)) (N.Meter.work meter.old)) }
        ensures capacity { self.new.ring.capacity ≡ self.old.ring.capacity }
        ensures ring { length self.new.ring.items ≤ self.new.ring.capacity }
        ensures err { OnErr result (IsWalkIn N.told N.records N.laws N.PROBES log.now back.end
            self.new.world self.new.ring.items) }
    {
        let Some(world) = self.world.take() else {
            unreachable!()
        };
        match unwind(log, alloc, back, world, &mut self.ring, meter) {
            Ok(after) => {
                self.world = Some(after);
                Ok(())
            }
            Err(refused) => {
                self.ring.clear();
                Err(refused)
            }
        }
    }

    // Drops the world and the records. The next world takes over the words that were computed for
    // this one.
    fn give_way(&mut self, next: &mut World<N>)
        ensures next { next.new ≡ next.old }
        ensures world { self.new.world ≡ None }
        ensures capacity { self.new.ring.capacity ≡ self.old.ring.capacity }
        ensures ring { self.new.ring.items ≡ [] }
    {
        if let Some(world) = &mut self.world {
            next.take_words(world);
        }
        self.world = None;
        self.ring.clear();
    }

    // Takes over the words that were computed for another world.
    fn take_words(&mut self, spent: &mut Option<World<N>>)
        ensures world { self.new.world ≡ self.old.world }
        ensures ring { self.new.ring ≡ self.old.ring }
    {
        if let Some(world) = &mut self.world {
            if let Some(before) = spent {
                world.take_words(before);
            }
        }
    }

    /// Drops the records, and takes over from a walk that is no longer needed: its memory for as
    /// many records, and its computed words if both have a world and one seed.
    pub fn take_over(&mut self, spent: Walk<N>)
        ensures world { self.new.world ≡ self.old.world }
        ensures ring { self.new.ring ≡ buffer [] self.old.ring.capacity }
    {
        let Walk { mut world, ring } = spent;
        self.take_words(&mut world);
        self.ring.take_over(ring);
    }

    /// Makes the world at the end of a range anew, from a copy of the checkpoint at its start.
    /// Fails only for want of memory. If the copy fails nothing has changed; after another error
    /// there is no world.
    pub fn anew(
        &mut self,
        alloc: Global,
        log: &Log,
        checkpoint: &PackedWorld<N>,
        way: Range<usize>,
        meter: &mut N::Meter,
    ) -> Result<(), NoMemory>
        requires runs { IsRun (rules_in N.laws N.PROBES log.now) log.now.entries }
        requires checkpoint { IsAtIn N.laws N.PROBES log.now way.start checkpoint.now }
        requires ring { length self.old.ring.items ≤ self.old.ring.capacity }
        requires order { way.start ≤ way.end }
        requires within { way.end ≤ length log.now.entries }
        ensures ok { OnOk result (IsWalkIn N.told N.records N.laws N.PROBES log.now way.end
            self.new.world self.new.ring.items) }
        ensures warm { OnOk result (IsSome self.new.world) }
        ensures reach { OnOk result (length self.new.ring.items ≡ min self.old.ring.capacity
            (way.end - way.start)) }
        ensures work { OnOk result (Plays (way.end - way.start) (running checkpoint.now.world)
            (N.Meter.work meter.old) (N.Meter.work meter.new)) }
        ensures capacity { self.new.ring.capacity ≡ self.old.ring.capacity }
        ensures ring { length self.new.ring.items ≤ self.new.ring.capacity }
        ensures err { OnErr result ((place : ℕ) →
            IsWalkIn N.told N.records N.laws N.PROBES log.now place self.old.world
            self.old.ring.items →
            IsWalkIn N.told N.records N.laws N.PROBES log.now place self.new.world
            self.new.ring.items) }
        ensures cold { OnErr result (self.old.world ≡ None → self.new.world ≡ None) }
    {
        let mut world = checkpoint.open(alloc, meter)?;
        self.give_way(&mut world);
        let world = play(log, alloc, way, world, &mut self.ring, meter);
        match world {
            Ok(after) => {
                self.world = Some(after);
                Ok(())
            }
            Err(refused) => {
                self.ring.clear();
                Err(refused)
            }
        }
    }

    // Returns a copy of a world that can be shared, if one is wanted. Fails only for want of
    // memory; there is no record then.
    #[inline(always)]
    fn mark(
        &mut self,
        alloc: Global,
        world: &World<N>,
        asked: bool,
        meter: &mut N::Meter,
    ) -> Result<Option<Arc<PackedWorld<N>>>, NoMemory>
        ensures copy { IfOk result (λ copy. MatchOption copy (asked ≡ false) (λ c. (asked ≡ true) ×
            (arc_value c ≡ world.now))) }
        ensures work { OnOk result (N.Meter.work meter.new ≡ record (N.Meter.work meter.old) {
          copies = (N.Meter.work meter.old).copies + (if asked then running world.now.world else 0);
        }) }
        ensures world { self.new.world ≡ self.old.world }
        ensures ring { OnOk result (self.new.ring ≡ self.old.ring) }
        ensures capacity { self.new.ring.capacity ≡ self.old.ring.capacity }
        ensures err { OnErr result (self.new.ring.items ≡ []) }
    {
        if !asked {
            return Ok(None);
        }
        match shared_copy(alloc, world, meter) {
            Ok(copy) => Ok(Some(copy)),
            Err(refused) => {
                self.ring.clear();
                Err(refused)
            }
        }
    }

    /// Walks on by an event that is about to be added to the log. Returns the clock after it (ms)
    /// and, if wanted, a copy of the world after it. Fails only for want of memory; there is no
    /// world then.
    #[inline(always)]
    pub fn step(
        &mut self,
        alloc: Global,
        log: &Log,
        event: Event,
        asked: bool,
        meter: &mut N::Meter,
    ) -> Result<(u64, Option<Arc<PackedWorld<N>>>), NoMemory>
        requires runs { IsRun (rules_in N.laws N.PROBES log.now) log.now.entries }
        requires walk { IsWalkIn N.told N.records N.laws N.PROBES log.now (length log.now.entries)
            self.old.world self.old.ring.items }
        requires warm { IsSome self.old.world }
        requires ring { length self.old.ring.items ≤ self.old.ring.capacity }
        requires room { length log.now.entries < 65536 }
        requires can { refusal_of (rules_in N.laws N.PROBES log.now) event
            (world_at_end N.laws N.PROBES log.now) ≡ None }
        ensures ok { OnOk result (IsWalkAfter N.told N.records N.laws N.PROBES event log.now
            self.new.world self.new.ring.items) }
        ensures warm { OnOk result (IsSome self.new.world) }
        ensures runs { OnOk result (IsSome
            (run (rules_in N.laws N.PROBES log.now) (events_of log.now.entries ++ event ∷ []))) }
        ensures clock { IfOk result (λ x. x.0 ≡ (world_after N.laws N.PROBES event log.now).clock) }
        ensures small { IfOk result (λ x. x.0 ≤ 60000 * 65536) }
        ensures moved { OnOk result ((world_after N.laws N.PROBES event log.now).clock ≡
            clock_after event (world_at_end N.laws N.PROBES log.now)) }
        ensures on { OnOk result ((world_at_end N.laws N.PROBES log.now).clock ≤
            (world_after N.laws N.PROBES event log.now).clock) }
        ensures copy { IfOk result (λ x. MatchOption x.1 (asked ≡ false) (λ c. (asked ≡ true) ×
            IsAfter N.laws N.PROBES event log.now (arc_value c))) }
        ensures reach { OnOk result (length self.new.ring.items ≡ min self.old.ring.capacity
            (length self.old.ring.items + 1)) }
        ensures work { OnOk result (Plays 1
            (if asked then running (world_after N.laws N.PROBES event log.now) else 0)
            (N.Meter.work meter.old) (N.Meter.work meter.new)) }
        ensures capacity { self.new.ring.capacity ≡ self.old.ring.capacity }
        ensures ring { length self.new.ring.items ≤ self.new.ring.capacity }
        ensures err { OnErr result (IsWalkIn N.told N.records N.laws N.PROBES log.now
            (length log.now.entries) self.new.world self.new.ring.items) }
    {
        let Some(world) = self.world.take() else {
            unreachable!()
        };
        match self.ring.apply(alloc, world, event, meter) {
            Ok(after) => {
                let copy = self.mark(alloc, &after, asked, meter)?;
                let clock = after.clock();
                put(&mut self.world, after);
                Ok((clock, copy))
            }
            Err(refused) => {
                self.ring.clear();
                Err(refused)
            }
        }
    }
}
