//! A run as a tape.
ghost use Rattle.std.specs.Prelude.{◌≡◌, ℕ, ◌+◌, ◌-◌, ◌*◌, ◌/◌, ◌%◌, ◌==◌, ◌<◌, ◌≤◌, ◌≢◌, [], ◌∷◌};
ghost use Rattle.std.specs.Prelude.{◌++◌, if◌then◌else◌};
ghost use Rattle.std.specs.Prelude.{true, false, length, take, map, min, IfOk, IfErr, OnOk, OnErr};
ghost use Rattle.std.specs.Prelude.{IsOk, IsSome, IfSome, Some, None, IsTrue, MatchOption, slice_get};
ghost use Rattle.std.specs.Vec.{vec_len, vec_capacity};
ghost use Rattle.std.specs.Bool.{OnTrue};
ghost use Rattle.std.specs.Arc.{arc_value};
ghost use Rattle.sim_queue.specs.Pending.{first};
ghost use Rattle.sim_world.specs.Acts.{first_host};
ghost use Rattle.sim_world.specs.Clock.{clock_after};
ghost use Rattle.sim_world.specs.Events.{rules, run, refusal_of, IsRunnable};
ghost use Rattle.sim_history.specs.Log.{events_of};
ghost use Rattle.sim_moves.specs.Places.{ChangesOnly};
ghost use Rattle.sim_moves.specs.Walk.{IsRun};
ghost use Rattle.sim_moves.specs.Works.{OnlyTurns, Plays};
ghost use Rattle.sim_tape.specs.Tape.{opened, at, with_world, IsMoved, KeepsRun, first_events};
ghost use Rattle.sim_tape.specs.Tape.{with_event, raised};
ghost use Rattle.sim_tape.specs.Tape.{is_within_reach, reach_at, reach_here, is_near_ahead};
ghost use Rattle.sim_tape.specs.Places.{world_of, AreCheckpoints};
ghost use Rattle.sim_tape.specs.Works.{nodes_below, rules_of, TakesBack};
ghost use Rattle.sim_tape.specs.Works.{MakesAnew, JumpsTo, AddsAtEnd, RenewsAndAdds, Opens};

use crate::NoMemory;
use crate::frozen::Frozen;
use sim_history::{Entry, EventList, Log, SharedList};
use sim_moves::Walk;
use sim_node::Node;
use sim_world::{Event, PackedWorld, Scenario, World};
use std::alloc::Global;
use std::marker::Model;
use std::sync::Arc;

/// The kept events of a run, a place among them, and, if the tape is warm, the world there with the
/// records of the last events before it. A checkpoint, shared and never changed, is kept at the
/// start and after each interval of events.
pub struct Tape<N: Node> {
    log: Log,
    checkpoints: SharedList<PackedWorld<N>>,
    place: u32,
    walk: Walk<N>,
}

// Not derived: a crate that drops a tape would prove the drop of each of its parts again.
impl<N: Node> Drop for Tape<N> {
    fn drop(self) {
        let Tape {
            log: _log,
            checkpoints: _checkpoints,
            place: _place,
            walk: _walk,
        } = self;
    }
}

impl<N: Node> Model for Tape<N> {
    ghost use Rattle.std.specs.Prelude.{◌≡◌, ◌≤◌, length, is_some};
    ghost use Rattle.sim_world.specs.Events.{rules};
    ghost use Rattle.sim_history.specs.Log.{events_of};
    ghost use Rattle.sim_moves.specs.Walk.{IsRun, IsWalk};
    ghost use Rattle.sim_tape.specs.Tape.{Tape as TapeView};
    ghost use Rattle.sim_tape.specs.Places.{AreCheckpoints};

    ghost Value = { TapeView };

    ghost view = { λ t. record {
      scenario = t.log.scenario;
      events = events_of t.log.entries;
      place = t.place;
      warm = is_some t.walk.world;
      reach = length t.walk.ring.items;
    } };

    ghost invariant = { λ t.
        IsRun (rules N.laws N.PROBES t.log.scenario) t.log.entries
        × AreCheckpoints (rules N.laws N.PROBES t.log.scenario) (events_of t.log.entries)
        t.checkpoints.items
        × IsWalk N.told N.records (rules N.laws N.PROBES t.log.scenario) (events_of t.log.entries)
        t.place t.walk.world t.walk.ring.items
        × (t.walk.ring.capacity ≡ t.log.scenario.window)
        × (length t.walk.ring.items ≤ t.log.scenario.window) };
}

// Why an event was not added: the lists could not grow, and nothing has changed; or its world could
// not be made.
#[derive(Clone, Copy)]
enum AddError {
    Growth,
    World,
}

impl From<NoMemory> for AddError {
    ghost use Rattle.std.specs.Prelude.{◌≡◌};
    ghost use Rattle.sim_tape.specs.declared.tape.AddError.{AddError};
    ghost use Rattle.sim_tape.specs.declared.tape.AddError.TheVariants as refused;

    ghost from_gives = { λ _ e. e ≡ refused.World };

    fn from(_error: NoMemory) -> AddError {
        AddError::World
    }
}

impl<N: Node> Tape<N> {
    /// Returns a tape of no events, at the start. Fails only for want of memory.
    pub fn new(
        alloc: Global,
        scenario: &Scenario,
        meter: &mut N::Meter,
    ) -> Result<Tape<N>, NoMemory>
        ensures tape { IfOk result (λ t. t ≡ opened scenario.now) }
        ensures work { OnOk result (Opens N.laws N.PROBES scenario.now
            (N.Meter.work meter.old) (N.Meter.work meter.new)) }
    {
        let world = World::start(alloc, scenario, meter)?;
        let first = Arc::new(alloc, world.pack(alloc, meter)?)?;
        let mut checkpoints = SharedList::new(alloc);
        checkpoints.reserve(alloc)?;
        checkpoints.push(first);
        let log = Log::new(alloc, Arc::new(alloc, scenario.copy())?)?;
        let mut walk = Walk::cold(alloc, log.window())?;
        walk.world = Some(world);
        Ok(Tape {
            log,
            checkpoints,
            place: 0,
            walk,
        })
    }

    /// Returns the place: the number of kept events that led to the tape's world.
    pub fn place(&self) -> u32
        ensures value { result ≡ self.now.place }
        ensures within { self.now.place ≤ length self.now.events }
    {
        self.place
    }

    /// Returns the number of kept events.
    pub fn len(&self) -> u32
        ensures value { result ≡ length self.now.events }
        ensures few { length self.now.events ≤ 65536 }
        ensures reach { self.now.reach ≤ self.now.scenario.window }
    {
        self.log.len() as u32
    }

    /// States the invariant: the events can happen one after the other, and the place is among
    /// them. The call does nothing.
    pub fn laws(&self)
        ensures runs { IsRunnable (rules_of N.laws N.PROBES self.now) self.now.events }
        ensures within { self.now.place ≤ length self.now.events }
    {
        prove!(self.place as usize <= self.log.len());
    }

    /// Returns whether the tape holds the world at the place. If it does not, no record can undo an
    /// event.
    pub fn warm(&self) -> bool
        ensures value { result ≡ self.now.warm }
        ensures cold { self.now.warm ≡ false → self.now.reach ≡ 0 }
        ensures reach { self.now.reach ≤ self.now.scenario.window }
    {
        self.walk.world.is_some()
    }

    /// Returns the reach: the number of events that records can undo now.
    pub fn reach(&self) -> u32
        ensures value { result ≡ self.now.reach }
        ensures within { self.now.reach ≤ self.now.place }
    {
        self.walk.ring.len() as u32
    }

    /// Returns the number of events between two checkpoints.
    pub fn interval(&self) -> u32
        ensures value { result ≡ self.now.scenario.interval }
        ensures some { 1 ≤ result }
    {
        self.log.interval() as u32
    }

    /// Returns the clock of the world at the place (ms).
    pub fn clock(&self) -> u64
        ensures value { result ≡ (world_of (rules_of N.laws N.PROBES self.now) self.now).clock }
        ensures small { result ≤ 60000 * 65536 }
    {
        if self.place == 0 {
            return 0;
        }
        self.log.entry(self.place as usize - 1).clock()
    }

    /// Returns the world at the place. The tape must be warm.
    pub fn here(&self) -> &World<N>
        requires { IsTrue self.now.warm }
        ensures run { run (rules_of N.laws N.PROBES self.now)
            (take self.now.place self.now.events) ≡ Some result.now.world }
        ensures age { result.now.age ≡ self.now.place }
        ensures world { result.now.world ≡ world_of (rules_of N.laws N.PROBES self.now) self.now }
        ensures scenario { result.now.scenario ≡ self.now.scenario }
    {
        match &self.walk.world {
            Some(world) => world,
            None => unreachable!(),
        }
    }

    /// Returns the event that follows the place, or `None` at the end.
    pub fn next_event(&self) -> Option<Event>
        ensures { result ≡ slice_get self.now.events self.now.place }
    {
        if self.log.len() <= self.place as usize {
            return None;
        }
        Some(self.log.entry(self.place as usize).event())
    }

    /// Returns the host of the event that follows the place, if that is a step: it changes no other
    /// host. The tape must be warm.
    pub fn next_host(&self) -> Option<u16>
        requires { IsTrue self.now.warm }
        ensures { IfSome result (λ h.
            ChangesOnly (rules_of N.laws N.PROBES self.now) h self.now.place self.now.events) }
    {
        self.laws();
        match self.next_event()? {
            Event::Step => first_host(self.here()),
            Event::Advance(_) | Event::Fault(_) => None,
        }
    }

    /// Drops the events past the place, and their checkpoints.
    pub fn cut(&mut self)
        ensures { self.new ≡ first_events self.old.place self.old }
    {
        let place = self.place as usize;
        self.log.truncate(place);
        self.checkpoints.truncate(place / self.log.interval() + 1);
    }

    /// Goes to a place. Within the reach it undoes events. If the place is ahead, and no farther
    /// off than from the checkpoint at or below it, it walks on. Else it makes the world anew from
    /// that checkpoint, with fewer turns than the interval. Fails only for want of memory; the tape
    /// may be cold then, and its events and its place are as before. A warm tape that is already at
    /// the place needs none.
    pub fn goto(&mut self, alloc: Global, to: u32, meter: &mut N::Meter) -> Result<(), NoMemory>
        requires { to ≤ length self.old.events }
        ensures ok { OnOk result (IsMoved to self.old self.new) }
        ensures reach { OnOk result (self.new.reach ≡ reach_at to self.old) }
        ensures within { OnOk result (IsTrue (is_within_reach to self.old) →
            self.new.reach ≡ self.old.reach - (self.old.place - to)) }
        ensures undos { OnOk result (IsTrue (is_within_reach to self.old) →
            TakesBack N.laws N.PROBES (self.old.place - to) to self.old
            (N.Meter.work meter.old) (N.Meter.work meter.new)) }
        ensures ahead { OnOk result (IsTrue (is_near_ahead to self.old) →
            OnlyTurns (to - self.old.place) (N.Meter.work meter.old) (N.Meter.work meter.new)) }
        ensures here { IsTrue self.old.warm → to ≡ self.old.place →
            IsOk result × (self.new ≡ self.old) ×
            (N.Meter.work meter.new ≡ N.Meter.work meter.old) }
        ensures work { OnOk result (JumpsTo N.laws N.PROBES to self.old
            (N.Meter.work meter.old) (N.Meter.work meter.new)) }
        ensures anew { OnOk result (is_within_reach to self.old ≡ false →
            is_near_ahead to self.old ≡ false →
            MakesAnew N.laws N.PROBES to self.old
            (N.Meter.work meter.old) (N.Meter.work meter.new)) }
        ensures past { OnOk result (is_within_reach to self.old ≡ false →
            is_near_ahead to self.old ≡ false →
            Plays (to % self.old.scenario.interval)
            (nodes_below (rules_of N.laws N.PROBES self.old) to self.old.events)
            (N.Meter.work meter.old) (N.Meter.work meter.new)) }
        ensures err { OnErr result (KeepsRun self.old self.new) }
        ensures still_cold { OnErr result (self.old.warm ≡ false → self.new ≡ self.old) }
    {
        let place = self.place as usize;
        let target = to as usize;
        let interval = self.log.interval();
        if self.walk.world.is_some() {
            if to == self.place {
                return Ok(());
            }
            if target <= place && place - target <= self.walk.ring.len() {
                self.walk.back(alloc, &self.log, target..place, meter)?;
                self.place = to;
                return Ok(());
            }
            if place < target && target - place <= target % interval {
                self.walk.on(alloc, &self.log, place..target, meter)?;
                self.place = to;
                return Ok(());
            }
        }
        let whole = target / interval;
        let checkpoint = self.checkpoints.get(whole);
        let way = whole * interval..target;
        self.walk.anew(alloc, &self.log, checkpoint, way, meter)?;
        self.place = to;
        Ok(())
    }

    /// Makes the world at the place, if the tape is cold. Fails only for want of memory, and only
    /// on a cold tape.
    pub fn make_warm(&mut self, alloc: Global, meter: &mut N::Meter) -> Result<(), NoMemory>
        ensures ok { OnOk result (self.new ≡ with_world true self.new.reach self.old) }
        ensures warm { IsTrue self.old.warm → IsOk result × (self.new ≡ self.old) ×
            (N.Meter.work meter.new ≡ N.Meter.work meter.old) }
        ensures cold { OnOk result (self.old.warm ≡ false →
            MakesAnew N.laws N.PROBES self.old.place self.old
            (N.Meter.work meter.old) (N.Meter.work meter.new)) }
        ensures reach { OnOk result (self.new.reach ≡ reach_here self.old) }
        ensures near { OnOk result (self.old.warm ≡ false →
            Plays (self.old.place % self.old.scenario.interval)
            (nodes_below (rules_of N.laws N.PROBES self.old) self.old.place self.old.events)
            (N.Meter.work meter.old) (N.Meter.work meter.new)) }
        ensures err { OnErr result (KeepsRun self.old self.new) }
        ensures still_cold { OnErr result (self.old.warm ≡ false → self.new ≡ self.old) }
    {
        if self.walk.world.is_some() {
            return Ok(());
        }
        let place = self.place();
        self.goto(alloc, place, meter)
    }

    /// Goes back by `count` events. Within the reach their records undo them; further back the tape
    /// makes the world anew from a checkpoint. Fails only for want of memory; the tape may be cold
    /// then. A warm tape needs none to go back by 0 events.
    pub fn back(&mut self, alloc: Global, count: u32, meter: &mut N::Meter) -> Result<(), NoMemory>
        requires { count ≤ self.old.place }
        ensures ok { OnOk result (IsMoved (self.old.place - count) self.old self.new) }
        ensures reach { OnOk result (self.new.reach ≡ reach_at (self.old.place - count) self.old) }
        ensures within { OnOk result (IsTrue self.old.warm → count ≤ self.old.reach →
            self.new.reach ≡ self.old.reach - count) }
        ensures none { IsTrue self.old.warm → count ≡ 0 →
            IsOk result × (self.new ≡ self.old) ×
            (N.Meter.work meter.new ≡ N.Meter.work meter.old) }
        ensures undos { OnOk result (IsTrue self.old.warm → count ≤ self.old.reach →
            TakesBack N.laws N.PROBES count (self.old.place - count) self.old
            (N.Meter.work meter.old) (N.Meter.work meter.new)) }
        ensures work { OnOk result (JumpsTo N.laws N.PROBES (self.old.place - count) self.old
            (N.Meter.work meter.old) (N.Meter.work meter.new)) }
        ensures anew { OnOk result (is_within_reach (self.old.place - count) self.old ≡ false →
            MakesAnew N.laws N.PROBES (self.old.place - count) self.old
            (N.Meter.work meter.old) (N.Meter.work meter.new)) }
        ensures err { OnErr result (KeepsRun self.old self.new) }
        ensures still_cold { OnErr result (self.old.warm ≡ false → self.new ≡ self.old) }
    {
        let place = self.place();
        self.goto(alloc, place - count, meter)
    }

    /// Goes forward by `count` events. A warm tape walks over each, and keeps the records of the
    /// last ones; a cold one is made warm there. Fails only for want of memory; the tape may be
    /// cold then. A warm tape needs none to go forward by 0 events.
    pub fn forward(
        &mut self,
        alloc: Global,
        count: u32,
        meter: &mut N::Meter,
    ) -> Result<(), NoMemory>
        requires { self.old.place + count ≤ length self.old.events }
        ensures ok { OnOk result (IsMoved (self.old.place + count) self.old self.new) }
        ensures reach { OnOk result (IsTrue self.old.warm →
            self.new.reach ≡ raised count self.old) }
        ensures cold_reach { OnOk result (self.old.warm ≡ false →
            self.new.reach ≡ reach_at (self.old.place + count) self.old) }
        ensures none { IsTrue self.old.warm → count ≡ 0 →
            IsOk result × (self.new ≡ self.old) ×
            (N.Meter.work meter.new ≡ N.Meter.work meter.old) }
        ensures work { OnOk result (IsTrue self.old.warm →
            OnlyTurns count (N.Meter.work meter.old) (N.Meter.work meter.new)) }
        ensures cold { OnOk result (self.old.warm ≡ false →
            MakesAnew N.laws N.PROBES (self.old.place + count) self.old
            (N.Meter.work meter.old) (N.Meter.work meter.new)) }
        ensures err { OnErr result (KeepsRun self.old self.new) }
        ensures still_cold { OnErr result (self.old.warm ≡ false → self.new ≡ self.old) }
    {
        let to = self.place() + count;
        if !self.warm() {
            return self.goto(alloc, to, meter);
        }
        if count == 0 {
            return Ok(());
        }
        let way = self.place as usize..to as usize;
        self.walk.on(alloc, &self.log, way, meter)?;
        self.place = to;
        Ok(())
    }

    /// Goes forward by one event and drops all records, its own too: faster than `forward`, and the
    /// reach is 0 then. Returns the host of a step: no other host changes. Fails only for want of
    /// memory; the tape is cold then.
    pub fn pass(&mut self, alloc: Global, meter: &mut N::Meter) -> Result<Option<u16>, NoMemory>
        requires warm { IsTrue self.old.warm }
        requires more { self.old.place < length self.old.events }
        ensures ok { OnOk result (IsMoved (self.old.place + 1) self.old self.new) }
        ensures only { IfOk result (λ host. IfSome host (λ h.
            ChangesOnly (rules_of N.laws N.PROBES self.old) h self.old.place self.old.events)) }
        ensures reach { self.new.reach ≡ 0 }
        ensures work { OnOk result (OnlyTurns 1 (N.Meter.work meter.old) (N.Meter.work meter.new)) }
        ensures err { OnErr result (KeepsRun self.old self.new) }
        ensures cold { OnErr result (self.new.warm ≡ false) }
    {
        let host = self
            .walk
            .pass(alloc, &self.log, self.place as usize, meter)?;
        self.place += 1;
        Ok(host)
    }

    /// Adds an event that can happen, at the end of a tape that keeps fewer than 65,536. The clock
    /// never goes back. Fails only for want of memory; the events and the place are as before then.
    /// If the lists of a warm tape cannot grow, it stays warm; after another error the tape may be
    /// cold.
    #[inline(always)]
    pub fn add(&mut self, alloc: Global, event: Event, meter: &mut N::Meter) -> Result<(), NoMemory>
        requires end { self.old.place ≡ length self.old.events }
        requires room { length self.old.events < 65536 }
        requires can { refusal_of (rules_of N.laws N.PROBES self.old) event
            (world_of (rules_of N.laws N.PROBES self.old) self.old) ≡ None }
        ensures ok { OnOk result (self.new ≡ with_world true self.new.reach
            (with_event event self.old)) }
        ensures clock { OnOk result ((world_of (rules_of N.laws N.PROBES self.old) self.new).clock ≡
            clock_after event (world_of (rules_of N.laws N.PROBES self.old) self.old)) }
        ensures on { OnOk result ((world_of (rules_of N.laws N.PROBES self.old) self.old).clock ≤
            (world_of (rules_of N.laws N.PROBES self.old) self.new).clock) }
        ensures reach { OnOk result (IsTrue self.old.warm → self.new.reach ≡ raised 1 self.old) }
        ensures rises { OnOk result (self.new.reach ≡ min self.old.scenario.window
            (reach_here self.old + 1)) }
        ensures work { OnOk result (IsTrue self.old.warm →
            AddsAtEnd N.laws N.PROBES event self.old
            (N.Meter.work meter.old) (N.Meter.work meter.new)) }
        ensures cold { OnOk result (self.old.warm ≡ false →
            RenewsAndAdds N.laws N.PROBES event self.old
            (N.Meter.work meter.old) (N.Meter.work meter.new)) }
        ensures err { OnErr result (KeepsRun self.old self.new) }
    {
        self.make_warm(alloc, meter)?;
        match self.add_warm(alloc, event, meter) {
            Ok(()) => Ok(()),
            Err(_) => Err(NoMemory),
        }
    }

    // Adds an event that can happen, at the end of a warm tape. Nearly all events need no room and
    // no checkpoint, and take the short way.
    #[inline(always)]
    fn add_warm(
        &mut self,
        alloc: Global,
        event: Event,
        meter: &mut N::Meter,
    ) -> Result<(), AddError>
        requires warm { IsTrue self.old.warm }
        requires end { self.old.place ≡ length self.old.events }
        requires room { length self.old.events < 65536 }
        requires can { refusal_of (rules_of N.laws N.PROBES self.old) event
            (world_of (rules_of N.laws N.PROBES self.old) self.old) ≡ None }
        ensures ok { OnOk result (self.new ≡ with_world true (raised 1 self.old)
            (with_event event self.old)) }
        ensures clock { OnOk result ((world_of (rules_of N.laws N.PROBES self.old) self.new).clock ≡
            clock_after event (world_of (rules_of N.laws N.PROBES self.old) self.old)) }
        ensures on { OnOk result ((world_of (rules_of N.laws N.PROBES self.old) self.old).clock ≤
            (world_of (rules_of N.laws N.PROBES self.old) self.new).clock) }
        ensures work { OnOk result (AddsAtEnd N.laws N.PROBES event self.old
            (N.Meter.work meter.old) (N.Meter.work meter.new)) }
        ensures err { OnErr result (KeepsRun self.old self.new) }
        ensures growth { IfErr result (λ why. why ≡ AddError.Growth → self.new ≡ self.old) }
    {
        if !self.log.goes_on() {
            // Passes a copy on, so that no call gets the address of `event`, and the compiler knows
            // below that it is as it was.
            let last = event;
            return self.add_at_seam(alloc, last, meter);
        }
        let (clock, _) = self.walk.step(alloc, &self.log, event, false, meter)?;
        self.log.push(Entry::new(event, clock));
        self.place += 1;
        Ok(())
    }

    // Adds an event as `add_warm` does, also where the lists have to grow or the event ends an
    // interval. They grow before the world moves: if the growth fails, the tape is as before.
    #[cold]
    #[inline(never)]
    fn add_at_seam(
        &mut self,
        alloc: Global,
        event: Event,
        meter: &mut N::Meter,
    ) -> Result<(), AddError>
        requires warm { IsTrue self.old.warm }
        requires end { self.old.place ≡ length self.old.events }
        requires room { length self.old.events < 65536 }
        requires can { refusal_of (rules_of N.laws N.PROBES self.old) event
            (world_of (rules_of N.laws N.PROBES self.old) self.old) ≡ None }
        ensures ok { OnOk result (self.new ≡ with_world true (raised 1 self.old)
            (with_event event self.old)) }
        ensures clock { OnOk result ((world_of (rules_of N.laws N.PROBES self.old) self.new).clock ≡
            clock_after event (world_of (rules_of N.laws N.PROBES self.old) self.old)) }
        ensures on { OnOk result ((world_of (rules_of N.laws N.PROBES self.old) self.old).clock ≤
            (world_of (rules_of N.laws N.PROBES self.old) self.new).clock) }
        ensures work { OnOk result (AddsAtEnd N.laws N.PROBES event self.old
            (N.Meter.work meter.old) (N.Meter.work meter.new)) }
        ensures err { OnErr result (KeepsRun self.old self.new) }
        ensures growth { IfErr result (λ why. why ≡ AddError.Growth → self.new ≡ self.old) }
    {
        let is_whole = make_room(alloc, &mut self.log, &mut self.checkpoints)?;
        let (clock, copy) = self.walk.step(alloc, &self.log, event, is_whole, meter)?;
        self.log.push(Entry::new(event, clock));
        keep(&mut self.checkpoints, copy);
        self.place += 1;
        Ok(())
    }

    /// Sets the place alone; the events are unchanged. The tape is cold then, unless the place was
    /// `to` already.
    pub fn rest(&mut self, to: u32)
        requires { to ≤ length self.old.events }
        ensures place { self.new ≡ with_world self.new.warm self.new.reach (at to self.old) }
        ensures same { to ≡ self.old.place → self.new ≡ self.old }
        ensures cold { to ≢ self.old.place → self.new.warm ≡ false }
    {
        if to != self.place {
            self.walk.leave();
            self.place = to;
        }
    }

    /// Drops the events past a place of a tape that is at its end, with their checkpoints, and goes
    /// there. The tape is cold then, unless the place was `to` already.
    pub fn truncate(&mut self, to: u32)
        requires end { self.old.place ≡ length self.old.events }
        requires within { to ≤ self.old.place }
        ensures events { self.new ≡ with_world self.new.warm self.new.reach
            (at to (first_events to self.old)) }
        ensures warm { to ≡ self.old.place → (self.new.warm ≡ self.old.warm) ×
            (self.new.reach ≡ self.old.reach) }
        ensures cold { to ≢ self.old.place → self.new.warm ≡ false }
    {
        self.rest(to);
        self.cut();
    }

    // Returns a cold tape of the first `count` events of a run, which shares the full segments and
    // the checkpoints. Fails only for want of memory.
    pub(crate) fn cold(
        alloc: Global,
        log: &Log,
        checkpoints: &SharedList<PackedWorld<N>>,
        count: usize,
        place: u32,
    ) -> Result<Tape<N>, NoMemory>
        requires runs { IsRun (rules N.laws N.PROBES log.now.scenario) log.now.entries }
        requires checkpoints { AreCheckpoints (rules N.laws N.PROBES log.now.scenario)
            (events_of log.now.entries) checkpoints.now.items }
        requires count { count ≤ length log.now.entries }
        requires within { place ≤ count }
        ensures { IfOk result (λ t. t ≡
            record {
              scenario = log.now.scenario;
              events = take count (events_of log.now.entries);
              place = place;
              warm = false;
              reach = 0;
            }) }
    {
        let log = log.split(alloc, count)?;
        let checkpoints = checkpoints.share(alloc, count / log.interval() + 1)?;
        let walk = Walk::cold(alloc, log.window())?;
        Ok(Tape {
            log,
            checkpoints,
            place,
            walk,
        })
    }

    // Drops the records.
    pub(crate) fn forget(&mut self)
        ensures { self.new ≡ with_world self.old.warm 0 self.old }
    {
        self.walk.ring.clear();
    }

    // Drops the records, and takes over from a tape that is no longer needed: its memory for
    // records, and its computed words if both have a world and one seed.
    pub(crate) fn take_over(&mut self, spent: Tape<N>)
        ensures { self.new ≡ with_world self.old.warm 0 self.old }
    {
        let Tape {
            log: _log,
            checkpoints: _checkpoints,
            place: _place,
            walk,
        } = spent;
        self.walk.take_over(walk);
    }

    /// Returns a cold tape of the first events, at their end, which shares the full segments and
    /// the checkpoints. Fails only for want of memory.
    pub fn split(&self, alloc: Global, to: u32) -> Result<Tape<N>, NoMemory>
        requires { to ≤ length self.now.events }
        ensures { IfOk result (λ t. t ≡ with_world false 0 (at to (first_events to self.now))) }
    {
        Tape::cold(alloc, &self.log, &self.checkpoints, to as usize, to)
    }

    /// Returns all kept events, shared. Fails only for want of memory.
    pub fn events(&self, alloc: Global) -> Result<EventList, NoMemory>
        ensures { IfOk result (λ l. l ≡ self.now.events) }
    {
        self.log.events(alloc)
    }

    /// Returns all kept events and checkpoints, shared: no world is copied. Fails only for want of
    /// memory.
    pub fn freeze(&self, alloc: Global) -> Result<Frozen<N>, NoMemory>
        ensures { IfOk result (λ f. f ≡
            record { scenario = self.now.scenario; events = self.now.events }) }
    {
        Frozen::of(alloc, &self.log, &self.checkpoints)
    }
}

// Returns the host of the first pending occurrence in a world: no other host changes by a step.
fn first_host<N: Node>(world: &World<N>) -> Option<u16>
    ensures { IfSome result (λ h. (h < 32) × (h ≡ first_host (first world.now.world.queue.items))) }
{
    let (_, _, occurrence) = world.first()?;
    let host = occurrence.host;
    if host < 32 { Some(host) } else { None }
}

// Makes room for one more event and, if it ends an interval, for one more world. Returns whether it
// ends one. Fails only for want of memory.
fn make_room<N: Node>(
    alloc: Global,
    log: &mut Log,
    worlds: &mut SharedList<PackedWorld<N>>,
) -> Result<bool, AddError>
    ensures same { log.new ≡ record log.old { room = log.new.room } }
    ensures room { OnOk result (IsTrue log.new.room) }
    ensures whole { IfOk result (λ whole.
        whole ≡ ((length log.old.entries + 1) % log.old.scenario.interval == 0)) }
    ensures items { worlds.new.items ≡ worlds.old.items }
    ensures has_room { IfOk result (λ whole. IsTrue whole → IsTrue worlds.new.has_room) }
    ensures err { IfErr result (λ why. why ≡ AddError.Growth) }
{
    if !log.has_room() {
        match log.reserve(alloc) {
            Ok(()) => {}
            Err(_) => return Err(AddError::Growth),
        }
    }
    let is_whole = log.ends_interval();
    if is_whole {
        match worlds.reserve(alloc) {
            Ok(()) => {}
            Err(_) => return Err(AddError::Growth),
        }
    }
    Ok(is_whole)
}

// Adds a world, if there is one, as the last.
fn keep<N: Node>(worlds: &mut SharedList<PackedWorld<N>>, world: Option<Arc<PackedWorld<N>>>)
    requires room { IsSome world → IsTrue worlds.old.has_room }
    requires few { length worlds.old.items < 65537 }
    ensures { MatchOption world (worlds.new.items ≡ worlds.old.items) (λ w.
        worlds.new.items ≡ worlds.old.items ++ arc_value w ∷ []) }
{
    if let Some(world) = world {
        worlds.push(world);
    }
}
