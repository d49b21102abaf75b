//! Events of a world, forward and back.
ghost use Rattle.std.specs.Prelude.{◌≡◌, ◌≢◌, ℕ, ◌+◌, ◌-◌, ◌^◌, ◌<◌, ◌≤◌, [], ◌++◌, length, IfOk};
ghost use Rattle.std.specs.Prelude.{OnOk, IsOk, IsTrue, IsFalse, IsSome, Some, None};
ghost use Rattle.std.specs.Prelude.{slice_index_or, if◌then◌else◌};
ghost use Rattle.std.specs.List.{count_by};
ghost use Rattle.sim_queue.specs.Pending.{first};
ghost use Rattle.sim_world.specs.World.{at_time, host_at};
ghost use Rattle.sim_events.specs.declared.Event.TheVariants as event;
ghost use Rattle.sim_world.specs.Events.{rules, after, next, refusal_of, stepped};
ghost use Rattle.sim_world.specs.Acts.{first_host, acts, reactions_of, turns_of, turned_by};
ghost use Rattle.sim_world.specs.Acts.{turned_if};
ghost use Rattle.sim_world.specs.Clock.{clock_after};
ghost use Rattle.sim_world.specs.Memory.{is_for_stopped};
ghost use Rattle.sim_world.specs.inside.Index.{IsIndex, beside_of, stopped_host, changing_host};
ghost use Rattle.sim_world.specs.Records.{LeadsBack, AnswersFor, back};
ghost use Rattle.sim_world.specs.Room.{IsReady};
ghost use Rattle.sim_world.specs.inside.Sound.{IsLawfulEvent};
ghost use Rattle.sim_world.specs.Undone.{is_reaction, taken_back};
ghost use Rattle.sim_world.specs.inside.Trail.{IsTrail, Extends, taken_changes};
ghost use Rattle.sim_world.specs.inside.Held.{IsHeld, in_hand};

use crate::cluster::Cluster;
use crate::parts::Parts;
use crate::tools::Tools;
use crate::trail::{Compact, Trail};
use crate::undo::Undo;
use crate::world::World;
use crate::{Event, Fault, NoMemory};
use sim_events::Scenario;
use sim_node::Node;
use std::alloc::Global;

// Returns the host whose timer a fault can change, or 0 if there is none.
fn stopped_by(fault: Fault) -> u16
    ensures { result ≡ stopped_host fault }
{
    match fault {
        Fault::Crash(h) | Fault::Bounce(h) => h,
        Fault::Hold(_, _)
        | Fault::Release(_, _)
        | Fault::Cut(_, _)
        | Fault::CutOneway(_, _)
        | Fault::Repair(_, _)
        | Fault::RepairOneway(_, _) => 0,
    }
}

impl<N: Node> Parts<N> {
    // Advances the clock to a time (ms).
    #[inline(never)]
    fn advance(&mut self, trail: &mut Trail<N>, to: u64) -> Result<(), NoMemory>
        ensures world { OnOk result (
            self.new ≡ record self.old { world = at_time to self.old.world }) }
        ensures trail { OnOk result (
            Extends N.records trail.old self.old.world trail.new self.new.world) }
    {
        trail.push(Compact::Timed(self.clock))?;
        self.clock = to;
        Ok(())
    }

    // Carries out an event. The record gets only its small changes, and the index entries that the
    // event may change, as they were before.
    #[inline(always)]
    fn event(
        &mut self,
        sc: &Scenario,
        tools: &mut Tools<N::Msg>,
        undo: &mut Undo<N>,
        event: Event,
        meter: &mut N::Meter,
    ) -> Result<(), NoMemory>
        requires can { refusal_of (rules N.laws N.PROBES sc.now) event self.old.world ≡ None }
        requires seed { self.old.seed ≡ sc.now.seed }
        requires ready { IsReady N.told sc.now.setup self.old.world }
        requires index { IsIndex tools.old.index self.old.world }
        requires there { changing_host event self.old.world < length self.old.world.hosts }
        requires spent { tools.old.effects ≡ record { hosts = sc.now.setup.hosts; list = [] } }
        ensures world { OnOk result (
            self.new ≡ record self.old {
              world = after (rules N.laws N.PROBES sc.now) event self.old.world;
            }) }
        ensures stopped { IsTrue (is_for_stopped event self.old.world) → IsOk result }
        ensures trail { OnOk result (
            IsTrail N.records undo.new.changes self.old.world self.new.world) }
        ensures acted { OnOk result (
            count_by is_reaction undo.new.changes ≡ reactions_of self.old.world event) }
        ensures token { OnOk result (
            undo.new.token ≡ beside_of tools.old.index (changing_host event self.old.world)) }
        ensures lawful { OnOk result (
            IsLawfulEvent N.told (rules N.laws N.PROBES sc.now) event self.old.world) }
        ensures index { OnOk result (IsIndex tools.new.index self.new.world) }
        ensures spent { OnOk result (tools.new.effects ≡ tools.old.effects) }
        ensures work { OnOk result (
            N.Meter.work meter.new ≡ turned_by (turns_of self.old.world event)
            (N.Meter.work meter.old)) }
    {
        match event {
            Event::Step => {
                self.step(sc, tools, undo, meter)?;
                Ok(())
            }
            Event::Advance(to) => {
                undo.trail.clear();
                undo.taken = None;
                undo.beside = tools.index.beside(0);
                self.advance(&mut undo.trail, to)?;
                Ok(())
            }
            Event::Fault(fault) => {
                undo.trail.clear();
                undo.taken = None;
                undo.beside = tools.index.beside(stopped_by(fault));
                self.fault(sc, &mut tools.index, &mut undo.trail, fault, meter)?;
                Ok(())
            }
        }
    }
}

impl<N: Node> Cluster<N> {
    // Takes over the disk memory of a record that is no longer needed.
    fn take_over(&mut self, done: &mut Undo<N>)
        ensures { self.new ≡ self.old }
    {
        done.trail.leave_disk(&mut self.parts.spare_disks);
    }

    // Carries out an event that can happen. `undo` becomes the record by which it is undone. It is
    // inlined into its callers, since the loop of a run passes a step and then needs no test of the
    // event.
    #[inline(always)]
    fn apply(
        &mut self,
        event: Event,
        undo: &mut Undo<N>,
        meter: &mut N::Meter,
    ) -> Result<(), NoMemory>
        requires held { IsHeld N.told self.old }
        requires can { refusal_of (rules N.laws N.PROBES self.old.scenario) event
            self.old.parts.world ≡ None }
        requires young { self.old.age < 65536 }
        ensures held { OnOk result (IsHeld N.told self.new) }
        ensures answers { OnOk result (
            AnswersFor (rules N.laws N.PROBES self.old.scenario) N.records undo.new.changes
            self.old.parts.world event self.new.parts.world) }
        ensures scenario { OnOk result (self.new.scenario ≡ self.old.scenario) }
        ensures age { OnOk result (self.new.age ≡ self.old.age + 1) }
        ensures clock { OnOk result (
            self.new.parts.world.clock ≡ clock_after event self.old.parts.world) }
        ensures on { OnOk result (self.old.parts.world.clock ≤ self.new.parts.world.clock) }
        ensures stopped { IsTrue (is_for_stopped event self.old.parts.world) → IsOk result }
        ensures leads { OnOk result (LeadsBack N.told N.records undo.new (in_hand self.new)) }
        ensures acted { OnOk result (
            count_by is_reaction undo.new.changes ≡ reactions_of self.old.parts.world event) }
        ensures work { OnOk result (
            N.Meter.work meter.new ≡ turned_by (turns_of self.old.parts.world event)
            (N.Meter.work meter.old)) }
    {
        self.parts
            .event(&self.scenario, &mut self.tools, undo, event, meter)?;
        self.age += 1;
        Ok(())
    }

    // Carries out a step that can happen, without a record. Returns its host.
    #[inline(always)]
    fn step_for_good(&mut self, meter: &mut N::Meter) -> Result<u16, NoMemory>
        requires held { IsHeld N.told self.old }
        requires can { refusal_of (rules N.laws N.PROBES self.old.scenario) event.Step
            self.old.parts.world ≡ None }
        requires young { self.old.age < 65536 }
        ensures held { OnOk result (IsHeld N.told self.new) }
        ensures next { OnOk result (
            next (rules N.laws N.PROBES self.old.scenario) self.old.parts.world event.Step
            ≡ Some self.new.parts.world) }
        ensures host { IfOk result (λ h. h ≡ first_host (first self.old.parts.world.queue.items)) }
        ensures there { IfOk result (λ h. h < 32) }
        ensures others { IfOk result (λ h.
            (k : ℕ) → k ≢ h → host_at k self.new.parts.world ≡ host_at k self.old.parts.world) }
        ensures scenario { OnOk result (self.new.scenario ≡ self.old.scenario) }
        ensures age { OnOk result (self.new.age ≡ self.old.age + 1) }
        ensures clock { OnOk result (
            self.new.parts.world.clock ≡ clock_after event.Step self.old.parts.world) }
        ensures on { OnOk result (self.old.parts.world.clock ≤ self.new.parts.world.clock) }
        ensures stopped { IsFalse (acts self.old.parts.world event.Step) → IsOk result }
        ensures work { OnOk result (
            N.Meter.work meter.new ≡ turned_if (acts self.old.parts.world event.Step)
            (N.Meter.work meter.old)) }
    {
        let host = self.parts.step_for_good(
            &self.scenario,
            &mut self.tools,
            &mut self.forgetful,
            meter,
        )?;
        self.age += 1;
        Ok(host)
    }

    // Undoes the last event, given its record.
    fn undo(
        &mut self,
        alloc: Global,
        undo: &mut Undo<N>,
        meter: &mut N::Meter,
    ) -> Result<(), NoMemory>
        requires held { IsHeld N.told self.old }
        requires leads { LeadsBack N.told N.records undo.old (in_hand self.old) }
        ensures held { OnOk result (IsHeld N.told self.new) }
        ensures world { OnOk result (
            self.new.parts.world ≡ back N.records undo.old.changes self.old.parts.world) }
        ensures scenario { OnOk result (self.new.scenario ≡ self.old.scenario) }
        ensures age { OnOk result (self.new.age ≡ self.old.age - 1) }
        ensures work { OnOk result (
            N.Meter.work meter.new ≡ taken_back undo.old.changes (N.Meter.work meter.old)) }
    {
        self.parts.take_back_all(alloc, &mut undo.trail, meter)?;
        let taken = undo.taken.take();
        self.parts.take_back_taken(taken)?;
        self.tools.index.restore(undo.beside);
        self.age -= 1;
        Ok(())
    }
}

impl<N: Node> World<N> {
    /// Returns the world after an event that can happen, and a record by which it is undone. Counts
    /// at most one turn (if a node reacts, or a bounce boots one), and no copy and no undo. The
    /// clock never goes back. The age, which must be below 65,536, rises by one. Fails only for
    /// want of memory; nothing is left then.
    pub fn apply(
        self,
        alloc: Global,
        event: Event,
        meter: &mut N::Meter,
    ) -> Result<(World<N>, Undo<N>), NoMemory>
        requires can { IsSome (next (rules N.laws N.PROBES self.scenario) self.world event) }
        requires young { self.age < 65536 }
        ensures answers { IfOk result (λ r.
            AnswersFor (rules N.laws N.PROBES self.scenario) N.records r.1.changes self.world event
            r.0.world) }
        ensures clock { IfOk result (λ r. r.0.world.clock ≡ clock_after event self.world) }
        ensures on { IfOk result (λ r. self.world.clock ≤ r.0.world.clock) }
        ensures stopped { IsTrue (is_for_stopped event self.world) → IsOk result }
        ensures scenario { IfOk result (λ r. r.0.scenario ≡ self.scenario) }
        ensures age { IfOk result (λ r. r.0.age ≡ self.age + 1) }
        ensures leads { IfOk result (λ r. LeadsBack N.told N.records r.1 r.0) }
        ensures acted { IfOk result (λ r.
            count_by is_reaction r.1.changes ≡ reactions_of self.world event) }
        ensures work { OnOk result (
            N.Meter.work meter.new ≡ turned_by (turns_of self.world event)
            (N.Meter.work meter.old)) }
    {
        let mut cluster = self.into_cluster();
        let mut undo = Undo::empty(alloc);
        undo.trail.take_memory(&mut cluster.spare);
        cluster.apply(event, &mut undo, meter)?;
        Ok((World { cluster }, undo))
    }

    /// Like `apply`, but the record replaces one that is no longer needed, and takes its memory.
    /// After an error the record is unspecified.
    #[inline(always)]
    pub fn apply_over(
        self,
        event: Event,
        undo: &mut Undo<N>,
        meter: &mut N::Meter,
    ) -> Result<World<N>, NoMemory>
        requires can { IsSome (next (rules N.laws N.PROBES self.scenario) self.world event) }
        requires young { self.age < 65536 }
        ensures answers { IfOk result (λ w.
            AnswersFor (rules N.laws N.PROBES self.scenario) N.records undo.new.changes self.world
            event w.world) }
        ensures clock { IfOk result (λ w. w.world.clock ≡ clock_after event self.world) }
        ensures on { IfOk result (λ w. self.world.clock ≤ w.world.clock) }
        ensures stopped { IsTrue (is_for_stopped event self.world) → IsOk result }
        ensures scenario { IfOk result (λ w. w.scenario ≡ self.scenario) }
        ensures age { IfOk result (λ w. w.age ≡ self.age + 1) }
        ensures leads { IfOk result (λ w. LeadsBack N.told N.records undo.new w) }
        ensures acted { OnOk result (
            count_by is_reaction undo.new.changes ≡ reactions_of self.world event) }
        ensures work { OnOk result (
            N.Meter.work meter.new ≡ turned_by (turns_of self.world event)
            (N.Meter.work meter.old)) }
    {
        let mut cluster = self.into_cluster();
        cluster.take_over(undo);
        cluster.apply(event, undo, meter)?;
        Ok(World { cluster })
    }

    /// Like `apply` of a step, but without a record: faster, without memory for one, and final.
    /// Also returns the host of the first pending occurrence; no other host changes. Fails only for
    /// want of memory; nothing is left then.
    #[inline(always)]
    pub fn step_for_good(self, meter: &mut N::Meter) -> Result<(World<N>, u16), NoMemory>
        requires can { IsSome (next (rules N.laws N.PROBES self.scenario) self.world event.Step) }
        requires young { self.age < 65536 }
        ensures next { IfOk result (λ r.
            next (rules N.laws N.PROBES self.scenario) self.world event.Step ≡ Some r.0.world) }
        ensures clock { IfOk result (λ r. r.0.world.clock ≡ clock_after event.Step self.world) }
        ensures on { IfOk result (λ r. self.world.clock ≤ r.0.world.clock) }
        ensures host { IfOk result (λ r. r.1 ≡ first_host (first self.world.queue.items)) }
        ensures there { IfOk result (λ r. r.1 < 32) }
        ensures others { IfOk result (λ r.
            (h : ℕ) → h ≢ r.1 → host_at h r.0.world ≡ host_at h self.world) }
        ensures stopped { IsFalse (acts self.world event.Step) → IsOk result }
        ensures scenario { IfOk result (λ r. r.0.scenario ≡ self.scenario) }
        ensures age { IfOk result (λ r. r.0.age ≡ self.age + 1) }
        ensures work { OnOk result (
            N.Meter.work meter.new ≡ turned_if (acts self.world event.Step)
            (N.Meter.work meter.old)) }
    {
        let mut cluster = self.into_cluster();
        let host = cluster.step_for_good(meter)?;
        Ok((World { cluster }, host))
    }

    /// Returns the world before an event, given the record of the event. Counts one undo if a node
    /// reacted in the event, else none, and no turn and no copy. The age falls by one. Fails only
    /// for want of memory; nothing is left then.
    pub fn undo(
        self,
        alloc: Global,
        undo: Undo<N>,
        meter: &mut N::Meter,
    ) -> Result<World<N>, NoMemory>
        requires { LeadsBack N.told N.records undo self }
        ensures world { IfOk result (λ w.
            w ≡ record {
              world = back N.records undo.changes self.world;
              scenario = self.scenario;
              age = self.age - 1;
            }) }
        ensures work { OnOk result (
            N.Meter.work meter.new ≡ taken_back undo.changes (N.Meter.work meter.old)) }
    {
        let mut cluster = self.into_cluster();
        let mut spent = undo;
        cluster.undo(alloc, &mut spent, meter)?;
        spent.trail.leave_memory(&mut cluster.spare);
        Ok(World { cluster })
    }

    /// Like `undo`, but borrows the record. It is spent then, and its memory can serve another
    /// event.
    pub fn undo_by(
        self,
        alloc: Global,
        undo: &mut Undo<N>,
        meter: &mut N::Meter,
    ) -> Result<World<N>, NoMemory>
        requires { LeadsBack N.told N.records undo.old self }
        ensures world { IfOk result (λ w.
            w ≡ record {
              world = back N.records undo.old.changes self.world;
              scenario = self.scenario;
              age = self.age - 1;
            }) }
        ensures work { OnOk result (
            N.Meter.work meter.new ≡ taken_back undo.old.changes (N.Meter.work meter.old)) }
    {
        let mut cluster = self.into_cluster();
        cluster.undo(alloc, undo, meter)?;
        Ok(World { cluster })
    }

    /// Keeps the memory of a record that is no longer needed, for the next `apply`. The world is
    /// unchanged.
    pub fn reuse(&mut self, undo: Undo<N>)
        ensures { self.new ≡ self.old }
    {
        let mut done = undo;
        done.trail.leave_memory(&mut self.cluster.spare);
    }
}
