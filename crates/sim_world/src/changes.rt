//! The primitive changes of the parts of a world. Each says what it adds to a trail that leads
//! back.
ghost use Rattle.std.specs.Prelude.{◌≡◌, ℕ, ◌+◌, ◌-◌, ◌*◌, ◌^◌, ◌<◌, ◌≤◌, true, List, [], ◌∷◌};
ghost use Rattle.std.specs.Prelude.{◌++◌, length, IfOk, OnOk, IsOk, IfSome, IsSome, IsFalse};
ghost use Rattle.std.specs.Prelude.{IsTrue, Some, None, slice_index_or, slice_index};
ghost use Rattle.sim_streams.specs.Word.{word, network};
ghost use Rattle.sim_queue.specs.Pending.{IsQueue};
ghost use Rattle.sim_links.specs.Link.{link};
ghost use Rattle.sim_links.specs.Ways.{IsWay};
ghost use Rattle.sim_pending.specs.Fate.{latency, is_lost};
ghost use Rattle.sim_links.specs.declared.LinkState.TheVariants as state;
ghost use Rattle.sim_disk.specs.Disk as disk;
ghost use Rattle.sim_pending.specs.Occurrence.{body_of, Body};
ghost use Rattle.sim_world.specs.World.{host_at, place, drawn, at_time, with_host};
ghost use Rattle.sim_world.specs.World.{with_disk, queued, queued_after, on_world, without};
ghost use Rattle.sim_pending.specs.Occurrence.{is_timer_of};
ghost use Rattle.sim_world.specs.World.{is_full, held_back, timed, wrote};
ghost use Rattle.sim_world.specs.Events.{rules, asked};
ghost use Rattle.sim_world.specs.inside.Index.{IsIndex};
ghost use Rattle.sim_world.specs.declared.small.Small.TheVariants as small;
ghost use Rattle.sim_world.specs.inside.Trail.{Changes, Extends, added};

use crate::NoMemory;
use crate::index::Index;
use crate::parts::Parts;
use crate::trail::{Compact, Trail};
use sim_disk::WriteFault;
use sim_events::Scenario;
use sim_links::Way;
use sim_node::{Input, Node};
use sim_pending::{Crossing, Occurrence, draw_crossing};

/// A message on its way from one host to another. The node's effect has it; it is copied where it
/// goes, and not before, so that a message that is dropped needs no memory.
#[derive(Clone, Copy)]
pub(crate) struct Letter<'a, M> {
    pub(crate) from: u16,
    pub(crate) to: u16,
    pub(crate) msg: &'a M,
}

impl<N: Node> Parts<N> {
    // Queues an occurrence for a host, and returns its serial. A sync covers `covered` writes. A
    // trail that led back still does, with this change added at its end.
    #[inline(always)]
    fn enqueue(
        &mut self,
        due: u64,
        host: u16,
        covered: u32,
        input: Input<N::Msg>,
    ) -> Result<u64, NoMemory>
        requires room { self.old.world.queue.next_serial < 2 ^ 40 }
        ensures world { OnOk result (
            self.new ≡ record self.old {
              world = queued due host (body_of covered input) self.old.world;
            }) }
        ensures serial { IfOk result (λ serial. serial ≡ self.old.world.queue.next_serial) }
        ensures leads { OnOk result (
            (t : Changes N N.Msg N.Undo) → Extends N.records t self.old.world
            (added t (small.Queued ∷ [])) self.new.world) }
    {
        let occurrence = Occurrence {
            host,
            covered,
            input,
        };
        self.queue.insert(due, occurrence)
    }

    // Queues an occurrence for a host. A sync covers `covered` writes.
    #[inline(always)]
    pub(crate) fn queue_up(
        &mut self,
        trail: &mut Trail<N>,
        due: u64,
        host: u16,
        covered: u32,
        input: Input<N::Msg>,
    ) -> Result<(), NoMemory>
        requires room { self.old.world.queue.next_serial < 2 ^ 40 }
        ensures world { OnOk result (
            self.new ≡ record self.old {
              world = queued due host (body_of covered input) self.old.world;
            }) }
        ensures trail { OnOk result (
            Extends N.records trail.old self.old.world trail.new self.new.world) }
    {
        self.enqueue(due, host, covered, input)?;
        trail.push_queued()
    }

    // Queues a message, which is then in flight.
    pub(crate) fn post(
        &mut self,
        index: &mut Index,
        trail: &mut Trail<N>,
        due: u64,
        letter: &Letter<'_, N::Msg>,
    ) -> Result<(), NoMemory>
        requires room { self.old.world.queue.next_serial < 2 ^ 40 }
        requires index { IsIndex index.old self.old.world }
        requires few { IsFalse (is_full self.old.world) }
        ensures world { OnOk result (
            self.new ≡ record self.old {
              world = queued due letter.now.to
                  (Body.Message letter.now.from letter.now.msg.now) self.old.world;
            }) }
        ensures index { OnOk result (IsIndex index.new self.new.world) }
        ensures trail { OnOk result (
            Extends N.records trail.old self.old.world trail.new self.new.world) }
    {
        let Letter { from, to, msg } = *letter;
        let msg = N::copy_msg(self.alloc(), msg)?;
        let input = Input::Message { sender: from, msg };
        index.in_flight += 1;
        self.queue_up(trail, due, to, 0, input)
    }

    // Queues a message, for which two words were drawn, and which is then in flight.
    pub(crate) fn post_drawn(
        &mut self,
        index: &mut Index,
        trail: &mut Trail<N>,
        due: u64,
        letter: &Letter<'_, N::Msg>,
    ) -> Result<(), NoMemory>
        requires room { self.old.world.queue.next_serial < 2 ^ 40 }
        requires index { IsIndex index.old self.old.world }
        requires few { IsFalse (is_full self.old.world) }
        ensures world { OnOk result (
            self.new ≡ record self.old {
              world = queued due letter.now.to
                  (Body.Message letter.now.from letter.now.msg.now) self.old.world;
            }) }
        ensures index { OnOk result (IsIndex index.new self.new.world) }
        ensures items { OnOk result (
            trail.new ≡ added trail.old (small.Drew 0 2 ∷ small.Queued ∷ [])) }
        ensures leads { OnOk result (
            (t : Changes N N.Msg N.Undo) → Extends N.records t self.old.world
            (added t (small.Queued ∷ [])) self.new.world) }
    {
        let Letter { from, to, msg } = *letter;
        let msg = N::copy_msg(self.alloc(), msg)?;
        let input = Input::Message { sender: from, msg };
        self.enqueue(due, to, 0, input)?;
        index.in_flight += 1;
        trail.push_sent()
    }

    // Queues the timer of a host that has none.
    fn queue_timer(
        &mut self,
        index: &mut Index,
        trail: &mut Trail<N>,
        h: u16,
        delay: u32,
    ) -> Result<(), NoMemory>
        requires clock { self.old.world.clock < 2 ^ 40 }
        requires room { self.old.world.queue.next_serial < 2 ^ 40 }
        requires host { h < length self.old.world.hosts }
        requires index { IsIndex index.old self.old.world }
        requires none { slice_index_or index.old.timers.items h None ≡ None }
        ensures world { OnOk result (
            self.new ≡ on_world (queued_after delay h Body.Timer) self.old) }
        ensures index { OnOk result (IsIndex index.new self.new.world) }
        ensures trail { OnOk result (
            Extends N.records trail.old self.old.world trail.new self.new.world) }
    {
        let due = self.clock + u64::from(delay);
        index.timers[h as usize] = Some(self.queue.next_serial());
        self.queue_up(trail, due, h, 0, Input::Timer)
    }

    // Takes out the timer of a host, which has this serial.
    fn drop_timer(
        &mut self,
        index: &mut Index,
        trail: &mut Trail<N>,
        h: u16,
        serial: u64,
    ) -> Result<(), NoMemory>
        requires host { h < length self.old.world.hosts }
        requires queue { IsQueue self.old.world.queue }
        requires index { IsIndex index.old self.old.world }
        requires some { slice_index_or index.old.timers.items h None ≡ Some serial }
        ensures world { OnOk result (
            self.new ≡ record self.old { world = without (is_timer_of h) self.old.world }) }
        ensures index { OnOk result (IsIndex index.new self.new.world) }
        ensures none { OnOk result (slice_index_or index.new.timers.items h None ≡ None) }
        ensures trail { OnOk result (
            Extends N.records trail.old self.old.world trail.new self.new.world) }
    {
        match self.queue.take(serial) {
            Some(item) => {
                index.timers[h as usize] = None;
                trail.push_took_timer(h, item.due, item.serial)
            }
            None => unreachable!(),
        }
    }

    // Takes out the pending timer of a host, if there is one.
    pub(crate) fn take_timer(
        &mut self,
        index: &mut Index,
        trail: &mut Trail<N>,
        h: u16,
    ) -> Result<(), NoMemory>
        requires host { h < length self.old.world.hosts }
        requires queue { IsQueue self.old.world.queue }
        requires index { IsIndex index.old self.old.world }
        ensures world { OnOk result (
            self.new ≡ record self.old { world = without (is_timer_of h) self.old.world }) }
        ensures index { OnOk result (IsIndex index.new self.new.world) }
        ensures none { OnOk result (slice_index_or index.new.timers.items h None ≡ None) }
        ensures unset { slice_index_or index.old.timers.items h None ≡ None → IsOk result }
        ensures trail { OnOk result (
            Extends N.records trail.old self.old.world trail.new self.new.world) }
    {
        match index.timers[h as usize] {
            Some(serial) => self.drop_timer(index, trail, h, serial),
            None => Ok(()),
        }
    }

    // Sets the timer of a host, which replaces the pending one.
    #[inline(never)]
    pub(crate) fn set_timer(
        &mut self,
        index: &mut Index,
        trail: &mut Trail<N>,
        h: u16,
        delay: u32,
    ) -> Result<(), NoMemory>
        requires clock { self.old.world.clock < 2 ^ 40 }
        requires room { self.old.world.queue.next_serial < 2 ^ 40 }
        requires host { h < length self.old.world.hosts }
        requires queue { IsQueue self.old.world.queue }
        requires index { IsIndex index.old self.old.world }
        ensures world { OnOk result (
            self.new ≡ record self.old { world = timed h delay self.old.world }) }
        ensures index { OnOk result (IsIndex index.new self.new.world) }
        ensures trail { OnOk result (
            Extends N.records trail.old self.old.world trail.new self.new.world) }
    {
        self.take_timer(index, trail, h)?;
        self.queue_timer(index, trail, h, delay)
    }

    // Queues the sync of a host, which covers `count` writes.
    fn queue_sync(
        &mut self,
        sc: &Scenario,
        index: &mut Index,
        trail: &mut Trail<N>,
        h: u16,
        count: u32,
    ) -> Result<(), NoMemory>
        requires clock { self.old.world.clock < 2 ^ 40 }
        requires room { self.old.world.queue.next_serial < 2 ^ 40 }
        requires host { h < length self.old.world.hosts }
        requires queue { IsQueue self.old.world.queue }
        requires index { IsIndex index.old self.old.world }
        ensures world { OnOk result (
            self.new ≡ on_world (queued_after sc.now.disk_latency h (Body.Sync count)) self.old) }
        ensures index { OnOk result (IsIndex index.new self.new.world) }
        ensures trail { OnOk result (
            Extends N.records trail.old self.old.world trail.new self.new.world) }
    {
        let due = self.clock + u64::from(sc.disk_latency());
        index.others[h as usize] += 1;
        self.queue_up(trail, due, h, count, Input::Synced)
    }

    // Draws the two words of a message over an open link. A trail that led back still does, with
    // this change added at its end.
    pub(crate) fn draw_crossing(&mut self, way: Way) -> Crossing
        requires places { length self.old.world.places ≡ 34 }
        requires room { place network self.old.world + 2 ≤ 2 ^ 40 }
        requires way { IsWay way }
        ensures world { self.new ≡ record self.old { world = drawn 2 network self.old.world } }
        ensures latency { result.latency ≡ latency way
            (word self.old.seed network (place network self.old.world)) }
        ensures lost { result.is_lost ≡ is_lost way
            (word self.old.seed network (place network self.old.world + 1)) }
        ensures bound { result.latency ≤ 60000 }
        ensures leads { (t : Changes N N.Msg N.Undo)
            → Extends N.records t self.old.world (added t (small.Drew 0 2 ∷ [])) self.new.world }
    {
        draw_crossing(&mut self.streams, way)
    }

    // Holds a message back in a direction.
    #[inline(never)]
    pub(crate) fn keep_back(
        &mut self,
        index: &mut Index,
        trail: &mut Trail<N>,
        letter: &Letter<'_, N::Msg>,
    ) -> Result<(), NoMemory>
        requires from { letter.now.from < 32 }
        requires to { letter.now.to < 32 }
        requires links { length self.old.world.links ≡ 1024 }
        requires held { (link letter.now.from letter.now.to self.old.world.links).state
            ≡ state.Held }
        requires index { IsIndex index.old self.old.world }
        requires few { IsFalse (is_full self.old.world) }
        ensures world { OnOk result (
            self.new ≡ record self.old {
              world = held_back letter.now.from letter.now.to letter.now.msg.now self.old.world;
            }) }
        ensures index { OnOk result (IsIndex index.new self.new.world) }
        ensures trail { OnOk result (
            Extends N.records trail.old self.old.world trail.new self.new.world) }
    {
        let Letter { from, to, msg } = *letter;
        let msg = N::copy_msg(self.alloc(), msg)?;
        self.links.keep(from, to, msg)?;
        index.held += 1;
        trail.push(Compact::KeptBack(from, to))
    }

    // Marks a host as done.
    pub(crate) fn finish(&mut self, trail: &mut Trail<N>, h: u16) -> Result<(), NoMemory>
        requires { h < length self.old.world.hosts }
        ensures world { OnOk result (
            self.new ≡ record self.old {
              world = with_host h
                  (record (host_at h self.old.world) { done = true }) self.old.world;
            }) }
        ensures again { IsTrue (host_at h self.old.world).done → IsOk result }
        ensures trail { OnOk result (
            Extends N.records trail.old self.old.world trail.new self.new.world) }
    {
        let host = &mut self.hosts[h as usize];
        if host.done {
            return Ok(());
        }
        host.done = true;
        trail.push(Compact::Finished(h))
    }

    // Writes to the disk of a host; a write past its end is skipped.
    #[inline(never)]
    pub(crate) fn write(
        &mut self,
        trail: &mut Trail<N>,
        h: u16,
        offset: u32,
        bytes: &[u8],
    ) -> Result<(), NoMemory>
        requires host { h < length self.old.world.hosts }
        requires some { 0 < length bytes.now }
        requires small { length bytes.now ≤ 64 }
        requires room { length (host_at h self.old.world).disk.writes < 2 ^ 24 }
        ensures world { OnOk result (
            self.new ≡ record self.old { world = wrote h offset bytes.now self.old.world }) }
        ensures skipped { 4096 < offset + length bytes.now → IsOk result }
        ensures trail { OnOk result (
            Extends N.records trail.old self.old.world trail.new self.new.world) }
    {
        let host = &mut self.hosts[h as usize];
        let undo = match host.disk.write(offset, bytes) {
            Ok(undo) => undo,
            Err(WriteFault::OutOfDisk) => return Ok(()),
            Err(WriteFault::NoMemory) => return Err(NoMemory),
        };
        trail.push_stored(h, undo)
    }

    // Starts a sync on the disk of a host. Returns the number of writes that no earlier sync
    // covers.
    fn ask(&mut self, trail: &mut Trail<N>, h: u16) -> Result<u32, NoMemory>
        requires { h < length self.old.world.hosts }
        ensures count { IfOk result (λ n. n ≡ disk.not_asked (host_at h self.old.world).disk) }
        ensures world { OnOk result (
            self.new ≡ record self.old {
              world = with_disk h (disk.all_asked (host_at h self.old.world).disk) self.old.world;
            }) }
        ensures trail { OnOk result (
            Extends N.records trail.old self.old.world trail.new self.new.world) }
    {
        let host = &mut self.hosts[h as usize];
        let (count, undo) = host.disk.ask();
        trail.push_stored(h, undo)?;
        Ok(count)
    }

    // Starts a sync of a host's disk, and queues its coming.
    #[inline(never)]
    pub(crate) fn ask_sync(
        &mut self,
        sc: &Scenario,
        index: &mut Index,
        trail: &mut Trail<N>,
        h: u16,
    ) -> Result<(), NoMemory>
        requires host { h < length self.old.world.hosts }
        requires clock { self.old.world.clock < 2 ^ 40 }
        requires room { self.old.world.queue.next_serial < 2 ^ 40 }
        requires queue { IsQueue self.old.world.queue }
        requires index { IsIndex index.old self.old.world }
        ensures world { OnOk result (
            self.new ≡ record self.old {
              world = asked (rules N.laws N.PROBES sc.now) h self.old.world;
            }) }
        ensures index { OnOk result (IsIndex index.new self.new.world) }
        ensures trail { OnOk result (
            Extends N.records trail.old self.old.world trail.new self.new.world) }
    {
        let count = self.ask(trail, h)?;
        self.queue_sync(sc, index, trail, h, count)
    }
}
