//! The fates of the effects of a reaction, in order, without carrying the effects out.
ghost use Rattle.std.specs.Prelude.{◌≡◌, ℕ, ◌+◌, ◌<◌, ◌≤◌, length, IfOk};
ghost use Rattle.sim_node.specs.Seen.{seen, IsStored};
ghost use Rattle.sim_world.specs.World.{World as WorldValue};
ghost use Rattle.sim_world.specs.Events.{rules, effect as carried, sent_open, sent};
ghost use Rattle.sim_account.specs.Account.{all_told, fate_of, open_fate, sent_fate};
ghost use Rattle.sim_account.specs.inside.Ledger.{Follows, HasRoomFor};

use crate::NoMemory;
use crate::fate::{Fate, ToldEffect};
use crate::ledger::Ledger;
use sim_links::LinkState;
use sim_node::{Effect, Effects, MAX_LOSS, MAX_MESSAGES, Node};
use sim_pending::latency;
use sim_world::World;
use std::alloc::Global;

// Returns the fate of a message over an open link.
fn open_fate<N: Node>(world: &World<N>, ledger: &mut Ledger, from: u16, to: u16) -> Fate
    requires from { from < 32 }
    requires to { to < 32 }
    requires room { HasRoomFor 1 ledger.old }
    requires few { ledger.old.messages < 4096 }
    ensures told { (w : WorldValue N N.Msg) (m : N.Msg)
        → Follows ledger.old from world.now.world w →
        (result ≡ open_fate (rules N.laws N.PROBES world.now.scenario) from to w)
        × Follows ledger.new from world.now.world
        (sent_open (rules N.laws N.PROBES world.now.scenario) from to m w) }
    ensures room { (left : ℕ) → HasRoomFor (left + 1) ledger.old → HasRoomFor left ledger.new }
{
    let way = world.scenario().way(from, to);
    let late = world.peek(0, ledger.words);
    let fate = world.peek(0, ledger.words + 1);
    ledger.words += 2;
    if fate % MAX_LOSS < way.loss {
        return Fate::Lost;
    }
    ledger.in_flight(latency(way, late))
}

// Returns the fate of a message.
fn sent_fate<N: Node>(world: &World<N>, ledger: &mut Ledger, from: u16, to: u16) -> Fate
    requires from { from < 32 }
    requires to { to < 32 }
    requires room { HasRoomFor 1 ledger.old }
    ensures told { (w : WorldValue N N.Msg) (m : N.Msg)
        → Follows ledger.old from world.now.world w →
        (result ≡ sent_fate (rules N.laws N.PROBES world.now.scenario) from to w)
        × Follows ledger.new from world.now.world
        (sent (rules N.laws N.PROBES world.now.scenario) from to m w) }
    ensures room { (left : ℕ) → HasRoomFor (left + 1) ledger.old → HasRoomFor left ledger.new }
{
    if MAX_MESSAGES <= ledger.messages {
        return Fate::Full;
    }
    if from == to {
        return ledger.in_flight(0);
    }
    match world.link(from, to) {
        LinkState::Through => open_fate(world, ledger, from, to),
        LinkState::Held => {
            ledger.messages += 1;
            Fate::Held
        }
        LinkState::Cut => Fate::Cut,
    }
}

// Returns the fate of an effect of a host.
fn fate<N: Node>(world: &World<N>, ledger: &mut Ledger, host: u16, effect: &Effect<N::Msg>) -> Fate
    requires host { host < length world.now.world.hosts }
    requires few { length world.now.world.hosts ≤ 32 }
    requires room { HasRoomFor 1 ledger.old }
    requires stored { IsStored (length world.now.world.hosts) effect.now }
    ensures told { (w : WorldValue N N.Msg) → Follows ledger.old host world.now.world w →
        (result ≡ fate_of (rules N.laws N.PROBES world.now.scenario) host (seen effect.now) w)
        × Follows ledger.new host world.now.world
        (carried (rules N.laws N.PROBES world.now.scenario) host (seen effect.now) w) }
    ensures room { (left : ℕ) → HasRoomFor (left + 1) ledger.old → HasRoomFor left ledger.new }
{
    match effect {
        Effect::Send { to, msg: _ } => sent_fate(world, ledger, host, *to),
        Effect::Timer(delay) => ledger.pending(u64::from(*delay)),
        Effect::Write {
            offset,
            len,
            bytes: _,
        } => ledger.write(*offset, *len),
        Effect::Sync => ledger.sync(world.scenario().disk_latency()),
        Effect::Done => Fate::Done,
    }
}

// Returns the effects of a host, each with its fate.
pub(crate) fn told<N: Node>(
    alloc: Global,
    world: &World<N>,
    ledger: Ledger,
    host: u16,
    effects: &mut Effects<N::Msg>,
) -> Result<Vec<ToldEffect<N::Msg>>, NoMemory>
    requires host { host < length world.now.world.hosts }
    requires few { length world.now.world.hosts ≤ 32 }
    requires room { HasRoomFor 40 ledger }
    requires hosts { effects.old.hosts ≡ length world.now.world.hosts }
    ensures { IfOk result (λ told.
        (w : WorldValue N N.Msg) → Follows ledger host world.now.world w →
        told.items ≡ all_told (rules N.laws N.PROBES world.now.scenario) host effects.old.list w) }
{
    let mut ledger = ledger;
    let mut told = Vec::with_capacity(alloc, effects.len())?;
    while let Some(effect) = effects.take_first() {
        let fate = fate(world, &mut ledger, host, &effect);
        told.push(ToldEffect { effect, fate })?;
    }
    Ok(told)
}
