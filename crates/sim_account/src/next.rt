//! The account of the next step.
ghost use Rattle.std.specs.Prelude.{◌≡◌, ℕ, ◌<◌, IfOk, OnOk, IsSome, Some, if◌then◌else◌};
ghost use Rattle.sim_streams.specs.Word.{stream_of};
ghost use Rattle.sim_queue.specs.Items.{item_of};
ghost use Rattle.sim_queue.specs.Pending.{first};
ghost use Rattle.sim_node.specs.Node.{IsFrom};
ghost use Rattle.sim_node.specs.Work.{copied, turned};
ghost use Rattle.sim_events.specs.declared.Event.TheVariants as event;
ghost use Rattle.sim_pending.specs.Occurrence.{is_message};
ghost use Rattle.sim_world.specs.Acts.{acts};
ghost use Rattle.sim_world.specs.Events.{rules, next, next_word};
ghost use Rattle.sim_account.specs.Account.{after_told, next_reaction, told_if};
ghost use Rattle.sim_account.specs.inside.Ledger.{ledger_of};

use crate::NoMemory;
use crate::fates::told;
use crate::ledger::Ledger;
use crate::reaction::Reaction;
use sim_node::{Effects, Input, Node, Setup};
use sim_world::{Occurrence, World};
use std::alloc::Global;

// What a node reacts to: the time (ms), the input, and the word drawn.
#[derive(Drop)]
struct Cue<'a, M> {
    clock: u64,
    input: &'a Input<M>,
    word: u32,
}

// Returns a copy of a node after a reaction, with the effects that it asks for.
fn reacted_copy<N: Node>(
    alloc: Global,
    setup: &Setup,
    node: &N,
    cue: &Cue<'_, N::Msg>,
    meter: &mut N::Meter,
) -> Result<(N, Effects<N::Msg>), NoMemory>
    requires setup { N.told node.now ≡ setup.now.hosts }
    requires sender { IsFrom setup.now.hosts cue.now.input.now }
    ensures state { IfOk result (λ r.
        r.0 ≡ (N.laws.react node.now cue.now.clock cue.now.input.now cue.now.word).0) }
    ensures effects { IfOk result (λ r. r.1 ≡ record {
      hosts = setup.now.hosts;
      list = (N.laws.react node.now cue.now.clock cue.now.input.now cue.now.word).1;
    }) }
    ensures work { OnOk result (N.Meter.work meter.new ≡ turned (copied (N.Meter.work meter.old))) }
{
    let mut effects = Effects::new(alloc, setup)?;
    let mut copy = node.copy(alloc, meter)?;
    let _undo = copy.act(alloc, cue.clock, cue.input, cue.word, &mut effects, meter)?;
    Ok((copy, effects))
}

// Returns the next word of the stream of a host.
fn own_word<N: Node>(world: &World<N>, host: u16) -> u32
    requires { host < 32 }
    ensures { result ≡ next_word (rules N.laws N.PROBES world.now.scenario) (stream_of host)
        world.now.world }
{
    world.peek(2 + host, 0)
}

// Returns the number of messages that a pending occurrence is: 1 or 0.
fn message_count<M>(occurrence: &Occurrence<M>) -> u32
    ensures { (due serial : ℕ) → result
        ≡ (if is_message (item_of serial (due, occurrence.now)) then 1 else 0) }
{
    match occurrence.input() {
        Input::Message { .. } => 1,
        Input::Start | Input::Timer | Input::Synced => 0,
    }
}

// Returns the ledger at the start of the reaction to the first occurrence.
fn first_ledger<N: Node>(
    world: &World<N>,
    due: u64,
    _serial: u64,
    occurrence: &Occurrence<N::Msg>,
) -> Ledger
    requires { first world.now.world.queue.items ≡ Some (item_of _serial (due, occurrence.now)) }
    ensures { result ≡ ledger_of (item_of _serial (due, occurrence.now)) world.now.world }
{
    world.laws();
    Ledger {
        clock: due,
        words: 0,
        serial: world.next_serial(),
        messages: world.messages() - message_count(occurrence),
        unasked: world.disk(occurrence.host()).not_asked(),
    }
}

// Returns the account of the next step, if its host runs.
fn first_reaction<N: Node>(
    alloc: Global,
    world: &World<N>,
    meter: &mut N::Meter,
) -> Result<Option<Reaction<N>>, NoMemory>
    ensures told { IfOk result (λ t.
        t ≡ next_reaction (rules N.laws N.PROBES world.now.scenario) world.now.world) }
    ensures work { OnOk result (N.Meter.work meter.new
        ≡ told_if (acts world.now.world event.Step) (N.Meter.work meter.old)) }
{
    world.laws();
    let Some((due, serial, occurrence)) = world.first() else {
        return Ok(None);
    };
    let host = occurrence.host();
    let Some(node) = world.node(host) else {
        return Ok(None);
    };
    let cue = Cue {
        clock: due,
        input: occurrence.input(),
        word: own_word(world, host),
    };
    let setup = world.scenario().setup();
    let (node, mut effects) = reacted_copy(alloc, &setup, node, &cue, meter)?;
    let ledger = first_ledger(world, due, serial, occurrence);
    world.disk(host).laws();
    Ok(Some(Reaction {
        word: cue.word,
        node,
        effects: told(alloc, world, ledger, host, &mut effects)?,
    }))
}

/// Returns the account of the next step, or `None` if nothing is pending or the host of the first
/// occurrence is stopped. The world is only read. The word, the state after the reaction and the
/// fate of each effect are those of the step: they alone determine the world after it. The age must
/// be below 65,536, as for a step. Counts one copy of a node and one turn if there is a reaction.
/// Fails only for want of memory.
pub fn next_reaction<N: Node>(
    alloc: Global,
    world: &World<N>,
    meter: &mut N::Meter,
) -> Result<Option<Reaction<N>>, NoMemory>
    requires { world.now.age < 65536 }
    ensures told { IfOk result (λ t.
        t ≡ next_reaction (rules N.laws N.PROBES world.now.scenario) world.now.world) }
    ensures leads { IfOk result (λ t. IsSome (first world.now.world.queue.items)
        → next (rules N.laws N.PROBES world.now.scenario) world.now.world event.Step
        ≡ Some (after_told t world.now.world)) }
    ensures work { OnOk result (N.Meter.work meter.new
        ≡ told_if (acts world.now.world event.Step) (N.Meter.work meter.old)) }
{
    first_reaction(alloc, world, meter)
}
