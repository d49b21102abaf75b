//! The rows of a client of two-phase commit, which asks for transactions one by one.
ghost use Rattle.std.specs.Prelude.{◌≡◌, ◌<◌, []};
ghost use Rattle.sim_hosts.specs.Reactions.{asked_for};
ghost use Rattle.sim_two_phase.specs.TwoPhase.{client_asks, client_answered, react_client};

use crate::CommitMsg;
use sim_node::{Effects, HostSetup, Input};

/// How long a client waits for an answer before it asks again (ms).
const PATIENCE: u32 = 200;

/// Asks for a transaction for operation number `next`, and returns that number.
fn ask(setup: &HostSetup, next: u64, effects: &mut Effects<CommitMsg>) -> u64
    requires hosts { 0 < setup.now.hosts }
    requires empty { effects.old ≡ asked_for setup.now [] }
    ensures next { result ≡ (client_asks next).0 }
    ensures effects { effects.new ≡ asked_for setup.now (client_asks next).1 }
{
    effects.send(0, CommitMsg::Begin(next));
    effects.timer(PATIENCE);
    next
}

/// Handles the answer to an operation. Returns the number of the operation that the client then
/// waits for.
fn answered(setup: &HostSetup, ops: u64, next: u64, effects: &mut Effects<CommitMsg>) -> u64
    requires hosts { 0 < setup.now.hosts }
    requires empty { effects.old ≡ asked_for setup.now [] }
    ensures next { result ≡ (client_answered ops next).0 }
    ensures effects { effects.new ≡ asked_for setup.now (client_answered ops next).1 }
{
    let following = next.saturating_add(1);
    if next == ops {
        effects.done();
        following
    } else {
        ask(setup, following, effects)
    }
}

/// Reacts as a client with `ops` operations that waits for operation number `next`. Returns the
/// number of the operation that it then waits for.
pub fn react(
    setup: &HostSetup,
    ops: u64,
    next: u64,
    input: &Input<CommitMsg>,
    effects: &mut Effects<CommitMsg>,
) -> u64
    requires hosts { 0 < setup.now.hosts }
    requires empty { effects.old ≡ asked_for setup.now [] }
    ensures next { result ≡ (react_client ops next input.now).0 }
    ensures effects { effects.new ≡ asked_for setup.now (react_client ops next input.now).1 }
{
    match input {
        Input::Start => ask(setup, 1, effects),
        Input::Timer if 1 <= next && next <= ops => ask(setup, next, effects),
        Input::Message {
            msg: CommitMsg::Answer(_, i),
            ..
        } if *i == next => { answered(setup, ops, next, effects) }
        _ => next,
    }
}
