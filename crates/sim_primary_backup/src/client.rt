//! The rows of a client of primary-backup, which puts its values one by one.
ghost use Rattle.std.specs.Prelude.{◌≡◌, ◌<◌, []};
ghost use Rattle.sim_hosts.specs.Reactions.{asked_for};
ghost use Rattle.sim_primary_backup.specs.PrimaryBackup.{client_puts, client_answered};
ghost use Rattle.sim_primary_backup.specs.PrimaryBackup.{react_client};

use crate::BackupMsg;
use sim_node::{Effects, HostSetup, Input};

/// How long a client waits for the end of its put before it sends it again (ms).
const PATIENCE: u32 = 200;

/// Sends the client's put number `next`, and returns that number.
fn put(setup: &HostSetup, me: u16, next: u64, effects: &mut Effects<BackupMsg>) -> u64
    requires hosts { 0 < setup.now.hosts }
    requires empty { effects.old ≡ asked_for setup.now [] }
    ensures next { result ≡ (client_puts me next).0 }
    ensures effects { effects.new ≡ asked_for setup.now (client_puts me next).1 }
{
    let val = (me as u64).saturating_mul(1000).saturating_add(next);
    effects.send(0, BackupMsg::Put(next, val));
    effects.timer(PATIENCE);
    next
}

/// Handles the end of a put. Returns the number of the put that the client then waits for.
fn answered(
    setup: &HostSetup,
    me: u16,
    ops: u64,
    next: u64,
    effects: &mut Effects<BackupMsg>,
) -> u64
    requires hosts { 0 < setup.now.hosts }
    requires empty { effects.old ≡ asked_for setup.now [] }
    ensures next { result ≡ (client_answered me ops next).0 }
    ensures effects { effects.new ≡ asked_for setup.now (client_answered me ops next).1 }
{
    let following = next.saturating_add(1);
    if next == ops {
        effects.done();
        following
    } else {
        put(setup, me, following, effects)
    }
}

/// Reacts as a client with `ops` operations that waits for its put number `next`. Returns the
/// number of the put that it then waits for.
pub fn react(
    setup: &HostSetup,
    me: u16,
    ops: u64,
    next: u64,
    input: &Input<BackupMsg>,
    effects: &mut Effects<BackupMsg>,
) -> u64
    requires hosts { 0 < setup.now.hosts }
    requires empty { effects.old ≡ asked_for setup.now [] }
    ensures next { result ≡ (react_client me ops next input.now).0 }
    ensures effects { effects.new ≡ asked_for setup.now (react_client me ops next input.now).1 }
{
    match input {
        Input::Start => put(setup, me, 1, effects),
        Input::Timer if 1 <= next && next <= ops => put(setup, me, next, effects),
        Input::Message {
            msg: BackupMsg::Fin(i),
            ..
        } if *i == next => { answered(setup, me, ops, next, effects) }
        _ => next,
    }
}
