//! The effects of a reaction in order.
ghost use Rattle.std.specs.Prelude.{◌≡◌};

use sim_node::{Effect, Effects, Setup};
use std::test::Fail;

// An effect to ask for.
#[derive(Clone, Copy)]
enum Asked {
    Send(u16, u32),
    Timer(u32),
    Write(u32, &'static [u8]),
    Sync,
    Done,
}

#[derive(Clone, Copy)]
enum Act {
    Ask(Asked),
    Take(Asked),
    // There is no effect left.
    TakeNone,
    // The number of effects.
    Count(usize),
}

/// Two servers and two clients, each client with three operations.
const FOUR_HOSTS: Setup = Setup {
    servers: 2,
    hosts: 4,
    ops: [3; 32],
};

// Asks for an effect, and returns whether there was room.
fn ask(effects: &mut Effects<u32>, asked: Asked) -> bool
    requires { effects.old.hosts ≡ 4 }
    ensures { effects.new.hosts ≡ 4 }
{
    if effects.len() >= 40 {
        return false;
    }
    match asked {
        Asked::Send(to, msg) if to < 4 => effects.send(to, msg),
        Asked::Timer(delay) if 0 < delay && delay <= 60_000 => effects.timer(delay),
        Asked::Write(offset, bytes) if !bytes.is_empty() && bytes.len() <= 64 => {
            effects.write(offset, bytes)
        }
        Asked::Sync => effects.sync(),
        Asked::Done => effects.done(),
        _ => return false,
    }
    true
}

// Returns whether the effect is this one.
fn is(effect: &Effect<u32>, asked: Asked) -> bool {
    match (effect, asked) {
        (Effect::Send { to, msg }, Asked::Send(host, sent)) => *to == host && *msg == sent,
        (Effect::Timer(delay), Asked::Timer(wanted)) => *delay == wanted,
        (Effect::Write { offset, len, bytes }, Asked::Write(place, written)) => {
            *offset == place && *len as usize == written.len() && bytes.starts_with(written)
        }
        (Effect::Sync, Asked::Sync) | (Effect::Done, Asked::Done) => true,
        _ => false,
    }
}

// Carries out an act, and returns whether the answer is the expected one.
fn goes(effects: &mut Effects<u32>, act: Act) -> bool
    requires { effects.old.hosts ≡ 4 }
    ensures { effects.new.hosts ≡ 4 }
{
    match act {
        Act::Ask(asked) => ask(effects, asked),
        Act::Take(asked) => match effects.take_first() {
            Some(effect) => is(&effect, asked),
            None => false,
        },
        Act::TakeNone => effects.take_first().is_none(),
        Act::Count(count) => effects.len() == count,
    }
}

// Returns whether all acts have the expected answers.
fn all_go(effects: &mut Effects<u32>, acts: &[Act]) -> bool
    requires { effects.old.hosts ≡ 4 }
    ensures { effects.new.hosts ≡ 4 }
{
    let mut well = true;
    for act in acts {
        well &= goes(effects, *act);
    }
    well
}

// Effects come in order, and their room is used again; there is room for forty.
const PLAYS: [&[Act]; 4] = [
    &[
        Act::Ask(Asked::Send(3, 7)),
        Act::Ask(Asked::Timer(200)),
        Act::Ask(Asked::Write(16, &[5, 6])),
        Act::Ask(Asked::Sync),
        Act::Ask(Asked::Done),
        Act::Count(5),
        Act::Take(Asked::Send(3, 7)),
        Act::Take(Asked::Timer(200)),
        Act::Take(Asked::Write(16, &[5, 6])),
        Act::Take(Asked::Sync),
        Act::Take(Asked::Done),
        Act::TakeNone,
        Act::Ask(Asked::Send(0, 8)),
        Act::Take(Asked::Send(0, 8)),
        Act::Count(0),
    ],
    &[Act::Ask(Asked::Sync); 40],
    &[Act::Count(40)],
    &[Act::Take(Asked::Sync); 40],
];

#[test]
fn effects_go_by_their_rows(rt: HostRuntime) -> Result<(), Fail> {
    let mut effects = Effects::new(rt.alloc(), &FOUR_HOSTS)?;
    let mut well = true;
    for acts in &PLAYS {
        well &= all_go(&mut effects, *acts);
    }
    assert!(rt; well && goes(&mut effects, Act::TakeNone));
    Ok(())
}
