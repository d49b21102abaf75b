//! Plays: events of small runs, and checks of the world after them.
use super::{STEP, Scribe, Tally, scribes};
use sim_echo::Echo;
use sim_links::{LinkState, Way};
use sim_node::Setup;
use sim_world::{Event, Fault, Kind, Refusal};
use std::alloc::Global;
use std::test::Fail;
use test_support::{Act, Setting, TWO_ECHOES, plays};

const IDLE: Act = Act::Refused(Event::Step, Refusal::Idle);

// The greatest latency (the least is 10 ms), the loss, and the acts of two hosts of echo.
type EchoPlay = (u32, u32, &'static [Act]);

const ECHO_PLAYS: [EchoPlay; 16] = [
    // A first run goes to its end. A client that is done stays done when it is stopped.
    (
        10,
        0,
        &[
            STEP,
            Act::Clock(0),
            STEP,
            Act::Clock(0),
            STEP,
            Act::Clock(10),
            STEP,
            Act::Clock(20),
            STEP,
            Act::Clock(30),
            STEP,
            IDLE,
            Act::Summary(40, 6, 8, 0, 0, 0),
            Act::Fault(Fault::Crash(1)),
            Act::DoneHost(1, false, 3, 0, 0),
            Act::Probe(1, 0, None),
            Act::Probe(0, 1, Some(2)),
        ],
    ),
    // Latencies are drawn.
    (
        19,
        0,
        &[
            Act::Steps(2),
            Act::Next(14, 2, 0, Kind::Message),
            STEP,
            Act::Clock(14),
            Act::Next(26, 3, 1, Kind::Message),
        ],
    ),
    // Messages are lost.
    (
        19,
        500,
        &[Act::Steps(3), IDLE, Act::Summary(14, 3, 4, 0, 0, 0)],
    ),
    // The first two words of the network's stream are 654 and 656 modulo 1000: the second decides
    // a loss.
    (19, 656, &[Act::Steps(2), Act::Summary(0, 3, 2, 0, 1, 0)]),
    (19, 657, &[Act::Steps(2), Act::Summary(0, 2, 2, 0, 0, 0)]),
    // A cut goes one way.
    (
        10,
        0,
        &[
            Act::Fault(Fault::CutOneway(1, 0)),
            Act::Steps(2),
            IDLE,
            Act::Link(1, 0, LinkState::Cut, 0),
            Act::Link(0, 1, LinkState::Through, 0),
            Act::Summary(0, 2, 0, 0, 0, 0),
            Act::Fault(Fault::RepairOneway(1, 0)),
            Act::Link(1, 0, LinkState::Through, 0),
        ],
    ),
    // A cut of 0 and 1 goes both ways and drops what is held, and a repair opens both directions.
    (
        10,
        0,
        &[
            Act::Steps(2),
            Act::Fault(Fault::Hold(0, 1)),
            STEP,
            Act::Link(0, 1, LinkState::Held, 1),
            Act::Fault(Fault::Cut(0, 1)),
            IDLE,
            Act::Link(0, 1, LinkState::Cut, 0),
            Act::Link(1, 0, LinkState::Cut, 0),
            Act::Fault(Fault::Repair(1, 0)),
            Act::Link(0, 1, LinkState::Through, 0),
            Act::Link(1, 0, LinkState::Through, 0),
            Act::Summary(10, 3, 2, 0, 0, 0),
        ],
    ),
    // A release is undone.
    (
        10,
        0,
        &[
            Act::Fault(Fault::Hold(0, 1)),
            Act::Steps(2),
            Act::Link(1, 0, LinkState::Held, 1),
            Act::Summary(0, 2, 0, 0, 0, 1),
            Act::Fault(Fault::Release(0, 1)),
            Act::Next(0, 2, 0, Kind::Message),
            STEP,
            Act::Summary(0, 4, 2, 0, 1, 0),
        ],
    ),
    // A release of 0 and 1 starts with the direction from 0 to 1: with a held pong, before the held
    // ping of a client that starts again.
    (
        10,
        0,
        &[
            Act::Steps(2),
            Act::Fault(Fault::Hold(0, 1)),
            STEP,
            Act::Fault(Fault::Bounce(1)),
            STEP,
            Act::Clock(10),
            Act::Link(0, 1, LinkState::Held, 1),
            Act::Link(1, 0, LinkState::Held, 1),
            Act::Summary(10, 4, 2, 0, 0, 2),
            Act::Fault(Fault::Release(0, 1)),
            Act::Summary(10, 6, 2, 0, 2, 0),
            Act::Next(10, 4, 1, Kind::Message),
        ],
    ),
    (
        10,
        0,
        &[
            Act::Steps(2),
            Act::Fault(Fault::Hold(0, 1)),
            STEP,
            Act::Fault(Fault::Bounce(1)),
            STEP,
            Act::Clock(10),
            Act::Link(0, 1, LinkState::Held, 1),
            Act::Link(1, 0, LinkState::Held, 1),
            Act::Summary(10, 4, 2, 0, 0, 2),
            Act::Fault(Fault::Release(1, 0)),
            Act::Summary(10, 6, 2, 0, 2, 0),
            Act::Next(10, 4, 0, Kind::Message),
        ],
    ),
    // A host is stopped and started.
    (
        10,
        0,
        &[
            Act::Fault(Fault::Crash(0)),
            Act::Summary(0, 2, 0, 0, 1, 0),
            Act::Host(0, false, 0, 0, 0),
            Act::Fault(Fault::Crash(0)),
            Act::Summary(0, 2, 0, 0, 1, 0),
            Act::Host(0, false, 0, 0, 0),
            Act::Age(2),
            Act::Fault(Fault::Bounce(0)),
            Act::Summary(0, 3, 0, 0, 2, 0),
            Act::Host(0, true, 0, 0, 0),
        ],
    ),
    // A message to a stopped host is dropped.
    (
        10,
        0,
        &[
            Act::Fault(Fault::Crash(0)),
            Act::Steps(2),
            IDLE,
            Act::Summary(10, 3, 2, 0, 0, 0),
            Act::Host(0, false, 0, 0, 0),
            Act::Fault(Fault::Bounce(0)),
            Act::Next(10, 3, 0, Kind::Start),
            STEP,
            Act::Host(0, true, 1, 0, 0),
        ],
    ),
    // A running host starts again.
    (
        10,
        0,
        &[
            Act::Fault(Fault::Bounce(0)),
            Act::Summary(0, 3, 0, 0, 2, 0),
            Act::Next(0, 1, 1, Kind::Start),
            STEP,
            Act::Next(0, 2, 0, Kind::Start),
        ],
    ),
    // Faults that cannot happen are refused: a host that does not exist comes before one host
    // twice.
    (
        10,
        0,
        &[
            Act::Refused(Event::Fault(Fault::Crash(2)), Refusal::UnknownHost),
            Act::Refused(Event::Fault(Fault::Bounce(2)), Refusal::UnknownHost),
            Act::Refused(Event::Fault(Fault::Hold(0, 2)), Refusal::UnknownHost),
            Act::Refused(Event::Fault(Fault::Release(2, 2)), Refusal::UnknownHost),
            Act::Refused(Event::Fault(Fault::Cut(2, 1)), Refusal::UnknownHost),
            Act::Refused(Event::Fault(Fault::CutOneway(0, 2)), Refusal::UnknownHost),
            Act::Refused(Event::Fault(Fault::Repair(3, 0)), Refusal::UnknownHost),
            Act::Refused(
                Event::Fault(Fault::RepairOneway(2, 0)),
                Refusal::UnknownHost,
            ),
        ],
    ),
    (
        10,
        0,
        &[
            Act::Refused(Event::Fault(Fault::Hold(1, 1)), Refusal::SameHost),
            Act::Refused(Event::Fault(Fault::Release(0, 0)), Refusal::SameHost),
            Act::Refused(Event::Fault(Fault::Cut(1, 1)), Refusal::SameHost),
            Act::Refused(Event::Fault(Fault::CutOneway(0, 0)), Refusal::SameHost),
            Act::Refused(Event::Fault(Fault::Repair(1, 1)), Refusal::SameHost),
            Act::Refused(Event::Fault(Fault::RepairOneway(0, 0)), Refusal::SameHost),
        ],
    ),
    // The clock advances within bounds.
    (
        10,
        0,
        &[
            Act::Steps(3),
            Act::Refused(Event::Advance(9), Refusal::BadAdvance),
            Act::Allowed(Event::Advance(10)),
            Act::Allowed(Event::Advance(20)),
            Act::Refused(Event::Advance(21), Refusal::BadAdvance),
            Act::Steps(3),
            IDLE,
            Act::Refused(Event::Advance(60_041), Refusal::BadAdvance),
            Act::Advance(60_040),
            Act::Summary(60_040, 6, 8, 0, 0, 0),
        ],
    ),
];

// Checks that two hosts of echo go through the acts, and back.
fn echo_plays(alloc: Global, play: &EchoPlay) -> Result<(), Fail> {
    let (latency_max, loss, acts) = *play;
    let mut setting = TWO_ECHOES;
    setting.way.latency_max = latency_max;
    setting.way.loss = loss;
    plays::<Echo<Tally>>(alloc, &setting.scenario()?, acts, &mut Tally::new())
}

fn all_echo_plays(alloc: Global, rows: &[EchoPlay]) -> Result<(), Fail> {
    for play in rows {
        echo_plays(alloc, play)?;
    }
    Ok(())
}

#[test]
fn echoes_play(rt: HostRuntime) -> Result<(), Fail> {
    all_echo_plays(rt.alloc(), &ECHO_PLAYS)
}

// One server and 31 clients. A message takes up to a minute.
const LARGE: Setting = Setting {
    seed: [0; 32],
    way: Way {
        latency_min: 0,
        latency_max: 60_000,
        loss: 0,
    },
    disk_latency: 5,
    setup: Setup {
        servers: 1,
        hosts: 32,
        ops: [1_000; 32],
    },
    interval: 4,
    window: 2,
};

// What another implementation of the rules computes.
#[test]
fn a_large_cluster_plays(rt: HostRuntime) -> Result<(), Fail> {
    let acts = [
        Act::Steps(400),
        Act::Summary(361_077, 431, 798, 0, 31, 0),
        Act::Next(361_194, 366, 0, Kind::Message),
        Act::Probe(22, 0, Some(9)),
        Act::Probe(31, 0, Some(6)),
    ];
    plays::<Echo<Tally>>(rt.alloc(), &LARGE.scenario()?, &acts, &mut Tally::new())
}

// The number of two scribes, the offset of their writes, the latency of a sync (ms), and the acts.
type ScribePlay = (u16, u16, u32, &'static [Act]);

const SCRIBE_PLAYS: [ScribePlay; 7] = [
    // A crash draws a word for each write. The first word for torn writes is 3604955119, which is 1
    // modulo 3: all four bytes are kept.
    (
        0,
        0,
        0,
        &[
            STEP,
            Act::Host(0, true, 1, 0, 1),
            Act::Fault(Fault::Crash(0)),
            Act::Summary(0, 2, 0, 1, 1, 0),
            Act::Host(0, false, 1, 4, 0),
        ],
    ),
    // A sync takes its time, and does not come if its host was stopped.
    (
        1,
        0,
        5,
        &[
            Act::Steps(2),
            Act::Next(5, 2, 0, Kind::Sync),
            STEP,
            Act::Clock(5),
            Act::Host(0, true, 2, 4, 0),
            Act::Host(1, true, 1, 0, 1),
        ],
    ),
    (
        1,
        0,
        5,
        &[
            Act::Steps(2),
            Act::Fault(Fault::Crash(0)),
            Act::Next(5, 3, 1, Kind::Sync),
        ],
    ),
    // A timer replaces another, and goes with its host.
    (
        2,
        0,
        0,
        &[
            Act::Steps(4),
            Act::Summary(0, 8, 0, 0, 2, 0),
            Act::Next(7, 4, 0, Kind::Timer),
            Act::Steps(2),
            Act::Clock(7),
            Act::Next(7, 8, 0, Kind::Sync),
        ],
    ),
    (
        2,
        0,
        0,
        &[
            Act::Steps(4),
            Act::Fault(Fault::Crash(0)),
            Act::Next(7, 7, 1, Kind::Timer),
        ],
    ),
    // A write past the end of the disk is skipped: its four bytes end at byte 4,096, and at 4,097.
    (0, 4_092, 0, &[STEP, Act::Host(0, true, 1, 0, 1)]),
    (0, 4_093, 0, &[STEP, Act::Host(0, true, 1, 0, 0)]),
];

// Checks that two scribes go through the acts, and back.
fn scribe_plays(alloc: Global, play: &ScribePlay) -> Result<(), Fail> {
    let (number, offset, disk_latency, acts) = *play;
    let scenario = scribes(number, offset, disk_latency).scenario()?;
    plays::<Scribe<Tally>>(alloc, &scenario, acts, &mut Tally::new())
}

fn all_scribe_plays(alloc: Global, rows: &[ScribePlay]) -> Result<(), Fail> {
    for play in rows {
        scribe_plays(alloc, play)?;
    }
    Ok(())
}

#[test]
fn scribes_play(rt: HostRuntime) -> Result<(), Fail> {
    all_scribe_plays(rt.alloc(), &SCRIBE_PLAYS)
}
