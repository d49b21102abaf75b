//! Plays of the three protocols.
use sim_links::Way;
use sim_node::{Node, Setup};
use sim_protocols::{AbdRegister, PrimaryBackup, TwoPhase};
use sim_tally::Tally;
use sim_world::{Event, Fault, Kind, Refusal};
use std::alloc::Global;
use std::test::Fail;
use test_support::{Act, Setting, plays, steady};

const STEP: Act = Act::Steps(1);

const CRASH: Act = Act::Fault(Fault::Crash(0));

const BOUNCE: Act = Act::Fault(Fault::Bounce(0));

const IDLE: Act = Act::Refused(Event::Step, Refusal::Idle);

// Servers a and b, and a client w with one operation: hosts 0, 1 and 2.
const THREE_HOSTS: Setup = Setup {
    servers: 2,
    hosts: 3,
    ops: [1; 32],
};

// A server a, and a client w with two operations: hosts 0 and 1.
const TWO_HOSTS: Setup = Setup {
    servers: 1,
    hosts: 2,
    ops: [2; 32],
};

// Three servers and two clients with two operations each.
const FIVE_HOSTS: Setup = Setup {
    servers: 3,
    hosts: 5,
    ops: [2; 32],
};

// The hosts, the seed's byte 24 (the others are 0), the latency of a sync (ms), and the acts.
type Play = (Setup, u8, u32, &'static [Act]);

// Returns a way of 10 ms that loses nothing, or for five hosts one of 5 to 45 ms that loses one
// message in ten.
fn way(hosts: u16) -> Way {
    if hosts < 5 {
        return steady(10);
    }
    Way {
        latency_min: 5,
        latency_max: 45,
        loss: 100,
    }
}

fn setting(setup: Setup, byte: u8, disk_latency: u32) -> Setting {
    let mut seed = [0; 32];
    seed[24] = byte;
    Setting {
        seed,
        way: way(setup.hosts),
        disk_latency,
        setup,
        interval: 4,
        window: 2,
    }
}

// Checks that a cluster goes through each play, and back.
fn all_play<N: Node>(alloc: Global, rows: &[Play], meter: &mut N::Meter) -> Result<(), Fail> {
    for (setup, byte, disk_latency, acts) in rows {
        let scenario = setting(*setup, *byte, *disk_latency).scenario()?;
        plays::<N>(alloc, &scenario, *acts, meter)?;
    }
    Ok(())
}

// The end of a rough run: its number of events, the clock (ms), the serials, the words of the
// network and of torn writes, and the value on which the servers agree.
type End = (u32, u64, u64, u64, u64, u64);

// Returns a rough run: each server in turn crashes and starts again, until nothing is pending.
fn rough(probe: u8, end: End) -> [Act; 20] {
    let (events, clock, serial, net, torn, value) = end;
    [
        Act::Steps(10),
        CRASH,
        Act::Steps(5),
        BOUNCE,
        Act::Steps(13),
        Act::Fault(Fault::Crash(1)),
        Act::Steps(5),
        Act::Fault(Fault::Bounce(1)),
        Act::Steps(13),
        Act::Fault(Fault::Crash(2)),
        Act::Steps(5),
        Act::Fault(Fault::Bounce(2)),
        Act::Steps(events.saturating_sub(57)),
        IDLE,
        Act::Summary(clock, serial, net, torn, 0, 0),
        Act::Probe(0, probe, Some(value)),
        Act::Probe(1, probe, Some(value)),
        Act::Probe(2, probe, Some(value)),
        Act::Done(3),
        Act::Done(4),
    ]
}

// Checks that a cluster of five hosts comes to these ends, with syncs of 0, 5 and 50 ms.
fn all_end<N: Node>(
    alloc: Global,
    probe: u8,
    ends: &[End; 3],
    meter: &mut N::Meter,
) -> Result<(), Fail> {
    for (end, disk_latency) in ends.iter().zip([0, 5, 50]) {
        let scenario = setting(FIVE_HOSTS, 0, disk_latency).scenario()?;
        plays::<N>(alloc, &scenario, &rough(probe, *end), meter)?;
    }
    Ok(())
}

const BACKUPS: [Play; 2] = [
    // A put is answered. A primary that starts again sends it to the backup again.
    (
        THREE_HOSTS,
        0,
        0,
        &[
            Act::Steps(9),
            Act::Done(2),
            Act::Summary(40, 12, 8, 0, 2, 0),
            Act::Host(0, true, 4, 137, 0),
            Act::Probe(1, 1, Some(1)),
            CRASH,
            BOUNCE,
            STEP,
            Act::Summary(40, 15, 10, 0, 3, 0),
        ],
    ),
    // A put waits for a slow disk.
    (
        THREE_HOSTS,
        0,
        5,
        &[
            Act::Steps(9),
            Act::Done(2),
            Act::Summary(50, 12, 8, 0, 2, 0),
        ],
    ),
];

#[test]
fn backups_play(rt: HostRuntime) -> Result<(), Fail> {
    let mut meter = Tally::new();
    all_play::<PrimaryBackup<Tally>>(rt.alloc(), &BACKUPS, &mut meter)?;
    let ends = [
        (116, 1422, 129, 132, 0, 9),
        (95, 1047, 105, 106, 0, 7),
        (121, 1718, 131, 142, 2, 7),
    ];
    all_end::<PrimaryBackup<Tally>>(rt.alloc(), 1, &ends, &mut meter)
}

const REGISTERS: [Play; 1] = [
    // The register reads what was written.
    (
        TWO_HOSTS,
        0,
        0,
        &[
            Act::Steps(11),
            Act::Done(1),
            Act::Summary(80, 15, 16, 0, 1, 0),
            Act::Probe(1, 2, Some(1001)),
            Act::Probe(0, 1, Some(1)),
        ],
    ),
];

#[test]
fn registers_play(rt: HostRuntime) -> Result<(), Fail> {
    let mut meter = Tally::new();
    all_play::<AbdRegister<Tally>>(rt.alloc(), &REGISTERS, &mut meter)?;
    let ends = [
        (71, 559, 71, 106, 0, 4001),
        (71, 564, 71, 106, 0, 4001),
        (68, 719, 68, 100, 0, 4001),
    ];
    all_end::<AbdRegister<Tally>>(rt.alloc(), 2, &ends, &mut meter)
}

const PARTICIPANTS: [Play; 2] = [
    // A coordinator that crashed presumes abort.
    (
        THREE_HOSTS,
        0,
        0,
        &[
            Act::Steps(5),
            Act::Host(0, true, 3, 10, 0),
            CRASH,
            BOUNCE,
            Act::Probe(0, 1, Some(2)),
            Act::Steps(17),
            Act::Done(2),
            Act::Probe(0, 1, Some(2)),
            Act::Probe(1, 1, Some(2)),
        ],
    ),
    // The coordinator's second write is torn after its ninth byte. It boots with its commit flag
    // and an open transaction 1, and presumes that it was aborted; but it tells the participant to
    // commit.
    (
        THREE_HOSTS,
        5,
        5,
        &[
            Act::Steps(8),
            CRASH,
            BOUNCE,
            STEP,
            Act::Probe(0, 1, Some(2)),
            Act::Probe(1, 1, Some(0)),
            Act::Next(50, 15, 1, Kind::Message),
            STEP,
            Act::Clock(50),
            Act::Probe(0, 1, Some(2)),
            Act::Probe(1, 1, Some(1)),
        ],
    ),
];

#[test]
fn participants_play(rt: HostRuntime) -> Result<(), Fail> {
    let mut meter = Tally::new();
    all_play::<TwoPhase<Tally>>(rt.alloc(), &PARTICIPANTS, &mut meter)?;
    let ends = [
        (150, 1167, 170, 160, 1, 2),
        (122, 926, 138, 130, 1, 2),
        (177, 1817, 196, 198, 1, 2),
    ];
    all_end::<TwoPhase<Tally>>(rt.alloc(), 1, &ends, &mut meter)
}
