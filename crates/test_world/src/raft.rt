//! Worked rows of Raft, computed as lemmas over its tables in `proofs/`, and runs of its variants
//! with three servers and two clients.
//!
//! `example_raft` proves that each variant does what its table says. It does not prove that Raft is
//! safe, and two variants are not. So these tests check what the tables are for:
//!
//! - A cluster of the sound variant elects leaders, commits and gets its clients through, under the
//!   faults that break the other two.
//! - `Hasty`, which reports a vote before it is stable, elects two leaders in one term. `Eager`,
//!   which commits entries of older terms by counting, commits two values at one place. Each run
//!   has only the few faults that this takes.
//! - The rows of `proofs/RaftRows.antt` are single inputs that a reader can compare with
//!   docs/RAFT.md.
//!
//! Each run goes there, back by the records and there again, so it also shows that every reaction
//! of a node of real size can be undone.
//!
//! What each test would catch, where proofs say nothing:
//!
//! * `sound_raft_is_done`: a node that never has memory; tables that are not Raft, so that a
//!   cluster never elects or never commits. It suffers the faults of the other two.
//! * `hasty_raft_elects_two`, `eager_raft_commits_two`: a planted bug that no run shows.
use example_raft::{Eager, Hasty, Raft, Sound};
use sim_links::Way;
use sim_node::{Node, Setup};
use sim_tally::Tally;
use sim_world::{BadLimits, Fault, Scenario};
use std::alloc::Global;
use std::test::Fail;
use test_support::{Act, Setting, plays};

// The numbers of the probes c2, c8 and e1.
const C2: u8 = 6;

const C8: u8 = 12;

const E1: u8 = 13;

// Returns a scenario of three servers, and two clients of six operations. A message takes 5 to 45
// ms. `seed` is the seed's last two bytes; `disk_latency` is in ms.
fn scenario(seed: (u8, u8), disk_latency: u32) -> Result<Scenario, BadLimits> {
    let mut bytes = [0; 32];
    bytes[30] = seed.0;
    bytes[31] = seed.1;
    let setting = Setting {
        seed: bytes,
        way: Way {
            latency_min: 5,
            latency_max: 45,
            loss: 0,
        },
        disk_latency,
        setup: Setup {
            servers: 3,
            hosts: 5,
            ops: [6; 32],
        },
        interval: 64,
        window: 1_000,
    };
    setting.scenario()
}

// Server 0 has voted, and starts again before its vote is stable.
const VOTER_BOUNCES: [Act; 2] = [Act::Steps(13), Act::Fault(Fault::Bounce(0))];

// A server crashes, and later the servers cannot all reach each other.
const LEADERS_CHANGE: [Act; 10] = [
    Act::Steps(14),
    Act::Fault(Fault::Crash(1)),
    Act::Steps(49),
    Act::Fault(Fault::Bounce(1)),
    Act::Steps(15),
    Act::Fault(Fault::Cut(1, 2)),
    Act::Steps(39),
    Act::Fault(Fault::Cut(2, 0)),
    Act::Steps(12),
    Act::Fault(Fault::Repair(1, 2)),
];

// Checks that a cluster goes through the first acts and then the others, and back.
fn all_play<N: Node>(
    alloc: Global,
    scenario: &Scenario,
    first: &[Act],
    then: &[Act],
    meter: &mut N::Meter,
) -> Result<(), Fail> {
    let mut acts = Vec::new(alloc);
    acts.extend_from_slice(first)?;
    acts.extend_from_slice(then)?;
    plays::<N>(alloc, scenario, acts.as_slice(), meter)
}

#[test]
fn hasty_raft_elects_two(rt: HostRuntime) -> Result<(), Fail> {
    let then = [
        // Two leaders of term 1,
        Act::Steps(6),
        Act::Probe(1, E1, Some(2)),
        Act::Probe(2, E1, Some(3)),
        // and then two values at one place.
        Act::Steps(53),
        Act::Probe(1, C2, Some(3001)),
        Act::Probe(2, C2, Some(4001)),
    ];
    let scenario = scenario((0x96, 0xe6), 19)?;
    let mut meter = Tally::new();
    all_play::<Raft<Hasty, Tally>>(rt.alloc(), &scenario, &VOTER_BOUNCES, &then, &mut meter)
}

#[test]
fn eager_raft_commits_two(rt: HostRuntime) -> Result<(), Fail> {
    let then = [
        Act::Steps(194),
        Act::Probe(1, C8, Some(1)),
        Act::Probe(2, C8, Some(3004)),
    ];
    let scenario = scenario((0x46, 0x0b), 14)?;
    let mut meter = Tally::new();
    all_play::<Raft<Eager, Tally>>(rt.alloc(), &scenario, &LEADERS_CHANGE, &then, &mut meter)
}

#[test]
fn sound_raft_is_done(rt: HostRuntime) -> Result<(), Fail> {
    let mut meter = Tally::new();
    let then = [
        Act::Steps(261),
        Act::Probe(0, C8, Some(4004)),
        Act::Probe(1, C8, Some(4004)),
        Act::Probe(2, C8, Some(4004)),
        Act::Done(3),
        Act::Done(4),
    ];
    let bounced = scenario((0x96, 0xe6), 19)?;
    all_play::<Raft<Sound, Tally>>(rt.alloc(), &bounced, &VOTER_BOUNCES, &then, &mut meter)?;
    let then = [
        Act::Steps(194),
        Act::Fault(Fault::Repair(2, 0)),
        Act::Steps(226),
        Act::Probe(0, C8, Some(3004)),
        Act::Probe(1, C8, Some(3004)),
        Act::Probe(2, C8, Some(3004)),
        Act::Done(3),
        Act::Done(4),
    ];
    let changed = scenario((0x46, 0x0b), 14)?;
    all_play::<Raft<Sound, Tally>>(rt.alloc(), &changed, &LEADERS_CHANGE, &then, &mut meter)
}
