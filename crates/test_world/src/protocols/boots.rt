//! The probes of servers that boot from given bytes.
ghost use Rattle.std.specs.Prelude.{◌<◌};

use sim_node::{NoMemory, Node, Setup};
use sim_protocols::{AbdRegister, PrimaryBackup, TwoPhase};
use sim_tally::Tally;
use std::alloc::Global;
use std::test::Fail;

// Two servers and two clients.
const FOUR_HOSTS: Setup = Setup {
    servers: 2,
    hosts: 4,
    ops: [2; 32],
};

// Boots one of four hosts from these bytes, copies it, and returns what a probe of the copy shows.
fn booted<N: Node>(
    alloc: Global,
    me: u16,
    disk: &[u8],
    k: u8,
    meter: &mut N::Meter,
) -> Result<u64, NoMemory>
    requires me { me < 4 }
    requires probe { k < N.PROBES }
{
    let node = N::boot(alloc, &FOUR_HOSTS, me, disk, meter)?;
    Ok(node.copy(alloc, meter)?.probe(k))
}

// The host and the bytes from which it boots, the probe, and its value.
type Row = (u16, &'static [u8], u8, u64);

fn all_show<N: Node>(alloc: Global, rows: &[Row], meter: &mut N::Meter) -> Result<(), Fail> {
    for (me, bytes, k, value) in rows {
        if 4 <= *me || N::PROBES <= *k {
            return Err(Fail::from("no such probe"));
        }
        let shown = booted::<N>(alloc, *me, *bytes, *k, meter)?;
        if shown != *value {
            return Err(Fail::new(format_args!("host {me}, probe {k}: {shown}, not {value}")));
        }
    }
    Ok(())
}

// A transaction, a flag or a status, and the outcome of transaction 1.
const COMMITS: [Row; 6] = [
    (0, &[1, 0, 0, 0, 0, 0, 0, 0, 0, 0], 1, 2),
    (0, &[1, 0, 0, 0, 0, 0, 0, 0, 1, 1], 1, 1),
    (0, &[0, 0, 0, 0, 0, 0, 0, 0, 0, 0], 1, 0),
    (1, &[1, 0, 0, 0, 0, 0, 0, 0, 1, 0], 1, 0),
    (1, &[2, 0, 0, 0, 0, 0, 0, 0, 3, 2], 1, 2),
    (2, &[2, 0, 0, 0, 0, 0, 0, 0, 3, 2], 1, 0),
];

// A number, a writer, and the bytes of a value that a torn write has left.
const REGISTER: &[u8] = &[2, 1, 0, 0, 0, 0, 0, 0, 3, 0, 0, 0, 0, 0, 0, 0, 9, 1];

#[test]
fn servers_show_what_they_booted(rt: HostRuntime) -> Result<(), Fail> {
    let mut meter = Tally::new();
    all_show::<TwoPhase<Tally>>(rt.alloc(), &COMMITS, &mut meter)?;
    let registers = [
        (1, REGISTER, 0, 0),
        (1, REGISTER, 1, 258),
        (1, REGISTER, 2, 265),
    ];
    all_show::<AbdRegister<Tally>>(rt.alloc(), &registers, &mut meter)?;
    // The number of puts applied is at byte 128.
    let mut bytes = [0; 137];
    bytes[128] = 7;
    bytes[136] = 20;
    for (me, applied) in [(0, 7), (1, 7), (2, 0)] {
        let shown = booted::<PrimaryBackup<Tally>>(rt.alloc(), me, &bytes, 1, &mut meter)?;
        assert_eq!(rt; shown, applied, "host {me}");
    }
    Ok(())
}
