ghost use Rattle.std.specs.Prelude.{◌≡◌, OnOk};
ghost use Rattle.sim_node.specs.Node.{IsSetup, IsFrom};

use sim_echo::{Echo, EchoMsg, EchoUndo};
use sim_node::{Effect, Effects, Input, Meter, NoMemory, Node, Setup, there_and_back};
use sim_tally::Tally;
use std::alloc::Global;
use std::test::Fail;

/// Returns a setup of two servers and two clients, each client with two operations.
fn four_hosts() -> Setup
    ensures setup { IsSetup result }
    ensures hosts { result.hosts ≡ 4 }
{
    Setup {
        servers: 2,
        hosts: 4,
        ops: [2; 32],
    }
}

/// Returns whether one of four hosts shows the same before a reaction and after its undo.
fn shows_the_same<T: Meter>(
    alloc: Global,
    node: &mut Echo<T>,
    input: &Input<EchoMsg>,
    meter: &mut T,
) -> Result<bool, NoMemory>
    requires hosts { node.old.setup.hosts ≡ 4 }
    requires sender { IsFrom 4 input.now }
    ensures { OnOk result (node.new ≡ node.old) }
{
    let shown = (node.probe(0), node.probe(1));
    let mut effects = Effects::new(alloc, &four_hosts())?;
    there_and_back(node, alloc, 0, input, 0, &mut effects, meter)?;
    Ok((node.probe(0), node.probe(1)) == shown)
}

/// Returns whether the record of a reaction of one of four hosts, its first effect and its two
/// probes after it are these. Before that the host reacts in the same way, and the reaction is
/// undone.
fn reacts<T: Meter>(
    alloc: Global,
    node: &mut Echo<T>,
    input: Input<EchoMsg>,
    meter: &mut T,
    want: (EchoUndo, Option<Effect<EchoMsg>>, u64, u64),
) -> Result<bool, NoMemory>
    requires hosts { node.old.setup.hosts ≡ 4 }
    requires sender { IsFrom 4 input }
    ensures { OnOk result (node.new.setup.hosts ≡ 4) }
{
    let is_same = shows_the_same(alloc, node, &input, meter)?;
    let mut effects = Effects::new(alloc, &four_hosts())?;
    let undo = node.act(alloc, 0, &input, 0, &mut effects, meter)?;
    let first = effects.take_first();
    let seen = (undo, first, node.probe(0), node.probe(1));
    Ok(is_same && effects.len() == 0 && seen == want)
}

fn ping(n: u64) -> Option<Effect<EchoMsg>> {
    Some(Effect::Send {
        to: 1,
        msg: EchoMsg::Ping(n),
    })
}

#[test]
fn a_client_goes_by_its_rows(rt: HostRuntime) -> Result<(), Fail> {
    let alloc = rt.alloc();
    let mut meter = Tally::new();
    let mut node = Echo::boot(alloc, &four_hosts(), 3, &[9], &mut meter)?;
    let want = (EchoUndo::Next(0), ping(1), 1, 0);
    assert!(rt; reacts(alloc, &mut node, Input::Start, &mut meter, want)?);
    let rows = [
        (2, (EchoUndo::Nothing, None, 1, 0)),
        (1, (EchoUndo::Next(1), ping(2), 2, 0)),
        (2, (EchoUndo::Next(2), Some(Effect::Done), 3, 0)),
    ];
    for (n, want) in rows {
        let pong = Input::Message {
            sender: 1,
            msg: EchoMsg::Pong(n),
        };
        assert!(rt;
            reacts(alloc, &mut node, pong, &mut meter, want)?,
            "pong {n}"
        );
    }
    Ok(())
}

#[test]
fn a_server_goes_by_its_row(rt: HostRuntime) -> Result<(), Fail> {
    let alloc = rt.alloc();
    let mut meter = Tally::new();
    let mut node = Echo::boot(alloc, &four_hosts(), 0, &[], &mut meter)?;
    let ping = Input::Message {
        sender: 3,
        msg: EchoMsg::Ping(7),
    };
    let pong = Effect::Send {
        to: 3,
        msg: EchoMsg::Pong(7),
    };
    let want = (EchoUndo::Served(0), Some(pong), 0, 1);
    assert!(rt; reacts(alloc, &mut node, ping, &mut meter, want)?);
    let want = (EchoUndo::Nothing, None, 0, 1);
    assert!(rt; reacts(alloc, &mut node, Input::Synced, &mut meter, want)?);

    let copy = node.copy(alloc, &mut meter)?;
    assert_eq!(rt; (copy.probe(0), copy.probe(1)), (0, 1));
    let msg = <Echo<Tally> as Node>::copy_msg(alloc, &EchoMsg::Ping(7))?;
    assert_eq!(rt; msg, EchoMsg::Ping(7));
    Ok(())
}
