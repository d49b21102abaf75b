ghost use Rattle.std.specs.Prelude.{◌≡◌, OnOk};
ghost use Rattle.sim_node.specs.Node.{IsSetup, IsFrom};

use crate::{Counter, Message};
use sim_node::{Effect, Effects, Input, Meter, NoMemory, Node, Setup, there_and_back};
use std::alloc::Global;
use std::process::Abort;
use std::test::Fail;

/// A meter that counts in numbers, and ends the test on overflow.
#[derive(Drop)]
struct Counts<'a, R: Abort> {
    rt: &'a R,
    turns: u64,
    copies: u64,
    undos: u64,
}

impl<'a, R: Abort> Counts<'a, R> {
    fn new(rt: &'a R) -> Self {
        Counts {
            rt,
            turns: 0,
            copies: 0,
            undos: 0,
        }
    }
}

impl<'a, R: Abort> Meter for Counts<'a, R> {
    ghost work = { λ m. record { turns = m.turns; copies = m.copies; undos = m.undos } };

    fn turn(&mut self) {
        self.turns = self.turns.checked_add(1).expect(self.rt, "too many turns");
    }

    fn copied(&mut self) {
        self.copies = self
            .copies
            .checked_add(1)
            .expect(self.rt, "too many copies");
    }

    fn undone(&mut self) {
        self.undos = self.undos.checked_add(1).expect(self.rt, "too many undos");
    }
}

/// Returns a cluster of one server and one client with one operation.
fn two_hosts() -> Setup
    ensures setup { IsSetup result }
    ensures hosts { result.hosts ≡ 2 }
{
    Setup {
        servers: 1,
        hosts: 2,
        ops: [1; 32],
    }
}

/// Lets one of two hosts react, undoes the reaction, and checks that the probes are as before. Then
/// lets it react again, and checks that it has exactly these effects.
fn react<T: Meter>(
    rt: &impl Abort,
    node: &mut Counter<T>,
    alloc: Global,
    input: Input<Message>,
    expected: (Option<Effect<Message>>, Option<Effect<Message>>),
    meter: &mut T,
) -> Result<(), NoMemory>
    requires hosts { node.old.setup.hosts ≡ 2 }
    requires sender { IsFrom 2 input }
    ensures { OnOk result (node.new.setup.hosts ≡ 2) }
{
    let shown = (node.probe(0), node.probe(1));
    let mut effects = Effects::new(alloc, &two_hosts())?;
    there_and_back(node, alloc, 0, &input, 0, &mut effects, meter)?;
    assert_eq!(rt; (node.probe(0), node.probe(1)), shown);

    let mut effects = Effects::new(alloc, &two_hosts())?;
    node.act(alloc, 0, &input, 0, &mut effects, meter)?;
    let first = effects.take_first();
    assert_eq!(rt; (first, effects.take_first()), expected);
    assert_eq!(rt; effects.len(), 0);
    Ok(())
}

#[test]
fn a_client_asks_until_it_is_answered(rt: HostRuntime) -> Result<(), Fail> {
    let alloc = rt.alloc();
    let mut meter = Counts::new(&rt);
    let mut node = Counter::boot(alloc, &two_hosts(), 1, &[], &mut meter)?;

    let asks = (
        Some(Effect::Send {
            to: 0,
            msg: Message::Add(1),
        }),
        Some(Effect::Timer(500)),
    );
    react(&rt, &mut node, alloc, Input::Start, asks, &mut meter)?;
    let asks = (
        Some(Effect::Send {
            to: 0,
            msg: Message::Add(1),
        }),
        Some(Effect::Timer(500)),
    );
    react(&rt, &mut node, alloc, Input::Timer, asks, &mut meter)?;
    let added = Input::Message {
        sender: 0,
        msg: Message::Added(1),
    };
    react(
        &rt,
        &mut node,
        alloc,
        added,
        (Some(Effect::Done), None),
        &mut meter,
    )?;
    assert_eq!(rt; node.probe(0), 2);
    assert_eq!(rt; (meter.turns, meter.copies, meter.undos), (7, 0, 3));
    Ok(())
}

#[test]
fn a_server_answers_when_its_count_is_stable(rt: HostRuntime) -> Result<(), Fail> {
    let alloc = rt.alloc();
    let mut meter = Counts::new(&rt);
    let disk = [4, 1, 0, 0, 0, 0, 0, 0];
    let mut node = Counter::boot(alloc, &two_hosts(), 0, &disk, &mut meter)?;
    assert_eq!(rt; node.probe(1), 260);

    let mut bytes = [0; 64];
    bytes[0] = 5;
    bytes[1] = 1;
    let saves = (
        Some(Effect::Write {
            offset: 0,
            len: 8,
            bytes,
        }),
        Some(Effect::Sync),
    );
    let add = Input::Message {
        sender: 1,
        msg: Message::Add(1),
    };
    react(&rt, &mut node, alloc, add, saves, &mut meter)?;
    assert_eq!(rt; node.probe(1), 261);
    let answers = (
        Some(Effect::Send {
            to: 1,
            msg: Message::Added(1),
        }),
        None,
    );
    react(&rt, &mut node, alloc, Input::Synced, answers, &mut meter)?;
    Ok(())
}

#[test]
fn a_copy_shows_the_same(rt: HostRuntime) -> Result<(), Fail> {
    let alloc = rt.alloc();
    let mut meter = Counts::new(&rt);
    let node = Counter::boot(
        alloc,
        &two_hosts(),
        0,
        &[7, 0, 0, 0, 0, 0, 0, 0],
        &mut meter,
    )?;
    let copy = node.copy(alloc, &mut meter)?;
    assert_eq!(rt; (copy.probe(0), copy.probe(1)), (0, 7));
    let msg = <Counter<Counts<HostRuntime>> as Node>::copy_msg(alloc, &Message::Add(3))?;
    assert_eq!(rt; msg, Message::Add(3));
    Ok(())
}
