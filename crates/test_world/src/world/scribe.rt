//! A node that writes to its disk.
ghost use Rattle.std.specs.Prelude.{◌≡◌, []};
ghost use Rattle.test_world.specs.Scribe.{writing};

use sim_node::{Effects, Input, Meter, NoMemory, Node, Setup};
use std::alloc::Global;
use std::marker::{Model, PhantomData};

/// A host that writes 11 22 33 44 (hex) when it starts, at the offset that host 2's operations
/// give. Host 0's operations say what it asks for next: nothing for 0, a sync for 1, else a sync
/// and a timer. At the timer it does all this again.
#[derive(Drop)]
pub struct Scribe<T> {
    setup: Setup,
    meter: PhantomData<T>,
}

impl<T> Model for Scribe<T> {
    ghost use Rattle.sim_node.specs.declared.Setup.{Setup};

    ghost Value = { Setup };

    ghost view = { λ s. s.setup };
}

/// The record of a reaction: none changes the state.
#[derive(Clone, Copy)]
pub enum ScribeUndo {
    Nothing,
}

impl<T> Scribe<T> {
    // Writes, and asks for the further effects.
    fn write(&self, effects: &mut Effects<u8>)
        requires { effects.old ≡ record { hosts = self.now.hosts; list = [] } }
        ensures { effects.new ≡ record { hosts = self.now.hosts; list = writing self.now } }
    {
        effects.write(u32::from(self.setup.ops[2]), &[0x11, 0x22, 0x33, 0x44]);
        if self.setup.ops[0] == 0 {
            return;
        }
        effects.sync();
        if self.setup.ops[0] == 1 {
            return;
        }
        effects.timer(9);
        effects.timer(7);
    }
}

impl<T: Meter> Node for Scribe<T> {
    type Msg = u8;

    type Undo = ScribeUndo;

    type Meter = T;

    const PROBES: u8 = 1;

    ghost use Rattle.test_world.specs.Scribe.{scribe, scribe_records};

    ghost PROBES = { 1 };

    ghost laws = { scribe };

    ghost told = { λ setup. setup.hosts };

    ghost records = { scribe_records };

    fn boot(
        _alloc: Global,
        setup: &Setup,
        _me: u16,
        _disk: &[u8],
        meter: &mut T,
    ) -> Result<Self, NoMemory> {
        meter.turn();
        Ok(Scribe {
            setup: *setup,
            meter: PhantomData,
        })
    }

    fn act(
        &mut self,
        _alloc: Global,
        _now: u64,
        input: &Input<u8>,
        _word: u32,
        effects: &mut Effects<u8>,
        meter: &mut T,
    ) -> Result<ScribeUndo, NoMemory> {
        meter.turn();
        match input {
            Input::Start | Input::Timer => self.write(effects),
            Input::Message { .. } | Input::Synced => {}
        }
        Ok(ScribeUndo::Nothing)
    }

    fn undo(&mut self, _alloc: Global, _undo: ScribeUndo, meter: &mut T) -> Result<(), NoMemory> {
        meter.undone();
        Ok(())
    }

    fn copy(&self, _alloc: Global, meter: &mut T) -> Result<Self, NoMemory> {
        meter.copied();
        Ok(Scribe {
            setup: self.setup,
            meter: PhantomData,
        })
    }

    fn probe(&self, _k: u8) -> u64 {
        self.setup.hosts as u64
    }

    fn copy_msg(_alloc: Global, msg: &u8) -> Result<u8, NoMemory> {
        Ok(*msg)
    }
}
