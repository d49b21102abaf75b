//! The book, as the lock holds it.
ghost use Rattle.std.specs.Prelude.{◌≡◌, ℕ, length};
ghost use Rattle.sim_tape.specs.Tape.{Frozen as FrozenValue};
ghost use Rattle.sim_events.specs.Scenario.{Scenario as ScenarioValue};
ghost use Rattle.sim_watch.specs.declared.command.Command.{Command};
ghost use Rattle.sim_watch.specs.declared.command.Command.TheVariants.{Freeze};
ghost use Rattle.sim_book.specs.Freezing.{GivesFrozen};
ghost use Rattle.sim_shared.specs.Full.{TellsFull};

use sim_book::{Book, Command, Entry, NotTaken};
use sim_lock::{Freezes, Kept};
use sim_node::Node;
use sim_tape::Frozen;
use sim_world::Scenario;
use std::alloc::Global;

/// A book, with the allocator from which its commands take memory.
#[derive(Drop)]
pub struct Held<N: Node> {
    pub(crate) book: Book<N>,
    pub(crate) alloc: Global,
}

impl<N: Node> Kept for Held<N> {
    type Scenario = Scenario;

    type Command = Command;

    type Entry = Entry;

    type NotTaken = NotTaken;

    ghost scenario = { λ h. h.book.scenario };

    ghost entries = { λ h. h.book.history };

    ghost session_of = { λ e. e.session };

    ghost number_of = { λ e. e.number };

    ghost command_of = { λ e. e.command };

    ghost tells = { TellsFull };

    fn session(entry: &Entry) -> u8 {
        entry.session
    }

    fn number(entry: &Entry) -> u32 {
        entry.number
    }

    fn turn(&mut self, session: u8, command: Command) -> Result<Entry, NotTaken> {
        self.book.laws();
        self.book.turn(self.alloc, session, command)
    }
}

impl<N: Node> Freezes for Held<N> {
    type Frozen = Frozen<N>;

    ghost freezing = { λ b. Freeze b };

    ghost gives = { λ s e given. GivesFrozen s e.reply given };

    fn freeze(&mut self, session: u8, branch: u32) -> Result<(Entry, Option<Frozen<N>>), NotTaken> {
        self.book.laws();
        self.book.freeze(self.alloc, session, branch)
    }
}
