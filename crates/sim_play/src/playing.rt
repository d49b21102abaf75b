//! Plays a scenario and a script over any reader and any writer.
ghost use Rattle.std.specs.Prelude.{◌≡◌, ◌≤◌, ℕ, List, Some, length};
ghost use Rattle.sim_cli.specs.Play.{Ended, IsWithinReads, Played};
ghost use Rattle.sim_cli.specs.Subjects.{PlaysScript, nodes_by};
ghost use Rattle.sim_play.specs.Plain.{IsDone, IsPlain};

use crate::answering::answer_lines;
use sim_book::Book;
use sim_cli::{Opened, Status, Subjects, Task, open};
use sim_lines::Ahead;
use sim_node::Node;
use sim_tally::FreshMeter;
use std::alloc::Global;
use std::fmt::Debug;
use std::io::{Read, Write};

/// The task to play a script: it writes a line for each command.
#[derive(Drop)]
pub struct Playing {
    pub alloc: Global,
}

impl Task for Playing {
    ghost can = { λ _. Unit {0} };

    ghost does = { λ _ r names old new ended. PlaysScript r names old new ended };

    fn carry_out<N: Node<Meter: FreshMeter> + Send + Sync + Debug, R: Read, W: Write>(
        &self,
        opened: &Opened,
        reader: &mut R,
        ahead: &mut Ahead,
        writer: &mut W,
    ) -> Status
    where
        N::Msg: Send + Sync + Debug,
        N::Undo: Send + Sync,
    {
        match Book::<N>::new(self.alloc, &opened.scenario, N::Meter::fresh()) {
            Ok(mut book) => answer_lines(
                self.alloc,
                &mut book,
                &opened.names,
                reader,
                ahead,
                writer,
            ),
            Err(_) => Status::MemoryWanted,
        }
    }
}

/// Reads a scenario and plays the script that follows it.
fn play_scenario<L: Subjects, H: Eprint, R: Read, W: Write>(
    host: &H,
    alloc: Global,
    reader: &mut R,
    writer: &mut W,
) -> Status
    requires few { length L.listed ≤ 255 }
    ensures played { (given : List ℕ) → R.remaining reader.old ≡ Some given →
        Ended (W.contents writer.old) (W.contents writer.new)
        (Played L.listed (nodes_by L.nodes) given (R.remaining reader.new) result) }
    ensures within { IsWithinReads (R.remaining reader.old) (R.remaining reader.new) }
{
    let mut ahead = Ahead::new();
    match open::<L, H, R, W>(host, alloc, reader, &mut ahead, writer) {
        Ok(opened) => {
            let task = Playing { alloc };
            L::carry_out(opened.protocol, &task, &opened, reader, &mut ahead, writer)
        }
        Err(status) => status,
    }
}

/// Reads a scenario and a script, plays the script over the nodes of the subject that the scenario
/// names, and writes a line for each command. If memory suffices, the output is a function of the
/// input. If a command wants memory, its line says so; other want of memory ends the play with
/// `MemoryWanted`. A fault of the scenario is explained on standard error. Makes at most 2^40
/// reads, of at most 4,096 bytes each; a reader that has not ended by then counts as failed. There
/// are at most 255 subjects.
pub fn play<L: Subjects, H: Eprint, R: Read, W: Write>(
    host: &H,
    alloc: Global,
    reader: &mut R,
    writer: &mut W,
) -> Status
    requires few { length L.listed ≤ 255 }
    ensures played { (given : List ℕ) → R.remaining reader.old ≡ Some given →
        Ended (W.contents writer.old) (W.contents writer.new)
        (Played L.listed (nodes_by L.nodes) given (R.remaining reader.new) result) }
    ensures plain { (given : List ℕ) → R.remaining reader.old ≡ Some given → IsDone result →
        Ended (W.contents writer.old) (W.contents writer.new)
        (IsPlain L.listed (nodes_by L.nodes) given) }
    ensures within { IsWithinReads (R.remaining reader.old) (R.remaining reader.new) }
{
    play_scenario::<L, H, R, W>(host, alloc, reader, writer)
}
