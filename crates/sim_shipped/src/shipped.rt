//! The list of the protocols that ship.
ghost use Rattle.std.specs.Prelude.{refl};
ghost use Rattle.sim_shipped.specs.Shipped.{shipped, shipped_nodes};

use sim_cli::{Only, Opened, Status, Subject, Subjects, Task};
use sim_hunt::Searchable;
use sim_lines::Ahead;
use sim_scenario::Protocols;
use sim_subjects::{AbdSubject, BackupSubject, CommitSubject, EchoSubject};
use std::alloc::{AllocError, Global};
use std::io::{Read, Write};

/// The protocols that ship, in the order of their places: echo, a primary with a backup, the
/// register, two-phase commit.
pub struct Shipped;

impl Protocols for Shipped {
    ghost listed = { shipped };

    fn named(name: &str) -> Option<usize> {
        if name == EchoSubject::name() {
            Some(0)
        } else if name == BackupSubject::name() {
            Some(1)
        } else if name == AbdSubject::name() {
            Some(2)
        } else if name == CommitSubject::name() {
            Some(3)
        } else {
            None
        }
    }

    fn least_servers(place: usize) -> usize {
        match place {
            0 => EchoSubject::least_servers(),
            1 => BackupSubject::least_servers(),
            2 => AbdSubject::least_servers(),
            3 => CommitSubject::least_servers(),
            _ => 0,
        }
    }
}

impl Subjects for Shipped {
    ghost nodes = { shipped_nodes };

    fn protocol_name(place: usize) -> Option<&'static str> {
        match place {
            0 => Some(EchoSubject::name()),
            1 => Some(BackupSubject::name()),
            2 => Some(AbdSubject::name()),
            3 => Some(CommitSubject::name()),
            _ => None,
        }
    }

    fn probe_names(alloc: Global, place: usize) -> Result<Vec<String>, AllocError> {
        match place {
            0 => Only::<EchoSubject>::probe_names(alloc, 0),
            1 => Only::<BackupSubject>::probe_names(alloc, 0),
            2 => Only::<AbdSubject>::probe_names(alloc, 0),
            3 => Only::<CommitSubject>::probe_names(alloc, 0),
            _ => unreachable!(),
        }
    }

    fn carry_out<T: Task, R: Read, W: Write>(
        place: usize,
        task: &T,
        opened: &Opened,
        reader: &mut R,
        ahead: &mut Ahead,
        writer: &mut W,
    ) -> Status {
        match place {
            0 => Only::<EchoSubject>::carry_out(0, task, opened, reader, ahead, writer),
            1 => Only::<BackupSubject>::carry_out(0, task, opened, reader, ahead, writer),
            2 => Only::<AbdSubject>::carry_out(0, task, opened, reader, ahead, writer),
            _ => Only::<CommitSubject>::carry_out(0, task, opened, reader, ahead, writer),
        }
    }
}

impl Searchable for Shipped {
    type Subject0 = EchoSubject;

    type Subject1 = BackupSubject;

    type Subject2 = AbdSubject;

    type Subject3 = CommitSubject;

    type Subject4 = CommitSubject;

    type Subject5 = CommitSubject;

    type Subject6 = CommitSubject;

    type Subject7 = CommitSubject;

    ghost at0 = { λ _ s names area script c. refl };

    ghost at1 = { λ _ s names area script c. refl };

    ghost at2 = { λ _ s names area script c. refl };

    ghost at3 = { λ _ s names area script c. refl };

    ghost at4 = { λ has. absurd has };

    ghost at5 = { λ has. absurd has };

    ghost at6 = { λ has. absurd has };

    ghost at7 = { λ has. absurd has };
}
