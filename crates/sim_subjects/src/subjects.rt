//! The four protocols that ship, as subjects.
ghost use Rattle.sim_protocols.specs.Probes.{probe_names};
ghost use Rattle.sim_protocols.specs.declared.Protocol.TheVariants as which;
ghost use Rattle.sim_subjects.specs.Subjects.{of_echo, of_backup, of_abd, of_commit};

use sim_cli::Subject;
use sim_node::Node;
use sim_protocols::{AbdRegister, Echo, PrimaryBackup, TwoPhase};
use sim_tally::Tally;

/// Echo: a server answers pings.
pub struct EchoSubject;

/// A primary with a backup.
pub struct BackupSubject;

/// The register of Attiya, Bar-Noy and Dolev.
pub struct AbdSubject;

/// Two-phase commit.
pub struct CommitSubject;

impl Subject for EchoSubject {
    type Node = Echo<Tally>;

    type Msg = <Echo<Tally> as Node>::Msg;

    type Undo = <Echo<Tally> as Node>::Undo;

    ghost protocol = { of_echo };

    ghost probes = { probe_names which.Echo };

    fn name() -> &'static str {
        "echo"
    }

    fn least_servers() -> usize {
        1
    }

    fn probe_names() -> &'static [&'static str] {
        &["next", "served"]
    }
}

impl Subject for BackupSubject {
    type Node = PrimaryBackup<Tally>;

    type Msg = <PrimaryBackup<Tally> as Node>::Msg;

    type Undo = <PrimaryBackup<Tally> as Node>::Undo;

    ghost protocol = { of_backup };

    ghost probes = { probe_names which.PrimaryBackup };

    fn name() -> &'static str {
        "primary_backup"
    }

    fn least_servers() -> usize {
        2
    }

    fn probe_names() -> &'static [&'static str] {
        &["next", "applied"]
    }
}

impl Subject for AbdSubject {
    type Node = AbdRegister<Tally>;

    type Msg = <AbdRegister<Tally> as Node>::Msg;

    type Undo = <AbdRegister<Tally> as Node>::Undo;

    ghost protocol = { of_abd };

    ghost probes = { probe_names which.AbdRegister };

    fn name() -> &'static str {
        "abd"
    }

    fn least_servers() -> usize {
        1
    }

    fn probe_names() -> &'static [&'static str] {
        &["next", "num", "val"]
    }
}

impl Subject for CommitSubject {
    type Node = TwoPhase<Tally>;

    type Msg = <TwoPhase<Tally> as Node>::Msg;

    type Undo = <TwoPhase<Tally> as Node>::Undo;

    ghost protocol = { of_commit };

    ghost probes = { probe_names which.TwoPhase };

    fn name() -> &'static str {
        "two_phase"
    }

    fn least_servers() -> usize {
        2
    }

    fn probe_names() -> &'static [&'static str] {
        &["next", "first"]
    }
}
