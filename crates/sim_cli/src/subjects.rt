//! The protocols of a program, and how a task is carried out over the nodes of one of them.
ghost use Rattle.std.specs.Prelude.{◌≡◌, ◌≤◌, ◌<◌, ℕ, List, [], ◌∷◌, length, map, vec_len};
ghost use Rattle.std.specs.Prelude.{IfOk, slice_get, string_bytes};
ghost use Rattle.std.specs.Option.{option_copied, option_map};
ghost use Rattle.sim_events.specs.Scenario.{Scenario as ScenarioValue};
ghost use Rattle.sim_world.specs.Events.{Rules, rules};
ghost use Rattle.sim_scenario.specs.Scenario.{Protocol};
ghost use Rattle.sim_script.specs.Script.{Text, Names as NamesValue};
ghost use Rattle.sim_cli.specs.Play.{Nodes};
ghost use Rattle.sim_cli.specs.Subjects.{Ports, first_or, nodes_with, ports};

use crate::opened::Opened;
use crate::status::Status;
use sim_lines::Ahead;
use sim_node::Node;
use sim_scenario::Protocols;
use sim_tally::FreshMeter;
use std::alloc::{AllocError, Global};
use std::fmt::Debug;
use std::io::{Read, Write};
use std::marker::PhantomData;

/// A task over nodes of any type: a play, a walk, or the writing of a log. A search is none.
pub trait Task {
    ghost use Rattle.sim_cli.specs.declared.status.Status.{Status};

    /// The condition that the task must meet.
    ghost can: { Self → Type 0 };

    /// What the task does with an input and an output, by the rules of the nodes and the names of
    /// hosts and probes.
    ghost does: { {State Msg : Type 0} → Self → Rules State Msg → NamesValue → Ports → Ports
        → Status → Type 0 };

    /// Carries it out over nodes of one type, in a scenario that was read. The reader gives the
    /// script, or the commands of a walk.
    fn carry_out<N: Node<Meter: FreshMeter> + Send + Sync + Debug, R: Read, W: Write>(
        &self,
        opened: &Opened,
        reader: &mut R,
        ahead: &mut Ahead,
        writer: &mut W,
    ) -> Status
    where
        N::Msg: Send + Sync + Debug,
        N::Undo: Send + Sync,
        requires { can self.now }
        ensures { does self.now (rules N.laws N.PROBES opened.now.scenario) opened.now.names
            (ports ahead.old (R.remaining reader.old) (W.contents writer.old))
            (ports ahead.new (R.remaining reader.new) (W.contents writer.new)) result };
}

/// A protocol that a program plays: its name in a scenario, its nodes, and the names of their
/// probes.
pub trait Subject {
    /// The nodes, which show their states by `Debug`.
    type Node: Node<Msg = Self::Msg, Undo = Self::Undo, Meter: FreshMeter + Send>
        + Send
        + Sync
        + Debug;

    /// The messages of the nodes, which show their contents by `Debug`.
    type Msg: Send + Sync + Drop + Debug;

    /// The records of the nodes' reactions.
    type Undo: Send + Sync + Drop;

    /// The protocol's name in a scenario, and the number of servers that it needs.
    ghost protocol: { Protocol };

    /// The names of the probes.
    ghost probes: { List Text };

    /// Returns the protocol's name in a scenario.
    fn name() -> &'static str
        ensures { result.now ≡ protocol.name };

    /// Returns the number of servers that the protocol needs.
    fn least_servers() -> usize
        ensures { result ≡ protocol.least_servers };

    /// Returns the names of the probes, in the order of their numbers: at most 255.
    fn probe_names() -> &'static [&'static str]
        ensures names { map (λ name. name.now) result.now ≡ probes }
        ensures few { length result.now ≤ 255 };
}

/// The protocols that a program plays: [`Only`] one, a [`With`] of one and others, or a type of its
/// own, as `Shipped` of `sim_shipped`.
pub trait Subjects: Protocols {
    /// The nodes of the protocol at a place, in a scenario.
    ghost nodes: { ℕ → ScenarioValue → Nodes };

    /// Returns the name of the protocol at a place, or `None` past the end of the list.
    fn protocol_name(place: usize) -> Option<&'static str>
        ensures { option_copied result ≡ option_map (λ p. p.name) (slice_get Self.listed place) };

    /// Returns the names of the probes of the protocol at a place, in the order of their numbers.
    fn probe_names(alloc: Global, place: usize) -> Result<Vec<String>, AllocError>
        requires { place < length Self.listed }
        ensures names { IfOk result (λ probes. (s : ScenarioValue) →
            map string_bytes probes.items ≡ (nodes place s).probes) }
        ensures few { IfOk result (λ probes. vec_len probes ≤ 255) };

    /// Carries out a task over nodes of the protocol at a place.
    fn carry_out<T: Task, R: Read, W: Write>(
        place: usize,
        task: &T,
        opened: &Opened,
        reader: &mut R,
        ahead: &mut Ahead,
        writer: &mut W,
    ) -> Status
        requires known { place < length Self.listed }
        requires can { T.can task.now }
        ensures { T.does task.now (nodes place opened.now.scenario).rules opened.now.names
            (ports ahead.old (R.remaining reader.old) (W.contents writer.old))
            (ports ahead.new (R.remaining reader.new) (W.contents writer.new)) result };
}

/// A list of the subject `S` alone.
pub struct Only<S> {
    of: PhantomData<S>,
}

/// A list that begins with the subject `S` and continues with the list `L`.
pub struct With<S, L> {
    of: PhantomData<(S, L)>,
}

impl<S: Subject> Protocols for Only<S> {
    ghost listed = { S.protocol ∷ [] };

    fn named(name: &str) -> Option<usize> {
        if name == S::name() { Some(0) } else { None }
    }

    fn least_servers(place: usize) -> usize {
        if place == 0 { S::least_servers() } else { 0 }
    }
}

impl<S: Subject, L: Subjects> Protocols for With<S, L> {
    ghost listed = { S.protocol ∷ L.listed };

    fn named(name: &str) -> Option<usize> {
        if name == S::name() {
            return Some(0);
        }
        match L::named(name) {
            Some(place) => Some(place + 1),
            None => None,
        }
    }

    fn least_servers(place: usize) -> usize {
        if place == 0 {
            S::least_servers()
        } else {
            L::least_servers(place - 1)
        }
    }
}

/// Returns owned copies of the texts.
fn owned(alloc: Global, texts: &[&str]) -> Result<Vec<String>, AllocError>
    ensures texts { IfOk result (λ owned. map string_bytes owned.items
        ≡ map (λ text. text.now) texts.now) }
    ensures as_many { IfOk result (λ owned. vec_len owned ≡ length texts.now) }
{
    let mut owned = Vec::new(alloc);
    for text in texts {
        owned.push(String::from_str(alloc, text)?)?;
    }
    Ok(owned)
}

impl<S: Subject> Subjects for Only<S> {
    ghost nodes = { λ place. nodes_with S.Node.laws S.Node.PROBES S.probes };

    fn protocol_name(place: usize) -> Option<&'static str> {
        if place == 0 { Some(S::name()) } else { None }
    }

    fn probe_names(alloc: Global, _place: usize) -> Result<Vec<String>, AllocError> {
        owned(alloc, S::probe_names())
    }

    fn carry_out<T: Task, R: Read, W: Write>(
        _place: usize,
        task: &T,
        opened: &Opened,
        reader: &mut R,
        ahead: &mut Ahead,
        writer: &mut W,
    ) -> Status {
        task.carry_out::<S::Node, R, W>(opened, reader, ahead, writer)
    }
}

impl<S: Subject, L: Subjects> Subjects for With<S, L> {
    ghost nodes = { first_or (nodes_with S.Node.laws S.Node.PROBES S.probes) L.nodes };

    fn protocol_name(place: usize) -> Option<&'static str> {
        if place == 0 {
            Some(S::name())
        } else {
            L::protocol_name(place - 1)
        }
    }

    fn probe_names(alloc: Global, place: usize) -> Result<Vec<String>, AllocError> {
        if place == 0 {
            owned(alloc, S::probe_names())
        } else {
            L::probe_names(alloc, place - 1)
        }
    }

    fn carry_out<T: Task, R: Read, W: Write>(
        place: usize,
        task: &T,
        opened: &Opened,
        reader: &mut R,
        ahead: &mut Ahead,
        writer: &mut W,
    ) -> Status {
        if place == 0 {
            task.carry_out::<S::Node, R, W>(opened, reader, ahead, writer)
        } else {
            L::carry_out(place - 1, task, opened, reader, ahead, writer)
        }
    }
}
