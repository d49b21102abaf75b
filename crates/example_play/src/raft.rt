//! Raft as a protocol that a program plays, in each of its variants.
ghost use Rattle.std.specs.Prelude.{◌≡◌, ℕ, List, codes};
ghost use Rattle.example_raft.specs.RaftProbes.{probe_names};

use example_raft::{Eager, Hasty, Message, Raft, RaftUndo, Sound, Variant};
use sim_cli::{Subject, Tally};
use std::marker::PhantomData;

/// A variant of Raft that a scenario can name.
pub trait Named: Variant + Send + Sync {
    ghost protocol_name: { List ℕ };

    /// The name in a scenario.
    fn protocol_name() -> &'static str
        ensures { result.now ≡ protocol_name };
}

impl Named for Sound {
    ghost protocol_name = { codes "raft" };

    fn protocol_name() -> &'static str {
        "raft"
    }
}

impl Named for Eager {
    ghost protocol_name = { codes "raft_eager" };

    fn protocol_name() -> &'static str {
        "raft_eager"
    }
}

impl Named for Hasty {
    ghost protocol_name = { codes "raft_hasty" };

    fn protocol_name() -> &'static str {
        "raft_hasty"
    }
}

/// Raft in one of its variants.
pub struct RaftSubject<V> {
    of: PhantomData<V>,
}

impl<V: Named> Subject for RaftSubject<V> {
    type Node = Raft<V, Tally>;

    type Msg = Message;

    type Undo = RaftUndo;

    ghost protocol = { record { name = V.protocol_name; least_servers = 1 } };

    ghost probes = { probe_names };

    fn name() -> &'static str {
        V::protocol_name()
    }

    fn least_servers() -> usize {
        1
    }

    fn probe_names() -> &'static [&'static str] {
        &[
            "next", "term", "leads", "commit", "len", "c1", "c2", "c3", "c4", "c5", "c6", "c7",
            "c8", "e1", "e2", "e3", "e4", "e5", "e6", "e7", "e8",
        ]
    }
}
