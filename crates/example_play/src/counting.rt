//! The counter as a protocol that a program plays. docs/NODES.md shows this file.
ghost use Rattle.std.specs.Prelude.{codes, [], ◌∷◌};

use example_counter::{Counter, Message, Role};
use sim_cli::{Subject, Tally};

/// The counter, with the names of its probes.
pub struct Counting;

impl Subject for Counting {
    type Node = Counter<Tally>;

    type Msg = Message;

    type Undo = Role;

    ghost protocol = { record { name = codes "counter"; least_servers = 1 } };

    ghost probes = { codes "next" ∷ codes "count" ∷ [] };

    fn name() -> &'static str {
        "counter"
    }

    fn least_servers() -> usize {
        1
    }

    fn probe_names() -> &'static [&'static str] {
        &["next", "count"]
    }
}
