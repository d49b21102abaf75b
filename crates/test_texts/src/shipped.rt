//! The protocols that the texts may name. `sim_shipped` lists them too, but a dependency on that
//! would prove most of the program before these few texts.
ghost use Rattle.std.specs.Prelude.{codes, [], ◌∷◌};

use sim_scenario::Protocols;

/// The four that ship.
pub struct Shipped;

impl Protocols for Shipped {
    ghost listed = { record { name = codes "echo"; least_servers = 1 }
        ∷ record { name = codes "primary_backup"; least_servers = 2 }
        ∷ record { name = codes "abd"; least_servers = 1 }
        ∷ record { name = codes "two_phase"; least_servers = 2 } ∷ [] };

    fn named(name: &str) -> Option<usize> {
        match name {
            "echo" => Some(0),
            "primary_backup" => Some(1),
            "abd" => Some(2),
            "two_phase" => Some(3),
            _ => None,
        }
    }

    fn least_servers(place: usize) -> usize {
        match place {
            0 | 2 => 1,
            1 | 3 => 2,
            _ => 0,
        }
    }
}
