//! A scenario that was read.
ghost use Rattle.std.specs.Prelude.{◌≡◌};

use sim_script::Names;
use sim_world::Scenario;

/// A scenario that was read: the place of its protocol, its values, and the names of its hosts and
/// probes.
#[derive(Drop)]
pub struct Opened {
    pub protocol: usize,
    pub scenario: Scenario,
    pub names: Names,
    /// The scenario's seed.
    pub seed: [u8; 32],
    /// The text of the scenario, at most 65,536 bytes.
    pub text: Vec<u8>,
    ghost own: { seed ≡ scenario.seed },
}
