ghost use Rattle.std.specs.Prelude.{◌<◌};

use crate::direction::Direction;

// A direction of packed links, with its place.
#[derive(Drop)]
pub(crate) struct Kept<M> {
    pub(crate) place: u16,
    pub(crate) direction: Direction<M>,
    ghost within: { place < 1024 },
}
