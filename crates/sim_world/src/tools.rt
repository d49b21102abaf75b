//! What a step uses beside the parts of a world.
use crate::index::Index;
use sim_node::Effects;

/// What a step uses beside the parts of a world: their index, and the room in which a node asks for
/// effects.
#[derive(Drop)]
pub struct Tools<M> {
    pub index: Index,
    pub effects: Effects<M>,
}
