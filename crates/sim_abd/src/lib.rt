//! The register of Attiya, Bar-Noy and Dolev with several writers, as a node.
//!
//! Each operation of a client has two phases. In the first it asks all servers for their tagged
//! value and takes the greatest tag of a majority. In the second it stores a value at a majority: a
//! read stores what it found, a write stores its own value under the next number. docs/PROTOCOLS.md
//! has the table, a row for each input.
//!
//! [`AbdRegister`] implements the trait `Node` of `sim_node` for every meter. So it is proved that
//! the node does what its table says (`specs/Abd.antt`, a definition for each row) and that each
//! reaction can be undone. That the register is atomic is not proved; the simulator is there to
//! examine it.
//!
//! Where to find what: `roles.rt` has the messages, the roles and the state; `client.rt` and
//! `server.rt` have the rows; `node.rt` is the node.
//!
//! Why it is built this way:
//!
//! - A role is small, so it is its own record: the role before a reaction undoes it.
//! - A request has four bytes, so that it fits beside the tag of a message: twice the number of the
//!   operation, or one more. So the number of an operation must be small. [`CountedClient`] is a
//!   type with that invariant (16 bits), and `specs/AbdNumbers.antt` says which numbers an
//!   operation can have.
#![tactic(auto)]

mod client;
mod counted;
mod node;
mod roles;
mod server;

pub use counted::CountedClient;
pub use node::AbdRegister;
pub use roles::{AbdMsg, Client, Owed, Phase, Role, Server, State, Tagged};
