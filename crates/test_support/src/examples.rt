//! The plays of the folder `examples`, but for that of the counter, with their answers. `test_play`
//! plays them. They stand here for the reason that `scenes` gives.
mod early_or_torn;
mod plain;

pub use early_or_torn::EARLY_OR_TORN;
pub use plain::PLAIN;
