//! Random cases of all jobs but walks, pages and shrunk runs, with the outputs of a plain
//! simulator. `test_program` carries them out. They stand here for the reason that `walks` gives.
mod jobs;
mod plays;
mod runs;

pub use jobs::JOBS;
pub use plays::PLAYS;
pub use runs::RUNS;
