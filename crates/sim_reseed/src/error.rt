//! Why a scenario has no numbered text, or begins no input.
use std::alloc::AllocError;
use thiserror::Error;

/// Why a scenario has no numbered text, or begins no input.
#[derive(Clone, Copy, Debug, PartialEq, Eq, Error)]
pub enum ReseedError {
    /// The text is no scenario, for any list of protocols.
    #[error("the text is no scenario")]
    NoScenario,
    /// The text with the other seed has more than 65,536 bytes.
    #[error("the text is longer than 65,536 bytes")]
    TooLong,
    /// A line of the scenario's text is the marker `---`.
    #[error("the scenario has a line `---`")]
    HasMarker,
    #[error("out of memory")]
    NoMemory,
}

impl From<AllocError> for ReseedError {
    ghost use Rattle.std.specs.Prelude.{◌≡◌};
    ghost use Rattle.sim_reseed.specs.declared.error.ReseedError.TheVariants as reseed;

    ghost from_gives = { λ _ e. e ≡ reseed.NoMemory };

    fn from(_error: AllocError) -> ReseedError {
        ReseedError::NoMemory
    }
}
