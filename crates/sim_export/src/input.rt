//! The input that makes the events of a run.
ghost use Rattle.std.specs.Prelude.{IfOk, string_bytes};
ghost use Rattle.sim_export.specs.Exports.{Makes};

use sim_input::{LineError, script};
use sim_reseed::{ReseedError, join_input};
use sim_script::Names;
use sim_world::Event;
use std::alloc::{AllocError, Global};

/// Why a run has no input.
#[derive(Clone, Copy, Debug)]
pub enum InputError {
    NoInput,
    NoMemory,
}

impl From<AllocError> for InputError {
    ghost use Rattle.std.specs.Prelude.{◌≡◌};
    ghost use Rattle.sim_export.specs.declared.input.InputError.TheVariants as input;

    ghost from_gives = { λ _ e. e ≡ input.NoMemory };

    fn from(_error: AllocError) -> InputError {
        InputError::NoMemory
    }
}

impl From<LineError> for InputError {
    ghost use Rattle.std.specs.Prelude.{◌≡◌};
    ghost use Rattle.sim_export.specs.Exports.{no_input_by_line};

    ghost from_gives = { λ error e. e ≡ no_input_by_line error };

    fn from(error: LineError) -> InputError {
        match error {
            LineError::NoLine => InputError::NoInput,
            LineError::NoMemory => InputError::NoMemory,
        }
    }
}

impl From<ReseedError> for InputError {
    ghost use Rattle.std.specs.Prelude.{◌≡◌};
    ghost use Rattle.sim_export.specs.Exports.{no_input_by_scenario};

    ghost from_gives = { λ error e. e ≡ no_input_by_scenario error };

    fn from(error: ReseedError) -> InputError {
        match error {
            ReseedError::NoMemory => InputError::NoMemory,
            _ => InputError::NoInput,
        }
    }
}

/// Returns the input that makes these events, if each name is read as its host: the text of a
/// scenario with a line end after its last line, a line `---`, and a line of script for each event.
pub fn input_of(
    alloc: Global,
    scenario: &str,
    names: &Names,
    events: &[Event],
) -> Result<String, InputError>
    ensures makes { IfOk result (λ t. Makes scenario.now names.now events.now (string_bytes t)) }
{
    let script = script(alloc, names, events)?;
    let input = join_input(alloc, scenario, script.as_str())?;
    Ok(input)
}
