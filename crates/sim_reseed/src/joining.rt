//! Inputs for a play.
ghost use Rattle.std.specs.Prelude.{◌≡◌, ◌≢◌, IfOk, IfErr, List, string_bytes, false, true};
ghost use Rattle.sim_lines.specs.Cut.{head_of};
ghost use Rattle.sim_lines.specs.Cut as cut;
ghost use Rattle.sim_scenario.specs.Scenario.{Protocol, read};
ghost use Rattle.sim_reseed.specs.Numbered.{numbered_reading};
ghost use Rattle.sim_reseed.specs.Refused.{RefusesInput};
ghost use Rattle.sim_reseed.specs.Input as texts;

use crate::error::ReseedError;
use crate::numbering::numbered_text;
use std::alloc::{AllocError, Global};

fn is_marker(line: &str) -> bool
    ensures { result ≡ cut.is_marker line.now }
{
    line == "---"
}

// Returns whether some line of a text is the marker.
fn has_marker(text: &str) -> bool
    ensures { result ≡ texts.has_marker text.now }
{
    text.lines().any(is_marker)
}

/// Returns whether a text is empty or ends with a line end.
pub fn ends_its_lines(text: &str) -> bool
    ensures { result ≡ texts.ends_its_lines text.now }
{
    match text.as_bytes().last() {
        Some(last) => *last == b'\n',
        None => true,
    }
}

// Copies a text, with a line end after its last line.
fn with_line_end(alloc: Global, text: &str) -> Result<String, AllocError>
    ensures { IfOk result (λ whole. string_bytes whole ≡ texts.with_line_end text.now) }
{
    let mut whole = String::from_str(alloc, text)?;
    if !ends_its_lines(text) {
        whole.push('\n')?;
    }
    Ok(whole)
}

/// Returns the input of a play: the text of a scenario, a line `---` and a script. Adds a line end
/// to the scenario if its last line has none.
///
/// Fails with `HasMarker` if a line of the scenario is `---`, which would end it there.
pub fn join_input(alloc: Global, scenario: &str, script: &str) -> Result<String, ReseedError>
    ensures cut { IfOk result (λ input.
        head_of (string_bytes input) ≡ (texts.with_line_end scenario.now, script.now)) }
    ensures plain { IfOk result (λ _.
        texts.has_marker (texts.with_line_end scenario.now) ≡ false) }
    ensures refused { IfErr result (λ e. e ≢ ReseedError.NoMemory → (e ≡ ReseedError.HasMarker)
        × (texts.has_marker (texts.with_line_end scenario.now) ≡ true)) }
{
    let mut text = with_line_end(alloc, scenario)?;
    if has_marker(text.as_str()) {
        return Err(ReseedError::HasMarker);
    }
    text.push_str("---\n")?;
    text.push_str(script)?;
    Ok(text)
}

/// Returns the input of a play of run number `number` of a sweep: the text of the scenario with
/// that run's seed, a line `---` and a script.
///
/// Fails as [`numbered_text`] does, and with `HasMarker` if a line of its text is `---`.
pub fn numbered_input(
    alloc: Global,
    text: &str,
    number: u64,
    script: &str,
) -> Result<String, ReseedError>
    ensures reads { IfOk result (λ input. (protocols : List Protocol) →
        read protocols (head_of (string_bytes input)).0
        ≡ numbered_reading number (read protocols text.now)) }
    ensures follows { IfOk result (λ input. (head_of (string_bytes input)).1 ≡ script.now) }
    ensures refused { IfErr result (RefusesInput number text.now) }
{
    let scenario = numbered_text(alloc, text, number)?;
    join_input(alloc, scenario.as_str(), script)
}
