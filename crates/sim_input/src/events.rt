//! The lines of a script for the events of a run.
ghost use Rattle.std.specs.Prelude.{◌≡◌, ◌++◌, List, codes, map, IfOk, IfErr, OnOk, None, Some};
ghost use Rattle.std.specs.Prelude.{string_bytes};
ghost use Rattle.std.specs.Str.Lines.{lines};
ghost use Rattle.sim_script.specs.Script.{script_line};
ghost use Rattle.sim_script.specs.Words.{Text};
ghost use Rattle.sim_script.specs.declared.script.ScriptLine.TheVariants.{Asked};
ghost use Rattle.sim_input.specs.Events.{event_lines, text_of};
ghost use Rattle.sim_input.specs.Events.{AreRead, event_line, fault_line, on_host, on_hosts};
ghost use Rattle.sim_input.specs.Events.{command_of};

use sim_script::Names;
use sim_world::{Event, Fault};
use std::alloc::{AllocError, Global};

/// Why an event or a condition is not written.
#[derive(Clone, Copy, Debug)]
pub enum LineError {
    /// No words are read as it: an advance of the clock, a condition with no term or with a number
    /// of 20 digits, or one that names a host or a probe that has no name.
    NoLine,
    NoMemory,
}

impl From<AllocError> for LineError {
    ghost use Rattle.sim_input.specs.declared.events.LineError.TheVariants as line_error;

    ghost from_gives = { λ _ e. e ≡ line_error.NoMemory };

    fn from(_error: AllocError) -> LineError {
        LineError::NoMemory
    }
}

// Adds a word and the name of a host.
fn push_one(text: &mut String, names: &Names, word: &str, host: u16) -> Result<(), LineError>
    ensures written { OnOk result ((line : Text) × (on_host names.now word.now host ≡ Some line)
        × (string_bytes text.new ≡ string_bytes text.old ++ line)) }
    ensures refused { IfErr result (λ e. e ≡ LineError.NoLine →
        on_host names.now word.now host ≡ None) }
{
    let name = names.host_name(host);
    if name.is_empty() {
        return Err(LineError::NoLine);
    }
    text.push_str(word)?;
    text.push(' ')?;
    text.push_str(name)?;
    Ok(())
}

// Adds a word and the names of two hosts.
fn push_two(
    text: &mut String,
    names: &Names,
    word: &str,
    first: u16,
    second: u16,
) -> Result<(), LineError>
    ensures written { OnOk result ((line : Text)
        × (on_hosts names.now word.now first second ≡ Some line)
        × (string_bytes text.new ≡ string_bytes text.old ++ line)) }
    ensures refused { IfErr result (λ e. e ≡ LineError.NoLine →
        on_hosts names.now word.now first second ≡ None) }
{
    let one = names.host_name(first);
    let other = names.host_name(second);
    if one.is_empty() || other.is_empty() {
        return Err(LineError::NoLine);
    }
    text.push_str(word)?;
    text.push(' ')?;
    text.push_str(one)?;
    text.push(' ')?;
    text.push_str(other)?;
    Ok(())
}

// Adds the line of a fault, without its end.
fn push_fault(text: &mut String, names: &Names, fault: Fault) -> Result<(), LineError>
    ensures written { OnOk result ((line : Text) × (fault_line names.now fault ≡ Some line)
        × (string_bytes text.new ≡ string_bytes text.old ++ line)) }
    ensures refused { IfErr result (λ e. e ≡ LineError.NoLine →
        fault_line names.now fault ≡ None) }
{
    match fault {
        Fault::Crash(host) => push_one(text, names, "crash", host),
        Fault::Bounce(host) => push_one(text, names, "bounce", host),
        Fault::Hold(a, b) => push_two(text, names, "hold", a, b),
        Fault::Release(a, b) => push_two(text, names, "release", a, b),
        Fault::Cut(a, b) => push_two(text, names, "partition", a, b),
        Fault::Repair(a, b) => push_two(text, names, "repair", a, b),
        Fault::CutOneway(a, b) => push_two(text, names, "cutoneway", a, b),
        Fault::RepairOneway(a, b) => push_two(text, names, "repaironeway", a, b),
    }
}

/// Adds the line of a script that makes an event on branch 0, with its line end. If each name is
/// read as its host, the line is read as that command.
///
/// Fails with `NoLine` if no line makes the event; the text is then unchanged. After `NoMemory` it
/// may end with a part of the line.
pub fn push_event(text: &mut String, names: &Names, event: Event) -> Result<(), LineError>
    ensures written { OnOk result ((line : Text) × (event_line names.now event ≡ Some line)
        × (string_bytes text.new ≡ string_bytes text.old ++ line ++ codes "\n")) }
    ensures refused { IfErr result (λ e. e ≡ LineError.NoLine →
        event_line names.now event ≡ None) }
    ensures reads { AreRead names.now → (line : Text) → event_line names.now event ≡ Some line →
        script_line names.now line ≡ Asked (command_of event) }
{
    match event {
        Event::Step => text.push_str("step")?,
        Event::Advance(_) => return Err(LineError::NoLine),
        Event::Fault(fault) => push_fault(text, names, fault)?,
    }
    text.push('\n')?;
    Ok(())
}

/// Returns the script that makes the events on branch 0, a line for each. If each name is read as
/// its host, the lines are read as these commands, in order.
///
/// Fails with `NoLine` if some event has no line.
pub fn script(alloc: Global, names: &Names, events: &[Event]) -> Result<String, LineError>
    ensures written { IfOk result (λ text. (ls : List Text)
        × (event_lines names.now events.now ≡ Some ls) × (string_bytes text ≡ text_of ls)) }
    ensures refused { IfErr result (λ e. e ≡ LineError.NoLine →
        event_lines names.now events.now ≡ None) }
    ensures reads { AreRead names.now → IfOk result (λ text.
        map (script_line names.now) (lines (string_bytes text))
        ≡ map (λ e. Asked (command_of e)) events.now) }
{
    let mut text = String::new(alloc);
    for event in events {
        push_event(&mut text, names, *event)?;
    }
    Ok(text)
}
