//! The kept events of a branch as JSON.
ghost use Rattle.std.specs.Prelude.{◌≡◌, ◌++◌, IfOk, OnOk, map};
ghost use Rattle.serde_json.specs.View.{view};
ghost use Rattle.sim_answers.specs.Trace.{event_value as value_of, trace_value as branch_value};
ghost use Rattle.sim_answers.specs.Trace.{trace_words};

use crate::event::event_value;
use serde_json::{Value, json};
use sim_script::Names;
use sim_tape::EventList;
use std::alloc::{AllocError, Global};

/// Returns the events as JSON strings, in order.
fn event_values(alloc: Global, names: &Names, events: &EventList) -> Result<Vec<Value>, AllocError>
    ensures { IfOk result (λ v. map view v.items ≡ map (value_of names.now) events.now) }
{
    let mut values = Vec::new(alloc);
    for i in 0..events.len() {
        if let Some(event) = events.get(i) {
            values.push(event_value(alloc, names, event)?)?;
        }
    }
    Ok(values)
}

/// Returns the kept events of a branch as one JSON value.
fn trace_value(
    alloc: Global,
    names: &Names,
    branch: u32,
    events: &EventList,
) -> Result<Value, AllocError>
    ensures { IfOk result (λ v. view v ≡ branch_value names.now branch events.now) }
{
    let values = Value::Array(event_values(alloc, names, events)?);
    json!(in alloc; {"branch": branch, "events": values})
}

/// Adds the kept events of a branch to the text, as JSON.
#[tactic(auto, unfolding(sim_answers::specs::Trace::trace_words))]
pub fn tell_trace(
    alloc: Global,
    text: &mut Vec<u8>,
    names: &Names,
    branch: u32,
    events: &EventList,
) -> Result<(), AllocError>
    ensures { OnOk result (text.new.items ≡ text.old.items
        ++ trace_words names.now branch events.now) }
{
    let trace = trace_value(alloc, names, branch, events)?.to_string(alloc)?;
    text.extend_from_slice(trace.as_bytes())
}
