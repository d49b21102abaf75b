//! The answer of a search or a sweep, and its line.
ghost use Rattle.std.specs.Prelude.{◌≡◌, ◌++◌, Some, Err, IfOk, OnErr, codes, string_bytes};
ghost use Rattle.serde_json.specs.View.{view};
ghost use Rattle.serde_json.specs.Written.{compact_text};
ghost use Rattle.sim_hunt.specs.Answers.{answer_text, answer_words, at_place, at_seed};
ghost use Rattle.sim_hunt.specs.Answers.{optional, status_of, swept_value, Tells};

use crate::Status;
use serde_json::{Value, json};
use sim_node::NoMemory;
use sim_search::SearchFault;
use std::alloc::Global;
use std::fmt;

/// The answer of a search or a sweep.
#[derive(Clone, Copy)]
pub enum Answer {
    /// The condition fails at this place, and at none before it in the range.
    Place(u32),
    /// The first seed with a failing place among those that are tested, and its first such place.
    Seed(u64, u32),
    /// The condition fails at no place that is tested.
    Nowhere,
    /// The places, the seeds, the events or the spacing of faults are not within the limits.
    BadRange,
    /// The words are no condition, or the scenario has no such host or probe.
    BadCondition,
    /// A line of the script is at fault. It is reported on standard error, and no line is written.
    BadScript,
}

impl fmt::Display for Answer {
    ghost output = { λ a. Some (answer_words a) };

    fn fmt<W: fmt::Write>(&self, f: &mut fmt::Formatter<W>) -> fmt::Result {
        match *self {
            Answer::Place(place) => write!(f, "first {place}"),
            Answer::Seed(seed, place) => write!(f, "seed {seed} place {place}"),
            Answer::Nowhere => write!(f, "none"),
            Answer::BadRange => write!(f, "bad range"),
            Answer::BadCondition => write!(f, "bad condition"),
            Answer::BadScript => write!(f, "bad script"),
        }
    }
}

impl Answer {
    /// Returns the status with which a hunt ends after its answer was written.
    pub fn status(self) -> Status
        ensures { result ≡ status_of self }
    {
        match self {
            Answer::BadRange | Answer::BadCondition | Answer::BadScript => Status::BadRequest,
            Answer::Place(_) | Answer::Seed(_, _) | Answer::Nowhere => Status::Well,
        }
    }
}

/// How an answer is written.
#[derive(Clone, Copy)]
pub enum Form {
    /// In words.
    Words,
    /// The result of a sweep as a JSON object, with the numbers of the sweep. The reason why there
    /// is no result is in words.
    Json(Swept),
}

/// The numbers of a sweep.
#[derive(Clone, Copy)]
pub struct Swept {
    /// The number of the first seed.
    pub first: u64,
    /// The number of seeds.
    pub count: u64,
    /// The most events of each run, without those of the script and of the quiet end.
    pub events: u64,
}

// Returns a number, or null.
fn optional(number: Option<u64>) -> Value
    ensures { view result ≡ optional number }
{
    match number {
        Some(number) => Value::from(number),
        None => Value::Null,
    }
}

// Returns the result of a sweep as a JSON value: the first seed and its first failing place, or
// none. Fails only for want of memory.
fn swept_value(
    alloc: Global,
    swept: Swept,
    seed: Option<u64>,
    place: Option<u64>,
) -> Result<Value, NoMemory>
    ensures { IfOk result (λ v. view v ≡ swept_value swept seed place) }
{
    json!(in alloc; {
        "count": swept.count,
        "events": swept.events,
        "first": swept.first,
        "place": optional(place),
        "seed": optional(seed),
    })
}

// Returns the same as a line.
fn swept_line(
    alloc: Global,
    swept: Swept,
    seed: Option<u64>,
    place: Option<u64>,
) -> Result<String, NoMemory>
    ensures { IfOk result (λ s. string_bytes s
        ≡ compact_text (swept_value swept seed place) ++ codes "\n") }
{
    let mut line = swept_value(alloc, swept, seed, place)?.to_string(alloc)?;
    line.push('\n')?;
    Ok(line)
}

/// Returns the line of an answer. Fails only for want of memory.
pub fn line_of(alloc: Global, form: Form, answer: Answer) -> Result<String, NoMemory>
    ensures { IfOk result (λ s. string_bytes s ≡ answer_text form answer ++ codes "\n") }
{
    match (form, answer) {
        (Form::Json(swept), Answer::Seed(seed, place)) => {
            swept_line(alloc, swept, Some(seed), Some(u64::from(place)))
        }
        (Form::Json(swept), Answer::Nowhere) => swept_line(alloc, swept, None, None),
        _ => format!(in alloc; "{answer}\n"),
    }
}

/// Returns the answer of a search. Fails only for want of memory.
pub fn of_search(found: Result<Option<u32>, SearchFault>) -> Result<Answer, NoMemory>
    ensures told { IfOk result (Tells at_place found) }
    ensures wants { OnErr result (found ≡ Err SearchFault.NoMemory) }
{
    match found {
        Ok(Some(place)) => Ok(Answer::Place(place)),
        Ok(None) => Ok(Answer::Nowhere),
        Err(SearchFault::BadRange) => Ok(Answer::BadRange),
        Err(SearchFault::BadCondition) => Ok(Answer::BadCondition),
        Err(SearchFault::NoMemory) => Err(NoMemory),
    }
}

/// Returns the answer of a sweep. Fails only for want of memory.
pub fn of_sweep(found: Result<Option<(u64, u32)>, SearchFault>) -> Result<Answer, NoMemory>
    ensures told { IfOk result (Tells at_seed found) }
    ensures wants { OnErr result (found ≡ Err SearchFault.NoMemory) }
{
    match found {
        Ok(Some((seed, place))) => Ok(Answer::Seed(seed, place)),
        Ok(None) => Ok(Answer::Nowhere),
        Err(SearchFault::BadRange) => Ok(Answer::BadRange),
        Err(SearchFault::BadCondition) => Ok(Answer::BadCondition),
        Err(SearchFault::NoMemory) => Err(NoMemory),
    }
}
