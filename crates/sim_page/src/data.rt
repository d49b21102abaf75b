//! The data of a page: one JSON object without any `<`.
ghost use Rattle.std.specs.List.{list_all};
ghost use Rattle.std.specs.Prelude.{◌≢◌, ◌==◌, not, All, IfOk, IsTrue};
ghost use Rattle.sim_page.specs.Between.{IsBetween};

use serde_json::{Number, Value};
use sim_node::NoMemory;
use std::alloc::Global;

/// Writes each `<` of a JSON text as `\u003c`. Within a string both mean the same, and elsewhere
/// JSON has no `<`. Fails only for want of memory.
fn escaped(alloc: Global, json: &[u8]) -> Result<Vec<u8>, NoMemory>
    ensures { IfOk result (λ text. All (λ b. b ≢ 60) text.items) }
{
    let mut text = Vec::with_capacity(alloc, json.len())?;
    for byte in json {
        if *byte == b'<' {
            text.extend_from_slice(b"\\u003c")?;
        } else {
            text.push(*byte)?;
        }
    }
    Ok(text)
}

/// JSON that is being made. It has no `<`.
#[derive(Drop)]
pub(crate) struct Data {
    alloc: Global,
    bytes: Vec<u8>,
    ghost no_less: { All (λ b. b ≢ 60) bytes.items },
}

impl Data {
    pub(crate) fn new(alloc: Global) -> Data {
        Data {
            alloc,
            bytes: Vec::new(alloc),
        }
    }

    /// Adds a fixed text.
    pub(crate) fn put(&mut self, text: &str) -> Result<(), NoMemory>
        requires { IsTrue (list_all (λ b. not (b == 60)) text.now) }
    {
        self.bytes.extend_from_slice(text.as_bytes())
    }

    /// Adds a text of JSON.
    pub(crate) fn json(&mut self, json: &str) -> Result<(), NoMemory> {
        let text = escaped(self.alloc, json.as_bytes())?;
        self.bytes.extend_from_slice(text.as_slice())
    }

    /// Adds a value.
    pub(crate) fn value(&mut self, value: &Value) -> Result<(), NoMemory> {
        let json = value.to_string(self.alloc)?;
        self.json(json.as_str())
    }

    /// Adds a member to the object, after a comma.
    pub(crate) fn member(&mut self, name: &str, value: &Value) -> Result<(), NoMemory>
        requires { IsTrue (list_all (λ b. not (b == 60)) name.now) }
    {
        self.put(",\n\"")?;
        self.put(name)?;
        self.put("\":")?;
        self.value(value)
    }

    /// Adds rows after others: each on a line of its own, after a comma.
    pub(crate) fn more_rows(&mut self, rows: &[String]) -> Result<(), NoMemory> {
        for row in rows {
            self.put(",\n")?;
            self.json(row.as_str())?;
        }
        Ok(())
    }

    /// Puts the data between two texts. The data has no `<`.
    pub(crate) fn between(&self, before: &[u8], after: &[u8]) -> Result<Vec<u8>, NoMemory>
        ensures { IfOk result (λ text. IsBetween before.now after.now text.items) }
    {
        let mut text = Vec::new(self.alloc);
        text.extend_from_slice(before)?;
        text.extend_from_slice(self.bytes.as_slice())?;
        text.extend_from_slice(after)?;
        Ok(text)
    }
}

/// Makes a text a value.
pub(crate) fn string(alloc: Global, text: &str) -> Result<Value, NoMemory> {
    Ok(Value::String(String::from_str(alloc, text)?))
}

/// Makes a number a value.
pub(crate) fn number(number: u64) -> Value {
    Value::Number(Number::from(number))
}
