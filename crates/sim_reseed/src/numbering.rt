//! The text of a scenario with the seed of a numbered run.
ghost use Rattle.std.specs.Prelude.{◌≡◌, ◌≢◌, ◌≤◌, List, length, codes, IfOk, IfErr, IfSome, OnOk};
ghost use Rattle.std.specs.Prelude.{None, Some, string_bytes, true, false};
ghost use Rattle.toml.specs.Data.{get_member};
ghost use Rattle.toml.specs.Parse.{parse_document};
ghost use Rattle.toml.specs.Text.{IsDocumentText};
ghost use Rattle.toml.specs.View.{table_view};
ghost use Rattle.sim_scenario.specs.Scenario.{Protocol, read, is_seed, string_fault};
ghost use Rattle.sim_reseed.specs.Input.{ends_its_lines};
ghost use Rattle.sim_reseed.specs.Numbered as numbered;
ghost use Rattle.sim_reseed.specs.Shape as shape;
ghost use Rattle.sim_reseed.specs.Refused.{IsNoScenario, IsLong, IsWritten, Refuses};

use crate::error::ReseedError;
use crate::shape::is_shallow;
use std::alloc::Global;
use toml::{Table, Value};

/// The greatest length of the text of a scenario (bytes).
const MAX_TEXT: usize = 65_536;

// The bytes of a seed.
#[derive(Clone, Copy)]
struct Seed {
    bytes: [u8; 32],
}

// Returns the seed of run number `i` of a sweep: bytes 24 to 31 are those of `i`, low byte first.
fn numbered_seed(seed: [u8; 32], i: u64) -> [u8; 32]
    ensures { result ≡ numbered.numbered_seed i seed }
{
    let mut numbered = Seed { bytes: seed };
    numbered.bytes[24..].copy_from_slice(&i.to_le_bytes());
    numbered.bytes
}

// Reads the table of a text that may be a scenario.
fn read_table(alloc: Global, text: &str) -> Result<Table, ReseedError>
    ensures short { OnOk result (length text.now ≤ 65536) }
    ensures parsed { IfOk result (λ table. parse_document text.now ≡ Some (table_view table)) }
    ensures shallow { IfOk result (λ table. shape.is_shallow (table_view table) ≡ true) }
    ensures refused { IfErr result (λ e. e ≢ ReseedError.NoMemory →
        (e ≡ ReseedError.NoScenario) × IsNoScenario text.now) }
{
    if text.len() > MAX_TEXT {
        return Err(ReseedError::NoScenario);
    }
    let table = match toml::table_from_str(alloc, text) {
        Ok(table) => table,
        Err(error) if error.is_memory() => return Err(ReseedError::NoMemory),
        Err(_) => return Err(ReseedError::NoScenario),
    };
    if is_shallow(&table) {
        Ok(table)
    } else {
        Err(ReseedError::NoScenario)
    }
}

// Returns the seed of a table, if it is 64 hexadecimal digits.
fn seed_of(table: &Table) -> Option<[u8; 32]>
    ensures found { IfSome result (λ seed. numbered.HasSeed (table_view table.now) seed) }
    ensures none { result ≡ None →
        string_fault is_seed 6 (get_member (codes "seed") (table_view table.now)) ≢ None }
{
    let value = table.get("seed")?;
    let digits = value.as_str()?;
    let mut seed = [0; 32];
    match hex::decode_to_slice(digits, &mut seed) {
        Ok(()) => Some(seed),
        Err(_) => None,
    }
}

// Replaces the seed of a table.
fn set_seed(alloc: Global, table: &mut Table, seed: [u8; 32]) -> Result<(), ReseedError>
    ensures set { OnOk result (
        table_view table.new ≡ numbered.with_seed seed (table_view table.old)) }
    ensures refused { IfErr result (λ e. e ≡ ReseedError.NoMemory) }
{
    let digits = hex::encode(alloc, seed)?;
    if let Some(value) = table.get_mut("seed") {
        *value = Value::String(digits);
    }
    Ok(())
}

// Returns the text of a table, unless it is too long for a scenario.
fn print(alloc: Global, table: &Table) -> Result<String, ReseedError>
    requires { shape.is_shallow (table_view table.now) ≡ true }
    ensures short { IfOk result (λ text. length (string_bytes text) ≤ 65536) }
    ensures written { IfOk result (λ text.
        IsDocumentText false (table_view table.now) (string_bytes text)) }
    ensures parsed { IfOk result (λ text.
        parse_document (string_bytes text) ≡ Some (table_view table.now)) }
    ensures refused { IfErr result (λ e. e ≢ ReseedError.NoMemory →
        (e ≡ ReseedError.TooLong) × IsLong (table_view table.now)) }
{
    // A table of this shape has no dates, so the only error is want of memory.
    let Ok(text) = toml::table_to_string(alloc, table) else {
        return Err(ReseedError::NoMemory);
    };
    if text.len() > MAX_TEXT {
        return Err(ReseedError::TooLong);
    }
    Ok(text)
}

/// Returns the text of a scenario with the seed of run number `number` of a sweep.
///
/// The text is printed from the table that was read: the keys are in the order of their bytes, and
/// comments are lost. For every list of protocols it is read as the scenario of `text` with the
/// other seed, or with the fault of `text`.
///
/// Fails with `NoScenario` only if no list of protocols makes `text` a scenario, and with `TooLong`
/// only if the text with the other seed has more than 65,536 bytes.
pub fn numbered_text(alloc: Global, text: &str, number: u64) -> Result<String, ReseedError>
    ensures reads { IfOk result (λ t. (protocols : List Protocol) →
        read protocols (string_bytes t)
        ≡ numbered.numbered_reading number (read protocols text.now)) }
    ensures written { IfOk result (λ t. IsWritten number text.now (string_bytes t)) }
    ensures short { IfOk result (λ t. length (string_bytes t) ≤ 65536) }
    ensures lines { IfOk result (λ t. ends_its_lines (string_bytes t) ≡ true) }
    ensures refused { IfErr result (Refuses number text.now) }
{
    let mut table = read_table(alloc, text)?;
    let Some(seed) = seed_of(&table) else {
        return Err(ReseedError::NoScenario);
    };
    set_seed(alloc, &mut table, numbered_seed(seed, number))?;
    print(alloc, &table)
}
