//! Checks that a table has the shape of a scenario's.
ghost use Rattle.std.specs.Prelude.{◌≡◌, false};
ghost use Rattle.std.specs.List.{list_all};
ghost use Rattle.toml.specs.View.{view, items_view, table_view};
ghost use Rattle.sim_scenario.specs.Scenario.{data_of};
ghost use Rattle.sim_reseed.specs.Shape as shape;

use toml::{Table, Value};

fn is_plain(value: &Value) -> bool
    ensures { result ≡ shape.is_plain (view value.now) }
{
    value.is_str() || value.is_integer()
}

fn are_plain(table: &Table) -> bool
    ensures value { result ≡ shape.are_plain (table_view table.now) }
    ensures other { result ≡ false → shape.HasOther (table_view table.now) }
{
    for (_, value) in table.iter() {
        if !is_plain(value) {
            return false;
        }
    }
    true
}

fn is_element(value: &Value) -> bool
    ensures value { result ≡ shape.is_element (view value.now) }
    ensures other { result ≡ false → shape.IsOtherElement (view value.now) }
{
    match value.as_table() {
        Some(table) => are_plain(table),
        None => is_plain(value),
    }
}

fn are_elements(items: &[Value]) -> bool
    ensures value { result ≡ list_all (λ v. shape.is_element (view v)) items.now }
    ensures other { result ≡ false → shape.HasOtherElement (data_of (items_view items.now)) }
{
    for item in items {
        if !is_element(item) {
            return false;
        }
    }
    true
}

fn is_value(value: &Value) -> bool
    ensures value { result ≡ shape.is_value (view value.now) }
    ensures other { result ≡ false → shape.IsOtherValue (view value.now) }
{
    match value.as_array() {
        Some(items) => are_elements(items.as_slice()),
        None => is_plain(value),
    }
}

/// Returns whether each value is a string, a whole number, or an array of these and of tables of
/// these.
pub fn is_shallow(table: &Table) -> bool
    ensures value { result ≡ shape.is_shallow (table_view table.now) }
    ensures other { result ≡ false → shape.HasOtherValue (table_view table.now) }
{
    for (_, value) in table.iter() {
        if !is_value(value) {
            return false;
        }
    }
    true
}
