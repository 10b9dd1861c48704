//! Fields of an object by their keys.

ghost use Rattle.std.specs.Prelude.{◌≡◌, ◌↔◌, ◌≢◌, IsTrue, IfOk, Err, string_bytes};
ghost use Rattle.serde_json.specs.Data.{Data, null};
ghost use Rattle.serde_json.specs.View.{view, items_view};
ghost use Rattle.serde_json.specs.Find.{as_str, as_bool, as_array};
ghost use Rattle.json_shape.specs.Fields.{Gives, Fails, needed_field, field, number_within, object_alone};
ghost use Rattle.json_shape.specs.declared.fields.FieldFault.TheVariants.{Missing, Wrong};

use b2_base::{Memory, Or, Text};
use serde_json::Value;
use std::alloc::Global;

/// Why a field can't be read; each names the key.
#[derive(Debug, Drop)]
pub enum FieldFault {
    /// The key isn't there, or its value is null.
    Missing(Text),
    /// The value is of another kind, or outside its bounds.
    Wrong(Text),
}

fn missing_field(alloc: Global, key: &str) -> Or<FieldFault>
    ensures { Fails {X = Data} result (Err (Missing key.now)) }
{
    match Text::copy(alloc, key) {
        Ok(key) => Or::Fault(FieldFault::Missing(key)),
        Err(Memory) => Or::Memory,
    }
}

fn wrong_field(alloc: Global, key: &str) -> Or<FieldFault>
    ensures { Fails {X = Data} result (Err (Wrong key.now)) }
{
    match Text::copy(alloc, key) {
        Ok(key) => Or::Fault(FieldFault::Wrong(key)),
        Err(Memory) => Or::Memory,
    }
}

/// Whether the key is there with another value than null.
pub fn present(value: &Value, key: &str) -> bool
    ensures { IsTrue result ↔ (field key.now (view value.now) ≢ null) }
{
    match value.get(key) {
        None | Some(Value::Null) => false,
        Some(_) => true,
    }
}

/// The text at the key.
pub fn text_field(alloc: Global, value: &Value, key: &str) -> Result<Text, Or<FieldFault>>
    ensures { Gives (λ t. t) result (needed_field as_str key.now (view value.now)) }
{
    match value.get(key) {
        None | Some(Value::Null) => Err(missing_field(alloc, key)),
        Some(Value::String(text)) => Ok(Text::copy(alloc, text)?),
        Some(_) => Err(wrong_field(alloc, key)),
    }
}

/// The whole number at the key, where it is from `low` to `high`. A number that is written with a
/// point or an exponent is none.
pub fn number_field(
    alloc: Global,
    value: &Value,
    key: &str,
    low: u64,
    high: u64,
) -> Result<u64, Or<FieldFault>>
    ensures { Gives (λ n. n) result
        (needed_field (number_within low high) key.now (view value.now)) }
{
    let found = match value.get(key) {
        None | Some(Value::Null) => return Err(missing_field(alloc, key)),
        Some(found) => found,
    };
    match found.as_u64() {
        Some(number) if low <= number && number <= high => Ok(number),
        _ => Err(wrong_field(alloc, key)),
    }
}

/// The values of the list at the key.
pub fn list_field(alloc: Global, value: &Value, key: &str) -> Result<Vec<Value>, Or<FieldFault>>
    ensures { Gives (λ v. items_view v.items) result
        (needed_field as_array key.now (view value.now)) }
{
    match value.get(key) {
        None | Some(Value::Null) => Err(missing_field(alloc, key)),
        Some(found) if found.is_array() => match found.clone()? {
            Value::Array(items) => Ok(items),
            _ => unreachable!(),
        },
        Some(_) => Err(wrong_field(alloc, key)),
    }
}

/// The flag at the key.
pub fn flag_field(alloc: Global, value: &Value, key: &str) -> Result<bool, Or<FieldFault>>
    ensures { Gives (λ b. b) result (needed_field as_bool key.now (view value.now)) }
{
    match value.get(key) {
        None | Some(Value::Null) => Err(missing_field(alloc, key)),
        Some(Value::Bool(flag)) => Ok(*flag),
        Some(_) => Err(wrong_field(alloc, key)),
    }
}

/// The object at the key.
pub fn object_field(alloc: Global, value: &Value, key: &str) -> Result<Value, Or<FieldFault>>
    ensures { Gives view result (needed_field object_alone key.now (view value.now)) }
{
    match value.get(key) {
        None | Some(Value::Null) => Err(missing_field(alloc, key)),
        Some(found) if found.is_object() => Ok(found.clone()?),
        Some(_) => Err(wrong_field(alloc, key)),
    }
}
