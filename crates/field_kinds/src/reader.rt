//! Fields of a request's object by their keys.

ghost use Rattle.std.specs.Prelude.{◌≡◌, ℕ, List, Option, IfOk, option_map};
ghost use Rattle.serde_json.specs.Data.{Data};
ghost use Rattle.serde_json.specs.View.{view};
ghost use Rattle.json_shape.specs.Fields.{Gives, number_within, field};
ghost use Rattle.field_kinds.specs.Reader.{needed, optional, missing, wrong, if_null};

use b2_base::{Memory, Or, Text};
use b2_types::Fault;
use rule_table::FaultKind;
use serde_json::Value;
use std::alloc::Global;

/// A kind of fields.
pub trait FromJson: Sized {
    /// What a value of JSON is as such a field.
    ghost kind: { Data → Option Self };

    /// What the value is, where it is such a field.
    fn from_json(alloc: Global, value: &Value) -> Result<Option<Self>, Memory>
        ensures { IfOk result (λ found. found ≡ kind (view value.now)) };
}

/// The field is not there, or null.
pub fn missing(alloc: Global, key: &str) -> Result<Fault, Memory>
    ensures { IfOk result (λ f. f ≡ missing key.now) }
{
    let key = Text::copy(alloc, key)?;
    Ok(Fault::with_word(FaultKind::Missing, key))
}

/// The field is of another kind, or past its limits.
pub fn wrong(alloc: Global, key: &str) -> Result<Fault, Memory>
    ensures { IfOk result (λ f. f ≡ wrong key.now) }
{
    let key = Text::copy(alloc, key)?;
    Ok(Fault::with_word(FaultKind::Wrong, key))
}

/// The field at the key.
pub fn needed<T: FromJson>(alloc: Global, body: &Value, key: &str) -> Result<T, Or<Fault>>
    ensures { Gives (λ x. x) result (needed key.now T.kind (view body.now)) }
{
    let found = match body.get(key) {
        None | Some(Value::Null) => return Err(Or::Fault(missing(alloc, key)?)),
        Some(found) => found,
    };
    match T::from_json(alloc, found)? {
        Some(value) => Ok(value),
        None => Err(Or::Fault(wrong(alloc, key)?)),
    }
}

/// The field at the key, where it is there.
pub fn optional<T: FromJson>(alloc: Global, body: &Value, key: &str) -> Result<Option<T>, Or<Fault>>
    ensures { Gives (λ x. x) result (optional key.now T.kind (view body.now)) }
{
    let found = match body.get(key) {
        None | Some(Value::Null) => return Ok(None),
        Some(found) => found,
    };
    match T::from_json(alloc, found)? {
        Some(value) => Ok(Some(value)),
        None => Err(Or::Fault(wrong(alloc, key)?)),
    }
}

/// The whole number at the key, from `low` to `high`.
pub fn needed_number(
    alloc: Global,
    body: &Value,
    key: &str,
    low: u64,
    high: u64,
) -> Result<u64, Or<Fault>>
    ensures { Gives (λ x. x) result (needed key.now (number_within low high) (view body.now)) }
{
    let found = match body.get(key) {
        None | Some(Value::Null) => return Err(Or::Fault(missing(alloc, key)?)),
        Some(found) => found,
    };
    match found.as_u64() {
        Some(number) if low <= number && number <= high => Ok(number),
        _ => Err(Or::Fault(wrong(alloc, key)?)),
    }
}

/// The whole number of 32 bits at the key, from `low` to `high`.
pub fn needed_u32(
    alloc: Global,
    body: &Value,
    key: &str,
    low: u32,
    high: u32,
) -> Result<u32, Or<Fault>>
    ensures { Gives (λ x. x) result (needed key.now (number_within low high) (view body.now)) }
{
    let found = match body.get(key) {
        None | Some(Value::Null) => return Err(Or::Fault(missing(alloc, key)?)),
        Some(found) => found,
    };
    match found.as_u64() {
        Some(number) if u64::from(low) <= number && number <= u64::from(high) => Ok(number as u32),
        _ => Err(Or::Fault(wrong(alloc, key)?)),
    }
}

/// The whole number of 32 bits at the key, from `low` to `high`, where it is there.
pub fn optional_u32(
    alloc: Global,
    body: &Value,
    key: &str,
    low: u32,
    high: u32,
) -> Result<Option<u32>, Or<Fault>>
    ensures { Gives (λ x. x) result (optional key.now (number_within low high) (view body.now)) }
{
    let found = match body.get(key) {
        None | Some(Value::Null) => return Ok(None),
        Some(found) => found,
    };
    match found.as_u64() {
        Some(number) if u64::from(low) <= number && number <= u64::from(high) => {
            Ok(Some(number as u32))
        }
        _ => Err(Or::Fault(wrong(alloc, key)?)),
    }
}

/// The whole number at the key, from `low` to `high`, where it is there.
pub fn optional_number(
    alloc: Global,
    body: &Value,
    key: &str,
    low: u64,
    high: u64,
) -> Result<Option<u64>, Or<Fault>>
    ensures { Gives (λ x. x) result (optional key.now (number_within low high) (view body.now)) }
{
    let found = match body.get(key) {
        None | Some(Value::Null) => return Ok(None),
        Some(found) => found,
    };
    match found.as_u64() {
        Some(number) if low <= number && number <= high => Ok(Some(number)),
        _ => Err(Or::Fault(wrong(alloc, key)?)),
    }
}
