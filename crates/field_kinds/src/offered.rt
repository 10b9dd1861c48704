//! Fields of what the store does not offer: they may ask for nothing.

ghost use Rattle.std.specs.Prelude.{◌≡◌, codes, Err};
ghost use Rattle.serde_json.specs.Data.{Data, array};
ghost use Rattle.serde_json.specs.View.{view, items_view};
ghost use Rattle.json_shape.specs.Fields.{Gives, Fails, field};
ghost use Rattle.rule_table.specs.declared.fault.FaultKind.TheVariants as faults;
ghost use Rattle.b2_types.specs.Fault.{with_word};
ghost use Rattle.field_kinds.specs.Offered.{is_null, is_no_list, is_no_mode, is_no_encryption, idle};

use b2_base::{Or, Text};
use b2_types::Fault;
use rule_table::FaultKind;
use serde_json::Value;
use std::alloc::Global;

fn unsupported(alloc: Global, key: &str) -> Or<Fault>
    ensures { Fails {X = Data} result (Err (with_word faults.Unsupported key.now)) }
{
    match Text::copy(alloc, key) {
        Ok(key) => Or::Fault(Fault::with_word(FaultKind::Unsupported, key)),
        Err(_) => Or::Memory,
    }
}

fn is_no_array(items: &[Value]) -> bool
    ensures { result ≡ is_no_list (array (items_view items.now)) }
{
    items.is_empty()
}

fn is_no_list(value: &Value) -> bool
    ensures { result ≡ is_no_list (view value.now) }
{
    match value {
        Value::Null => true,
        Value::Array(items) => is_no_array(items),
        _ => false,
    }
}

/// A field of rules for other origins: null or an empty list.
#[tactic(auto, unfolding(crate::specs::Offered::idle))]
pub fn idle_list(alloc: Global, body: &Value, key: &str) -> Result<(), Or<Fault>>
    ensures { Gives (λ x. x) result (idle key.now is_no_list (view body.now)) }
{
    let Some(found) = body.get(key) else {
        return Ok(());
    };
    if is_no_list(found) {
        return Ok(());
    }
    Err(unsupported(alloc, key))
}

fn is_no_mode(value: &Value) -> bool
    ensures { result ≡ is_no_mode (field (codes "mode") (view value.now)) }
{
    match value.get("mode") {
        None | Some(Value::Null) => true,
        Some(Value::String(mode)) => mode.as_bytes() == b"none".as_slice(),
        Some(_) => false,
    }
}

fn is_no_encryption(value: &Value) -> bool
    ensures { result ≡ is_no_encryption (view value.now) }
{
    match value {
        Value::Null => true,
        Value::Object(_) => is_no_mode(value),
        _ => false,
    }
}

/// A field of encryption: null, or without a mode.
#[tactic(auto, unfolding(crate::specs::Offered::idle))]
pub fn idle_encryption(alloc: Global, body: &Value, key: &str) -> Result<(), Or<Fault>>
    ensures { Gives (λ x. x) result (idle key.now is_no_encryption (view body.now)) }
{
    let Some(found) = body.get(key) else {
        return Ok(());
    };
    if is_no_encryption(found) {
        return Ok(());
    }
    Err(unsupported(alloc, key))
}

/// A field of replication: null.
#[tactic(auto, unfolding(crate::specs::Offered::idle))]
pub fn idle_value(alloc: Global, body: &Value, key: &str) -> Result<(), Or<Fault>>
    ensures { Gives (λ x. x) result (idle key.now is_null (view body.now)) }
{
    match body.get(key) {
        None | Some(Value::Null) => Ok(()),
        Some(_) => Err(unsupported(alloc, key)),
    }
}
