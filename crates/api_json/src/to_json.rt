//! Values as JSON.

ghost use Rattle.std.specs.Prelude.{◌≡◌, IfOk, OnOk};
ghost use Rattle.serde_json.specs.Data.{Data, null, string, put as with_member};
ghost use Rattle.serde_json.specs.View.{view, members_view};
ghost use Rattle.wire_forms.specs.Body.{or_null, list_of, list_or_null, readable, unless_empty, no_items};

use b2_base::Memory;
use serde_json::{Map, Value, put};
use std::alloc::Global;

/// What has one form in JSON.
pub(crate) trait ToJson {
    /// The form of the value.
    ghost form: { Self → Data };

    /// The value in its form.
    fn to_json(&self, alloc: Global) -> Result<Value, Memory>
        ensures { IfOk result (λ v. view v ≡ form self.now) };
}

/// The values as a list.
pub(crate) fn list_of<T: ToJson>(alloc: Global, values: &[T]) -> Result<Value, Memory>
    ensures { IfOk result (λ v. view v ≡ list_of T.form values.now) }
{
    let mut list = Vec::new(alloc);
    for value in values {
        let json = value.to_json(alloc)?;
        list.push(json)?;
    }
    Ok(Value::Array(list))
}

/// The values as a list, or null where there are none.
pub(crate) fn list_or_null<T: ToJson>(alloc: Global, values: &[T]) -> Result<Value, Memory>
    ensures { IfOk result (λ v. view v ≡ list_or_null T.form values.now) }
{
    if values.is_empty() {
        return Ok(Value::Null);
    }
    let list = list_of(alloc, values)?;
    Ok(list)
}

/// The value, or null where there is none.
pub(crate) fn or_null<T: ToJson>(alloc: Global, value: &Option<T>) -> Result<Value, Memory>
    ensures { IfOk result (λ v. view v ≡ or_null T.form value.now) }
{
    match value {
        None => Ok(Value::Null),
        Some(value) => {
            let json = value.to_json(alloc)?;
            Ok(json)
        }
    }
}

/// Puts the value under the key.
pub(crate) fn put_field<T: ToJson>(
    map: &mut Map<String, Value>,
    alloc: Global,
    key: &str,
    value: &T,
) -> Result<(), Memory>
    ensures { OnOk result
        (members_view map.new.entries
        ≡ with_member key.now (T.form value.now) (members_view map.old.entries)) }
{
    let json = value.to_json(alloc)?;
    put(map, alloc, key, json)?;
    Ok(())
}

/// Puts the value, or null where there is none, under the key.
pub(crate) fn put_optional<T: ToJson>(
    map: &mut Map<String, Value>,
    alloc: Global,
    key: &str,
    value: &Option<T>,
) -> Result<(), Memory>
    ensures { OnOk result
        (members_view map.new.entries
        ≡ with_member key.now (or_null T.form value.now) (members_view map.old.entries)) }
{
    let json = or_null(alloc, value)?;
    put(map, alloc, key, json)?;
    Ok(())
}

/// Puts the list of the values under the key.
pub(crate) fn put_list<T: ToJson>(
    map: &mut Map<String, Value>,
    alloc: Global,
    key: &str,
    values: &[T],
) -> Result<(), Memory>
    ensures { OnOk result
        (members_view map.new.entries
        ≡ with_member key.now (list_of T.form values.now) (members_view map.old.entries)) }
{
    let json = list_of(alloc, values)?;
    put(map, alloc, key, json)?;
    Ok(())
}

/// Puts the list of the values, or null where there are none, under the key.
pub(crate) fn put_list_or_null<T: ToJson>(
    map: &mut Map<String, Value>,
    alloc: Global,
    key: &str,
    values: &[T],
) -> Result<(), Memory>
    ensures { OnOk result
        (members_view map.new.entries
        ≡ with_member key.now (list_or_null T.form values.now) (members_view map.old.entries)) }
{
    let json = list_or_null(alloc, values)?;
    put(map, alloc, key, json)?;
    Ok(())
}

/// Puts what not every key may read under the key.
pub(crate) fn put_readable<T: ToJson>(
    map: &mut Map<String, Value>,
    alloc: Global,
    key: &str,
    value: &Option<T>,
) -> Result<(), Memory>
    ensures { OnOk result
        (members_view map.new.entries
        ≡ with_member key.now (readable T.form value.now) (members_view map.old.entries)) }
{
    let mut inner = Map::new(alloc);
    put(
        &mut inner,
        alloc,
        "isClientAuthorizedToRead",
        Value::Bool(value.is_some()),
    )?;
    put_optional(&mut inner, alloc, "value", value)?;
    put(map, alloc, key, Value::Object(inner))?;
    Ok(())
}

/// Puts null under the key.
pub(crate) fn put_null(map: &mut Map<String, Value>, alloc: Global, key: &str) -> Result<(), Memory>
    ensures { OnOk result
        (members_view map.new.entries ≡ with_member key.now null (members_view map.old.entries)) }
{
    put(map, alloc, key, Value::Null)?;
    Ok(())
}

/// Puts an empty list under the key.
pub(crate) fn put_no_items(
    map: &mut Map<String, Value>,
    alloc: Global,
    key: &str,
) -> Result<(), Memory>
    ensures { OnOk result
        (members_view map.new.entries
        ≡ with_member key.now no_items (members_view map.old.entries)) }
{
    put(map, alloc, key, Value::Array(Vec::new(alloc)))?;
    Ok(())
}

/// Puts a text under the key.
pub(crate) fn put_text(
    map: &mut Map<String, Value>,
    alloc: Global,
    key: &str,
    text: &str,
) -> Result<(), Memory>
    ensures { OnOk result
        (members_view map.new.entries
        ≡ with_member key.now (string text.now) (members_view map.old.entries)) }
{
    let text = String::from_str(alloc, text)?;
    put(map, alloc, key, Value::String(text))?;
    Ok(())
}

/// Puts a text, or null where it is empty, under the key.
pub(crate) fn put_unless_empty(
    map: &mut Map<String, Value>,
    alloc: Global,
    key: &str,
    text: &str,
) -> Result<(), Memory>
    ensures { OnOk result
        (members_view map.new.entries
        ≡ with_member key.now (unless_empty text.now) (members_view map.old.entries)) }
{
    if text.is_empty() {
        return put_null(map, alloc, key);
    }
    put_text(map, alloc, key, text)
}
