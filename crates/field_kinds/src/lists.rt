//! Lists of fields, and digests.

ghost use Rattle.std.specs.Prelude.{◌≡◌, IfOk, option_map};
ghost use Rattle.serde_json.specs.View.{items_view};
ghost use Rattle.field_kinds.specs.Kinds.{each_of, list_of, digest};

use crate::reader::FromJson;
use b2_base::{List, Memory};
use hex::FromHex;
use serde_json::Value;
use std::alloc::Global;

fn each_of<T: FromJson + Drop>(alloc: Global, items: &[Value]) -> Result<Option<Vec<T>>, Memory>
    ensures { IfOk result (λ o. option_map (λ v. v.items) o
        ≡ each_of T.kind (items_view items.now)) }
{
    let mut list = Vec::new(alloc);
    for item in items {
        match T::from_json(alloc, item)? {
            Some(value) => list.push(value)?,
            None => return Ok(None),
        }
    }
    Ok(Some(list))
}

impl<T: FromJson + Drop> FromJson for List<T> {
    ghost kind = { list_of T.kind };

    fn from_json(alloc: Global, value: &Value) -> Result<Option<List<T>>, Memory> {
        let Value::Array(items) = value else {
            return Ok(None);
        };
        match each_of(alloc, items)? {
            Some(list) => Ok(Some(List::of(list))),
            None => Ok(None),
        }
    }
}

// 40 hex digits.
impl FromJson for [u8; 20] {
    ghost kind = { digest };

    fn from_json(_alloc: Global, value: &Value) -> Result<Option<[u8; 20]>, Memory> {
        let Some(text) = value.as_str() else {
            return Ok(None);
        };
        match <[u8; 20] as FromHex>::from_hex(text.as_bytes()) {
            Ok(digest) => Ok(Some(digest)),
            Err(_) => Ok(None),
        }
    }
}
