//! Bodies are read.

use b2_types::{ApiVersion, Call};
use call_fields::read_call;
use rule_table::CallName;
use serde_json::Value;
use std::alloc::Global;

// 1 where it is well formed.
fn count(call: &Call) -> usize {
    match call {
        Call::Bad(_) => 0,
        _ => 1,
    }
}

/// The call of this name that the body is; 1 where it is well formed.
pub fn own_call(alloc: Global, name: CallName, body: &[u8]) -> Option<usize> {
    let call = read_call(alloc, name, ApiVersion::V3, body).ok()?;
    Some(count(&call))
}

/// The port's own read of the body; it has so many keys.
pub fn port_keys(alloc: Global, body: &[u8]) -> Option<usize> {
    let value = Value::from_slice(alloc, body).ok()?;
    match value.as_object() {
        Some(map) => Some(map.len()),
        None => None,
    }
}
