//! Bodies that are one object of JSON.

ghost use Rattle.std.specs.Prelude.{◌≤◌, IfOk};
ghost use Rattle.serde_json.specs.Data.{depth};
ghost use Rattle.serde_json.specs.View.{view};
ghost use Rattle.b2_base.specs.Failure.{IfFault};
ghost use Rattle.json_shape.specs.Object.{ReadsObject, IsShapeFault};

use b2_base::Or;
use serde_json::Value;
use serde_json::error::Category;
use std::alloc::Global;

/// The most levels that a body is nested.
pub const MOST_DEPTH: usize = 127;

/// Why bytes are no object of JSON.
#[derive(Clone, Copy, Debug, PartialEq, Eq)]
pub enum ShapeFault {
    /// They are no text of JSON (RFC 8259) that is nested at most 127 deep.
    NotJson,
    /// They are another value of JSON than an object.
    NotObject,
}

/// The object that the bytes are. Of equal keys the last counts.
pub fn object(alloc: Global, bytes: &[u8]) -> Result<Value, Or<ShapeFault>>
    ensures object { IfOk result (λ v. ReadsObject bytes.now (view v)) }
    ensures depth { IfOk result (λ v. depth (view v) ≤ MOST_DEPTH) }
    ensures fault { IfFault result (IsShapeFault bytes.now) }
{
    let value = match Value::from_slice(alloc, bytes) {
        Ok(value) => value,
        Err(error) => {
            return match error.classify() {
                Category::Memory => Err(Or::Memory),
                _ => Err(Or::Fault(ShapeFault::NotJson)),
            };
        }
    };
    if !value.is_object() {
        return Err(Or::Fault(ShapeFault::NotObject));
    }
    Ok(value)
}
