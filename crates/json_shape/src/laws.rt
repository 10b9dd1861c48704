//! What is written is read back.

ghost use Rattle.std.specs.Prelude.{◌≡◌, ◌≤◌, false, IfOk};
ghost use Rattle.serde_json.specs.Data.{depth};
ghost use Rattle.serde_json.specs.View.{view};
ghost use Rattle.json_shape.specs.Object.{IsObject};

use crate::body::{MOST_DEPTH, object};
use crate::text::render;
use b2_base::{Memory, Or};
use serde_json::Value;
use std::alloc::Global;

/// What `object` reads of what `render` writes of an object: the same.
pub fn read_again(alloc: Global, value: &Value) -> Result<Value, Memory>
    requires object { IsObject (view value.now) }
    requires shallow { depth (view value.now) ≤ MOST_DEPTH }
    ensures { IfOk result (λ v. view v ≡ view value.now) }
{
    let text = render(alloc, value)?;
    match object(alloc, text.get().as_bytes()) {
        Ok(again) => Ok(again),
        Err(Or::Memory) => Err(Memory),
        Err(Or::Fault(_)) => unreachable!(),
    }
}
