//! The text of a value.

ghost use Rattle.std.specs.Prelude.{◌≡◌, ◌≤◌, false, IfOk};
ghost use Rattle.serde_json.specs.Data.{depth};
ghost use Rattle.serde_json.specs.View.{view};
ghost use Rattle.serde_json.specs.Written.{has_float, compact_text};
ghost use Rattle.json_shape.specs.Object.{Reads};

use crate::body::MOST_DEPTH;
use b2_base::{Memory, Text};
use serde_json::Value;
use std::alloc::Global;

/// The value's text without a space, its keys in the order of their bytes. How a float is written is
/// left open.
pub fn render(alloc: Global, value: &Value) -> Result<Text, Memory>
    ensures text { IfOk result (λ t. has_float (view value.now) ≡ false
        → t ≡ compact_text (view value.now)) }
    ensures back { IfOk result (λ t. depth (view value.now) ≤ MOST_DEPTH
        → Reads t (view value.now)) }
{
    Ok(Text::of(value.to_string(alloc)?))
}
