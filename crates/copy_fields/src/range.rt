//! The range of a copy.

ghost use Rattle.std.specs.Prelude.{codes};
ghost use Rattle.serde_json.specs.View.{view};
ghost use Rattle.json_shape.specs.Fields.{Gives};
ghost use Rattle.field_kinds.specs.Reader.{optional};
ghost use Rattle.copy_fields.specs.Metadata.{range};

use b2_base::Or;
use b2_types::{ByteRange, Fault};
use byte_ranges::read_range;
use field_kinds::wrong;
use serde_json::Value;
use std::alloc::Global;

/// The bytes of the source that are copied, where not all are.
pub(crate) fn optional_range(alloc: Global, body: &Value) -> Result<Option<ByteRange>, Or<Fault>>
    ensures { Gives (λ x. x) result (optional (codes "range") range (view body.now)) }
{
    let found = match body.get("range") {
        None | Some(Value::Null) => return Ok(None),
        Some(found) => found,
    };
    let Some(text) = found.as_str() else {
        return Err(Or::Fault(wrong(alloc, "range")?));
    };
    match read_range(text.as_bytes()) {
        Some(range) => Ok(Some(range)),
        None => Err(Or::Fault(wrong(alloc, "range")?)),
    }
}
