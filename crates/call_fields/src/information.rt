//! The information that a call gives.

ghost use Rattle.std.specs.Prelude.{IfOk};
ghost use Rattle.serde_json.specs.View.{view};
ghost use Rattle.call_fields.specs.Information.{IsInfoOf};

use b2_base::Memory;
use field_kinds::info_at;
use name_rules::InfoPairs;
use rule_table::CallName;
use serde_json::Value;
use std::alloc::Global;

/// The information that a call gives. Its place among the fields is judged later.
pub(crate) fn info_given(
    alloc: Global,
    name: CallName,
    body: &Value,
) -> Result<Option<InfoPairs>, Memory>
    ensures { IfOk result (λ info. IsInfoOf name (view body.now) info) }
{
    match name {
        CallName::CreateBucket | CallName::UpdateBucket => {
            let info = info_at(alloc, body, "bucketInfo")?;
            Ok(info)
        }
        CallName::StartLargeFile | CallName::CopyFile => {
            let info = info_at(alloc, body, "fileInfo")?;
            Ok(info)
        }
        _ => Ok(None),
    }
}
