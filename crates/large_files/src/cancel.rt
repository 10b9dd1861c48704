//! The end of a large file that is not finished.

ghost use Rattle.std.specs.Prelude.{◌≡◌, Some};
ghost use Rattle.b2_base.specs.declared.extent.Extent.{Extent as TheExtent};
ghost use Rattle.b2_types.specs.declared.call.FileCall.{FileCall as TheCall};
ghost use Rattle.b2_model.specs.State.{State};
ghost use Rattle.b2_model.specs.Rows.{version_at};
ghost use Rattle.b2_model.specs.AskLarge.{cancel_large_file};
ghost use Rattle.new_versions.specs.Decided.{Decides};
ghost use Rattle.large_files.specs.Refusals.{large_fault};

use crate::part::{id_of, is_large};
use crate::refusal::NotLarge;
use b2_base::Moment;
use b2_types::{ChangeOf, Record, RecordOf, Version};

/// What a cancelling comes to, for the file that it names: its record, where the file is large
/// and under way.
pub fn cancel_large_file(version: &Version, t: Moment) -> Result<Record, NotLarge>
    ensures { (M : State TheExtent) (c : TheCall) → version_at M c.bucket c.file ≡ Some version.now
        → Decides large_fault t (cancel_large_file M c) result }
{
    if !is_large(version) {
        return Err(NotLarge);
    }
    Ok(RecordOf {
        at: t,
        change: ChangeOf::Cancel(id_of(version)),
    })
}
