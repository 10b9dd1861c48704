//! Copies that make a part of a large file.

ghost use Rattle.std.specs.Prelude.{◌≡◌, ℕ, List as TheList, Some, IfOk};
ghost use Rattle.b2_base.specs.declared.extent.Extent.{Extent as TheExtent};
ghost use Rattle.b2_types.specs.declared.version.VersionOf.{VersionOf as TheVersion};
ghost use Rattle.b2_model.specs.Body.{Body};
ghost use Rattle.b2_model.specs.Checks.{first_fault};
ghost use Rattle.b2_model.specs.State.{State, length_of};
ghost use Rattle.b2_model.specs.Rows.{version_at};
ghost use Rattle.b2_model.specs.AskCopies.{copied_span, copy_body, copy_part};
ghost use Rattle.new_versions.specs.Decided.{IsRecordOf, extent_len, refused};
ghost use Rattle.copy_calls.specs.Refusals.{copy_fault};
ghost use Rattle.copy_calls.specs.Copied.{IsBody, extents};

use crate::file::CopiedBytes;
use crate::refusal::CopyRefusal;
use crate::span::{is_upload, range_span};
use b2_base::Moment;
use b2_types::{Action, ChangeOf, CopyPart, Mark, Record, RecordOf, Span, Version, VersionId};

/// The bytes that are copied to the large file, where the content of the source has this length,
/// or the first rule of its own that refuses the copy.
pub fn may_copy_part(
    version: &Version,
    len: u64,
    large: &Version,
    call: &CopyPart,
) -> Result<Span, CopyRefusal>
    requires { length_of extent_len version.now.content ≡ len }
    ensures rules { (copy : TheList TheExtent → ℕ → ℕ → Body TheExtent) (M : State TheExtent)
        (t : ℕ)
        → version_at M call.now.source.bucket call.now.source.num ≡ Some version.now
        → version_at M call.now.bucket call.now.file ≡ Some large.now
        → refused copy_fault result ≡ first_fault (copy_part (extents copy) M t call.now).own }
    ensures span { IfOk result
        (λ span. span ≡ copied_span extent_len version.now call.now.range) }
{
    if !is_upload(version) {
        return Err(CopyRefusal::NoFile);
    }
    let Action::Start = large.action else {
        return Err(CopyRefusal::NotLarge);
    };
    range_span(version, len, call.range)
}

/// The record of a copy that is accepted, whose bytes are these.
pub fn copy_part(large: &Version, t: Moment, call: &CopyPart, bytes: &CopiedBytes) -> Record
    ensures { (copy : TheList TheExtent → ℕ → ℕ → Body TheExtent) (M : State TheExtent)
        (version : TheVersion TheExtent)
        → version_at M call.now.source.bucket call.now.source.num ≡ Some version
        → version_at M call.now.bucket call.now.file ≡ Some large.now
        → IsBody bytes.now (copy_body (extents copy) version call.now.range)
        → IsRecordOf t (copy_part (extents copy) M t call.now) result }
{
    let id = VersionId {
        bucket: large.bucket,
        num: large.num,
    };
    RecordOf {
        at: t,
        change: ChangeOf::PartPut(id, call.number, bytes.content, Mark::Verified, bytes.digest),
    }
}
