//! Parts of large files.

ghost use Rattle.std.specs.Prelude.{◌≡◌, ℕ, List as TheList, Option as TheOption, Some, false};
ghost use Rattle.b2_base.specs.declared.extent.Extent.{Extent as TheExtent};
ghost use Rattle.b2_types.specs.declared.upload.PartUpload.{PartUpload as ThePart};
ghost use Rattle.b2_types.specs.declared.upload.UploadCall.TheVariants.{Part};
ghost use Rattle.b2_model.specs.Checks.{first_fault};
ghost use Rattle.b2_model.specs.State.{State};
ghost use Rattle.b2_model.specs.Rows.{version_at};
ghost use Rattle.b2_model.specs.Kinds.{is_start};
ghost use Rattle.b2_model.specs.Plan.{id_of};
ghost use Rattle.b2_model.specs.UploadSteps.{begin_rules, busy, part_end};
ghost use Rattle.new_versions.specs.Bodies.{body_at};
ghost use Rattle.new_versions.specs.Decided.{Decides, extent_len, refused};
ghost use Rattle.large_files.specs.Refusals.{large_fault, part_fault};

use crate::refusal::{NotLarge, PartRefusal};
use b2_base::Moment;
use b2_types::{Action, ChangeOf, PartUpload, Record, RecordOf, Version, VersionId};
use new_versions::{Body, agrees, mark_of};

pub(crate) fn is_large(version: &Version) -> bool
    ensures { result ≡ is_start version.now.action }
{
    matches!(version.action, Action::Start)
}

/// Whether the file that it names refuses a part at its begin, on a token that is not busy.
pub fn may_put_part(version: &Version) -> Result<(), NotLarge>
    ensures { (M : State TheExtent) (t : ℕ) (token : TheOption (TheList ℕ)) (u : ThePart)
        → version_at M u.bucket u.file ≡ Some version.now → (busy M token).fails ≡ false
        → refused large_fault result ≡ first_fault (begin_rules M t token (Part u)) }
{
    if is_large(version) {
        Ok(())
    } else {
        Err(NotLarge)
    }
}

/// What the end of an upload of a part comes to, for the file that it names: its record, or the
/// first rule of its own that refuses it.
pub fn put_part(
    version: &Version,
    t: Moment,
    call: &PartUpload,
    body: &Body,
) -> Result<Record, PartRefusal>
    ensures { Decides part_fault t
        (part_end extent_len t (body_at body.now) call.now version.now) result }
{
    if !is_large(version) {
        return Err(PartRefusal::NotLarge);
    }
    if !agrees(call.digest, body) {
        return Err(PartRefusal::BadDigest);
    }
    let mark = mark_of(call.digest);
    Ok(RecordOf {
        at: t,
        change: ChangeOf::PartPut(id_of(version), call.number, body.content, mark, body.digest),
    })
}

pub(crate) fn id_of(version: &Version) -> VersionId
    ensures { result ≡ id_of version.now }
{
    VersionId {
        bucket: version.bucket,
        num: version.num,
    }
}
