//! Copies that make a file.

ghost use Rattle.std.specs.Prelude.{◌≡◌, ℕ, List as TheList, Option as TheOption, Some, IfOk, [], unwrap_or};
ghost use Rattle.std.specs.Option.{option_copied};
ghost use Rattle.b2_base.specs.declared.extent.Extent.{Extent as TheExtent};
ghost use Rattle.b2_types.specs.declared.key.Key.{Key as TheKey};
ghost use Rattle.b2_model.specs.Body.{Body};
ghost use Rattle.b2_model.specs.Checks.{first_fault};
ghost use Rattle.b2_model.specs.State.{State, bucket_at, length_of};
ghost use Rattle.b2_model.specs.Rows.{version_at};
ghost use Rattle.b2_model.specs.AskCopies.{copied_info, copied_span, copied_type, copied_version, copy_body, copy_file};
ghost use Rattle.new_versions.specs.Decided.{IsRecordOf, extent_len, next_number, refused};
ghost use Rattle.copy_calls.specs.Refusals.{copy_fault};
ghost use Rattle.copy_calls.specs.Copied.{IsBody, copied_upload, extents};

use crate::refusal::CopyRefusal;
use crate::span::copy_span;
use b2_base::{BucketNum, Extent, Memory, Moment, Text, VersionNum};
use b2_types::{
    Bucket, ChangeOf, CopyFile, CopyMetadata, DigestRule, FileUpload, Mark, NewVersion, Record,
    RecordOf, Span, Version,
};
use name_rules::InfoPairs;
use new_versions::{VersionTerms, copy_info, copy_name, lock_rules, new_version};
use object_lock::own_or_default;
use std::alloc::Global;

/// The bytes of a copy, which stand at the extent.
#[derive(Clone, Copy, Debug, PartialEq, Eq)]
pub struct CopiedBytes {
    pub content: Extent,
    /// The SHA-1 of the bytes (FIPS 180-4).
    pub digest: [u8; 20],
}

/// What an accepted copy makes.
#[derive(Clone, Copy, Debug, PartialEq, Eq)]
pub struct FilePlan {
    /// The bytes of the source.
    pub span: Span,
    /// The number of the new version.
    pub num: VersionNum,
}

/// The bytes that are copied to the bucket and the number that they get, where the content of the
/// source has this length, or the first rule of its own that refuses the copy.
pub fn may_copy_file(
    version: &Version,
    len: u64,
    bucket: &Bucket,
    next: Option<VersionNum>,
    t: Moment,
    call: &CopyFile,
) -> Result<FilePlan, CopyRefusal>
    requires { length_of extent_len version.now.content ≡ len }
    ensures rules { (copy : TheList TheExtent → ℕ → ℕ → Body TheExtent) (M : State TheExtent)
        (key : TheOption TheKey)
        → bucket_at M (unwrap_or call.now.bucket call.now.source.bucket) ≡ Some bucket.now
        → version_at M call.now.source.bucket call.now.source.num ≡ Some version.now
        → next_number M ≡ next
        → refused copy_fault result
        ≡ first_fault (copy_file (extents copy) M key t call.now).own }
    ensures span { IfOk result
        (λ plan. plan.span ≡ copied_span extent_len version.now call.now.range) }
    ensures number { IfOk result (λ plan. next ≡ Some plan.num) }
{
    let span = copy_span(version, len, call.range)?;
    let hold = call.hold.unwrap_or(false);
    if let Some(refusal) = lock_rules(t, call.retention, hold, bucket.lock) {
        return Err(CopyRefusal::Lock(refusal));
    }
    match next {
        Some(num) => Ok(FilePlan { span, num }),
        None => Err(CopyRefusal::Cap),
    }
}

fn kind_of<'a>(version: &'a Version, metadata: &'a CopyMetadata) -> &'a str
    ensures { result.now ≡ copied_type version.now metadata.now }
{
    match metadata {
        CopyMetadata::Kept => version.kind.get(),
        CopyMetadata::Replaced(kind, _) => kind.get(),
    }
}

fn info_of<'a>(version: &'a Version, metadata: &'a CopyMetadata) -> Option<&'a InfoPairs>
    ensures { unwrap_or (option_copied result) [] ≡ copied_info version.now metadata.now }
{
    match metadata {
        CopyMetadata::Kept => Some(&version.info),
        CopyMetadata::Replaced(_, info) => info.as_ref(),
    }
}

/// The upload that the copy is, of so many bytes with this SHA-1, to the bucket of this number.
pub fn copy_upload(
    alloc: Global,
    version: &Version,
    call: &CopyFile,
    bucket: BucketNum,
    len: u64,
    digest: [u8; 20],
) -> Result<FileUpload, Memory>
    ensures { IfOk result (λ u. u ≡ copied_upload version.now call.now bucket len digest) }
{
    let kind = Text::copy(alloc, kind_of(version, &call.metadata))?;
    let info = copy_info(alloc, info_of(version, &call.metadata))?;
    Ok(FileUpload {
        bucket,
        length: len,
        digest: DigestRule::Given(digest),
        name: copy_name(alloc, &call.name)?,
        kind,
        info,
        retention: call.retention,
        hold: call.hold.unwrap_or(false),
    })
}

// The version of this number that the copy makes.
fn copied(
    alloc: Global,
    version: &Version,
    bucket: &Bucket,
    num: VersionNum,
    t: Moment,
    call: &CopyFile,
) -> Result<NewVersion, Memory>
    ensures { (M : State TheExtent) → M.next_version ≡ num
        → IfOk result (λ v. v ≡ copied_version M t bucket.now version.now call.now) }
{
    let of = VersionTerms {
        bucket: bucket.num,
        name: &call.name,
        kind: kind_of(version, &call.metadata),
        info: info_of(version, &call.metadata),
        retention: own_or_default(t, call.retention, bucket.default),
        hold: call.hold.unwrap_or(false),
    };
    new_version(alloc, num, &of)
}

/// The record of a copy that is accepted, under this number, whose bytes stand at the extent and
/// have this SHA-1.
pub fn copy_file(
    alloc: Global,
    version: &Version,
    bucket: &Bucket,
    num: VersionNum,
    t: Moment,
    call: &CopyFile,
    bytes: &CopiedBytes,
) -> Result<Record, Memory>
    ensures { (copy : TheList TheExtent → ℕ → ℕ → Body TheExtent) (M : State TheExtent)
        (key : TheOption TheKey)
        → bucket_at M (unwrap_or call.now.bucket call.now.source.bucket) ≡ Some bucket.now
        → version_at M call.now.source.bucket call.now.source.num ≡ Some version.now
        → M.next_version ≡ num
        → IsBody bytes.now (copy_body (extents copy) version.now call.now.range)
        → IfOk result (IsRecordOf t (copy_file (extents copy) M key t call.now)) }
{
    let copied = copied(alloc, version, bucket, num, t, call)?;
    Ok(RecordOf {
        at: t,
        change: ChangeOf::Upload(copied, bytes.content, Mark::Verified, bytes.digest),
    })
}
