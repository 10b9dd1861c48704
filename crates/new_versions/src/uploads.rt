//! Uploads of small files.

ghost use Rattle.std.specs.Prelude.{◌≡◌, ℕ, IfOk, List as TheList, Option as TheOption, false, Some};
ghost use Rattle.b2_base.specs.declared.extent.Extent.{Extent as TheExtent};
ghost use Rattle.b2_types.specs.declared.key.Key.{Key as TheKey};
ghost use Rattle.b2_types.specs.declared.upload.UploadCall.TheVariants.{File};
ghost use Rattle.b2_model.specs.Checks.{first_fault};
ghost use Rattle.b2_model.specs.State.{State, bucket_at};
ghost use Rattle.b2_model.specs.UploadSteps.{begin_rules, busy, file_end, new_upload};
ghost use Rattle.new_versions.specs.Bodies.{body_at};
ghost use Rattle.new_versions.specs.Decided.{DecidesOr, extent_len, next_number, refused};
ghost use Rattle.new_versions.specs.Refusals.{refusal_fault};

use crate::body::{Body, agrees, mark_of};
use crate::refusal::VersionRefusal;
use crate::rules::lock_rules;
use crate::terms::{VersionTerms, new_version};
use b2_base::{Memory, Moment, Or, VersionNum};
use b2_types::{Bucket, ChangeOf, FileUpload, NewVersion, Record, RecordOf};
use object_lock::own_or_default;
use std::alloc::Global;

/// The first rule of its own that refuses an upload at its begin, on a token that is not busy.
pub fn may_upload(
    bucket: &Bucket,
    next: Option<VersionNum>,
    t: Moment,
    call: &FileUpload,
) -> Result<(), VersionRefusal>
    ensures { (M : State TheExtent) (token : TheOption (TheList ℕ))
        → bucket_at M call.now.bucket ≡ Some bucket.now → next_number M ≡ next
        → (busy M token).fails ≡ false
        → refused refusal_fault result ≡ first_fault (begin_rules M t token (File call.now)) }
{
    if let Some(refusal) = lock_rules(t, call.retention, call.hold, bucket.lock) {
        return Err(VersionRefusal::Lock(refusal));
    }
    if next.is_none() {
        return Err(VersionRefusal::Cap);
    }
    Ok(())
}

// The number of the version, or the first rule that refuses the upload at its end.
fn accepted(
    bucket: &Bucket,
    next: Option<VersionNum>,
    t: Moment,
    call: &FileUpload,
    body: &Body,
) -> Result<VersionNum, VersionRefusal>
    ensures rules { (M : State TheExtent) (key : TheOption TheKey) → next_number M ≡ next
        → refused refusal_fault result ≡ first_fault
        (file_end extent_len M t key (body_at body.now) call.now bucket.now).own }
    ensures number { IfOk result (λ num. next ≡ Some num) }
{
    if let Some(refusal) = lock_rules(t, call.retention, call.hold, bucket.lock) {
        return Err(VersionRefusal::Lock(refusal));
    }
    if !agrees(call.digest, body) {
        return Err(VersionRefusal::BadDigest);
    }
    next.ok_or(VersionRefusal::Cap)
}

// The version of this number that the upload makes.
fn uploaded(
    alloc: Global,
    bucket: &Bucket,
    num: VersionNum,
    t: Moment,
    call: &FileUpload,
) -> Result<NewVersion, Memory>
    ensures { (M : State TheExtent) → M.next_version ≡ num
        → IfOk result (λ v. v ≡ new_upload M t bucket.now call.now) }
{
    let of = VersionTerms {
        bucket: call.bucket,
        name: &call.name,
        kind: call.kind.get(),
        info: Some(&call.info),
        retention: own_or_default(t, call.retention, bucket.default),
        hold: call.hold,
    };
    new_version(alloc, num, &of)
}

/// What the end of an upload comes to, in the bucket that it names: its record, or the first rule
/// of its own that refuses it.
pub fn upload(
    alloc: Global,
    bucket: &Bucket,
    next: Option<VersionNum>,
    t: Moment,
    call: &FileUpload,
    body: &Body,
) -> Result<Record, Or<VersionRefusal>>
    ensures { (M : State TheExtent) (key : TheOption TheKey) → next_number M ≡ next
        → DecidesOr refusal_fault t
        (file_end extent_len M t key (body_at body.now) call.now bucket.now) result }
{
    let num = match accepted(bucket, next, t, call, body) {
        Ok(num) => num,
        Err(refusal) => return Err(Or::Fault(refusal)),
    };
    let version = uploaded(alloc, bucket, num, t, call)?;
    Ok(RecordOf {
        at: t,
        change: ChangeOf::Upload(version, body.content, mark_of(call.digest), body.digest),
    })
}
