//! What uploads name, where their tokens may have it.

ghost use Rattle.std.specs.Prelude.{◌≡◌, ◌++◌, Some, IfOk};
ghost use Rattle.rule_table.specs.declared.fault.FaultKind.TheVariants as kinds;
ghost use Rattle.b2_types.specs.declared.upload.UploadCall.TheVariants as uploads;
ghost use Rattle.b2_types.specs.Fault.{plain};
ghost use Rattle.b2_types.specs.Need.{lock_caps, need};
ghost use Rattle.b2_model.specs.Checks.{first_fault};
ghost use Rattle.b2_model.specs.Policy.{call_rules, policy_rules, token_rules};
ghost use Rattle.b2_model.specs.Rows.{version_at};
ghost use Rattle.b2_model.specs.State.{bucket_at};
ghost use Rattle.b2_model.specs.UploadSteps.{fits, upload_rules};
ghost use Rattle.new_versions.specs.Decided.{refused};
ghost use Rattle.policy_rules.specs.Asked.{caller, judged};
ghost use Rattle.core_policy.specs.Rules.{standing};

use crate::fields::{file_fields, name_fields};
use crate::judge::may_name;
use b2_base::{BucketNum, Moment, VersionNum};
use b2_types::{Bucket, FileUpload, PartUpload, Target, Version, need_of};
use core_state::Core;
use policy_rules::{Asked, Asker, call_rule, token_rule};
use rule_table::{CallName, Cap, FaultKind};

// The capabilities that a retention or a hold wants besides, where it is set.
fn lock_caps(is_retained: bool, is_held: bool) -> &'static [Cap]
    ensures { result.now ≡ lock_caps is_retained is_held }
{
    match (is_retained, is_held) {
        (true, true) => &[Cap::WriteFileRetentions, Cap::WriteFileLegalHolds],
        (true, false) => &[Cap::WriteFileRetentions],
        (false, true) => &[Cap::WriteFileLegalHolds],
        (false, false) => &[],
    }
}

// The first of the rules of the token, the capabilities, the account and the buckets that fails.
fn may_upload(
    core: &Core,
    asker: &Asker<'_>,
    asked: &Asked<'_>,
    target: Target,
    t: Moment,
) -> Result<(), FaultKind>
    ensures { refused plain result ≡ first_fault
        (token_rules t (judged asked.now).row.tokens (fits target) (caller asker.now)
        ++ call_rules core.now (judged asked.now) (caller asker.now)) }
{
    if let Err(denial) = token_rule(asker, asked.need.tokens, target, t) {
        return Err(denial.kind());
    }
    match call_rule(core, asker, asked) {
        Ok(()) => Ok(()),
        Err(denial) => Err(denial.kind()),
    }
}

// The bucket, or the first rule of the policy that refuses an upload at this path, before whose
// last stands that there is such a bucket.
fn allowed_bucket<'a>(
    core: &'a Core,
    asker: &Asker<'_>,
    asked: &Asked<'_>,
    target: Target,
    t: Moment,
    bucket: BucketNum,
) -> Result<&'a Bucket, FaultKind>
    ensures rules { refused plain result ≡ first_fault
        (policy_rules core.now t (judged asked.now) (fits target) (caller asker.now)
        (standing kinds.NoBucket (bucket_at core.now bucket))) }
    ensures found { IfOk result (λ b. bucket_at core.now bucket ≡ Some b.now) }
{
    may_upload(core, asker, asked, target, t)?;
    let Some(bucket) = core.bucket(bucket) else {
        return Err(FaultKind::NoBucket);
    };
    may_name(core, asker, asked)?;
    Ok(bucket)
}

// The file, or the first rule of the policy that refuses an upload at this path, before whose last
// stands that there is such a file.
fn allowed_file<'a>(
    core: &'a Core,
    asker: &Asker<'_>,
    asked: &Asked<'_>,
    target: Target,
    t: Moment,
    bucket: BucketNum,
    file: VersionNum,
) -> Result<&'a Version, FaultKind>
    ensures rules { refused plain result ≡ first_fault
        (policy_rules core.now t (judged asked.now) (fits target) (caller asker.now)
        (standing kinds.NoFile (version_at core.now bucket file))) }
    ensures found { IfOk result (λ v. version_at core.now bucket file ≡ Some v.now) }
{
    may_upload(core, asker, asked, target, t)?;
    let Some(version) = core.version(bucket, file) else {
        return Err(FaultKind::NoFile);
    };
    may_name(core, asker, asked)?;
    Ok(version)
}

/// The bucket of an upload to it, or the first rule of the policy that refuses it. A retention and
/// a hold want capabilities of their own.
pub fn file_upload_for<'a>(
    core: &'a Core,
    asker: &Asker<'_>,
    t: Moment,
    upload: &FileUpload,
) -> Result<&'a Bucket, FaultKind>
    ensures rules { refused plain result ≡ first_fault
        (upload_rules core.now t (caller asker.now) (uploads.File upload.now)
        (standing kinds.NoBucket (bucket_at core.now upload.now.bucket))) }
    ensures found { IfOk result (λ b. bucket_at core.now upload.now.bucket ≡ Some b.now) }
{
    let asked = Asked {
        need: need_of(CallName::UploadFile),
        more: lock_caps(upload.retention.is_some(), upload.hold),
        fields: name_fields(upload.bucket, &upload.name),
    };
    let target = Target::Bucket(upload.bucket);
    allowed_bucket(core, asker, &asked, target, t, upload.bucket)
}

/// The file of an upload of a part of it, or the first rule of the policy that refuses it.
pub fn part_upload_for<'a>(
    core: &'a Core,
    asker: &Asker<'_>,
    t: Moment,
    upload: &PartUpload,
) -> Result<&'a Version, FaultKind>
    ensures rules { refused plain result ≡ first_fault
        (upload_rules core.now t (caller asker.now) (uploads.Part upload.now)
        (standing kinds.NoFile (version_at core.now upload.now.bucket upload.now.file))) }
    ensures found { IfOk result
        (λ v. version_at core.now upload.now.bucket upload.now.file ≡ Some v.now) }
{
    let asked = Asked {
        need: need_of(CallName::UploadPart),
        more: &[],
        fields: file_fields(upload.bucket, upload.file),
    };
    let target = Target::File(upload.bucket, upload.file);
    allowed_file(core, asker, &asked, target, t, upload.bucket, upload.file)
}

/// The first rule of the token that refuses a request of this name at this path; of one that is
/// amiss, no other rule of the policy is judged.
pub fn token_for(
    asker: &Asker<'_>,
    t: Moment,
    name: CallName,
    target: Target,
) -> Result<(), FaultKind>
    ensures { refused plain result ≡ first_fault
        (token_rules t (need name).tokens (fits target) (caller asker.now)) }
{
    match token_rule(asker, need_of(name).tokens, target, t) {
        Ok(()) => Ok(()),
        Err(denial) => Err(denial.kind()),
    }
}
