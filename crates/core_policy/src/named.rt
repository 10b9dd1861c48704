//! What calls name, where their callers may have it.

ghost use Rattle.std.specs.Prelude.{◌≡◌, [], Some, IfOk, map};
ghost use Rattle.std.specs.List.{list_any};
ghost use Rattle.std.specs.Option.{is_none, option_copied};
ghost use Rattle.rule_table.specs.declared.fault.FaultKind.TheVariants as kinds;
ghost use Rattle.b2_types.specs.Fault.{plain};
ghost use Rattle.b2_types.specs.declared.call.Call.TheVariants as calls;
ghost use Rattle.b2_types.specs.Naming.{fields_of, in_bucket, nothing, of_number, on_account, on_file, on_name, with_prefix};
ghost use Rattle.b2_model.specs.Checks.{first_fault};
ghost use Rattle.b2_model.specs.Policy.{bucket_named};
ghost use Rattle.b2_model.specs.Rows.{version_at};
ghost use Rattle.b2_model.specs.State.{bucket_at};
ghost use Rattle.new_versions.specs.Decided.{refused};
ghost use Rattle.policy_rules.specs.Asked.{caller, judged, numbers};
ghost use Rattle.core_policy.specs.Rules.{absent_beside, all_stand, both, judged_on, rules_on, standing};

use crate::fields::{
    account_fields, bucket_fields, buckets_fields, copy_fields, file_fields, filter_fields,
    name_fields, no_fields, part_copy_fields, path_fields, prefix_fields,
};
use crate::judge::{may_call, may_name};
use b2_base::{BucketNum, Moment, Text, VersionNum};
use b2_types::{Bucket, ListBuckets, Version, VersionId, need_of};
use core_state::Core;
use name_rules::FileName;
use policy_rules::{Asked, Asker};
use rule_table::{CallName, Cap, FaultKind};

// The first rule of the policy that refuses a call which looks nothing up.
fn allowed(core: &Core, asker: &Asker<'_>, asked: &Asked<'_>, t: Moment) -> Result<(), FaultKind>
    ensures { refused plain result ≡ first_fault
        (rules_on core.now t (judged asked.now) (caller asker.now) []) }
{
    may_call(core, asker, asked, t)?;
    may_name(core, asker, asked)
}

// The bucket, or the first rule of the policy that refuses it, before whose last stands that there
// is such a bucket.
fn allowed_bucket<'a>(
    core: &'a Core,
    asker: &Asker<'_>,
    asked: &Asked<'_>,
    t: Moment,
    bucket: BucketNum,
) -> Result<&'a Bucket, FaultKind>
    ensures rules { refused plain result ≡ first_fault
        (rules_on core.now t (judged asked.now) (caller asker.now)
        (standing kinds.NoBucket (bucket_at core.now bucket))) }
    ensures found { IfOk result (λ b. bucket_at core.now bucket ≡ Some b.now) }
{
    may_call(core, asker, asked, t)?;
    let Some(bucket) = core.bucket(bucket) else {
        return Err(FaultKind::NoBucket);
    };
    may_name(core, asker, asked)?;
    Ok(bucket)
}

// The file, or the first rule of the policy that refuses it, before whose last stands that there
// is such a file.
fn allowed_file<'a>(
    core: &'a Core,
    asker: &Asker<'_>,
    asked: &Asked<'_>,
    t: Moment,
    bucket: BucketNum,
    file: VersionNum,
) -> Result<&'a Version, FaultKind>
    ensures rules { refused plain result ≡ first_fault
        (rules_on core.now t (judged asked.now) (caller asker.now)
        (standing kinds.NoFile (version_at core.now bucket file))) }
    ensures found { IfOk result (λ v. version_at core.now bucket file ≡ Some v.now) }
{
    may_call(core, asker, asked, t)?;
    let Some(version) = core.version(bucket, file) else {
        return Err(FaultKind::NoFile);
    };
    may_name(core, asker, asked)?;
    Ok(version)
}

/// Whether a call on the account may be made, or the first rule of the policy that refuses it.
pub fn account_for(
    core: &Core,
    asker: &Asker<'_>,
    t: Moment,
    name: CallName,
    account: &Text,
) -> Result<(), FaultKind>
    ensures { refused plain result ≡ first_fault (rules_on core.now t
        (judged_on name [] (on_account account.now)) (caller asker.now) []) }
{
    let asked = Asked {
        need: need_of(name),
        more: &[],
        fields: account_fields(account, None),
    };
    allowed(core, asker, &asked, t)
}

/// The bucket of a call on an account and a bucket of it, which needs these capabilities besides, or
/// the first rule of the policy that refuses it, before whose last stands that there is such a
/// bucket.
pub fn account_bucket_for<'a>(
    core: &'a Core,
    asker: &Asker<'_>,
    t: Moment,
    name: CallName,
    more: &[Cap],
    account: &Text,
    bucket: BucketNum,
) -> Result<&'a Bucket, FaultKind>
    ensures rules { refused plain result ≡ first_fault (rules_on core.now t
        (judged_on name more.now (record (on_account account.now) { bucket = Some bucket }))
        (caller asker.now) (standing kinds.NoBucket (bucket_at core.now bucket))) }
    ensures found { IfOk result (λ b. bucket_at core.now bucket ≡ Some b.now) }
{
    let asked = Asked {
        need: need_of(name),
        more,
        fields: account_fields(account, Some(bucket)),
    };
    allowed_bucket(core, asker, &asked, t, bucket)
}

/// The bucket of a call on it, or the first rule of the policy that refuses it.
pub fn bucket_for<'a>(
    core: &'a Core,
    asker: &Asker<'_>,
    t: Moment,
    name: CallName,
    bucket: BucketNum,
) -> Result<&'a Bucket, FaultKind>
    ensures rules { refused plain result ≡ first_fault (rules_on core.now t
        (judged_on name [] (in_bucket bucket)) (caller asker.now)
        (standing kinds.NoBucket (bucket_at core.now bucket))) }
    ensures found { IfOk result (λ b. bucket_at core.now bucket ≡ Some b.now) }
{
    let asked = Asked {
        need: need_of(name),
        more: &[],
        fields: bucket_fields(bucket),
    };
    allowed_bucket(core, asker, &asked, t, bucket)
}

/// The bucket of a call on a name in it, which needs these capabilities besides, or the first rule
/// of the policy that refuses it.
pub fn name_for<'a>(
    core: &'a Core,
    asker: &Asker<'_>,
    t: Moment,
    name: CallName,
    more: &[Cap],
    bucket: BucketNum,
    file: &FileName,
) -> Result<&'a Bucket, FaultKind>
    ensures rules { refused plain result ≡ first_fault (rules_on core.now t
        (judged_on name more.now (on_name bucket file.now)) (caller asker.now)
        (standing kinds.NoBucket (bucket_at core.now bucket))) }
    ensures found { IfOk result (λ b. bucket_at core.now bucket ≡ Some b.now) }
{
    let asked = Asked {
        need: need_of(name),
        more,
        fields: name_fields(bucket, file),
    };
    allowed_bucket(core, asker, &asked, t, bucket)
}

/// The bucket of a call on the names in it that have a prefix, or the first rule of the policy that
/// refuses it. No prefix is the empty one.
pub fn prefix_for<'a>(
    core: &'a Core,
    asker: &Asker<'_>,
    t: Moment,
    name: CallName,
    bucket: BucketNum,
    prefix: Option<&Text>,
) -> Result<&'a Bucket, FaultKind>
    ensures rules { refused plain result ≡ first_fault (rules_on core.now t
        (judged_on name [] (with_prefix bucket (option_copied prefix.entry))) (caller asker.now)
        (standing kinds.NoBucket (bucket_at core.now bucket))) }
    ensures found { IfOk result (λ b. bucket_at core.now bucket ≡ Some b.now) }
{
    let asked = Asked {
        need: need_of(name),
        more: &[],
        fields: prefix_fields(bucket, prefix),
    };
    allowed_bucket(core, asker, &asked, t, bucket)
}

/// The file of a call on it, or the first rule of the policy that refuses it, before whose last
/// stands that there is such a file.
pub fn file_for<'a>(
    core: &'a Core,
    asker: &Asker<'_>,
    t: Moment,
    name: CallName,
    bucket: BucketNum,
    file: VersionNum,
) -> Result<&'a Version, FaultKind>
    ensures rules { refused plain result ≡ first_fault (rules_on core.now t
        (judged_on name [] (on_file bucket file)) (caller asker.now)
        (standing kinds.NoFile (version_at core.now bucket file))) }
    ensures found { IfOk result (λ v. version_at core.now bucket file ≡ Some v.now) }
{
    let asked = Asked {
        need: need_of(name),
        more: &[],
        fields: file_fields(bucket, file),
    };
    allowed_file(core, asker, &asked, t, bucket, file)
}

/// Whether the buckets that pass these filters may be listed, or the first rule of the policy that
/// refuses it. Nothing that is named has to stand.
pub fn list_for(
    core: &Core,
    asker: &Asker<'_>,
    t: Moment,
    name: CallName,
    call: &ListBuckets,
) -> Result<(), FaultKind>
    ensures { refused plain result ≡ first_fault (rules_on core.now t
        (judged_on name [] (fields_of (calls.ListBuckets call.now))) (caller asker.now) []) }
{
    let asked = Asked {
        need: need_of(name),
        more: &[],
        fields: filter_fields(call),
    };
    allowed(core, asker, &asked, t)
}

/// Whether a call that names nothing may be made, or the first rule of the policy that refuses it.
pub fn call_for(core: &Core, asker: &Asker<'_>, t: Moment, name: CallName) -> Result<(), FaultKind>
    ensures { refused plain result ≡ first_fault (rules_on core.now t
        (judged_on name [] nothing) (caller asker.now) []) }
{
    let asked = Asked {
        need: need_of(name),
        more: &[],
        fields: no_fields(),
    };
    allowed(core, asker, &asked, t)
}

fn is_absent(core: &Core, bucket: BucketNum) -> bool
    ensures { result ≡ is_none (bucket_at core.now bucket) }
{
    core.bucket(bucket).is_none()
}

fn is_any_absent(core: &Core, buckets: &[BucketNum]) -> bool
    ensures { result ≡ list_any (λ n. is_none (bucket_at core.now n)) buckets.now }
{
    buckets.iter().any(|bucket| is_absent(core, *bucket))
}

// The first rule of the policy that refuses a call on these buckets, before whose last stands that
// each of them is there.
fn allowed_buckets(
    core: &Core,
    asker: &Asker<'_>,
    asked: &Asked<'_>,
    t: Moment,
    buckets: &[BucketNum],
) -> Result<(), FaultKind>
    ensures { refused plain result ≡ first_fault (rules_on core.now t
        (judged asked.now) (caller asker.now) (all_stand core.now buckets.now)) }
{
    may_call(core, asker, asked, t)?;
    if is_any_absent(core, buckets) {
        return Err(FaultKind::NoBucket);
    }
    may_name(core, asker, asked)
}

/// Whether a call on the account that names these buckets may be made, or the first rule of the
/// policy that refuses it, before whose last stands that each of them is there.
pub fn buckets_for(
    core: &Core,
    asker: &Asker<'_>,
    t: Moment,
    name: CallName,
    account: &Text,
    buckets: &[BucketNum],
) -> Result<(), FaultKind>
    ensures { refused plain result ≡ first_fault (rules_on core.now t
        (judged_on name []
        (record (on_account account.now) { some_bucket = Some (map of_number buckets.now) }))
        (caller asker.now) (all_stand core.now buckets.now)) }
{
    let asked = Asked {
        need: need_of(name),
        more: &[],
        fields: buckets_fields(account, buckets),
    };
    allowed_buckets(core, asker, &asked, t, buckets)
}

// The bucket of this name, or the first rule of the policy that refuses it, before whose last stands
// that there is such a bucket.
fn allowed_path<'a>(
    core: &'a Core,
    asker: &Asker<'_>,
    asked: &Asked<'_>,
    t: Moment,
    bucket: &Text,
) -> Result<&'a Bucket, FaultKind>
    ensures rules { refused plain result ≡ first_fault
        (rules_on core.now t (judged asked.now) (caller asker.now)
        (standing kinds.NoFile (bucket_named core.now bucket.now))) }
    ensures found { IfOk result (λ b. bucket_named core.now bucket.now ≡ Some b.now) }
{
    may_call(core, asker, asked, t)?;
    let found = core.bucket_named(bucket.get().as_bytes());
    let bucket = found.ok_or(FaultKind::NoFile)?;
    may_name(core, asker, asked)?;
    Ok(bucket)
}

/// The bucket of a download by name, or the first rule of the policy that refuses it, before whose
/// last stands that there is a bucket of the name.
pub fn path_for<'a>(
    core: &'a Core,
    asker: &Asker<'_>,
    t: Moment,
    name: CallName,
    bucket: &Text,
    file: &FileName,
) -> Result<&'a Bucket, FaultKind>
    ensures rules { refused plain result ≡ first_fault (rules_on core.now t
        (judged_on name []
        (record nothing { path_bucket = Some bucket.now; name = Some file.now }))
        (caller asker.now) (standing kinds.NoFile (bucket_named core.now bucket.now))) }
    ensures found { IfOk result (λ b. bucket_named core.now bucket.now ≡ Some b.now) }
{
    let asked = Asked {
        need: need_of(name),
        more: &[],
        fields: path_fields(bucket, file),
    };
    allowed_path(core, asker, &asked, t, bucket)
}

// A bucket and a file, or the first rule of the policy that refuses them, before whose last stands
// that there is such a bucket, and then that there is such a file.
fn allowed_pair<'a>(
    core: &'a Core,
    asker: &Asker<'_>,
    asked: &Asked<'_>,
    t: Moment,
    bucket: BucketNum,
    source: &VersionId,
) -> Result<(&'a Bucket, &'a Version), FaultKind>
    ensures rules { refused plain result ≡ first_fault
        (rules_on core.now t (judged asked.now) (caller asker.now)
        (standing (absent_beside kinds.NoBucket kinds.NoFile (bucket_at core.now bucket))
        (both (bucket_at core.now bucket) (version_at core.now source.now.bucket source.now.num)))) }
    ensures found { IfOk result (λ p. both (bucket_at core.now bucket)
        (version_at core.now source.now.bucket source.now.num) ≡ Some (p.0.now, p.1.now)) }
{
    may_call(core, asker, asked, t)?;
    let bucket = core.bucket(bucket).ok_or(FaultKind::NoBucket)?;
    let found = core.version(source.bucket, source.num);
    let version = found.ok_or(FaultKind::NoFile)?;
    may_name(core, asker, asked)?;
    Ok((bucket, version))
}

/// The bucket that a file is copied to and the source, or the first rule of the policy that refuses
/// it, before whose last stands that there is such a bucket, and then that there is such a source.
pub fn copy_for<'a, 'b>(
    core: &'a Core,
    asker: &Asker<'_>,
    t: Moment,
    name: CallName,
    more: &'b [Cap],
    source: &VersionId,
    bucket: BucketNum,
    file: &'b FileName,
) -> Result<(&'a Bucket, &'a Version), FaultKind>
    ensures rules { refused plain result ≡ first_fault (rules_on core.now t
        (judged_on name more.now
        (record (on_name bucket file.now) { source = Some (numbers source.now) }))
        (caller asker.now)
        (standing (absent_beside kinds.NoBucket kinds.NoFile (bucket_at core.now bucket))
        (both (bucket_at core.now bucket) (version_at core.now source.now.bucket source.now.num)))) }
    ensures found { IfOk result (λ p. both (bucket_at core.now bucket)
        (version_at core.now source.now.bucket source.now.num) ≡ Some (p.0.now, p.1.now)) }
{
    let asked = Asked {
        need: need_of(name),
        more,
        fields: copy_fields(*source, bucket, file),
    };
    allowed_pair(core, asker, &asked, t, bucket, source)
}

// Two files, or the first rule of the policy that refuses them, before whose last stands that there
// are such files.
fn allowed_files<'a>(
    core: &'a Core,
    asker: &Asker<'_>,
    asked: &Asked<'_>,
    t: Moment,
    source: &VersionId,
    bucket: BucketNum,
    file: VersionNum,
) -> Result<(&'a Version, &'a Version), FaultKind>
    ensures rules { refused plain result ≡ first_fault
        (rules_on core.now t (judged asked.now) (caller asker.now) (standing kinds.NoFile
        (both (version_at core.now source.now.bucket source.now.num)
        (version_at core.now bucket file)))) }
    ensures found { IfOk result (λ p. both (version_at core.now source.now.bucket source.now.num)
        (version_at core.now bucket file) ≡ Some (p.0.now, p.1.now)) }
{
    may_call(core, asker, asked, t)?;
    let found = core.version(source.bucket, source.num);
    let version = found.ok_or(FaultKind::NoFile)?;
    let found = core.version(bucket, file);
    let large = found.ok_or(FaultKind::NoFile)?;
    may_name(core, asker, asked)?;
    Ok((version, large))
}

/// The source and the large file of a copy that makes a part, or the first rule of the policy that
/// refuses it, before whose last stands that there are such files.
pub fn part_copy_for<'a>(
    core: &'a Core,
    asker: &Asker<'_>,
    t: Moment,
    name: CallName,
    source: &VersionId,
    bucket: BucketNum,
    file: VersionNum,
) -> Result<(&'a Version, &'a Version), FaultKind>
    ensures rules { refused plain result ≡ first_fault (rules_on core.now t
        (judged_on name []
        (record (on_file bucket file) { source = Some (numbers source.now) }))
        (caller asker.now) (standing kinds.NoFile
        (both (version_at core.now source.now.bucket source.now.num) (version_at core.now bucket file)))) }
    ensures found { IfOk result (λ p. both (version_at core.now source.now.bucket source.now.num)
        (version_at core.now bucket file) ≡ Some (p.0.now, p.1.now)) }
{
    let asked = Asked {
        need: need_of(name),
        more: &[],
        fields: part_copy_fields(*source, bucket, file),
    };
    allowed_files(core, asker, &asked, t, source, bucket, file)
}
