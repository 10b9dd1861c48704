//! Updating a bucket.

ghost use Rattle.std.specs.Prelude.{◌≡◌, ◌==◌, ◌<◌, not, Option, Some, IfOk, option_map, option_and_then, MatchOption, ⊤};
ghost use Rattle.std.specs.Option.{is_some};
ghost use Rattle.b2_base.specs.declared.extent.Extent.{Extent as TheExtent};
ghost use Rattle.b2_types.specs.declared.key.Key.{Key as TheKey};
ghost use Rattle.b2_model.specs.Checks.{first_fault, some_and};
ghost use Rattle.b2_model.specs.State.{State, bucket_at};
ghost use Rattle.b2_model.specs.AskBuckets.{update_bucket, updated_bucket};
ghost use Rattle.new_versions.specs.Decided.{DecidesOr};
ghost use Rattle.bucket_state.specs.declared.update.TheConstants.{LAST_REVISION};
ghost use Rattle.bucket_state.specs.Refusals.{bucket_fault};

use crate::copies::{copy_name, copy_rules};
use crate::refusal::BucketRefusal;
use b2_base::{Memory, Moment, Or};
use b2_types::{Bucket, ChangeOf, Record, RecordOf, Rule, UpdateBucket};
use name_rules::InfoPairs;
use new_versions::copy_info;
use std::alloc::Global;

/// The last revision of a bucket.
const LAST_REVISION: u64 = 9_007_199_254_740_991;

fn is_other_revision(bucket: &Bucket, call: &UpdateBucket) -> bool
    ensures { result ≡ some_and (λ r. not (r == bucket.now.revision)) call.now.revision }
{
    match call.revision {
        Some(revision) => revision != bucket.revision,
        None => false,
    }
}

// Whether Object Lock is enabled after the update.
fn is_locked(bucket: &Bucket, call: &UpdateBucket) -> bool
    ensures { result ≡ (updated_bucket call.now bucket.now).lock }
{
    call.lock.unwrap_or(bucket.lock)
}

fn sets_default(call: &UpdateBucket) -> bool
    ensures { result ≡ is_some (option_and_then (λ d. d) call.now.default) }
{
    matches!(call.default, Some(Some(_)))
}

// The first rule that keeps the bucket from being updated.
fn refusal(bucket: &Bucket, call: &UpdateBucket) -> Option<BucketRefusal>
    ensures first { (M : State TheExtent) (key : Option TheKey)
        → bucket_at M call.now.bucket ≡ Some bucket.now
        → option_map bucket_fault result ≡ first_fault (update_bucket M key call.now).own }
    ensures left { MatchOption result (bucket.now.revision < LAST_REVISION) (λ _. ⊤) }
{
    if is_other_revision(bucket, call) {
        return Some(BucketRefusal::Conflict(bucket.revision));
    }
    let is_locked = is_locked(bucket, call);
    let unlocks = bucket.lock & !is_locked;
    if unlocks {
        return Some(BucketRefusal::LockStays);
    }
    let is_unlocked = sets_default(call) & !is_locked;
    if is_unlocked {
        return Some(BucketRefusal::LockOff);
    }
    if bucket.revision >= LAST_REVISION {
        return Some(BucketRefusal::Cap);
    }
    None
}

fn info_of<'a>(bucket: &'a Bucket, call: &'a UpdateBucket) -> &'a InfoPairs
    ensures { result.now ≡ (updated_bucket call.now bucket.now).info }
{
    match &call.info {
        Some(info) => info,
        None => &bucket.info,
    }
}

fn rules_of<'a>(bucket: &'a Bucket, call: &'a UpdateBucket) -> &'a [Rule]
    ensures { result.now ≡ (updated_bucket call.now bucket.now).rules }
{
    match &call.rules {
        Some(rules) => rules.get(),
        None => bucket.rules.get(),
    }
}

fn update(alloc: Global, bucket: &Bucket, call: &UpdateBucket) -> Result<Bucket, Memory>
    requires { bucket.now.revision < LAST_REVISION }
    ensures { IfOk result (λ b. b ≡ updated_bucket call.now bucket.now) }
{
    Ok(Bucket {
        num: bucket.num,
        name: copy_name(alloc, &bucket.name)?,
        public: call.public.unwrap_or(bucket.public),
        revision: bucket.revision + 1,
        lock: is_locked(bucket, call),
        default: call.default.unwrap_or(bucket.default),
        info: copy_info(alloc, Some(info_of(bucket, call)))?,
        rules: copy_rules(alloc, rules_of(bucket, call))?,
    })
}

/// What the update of a bucket comes to, for the bucket that the call names: the record of the
/// bucket as it is then, in which what the call does not give stays, or the first rule that refuses
/// it.
pub fn buckets_update(
    alloc: Global,
    bucket: &Bucket,
    t: Moment,
    call: &UpdateBucket,
) -> Result<Record, Or<BucketRefusal>>
    ensures { (M : State TheExtent) (key : Option TheKey)
        → bucket_at M call.now.bucket ≡ Some bucket.now
        → DecidesOr bucket_fault t (update_bucket M key call.now) result }
{
    if let Some(refusal) = refusal(bucket, call) {
        return Err(Or::Fault(refusal));
    }
    let updated = update(alloc, bucket, call)?;
    Ok(RecordOf {
        at: t,
        change: ChangeOf::BucketUpdate(updated),
    })
}
