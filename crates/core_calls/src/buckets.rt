//! Calls on buckets.

ghost use Rattle.std.specs.Prelude.{◌≡◌, Some, IfOk, IsSome};
ghost use Rattle.std.specs.Option.{option_copied};
ghost use Rattle.b2_types.specs.declared.answer.AnswerOf.TheVariants as answer;
ghost use Rattle.b2_types.specs.declared.bucket.Bucket.{Bucket as TheBucket};
ghost use Rattle.b2_types.specs.declared.fault.Fault.{Fault as TheFault};
ghost use Rattle.b2_types.specs.declared.call.Call.TheVariants as calls;
ghost use Rattle.b2_types.specs.Need.{more_caps};
ghost use Rattle.b2_model.specs.Shown.{shown_bucket};
ghost use Rattle.new_versions.specs.Decided.{fault_told};
ghost use Rattle.bucket_state.specs.Refusals.{bucket_fault};
ghost use Rattle.core_calls.specs.Buckets.{bucket_in};
ghost use Rattle.core_decisions.specs.declared.decision.Decision.TheVariants as decision;
ghost use Rattle.core_decisions.specs.Decided.{IsDecision};

use b2_base::{Memory, Moment, Or, Settings};
use b2_types::{
    AnswerOf, Bucket, ChangeOf, CreateBucket, DeleteBucket, Key, Record, Shown, ShownBucket,
    UpdateBucket,
};
use bucket_state::{BucketRefusal, buckets_create, buckets_remove, buckets_update, fault_of};
use core_decisions::{Decision, plain_refusal, refusal};
use core_policy::{account_bucket_for, account_for, asker_of};
use core_state::Core;
use rule_table::{CallName, Cap};
use shown_values::show_bucket;
use std::alloc::Global;

// The bucket of a record as the answer to a call of this key shows it.
fn show_made(
    alloc: Global,
    settings: &Settings,
    key: Option<&Key>,
    record: &Record,
) -> Result<ShownBucket, Memory>
    requires { IsSome (bucket_in record.now.change) }
    ensures { IfOk result (λ s. (b : TheBucket) → bucket_in record.now.change ≡ Some b
        → s ≡ shown_bucket settings.now (option_copied key.entry) b) }
{
    match &record.change {
        ChangeOf::BucketMake(bucket) => show_bucket(alloc, settings, key, bucket),
        ChangeOf::BucketUpdate(bucket) => show_bucket(alloc, settings, key, bucket),
        _ => unreachable!(),
    }
}

// What is answered where there is no record.
fn not_made(error: Or<BucketRefusal>) -> Result<Decision, Memory>
    ensures { IfOk result (λ d. (fault : TheFault) × (fault_told bucket_fault error ≡ Some fault)
        × (d ≡ decision.Reply (answer.Refused fault))) }
{
    match error {
        Or::Memory => Err(Memory),
        Or::Fault(refused) => Ok(refusal(fault_of(refused))),
    }
}

/// Makes a bucket.
pub fn create_bucket(
    alloc: Global,
    core: &Core,
    t: Moment,
    token: Option<&[u8]>,
    call: &CreateBucket,
) -> Result<Decision, Memory>
    ensures { IfOk result (IsDecision core.now t (option_copied token.entry)
        (calls.CreateBucket call.now)) }
{
    let asker = asker_of(core, token);
    if let Err(kind) = account_for(core, &asker, t, CallName::CreateBucket, &call.account) {
        return Ok(plain_refusal(kind));
    }
    let record = match buckets_create(alloc, core.buckets(), core.next_bucket(), t, call) {
        Ok(record) => record,
        Err(error) => return not_made(error),
    };
    let shown = show_made(alloc, core.settings(), asker.key, &record)?;
    Ok(Decision::Write(record, AnswerOf::Json(Shown::Bucket(shown))))
}

/// Deletes a bucket in which nothing stands.
pub fn delete_bucket(
    alloc: Global,
    core: &Core,
    t: Moment,
    token: Option<&[u8]>,
    call: &DeleteBucket,
) -> Result<Decision, Memory>
    ensures { IfOk result (IsDecision core.now t (option_copied token.entry)
        (calls.DeleteBucket call.now)) }
{
    let asker = asker_of(core, token);
    let name = CallName::DeleteBucket;
    let bucket = match account_bucket_for(core, &asker, t, name, &[], &call.account, call.bucket) {
        Ok(bucket) => bucket,
        Err(kind) => return Ok(plain_refusal(kind)),
    };
    let is_empty = !core.has_versions(alloc, bucket.num);
    let record = match buckets_remove(bucket, is_empty, t) {
        Ok(record) => record,
        Err(refused) => return Ok(refusal(fault_of(refused))),
    };
    let shown = show_bucket(alloc, core.settings(), asker.key, bucket)?;
    Ok(Decision::Write(record, AnswerOf::Json(Shown::Bucket(shown))))
}

// The capabilities that an update needs besides.
fn more_for(call: &UpdateBucket) -> &'static [Cap]
    ensures { result.now ≡ more_caps (calls.UpdateBucket call.now) }
{
    if call.default.is_some() {
        &[Cap::WriteBucketRetentions]
    } else {
        &[]
    }
}

/// Changes a bucket.
pub fn update_bucket(
    alloc: Global,
    core: &Core,
    t: Moment,
    token: Option<&[u8]>,
    call: &UpdateBucket,
) -> Result<Decision, Memory>
    ensures { IfOk result (IsDecision core.now t (option_copied token.entry)
        (calls.UpdateBucket call.now)) }
{
    let asker = asker_of(core, token);
    let name = CallName::UpdateBucket;
    let more = more_for(call);
    let bucket = match account_bucket_for(core, &asker, t, name, more, &call.account, call.bucket) {
        Ok(bucket) => bucket,
        Err(kind) => return Ok(plain_refusal(kind)),
    };
    let record = match buckets_update(alloc, bucket, t, call) {
        Ok(record) => record,
        Err(error) => return not_made(error),
    };
    let shown = show_made(alloc, core.settings(), asker.key, &record)?;
    Ok(Decision::Write(record, AnswerOf::Json(Shown::Bucket(shown))))
}
