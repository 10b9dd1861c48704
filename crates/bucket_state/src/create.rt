//! Making a bucket.

ghost use Rattle.std.specs.Prelude.{◌≡◌, [], Option, IfOk, unwrap_or, option_map};
ghost use Rattle.std.specs.List.{list_any};
ghost use Rattle.b2_base.specs.declared.extent.Extent.{Extent as TheExtent};
ghost use Rattle.b2_types.specs.declared.key.Key.{Key as TheKey};
ghost use Rattle.b2_model.specs.Checks.{first_fault};
ghost use Rattle.b2_model.specs.State.{State};
ghost use Rattle.b2_model.specs.Policy.{is_same_name};
ghost use Rattle.b2_model.specs.AskBuckets.{create_bucket, new_bucket};
ghost use Rattle.new_versions.specs.Decided.{DecidesOr};
ghost use Rattle.bucket_state.specs.Refusals.{bucket_fault};

use crate::copies::{copy_name, copy_rules};
use crate::refusal::BucketRefusal;
use b2_base::{BucketNum, List, Memory, Moment, Or};
use b2_types::{Bucket, ChangeOf, CreateBucket, Record, RecordOf, Rule};
use name_rules::BucketName;
use new_versions::copy_info;
use std::alloc::Global;

/// The most buckets of a store.
const MOST_BUCKETS: usize = 100;

/// Whether the names are equal without regard to case.
pub(crate) fn is_same_name(a: &BucketName, b: &BucketName) -> bool
    ensures { result ≡ is_same_name a.now b.now }
{
    a.get().as_bytes().eq_ignore_ascii_case(b.get().as_bytes())
}

fn is_taken(all: &[Bucket], name: &BucketName) -> bool
    ensures { result ≡ list_any (λ b. is_same_name b.name name.now) all.now }
{
    all.iter().any(|bucket| is_same_name(&bucket.name, name))
}

// The first rule that keeps the bucket from being made.
fn refusal(all: &[Bucket], next: BucketNum, call: &CreateBucket) -> Option<BucketRefusal>
    ensures { (M : State TheExtent) (key : Option TheKey) → M.buckets ≡ all.now
        → M.next_bucket ≡ next
        → option_map bucket_fault result ≡ first_fault (create_bucket M key call.now).own }
{
    if is_taken(all, &call.name) {
        return Some(BucketRefusal::Duplicate);
    }
    if all.len() >= MOST_BUCKETS {
        return Some(BucketRefusal::TooMany);
    }
    if next.get() == u32::MAX {
        return Some(BucketRefusal::Cap);
    }
    None
}

fn rules_of(rules: &Option<List<Rule>>) -> &[Rule]
    ensures { result.now ≡ unwrap_or rules.now [] }
{
    match rules {
        Some(rules) => rules.get(),
        None => &[],
    }
}

fn make(alloc: Global, next: BucketNum, call: &CreateBucket) -> Result<Bucket, Memory>
    ensures { IfOk result (λ b. (M : State TheExtent) → M.next_bucket ≡ next
        → b ≡ new_bucket M call.now) }
{
    Ok(Bucket {
        num: next,
        name: copy_name(alloc, &call.name)?,
        public: call.public,
        revision: 1,
        lock: call.lock.unwrap_or(false),
        default: None,
        info: copy_info(alloc, call.info.as_ref())?,
        rules: copy_rules(alloc, rules_of(&call.rules))?,
    })
}

/// What the making of a bucket comes to, beside all that stand: the record of the bucket of the
/// next number, or the first rule that refuses it.
pub fn buckets_create(
    alloc: Global,
    all: &[Bucket],
    next: BucketNum,
    t: Moment,
    call: &CreateBucket,
) -> Result<Record, Or<BucketRefusal>>
    ensures { (M : State TheExtent) (key : Option TheKey) → M.buckets ≡ all.now
        → M.next_bucket ≡ next
        → DecidesOr bucket_fault t (create_bucket M key call.now) result }
{
    if let Some(refusal) = refusal(all, next, call) {
        return Err(Or::Fault(refusal));
    }
    let bucket = make(alloc, next, call)?;
    Ok(RecordOf {
        at: t,
        change: ChangeOf::BucketMake(bucket),
    })
}
