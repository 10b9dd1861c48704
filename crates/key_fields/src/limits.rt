//! The buckets that a key is limited to.

ghost use Rattle.std.specs.Prelude.{◌≡◌, codes, IfOk, option_map};
ghost use Rattle.serde_json.specs.View.{view};
ghost use Rattle.json_shape.specs.Fields.{Gives};
ghost use Rattle.field_kinds.specs.Reader.{optional};
ghost use Rattle.key_fields.specs.Limits.{in_order, limits_of, one_bucket, several_buckets, limit_key, limits, is_limited, prefix};

use b2_base::{BucketNum, List, Memory, Or, Text};
use b2_types::{ApiVersion, Fault};
use field_kinds::{TextRule, optional, optional_text, wrong};
use serde_json::Value;
use std::alloc::Global;
use std::collections::BTreeSet;

fn ordered(alloc: Global, numbers: &[BucketNum]) -> Result<BTreeSet<BucketNum>, Memory>
    ensures { IfOk result (λ s. s.keys ≡ in_order numbers.now) }
{
    let mut set = BTreeSet::new(alloc);
    for number in numbers {
        set.insert(*number)?;
    }
    Ok(set)
}

fn listed(alloc: Global, set: BTreeSet<BucketNum>) -> Result<List<BucketNum>, Memory>
    ensures { IfOk result (λ l. l ≡ set.keys) }
{
    let mut list = Vec::new(alloc);
    for number in set {
        list.push(number)?;
    }
    Ok(List::of(list))
}

fn limits_of(alloc: Global, numbers: &[BucketNum]) -> Result<Option<List<BucketNum>>, Memory>
    ensures { IfOk result (λ o. o ≡ limits_of numbers.now) }
{
    let set = ordered(alloc, numbers)?;
    let are_few = (1 <= numbers.len()) & (numbers.len() <= 16);
    let are_limits = are_few & (set.len() == numbers.len());
    if !are_limits {
        return Ok(None);
    }
    let list = listed(alloc, set)?;
    Ok(Some(list))
}

fn one_bucket(alloc: Global, body: &Value) -> Result<Option<List<BucketNum>>, Or<Fault>>
    ensures { Gives (λ x. x) result (optional (codes "bucketId") one_bucket (view body.now)) }
{
    let found: Option<BucketNum> = optional(alloc, body, "bucketId")?;
    let Some(number) = found else {
        return Ok(None);
    };
    let mut list = Vec::new(alloc);
    list.push(number)?;
    Ok(Some(List::of(list)))
}

fn several_buckets(alloc: Global, body: &Value) -> Result<Option<List<BucketNum>>, Or<Fault>>
    ensures { Gives (λ x. x) result (optional (codes "bucketIds") several_buckets (view body.now)) }
{
    let found: Option<List<BucketNum>> = optional(alloc, body, "bucketIds")?;
    let Some(numbers) = found else {
        return Ok(None);
    };
    match limits_of(alloc, numbers.get())? {
        Some(limits) => Ok(Some(limits)),
        None => Err(Or::Fault(wrong(alloc, "bucketIds")?)),
    }
}

/// The buckets that a key is to be limited to, where some are given.
pub(crate) fn limits(
    alloc: Global,
    version: ApiVersion,
    body: &Value,
) -> Result<Option<List<BucketNum>>, Or<Fault>>
    ensures { Gives (λ x. x) result (limits version (view body.now)) }
{
    let found = match version {
        ApiVersion::V3 => one_bucket(alloc, body)?,
        ApiVersion::V4 => several_buckets(alloc, body)?,
    };
    Ok(found)
}

fn is_limited(version: ApiVersion, body: &Value) -> bool
    ensures { result ≡ is_limited version (view body.now) }
{
    let key = match version {
        ApiVersion::V3 => "bucketId",
        ApiVersion::V4 => "bucketIds",
    };
    match body.get(key) {
        None | Some(Value::Null) => false,
        Some(_) => true,
    }
}

/// The prefix of the names that a key reaches, where one is given.
pub(crate) fn prefix(
    alloc: Global,
    version: ApiVersion,
    body: &Value,
) -> Result<Option<Text>, Or<Fault>>
    ensures { Gives (λ x. x) result (prefix version (view body.now)) }
{
    if is_limited(version, body) {
        let front = optional_text(alloc, body, "namePrefix", TextRule::KeyPrefix)?;
        return Ok(front);
    }
    match body.get("namePrefix") {
        None | Some(Value::Null) => Ok(None),
        Some(_) => Err(Or::Fault(wrong(alloc, "namePrefix")?)),
    }
}
