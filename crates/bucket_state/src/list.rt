//! Listing buckets.

ghost use Rattle.std.specs.Prelude.{◌≡◌, ◌==◌, ◌||◌, IfOk, map, filter, codes, bytes_eq};
ghost use Rattle.std.specs.List.{list_any};
ghost use Rattle.b2_model.specs.AskBuckets.{fits_filters, has_type, or_true, type_name};
ghost use Rattle.b2_model.specs.Policy.{is_same_name};

use crate::create::is_same_name;
use b2_base::{BucketNum, List, Memory, Text};
use b2_types::{Bucket, ListBuckets};
use name_rules::BucketName;
use std::alloc::Global;

fn type_name(bucket: &Bucket) -> &'static str
    ensures { result.now ≡ type_name bucket.now }
{
    if bucket.public {
        "allPublic"
    } else {
        "allPrivate"
    }
}

fn is_type(text: &str, own: &str) -> bool
    ensures { result ≡ (bytes_eq text.now (codes "all") || bytes_eq text.now own.now) }
{
    (text == "all") | (text == own)
}

fn names_type(types: &[Text], own: &str) -> bool
    ensures { result ≡ list_any (λ t. bytes_eq t (codes "all") || bytes_eq t own.now) types.now }
{
    types.iter().any(|text| is_type(text.get(), own))
}

fn has_type(bucket: &Bucket, types: &Option<List<Text>>) -> bool
    ensures { result ≡ has_type types.now bucket.now }
{
    match types {
        Some(types) => types.get().is_empty() | names_type(types.get(), type_name(bucket)),
        None => true,
    }
}

fn has_number(bucket: &Bucket, number: Option<BucketNum>) -> bool
    ensures { result ≡ or_true (λ n. bucket.now.num == n) number }
{
    match number {
        Some(number) => bucket.num.get() == number.get(),
        None => true,
    }
}

fn has_name(bucket: &Bucket, name: &Option<BucketName>) -> bool
    ensures { result ≡ or_true (λ name. is_same_name bucket.now.name name) name.now }
{
    match name {
        Some(name) => is_same_name(&bucket.name, name),
        None => true,
    }
}

fn fits(call: &ListBuckets, bucket: &Bucket) -> bool
    ensures { result ≡ fits_filters call.now bucket.now }
{
    has_number(bucket, call.bucket) & has_name(bucket, &call.name) & has_type(bucket, &call.types)
}

/// The buckets that pass each filter that is given, in their order.
pub fn buckets_list<'a>(
    alloc: Global,
    all: &'a [Bucket],
    call: &ListBuckets,
) -> Result<Vec<&'a Bucket>, Memory>
    ensures { IfOk result (λ rows. map (λ b. b.now) rows.items
        ≡ filter (fits_filters call.now) all.now) }
{
    let mut rows = Vec::new(alloc);
    for bucket in all {
        if fits(call, bucket) {
            rows.push(bucket)?;
        }
    }
    Ok(rows)
}
