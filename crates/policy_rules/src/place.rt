//! The buckets and the prefix that a caller is limited to.

ghost use Rattle.std.specs.Prelude.{◌≡◌, not, [], ◌∷◌};
ghost use Rattle.std.specs.List.{list_any};
ghost use Rattle.std.specs.Option.{option_copied};
ghost use Rattle.b2_types.specs.Naming.{places, places_at, filtered};
ghost use Rattle.b2_model.specs.Lists.{is_among};
ghost use Rattle.b2_model.specs.Policy.{limits, prefix_limit, is_for_downloads, is_same_name, is_name_among, is_outside};
ghost use Rattle.policy_rules.specs.Asked.{caller, named, places_of};

use crate::asked::{Asker, Fields, SomeBucket};
use crate::known::Known;
use b2_base::BucketNum;
use b2_types::{Thing, TokenKind};
use std::slice;

/// Whether the caller's token is one for downloads.
pub(crate) fn is_for_downloads(asker: &Asker<'_>) -> bool
    ensures { result ≡ is_for_downloads (caller asker.now) }
{
    match asker.grant {
        Some(grant) => matches!(grant.kind, TokenKind::Download),
        None => false,
    }
}

/// The buckets that the caller is limited to; none where it is not limited.
pub(crate) fn limits<'a>(asker: &Asker<'a>) -> &'a [BucketNum]
    ensures { result.now ≡ limits (caller asker.now) }
{
    if is_for_downloads(asker) {
        match asker.grant {
            Some(grant) => slice::from_ref(&grant.bucket),
            None => &[],
        }
    } else {
        match asker.key {
            Some(key) => key.buckets.get(),
            None => &[],
        }
    }
}

/// The prefix that the caller is limited to.
pub(crate) fn prefix_limit<'a>(asker: &Asker<'a>) -> &'a [u8]
    ensures { result.now ≡ prefix_limit (caller asker.now) }
{
    if is_for_downloads(asker) {
        match asker.grant {
            Some(grant) => grant.prefix.get().as_bytes(),
            None => &[],
        }
    } else {
        match asker.key {
            Some(key) => key.prefix.get().as_bytes(),
            None => &[],
        }
    }
}

fn is_among(numbers: &[BucketNum], bucket: BucketNum) -> bool
    ensures { result ≡ is_among numbers.now bucket }
{
    numbers.iter().any(|number| number.get() == bucket.get())
}

// Whether the bucket stands and has this name.
fn has_name<K: Known>(known: &K, bucket: BucketNum, name: &[u8]) -> bool
    ensures { result ≡ is_name_among (K.state known.now) (bucket ∷ []) name.now }
{
    match known.bucket_name(bucket) {
        Some(own) => own.get().as_bytes().eq_ignore_ascii_case(name),
        None => false,
    }
}

fn is_name_among<K: Known>(known: &K, numbers: &[BucketNum], name: &[u8]) -> bool
    ensures { result ≡ is_name_among (K.state known.now) numbers.now name.now }
{
    numbers.iter().any(|number| has_name(known, *number, name))
}

// Whether the place of a filter is outside of these buckets.
fn is_filter_outside<K: Known>(
    known: &K,
    numbers: &[BucketNum],
    bucket: Option<BucketNum>,
    name: Option<&[u8]>,
) -> bool
    ensures { result ≡ is_outside (K.state known.now) numbers.now
        (filtered bucket (option_copied name.entry)) }
{
    let is_other = match bucket {
        Some(bucket) => !is_among(numbers, bucket),
        None => false,
    };
    let is_other_name = match name {
        Some(name) => !is_name_among(known, numbers, name),
        None => false,
    };
    (bucket.is_none() & name.is_none()) | is_other | is_other_name
}

fn is_each_outside(numbers: &[BucketNum], buckets: &[BucketNum]) -> bool
    ensures { result ≡ list_any (λ bucket. not (is_among numbers.now bucket)) buckets.now }
{
    buckets.iter().any(|bucket| !is_among(numbers, *bucket))
}

// Whether a bucket of the list or filter is outside of these.
fn is_some_outside<K: Known>(known: &K, numbers: &[BucketNum], some: &SomeBucket<'_>) -> bool
    ensures { result ≡ list_any (is_outside (K.state known.now) numbers.now) (places_of some.now) }
{
    match some {
        SomeBucket::Each(buckets) => is_each_outside(numbers, buckets),
        SomeBucket::Filter(bucket, name) => is_filter_outside(known, numbers, *bucket, *name),
    }
}

// Whether a bucket that the thing names is outside of these.
fn is_thing_outside<K: Known>(
    known: &K,
    numbers: &[BucketNum],
    fields: &Fields<'_>,
    thing: Thing,
) -> bool
    ensures { result ≡ list_any (is_outside (K.state known.now) numbers.now)
        (places_at (named fields.now) thing) }
{
    match thing {
        Thing::Account | Thing::Name | Thing::Prefix => false,
        Thing::Bucket => match fields.bucket {
            Some(bucket) => !is_among(numbers, bucket),
            None => false,
        },
        Thing::SomeBucket => match &fields.some_bucket {
            Some(some) => is_some_outside(known, numbers, some),
            None => false,
        },
        Thing::PathBucket => match fields.path_bucket {
            Some(name) => !is_name_among(known, numbers, name),
            None => false,
        },
        Thing::File => match fields.file {
            Some(file) => !is_among(numbers, file.bucket),
            None => false,
        },
        Thing::Source => match fields.source {
            Some(file) => !is_among(numbers, file.bucket),
            None => false,
        },
    }
}

// Whether one of the things names a bucket outside of these.
fn has_outside<K: Known>(
    known: &K,
    numbers: &[BucketNum],
    fields: &Fields<'_>,
    things: &[Thing],
) -> bool
    ensures { result ≡ list_any (λ thing. list_any (is_outside (K.state known.now) numbers.now)
        (places_at (named fields.now) thing)) things.now }
{
    things
        .iter()
        .any(|thing| is_thing_outside(known, numbers, fields, *thing))
}

/// Whether a bucket that is named is outside of these.
pub(crate) fn is_any_outside<K: Known>(
    known: &K,
    numbers: &[BucketNum],
    fields: &Fields<'_>,
    things: &[Thing],
) -> bool
    ensures { result ≡ list_any (is_outside (K.state known.now) numbers.now)
        (places things.now (named fields.now)) }
{
    has_outside(known, numbers, fields, things)
}
