//! The fields of calls that name something.

ghost use Rattle.std.specs.Prelude.{◌≡◌, Some, map};
ghost use Rattle.std.specs.Option.{option_copied};
ghost use Rattle.b2_types.specs.declared.call.Call.TheVariants as calls;
ghost use Rattle.b2_types.specs.Naming.{fields_of, in_bucket, nothing, of_number, on_account, on_file, on_name, with_prefix};
ghost use Rattle.policy_rules.specs.Asked.{named, numbers};

use b2_base::{BucketNum, Text, VersionNum};
use b2_types::{ListBuckets, VersionId};
use name_rules::FileName;
use policy_rules::{Fields, SomeBucket};

/// Nothing is named.
pub(crate) fn no_fields<'a>() -> Fields<'a>
    ensures { named result ≡ nothing }
{
    Fields {
        account: None,
        bucket: None,
        some_bucket: None,
        path_bucket: None,
        file: None,
        source: None,
        name: None,
        prefix: None,
    }
}

/// Those of a call on an account, and on a bucket of it where one is named.
pub(crate) fn account_fields<'a>(account: &'a Text, bucket: Option<BucketNum>) -> Fields<'a>
    ensures { named result ≡ record (on_account account.now) { bucket = bucket } }
{
    let mut fields = no_fields();
    fields.account = Some(account.get().as_bytes());
    fields.bucket = bucket;
    fields
}

/// Those of a call on a bucket.
pub(crate) fn bucket_fields<'a>(bucket: BucketNum) -> Fields<'a>
    ensures { named result ≡ in_bucket bucket }
{
    let mut fields = no_fields();
    fields.bucket = Some(bucket);
    fields
}

/// Those of a call on a name in a bucket.
pub(crate) fn name_fields<'a>(bucket: BucketNum, name: &'a FileName) -> Fields<'a>
    ensures { named result ≡ on_name bucket name.now }
{
    let mut fields = bucket_fields(bucket);
    fields.name = Some(name.get().as_bytes());
    fields
}

/// Those of a call on the names with a prefix in a bucket; none given is the empty one.
pub(crate) fn prefix_fields<'a>(bucket: BucketNum, prefix: Option<&'a Text>) -> Fields<'a>
    ensures { named result ≡ with_prefix bucket (option_copied prefix.entry) }
{
    let mut fields = bucket_fields(bucket);
    fields.prefix = match prefix {
        Some(prefix) => Some(prefix.get().as_bytes()),
        None => Some(b""),
    };
    fields
}

/// Those of a call on a file.
pub(crate) fn file_fields<'a>(bucket: BucketNum, file: VersionNum) -> Fields<'a>
    ensures { named result ≡ on_file bucket file }
{
    let mut fields = no_fields();
    fields.file = Some(VersionId { bucket, num: file });
    fields
}

/// Those of a call on an account that names several of its buckets.
pub(crate) fn buckets_fields<'a>(account: &'a Text, buckets: &'a [BucketNum]) -> Fields<'a>
    ensures { named result ≡ record (on_account account.now) {
      some_bucket = Some (map of_number buckets.now);
    } }
{
    let mut fields = account_fields(account, None);
    fields.some_bucket = Some(SomeBucket::Each(buckets));
    fields
}

/// Those of a listing of buckets: the bucket that its filters name.
pub(crate) fn filter_fields<'a>(call: &'a ListBuckets) -> Fields<'a>
    ensures { named result ≡ fields_of (calls.ListBuckets call.now) }
{
    let name = match &call.name {
        Some(name) => Some(name.get().as_bytes()),
        None => None,
    };
    let mut fields = account_fields(&call.account, None);
    fields.some_bucket = Some(SomeBucket::Filter(call.bucket, name));
    fields
}

/// Those of a call on a name in the bucket of a path.
pub(crate) fn path_fields<'a>(bucket: &'a Text, name: &'a FileName) -> Fields<'a>
    ensures { named result
        ≡ record nothing { path_bucket = Some bucket.now; name = Some name.now } }
{
    let mut fields = no_fields();
    fields.path_bucket = Some(bucket.get().as_bytes());
    fields.name = Some(name.get().as_bytes());
    fields
}

/// Those of a copy to a name in a bucket.
pub(crate) fn copy_fields<'a>(
    source: VersionId,
    bucket: BucketNum,
    name: &'a FileName,
) -> Fields<'a>
    ensures { named result
        ≡ record (on_name bucket name.now) { source = Some (numbers source) } }
{
    let mut fields = name_fields(bucket, name);
    fields.source = Some(source);
    fields
}

/// Those of a copy to a large file.
pub(crate) fn part_copy_fields<'a>(
    source: VersionId,
    bucket: BucketNum,
    file: VersionNum,
) -> Fields<'a>
    ensures { named result ≡ record (on_file bucket file) { source = Some (numbers source) } }
{
    let mut fields = file_fields(bucket, file);
    fields.source = Some(source);
    fields
}
