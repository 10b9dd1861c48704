//! The calls on buckets.

ghost use Rattle.serde_json.specs.View.{view};
ghost use Rattle.json_shape.specs.Fields.{Gives};
ghost use Rattle.call_fields.specs.Buckets.{delete_bucket, list_buckets};

use b2_base::Or;
use b2_types::{DeleteBucket, Fault, ListBuckets};
use field_kinds::{needed, optional};
use serde_json::Value;
use std::alloc::Global;

pub(crate) fn delete_bucket(alloc: Global, body: &Value) -> Result<DeleteBucket, Or<Fault>>
    ensures { Gives (λ c. c) result (delete_bucket (view body.now)) }
{
    let account = needed(alloc, body, "accountId")?;
    let bucket = needed(alloc, body, "bucketId")?;
    Ok(DeleteBucket { account, bucket })
}

pub(crate) fn list_buckets(alloc: Global, body: &Value) -> Result<ListBuckets, Or<Fault>>
    ensures { Gives (λ c. c) result (list_buckets (view body.now)) }
{
    let account = needed(alloc, body, "accountId")?;
    let bucket = optional(alloc, body, "bucketId")?;
    let name = optional(alloc, body, "bucketName")?;
    let types = optional(alloc, body, "bucketTypes")?;
    Ok(ListBuckets {
        account,
        bucket,
        name,
        types,
    })
}
