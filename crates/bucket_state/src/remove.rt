//! Removing a bucket.

ghost use Rattle.std.specs.Prelude.{◌≡◌, ◌==◌, not, Option, Some};
ghost use Rattle.std.specs.List.{list_any};
ghost use Rattle.b2_base.specs.declared.extent.Extent.{Extent as TheExtent};
ghost use Rattle.b2_types.specs.declared.key.Key.{Key as TheKey};
ghost use Rattle.b2_types.specs.declared.call.DeleteBucket.{DeleteBucket as TheDeletion};
ghost use Rattle.b2_model.specs.State.{State, bucket_at};
ghost use Rattle.b2_model.specs.AskBuckets.{delete_bucket};
ghost use Rattle.new_versions.specs.Decided.{Decides};
ghost use Rattle.bucket_state.specs.Refusals.{bucket_fault};

use crate::refusal::BucketRefusal;
use b2_base::Moment;
use b2_types::{Bucket, ChangeOf, Record, RecordOf};

/// What the deletion of a bucket comes to, for the bucket that the call names: its record, where
/// no version stands in it, which `empty` says.
pub fn buckets_remove(bucket: &Bucket, empty: bool, t: Moment) -> Result<Record, BucketRefusal>
    ensures { (M : State TheExtent) (key : Option TheKey) (call : TheDeletion)
        → bucket_at M call.bucket ≡ Some bucket.now
        → list_any (λ v. v.bucket == bucket.now.num) M.versions ≡ not empty
        → Decides bucket_fault t (delete_bucket M key call) result }
{
    if !empty {
        return Err(BucketRefusal::NotEmpty);
    }
    Ok(RecordOf {
        at: t,
        change: ChangeOf::BucketDrop(bucket.num),
    })
}
