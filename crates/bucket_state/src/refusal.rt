//! Refusals of calls on buckets.

ghost use Rattle.std.specs.Prelude.{◌≡◌};
ghost use Rattle.bucket_state.specs.Refusals.{bucket_fault};

use b2_types::Fault;
use rule_table::FaultKind;

/// Why a bucket is not made, updated or removed.
#[derive(Clone, Copy, Debug, PartialEq, Eq)]
pub enum BucketRefusal {
    /// A bucket has the name, in some case.
    Duplicate,
    /// There are as many buckets as a store may have.
    TooMany,
    /// The bucket has this revision, and another is asked for.
    Conflict(u64),
    /// Object Lock is never taken off.
    LockStays,
    /// A default retention is asked for where Object Lock is off.
    LockOff,
    /// No number of a bucket, or no revision, is left.
    Cap,
    /// A version of a file stands in the bucket.
    NotEmpty,
}

/// The refusal as a fault.
pub fn fault_of(refusal: BucketRefusal) -> Fault
    ensures { result ≡ bucket_fault refusal }
{
    match refusal {
        BucketRefusal::Duplicate => Fault::plain(FaultKind::Duplicate),
        BucketRefusal::TooMany => Fault::plain(FaultKind::TooManyBuckets),
        BucketRefusal::Conflict(revision) => Fault::with_number(FaultKind::Conflict, revision),
        BucketRefusal::LockStays => Fault::plain(FaultKind::LockStays),
        BucketRefusal::LockOff => Fault::plain(FaultKind::LockOff),
        BucketRefusal::Cap => Fault::plain(FaultKind::Cap),
        BucketRefusal::NotEmpty => Fault::plain(FaultKind::NotEmpty),
    }
}
