//! Ids of buckets.

ghost use Rattle.std.specs.Prelude.{◌≡◌, ◌≢◌, ◌<◌, ◌^◌, ℕ, IfOk, IfSome, MatchOption};
ghost use Rattle.b2_base.specs.BucketId.{bucket_id};

use crate::bytes::behind;
use crate::digits::{read_eight, write_eight};
use crate::failure::Memory;
use crate::numbers::BucketNum;
use crate::text::Text;
use std::alloc::Global;

/// The ids of buckets: sixteen zeros and the bucket's eight hex digits. This spelling is the store's own.
#[derive(Clone, Copy, Debug, PartialEq, Eq)]
pub struct BucketId;

impl BucketId {
    /// The id of the bucket of this number.
    pub fn write(alloc: Global, bucket: BucketNum) -> Result<Text, Memory>
        ensures { IfOk result (λ t. t ≡ bucket_id bucket) }
    {
        let digits = write_eight(alloc, bucket.get())?;
        let text = format!(in alloc; "0000000000000000{digits}")?;
        Ok(Text::of(text))
    }

    /// The bucket whose id these bytes are.
    pub fn read(bytes: &[u8]) -> Option<BucketNum>
        ensures id { MatchOption result
            ((bucket : ℕ) → bucket < 2 ^ 32 → bytes.now ≢ bucket_id bucket)
            (λ bucket. bytes.now ≡ bucket_id bucket) }
        ensures range { IfSome result (λ bucket. bucket < 2 ^ 32) }
    {
        let Some(digits) = behind(b"0000000000000000", bytes) else {
            return None;
        };
        let Some(number) = read_eight(digits) else {
            return None;
        };
        BucketNum::new(number)
    }
}
