//! Ids of files.

ghost use Rattle.std.specs.Prelude.{◌≡◌, ◌≢◌, ◌<◌, ◌≤◌, ◌^◌, ℕ, List, length, IfOk, IfSome, MatchOption};
ghost use Rattle.b2_base.specs.FileId.{file_id, id_text, IsIdOf};

use crate::bytes::behind;
use crate::digits::{read_eight, read_sixteen, write_eight, write_sixteen};
use crate::failure::Memory;
use crate::numbers::{BucketNum, LAST_VERSION, VersionNum};
use crate::text::Text;
use std::alloc::Global;

/// The ids of files: `4_z`, the bucket's eight hex digits, `_f` and the version's sixteen. This spelling
/// is the store's own.
#[derive(Clone, Copy, Debug, PartialEq, Eq)]
pub struct FileId;

impl FileId {
    /// The id of the version of this number in this bucket.
    pub fn write(alloc: Global, bucket: BucketNum, num: VersionNum) -> Result<Text, Memory>
        ensures { IfOk result (λ t. t ≡ file_id bucket num) }
    {
        let bucket = write_eight(alloc, bucket.get())?;
        let version = write_sixteen(alloc, num.get())?;
        let text = format!(in alloc; "4_z{bucket}_f{version}")?;
        Ok(Text::of(text))
    }

    /// The bucket and the version whose id these bytes are.
    pub fn read(bytes: &[u8]) -> Option<(BucketNum, VersionNum)>
        ensures { MatchOption result
            ((bucket version : ℕ) → bucket < 2 ^ 32 → version ≤ LAST_VERSION
            → bytes.now ≢ file_id bucket version)
            (λ id. bytes.now ≡ file_id id.0 id.1) }
    {
        let Some((bucket, version)) = parts(bytes) else {
            return None;
        };
        let Some(bucket) = BucketNum::new(bucket) else {
            return None;
        };
        let Some(version) = VersionNum::new(version) else {
            return None;
        };
        Some((bucket, version))
    }
}

// The digits of the bucket and of the version, where the bytes have the form of an id.
fn pieces(bytes: &[u8]) -> Option<(&[u8], &[u8])>
    ensures { MatchOption result
        ((bucket version : List ℕ) → length bucket ≡ 8 → length version ≡ 16
        → bytes.now ≢ id_text bucket version)
        (λ p. IsIdOf bytes.now p.0.now p.1.now) }
{
    let Some(rest) = behind(b"4_z", bytes) else {
        return None;
    };
    if rest.len() != 26 {
        return None;
    }
    let (bucket, rest) = rest.split_at(8);
    let Some(version) = behind(b"_f", rest) else {
        return None;
    };
    Some((bucket, version))
}

// The two numbers of which these bytes are an id, in their types' ranges.
fn parts(bytes: &[u8]) -> Option<(u32, u64)>
    ensures id { MatchOption result
        ((bucket version : ℕ) → bucket < 2 ^ 32 → version < 2 ^ 64
        → bytes.now ≢ file_id bucket version)
        (λ p. bytes.now ≡ file_id p.0 p.1) }
    ensures range { IfSome result (λ p. p.1 < 2 ^ 64) }
{
    let Some((bucket, version)) = pieces(bytes) else {
        return None;
    };
    let Some(bucket) = read_eight(bucket) else {
        return None;
    };
    let Some(version) = read_sixteen(version) else {
        return None;
    };
    Some((bucket, version))
}
