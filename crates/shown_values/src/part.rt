//! Parts that are shown.

ghost use Rattle.std.specs.Prelude.{◌≡◌};
ghost use Rattle.b2_model.specs.Shown.{shown_part};
ghost use Rattle.new_versions.specs.Decided.{extent_len};

use b2_base::{BucketNum, VersionNum};
use b2_types::{Part, ShownDigest, ShownPart};

/// The part of the large file with this bucket and number.
pub fn show_part(bucket: BucketNum, num: VersionNum, part: &Part) -> ShownPart
    ensures { result ≡ shown_part extent_len bucket num part.now }
{
    ShownPart {
        bucket,
        file: num,
        number: part.number,
        length: part.content.len,
        digest: ShownDigest {
            mark: part.mark,
            digest: part.digest,
        },
        stamp: part.stamp,
    }
}
