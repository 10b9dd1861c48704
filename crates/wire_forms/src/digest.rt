//! The texts of digests.

ghost use Rattle.std.specs.Prelude.{◌≡◌, IfOk};
ghost use Rattle.wire_forms.specs.Body.{digest_text};

use b2_base::{Memory, Text};
use b2_types::{Mark, ShownDigest};
use std::alloc::Global;

/// The digest in 40 hex digits, after `unverified:` where the client gave none; `none` where the content
/// has no digest of its own.
pub fn digest_text(alloc: Global, digest: &ShownDigest) -> Result<Text, Memory>
    ensures { IfOk result (λ t. t ≡ digest_text digest.now) }
{
    let digits = hex::encode(alloc, digest.digest)?;
    let text = match digest.mark {
        Mark::Verified => digits,
        Mark::Unverified => format!(in alloc; "unverified:{digits}")?,
        Mark::Large | Mark::Marker => String::from_str(alloc, "none")?,
    };
    Ok(Text::of(text))
}
