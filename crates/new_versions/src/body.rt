//! Contents that came whole.

ghost use Rattle.std.specs.Prelude.{◌≡◌};
ghost use Rattle.b2_model.specs.Body.{agrees};
ghost use Rattle.b2_model.specs.UploadSteps.{mark_of};
ghost use Rattle.new_versions.specs.Bodies.{body_at};

use b2_base::Extent;
use b2_types::{DigestRule, Mark};

/// The content of an upload that came whole.
#[derive(Clone, Copy, Debug, PartialEq, Eq)]
pub struct Body {
    pub content: Extent,
    /// The SHA-1 of the content (FIPS 180-4).
    pub digest: [u8; 20],
    /// The digest that stands after the content, where it stands there and reads.
    pub told: Option<[u8; 20]>,
}

/// Whether the content has the digest that the upload tells.
pub fn agrees(rule: DigestRule, body: &Body) -> bool
    ensures { result ≡ agrees rule (body_at body.now) }
{
    match rule {
        DigestRule::Given(digest) => digest == body.digest,
        DigestRule::AtEnd => match body.told {
            Some(told) => told == body.digest,
            None => false,
        },
        DigestRule::NotVerified => true,
    }
}

/// What is known of the digest of a content that the rule let in.
pub fn mark_of(rule: DigestRule) -> Mark
    ensures { result ≡ mark_of rule }
{
    match rule {
        DigestRule::Given(_) | DigestRule::AtEnd => Mark::Verified,
        DigestRule::NotVerified => Mark::Unverified,
    }
}
