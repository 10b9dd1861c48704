//! How long the bodies and the contents of uploads are to be.

ghost use Rattle.std.specs.Prelude.{◌≡◌};
ghost use Rattle.durable_store.specs.Lengths.{body_length, content_length};

use b2_types::{DigestRule, UploadCall};

// The hex digits of a digest.
const DIGITS: u64 = 40;

/// The bytes of an upload's body.
pub(crate) fn body_length(upload: &UploadCall) -> u64
    ensures { result ≡ body_length upload.now }
{
    match upload {
        UploadCall::File(file) => file.length,
        UploadCall::Part(part) => part.length,
        UploadCall::Bad(_) => 0,
    }
}

/// Those of its content: where the digits of its digest stand at the end, the bytes before them.
pub(crate) fn content_length(upload: &UploadCall) -> u64
    ensures { result ≡ content_length upload.now }
{
    let rule = match upload {
        UploadCall::File(file) => file.digest,
        UploadCall::Part(part) => part.digest,
        UploadCall::Bad(_) => DigestRule::NotVerified,
    };
    match rule {
        DigestRule::AtEnd => body_length(upload).saturating_sub(DIGITS),
        _ => body_length(upload),
    }
}
