//! The bytes that are copied.

ghost use Rattle.std.specs.Prelude.{◌≡◌, ◌∷◌, IfOk};
ghost use Rattle.b2_model.specs.Kinds.{is_upload};
ghost use Rattle.b2_model.specs.Checks.{first_fault};
ghost use Rattle.b2_model.specs.State.{length_of};
ghost use Rattle.b2_model.specs.AskCopies.{copied_span, no_upload, span_rules};
ghost use Rattle.b2_model.specs.AskDownloads.{misses, span_of};
ghost use Rattle.new_versions.specs.Decided.{extent_len, refused};
ghost use Rattle.copy_calls.specs.Refusals.{copy_fault};

use crate::refusal::CopyRefusal;
use b2_types::{Action, ByteRange, Span, Version};

/// The most bytes of a copy, as of any upload.
const MOST_COPIED: u64 = 5_000_000_000;

/// Whether the range has no byte of a content of this length.
pub fn misses(len: u64, range: ByteRange) -> bool
    ensures { result ≡ misses len range }
{
    match range {
        ByteRange::Between(first, _) | ByteRange::From(first) => len <= first,
        ByteRange::Last(count) => (len == 0) | (count == 0),
    }
}

/// The bytes of the range, of a content of this length.
pub fn span_of(len: u64, range: ByteRange) -> Span
    ensures { result ≡ span_of len range }
{
    match range {
        ByteRange::Between(first, last) => {
            let end = last.saturating_add(1).min(len);
            Span {
                at: first,
                len: end.saturating_sub(first),
            }
        }
        ByteRange::From(first) => Span {
            at: first,
            len: len.saturating_sub(first),
        },
        ByteRange::Last(count) => {
            let count = count.min(len);
            Span {
                at: len - count,
                len: count,
            }
        }
    }
}

/// The bytes of a range of the source, whose content has this length, or the first rule of ranges
/// that fails.
pub(crate) fn range_span(
    source: &Version,
    len: u64,
    range: Option<ByteRange>,
) -> Result<Span, CopyRefusal>
    requires { length_of extent_len source.now.content ≡ len }
    ensures rules { refused copy_fault result
        ≡ first_fault (span_rules extent_len source.now range) }
    ensures span { IfOk result (λ span. span ≡ copied_span extent_len source.now range) }
{
    let span = match range {
        Some(range) => {
            if misses(len, range) {
                return Err(CopyRefusal::Range);
            }
            span_of(len, range)
        }
        None => Span { at: 0, len },
    };
    if MOST_COPIED < span.len {
        return Err(CopyRefusal::LongCopy);
    }
    Ok(span)
}

pub(crate) fn is_upload(source: &Version) -> bool
    ensures { result ≡ is_upload source.now.action }
{
    matches!(source.action, Action::Upload)
}

/// The bytes that are copied of a source whose content has this length, or the first rule of
/// sources and ranges that fails.
pub fn copy_span(source: &Version, len: u64, range: Option<ByteRange>) -> Result<Span, CopyRefusal>
    requires { length_of extent_len source.now.content ≡ len }
    ensures rules { refused copy_fault result
        ≡ first_fault (no_upload source.now ∷ span_rules extent_len source.now range) }
    ensures span { IfOk result (λ span. span ≡ copied_span extent_len source.now range) }
{
    if !is_upload(source) {
        return Err(CopyRefusal::NoFile);
    }
    range_span(source, len, range)
}
