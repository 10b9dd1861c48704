//! The range that a text asks for.

ghost use Rattle.std.specs.Prelude.{◌≡◌, MatchOption};
ghost use Rattle.b2_types.specs.declared.call.ByteRange.{ByteRange as TheRange};
ghost use Rattle.byte_ranges.specs.Ranges.{IsRange, number, range_at, range_of};

use b2_base::{behind, cut_at, read_digits};
use b2_types::ByteRange;

/// The most digits of a number: every such number is far below the last of 64 bits.
const NUMBER_DIGITS: usize = 18;

fn number(text: &[u8]) -> Option<u64>
    ensures { result ≡ number text.now }
{
    read_digits(text, NUMBER_DIGITS)
}

// What the texts before and after the hyphen ask for.
fn range_at(first: &[u8], last: &[u8]) -> Option<ByteRange>
    ensures { result ≡ range_at first.now last.now }
{
    if first.is_empty() {
        let length = number(last)?;
        return Some(ByteRange::Last(length));
    }
    let start = number(first)?;
    if last.is_empty() {
        return Some(ByteRange::From(start));
    }
    let end = number(last)?;
    if start <= end {
        Some(ByteRange::Between(start, end))
    } else {
        None
    }
}

fn range_of(text: &[u8]) -> Option<ByteRange>
    ensures { result ≡ range_of text.now }
{
    let Some(rest) = behind(b"bytes=", text) else {
        return None;
    };
    let Some((first, last)) = cut_at(b'-', rest) else {
        return None;
    };
    range_at(first, last)
}

/// The range that the text asks for; a text of any other form asks for none.
#[tactic(auto, using(crate::proofs::Grammar::matches))]
pub fn read_range(text: &[u8]) -> Option<ByteRange>
    ensures range { MatchOption result ((r : TheRange) → IsRange text.now r → ⊥)
        (IsRange text.now) }
    ensures is { result ≡ range_of text.now }
{
    range_of(text)
}
