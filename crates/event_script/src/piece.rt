//! The bytes that a line brings, from its hex digits or its text.

ghost use Rattle.std.specs.Prelude.{◌≡◌, ◌≢◌, ◌<◌, ◌≤◌, ◌/◌, ◌↔◌, ℕ, List, [], ◌∷◌, ◌++◌, length, IfOk, OnOk, Ok, IsTrue};
ghost use Rattle.hex.specs.Hex.{encode_lower, decode_sized};
ghost use Rattle.b2_base.specs.Failure.{IfFault};
ghost use Rattle.event_script.specs.Reading.{ReadsDigits};

use crate::line::WrongLine;
use b2_base::{Blob, Memory, Or};
use std::alloc::Global;

/// The most digits of a piece, whose bytes are half as many.
pub const MOST_DIGITS: usize = 131_072;

/// The most bytes of a line's text, which comes with CR and LF.
pub const MOST_TEXT: usize = 65_534;

// Whether a piece may have so many digits.
fn may_be_digits(text: &[u8]) -> bool
    ensures { IsTrue result ↔ (0 < length text.now) × (length text.now ≤ 131072) }
{
    !text.is_empty() && text.len() <= MOST_DIGITS
}

// What the text decodes to, in either case of letters.
fn decoded(alloc: Global, text: &[u8]) -> Result<Vec<u8>, Or<WrongLine>>
    ensures ok { IfOk result (λ v. decode_sized text.now (length text.now / 2) ≡ Ok v.items) }
    ensures wrong { IfFault result (λ _. (bytes : List ℕ)
        → decode_sized text.now (length text.now / 2) ≢ Ok bytes) }
{
    let mut bytes = vec![in alloc; 0u8; text.len() / 2]?;
    match hex::decode_to_slice(text, &mut bytes) {
        Ok(()) => Ok(bytes),
        Err(_) => Err(Or::Fault(WrongLine)),
    }
}

// Whether the text is the lower-case digits of the bytes.
fn are_digits_of(alloc: Global, text: &[u8], bytes: &[u8]) -> Result<bool, Memory>
    ensures { IfOk result (λ is. IsTrue is ↔ text.now ≡ encode_lower bytes.now) }
{
    let again = hex::encode(alloc, bytes)?;
    Ok(again.as_bytes() == text)
}

/// The bytes of which these are the digits, in lower case.
pub fn piece_of(alloc: Global, digits: &[u8]) -> Result<Blob, Or<WrongLine>>
    ensures { ReadsDigits digits.now result }
{
    if !may_be_digits(digits) {
        return Err(Or::Fault(WrongLine));
    }
    let bytes = match decoded(alloc, digits) {
        Ok(bytes) => bytes,
        Err(Or::Memory) => return Err(Or::Memory),
        Err(Or::Fault(WrongLine)) => return Err(Or::Fault(WrongLine)),
    };
    // Upper-case digits decode too, and are no spelling.
    if are_digits_of(alloc, digits, &bytes)? {
        Ok(Blob::of(bytes))
    } else {
        Err(Or::Fault(WrongLine))
    }
}

/// The text's bytes with CR and LF.
pub fn text_of(alloc: Global, text: &[u8]) -> Result<Blob, Or<WrongLine>>
    ensures bytes { IfOk result (λ b. b ≡ text.now ++ 13 ∷ 10 ∷ []) }
    ensures short { OnOk result (length text.now ≤ 65534) }
    ensures wrong { IfFault result (λ _. 65534 < length text.now) }
{
    if text.len() > MOST_TEXT {
        return Err(Or::Fault(WrongLine));
    }
    let mut bytes = Vec::with_capacity(alloc, text.len() + 2)?;
    bytes.extend_from_slice(text)?;
    bytes.extend_from_slice(b"\r\n")?;
    Ok(Blob::of(bytes))
}
