//! Texts with escapes.

ghost use Rattle.std.specs.Prelude.{◌≡◌, map, IfOk};
ghost use Rattle.std.specs.Str.{is_utf8};
ghost use Rattle.field_kinds.specs.Kinds.{if_passes};
ghost use Rattle.name_rules.specs.Decode.{plus_to_space, decoded_name};
ghost use Rattle.upload_heads.specs.Kinds.{has_digits_ahead, has_escapes, escaped_text};

use b2_base::{Memory, Text};
use percent_encoding::percent_decode;
use std::alloc::Global;

fn has_digits_ahead(bytes: &[u8]) -> bool
    ensures { result ≡ has_digits_ahead bytes.now }
{
    if bytes.len() < 2 {
        return false;
    }
    bytes[0].is_ascii_hexdigit() & bytes[1].is_ascii_hexdigit()
}

fn has_escapes(bytes: &[u8]) -> bool
    ensures { result ≡ has_escapes bytes.now }
{
    let mut left = bytes;
    'bytes: while let Some((byte, rest)) = left.split_first() {
        let is_plain = *byte != b'%';
        if !(is_plain | has_digits_ahead(rest)) {
            return false;
        }
        left = rest;
    }
    true
}

fn space_for_plus(byte: u8) -> u8
    ensures { result ≡ plus_to_space byte }
{
    if byte == b'+' { b' ' } else { byte }
}

// The bytes with a space for each plus.
fn with_spaces(alloc: Global, bytes: &[u8]) -> Result<Vec<u8>, Memory>
    ensures { IfOk result (λ v. v.items ≡ map plus_to_space bytes.now) }
{
    let mut spaced = Vec::new(alloc);
    'bytes: for byte in bytes {
        spaced.push(space_for_plus(*byte))?;
    }
    Ok(spaced)
}

fn decoded(alloc: Global, bytes: &[u8]) -> Result<Vec<u8>, Memory>
    ensures { IfOk result (λ v. v.items ≡ decoded_name bytes.now) }
{
    let spaced = with_spaces(alloc, bytes)?;
    let mut decoded = Vec::new(alloc);
    percent_decode(&spaced).append_to(&mut decoded)?;
    Ok(decoded)
}

// The text that the bytes are.
#[tactic(auto, using(crate::proofs::Texts::passes, crate::proofs::Texts::passes_not))]
fn text_of(alloc: Global, bytes: &[u8]) -> Result<Option<Text>, Memory>
    ensures { IfOk result (λ t. t ≡ if_passes is_utf8 bytes.now) }
{
    let Ok(text) = str::from_utf8(bytes) else {
        return Ok(None);
    };
    let text = Text::copy(alloc, text)?;
    Ok(Some(text))
}

/// The text that the bytes stand for, where each percent sign has its digits and the rest is UTF-8.
pub(crate) fn escaped_text(alloc: Global, bytes: &[u8]) -> Result<Option<Text>, Memory>
    ensures { IfOk result (λ t. t ≡ escaped_text bytes.now) }
{
    if !has_escapes(bytes) {
        return Ok(None);
    }
    let decoded = decoded(alloc, bytes)?;
    let text = text_of(alloc, &decoded)?;
    Ok(text)
}
