//! How a name is read from a path.

ghost use Rattle.std.specs.Prelude.{◌≡◌, ◌↔◌, ◌<◌, MatchOption, IsTrue, IfOk, length, map};
ghost use Rattle.b2_base.specs.Failure.{IfFault};
ghost use Rattle.name_rules.specs.Decode.{HasDigitsBehind, IsBadEscape, HasNoBadEscape, plus_to_space, decoded_name, IsEscapeFault};

use crate::file::{FileName, NameFault, file_name};
use b2_base::{Memory, Or};
use percent_encoding::percent_decode;
use std::alloc::Global;

/// Why bytes are no escaped name of a file.
#[derive(Clone, Copy, Debug, PartialEq, Eq)]
pub enum EscapeFault {
    /// The percent sign at this place has no two hex digits after it; it is the first such.
    Escape(usize),
    /// What the bytes stand for is no name.
    Name(NameFault),
}

fn has_digits_behind(bytes: &[u8], at: usize) -> bool
    requires { at < length bytes.now }
    ensures { IsTrue result ↔ HasDigitsBehind bytes.now at }
{
    if bytes.len() - at < 3 {
        return false;
    }
    bytes[at + 1].is_ascii_hexdigit() & bytes[at + 2].is_ascii_hexdigit()
}

fn is_bad_escape(bytes: &[u8], at: usize) -> bool
    requires { at < length bytes.now }
    ensures { IsTrue result ↔ IsBadEscape bytes.now at }
{
    let is_percent = bytes[at] == b'%';
    is_percent & !has_digits_behind(bytes, at)
}

// The place of the first bad escape.
fn bad_escape(bytes: &[u8]) -> Option<usize>
    ensures { MatchOption result
        (HasNoBadEscape bytes.now (length bytes.now))
        (λ at. IsBadEscape bytes.now at × HasNoBadEscape bytes.now at) }
{
    let mut at = 0;
    'bytes: while at < bytes.len() {
        if is_bad_escape(bytes, at) {
            return Some(at);
        }
        at += 1;
    }
    None
}

fn space_for_plus(byte: u8) -> u8
    ensures { result ≡ plus_to_space byte }
{
    if byte == b'+' { b' ' } else { byte }
}

// The bytes with a space for each plus.
fn with_spaces(alloc: Global, bytes: &[u8]) -> Result<Vec<u8>, Memory>
    ensures { IfOk result (λ v. v.items ≡ map plus_to_space bytes.now) }
{
    let mut spaced = Vec::new(alloc);
    'bytes: for byte in bytes {
        spaced.push(space_for_plus(*byte))?;
    }
    Ok(spaced)
}

/// The name that the bytes stand for: a plus is a space, and an escape the byte that its digits are.
pub fn decode_name(alloc: Global, bytes: &[u8]) -> Result<FileName, Or<EscapeFault>>
    ensures name { IfOk result (λ n. HasNoBadEscape bytes.now (length bytes.now)
        × (n ≡ decoded_name bytes.now)) }
    ensures fault { IfFault result (λ fault. IsEscapeFault bytes.now fault) }
{
    if let Some(at) = bad_escape(bytes) {
        return Err(Or::Fault(EscapeFault::Escape(at)));
    }
    let spaced = with_spaces(alloc, bytes)?;
    let mut decoded = Vec::new(alloc);
    percent_decode(&spaced).append_to(&mut decoded)?;
    match file_name(alloc, &decoded) {
        Ok(name) => Ok(name),
        Err(Or::Memory) => Err(Or::Memory),
        Err(Or::Fault(fault)) => Err(Or::Fault(EscapeFault::Name(fault))),
    }
}
