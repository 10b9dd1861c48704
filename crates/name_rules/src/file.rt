//! Names of files.

ghost use Rattle.std.specs.Prelude.{◌≡◌, ◌↔◌, MatchOption, IsTrue, IfOk, EachIndex, slice_index};
ghost use Rattle.b2_base.specs.Failure.{IfFault};
ghost use Rattle.name_rules.specs.Bytes.{IsFirstOther};
ghost use Rattle.name_rules.specs.FileName.{IsNoCode, IsFileName, IsNameFault};

use crate::name::{Name, NameRule};
use b2_base::{Or, Text};
use std::alloc::Global;

/// Why bytes are no name of a file.
#[derive(Clone, Copy, Debug, PartialEq, Eq)]
pub enum NameFault {
    /// No byte.
    Empty,
    /// More than 1,024 bytes.
    Long,
    /// No UTF-8: so many bytes in front are.
    NotUtf8(usize),
    /// The byte at this place is below 32 or 127; it is the first such.
    Code(usize),
}

/// The most bytes of a file's name.
pub const MOST_FILE_NAME: usize = 1024;

/// The rule of files' names.
#[derive(Clone, Copy, Debug, PartialEq, Eq)]
pub struct FileRule;

impl NameRule for FileRule {
    ghost use Rattle.name_rules.specs.FileName.{IsFileName};

    ghost is_name = { IsFileName };
}

/// A file's name: 1 to 1,024 bytes of UTF-8 without control codes of ASCII.
pub type FileName = Name<FileRule>;

fn is_no_code(byte: u8) -> bool
    ensures { IsTrue result ↔ IsNoCode byte }
{
    (byte >= 32) & (byte != 127)
}

// The place of the first control code.
fn code_at(bytes: &[u8]) -> Option<usize>
    ensures { MatchOption result
        (EachIndex bytes.now (λ i. IsNoCode (slice_index bytes.now i)))
        (λ at. IsFirstOther IsNoCode bytes.now at) }
{
    let mut at = 0;
    'bytes: while at < bytes.len() {
        if !is_no_code(bytes[at]) {
            return Some(at);
        }
        at += 1;
    }
    None
}

/// The name that these bytes are.
pub fn file_name(alloc: Global, bytes: &[u8]) -> Result<FileName, Or<NameFault>>
    ensures name { IfOk result (λ n. (n ≡ bytes.now) × IsFileName bytes.now) }
    ensures fault { IfFault result (λ fault. IsNameFault bytes.now fault) }
{
    if bytes.is_empty() {
        return Err(Or::Fault(NameFault::Empty));
    }
    if bytes.len() > MOST_FILE_NAME {
        return Err(Or::Fault(NameFault::Long));
    }
    let text = match str::from_utf8(bytes) {
        Ok(text) => text,
        Err(error) => return Err(Or::Fault(NameFault::NotUtf8(error.valid_up_to()))),
    };
    if let Some(at) = code_at(bytes) {
        return Err(Or::Fault(NameFault::Code(at)));
    }
    let name = Text::copy(alloc, text)?;
    Ok(FileName::of(name))
}
