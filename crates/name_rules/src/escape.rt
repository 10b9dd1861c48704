//! How a file's name is written in a path.

ghost use Rattle.std.specs.Prelude.{◌≡◌, IfOk};
ghost use Rattle.name_rules.specs.Escape.{encoded_name};

use crate::file::FileName;
use b2_base::{Memory, Text};
use percent_encoding::{AsciiSet, NON_ALPHANUMERIC, ascii_set, percent_encode};
use std::alloc::Global;

/// The bytes of ASCII that are escaped (the B2 reference, "String encoding").
pub const ESCAPED: AsciiSet = ascii_set!(
    NON_ALPHANUMERIC
        .remove(b'.')
        .remove(b'_')
        .remove(b'-')
        .remove(b'/')
        .remove(b'~')
        .remove(b'!')
        .remove(b'$')
        .remove(b'\'')
        .remove(b'(')
        .remove(b')')
        .remove(b'*')
        .remove(b';')
        .remove(b'=')
        .remove(b':')
        .remove(b'@')
);

/// The text with the escapes of a name, as a value of information stands in a header.
pub fn encode_text(alloc: Global, text: &str) -> Result<Text, Memory>
    ensures { IfOk result (λ t. t ≡ encoded_name text.now) }
{
    let mut encoded = String::new(alloc);
    percent_encode(text.as_bytes(), ESCAPED).append_to(&mut encoded)?;
    Ok(Text::of(encoded))
}

/// The name as it stands in a path or a header.
pub fn encode_name(alloc: Global, name: &FileName) -> Result<Text, Memory>
    ensures { IfOk result (λ t. t ≡ encoded_name name.now) }
{
    encode_text(alloc, name.get())
}
