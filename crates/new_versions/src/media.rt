//! Types of files by the ends of their names.

ghost use Rattle.std.specs.Prelude.{◌≡◌, IfOk};
ghost use Rattle.std.specs.Option.{option_copied};
ghost use Rattle.b2_model.specs.MediaTypes.{after_last, extension_of, kind_of_extension, media_type, resolved_type, type_of_name};

use b2_base::{Memory, Text};
use rule_table::{FileKind, Placed, types};
use std::alloc::Global;

/// The media type of a type of files (RFC 6838 and the registry of media types).
pub fn media_type(kind: FileKind) -> &'static str
    ensures { result.now ≡ media_type kind }
{
    match kind {
        FileKind::Txt => "text/plain",
        FileKind::Html | FileKind::Htm => "text/html",
        FileKind::Css => "text/css",
        FileKind::Csv => "text/csv",
        FileKind::Js => "text/javascript",
        FileKind::Json => "application/json",
        FileKind::Xml => "application/xml",
        FileKind::Pdf => "application/pdf",
        FileKind::Zip => "application/zip",
        FileKind::Gz => "application/gzip",
        FileKind::Png => "image/png",
        FileKind::Jpg | FileKind::Jpeg => "image/jpeg",
        FileKind::Gif => "image/gif",
        FileKind::Mp4 => "video/mp4",
    }
}

// What stands after the last such byte; all, where there is none.
fn after_last(byte: u8, text: &[u8]) -> &[u8]
    ensures { result.now ≡ after_last byte text.now }
{
    let mut at = text.len();
    'bytes: while at > 0 {
        if text[at - 1] == byte {
            return &text[at..];
        }
        at -= 1;
    }
    text
}

// What stands after the last full stop of the part after the last slash.
fn extension_of(name: &[u8]) -> Option<&[u8]>
    ensures { option_copied result ≡ extension_of name.now }
{
    let part = after_last(b'/', name);
    if part.contains(&b'.') {
        Some(after_last(b'.', part))
    } else {
        None
    }
}

// The type of files with this extension, in any case of letters.
fn kind_of_extension(extension: &[u8]) -> Option<FileKind>
    ensures { result ≡ kind_of_extension extension.now }
{
    let names = types().names();
    let mut at = 0;
    'kinds: while at < names.len() {
        if names[at].as_bytes().eq_ignore_ascii_case(extension) {
            return FileKind::at(at);
        }
        at += 1;
    }
    None
}

/// The type of a file of this name, where it is left to the store.
pub fn type_of_name(name: &[u8]) -> &'static str
    ensures { result.now ≡ type_of_name name.now }
{
    let Some(extension) = extension_of(name) else {
        return "application/octet-stream";
    };
    match kind_of_extension(extension) {
        Some(kind) => media_type(kind),
        None => "application/octet-stream",
    }
}

/// The type that is given, or that of the name where it is left to the store.
pub fn resolved_type(alloc: Global, given: &str, name: &[u8]) -> Result<Text, Memory>
    ensures { IfOk result (λ kind. kind ≡ resolved_type given.now name.now) }
{
    if given == "b2/x-auto" {
        Text::copy(alloc, type_of_name(name))
    } else {
        Text::copy(alloc, given)
    }
}
