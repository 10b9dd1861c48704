//! What the head of a reply says of a content.

ghost use Rattle.std.specs.Prelude.{◌≡◌, [], unwrap_or, string_bytes, IfOk};
ghost use Rattle.std.specs.List.{flat_map};
ghost use Rattle.b2_types.specs.Answer.{IsSpanIn};
ghost use Rattle.http_edge.specs.Reply.{content_headers, digest_header, file_headers, info_header, range_header};

use b2_base::{FileId, Memory, Text};
use b2_types::{ContentOf, ShownFile, Span};
use name_rules::encode_text;
use std::alloc::Global;
use wire_forms::digest_text;

fn range_line(alloc: Global, length: u64, range: Option<Span>) -> Result<String, Memory>
    requires { IsSpanIn length range }
    ensures { IfOk result (λ t. string_bytes t ≡ range_header length range) }
{
    let Some(span) = range else {
        return Ok(String::new(alloc));
    };
    let first = span.at;
    let last = first + span.len - 1;
    Ok(format!(in alloc; "Content-Range: bytes {first}-{last}/{length}\r\n")?)
}

fn digest_shown(alloc: Global, file: &ShownFile) -> Result<Text, Memory>
    ensures { IfOk result (λ t. t ≡ digest_header file.now) }
{
    match &file.digest {
        Some(digest) => digest_text(alloc, digest),
        None => Text::copy(alloc, "none"),
    }
}

fn info_line(alloc: Global, key: &str, value: &str) -> Result<String, Memory>
    ensures { IfOk result (λ t. string_bytes t ≡ info_header (key.now, value.now)) }
{
    let value = encode_text(alloc, value)?;
    let value = value.get();
    Ok(format!(in alloc; "X-Bz-Info-{key}: {value}\r\n")?)
}

fn info_lines(alloc: Global, pairs: &[(Text, Text)]) -> Result<String, Memory>
    ensures { IfOk result (λ t. string_bytes t ≡ flat_map info_header pairs.now) }
{
    let mut lines = String::new(alloc);
    for (key, value) in pairs {
        let line = info_line(alloc, key.get(), value.get())?;
        lines.push_str(&line)?;
    }
    Ok(lines)
}

fn file_lines(alloc: Global, file: &ShownFile) -> Result<String, Memory>
    ensures { IfOk result (λ t. string_bytes t ≡ file_headers file.now) }
{
    let id = FileId::write(alloc, file.bucket, file.num)?;
    let id = id.get();
    let name = encode_text(alloc, file.name.get())?;
    let name = name.get();
    let digest = digest_shown(alloc, file)?;
    let digest = digest.get();
    let stamp = file.stamp.get();
    let info = info_lines(alloc, file.info.get())?;
    Ok(format!(in alloc;
        "X-Bz-File-Id: {id}\r\nX-Bz-File-Name: {name}\r\nX-Bz-Content-Sha1: {digest}\r\nX-Bz-Upload-Timestamp: {stamp}\r\n{info}"
    )?)
}

fn kind_shown(file: &ShownFile) -> &str
    ensures { result.now ≡ unwrap_or file.now.kind [] }
{
    match &file.kind {
        Some(kind) => kind.get(),
        None => "",
    }
}

/// What the head says of the content, of which `len` bytes are sent.
pub(crate) fn content_lines<C>(
    alloc: Global,
    content: &ContentOf<C>,
    len: u64,
) -> Result<String, Memory>
    requires { IsSpanIn content.now.file.length content.now.range }
    ensures { IfOk result (λ t. string_bytes t ≡ content_headers content.now len) }
{
    let kind = kind_shown(&content.file);
    let range = range_line(alloc, content.file.length, content.range)?;
    let file = file_lines(alloc, &content.file)?;
    Ok(format!(in alloc;
        "Content-Type: {kind}\r\nContent-Length: {len}\r\n{range}Accept-Ranges: bytes\r\n{file}"
    )?)
}
