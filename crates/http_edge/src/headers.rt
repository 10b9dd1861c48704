//! The headers of a request.

ghost use Rattle.std.specs.Prelude.{◌≡◌, [], ◌+◌, ◌≤◌, ◌<◌, true, false, length, take, map, codes, bytes_eq, All, IfOk, OnOk, MatchOption};
ghost use Rattle.std.specs.List.{list_any};
ghost use Rattle.httparse.specs.Spans.{IsHeaderWithin, IsWithin, header_bytes, span_bytes};
ghost use Rattle.http_header.specs.FieldValue.{plain_value};
ghost use Rattle.http_header.specs.HeaderMap.{append, value_count};
ghost use Rattle.http_header.specs.Token.{lowercase, IsToken, AllPass, is_value_byte};
ghost use Rattle.http_edge.specs.Cut.{most_head};
ghost use Rattle.http_edge.specs.Headers.{most_fields, read_names, is_read, headers_by};
ghost use Rattle.http_edge.specs.Steps.{IsClean};

use b2_base::Memory;
use bytes::Bytes;
use http_header::{
    AUTHORIZATION, CONNECTION, CONTENT_LENGTH, CONTENT_TYPE, HeaderMap, HeaderMapError, HeaderName,
    HeaderNameError, HeaderValue, RANGE, TRANSFER_ENCODING,
};
use httparse::spans::{HeaderSpan, Span};
use std::alloc::Global;

fn header_name(alloc: Global, name: &[u8]) -> Result<HeaderName, Memory>
    requires token { IsToken name.now }
    requires short { length name.now ≤ 65535 }
    ensures { IfOk result (λ n. n ≡ lowercase name.now) }
{
    match HeaderName::from_bytes(alloc, name) {
        Ok(name) => Ok(name),
        Err(HeaderNameError::OutOfMemory) => Err(Memory),
        Err(HeaderNameError::Invalid) => unreachable!(),
    }
}

// The value at this place, which shares its bytes.
fn header_value(bytes: &Bytes, place: Span) -> Result<HeaderValue, Memory>
    requires within { IsWithin (length bytes.now) place }
    requires clean { AllPass is_value_byte (span_bytes bytes.now place) }
    ensures { IfOk result (λ v. v ≡ plain_value (span_bytes bytes.now place)) }
{
    let value = bytes.slice(place.start..place.end)?;
    Ok(HeaderValue::from_known_valid(value))
}

// Puts the value after those of its name.
fn add_header(
    map: &mut HeaderMap<HeaderValue>,
    name: HeaderName,
    value: HeaderValue,
) -> Result<(), Memory>
    requires few { (length map.old < most_fields) × (value_count map.old < most_fields) }
    ensures { OnOk result (map.new ≡ append map.old name value) }
{
    match map.append(name, value) {
        Ok(_) => Ok(()),
        Err(HeaderMapError::OutOfMemory) => Err(Memory),
        Err(HeaderMapError::MaxSizeReached) => unreachable!(),
    }
}

// The name, in any case, is this one, which is given in lower case.
fn is_named(name: &[u8], lower: &[u8]) -> bool
    requires lower { lowercase lower.now ≡ lower.now }
    ensures { result ≡ bytes_eq (lowercase name.now) lower.now }
{
    name.eq_ignore_ascii_case(lower)
}

// B2's own headers, whose names all begin so.
fn is_own(name: &[u8]) -> bool
    ensures { result ≡ bytes_eq (take 5 (lowercase name.now)) (codes "x-bz-") }
{
    match name.get(..5) {
        Some(front) => is_named(front, b"x-bz-"),
        None => false,
    }
}

// The name, where it is one of those that calls read beside B2's own. The port's constants need no memory.
fn known_name(name: &[u8]) -> Option<HeaderName>
    ensures { MatchOption result (list_any (bytes_eq (lowercase name.now)) read_names ≡ false)
        (λ n. (list_any (bytes_eq (lowercase name.now)) read_names ≡ true)
        × (n ≡ lowercase name.now)) }
{
    if is_named(name, b"authorization") {
        Some(AUTHORIZATION)
    } else if is_named(name, b"connection") {
        Some(CONNECTION)
    } else if is_named(name, b"content-length") {
        Some(CONTENT_LENGTH)
    } else if is_named(name, b"content-type") {
        Some(CONTENT_TYPE)
    } else if is_named(name, b"range") {
        Some(RANGE)
    } else if is_named(name, b"transfer-encoding") {
        Some(TRANSFER_ENCODING)
    } else {
        None
    }
}

// The name, where some call reads the headers of it.
fn read_name(alloc: Global, name: &[u8]) -> Result<Option<HeaderName>, Memory>
    requires token { IsToken name.now }
    requires short { length name.now ≤ 65535 }
    ensures { IfOk result
        (λ o. MatchOption o (is_read (lowercase name.now) ≡ false)
        (λ n. (is_read (lowercase name.now) ≡ true) × (n ≡ lowercase name.now))) }
{
    if is_own(name) {
        let name = header_name(alloc, name)?;
        return Ok(Some(name));
    }
    Ok(known_name(name))
}

/// The headers at these places of the bytes, but for those that no call reads. All values share one copy of
/// them.
pub(crate) fn header_map(
    alloc: Global,
    bytes: &[u8],
    spans: &[HeaderSpan],
) -> Result<HeaderMap<HeaderValue>, Memory>
    requires short { length bytes.now ≤ most_head }
    requires few { length spans.now ≤ most_fields }
    requires within { All (IsHeaderWithin (length bytes.now)) spans.now }
    requires clean { All (IsClean bytes.now) spans.now }
    ensures { IfOk result
        (λ headers. headers ≡ headers_by (map (header_bytes bytes.now) spans.now)) }
{
    let shared = Bytes::copy_from_slice(alloc, bytes)?;
    let mut headers = HeaderMap::new(alloc);
    for span in spans {
        if let Some(name) = read_name(alloc, span.name.of(bytes))? {
            let value = header_value(&shared, span.value)?;
            add_header(&mut headers, name, value)?;
        }
    }
    Ok(headers)
}
