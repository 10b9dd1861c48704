//! A head is read.

use http_edge::{Cut, MOST_HEAD, cut_head, read_head};
use http_header::{HeaderMap, HeaderName, HeaderValue};
use httparse::Status;
use httparse::spans::{EMPTY_HEADER_SPAN, parse_request};
use std::alloc::Global;

/// The head is cut and read; so many headers were kept.
pub fn own_headers(alloc: Global, bytes: &[u8]) -> Option<usize> {
    let Cut::Head(end) = cut_head(bytes, 0) else {
        return None;
    };
    let front = bytes.get(..end)?;
    if front.len() > MOST_HEAD {
        return None;
    }
    let head = read_head(alloc, front).ok()?;
    Some(head.request.headers.len())
}

/// The port's own read of the head into places; it has so many bytes.
pub fn port_length(bytes: &[u8]) -> Option<usize> {
    let mut room = [EMPTY_HEADER_SPAN; 64];
    match parse_request(bytes, &mut room) {
        Ok(Status::Complete(spans)) => Some(spans.len),
        _ => None,
    }
}

// Puts a header into the map, from the bytes of its name and its value.
fn keep(alloc: Global, map: &mut HeaderMap<HeaderValue>, name: &[u8], value: &[u8]) -> Option<()> {
    let name = HeaderName::from_bytes(alloc, name).ok()?;
    let value = HeaderValue::from_bytes(alloc, value).ok()?;
    map.append(name, value).ok()?;
    Some(())
}

/// The ports' own read of the head into a map of its headers, or of `Authorization` alone; so many were kept.
pub fn port_headers(alloc: Global, bytes: &[u8], all: bool) -> Option<usize> {
    let mut room = [EMPTY_HEADER_SPAN; 64];
    let Ok(Status::Complete(spans)) = parse_request(bytes, &mut room) else {
        return None;
    };
    let mut map = HeaderMap::new(alloc);
    for header in room.iter().take(spans.headers) {
        let name = bytes.get(header.name.start..header.name.end)?;
        if all || name.eq_ignore_ascii_case(b"authorization") {
            let value = bytes.get(header.value.start..header.value.end)?;
            keep(alloc, &mut map, name, value)?;
        }
    }
    Some(map.len())
}
