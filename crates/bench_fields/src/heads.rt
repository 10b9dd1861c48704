//! Heads are read.

ghost use Rattle.call_paths.specs.Path.{IsPath};

use b2_base::Text;
use b2_types::{Call, UploadCall};
use call_paths::{Route, read_path};
use http_edge::{Cut, MOST_HEAD, body_length, cut_head, read_head};
use http_header::{HeaderMap, HeaderName, HeaderValue};
use httparse::Status;
use httparse::spans::{EMPTY_HEADER_SPAN, HeaderSpan, RequestSpans, parse_request};
use request_calls::{Asked, read_asked};
use std::alloc::Global;
use wire_forms::Request;

// 1 where it is well formed.
fn count(asked: &Asked) -> usize {
    match asked {
        Asked::Call(Call::Bad(_)) => 0,
        Asked::Upload(UploadCall::Bad(_)) => 0,
        _ => 1,
    }
}

// What the request asks for; 1 where it is well formed.
fn asked(alloc: Global, route: &Route, request: &Request) -> Option<usize>
    requires { IsPath request.now.path route.now }
{
    let asking = read_asked(alloc, route, request, b"").ok()?;
    Some(count(&asking.asked))
}

/// The head is cut and read, and what it asks for; 1 where that is well formed.
pub fn own_authorize(alloc: Global, bytes: &[u8]) -> Option<usize> {
    let Cut::Head(end) = cut_head(bytes, 0) else {
        return None;
    };
    let front = bytes.get(..end)?;
    if front.len() > MOST_HEAD {
        return None;
    }
    let Ok(head) = read_head(alloc, front) else {
        return None;
    };
    asked(alloc, &head.route, &head.request)
}

fn spans_of(bytes: &[u8], room: &mut [HeaderSpan]) -> Option<RequestSpans> {
    match parse_request(bytes, room) {
        Ok(Status::Complete(spans)) => Some(spans),
        _ => None,
    }
}

// Puts a header into the map, from the bytes of its name and its value.
fn keep(alloc: Global, map: &mut HeaderMap<HeaderValue>, name: &[u8], value: &[u8]) -> Option<()> {
    let name = HeaderName::from_bytes(alloc, name).ok()?;
    let value = HeaderValue::from_bytes(alloc, value).ok()?;
    map.append(name, value).ok()?;
    Some(())
}

// The map of all headers.
fn header_map(alloc: Global, bytes: &[u8], spans: &[HeaderSpan]) -> Option<HeaderMap<HeaderValue>> {
    let mut map = HeaderMap::new(alloc);
    for header in spans {
        let name = bytes.get(header.name.start..header.name.end)?;
        let value = bytes.get(header.value.start..header.value.end)?;
        keep(alloc, &mut map, name, value)?;
    }
    Some(map)
}

/// The ports' own read of the head into a map of its headers, of which there are so many.
pub fn port_headers(alloc: Global, bytes: &[u8]) -> Option<usize> {
    let mut room = [EMPTY_HEADER_SPAN; 64];
    let spans = spans_of(bytes, &mut room)?;
    let map = header_map(alloc, bytes, room.get(..spans.headers)?)?;
    Some(map.len())
}

// The text of these bytes.
fn text_at(alloc: Global, bytes: &[u8], start: usize, end: usize) -> Option<Text> {
    let part = bytes.get(start..end)?;
    let text = str::from_utf8(part).ok()?;
    Text::copy(alloc, text).ok()
}

// The ports' own read of the head as a request, but for its length.
fn request_of(alloc: Global, bytes: &[u8]) -> Option<Request> {
    let mut room = [EMPTY_HEADER_SPAN; 64];
    let spans = spans_of(bytes, &mut room)?;
    let method = text_at(alloc, bytes, spans.method.start, spans.method.end)?;
    let path = text_at(alloc, bytes, spans.path.start, spans.path.end)?;
    let query = Text::copy(alloc, "").ok()?;
    let headers = header_map(alloc, bytes, room.get(..spans.headers)?)?;
    Some(Request {
        method,
        path,
        query,
        headers,
        length: 0,
        stay: true,
    })
}

// What the request asks for, with its length; 1 where it is well formed.
fn measured(alloc: Global, route: &Route, request: Request) -> Option<usize>
    requires { IsPath request.path route.now }
{
    let length = body_length(route.name, &request.headers)?;
    let request = Request { length, ..request };
    asked(alloc, route, &request)
}

/// The ports' own read of the head, and what it asks for; 1 where that is well formed. The edge does
/// not serve uploads yet, so the request is made here.
pub fn own_upload(alloc: Global, bytes: &[u8]) -> Option<usize> {
    let request = request_of(alloc, bytes)?;
    match read_path(request.path.get().as_bytes()) {
        Some(route) => measured(alloc, &route, request),
        None => None,
    }
}
