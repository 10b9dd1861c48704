//! The head of a request.

ghost use Rattle.std.specs.Prelude.{◌≡◌, ◌≤◌, ◌==◌, length, take, All, IsSome, IfSome, IfOk, IsUtf8};
ghost use Rattle.std.specs.List.{before_first, after_first};
ghost use Rattle.httparse.specs.Grammar.{RequestHead};
ghost use Rattle.httparse.specs.Spans.{IsRequestAt, IsRequestWithin, span_bytes};
ghost use Rattle.b2_base.specs.Failure.{IfFault};
ghost use Rattle.http_edge.specs.Cut.{most_head};
ghost use Rattle.http_edge.specs.Headers.{most_fields, IsHead, HasHead};
ghost use Rattle.http_edge.specs.Request.{IsRequest, IsHeadFault};
ghost use Rattle.http_edge.specs.Steps.{IsClean, IsFaultOf};

use crate::headers::header_map;
use crate::length::body_length;
use crate::stay::asks_stay;
use b2_base::{Or, Text};
use b2_types::Fault;
use call_paths::{Route, route_of};
use httparse::Status;
use httparse::spans::{EMPTY_HEADER_SPAN, HeaderSpan, RequestSpans, parse_request};
use rule_table::FaultKind;
use std::alloc::Global;
use wire_forms::Request;

/// The most fields of a head.
const MOST_FIELDS: usize = 64;

/// A request, and the call that it is for.
#[derive(Drop)]
pub struct Head {
    pub request: Request,
    pub route: Route,
}

// Where the parts of the head are, if the bytes are one, all of them.
fn whole_request(bytes: &[u8], room: &mut [HeaderSpan]) -> Option<RequestSpans>
    requires { length room.old ≡ most_fields }
    ensures found { HasHead bytes.now → IsSome result }
    ensures head { IfSome result (λ spans. (h : RequestHead) × IsHead bytes.now h
        × IsRequestAt bytes.now room.new spans h) }
    ensures within { IfSome result (IsRequestWithin bytes.now room.new) }
    ensures len { IfSome result (λ spans. spans.len ≡ length bytes.now) }
    ensures clean { IfSome result
        (λ spans. All (IsClean bytes.now) (take spans.headers room.new)) }
    ensures method_text { IfSome result (λ spans. IsUtf8 (span_bytes bytes.now spans.method)) }
    ensures target_text { IfSome result (λ spans. IsUtf8 (span_bytes bytes.now spans.path)) }
{
    match parse_request(bytes, room) {
        Ok(Status::Complete(spans)) if spans.len == bytes.len() => Some(spans),
        _ => None,
    }
}

// The bytes as text, which they are.
fn text_in(bytes: &[u8]) -> &str
    requires { IsUtf8 bytes.now }
    ensures { result.now ≡ bytes.now }
{
    match str::from_utf8(bytes) {
        Ok(text) => text,
        Err(_) => unreachable!(),
    }
}

// The target before and after its first question mark.
fn path_and_query(target: &str) -> (&str, &str)
    ensures { (result.0.now ≡ before_first (λ b. b == 63) target.now)
        × (result.1.now ≡ after_first (λ b. b == 63) target.now) }
{
    match target.split_once('?') {
        Some((path, query)) => (path, query),
        None => (target, ""),
    }
}

/// The request whose head these bytes are, all of them, and its call. A head that is none is told first,
/// then a call that is none, and at last a length that is amiss.
pub fn read_head(alloc: Global, bytes: &[u8]) -> Result<Head, Or<Fault>>
    requires { length bytes.now ≤ most_head }
    ensures request { IfOk result (λ head. IsRequest bytes.now head.request head.route) }
    ensures fault { IfFault result (IsFaultOf (IsHeadFault bytes.now)) }
{
    let mut room = [EMPTY_HEADER_SPAN; MOST_FIELDS];
    let Some(spans) = whole_request(bytes, &mut room) else {
        return Err(Or::Fault(Fault::plain(FaultKind::BadHead)));
    };
    let method = text_in(spans.method.of(bytes));
    let (path, query) = path_and_query(text_in(spans.path.of(bytes)));
    let route = match route_of(method.as_bytes(), path.as_bytes()) {
        Ok(route) => route,
        Err(kind) => return Err(Or::Fault(Fault::plain(kind))),
    };
    let headers = header_map(alloc, bytes, &room[..spans.headers])?;
    let Some(length) = body_length(route.name, &headers) else {
        return Err(Or::Fault(Fault::plain(FaultKind::BadLength)));
    };
    let stay = asks_stay(&headers);
    let request = Request {
        method: Text::copy(alloc, method)?,
        path: Text::copy(alloc, path)?,
        query: Text::copy(alloc, query)?,
        headers,
        length,
        stay,
    };
    Ok(Head { request, route })
}
