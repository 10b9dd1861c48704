//! Whether a client asks for another request on its connection.

ghost use Rattle.std.specs.Prelude.{◌≡◌, reverse};
ghost use Rattle.httparse.specs.Grammar.{skip_ows, trim_ows};
ghost use Rattle.http_header.specs.Token.{lowercase};
ghost use Rattle.http_edge.specs.Stay.{is_option, lists, has_option, asks_stay};

use b2_base::cut_at;
use http_header::{CONNECTION, HeaderMap, HeaderValue};
use httparse::is_space_or_tab;

fn trim_start(mut text: &[u8]) -> &[u8]
    ensures { result.now ≡ skip_ows text.now }
{
    while let [first, rest @ ..] = text
        && is_space_or_tab(*first)
    {
        text = rest;
    }
    text
}

fn trim_end(mut text: &[u8]) -> &[u8]
    ensures { result.now ≡ reverse (skip_ows (reverse text.now)) }
{
    while let [rest @ .., last] = text
        && is_space_or_tab(*last)
    {
        text = rest;
    }
    text
}

fn trim_ows(text: &[u8]) -> &[u8]
    ensures { result.now ≡ trim_ows text.now }
{
    trim_end(trim_start(text))
}

// Whether the part of a value is this option, which is given in lower case.
fn is_option(option: &[u8], part: &[u8]) -> bool
    requires { lowercase option.now ≡ option.now }
    ensures { result ≡ is_option option.now part.now }
{
    trim_ows(part).eq_ignore_ascii_case(option)
}

fn lists(option: &[u8], value: &[u8]) -> bool
    requires { lowercase option.now ≡ option.now }
    ensures { result ≡ lists option.now value.now }
{
    let mut rest = value;
    'parts: while let Some((part, more)) = cut_at(b',', rest) {
        if is_option(option, part) {
            return true;
        }
        rest = more;
    }
    is_option(option, rest)
}

fn has_option(option: &[u8], headers: &HeaderMap<HeaderValue>) -> bool
    requires { lowercase option.now ≡ option.now }
    ensures { result ≡ has_option option.now headers.now }
{
    let values = headers.get_all(&CONNECTION);
    for value in values.iter() {
        if lists(option, value.as_bytes()) {
            return true;
        }
    }
    false
}

/// Whether the `Connection` headers ask for another request: they list `keep-alive` and not `close`
/// (RFC 9112, section 9.3).
pub(crate) fn asks_stay(headers: &HeaderMap<HeaderValue>) -> bool
    ensures { result ≡ asks_stay headers.now }
{
    let is_kept = has_option(b"keep-alive", headers);
    let is_closed = has_option(b"close", headers);
    is_kept & !is_closed
}
