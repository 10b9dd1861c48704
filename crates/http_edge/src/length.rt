//! How long the body of a request is.

ghost use Rattle.std.specs.Prelude.{◌≡◌, true, false, MatchOption};
ghost use Rattle.http_edge.specs.Length.{lengths, are_lengths, told_length, is_upload, has_digest_last, least_body, most_body, is_bad_length};

use b2_base::read_digits;
use http_header::{CONTENT_LENGTH, HeaderMap, HeaderValue, TRANSFER_ENCODING};
use rule_table::CallName;

// The most digits of a length.
const MOST_DIGITS: usize = 19;

// The most bytes of a JSON body and of a content, and the digits of a digest after a content.
const MOST_JSON: u64 = 1_048_576;

const MOST_CONTENT: u64 = 5_000_000_000;

const DIGEST_LEN: u64 = 40;

// The length that the headers give, or none where they give more than one, or something else.
fn told_length(headers: &HeaderMap<HeaderValue>) -> Option<u64>
    ensures { MatchOption result (are_lengths (lengths headers.now) ≡ false)
        (λ n. (are_lengths (lengths headers.now) ≡ true)
        × (n ≡ told_length (lengths headers.now))) }
{
    let all = headers.get_all(&CONTENT_LENGTH);
    let mut values = all.iter();
    let Some(first) = values.next() else {
        return Some(0);
    };
    if values.next().is_some() {
        return None;
    }
    read_digits(first.as_bytes(), MOST_DIGITS)
}

fn has_digest_last(headers: &HeaderMap<HeaderValue>) -> bool
    ensures { result ≡ has_digest_last headers.now }
{
    match headers.get("x-bz-content-sha1") {
        Some(value) => value.as_bytes() == b"hex_digits_at_end".as_slice(),
        None => false,
    }
}

fn is_upload(name: CallName) -> bool
    ensures { result ≡ is_upload name }
{
    match name {
        CallName::UploadFile | CallName::UploadPart => true,
        _ => false,
    }
}

fn least_body(name: CallName, headers: &HeaderMap<HeaderValue>) -> u64
    ensures { result ≡ least_body name headers.now }
{
    if is_upload(name) && has_digest_last(headers) {
        DIGEST_LEN
    } else {
        0
    }
}

fn most_body(name: CallName, headers: &HeaderMap<HeaderValue>) -> u64
    ensures { result ≡ most_body name headers.now }
{
    if !is_upload(name) {
        return MOST_JSON;
    }
    if has_digest_last(headers) {
        MOST_CONTENT + DIGEST_LEN
    } else {
        MOST_CONTENT
    }
}

/// The bytes of the body of a request for the call, or none where the length is amiss (RFC 9112,
/// section 6).
pub fn body_length(name: CallName, headers: &HeaderMap<HeaderValue>) -> Option<u64>
    ensures { MatchOption result (is_bad_length name headers.now ≡ true)
        (λ n. (is_bad_length name headers.now ≡ false) × (n ≡ told_length (lengths headers.now))) }
{
    let Some(told) = told_length(headers) else {
        return None;
    };
    let is_coded = headers.get(&TRANSFER_ENCODING).is_some();
    let is_missing = is_upload(name) && headers.get(&CONTENT_LENGTH).is_none();
    let is_low = told < least_body(name, headers);
    let is_high = most_body(name, headers) < told;
    if is_coded | is_missing | is_low | is_high {
        None
    } else {
        Some(told)
    }
}
