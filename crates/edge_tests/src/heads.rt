//! Where heads end and what they are read as, each with the rule that it comes from.

ghost use Rattle.std.specs.Prelude.{◌≤◌, length};

use b2_base::Or;
use b2_types::Fault;
use http_edge::{Cut, Head, MOST_HEAD, body_length, cut_head, read_head};
use http_header::{CONTENT_LENGTH, HeaderMap, HeaderName, HeaderValue};
use rule_table::{CallName, FaultKind};
use std::alloc::Global;
use std::test::Fail;

// Where the head ends, of which so many bytes came first.
fn cut_in_two(bytes: &[u8], came: usize) -> Cut
    requires { came ≤ length bytes.now }
{
    let front = &bytes[..came];
    match cut_head(front, 0) {
        Cut::NotYet => cut_head(bytes, came),
        found => found,
    }
}

#[test]
fn ends_of_heads(rt: HostRuntime) -> Result<(), Fail> {
    let cases: [(&[u8], Cut); 17] = [
        (b"", Cut::NotYet),
        (b"GET / HTTP/1.1\r\n\r\n", Cut::Head(18)),
        (b"GET / HTTP/1.1\r\n\r\nmore\r\n\r\n", Cut::Head(18)),
        (b"GET / HTTP/1.1\n\n", Cut::Head(16)),
        (b"GET / HTTP/1.1\n\r\n", Cut::Head(17)),
        (b"GET / HTTP/1.1\r\n\n", Cut::Head(17)),
        (b"GET / HTTP/1.1\r\n\r", Cut::NotYet),
        (b"GET / HTTP/1.1\r\nA: b\r\n\r\n", Cut::Head(24)),
        // A lone CR ends no line.
        (b"GET / HTTP/1.1\r\r\n", Cut::NotYet),
        (b"GET / HTTP/1.1\r\r", Cut::NotYet),
        // Empty lines in front are passed over.
        (b"\r\n\r\n\n\n", Cut::NotYet),
        (b"\r\n\r\nA\n\n", Cut::Head(7)),
        (b"\n\nA\r\n\r\n", Cut::Head(7)),
        (b"\r\r\n\nA\n\n", Cut::Head(7)),
        (b"A\r\r\n\nB\n\n", Cut::Head(5)),
        (b"\n\r\r\n\n\r\n", Cut::NotYet),
        (b"HTTX\n\n", Cut::Head(6)),
    ];
    for (bytes, cut) in cases {
        for came in 0..=bytes.len() {
            assert_eq!(rt; cut_in_two(bytes, came), cut, "{came}");
        }
    }
    Ok(())
}

// So many letters, and an empty line after them.
fn long_head(alloc: Global, letters: usize) -> Result<Vec<u8>, Fail> {
    let mut head = Vec::new(alloc);
    for _ in 0..letters {
        head.push(b'A')?;
    }
    head.extend_from_slice(b"\n\n")?;
    Ok(head)
}

#[test]
fn longest_heads(rt: HostRuntime) -> Result<(), Fail> {
    for (letters, want) in [
        (MOST_HEAD - 3, Cut::Head(MOST_HEAD - 1)),
        (MOST_HEAD - 2, Cut::Head(MOST_HEAD)),
        (MOST_HEAD - 1, Cut::TooLong),
    ] {
        let head = long_head(rt.alloc(), letters)?;
        assert_eq!(rt; cut_in_two(&head, head.len() / 2), want, "{letters}");
    }
    Ok(())
}

const PATH: &[u8] = b"/b2api/v3/b2_authorize_account";

// The bytes with the path of a served call in place of each `@`.
fn with_path(alloc: Global, bytes: &[u8]) -> Result<Vec<u8>, Fail> {
    let mut head = Vec::new(alloc);
    for byte in bytes {
        if *byte == b'@' {
            head.extend_from_slice(PATH)?;
        } else {
            head.push(*byte)?;
        }
    }
    Ok(head)
}

fn add_header(text: &mut String, name: &str, value: &[u8]) -> Result<(), Fail> {
    text.push_str(" ")?;
    text.push_str(name)?;
    text.push_str("=")?;
    text.push_str(str::from_utf8(value).unwrap_or("?"))?;
    Ok(())
}

// What the request is.
fn text_of(alloc: Global, head: &Head) -> Result<String, Fail> {
    let request = &head.request;
    let method = request.method.get();
    let query = request.query.get();
    let length = request.length;
    let stay = if request.stay { " stay" } else { "" };
    let mut text = format!(in alloc; "{method} ?{query} {length}{stay}")?;
    for (name, value) in request.headers.iter() {
        add_header(&mut text, name.as_str(), value.as_bytes())?;
    }
    Ok(text)
}

fn fault_text(fault: &Fault) -> &'static str {
    match fault.kind {
        FaultKind::BadHead => "BadHead",
        FaultKind::NoCall => "NoCall",
        FaultKind::BadMethod => "BadMethod",
        FaultKind::BadLength => "BadLength",
        _ => "other",
    }
}

// What the bytes are read as.
fn shown(alloc: Global, bytes: &[u8]) -> Result<String, Fail> {
    let bytes = with_path(alloc, bytes)?;
    if bytes.len() > 16_384 {
        return Err(Fail::from("too long"));
    }
    match read_head(alloc, &bytes) {
        Ok(head) => text_of(alloc, &head),
        Err(Or::Fault(fault)) => Ok(String::from_str(alloc, fault_text(&fault))?),
        Err(Or::Memory) => Err(Fail::from("memory")),
    }
}

const LINES: [(&[u8], &str); 32] = [
    (
        b"POST @ HTTP/1.1\nContent-Length: 5\n\n",
        "POST ? 5 content-length=5",
    ),
    // A call that is none is told before a length that is amiss.
    (b"PUT @ HTTP/1.1\nContent-Length: x\n\n", "BadMethod"),
    (b"GET /x HTTP/1.1\nTransfer-Encoding: chunked\n\n", "NoCall"),
    // Lines end with CR LF or with LF (RFC 9112, section 2.2), and empty lines in front are passed over.
    (b"GET @ HTTP/1.1\r\n\r\n", "GET ? 0"),
    (b"GET @ HTTP/1.1\nRange: b\n\n", "GET ? 0 range=b"),
    (b"GET @ HTTP/1.1\r\nRange: b\n\r\n", "GET ? 0 range=b"),
    (b"\r\n\nGET @ HTTP/1.1\r\n\r\n", "GET ? 0"),
    (b"\rGET @ HTTP/1.1\r\n\r\n", "BadHead"),
    (b"GET @ HTTP/1.1\rA: b\r\n\r\n", "BadHead"),
    // The empty line is the last, and nothing stands after it.
    (b"GET @ HTTP/1.1\r\nA: b\r\n", "BadHead"),
    (b"GET @ HTTP/1.1\r\n\r\nA", "BadHead"),
    // One space divides the request line (section 3).
    (b"GET  @ HTTP/1.1\r\n\r\n", "BadHead"),
    (b" GET @ HTTP/1.1\r\n\r\n", "BadHead"),
    (b"GET @ HTTP/1.1 \r\n\r\n", "BadHead"),
    (b"GET\t@ HTTP/1.1\r\n\r\n", "BadHead"),
    // A method is a token (section 3.1).
    (b"M-SEARCH @ HTTP/1.1\r\n\r\n", "BadMethod"),
    (b"get @ HTTP/1.1\r\n\r\n", "BadMethod"),
    (b"G(T @ HTTP/1.1\r\n\r\n", "BadHead"),
    // The target is divided at its first question mark (section 3.2).
    (b"GET @?a=1?b HTTP/1.1\r\n\r\n", "GET ?a=1?b 0"),
    (b"POST @? HTTP/1.0\r\n\r\n", "POST ? 0"),
    (b"GET @/ HTTP/1.1\r\n\r\n", "NoCall"),
    (b"GET ?q HTTP/1.1\r\n\r\n", "NoCall"),
    (b"GET http://h@ HTTP/1.1\r\n\r\n", "NoCall"),
    (b"OPTIONS * HTTP/1.1\r\n\r\n", "NoCall"),
    (b"GET /\xc3\xa9 HTTP/1.1\r\n\r\n", "NoCall"),
    (b"GET /\xe9 HTTP/1.1\r\n\r\n", "BadHead"),
    (b"GET /\x7f HTTP/1.1\r\n\r\n", "BadHead"),
    // The version is 1.0 or 1.1 (section 2.3).
    (b"GET @ HTTP/1.2\r\n\r\n", "BadHead"),
    (b"GET @ HTTP/2.0\r\n\r\n", "BadHead"),
    (b"GET @ http/1.1\r\n\r\n", "BadHead"),
    (b"GET @\r\n\r\n", "BadHead"),
    (b"GET HTTP/1.1\r\n\r\n", "BadHead"),
];

const VALUES: [(&[u8], &str); 9] = [
    // White space round a value is none of it (RFC 9110, section 5.5); a value may be empty.
    (b"Range:b\r\n", "GET ? 0 range=b"),
    (b"Range: \t b \t\r\n", "GET ? 0 range=b"),
    (b"Range:\r\n", "GET ? 0 range="),
    (b"Range: b\tc  d\r\n", "GET ? 0 range=b\tc  d"),
    // Bytes above 127 stand in values; NUL, CR and DEL do not.
    (b"Range: \xc3\xa9\r\n", "GET ? 0 range=\u{e9}"),
    (b"Range: \xe9\r\n", "GET ? 0 range=?"),
    (b"Range: b\0c\r\n", "BadHead"),
    (b"Range: b\rc\r\n", "BadHead"),
    (b"Range: b\x7fc\r\n", "BadHead"),
];

const FIELDS: [(&[u8], &str); 33] = [
    // No white space stands before the colon (RFC 9112, section 5.1), nor in front of the first field
    // (section 2.2), and no line is folded (section 5.2).
    (b"Range : b\r\n", "BadHead"),
    (b" Range: b\r\n", "BadHead"),
    (b"Range: b\r\n c\r\n", "BadHead"),
    (b"Range: b\r\n\tc: d\r\n", "BadHead"),
    // A name is a token, and not empty (RFC 9110, section 5.1).
    (b": b\r\n", "BadHead"),
    (b"Range\r\n", "BadHead"),
    (b"Range(: b\r\n", "BadHead"),
    (b"\xc3\xa9: b\r\n", "BadHead"),
    (b"X-Bz-a_.b!: c\r\n", "GET ? 0 x-bz-a_.b!=c"),
    // Names have no case, and the values of one name keep their order (section 5.3).
    (
        b"Range: 1\r\nx-bz-b: 2\r\nrANGE: 3\r\n",
        "GET ? 0 range=1 range=3 x-bz-b=2",
    ),
    // Headers that no call reads are ignored.
    (
        b"Authorization: b\nConnection: c\nContent-Length: 0\nContent-Type: d\n",
        "GET ? 0 authorization=b connection=c content-length=0 content-type=d",
    ),
    (
        b"X-Bz-: b\nx-BZ-Info-a: c\n",
        "GET ? 0 x-bz-=b x-bz-info-a=c",
    ),
    (
        b"X-Bz: b\nX-Bza-: b\nRanges: b\nRang: b\nHost: b\n",
        "GET ? 0",
    ),
    // A length is 1 to 19 digits, told once (RFC 9112, section 6, and RFC 9110, section 8.6).
    (b"", "GET ? 0"),
    (b"Content-Length: 0\n", "GET ? 0 content-length=0"),
    (b"CONTENT-length: 5\n", "GET ? 5 content-length=5"),
    (b"Content-Length:\t 5 \t\n", "GET ? 5 content-length=5"),
    (b"Content-Length: 007\n", "GET ? 7 content-length=007"),
    (
        b"Content-Length: 1048576\n",
        "GET ? 1048576 content-length=1048576",
    ),
    (b"Content-Length: 9999999999999999999\n", "BadLength"),
    (b"Content-Length: -1\n", "BadLength"),
    (b"Content-Length: 5 5\n", "BadLength"),
    (b"Content-Length: 0x5\n", "BadLength"),
    (b"Content-Length: 5\nContent-Length: 5\n", "BadLength"),
    (b"Transfer-Encoding: chunked\n", "BadLength"),
    (
        b"Content-Length: 0000000000000000007\n",
        "GET ? 7 content-length=0000000000000000007",
    ),
    (b"Content-Length: 00000000000000000007\n", "BadLength"),
    (b"Content-Length: 1048577\n", "BadLength"),
    (b"Content-Length:\n", "BadLength"),
    (b"Content-Length: +5\n", "BadLength"),
    (b"Content-Length: 5,5\n", "BadLength"),
    (b"Content-Length: 5\nA: b\ncontent-length: 6\n", "BadLength"),
    (b"transfer-encoding:\nContent-Length: 5\n", "BadLength"),
];

#[test]
fn lines(rt: HostRuntime) -> Result<(), Fail> {
    for (bytes, want) in LINES {
        assert_eq!(rt; shown(rt.alloc(), bytes)?.as_str(), want);
    }
    Ok(())
}

// What a head with these fields is read as.
fn shown_with(alloc: Global, fields: &[u8]) -> Result<String, Fail> {
    let mut head = Vec::new(alloc);
    head.extend_from_slice(b"GET @ HTTP/1.1\r\n")?;
    head.extend_from_slice(fields)?;
    head.extend_from_slice(b"\r\n")?;
    shown(alloc, &head)
}

#[test]
fn values(rt: HostRuntime) -> Result<(), Fail> {
    for (fields, want) in VALUES {
        assert_eq!(rt; shown_with(rt.alloc(), fields)?.as_str(), want);
    }
    Ok(())
}

#[test]
fn fields(rt: HostRuntime) -> Result<(), Fail> {
    for (fields, want) in FIELDS {
        assert_eq!(rt; shown_with(rt.alloc(), fields)?.as_str(), want);
    }
    Ok(())
}

// A head of so many fields.
fn with_fields(alloc: Global, fields: usize) -> Result<String, Fail> {
    let mut head = String::from_str(alloc, "GET @ HTTP/1.1\r\n")?;
    for _ in 0..fields {
        head.push_str("Range: b\r\n")?;
    }
    head.push_str("\r\n")?;
    Ok(head)
}

#[test]
fn most_fields(rt: HostRuntime) -> Result<(), Fail> {
    let alloc = rt.alloc();
    let most = shown(alloc, with_fields(alloc, 64)?.as_bytes())?;
    assert!(rt; most.as_str().starts_with("GET ? 0 range=b"));
    let more = shown(alloc, with_fields(alloc, 65)?.as_bytes())?;
    assert_eq!(rt; more.as_str(), "BadHead");
    Ok(())
}

// RFC 9112, section 9.3.
#[test]
fn stays(rt: HostRuntime) -> Result<(), Fail> {
    let alloc = rt.alloc();
    for (fields, want) in [
        ("", false),
        ("Connection: keep-alive\n", true),
        ("CONNECTION: Keep-ALIVE\n", true),
        ("Connection: \t x ,\t keep-alive\t ,y\n", true),
        ("Connection: x\nConnection: keep-alive\n", true),
        ("Connection: keep-alive, Close\n", false),
        ("Connection: keep-alive\nConnection: ,close,\n", false),
        ("Connection: keep alive\n", false),
        ("Connection: keep-alives\n", false),
        ("Connection: keep-alive;x\n", false),
        ("Connection: keep-alive, closed\n", true),
        ("Keep-Alive: 5\n", false),
    ] {
        let head = format!(in alloc; "GET @ HTTP/1.0\n{fields}\n")?;
        let text = shown(alloc, head.as_bytes())?;
        assert_eq!(rt; text.as_str().starts_with("GET ? 0 stay"), want, "{fields}");
    }
    Ok(())
}

// Headers with this length, and with this digest.
fn upload_headers(
    alloc: Global,
    length: &str,
    digest: &str,
) -> Result<HeaderMap<HeaderValue>, Fail> {
    let mut headers = HeaderMap::new(alloc);
    if !length.is_empty() {
        let value = HeaderValue::from_bytes(alloc, length.as_bytes())
            .ok()
            .ok_or("a value")?;
        headers.append(CONTENT_LENGTH, value).ok().ok_or("memory")?;
    }
    let name = HeaderName::from_bytes(alloc, b"x-bz-content-sha1")
        .ok()
        .ok_or("a name")?;
    let value = HeaderValue::from_bytes(alloc, digest.as_bytes())
        .ok()
        .ok_or("a value")?;
    headers.append(name, value).ok().ok_or("memory")?;
    Ok(headers)
}

#[test]
fn lengths_of_uploads(rt: HostRuntime) -> Result<(), Fail> {
    let alloc = rt.alloc();
    for (length, digest, want) in [
        ("", "do_not_verify", None),
        ("0", "do_not_verify", Some(0)),
        ("5000000000", "do_not_verify", Some(5_000_000_000)),
        ("5000000001", "do_not_verify", None),
        ("39", "hex_digits_at_end", None),
        ("40", "hex_digits_at_end", Some(40)),
        ("5000000040", "hex_digits_at_end", Some(5_000_000_040)),
        ("5000000041", "hex_digits_at_end", None),
    ] {
        let headers = upload_headers(alloc, length, digest)?;
        for name in [CallName::UploadFile, CallName::UploadPart] {
            assert_eq!(rt; body_length(name, &headers), want, "{length} {digest}");
        }
    }
    Ok(())
}
