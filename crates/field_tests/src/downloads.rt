//! Tokens in headers and queries, and downloads.

use b2_base::{Memory, Text};
use b2_types::{ByteRange, Call, message_of};
use call_paths::download_parts;
use head_fields::{download_by_id, download_by_name, download_token, first_param, token_of};
use http_header::{HeaderMap, HeaderName, HeaderValue};
use std::alloc::Global;
use std::test::Fail;
use wire_forms::Request;

fn request(alloc: Global, query: &str, tokens: &[&[u8]]) -> Result<Request, Fail> {
    request_to(alloc, "/file/bucket/name", query, tokens)
}

fn request_to(alloc: Global, path: &str, query: &str, tokens: &[&[u8]]) -> Result<Request, Fail> {
    let headers = headers(alloc, b"authorization", tokens)?;
    Ok(Request {
        method: Text::copy(alloc, "GET")?,
        path: Text::copy(alloc, path)?,
        query: Text::copy(alloc, query)?,
        headers,
        length: 0,
        stay: false,
    })
}

fn headers(alloc: Global, name: &[u8], values: &[&[u8]]) -> Result<HeaderMap<HeaderValue>, Fail> {
    let mut headers = HeaderMap::new(alloc);
    for value in values {
        let name = HeaderName::from_bytes(alloc, name).ok().ok_or("a name")?;
        let value = HeaderValue::from_bytes(alloc, value).ok().ok_or("a value")?;
        headers.append(name, value).ok().ok_or("room")?;
    }
    Ok(headers)
}

#[test]
fn tokens(rt: HostRuntime) -> Result<(), Fail> {
    let alloc = rt.alloc();
    let rows: [(&[&[u8]], &str, &str); 4] = [
        (&[b"3_a"], "", "3_a"),
        // The first counts, and the query is not looked at.
        (&[b"3_a", b"3_b"], "Authorization=3_c", "3_a"),
        (&[b"\xff"], "Authorization=3_c", ""),
        (&[], "a=b&Authorization=3%5Fc&Authorization=3_d", "3_c"),
    ];
    for (headers, query, token) in rows {
        let request = request(alloc, query, headers)?;
        let found = download_token(alloc, &request)?.ok_or("a token")?;
        assert_eq!(rt; found.get(), token);
    }
    let none = request(alloc, "authorization=3_c", &[])?;
    assert!(rt; download_token(alloc, &none)?.is_none());
    assert!(rt; token_of(alloc, &none)?.is_none());
    Ok(())
}

#[test]
fn parameters(rt: HostRuntime) -> Result<(), Fail> {
    let alloc = rt.alloc();
    let rows: [(&[u8], &str); 3] = [
        (b"fileId=4_z&fileId=5", "4_z"),
        (b"a&&file%49d=a+b%2B", "a b+"),
        (b"fileId", ""),
    ];
    for (query, value) in rows {
        let found = first_param(alloc, query, "fileId")?.ok_or("a value")?;
        assert_eq!(rt; found.get(), value);
    }
    assert!(rt; first_param(alloc, b"fileid=1", "fileId")?.is_none());
    Ok(())
}

// The message of a bad call's fault; empty for a call.
fn message(alloc: Global, call: Call) -> Result<Text, Memory> {
    match call {
        Call::Bad(bad) => message_of(alloc, &bad.fault),
        _ => Text::copy(alloc, ""),
    }
}

#[test]
fn downloads_by_id(rt: HostRuntime) -> Result<(), Fail> {
    let alloc = rt.alloc();
    let rows: [(&str, &str); 5] = [
        ("", "missing field: fileId"),
        (
            "fileid=4_z00000001_f0000000000000001",
            "missing field: fileId",
        ),
        ("fileId=4_z00000001_f0000000000000001", ""),
        ("a=b&fileId=4%5Fz00000001%5Ff0000000000000001&fileId=", ""),
        (
            "fileId=&fileId=4_z00000001_f0000000000000001",
            "bad field: fileId",
        ),
    ];
    for (query, fault) in rows {
        let request = request(alloc, query, &[])?;
        let call = download_by_id(alloc, &request)?;
        assert_eq!(rt; message(alloc, call)?.get(), fault);
    }
    Ok(())
}

// The range of a download; none for a call that is none.
fn range(call: &Call) -> Option<ByteRange> {
    match call {
        Call::DownloadFileById(download) => download.range,
        _ => None,
    }
}

fn range_by_id(alloc: Global, request: &Request) -> Result<Option<ByteRange>, Memory> {
    let call = download_by_id(alloc, request)?;
    Ok(range(&call))
}

#[test]
fn ranges_of_downloads(rt: HostRuntime) -> Result<(), Fail> {
    let alloc = rt.alloc();
    let rows: [(&[&[u8]], Option<ByteRange>); 6] = [
        (&[], None),
        (&[b"bytes=1-2"], Some(ByteRange::Between(1, 2))),
        (&[b"bytes=-5"], Some(ByteRange::Last(5))),
        // One of another form is as none, and the first counts.
        (&[b"items=1-2"], None),
        (&[b"bytes=3-", b"bytes=1-2"], Some(ByteRange::From(3))),
        (&[b"bytes=2-1", b"bytes=1-2"], None),
    ];
    for (values, asked) in rows {
        let mut request = request(alloc, "fileId=4_z00000001_f0000000000000001", &[])?;
        request.headers = headers(alloc, b"range", values)?;
        assert!(rt; range_by_id(alloc, &request)? == asked);
    }
    Ok(())
}

fn by_name(alloc: Global, request: &Request) -> Result<Text, Memory> {
    let Some((_bucket, _name)) = download_parts(request.path.get().as_bytes()) else {
        return Text::copy(alloc, "no path");
    };
    let call = download_by_name(alloc, request)?;
    message(alloc, call)
}

#[test]
fn downloads_by_name(rt: HostRuntime) -> Result<(), Fail> {
    let alloc = rt.alloc();
    let rows: [(&str, &str); 6] = [
        ("/file/bucket/a+b%20c", ""),
        ("/file//n", ""),
        ("/file/bucket/", "bad field: fileName"),
        ("/file/bucket/a%7F", "bad field: fileName"),
        ("/file/bucket/%a", "bad field: fileName"),
        ("/file/bucket", "no path"),
    ];
    for (path, fault) in rows {
        let request = request_to(alloc, path, "", &[])?;
        assert_eq!(rt; by_name(alloc, &request)?.get(), fault);
    }
    Ok(())
}
