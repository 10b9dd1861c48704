//! Uploads with one header that is another, is missing or stands twice.

use b2_base::{BucketNum, Memory, Text, VersionNum};
use b2_types::{DigestRule, FileUpload, UploadCall, message_of};
use http_header::{HeaderMap, HeaderName, HeaderValue};
use std::alloc::Global;
use std::test::Fail;
use upload_heads::{read_file_upload, read_part_upload};
use wire_forms::Request;

type Rows<'a> = &'a [(&'a str, &'a str)];

const DIGITS: &str = "a9993e364706816aba3e25717850c26c9cd0d89d";

const FILE: Rows = &[
    ("x-bz-file-name", "a.txt"),
    ("content-type", "text/plain"),
    ("x-bz-content-sha1", DIGITS),
];

const PART: Rows = &[("x-bz-part-number", "10000"), ("x-bz-content-sha1", DIGITS)];

fn put(
    alloc: Global,
    headers: &mut HeaderMap<HeaderValue>,
    name: &str,
    value: &str,
) -> Result<(), Fail> {
    let name = HeaderName::from_bytes(alloc, name.as_bytes())
        .ok()
        .ok_or("a name")?;
    let value = HeaderValue::from_bytes(alloc, value.as_bytes())
        .ok()
        .ok_or("a value")?;
    headers.append(name, value).ok().ok_or("room")?;
    Ok(())
}

fn has_name(rows: Rows, name: &str) -> bool {
    rows.iter().any(|row| row.0 == name)
}

fn put_all(
    alloc: Global,
    headers: &mut HeaderMap<HeaderValue>,
    rows: Rows,
    others: Rows,
) -> Result<(), Fail> {
    for (name, value) in rows {
        if *value != GONE && !has_name(others, name) {
            put(alloc, headers, name, value)?;
        }
    }
    Ok(())
}

// The headers with others in place of those of their names, or without them.
fn request(alloc: Global, rows: Rows, others: Rows) -> Result<Request, Fail> {
    let mut headers = HeaderMap::new(alloc);
    put_all(alloc, &mut headers, rows, others)?;
    put_all(alloc, &mut headers, others, &[])?;
    Ok(Request {
        method: Text::copy(alloc, "POST")?,
        path: Text::copy(alloc, "")?,
        query: Text::copy(alloc, "")?,
        headers,
        length: 3,
        stay: false,
    })
}

// The message of a bad upload's fault; empty for an upload.
fn message(alloc: Global, upload: UploadCall) -> Result<Text, Memory> {
    match upload {
        UploadCall::Bad(bad) => message_of(alloc, &bad.fault),
        _ => Text::copy(alloc, ""),
    }
}

fn file_message(alloc: Global, more: Rows) -> Result<Text, Fail> {
    let request = request(alloc, FILE, more)?;
    let bucket = BucketNum::new(7).ok_or("a number")?;
    let upload = read_file_upload(alloc, bucket, &request)?;
    Ok(message(alloc, upload)?)
}

fn part_message(alloc: Global, more: Rows) -> Result<Text, Fail> {
    let request = request(alloc, PART, more)?;
    let bucket = BucketNum::new(7).ok_or("a number")?;
    let file = VersionNum::new(8).ok_or("a number")?;
    let upload = read_part_upload(alloc, bucket, file, &request)?;
    Ok(message(alloc, upload)?)
}

// No header of this name.
const GONE: &str = "-";

const NUMBER: &str = "x-bz-part-number";

const NAME: &str = "x-bz-file-name";

const TYPE: &str = "content-type";

const SHA1: &str = "x-bz-content-sha1";

const HOLD: &str = "x-bz-file-legal-hold";

const MODE: &str = "x-bz-file-retention-mode";

const UNTIL: &str = "x-bz-file-retention-retain-until-timestamp";

#[test]
fn one_header_of_a_file(rt: HostRuntime) -> Result<(), Fail> {
    let alloc = rt.alloc();
    let rows: [(Rows, &str); 19] = [
        (&[], ""),
        (&[(NAME, GONE)], "bad header: x-bz-file-name"),
        (&[(TYPE, GONE)], "bad header: content-type"),
        (&[(SHA1, GONE)], "bad header: x-bz-content-sha1"),
        (&[(NAME, "a"), (NAME, "b")], "bad header: x-bz-file-name"),
        (&[(NAME, "a+b%20c%C3%A9")], ""),
        (&[(NAME, "a%7Fb")], "bad header: x-bz-file-name"),
        (&[(NAME, "a%2")], "bad header: x-bz-file-name"),
        (&[(NAME, "%C3")], "bad header: x-bz-file-name"),
        (&[(TYPE, "b2/x-auto")], ""),
        (&[(TYPE, "")], "bad header: content-type"),
        (&[(TYPE, "a\tb")], "bad header: content-type"),
        (&[(SHA1, "A9993E364706816ABA3E25717850C26C9CD0D89D")], ""),
        (&[(SHA1, "hex_digits_at_end")], ""),
        (&[(SHA1, "Do_not_verify")], "bad header: x-bz-content-sha1"),
        (&[(SHA1, "a9993e")], "bad header: x-bz-content-sha1"),
        (&[(HOLD, "off")], ""),
        (&[(HOLD, "ON")], "bad header: x-bz-file-legal-hold"),
        // The first in the order of the table is told.
        (
            &[(HOLD, "ON"), (SHA1, GONE), (NAME, "%")],
            "bad header: x-bz-file-name",
        ),
    ];
    for (more, fault) in rows {
        let found = file_message(alloc, more)?;
        assert_eq!(rt; found.get(), fault);
    }
    Ok(())
}

#[test]
fn retentions_and_encryption(rt: HostRuntime) -> Result<(), Fail> {
    let alloc = rt.alloc();
    let no_until = "bad header: x-bz-file-retention-retain-until-timestamp";
    let no_mode = "bad header: x-bz-file-retention-mode";
    let rows: [(Rows, &str); 9] = [
        (&[(MODE, "governance"), (UNTIL, "253402300799999")], ""),
        (
            &[(MODE, "compliance"), (UNTIL, "253402300800000")],
            no_until,
        ),
        (&[(MODE, "compliance"), (UNTIL, "01")], no_until),
        (&[(MODE, "none"), (UNTIL, "01")], no_mode),
        (&[(MODE, "governance")], no_until),
        (&[(UNTIL, "x")], no_mode),
        (&[(UNTIL, "0"), (MODE, "governance"), (HOLD, "on")], ""),
        (
            &[("x-bz-server-side-encryption-customer-key", "x")],
            "not offered: x-bz-server-side-encryption",
        ),
        (
            &[("x-bz-server-side-encryption", "x"), (UNTIL, "0")],
            no_mode,
        ),
    ];
    for (more, fault) in rows {
        let found = file_message(alloc, more)?;
        assert_eq!(rt; found.get(), fault);
    }
    Ok(())
}

#[test]
fn information(rt: HostRuntime) -> Result<(), Fail> {
    let alloc = rt.alloc();
    let ten: Rows = &[
        ("x-bz-info-a", ""),
        ("x-bz-info-b", "1"),
        ("x-bz-info-c", "1"),
        ("x-bz-info-d", "1"),
        ("x-bz-info-e", "1"),
        ("x-bz-info-f", "1"),
        ("x-bz-info-g", "1"),
        ("x-bz-info-h", "1"),
        ("x-bz-info-i", "1"),
        ("x-bz-info-j", "1"),
    ];
    let eleven: Rows = &[
        ("x-bz-info-a", ""),
        ("x-bz-info-b", "1"),
        ("x-bz-info-c", "1"),
        ("x-bz-info-d", "1"),
        ("x-bz-info-e", "1"),
        ("x-bz-info-f", "1"),
        ("x-bz-info-g", "1"),
        ("x-bz-info-h", "1"),
        ("x-bz-info-i", "1"),
        ("x-bz-info-j", "1"),
        ("x-bz-info-k", "1"),
    ];
    let rows: [(Rows, &str); 7] = [
        (ten, ""),
        (eleven, "bad header: x-bz-info-"),
        (&[("x-bz-info-", "1")], "bad header: x-bz-info-"),
        (&[("X-Bz-Info-Key", "%C3%A9+")], ""),
        (
            &[
                ("x-bz-info-b", "%"),
                ("x-bz-info-a", "%FF"),
                ("x-bz-info-c", "%"),
            ],
            "bad header: x-bz-info-a",
        ),
        (
            &[("x-bz-info-k", "1"), ("x-bz-info-K", "1")],
            "bad header: x-bz-info-k",
        ),
        // The headers that stand after them are judged after them.
        (
            &[(HOLD, "x"), ("x-bz-info-k", "%")],
            "bad header: x-bz-info-k",
        ),
    ];
    for (more, fault) in rows {
        let found = file_message(alloc, more)?;
        assert_eq!(rt; found.get(), fault);
    }
    Ok(())
}

#[test]
fn bytes_of_information(rt: HostRuntime) -> Result<(), Fail> {
    let alloc = rt.alloc();
    for (count, fault) in [(6999, ""), (7000, "bad header: x-bz-info-")] {
        let mut value = String::new(alloc);
        for _ in 0..count {
            value.push('a')?;
        }
        let found = file_message(alloc, &[("x-bz-info-a", value.as_str())])?;
        assert_eq!(rt; found.get(), fault);
    }
    Ok(())
}

#[test]
fn one_header_of_a_part(rt: HostRuntime) -> Result<(), Fail> {
    let alloc = rt.alloc();
    let rows: [(Rows, &str); 9] = [
        (&[], ""),
        (&[("x-bz-info-a", "%"), (HOLD, "x"), (NAME, "%")], ""),
        (&[(NUMBER, "1")], ""),
        (&[(NUMBER, GONE)], "bad header: x-bz-part-number"),
        (&[(NUMBER, "0")], "bad header: x-bz-part-number"),
        (&[(NUMBER, "10001")], "bad header: x-bz-part-number"),
        (&[(NUMBER, "+1")], "bad header: x-bz-part-number"),
        (&[(SHA1, GONE)], "bad header: x-bz-content-sha1"),
        (
            &[("x-bz-server-side-encryption-a", "")],
            "not offered: x-bz-server-side-encryption",
        ),
    ];
    for (more, fault) in rows {
        let found = part_message(alloc, more)?;
        assert_eq!(rt; found.get(), fault);
    }
    Ok(())
}

// The upload's name, type, key and value; whether it has the digest, a hold and a retention.
fn fields(alloc: Global, upload: &FileUpload) -> Result<Text, Memory> {
    let told = match &upload.digest {
        DigestRule::Given(digest) => digest[0] == 0xa9,
        _ => false,
    };
    let name = upload.name.get();
    let kind = upload.kind.get();
    let (hold, kept) = (upload.hold, upload.retention.is_some());
    match upload.info.get() {
        [pair] => {
            let (key, value) = (pair.0.get(), pair.1.get());
            let text = format!(in alloc; "{name} {kind} {key} {value} {told} {hold} {kept}")?;
            Ok(Text::of(text))
        }
        _ => Text::copy(alloc, ""),
    }
}

fn told(alloc: Global, upload: UploadCall) -> Result<Text, Memory> {
    match upload {
        UploadCall::File(file) => fields(alloc, &file),
        _ => Text::copy(alloc, ""),
    }
}

#[test]
fn all_fields(rt: HostRuntime) -> Result<(), Fail> {
    let alloc = rt.alloc();
    let more: Rows = &[
        ("X-Bz-Info-Author", "A+B%2Bc"),
        (HOLD, "on"),
        (UNTIL, "1000"),
        (MODE, "compliance"),
    ];
    let request = request(alloc, FILE, more)?;
    let bucket = BucketNum::new(7).ok_or("a number")?;
    let upload = read_file_upload(alloc, bucket, &request)?;
    assert_eq!(rt;
        told(alloc, upload)?.get(),
        "a.txt text/plain author A B+c true true true"
    );
    Ok(())
}
