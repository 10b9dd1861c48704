//! Names at their limits, and folders.

use crate::{
    BucketFault, EscapeFault, InfoFault, NameFault, bucket_name, decode_name, encode_name,
    file_name, folder_of, info_pairs, is_prefix,
};
use b2_base::{Or, Text};
use std::alloc::Global;
use std::test::Fail;

#[test]
fn buckets(rt: HostRuntime) -> Result<(), Fail> {
    let alloc = rt.alloc();
    for (name, fault) in [
        ("abcde", BucketFault::Short),
        ("abc de", BucketFault::Char(3)),
        ("b2-abc", BucketFault::Reserved),
        ("B2-abc", BucketFault::Reserved),
        ("abcde_", BucketFault::Char(5)),
    ] {
        let Err(Or::Fault(found)) = bucket_name(alloc, name.as_bytes()) else {
            return Err(Fail::from("taken"));
        };
        assert_eq!(rt; found, fault, "{name}");
    }
    let name = bucket_name(alloc, b"b2abc-").ok().ok_or("name")?;
    assert_eq!(rt; name.get(), "b2abc-");
    Ok(())
}

#[test]
fn files(rt: HostRuntime) -> Result<(), Fail> {
    let alloc = rt.alloc();
    let faults: [(&[u8], NameFault); 4] = [
        (b"", NameFault::Empty),
        (b"a\xff", NameFault::NotUtf8(1)),
        (b"a\n", NameFault::Code(1)),
        (b"ab\x7f", NameFault::Code(2)),
    ];
    for (bytes, fault) in faults {
        let Err(Or::Fault(found)) = file_name(alloc, bytes) else {
            return Err(Fail::from("taken"));
        };
        assert_eq!(rt; found, fault);
    }
    let name = file_name(alloc, "a b/é".as_bytes()).ok().ok_or("name")?;
    assert_eq!(rt; name.get(), "a b/é");
    let text = encode_name(alloc, &name).ok().ok_or("memory")?;
    assert_eq!(rt; text.get(), "a%20b/%C3%A9");
    let again = decode_name(alloc, text.get().as_bytes())
        .ok()
        .ok_or("text")?;
    assert_eq!(rt; again.get(), name.get());
    Ok(())
}

#[test]
fn escapes(rt: HostRuntime) -> Result<(), Fail> {
    let alloc = rt.alloc();
    let name = decode_name(alloc, b"a%20b+%2b/%C3%a9").ok().ok_or("name")?;
    assert_eq!(rt; name.get(), "a b +/é");
    for (bytes, fault) in [
        ("a%2", EscapeFault::Escape(1)),
        ("%41%4g%", EscapeFault::Escape(3)),
        ("a%00", EscapeFault::Name(NameFault::Code(1))),
        ("a%ff", EscapeFault::Name(NameFault::NotUtf8(1))),
    ] {
        let Err(Or::Fault(found)) = decode_name(alloc, bytes.as_bytes()) else {
            return Err(Fail::from("taken"));
        };
        assert_eq!(rt; found, fault, "{bytes}");
    }
    Ok(())
}

#[test]
fn folders(rt: HostRuntime) -> Result<(), Fail> {
    assert!(rt; is_prefix(b"", b"a") && is_prefix(b"a", b"a"));
    assert!(rt; !is_prefix(b"ab", b"a") && !is_prefix(b"a", b""));
    assert_eq!(rt; folder_of(b"a/b/c", b"", b"/"), Some(2));
    assert_eq!(rt; folder_of(b"a/b/c", b"a/", b"/"), Some(4));
    assert_eq!(rt; folder_of(b"a/b/c", b"a/b/", b"/"), None);
    assert_eq!(rt; folder_of(b"a//b", b"a", b"//"), Some(3));
    assert_eq!(rt; folder_of(b"a", b"a/b", b"/"), None);
    Ok(())
}

// The pairs of a text such as `a=1&b=2`.
fn pairs(alloc: Global, rows: &str) -> Result<Vec<(Text, Text)>, Fail> {
    let mut list = Vec::new(alloc);
    for row in rows.split('&') {
        let (key, value) = row.split_once('=').ok_or("a pair")?;
        let key = Text::copy(alloc, key).ok().ok_or("memory")?;
        let value = Text::copy(alloc, value).ok().ok_or("memory")?;
        list.push((key, value))?;
    }
    Ok(list)
}

// The text, and so many letters behind it.
fn padded(alloc: Global, text: &str, count: usize) -> Result<String, Fail> {
    let mut padded = String::from_str(alloc, text)?;
    for _ in 0..count {
        padded.push('a')?;
    }
    Ok(padded)
}

fn fault_of(alloc: Global, rows: &str) -> Result<InfoFault, Fail> {
    match info_pairs(alloc, &pairs(alloc, rows)?) {
        Err(Or::Fault(fault)) => Ok(fault),
        _ => Err(Fail::from("taken")),
    }
}

#[test]
fn information(rt: HostRuntime) -> Result<(), Fail> {
    let alloc = rt.alloc();
    for (rows, fault) in [
        ("a=&b=&c=&d=&e=&f=&g=&h=&i=&j=&K=", InfoFault::TooMany),
        ("a=1&A=2", InfoFault::Repeat(1)),
        ("a b=1&=2", InfoFault::Key(0)),
        ("a=1&b/c=2", InfoFault::Key(1)),
        ("a=1&a=2&é=3", InfoFault::Key(2)),
    ] {
        assert_eq!(rt; fault_of(alloc, rows)?, fault);
    }
    assert_eq!(rt;
        fault_of(alloc, &padded(alloc, "b=&a=", 6999)?)?,
        InfoFault::Size(7001)
    );
    assert!(rt; info_pairs(alloc, &pairs(alloc, &padded(alloc, "b=&a=", 6998)?)?).is_ok());
    Ok(())
}

#[test]
fn order_of_information(rt: HostRuntime) -> Result<(), Fail> {
    let alloc = rt.alloc();
    let info = info_pairs(alloc, &pairs(alloc, "src-Name=Z&B=1&a+=2")?)
        .ok()
        .ok_or("info")?;
    let mut shown = String::new(alloc);
    for (key, value) in info.get() {
        shown.push_str(key.get())?;
        shown.push('=')?;
        shown.push_str(value.get())?;
        shown.push(' ')?;
    }
    assert_eq!(rt; shown.as_str(), "a+=2 b=1 src-name=Z ");
    Ok(())
}
