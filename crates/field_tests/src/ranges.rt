//! Ranges and what is none.

use b2_types::ByteRange;
use byte_ranges::read_range;
use std::test::Fail;

#[test]
fn ranges(rt: HostRuntime) -> Result<(), Fail> {
    let rows: [(&str, Option<ByteRange>); 16] = [
        ("bytes=1-1", Some(ByteRange::Between(1, 1))),
        ("bytes=002-9", Some(ByteRange::Between(2, 9))),
        ("bytes=3-", Some(ByteRange::From(3))),
        ("bytes=-2", Some(ByteRange::Last(2))),
        ("bytes=-0", Some(ByteRange::Last(0))),
        (
            "bytes=0-999999999999999999",
            Some(ByteRange::Between(0, 999_999_999_999_999_999)),
        ),
        ("bytes=0-1000000000000000000", None),
        ("bytes=2-1", None),
        ("bytes=-", None),
        ("bytes=", None),
        ("bytes=0-0,2-2", None),
        ("bytes=1--2", None),
        ("Bytes=1-2", None),
        ("bytes = 1-2", None),
        ("bytes=+1-2", None),
        ("", None),
    ];
    for (text, range) in rows {
        assert!(rt; read_range(text.as_bytes()) == range);
    }
    Ok(())
}
