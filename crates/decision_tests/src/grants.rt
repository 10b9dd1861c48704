//! The life of tokens: given, found, taken by an upload, forgotten.

use auth_grants::{Busy, Grants, Terms};
use b2_base::{BucketNum, ConnNum, KeyNum, Moment, Text, VersionNum};
use b2_types::TokenKind;
use outside_traits::ListWords;
use std::alloc::Global;
use std::test::Fail;

const FIRST: &[u8] = b"3_00000002_0000000000000001_000000000000000a_000000000000000b";

const SECOND: &[u8] = b"3_00000002_0000000000000002_000000000000000c_0000000000000000";

fn terms(alloc: Global, end: u64) -> Result<Terms, Fail> {
    Ok(Terms {
        kind: TokenKind::UploadUrl,
        key: KeyNum::new(0).ok_or("key")?,
        bucket: BucketNum::new(1).ok_or("bucket")?,
        file: VersionNum::new(0).ok_or("file")?,
        prefix: Text::copy(alloc, "")?,
        end: Moment::new(end).ok_or("moment")?,
    })
}

fn two_tokens(alloc: Global) -> Result<Grants, Fail> {
    let mut grants = Grants::new(alloc);
    let mut luck = ListWords::new(vec![in alloc; 10, 11, 12]?);
    let first = grants.grant(alloc, 2, terms(alloc, 1000)?, &mut luck)?;
    let second = grants.grant(alloc, 2, terms(alloc, 1001)?, &mut luck)?;
    if (first.get().as_bytes() != FIRST) | (second.get().as_bytes() != SECOND) {
        return Err(Fail::from("text"));
    }
    Ok(grants)
}

#[test]
fn found(rt: HostRuntime) -> Result<(), Fail> {
    let alloc = rt.alloc();
    let grants = two_tokens(alloc)?;
    let front = &FIRST[..59];
    for (text, end) in [
        (FIRST, Some(1000)),
        (SECOND, Some(1001)),
        (front, None),
        (
            b"3_00000001_0000000000000001_000000000000000a_000000000000000b",
            None,
        ),
        (
            b"3_00000002_0000000000000003_000000000000000c_0000000000000000",
            None,
        ),
    ] {
        let found = grants.find(text).map(|grant| grant.end.get());
        assert_eq!(rt; found, end);
    }
    Ok(())
}

// An upload begins on the token of this text, which has to be there.
fn occupy(grants: &mut Grants, text: &[u8], conn: ConnNum) -> Result<Result<(), Busy>, Fail> {
    if grants.find(text).is_none() {
        return Err(Fail::from("a token"));
    }
    Ok(grants.occupy(text, conn))
}

#[test]
fn busy_upload_url(rt: HostRuntime) -> Result<(), Fail> {
    let alloc = rt.alloc();
    let mut grants = two_tokens(alloc)?;
    let one = ConnNum::new(1).ok_or("connection")?;
    let two = ConnNum::new(2).ok_or("connection")?;
    assert_eq!(rt; occupy(&mut grants, FIRST, one)?, Ok(()));
    assert_eq!(rt; occupy(&mut grants, FIRST, two)?, Err(Busy(one)));
    assert_eq!(rt; occupy(&mut grants, SECOND, two)?, Ok(()));
    grants.vacate(FIRST);
    assert_eq!(rt; grants.flight(FIRST), None);
    assert_eq!(rt; grants.flight(SECOND), Some(two));
    // A day after the second has ended, an upload keeps it.
    for (moment, first) in [(86_400_999, true), (86_401_001, false)] {
        grants.sweep(Moment::new(moment).ok_or("moment")?);
        assert_eq!(rt; grants.find(FIRST).is_some(), first);
        assert_eq!(rt; grants.find(SECOND).is_some(), true);
    }
    Ok(())
}
