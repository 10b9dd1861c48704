//! A large file from its start to its finish.

ghost use Rattle.std.specs.Prelude.{◌≡◌, ◌<◌, IfOk};
ghost use Rattle.std.specs.List.{AllPairs};

use b2_base::{BucketNum, Extent, List, Moment, Text, VersionNum};
use b2_types::{
    Action, Bucket, ChangeOf, DigestRule, FinishCall, Mark, Part, PartOf, PartUpload, Record, Rule,
    StartCall, Version, VersionOf,
};
use large_files::{
    FinishFault, NotLarge, PartRefusal, cancel_large_file, finish_large_file, parts_page, put_part,
    start_large_file,
};
use name_rules::{FileName, bucket_name, file_name};
use new_versions::{Body, copy_info};
use std::alloc::Global;
use std::test::Fail;

// A part of so many bytes, whose digest is its number twenty times.
fn part(number: u8, len: u64) -> Part
    ensures { result.number ≡ number }
{
    PartOf {
        number: u32::from(number),
        content: Extent { at: 0, len },
        mark: Mark::Verified,
        digest: [number; 20],
        stamp: Moment::from_reading(1000),
    }
}

fn parts(alloc: Global, numbers: &[u8], len: u64) -> Result<Vec<Part>, Fail> {
    let mut parts = Vec::new(alloc);
    for number in numbers {
        parts.push(part(*number, len))?;
    }
    Ok(parts)
}

fn name(alloc: Global) -> Result<FileName, Fail> {
    Ok(file_name(alloc, b"film").ok().ok_or("name")?)
}

fn bucket_num() -> BucketNum {
    BucketNum::new(1).unwrap()
}

fn num() -> VersionNum {
    VersionNum::new(7).unwrap()
}

fn version(alloc: Global, action: Action, parts: Vec<Part>) -> Result<Version, Fail>
    ensures { IfOk result (λ v. v.parts ≡ parts.items) }
{
    let pieces: Vec<Extent> = Vec::new(alloc);
    Ok(VersionOf {
        bucket: bucket_num(),
        num: num(),
        name: name(alloc)?,
        action,
        stamp: Moment::from_reading(1000),
        kind: Text::copy(alloc, "video/mp4")?,
        info: copy_info(alloc, None)?,
        content: List::of(pieces),
        mark: Mark::Large,
        digest: [0; 20],
        retention: None,
        hold: false,
        parts: List::of(parts),
    })
}

fn finish_call(alloc: Global, digests: &[u8]) -> Result<FinishCall, Fail> {
    let mut list = Vec::new(alloc);
    for digest in digests {
        list.push([*digest; 20])?;
    }
    Ok(FinishCall {
        bucket: bucket_num(),
        file: num(),
        digests: List::of(list),
    })
}

// The number of the version that a record is of, and that of a part.
fn number_of(record: &Record) -> (u64, u32) {
    match &record.change {
        ChangeOf::Start(version) => (version.num.get(), 0),
        ChangeOf::PartPut(id, number, _, _, _) => (id.num.get(), *number),
        ChangeOf::Finish(id, _) | ChangeOf::Cancel(id) => (id.num.get(), 0),
        _ => (0, 0),
    }
}

fn finish(
    alloc: Global,
    numbers: &[u8],
    len: u64,
    digests: &[u8],
) -> Result<Result<(u64, u32), FinishFault>, Fail> {
    let version = version(alloc, Action::Start, parts(alloc, numbers, len)?)?;
    let call = finish_call(alloc, digests)?;
    let t = Moment::from_reading(2000);
    Ok(match finish_large_file(&version, None, 10, t, &call) {
        Ok(record) => Ok(number_of(&record)),
        Err(fault) => Err(fault),
    })
}

#[test]
fn large_file_from_parts(rt: HostRuntime) -> Result<(), Fail> {
    let alloc = rt.alloc();
    let accepted = finish(alloc, &[1, 2, 3], 10, &[1, 2, 3])?;
    assert_eq!(rt; accepted, Ok((7, 0)));
    let one = finish(alloc, &[1], 9, &[1])?;
    assert_eq!(rt; one, Ok((7, 0)));
    let rows: [(&[u8], u64, &[u8], FinishFault); 6] = [
        (&[], 10, &[], FinishFault::NoParts),
        (&[1, 3], 9, &[], FinishFault::Gap(2)),
        (&[2], 10, &[2], FinishFault::Gap(1)),
        (&[1, 2], 9, &[1], FinishFault::Count(2)),
        (&[1, 2], 9, &[1, 1], FinishFault::Sha(2)),
        (&[1, 2], 9, &[1, 2], FinishFault::Small(1)),
    ];
    for (numbers, len, digests, fault) in rows {
        let found = finish(alloc, numbers, len, digests)?;
        assert_eq!(rt; found, Err(fault));
    }
    Ok(())
}

fn put(version: &Version, call: &PartUpload, digest: u8) -> Result<(u64, u32), PartRefusal> {
    let body = Body {
        content: Extent { at: 0, len: 3 },
        digest: [digest; 20],
        told: None,
    };
    match put_part(version, Moment::from_reading(2000), call, &body) {
        Ok(record) => Ok(number_of(&record)),
        Err(refusal) => Err(refusal),
    }
}

fn cancel(version: &Version) -> Result<(u64, u32), NotLarge> {
    match cancel_large_file(version, Moment::from_reading(2000)) {
        Ok(record) => Ok(number_of(&record)),
        Err(refusal) => Err(refusal),
    }
}

fn start(alloc: Global, next: Option<VersionNum>) -> Result<Option<(u64, u32)>, Fail> {
    let rules: Vec<Rule> = Vec::new(alloc);
    let bucket = Bucket {
        num: bucket_num(),
        name: bucket_name(alloc, b"photos-1").ok().ok_or("bucket")?,
        public: false,
        revision: 1,
        lock: false,
        default: None,
        info: copy_info(alloc, None)?,
        rules: List::of(rules),
    };
    let call = StartCall {
        bucket: bucket_num(),
        name: name(alloc)?,
        kind: Text::copy(alloc, "b2/x-auto")?,
        info: None,
        retention: None,
        hold: None,
    };
    let t = Moment::from_reading(1000);
    Ok(match start_large_file(alloc, &bucket, next, t, &call) {
        Ok(record) => Some(number_of(&record)),
        Err(_) => None,
    })
}

#[test]
fn started_under_the_next_number(rt: HostRuntime) -> Result<(), Fail> {
    assert_eq!(rt; start(rt.alloc(), VersionNum::new(7))?, Some((7, 0)));
    assert_eq!(rt; start(rt.alloc(), None)?, None);
    Ok(())
}

#[test]
fn parts_and_cancelling(rt: HostRuntime) -> Result<(), Fail> {
    let alloc = rt.alloc();
    let large = version(alloc, Action::Start, Vec::new(alloc))?;
    let other = version(alloc, Action::Upload, Vec::new(alloc))?;
    let call = PartUpload {
        bucket: large.bucket,
        file: large.num,
        length: 3,
        digest: DigestRule::Given([7; 20]),
        number: 2,
    };
    assert_eq!(rt; put(&large, &call, 7), Ok((7, 2)));
    assert_eq!(rt; put(&large, &call, 8), Err(PartRefusal::BadDigest));
    assert_eq!(rt; put(&other, &call, 8), Err(PartRefusal::NotLarge));
    assert_eq!(rt; cancel(&large), Ok((7, 0)));
    assert_eq!(rt; cancel(&other), Err(NotLarge));
    Ok(())
}

fn two_parts(alloc: Global) -> Result<Version, Fail>
    ensures { IfOk result (λ v. AllPairs (λ p q. p.number < q.number) v.parts) }
{
    let parts = vec![in alloc; part(2, 10), part(5, 10)]?;
    version(alloc, Action::Start, parts)
}

#[test]
fn page_of_parts(rt: HostRuntime) -> Result<(), Fail> {
    let large = two_parts(rt.alloc())?;
    for (start, asked, first, next) in [
        (None, Some(1), Some(2), Some(5)),
        (Some(3), Some(0), Some(5), None),
        (Some(6), None, None, None),
    ] {
        let page = parts_page(&large, start, asked).ok().ok_or("page")?;
        assert_eq!(rt; page.rows.first().map(|part| part.number), first);
        assert_eq!(rt; page.next.map(|part| part.number), next);
    }
    Ok(())
}
