//! Types by names, uploads and markers.

use b2_base::{BucketNum, Extent, List, Moment, Or, Text};
use b2_types::{
    Action, Bucket, ChangeOf, DigestRule, FileUpload, HideFile, Mark, Mode, Record, Retention,
};
use name_rules::{BucketName, FileName, InfoPairs, bucket_name, file_name, info_pairs};
use new_versions::{
    Body, HideRefusal, LockRefusal, VersionRefusal, hide, may_upload, next_number, resolved_type,
    upload,
};
use std::alloc::Global;
use std::test::Fail;

#[test]
fn types_by_names(rt: HostRuntime) -> Result<(), Fail> {
    let alloc = rt.alloc();
    for (given, name, kind) in [
        ("b2/x-auto", "a.txt", "text/plain"),
        ("b2/x-auto", "d.png/a.tar.GZ", "application/gzip"),
        ("b2/x-auto", "d.png/a", "application/octet-stream"),
        ("b2/x-auto", "a.", "application/octet-stream"),
        ("image/png", "a.txt", "image/png"),
    ] {
        let resolved = resolved_type(alloc, given, name.as_bytes())?;
        assert_eq!(rt; resolved.get(), kind);
    }
    Ok(())
}

fn name_of_bucket(alloc: Global) -> Result<BucketName, Fail> {
    Ok(bucket_name(alloc, b"photos-1").ok().ok_or("bucket")?)
}

fn name(alloc: Global) -> Result<FileName, Fail> {
    Ok(file_name(alloc, b"a.txt").ok().ok_or("name")?)
}

fn info(alloc: Global) -> Result<InfoPairs, Fail> {
    let pair = (Text::copy(alloc, "a")?, Text::copy(alloc, "b")?);
    let pairs = vec![in alloc; pair]?;
    Ok(info_pairs(alloc, &pairs).ok().ok_or("info")?)
}

fn bucket(alloc: Global, lock: bool) -> Result<Bucket, Fail> {
    Ok(Bucket {
        num: BucketNum::new(1).ok_or("bucket")?,
        name: name_of_bucket(alloc)?,
        public: false,
        revision: 1,
        lock,
        default: None,
        info: info(alloc)?,
        rules: List::of(Vec::new(alloc)),
    })
}

fn call(alloc: Global, until: Option<u64>) -> Result<FileUpload, Fail> {
    let retention = match until {
        Some(until) => Some(Retention {
            mode: Mode::Governance,
            until: Moment::new(until).ok_or("moment")?,
        }),
        None => None,
    };
    Ok(FileUpload {
        bucket: BucketNum::new(1).ok_or("bucket")?,
        length: 3,
        digest: DigestRule::Given([7; 20]),
        name: name(alloc)?,
        kind: Text::copy(alloc, "b2/x-auto")?,
        info: info(alloc)?,
        retention,
        hold: false,
    })
}

// The version's number and the bytes of its type, of its information's first key and of its
// content.
fn parts_of(record: &Record) -> (u64, usize, usize, u64) {
    match &record.change {
        ChangeOf::Upload(version, content, Mark::Verified, _) => (
            version.num.get(),
            version.kind.get().len(),
            version.info.get().len(),
            content.len,
        ),
        ChangeOf::Hide(id, name) => (id.num.get(), name.get().len(), 0, 0),
        _ => (0, 0, 0, 0),
    }
}

// What an upload comes to at 2000, at its begin and at its end, where the last number is 5.
fn refusals(
    alloc: Global,
    lock: bool,
    until: Option<u64>,
    next: u64,
    digest: u8,
) -> Result<
    (
        Option<VersionRefusal>,
        Result<(u64, usize, usize, u64), Or<VersionRefusal>>,
    ),
    Fail,
> {
    let bucket = bucket(alloc, lock)?;
    let call = call(alloc, until)?;
    let t = Moment::from_reading(2000);
    let begin = may_upload(&bucket, next_number(next, 5), t, &call).err();
    let body = Body {
        content: Extent { at: 0, len: 3 },
        digest: [digest; 20],
        told: None,
    };
    let end = match upload(alloc, &bucket, next_number(next, 5), t, &call, &body) {
        Ok(record) => Ok(parts_of(&record)),
        Err(error) => Err(error),
    };
    Ok((begin, end))
}

#[test]
fn small_upload(rt: HostRuntime) -> Result<(), Fail> {
    let alloc = rt.alloc();
    let (begin, end) = refusals(alloc, true, Some(2001), 5, 7)?;
    assert_eq!(rt; begin, None);
    assert_eq!(rt; end, Ok((5, 10, 1, 3)));
    for (until, next, digest, refusal) in [
        (None, 5, 8, VersionRefusal::BadDigest),
        (None, 6, 7, VersionRefusal::Cap),
        (
            Some(2000),
            6,
            8,
            VersionRefusal::Lock(LockRefusal::BadUntil),
        ),
    ] {
        let (_, end) = refusals(alloc, true, until, next, digest)?;
        assert_eq!(rt; end, Err(Or::Fault(refusal)));
    }
    let (begin, end) = refusals(alloc, false, Some(2000), 6, 8)?;
    assert_eq!(rt; begin, Some(VersionRefusal::Lock(LockRefusal::LockOff)));
    assert_eq!(rt;
        end,
        Err(Or::Fault(VersionRefusal::Lock(LockRefusal::LockOff)))
    );
    Ok(())
}

fn hidden(
    alloc: Global,
    newest: Option<Action>,
    next: u64,
) -> Result<Result<(u64, usize, usize, u64), Or<HideRefusal>>, Fail> {
    let bucket = bucket(alloc, false)?;
    let call = HideFile {
        bucket: bucket.num,
        name: name(alloc)?,
    };
    let t = Moment::from_reading(2000);
    Ok(
        match hide(alloc, &bucket, newest, next_number(next, 5), t, &call) {
            Ok(record) => Ok(parts_of(&record)),
            Err(error) => Err(error),
        },
    )
}

#[test]
fn markers(rt: HostRuntime) -> Result<(), Fail> {
    let alloc = rt.alloc();
    let made = hidden(alloc, Some(Action::Upload), 5)?;
    assert_eq!(rt; made, Ok((5, 5, 0, 0)));
    for (newest, refusal) in [
        (None, HideRefusal::NoFile),
        (Some(Action::Hide), HideRefusal::Hidden),
        (Some(Action::Start), HideRefusal::Cap),
    ] {
        let found = hidden(alloc, newest, 6)?;
        assert_eq!(rt; found, Err(Or::Fault(refusal)));
    }
    Ok(())
}
