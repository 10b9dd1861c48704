//! Copies of ranges, as files and as parts.

ghost use Rattle.std.specs.Prelude.{◌≡◌, IfOk};
ghost use Rattle.b2_model.specs.State.{length_of};
ghost use Rattle.new_versions.specs.Decided.{extent_len};

use b2_base::{BucketNum, Extent, List, Moment, Text, VersionNum};
use b2_types::{
    Action, Bucket, ByteRange, ChangeOf, CopyFile, CopyMetadata, CopyPart, Mark, Part, Record,
    Rule, Version, VersionId, VersionOf,
};
use copy_calls::{
    CopiedBytes, CopyRefusal, FilePlan, copy_file, copy_part, copy_span, copy_upload,
    may_copy_file, may_copy_part,
};
use name_rules::{FileName, bucket_name, file_name};
use new_versions::copy_info;
use std::alloc::Global;
use std::test::Fail;

fn bucket_num() -> BucketNum {
    BucketNum::new(1).unwrap()
}

fn num() -> VersionNum {
    VersionNum::new(7).unwrap()
}

fn name(alloc: Global) -> Result<FileName, Fail> {
    Ok(file_name(alloc, b"a.txt").ok().ok_or("name")?)
}

fn pieces(alloc: Global, len: u64) -> Result<List<Extent>, Fail>
    ensures { IfOk result (λ pieces. length_of extent_len pieces ≡ len) }
{
    let pieces = vec![in alloc; Extent { at: 0, len }]?;
    Ok(List::of(pieces))
}

fn version(alloc: Global, action: Action, len: u64) -> Result<Version, Fail>
    ensures { IfOk result (λ v. length_of extent_len v.content ≡ len) }
{
    let parts: Vec<Part> = Vec::new(alloc);
    Ok(VersionOf {
        bucket: bucket_num(),
        num: num(),
        name: name(alloc)?,
        action,
        stamp: Moment::from_reading(1000),
        kind: Text::copy(alloc, "image/png")?,
        info: copy_info(alloc, None)?,
        content: pieces(alloc, len)?,
        mark: Mark::Verified,
        digest: [7; 20],
        retention: None,
        hold: false,
        parts: List::of(parts),
    })
}

// Where the span of a copy begins, and how many bytes it has.
fn span(
    alloc: Global,
    action: Action,
    len: u64,
    range: Option<ByteRange>,
) -> Result<Result<(u64, u64), CopyRefusal>, Fail> {
    let version = version(alloc, action, len)?;
    Ok(copy_span(&version, len, range).map(|span| (span.at, span.len)))
}

#[test]
fn spans(rt: HostRuntime) -> Result<(), Fail> {
    let alloc = rt.alloc();
    let other = span(alloc, Action::Hide, 0, None)?;
    assert_eq!(rt; other, Err(CopyRefusal::NoFile));
    for (len, range, answer) in [
        (3, None, Ok((0, 3))),
        (3, Some(ByteRange::Between(1, 1)), Ok((1, 1))),
        (3, Some(ByteRange::Between(2, 9)), Ok((2, 1))),
        (3, Some(ByteRange::From(1)), Ok((1, 2))),
        (3, Some(ByteRange::Last(2)), Ok((1, 2))),
        (3, Some(ByteRange::From(3)), Err(CopyRefusal::Range)),
        (0, Some(ByteRange::From(0)), Err(CopyRefusal::Range)),
        (5_000_000_000, None, Ok((0, 5_000_000_000))),
        (5_000_000_001, None, Err(CopyRefusal::LongCopy)),
    ] {
        let found = span(alloc, Action::Upload, len, range)?;
        assert_eq!(rt; found, answer);
    }
    Ok(())
}

// The bytes of a copy's type and content, and the number of its part.
fn parts_of(record: &Record) -> (usize, u64, u32) {
    match &record.change {
        ChangeOf::Upload(version, content, _, _) => (version.kind.get().len(), content.len, 0),
        ChangeOf::PartPut(_, number, content, _, _) => (0, content.len, *number),
        _ => (0, 0, 0),
    }
}

const COPIED: CopiedBytes = CopiedBytes {
    content: Extent { at: 4096, len: 3 },
    digest: [8; 20],
};

fn file_call(alloc: Global, metadata: CopyMetadata) -> Result<CopyFile, Fail> {
    Ok(CopyFile {
        source: VersionId {
            bucket: bucket_num(),
            num: num(),
        },
        bucket: None,
        name: name(alloc)?,
        range: None,
        metadata,
        retention: None,
        hold: None,
    })
}

fn bucket(alloc: Global) -> Result<Bucket, Fail> {
    let rules: Vec<Rule> = Vec::new(alloc);
    Ok(Bucket {
        num: bucket_num(),
        name: bucket_name(alloc, b"photos-1").ok().ok_or("bucket")?,
        public: false,
        revision: 1,
        lock: false,
        default: None,
        info: copy_info(alloc, None)?,
        rules: List::of(rules),
    })
}

// The bytes of the type of the upload that a copy is.
fn told_kind(alloc: Global, version: &Version, call: &CopyFile) -> usize {
    match copy_upload(alloc, version, call, bucket_num(), 3, [8; 20]) {
        Ok(upload) => upload.kind.get().len(),
        Err(_) => 0,
    }
}

// The bytes of the type of the file that a copy makes.
fn made_kind(
    alloc: Global,
    version: &Version,
    bucket: &Bucket,
    num: VersionNum,
    call: &CopyFile,
) -> usize {
    match copy_file(
        alloc,
        version,
        bucket,
        num,
        Moment::from_reading(2000),
        call,
        &COPIED,
    ) {
        Ok(record) => parts_of(&record).0,
        Err(_) => 0,
    }
}

fn plan(version: &Version, bucket: &Bucket, call: &CopyFile) -> Result<FilePlan, CopyRefusal>
    requires { length_of extent_len version.now.content ≡ 3 }
{
    may_copy_file(
        version,
        3,
        bucket,
        VersionNum::new(8),
        Moment::from_reading(2000),
        call,
    )
}

// The bytes of the types of the upload and of the file that a copy is.
fn file_copy(alloc: Global, metadata: CopyMetadata) -> Result<(usize, usize, usize), Fail> {
    let call = file_call(alloc, metadata)?;
    let bucket = bucket(alloc)?;
    let version = version(alloc, Action::Upload, 3)?;
    let told = told_kind(alloc, &version, &call);
    Ok(match plan(&version, &bucket, &call) {
        Ok(plan) => {
            let made = made_kind(alloc, &version, &bucket, plan.num, &call);
            (plan.span.len as usize, told, made)
        }
        Err(_) => (0, 0, 0),
    })
}

#[test]
fn copied_types(rt: HostRuntime) -> Result<(), Fail> {
    let alloc = rt.alloc();
    assert_eq!(rt; file_copy(alloc, CopyMetadata::Kept)?, (3, 9, 9));
    let given = CopyMetadata::Replaced(Text::copy(alloc, "b2/x-auto")?, None);
    assert_eq!(rt; file_copy(alloc, given)?, (3, 9, 10));
    Ok(())
}

fn copied_len(source: &Version, large: &Version, call: &CopyPart) -> Result<u64, CopyRefusal>
    requires { length_of extent_len source.now.content ≡ 3 }
{
    Ok(may_copy_part(source, 3, large, call)?.len)
}

#[test]
fn copied_part(rt: HostRuntime) -> Result<(), Fail> {
    let alloc = rt.alloc();
    let call = CopyPart {
        source: VersionId {
            bucket: bucket_num(),
            num: num(),
        },
        bucket: bucket_num(),
        file: num(),
        number: 2,
        range: None,
    };
    let source = version(alloc, Action::Upload, 3)?;
    let large = version(alloc, Action::Start, 0)?;
    assert_eq!(rt; copied_len(&source, &large, &call), Ok(3));
    assert_eq!(rt;
        copied_len(&source, &source, &call),
        Err(CopyRefusal::NotLarge)
    );
    let record = copy_part(&large, Moment::from_reading(2000), &call, &COPIED);
    assert_eq!(rt; parts_of(&record), (0, 3, 2));
    Ok(())
}
