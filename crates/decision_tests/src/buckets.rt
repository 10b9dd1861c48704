//! Rows of calls on buckets.

use b2_base::{BucketNum, List, Moment, Or, Text};
use b2_types::{
    Bucket, ChangeOf, CreateBucket, DefaultRetention, ListBuckets, Mode, Period, Record,
    UpdateBucket,
};
use bucket_state::{BucketRefusal, buckets_create, buckets_list, buckets_remove, buckets_update};
use name_rules::{BucketName, bucket_name, info_pairs};
use std::alloc::Global;
use std::test::Fail;

const LAST_REVISION: u64 = 9_007_199_254_740_991;

fn number(bucket: u32) -> Result<BucketNum, Fail> {
    Ok(BucketNum::new(bucket).ok_or("bucket")?)
}

fn moment() -> Result<Moment, Fail> {
    Ok(Moment::new(1000).ok_or("moment")?)
}

fn name(alloc: Global, name: &str) -> Result<BucketName, Fail> {
    Ok(bucket_name(alloc, name.as_bytes()).ok().ok_or("name")?)
}

fn bucket(alloc: Global, num: u32, revision: u64, lock: bool) -> Result<Bucket, Fail> {
    Ok(Bucket {
        num: number(num)?,
        name: name(alloc, if num == 1 { "photos-1" } else { "photos-2" })?,
        public: num == 2,
        revision,
        lock,
        default: None,
        info: info_pairs(alloc, &[]).ok().ok_or("info")?,
        rules: List::of(Vec::new(alloc)),
    })
}

fn buckets(alloc: Global, many: u32) -> Result<Vec<Bucket>, Fail> {
    let mut all = Vec::new(alloc);
    for num in 0..many {
        all.push(bucket(alloc, num + 1, 1, false)?)?;
    }
    Ok(all)
}

// The number and the revision of the bucket that the record makes or updates, or 0 of one that
// goes.
fn written(record: &Record) -> Option<(u32, u64)> {
    match &record.change {
        ChangeOf::BucketMake(bucket) | ChangeOf::BucketUpdate(bucket) => {
            Some((bucket.num.get(), bucket.revision))
        }
        ChangeOf::BucketDrop(num) => Some((num.get(), 0)),
        _ => None,
    }
}

fn answer_of(
    decided: Result<Record, Or<BucketRefusal>>,
) -> Result<(Option<BucketRefusal>, Option<(u32, u64)>), Fail> {
    match decided {
        Ok(record) => Ok((None, written(&record))),
        Err(Or::Fault(refusal)) => Ok((Some(refusal), None)),
        Err(Or::Memory) => Err(Fail::from("memory")),
    }
}

#[test]
fn create_bucket(rt: HostRuntime) -> Result<(), Fail> {
    let alloc = rt.alloc();
    for (many, next, asked, answer) in [
        (0, 1, "photos-1", (None, Some((1, 1)))),
        (1, 2, "PHOTOS-1", (Some(BucketRefusal::Duplicate), None)),
        (99, 100, "photos-3", (None, Some((100, 1)))),
        (100, 101, "photos-3", (Some(BucketRefusal::TooMany), None)),
        (1, u32::MAX, "photos-3", (Some(BucketRefusal::Cap), None)),
    ] {
        let all = buckets(alloc, many)?;
        let call = CreateBucket {
            account: Text::copy(alloc, "a1b2c3d4e5f6")?,
            name: name(alloc, asked)?,
            public: false,
            info: None,
            lock: None,
            rules: None,
        };
        let result = buckets_create(alloc, &all, number(next)?, moment()?, &call);
        assert_eq!(rt; answer_of(result)?, answer);
    }
    Ok(())
}

fn update(
    alloc: Global,
    revision: Option<u64>,
    lock: Option<bool>,
    days: Option<u32>,
) -> Result<UpdateBucket, Fail> {
    let default = match days {
        Some(days) => Some(Some(DefaultRetention {
            mode: Mode::Governance,
            period: Period::Days(days),
        })),
        None => None,
    };
    Ok(UpdateBucket {
        account: Text::copy(alloc, "a1b2c3d4e5f6")?,
        bucket: number(1)?,
        public: None,
        info: None,
        default,
        lock,
        rules: None,
        revision,
    })
}

#[test]
fn revision_conflict(rt: HostRuntime) -> Result<(), Fail> {
    let alloc = rt.alloc();
    for (revision, locked, asked, lock, days, answer) in [
        (
            2,
            false,
            Some(1),
            None,
            None,
            (Some(BucketRefusal::Conflict(2)), None),
        ),
        (2, false, Some(2), None, None, (None, Some((1, 3)))),
        (
            2,
            true,
            None,
            Some(false),
            None,
            (Some(BucketRefusal::LockStays), None),
        ),
        (
            2,
            false,
            None,
            None,
            Some(10),
            (Some(BucketRefusal::LockOff), None),
        ),
        (2, false, None, Some(true), Some(10), (None, Some((1, 3)))),
        (
            LAST_REVISION,
            false,
            None,
            None,
            None,
            (Some(BucketRefusal::Cap), None),
        ),
    ] {
        let bucket = bucket(alloc, 1, revision, locked)?;
        let call = update(alloc, asked, lock, days)?;
        let result = buckets_update(alloc, &bucket, moment()?, &call);
        assert_eq!(rt; answer_of(result)?, answer);
    }
    Ok(())
}

#[test]
fn deletion(rt: HostRuntime) -> Result<(), Fail> {
    let bucket = bucket(rt.alloc(), 1, 1, false)?;
    let full = buckets_remove(&bucket, false, moment()?).err();
    assert_eq!(rt; full, Some(BucketRefusal::NotEmpty));
    let gone = buckets_remove(&bucket, true, moment()?)
        .ok()
        .ok_or("refused")?;
    assert_eq!(rt; written(&gone), Some((1, 0)));
    Ok(())
}

// How many of two buckets are listed, and the number of the first.
fn listed(
    alloc: Global,
    bucket: Option<u32>,
    named: Option<&str>,
    types: &[&str],
) -> Result<(usize, u32), Fail> {
    let all = buckets(alloc, 2)?;
    let mut texts = Vec::new(alloc);
    for text in types {
        texts.push(Text::copy(alloc, text)?)?;
    }
    let call = ListBuckets {
        account: Text::copy(alloc, "a1b2c3d4e5f6")?,
        bucket: match bucket {
            Some(bucket) => Some(number(bucket)?),
            None => None,
        },
        name: match named {
            Some(named) => Some(name(alloc, named)?),
            None => None,
        },
        types: Some(List::of(texts)),
    };
    let rows = buckets_list(alloc, &all, &call)?;
    let first = match rows.first() {
        Some(bucket) => bucket.num.get(),
        None => 0,
    };
    Ok((rows.len(), first))
}

#[test]
fn listing(rt: HostRuntime) -> Result<(), Fail> {
    let alloc = rt.alloc();
    assert_eq!(rt; listed(alloc, None, None, &[])?, (2, 1));
    assert_eq!(rt; listed(alloc, None, Some("PHOTOS-2"), &[])?, (1, 2));
    assert_eq!(rt; listed(alloc, Some(1), Some("photos-2"), &[])?, (0, 0));
    assert_eq!(rt; listed(alloc, None, None, &["allPublic"])?, (1, 2));
    assert_eq!(rt; listed(alloc, None, None, &["all", "other"])?, (2, 1));
    assert_eq!(rt; listed(alloc, None, None, &["other"])?, (0, 0));
    Ok(())
}
