//! The answers that are written.

use b2_base::{BucketNum, List, Moment, Text, VersionNum};
use b2_types::{
    ApiVersion, DefaultRetention, Mark, Mode, Period, RowKind, Rule, Shown, ShownAccount,
    ShownBucket, ShownDigest, ShownFile, ShownLock,
};
use name_rules::{InfoPairs, bucket_name, info_pairs};
use rule_table::CapSet;
use std::alloc::Global;

const ACCOUNT: &str = "a1b2c3d4e5f6";

const ROWS: u64 = 100;

const RULES: u64 = 10;

fn text(alloc: Global, text: &str) -> Option<Text> {
    Text::copy(alloc, text).ok()
}

/// An account with all capabilities.
pub fn account(alloc: Global) -> Option<Shown> {
    Some(Shown::Account(ShownAccount {
        version: ApiVersion::V3,
        account: text(alloc, ACCOUNT)?,
        token: text(alloc, "3_0000000000000001aaaaaaaaaaaaaaaa")?,
        url: text(alloc, "http://127.0.0.1:8080")?,
        part_min: 5_000_000,
        caps: CapSet::all(),
        buckets: List::of(Vec::new(alloc)),
        prefix: text(alloc, "")?,
        end: Some(Moment::from_reading(1_800_000_000_000)),
    }))
}

fn info(alloc: Global) -> Option<List<(Text, Text)>> {
    let key = text(alloc, "src_last_modified_millis")?;
    let value = text(alloc, "1700000000000")?;
    let mut pairs = Vec::new(alloc);
    pairs.push((key, value)).ok()?;
    Some(List::of(pairs))
}

fn name(alloc: Global, number: u64) -> Option<Text> {
    let name = format!(in alloc; "photos/2026/{number}.jpg").ok()?;
    Some(Text::of(name))
}

fn row(alloc: Global, number: u64) -> Option<ShownFile> {
    Some(ShownFile {
        account: text(alloc, ACCOUNT)?,
        action: RowKind::Upload,
        bucket: BucketNum::new(1)?,
        length: 1_048_576,
        digest: Some(ShownDigest {
            mark: Mark::Verified,
            digest: [0xa9; 20],
        }),
        kind: Some(text(alloc, "image/jpeg")?),
        num: VersionNum::new(number)?,
        info: info(alloc)?,
        name: name(alloc, number)?,
        retention: Some(None),
        hold: Some(false),
        stamp: Moment::from_reading(1_700_000_000_000),
    })
}

fn rows(alloc: Global) -> Option<List<ShownFile>> {
    let mut rows = Vec::new(alloc);
    for number in 1..ROWS + 1 {
        rows.push(row(alloc, number)?).ok()?;
    }
    Some(List::of(rows))
}

/// A page of names.
pub fn names(alloc: Global) -> Option<Shown> {
    let rows = rows(alloc)?;
    let next = name(alloc, ROWS + 1)?;
    Some(Shown::FileNames(rows, Some(next)))
}

fn prefix(alloc: Global, number: u64) -> Option<Text> {
    let prefix = format!(in alloc; "logs/{number}/").ok()?;
    Some(Text::of(prefix))
}

fn rule(alloc: Global, number: u64) -> Option<Rule> {
    Some(Rule {
        prefix: prefix(alloc, number)?,
        hide_days: Some(30),
        delete_days: Some(7),
        cancel_days: None,
    })
}

fn rules(alloc: Global) -> Option<List<Rule>> {
    let mut rules = Vec::new(alloc);
    for number in 0..RULES {
        rules.push(rule(alloc, number)?).ok()?;
    }
    Some(List::of(rules))
}

fn owner(alloc: Global) -> Option<InfoPairs> {
    let pair = (text(alloc, "owner")?, text(alloc, "someone")?);
    let mut pairs = Vec::new(alloc);
    pairs.push(pair).ok()?;
    info_pairs(alloc, &pairs).ok()
}

/// A bucket with lifecycle rules.
pub fn bucket(alloc: Global) -> Option<Shown> {
    Some(Shown::Bucket(ShownBucket {
        account: text(alloc, ACCOUNT)?,
        num: BucketNum::new(1)?,
        name: bucket_name(alloc, b"photos-2026").ok()?,
        public: false,
        revision: 1,
        lock: Some(ShownLock {
            enabled: true,
            default: Some(DefaultRetention {
                mode: Mode::Governance,
                period: Period::Days(30),
            }),
        }),
        info: owner(alloc)?,
        rules: rules(alloc)?,
    }))
}
