//! Buckets.

use crate::kinds::{Mode, Period};
use b2_base::{BucketNum, List, Text};
use name_rules::{BucketName, InfoPairs};

/// A lifecycle rule. Days are 1 to 36,500; a part without days is off.
#[derive(Drop)]
pub struct Rule {
    /// The rule holds for the names that begin with it. It may be empty.
    pub prefix: Text,
    /// Days from an upload to its hiding.
    pub hide_days: Option<u32>,
    /// Days from hiding to deletion.
    pub delete_days: Option<u32>,
    /// Days from the start of a large file to its cancelling.
    pub cancel_days: Option<u32>,
}

/// A mode and a period, from an upload on.
#[derive(Clone, Copy, Debug, PartialEq, Eq)]
pub struct DefaultRetention {
    pub mode: Mode,
    pub period: Period,
}

/// A bucket.
#[derive(Drop)]
pub struct Bucket {
    pub num: BucketNum,
    pub name: BucketName,
    /// Whether its files are downloaded without a token.
    pub public: bool,
    /// 1 for a new bucket, and one more with each update.
    pub revision: u64,
    /// Whether Object Lock is enabled.
    pub lock: bool,
    pub default: Option<DefaultRetention>,
    pub info: InfoPairs,
    pub rules: List<Rule>,
}
