//! Numbers of things, each of a type of its own.

use crate::number::{Number32, Number64};

/// The last version number that can be given: 2^53 - 1.
pub const LAST_VERSION: u64 = 9_007_199_254_740_991;

/// A bucket's number, in the order of making: from 1 on, and 0 for none.
pub type BucketNum = Number32<BucketTag>;

/// A key's number, in the order of making: 0 is the master key.
pub type KeyNum = Number32<KeyTag>;

/// The number of a connection.
pub type ConnNum = Number32<ConnTag>;

/// A version's number, in the order of making: from 1 to 2^53 - 1, which a JSON number keeps exactly,
/// and 0 for none.
pub type VersionNum = Number64<VersionTag, LAST_VERSION>;

/// What a `BucketNum` counts.
#[derive(Clone, Copy, Debug, PartialEq, Eq, PartialOrd, Ord, Hash)]
pub struct BucketTag;

/// What a `KeyNum` counts.
#[derive(Clone, Copy, Debug, PartialEq, Eq, PartialOrd, Ord, Hash)]
pub struct KeyTag;

/// What a `ConnNum` counts.
#[derive(Clone, Copy, Debug, PartialEq, Eq, PartialOrd, Ord, Hash)]
pub struct ConnTag;

/// What a `VersionNum` counts.
#[derive(Clone, Copy, Debug, PartialEq, Eq, PartialOrd, Ord, Hash)]
pub struct VersionTag;
