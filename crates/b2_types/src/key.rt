//! Application keys, tokens and uploads under way.

use crate::kinds::TokenKind;
use crate::upload::UploadCall;
use b2_base::{BucketNum, ConnNum, KeyNum, List, Moment, Text, VersionNum};
use rule_table::CapSet;

/// An application key.
#[derive(Drop)]
pub struct Key {
    /// 0 is the master key.
    pub num: KeyNum,
    pub name: Text,
    pub caps: CapSet,
    /// The buckets that it is limited to, at most 16, ascending; none where it is not limited.
    pub buckets: List<BucketNum>,
    /// The prefix that it is limited to. It may be empty.
    pub prefix: Text,
    pub end: Option<Moment>,
    /// The SHA-256 of the secret (FIPS 180-4).
    pub hash: [u8; 32],
}

/// A token that was given out.
#[derive(Drop)]
pub struct Grant {
    pub text: Text,
    pub kind: TokenKind,
    pub key: KeyNum,
    /// The bucket of an upload URL, a part URL or a download token; else 0.
    pub bucket: BucketNum,
    /// The file of a part URL, else 0.
    pub file: VersionNum,
    /// The prefix of a download token, else empty.
    pub prefix: Text,
    pub end: Moment,
}

/// An upload that began and has not ended.
#[derive(Drop)]
pub struct Flight {
    pub conn: ConnNum,
    /// The text of the token that it began with.
    pub token: Text,
    pub upload: UploadCall,
}
