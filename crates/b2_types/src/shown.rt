//! What answers show.

use crate::bucket::{DefaultRetention, Rule};
use crate::kinds::{ApiVersion, Mark, Retention};
use crate::record::VersionId;
use b2_base::{BucketNum, KeyNum, List, Moment, Text, VersionNum};
use name_rules::{BucketName, FileName, InfoPairs};
use rule_table::CapSet;

/// What a row of a listing is.
#[derive(Clone, Copy, Debug, PartialEq, Eq)]
pub enum RowKind {
    Upload,
    Hide,
    Start,
    Folder,
}

/// A digest with what is known of it.
#[derive(Clone, Copy, Debug, PartialEq, Eq)]
pub struct ShownDigest {
    pub mark: Mark,
    pub digest: [u8; 20],
}

/// A row of a listing of files.
#[derive(Drop)]
pub struct ShownFile {
    pub account: Text,
    pub action: RowKind,
    pub bucket: BucketNum,
    /// The content's bytes.
    pub length: u64,
    /// None for a marker and a folder.
    pub digest: Option<ShownDigest>,
    /// None for a folder.
    pub kind: Option<Text>,
    /// 0 for a folder.
    pub num: VersionNum,
    pub info: List<(Text, Text)>,
    pub name: Text,
    /// None where the key may not read it.
    pub retention: Option<Option<Retention>>,
    /// None where the key may not read it.
    pub hold: Option<bool>,
    pub stamp: Moment,
}

/// Whether Object Lock is enabled, and the default retention.
#[derive(Clone, Copy, Debug, PartialEq, Eq)]
pub struct ShownLock {
    pub enabled: bool,
    pub default: Option<DefaultRetention>,
}

#[derive(Drop)]
pub struct ShownBucket {
    pub account: Text,
    pub num: BucketNum,
    pub name: BucketName,
    pub public: bool,
    pub revision: u64,
    /// None where the key may not read it.
    pub lock: Option<ShownLock>,
    pub info: InfoPairs,
    pub rules: List<Rule>,
}

#[derive(Drop)]
pub struct ShownKey {
    /// The version of the API whose form it is shown in.
    pub version: ApiVersion,
    pub account: Text,
    pub num: KeyNum,
    pub name: Text,
    pub caps: CapSet,
    pub buckets: List<BucketNum>,
    pub prefix: Text,
    pub end: Option<Moment>,
}

#[derive(Drop)]
pub struct ShownPart {
    pub bucket: BucketNum,
    pub file: VersionNum,
    pub number: u32,
    /// The content's bytes.
    pub length: u64,
    pub digest: ShownDigest,
    pub stamp: Moment,
}

/// A new key with its secret.
#[derive(Drop)]
pub struct ShownNewKey {
    pub key: ShownKey,
    pub secret: Text,
}

/// A bucket that a key is limited to; its name is absent where the bucket is gone.
#[derive(Drop)]
pub struct ShownLimit {
    pub bucket: BucketNum,
    pub name: Option<BucketName>,
}

/// What an account's token may do.
#[derive(Drop)]
pub struct ShownAccount {
    /// The version of the API whose form it is shown in.
    pub version: ApiVersion,
    pub account: Text,
    pub token: Text,
    pub url: Text,
    pub part_min: u64,
    pub caps: CapSet,
    /// The buckets that it is limited to, by number; none where it is not limited.
    pub buckets: List<ShownLimit>,
    pub prefix: Text,
    pub end: Option<Moment>,
}

/// A file's version and name.
#[derive(Drop)]
pub struct ShownName {
    pub bucket: BucketNum,
    pub num: VersionNum,
    pub name: FileName,
}

/// A token to upload files to a bucket, and the URL.
#[derive(Drop)]
pub struct ShownUploadUrl {
    pub bucket: BucketNum,
    pub token: Text,
    pub url: Text,
}

/// A token to upload parts of a large file, and the URL.
#[derive(Drop)]
pub struct ShownPartUrl {
    pub file: VersionId,
    pub token: Text,
    pub url: Text,
}

/// A token to download the names of a bucket that begin with a prefix.
#[derive(Drop)]
pub struct ShownDownloadToken {
    pub bucket: BucketNum,
    pub prefix: Text,
    pub token: Text,
}

/// A large file that was cancelled.
#[derive(Drop)]
pub struct ShownCancelled {
    pub account: Text,
    pub file: ShownName,
}

/// Where the next page of versions begins; a folder has no version.
#[derive(Drop)]
pub struct NextRow {
    pub name: Text,
    pub version: Option<VersionId>,
}

/// What a body of JSON shows.
#[derive(Drop)]
pub enum Shown {
    Account(ShownAccount),
    Bucket(ShownBucket),
    Buckets(List<ShownBucket>),
    NewKey(ShownNewKey),
    Key(ShownKey),
    /// Keys, and the id of the next.
    Keys(List<ShownKey>, Option<Text>),
    UploadUrl(ShownUploadUrl),
    PartUrl(ShownPartUrl),
    File(ShownFile),
    Part(ShownPart),
    /// Parts, and the number of the next.
    Parts(List<ShownPart>, Option<u32>),
    Cancelled(ShownCancelled),
    /// Rows, and the name of the next.
    FileNames(List<ShownFile>, Option<Text>),
    /// Rows, and the next.
    FileVersions(List<ShownFile>, Option<NextRow>),
    /// Rows, and the next.
    Unfinished(List<ShownFile>, Option<VersionId>),
    Deleted(ShownName),
    DownloadToken(ShownDownloadToken),
    Retention(ShownName, Option<Retention>),
    Hold(ShownName, bool),
}
