//! Calls, with their fields as they were read. The token that a call is made with is no field of it.

use crate::bucket::{DefaultRetention, Rule};
use crate::fault::BadCall;
use crate::kinds::{ApiVersion, Retention};
use crate::record::VersionId;
use b2_base::{BucketNum, List, Text, VersionNum};
use name_rules::{BucketName, FileName, InfoPairs};
use rule_table::CapSet;

/// The id and the secret of a key.
#[derive(Drop)]
pub struct Credentials {
    pub id: Text,
    pub secret: Text,
}

#[derive(Drop)]
pub struct Authorize {
    pub version: ApiVersion,
    /// Those of the `Basic` value, where one was given and reads.
    pub credentials: Option<Credentials>,
}

#[derive(Drop)]
pub struct CreateBucket {
    pub account: Text,
    pub name: BucketName,
    pub public: bool,
    pub info: Option<InfoPairs>,
    pub lock: Option<bool>,
    pub rules: Option<List<Rule>>,
}

#[derive(Drop)]
pub struct UpdateBucket {
    pub account: Text,
    pub bucket: BucketNum,
    pub public: Option<bool>,
    pub info: Option<InfoPairs>,
    /// `Some(None)` takes the default off.
    pub default: Option<Option<DefaultRetention>>,
    pub lock: Option<bool>,
    pub rules: Option<List<Rule>>,
    pub revision: Option<u64>,
}

#[derive(Drop)]
pub struct DeleteBucket {
    pub account: Text,
    pub bucket: BucketNum,
}

#[derive(Drop)]
pub struct ListBuckets {
    pub account: Text,
    pub bucket: Option<BucketNum>,
    pub name: Option<BucketName>,
    pub types: Option<List<Text>>,
}

#[derive(Drop)]
pub struct CreateKey {
    pub version: ApiVersion,
    pub account: Text,
    pub caps: CapSet,
    pub name: Text,
    /// 1 to 86,399,999 seconds.
    pub duration: Option<u64>,
    /// The buckets that it is limited to, 1 to 16, ascending.
    pub buckets: Option<List<BucketNum>>,
    pub prefix: Option<Text>,
}

#[derive(Drop)]
pub struct DeleteKey {
    pub version: ApiVersion,
    /// The id's text.
    pub key: Text,
}

#[derive(Drop)]
pub struct ListKeys {
    pub version: ApiVersion,
    pub account: Text,
    pub max: Option<u32>,
    /// The id's text.
    pub start: Option<Text>,
}

#[derive(Drop)]
pub struct GetUploadUrl {
    pub bucket: BucketNum,
}

#[derive(Drop)]
pub struct StartCall {
    pub bucket: BucketNum,
    pub name: FileName,
    pub kind: Text,
    pub info: Option<InfoPairs>,
    pub retention: Option<Retention>,
    pub hold: Option<bool>,
}

/// A call that names a file and says nothing else of it: for a part URL, to cancel a large file, for a
/// file's information.
#[derive(Drop)]
pub struct FileCall {
    pub bucket: BucketNum,
    pub file: VersionNum,
}

#[derive(Drop)]
pub struct ListParts {
    pub bucket: BucketNum,
    pub file: VersionNum,
    pub start: Option<u32>,
    pub max: Option<u32>,
}

#[derive(Drop)]
pub struct FinishCall {
    pub bucket: BucketNum,
    pub file: VersionNum,
    pub digests: List<[u8; 20]>,
}

#[derive(Drop)]
pub struct ListUnfinished {
    pub bucket: BucketNum,
    pub prefix: Option<Text>,
    pub start: Option<VersionNum>,
    pub max: Option<u32>,
}

/// The fields of both listings of files.
#[derive(Drop)]
pub struct ListFiles {
    pub bucket: BucketNum,
    pub start: Option<Text>,
    pub max: Option<u32>,
    pub prefix: Option<Text>,
    /// 1 to 100 bytes.
    pub delimiter: Option<Text>,
    /// Only in the listing of versions.
    pub start_file: Option<VersionNum>,
}

#[derive(Drop)]
pub struct HideFile {
    pub bucket: BucketNum,
    pub name: FileName,
}

#[derive(Drop)]
pub struct DeleteVersion {
    pub name: FileName,
    pub bucket: BucketNum,
    pub file: VersionNum,
    pub bypass: Option<bool>,
}

#[derive(Drop)]
pub struct AuthorizeDownload {
    pub bucket: BucketNum,
    pub prefix: Text,
    /// 1 to 604,800 seconds.
    pub duration: u64,
}

/// The bytes of a content that are asked for (RFC 9110, section 14.1.2); the numbers have at most 18
/// digits.
#[derive(Clone, Copy, Debug, PartialEq, Eq)]
pub enum ByteRange {
    /// From the first place to the last, which is not before it.
    Between(u64, u64),
    /// From this place on.
    From(u64),
    /// So many at the end.
    Last(u64),
}

#[derive(Drop)]
pub struct DownloadById {
    pub bucket: BucketNum,
    pub file: VersionNum,
    pub range: Option<ByteRange>,
}

#[derive(Drop)]
pub struct DownloadByName {
    /// The bucket part of the path as it stands.
    pub bucket: Text,
    pub name: FileName,
    pub range: Option<ByteRange>,
}

#[derive(Drop)]
pub struct UpdateRetention {
    pub name: FileName,
    pub bucket: BucketNum,
    pub file: VersionNum,
    pub retention: Option<Retention>,
    pub bypass: Option<bool>,
}

#[derive(Drop)]
pub struct UpdateHold {
    pub name: FileName,
    pub bucket: BucketNum,
    pub file: VersionNum,
    pub hold: bool,
}

/// Where the type and the information of a copy come from.
#[derive(Drop)]
pub enum CopyMetadata {
    /// From the source.
    Kept,
    /// From the call; the information may be absent, and is then empty.
    Replaced(Text, Option<InfoPairs>),
}

/// A copy of an upload, or of a range of it, as a new upload.
#[derive(Drop)]
pub struct CopyFile {
    pub source: VersionId,
    /// Absent: the bucket of the source.
    pub bucket: Option<BucketNum>,
    pub name: FileName,
    pub range: Option<ByteRange>,
    pub metadata: CopyMetadata,
    pub retention: Option<Retention>,
    pub hold: Option<bool>,
}

/// A copy of an upload, or of a range of it, as a part of a large file.
#[derive(Drop)]
pub struct CopyPart {
    pub source: VersionId,
    pub bucket: BucketNum,
    pub file: VersionNum,
    /// 1 to 10,000.
    pub number: u32,
    pub range: Option<ByteRange>,
}

/// A call that is asked for and answered at once. Uploads are none: they begin and end.
#[derive(Drop)]
pub enum Call {
    AuthorizeAccount(Authorize),
    CreateBucket(CreateBucket),
    UpdateBucket(UpdateBucket),
    DeleteBucket(DeleteBucket),
    ListBuckets(ListBuckets),
    CreateKey(CreateKey),
    DeleteKey(DeleteKey),
    ListKeys(ListKeys),
    GetUploadUrl(GetUploadUrl),
    StartLargeFile(StartCall),
    GetUploadPartUrl(FileCall),
    ListParts(ListParts),
    FinishLargeFile(FinishCall),
    CancelLargeFile(FileCall),
    ListUnfinishedLargeFiles(ListUnfinished),
    ListFileNames(ListFiles),
    ListFileVersions(ListFiles),
    GetFileInfo(FileCall),
    HideFile(HideFile),
    DeleteFileVersion(DeleteVersion),
    GetDownloadAuthorization(AuthorizeDownload),
    DownloadFileById(DownloadById),
    DownloadFileByName(DownloadByName),
    UpdateFileRetention(UpdateRetention),
    UpdateFileLegalHold(UpdateHold),
    CopyFile(CopyFile),
    CopyPart(CopyPart),
    Bad(BadCall),
}
