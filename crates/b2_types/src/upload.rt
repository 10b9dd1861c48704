//! Uploads, as their heads tell them. The token that an upload is made with is no part of it.

use crate::fault::BadCall;
use crate::kinds::Retention;
use b2_base::{BucketNum, Text, VersionNum};
use name_rules::{FileName, InfoPairs};

/// How the content's SHA-1 is told.
#[derive(Clone, Copy, Debug, PartialEq, Eq)]
pub enum DigestRule {
    Given([u8; 20]),
    /// The last 40 bytes of the body are its hex digits.
    AtEnd,
    NotVerified,
}

/// An upload of a file.
#[derive(Drop)]
pub struct FileUpload {
    /// The bucket of the path.
    pub bucket: BucketNum,
    /// The bytes of the body, the digits at its end included.
    pub length: u64,
    pub digest: DigestRule,
    pub name: FileName,
    pub kind: Text,
    pub info: InfoPairs,
    pub retention: Option<Retention>,
    pub hold: bool,
}

/// An upload of a part of a large file.
#[derive(Drop)]
pub struct PartUpload {
    /// The bucket of the file of the path.
    pub bucket: BucketNum,
    /// The file of the path.
    pub file: VersionNum,
    /// The bytes of the body, the digits at its end included.
    pub length: u64,
    pub digest: DigestRule,
    /// 1 to 10,000.
    pub number: u32,
}

/// An upload whose head came.
#[derive(Drop)]
pub enum UploadCall {
    File(FileUpload),
    Part(PartUpload),
    Bad(BadCall),
}
