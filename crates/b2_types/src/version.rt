//! Versions of files, and parts of large files.

use crate::kinds::{Action, Mark, Retention};
use b2_base::{BucketNum, Extent, List, Moment, Text, VersionNum};
use name_rules::{FileName, InfoPairs};

/// A part of a large file, over what stands for its content.
#[derive(Drop)]
pub struct PartOf<C> {
    /// 1 to 10,000.
    pub number: u32,
    pub content: C,
    pub mark: Mark,
    /// The SHA-1 of the content (FIPS 180-4).
    pub digest: [u8; 20],
    pub stamp: Moment,
}

/// A version of a file, over what stands for a piece of content.
#[derive(Drop)]
pub struct VersionOf<C> {
    pub bucket: BucketNum,
    pub num: VersionNum,
    pub name: FileName,
    pub action: Action,
    pub stamp: Moment,
    /// The content type, 1 to 255 bytes from 32 to 126.
    pub kind: Text,
    pub info: InfoPairs,
    /// The pieces of the content in order: one of an upload, those of the parts of a large file.
    pub content: List<C>,
    pub mark: Mark,
    /// The SHA-1 of the content (FIPS 180-4); 20 zero bytes where the mark is Large or Marker.
    pub digest: [u8; 20],
    pub retention: Option<Retention>,
    /// Whether a legal hold is on.
    pub hold: bool,
    /// The parts of a start, by number.
    pub parts: List<PartOf<C>>,
}

/// A part whose content stands at an extent.
pub type Part = PartOf<Extent>;

/// A version whose content stands at extents.
pub type Version = VersionOf<Extent>;
