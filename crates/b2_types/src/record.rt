//! Records: what changes the stored part of the state.

use crate::bucket::Bucket;
use crate::key::Key;
use crate::kinds::{Mark, Retention};
use b2_base::{BucketNum, Extent, KeyNum, List, Moment, Settings, Text, VersionNum};
use name_rules::{FileName, InfoPairs};

/// What an upload, a start or a joined large file makes.
#[derive(Drop)]
pub struct NewVersion {
    pub bucket: BucketNum,
    pub num: VersionNum,
    pub name: FileName,
    pub kind: Text,
    pub info: InfoPairs,
    pub retention: Option<Retention>,
    pub hold: bool,
}

/// A version by its number.
#[derive(Clone, Copy, Debug, PartialEq, Eq)]
pub struct VersionId {
    pub bucket: BucketNum,
    pub num: VersionNum,
}

/// The numbers of a store, in a snapshot.
#[derive(Clone, Copy, Debug, PartialEq, Eq)]
pub struct Numbers {
    /// Days since 1970.
    pub pass_day: u64,
    pub boot: u32,
    pub next_bucket: BucketNum,
    pub next_key: KeyNum,
    /// May stand one above the last version number.
    pub next_version: u64,
}

/// A change of the stored part, over what stands for a piece of content.
#[derive(Drop)]
pub enum ChangeOf<C> {
    Settings(Settings),
    Boot(u32),
    /// The lifecycle pass; what it does is computed again.
    Pass,
    BucketMake(Bucket),
    BucketUpdate(Bucket),
    BucketDrop(BucketNum),
    /// A new file with its content, mark and digest.
    Upload(NewVersion, C, Mark, [u8; 20]),
    Hide(VersionId, FileName),
    Start(NewVersion),
    /// A part of a start: number, content, mark and digest.
    PartPut(VersionId, u32, C, Mark, [u8; 20]),
    Finish(VersionId, Option<Retention>),
    Cancel(VersionId),
    VersionDrop(VersionId),
    Retain(VersionId, Option<Retention>),
    Hold(VersionId, bool),
    KeyMake(Key),
    KeyDrop(KeyNum),
    SnapState(Numbers),
    /// A large file that was finished, without its content.
    SnapLarge(NewVersion),
    /// Pieces of content that follow those of the file.
    SnapExtents(VersionId, List<C>),
}

/// A change and its moment, over what stands for a piece of content.
#[derive(Drop)]
pub struct RecordOf<C> {
    pub at: Moment,
    pub change: ChangeOf<C>,
}

/// A record whose contents stand at extents.
pub type Record = RecordOf<Extent>;
