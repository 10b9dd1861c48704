//! What the state is kept in.

use auth_grants::Grants;
use b2_base::{BucketNum, KeyNum, Moment, Settings};
use b2_types::{Bucket, Flight, Key};
use kept_versions::Versions;
use numbered_items::Numbered;

/// The parts of the state.
#[derive(Drop)]
pub struct Parts {
    pub(crate) settings: Settings,
    /// The moment of the last step.
    pub(crate) now: Moment,
    /// The moment of the last record.
    pub(crate) kept: Moment,
    /// The day of the last lifecycle pass, since 1970.
    pub(crate) pass_day: u64,
    /// How often the store was opened.
    pub(crate) boot: u32,
    pub(crate) next_bucket: BucketNum,
    pub(crate) next_key: KeyNum,
    /// May stand one above the last number of a version.
    pub(crate) next_version: u64,
    /// By number; a store has at most 100.
    pub(crate) buckets: Vec<Bucket>,
    pub(crate) versions: Versions,
    pub(crate) keys: Numbered<Key>,
    pub(crate) tokens: Grants,
    /// By connection.
    pub(crate) flights: Numbered<Flight>,
}
