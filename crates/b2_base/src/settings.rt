//! The settings of a store.

use crate::text::Text;

/// What a store is made with, once and for all.
#[derive(Debug, Drop)]
pub struct Settings {
    /// The account's id, which is also the id of its master key: 12 lower-case hex digits.
    pub account: Text,
    /// The SHA-256 of the master key's secret.
    pub secret_hash: [u8; 32],
    /// The URL at which clients reach the store, without a slash at its end.
    pub url: Text,
    /// The fewest bytes that a part of a large file may have, but for the last.
    pub part_min: u64,
    /// The last version number that is given.
    pub last_version: u64,
    /// The most bytes of the area that holds contents.
    pub area_end: u64,
}
