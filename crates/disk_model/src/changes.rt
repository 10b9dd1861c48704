//! What was done to a disk in memory.

use crate::area::Area;
use b2_base::Blob;

/// What a call changed.
#[derive(Debug, Drop)]
pub enum Change {
    /// These bytes were written at this place.
    Write(u64, Blob),
    /// The area was made so long.
    Cut(u64),
    /// What was written before is safe.
    Sync,
}

/// A change, by the number of the call that made it.
#[derive(Debug, Drop)]
pub struct Done {
    pub call: u64,
    pub area: Area,
    pub change: Change,
}
