//! A token that is kept.

use b2_base::ConnNum;
use b2_types::Grant;

/// A token with the upload that is under way on it.
#[derive(Drop)]
pub struct Held {
    pub grant: Grant,
    /// The connection of the upload.
    pub flight: Option<ConnNum>,
}
