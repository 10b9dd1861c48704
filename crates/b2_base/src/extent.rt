//! Places in the area of contents.

/// `len` bytes from the byte `at` on.
#[derive(Clone, Copy, Debug, PartialEq, Eq)]
pub struct Extent {
    pub at: u64,
    pub len: u64,
}
