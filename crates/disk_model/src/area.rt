//! The areas of a disk, and the bytes in them.

ghost use Rattle.std.specs.Prelude.{◌≡◌};
ghost use Rattle.disk_model.specs.Image.{same_area};

use b2_base::Blob;

/// A part of the disk with a length of its own: two for logs, and one for contents.
#[derive(Clone, Copy, Debug, PartialEq, Eq)]
pub enum Area {
    Log0,
    Log1,
    Blobs,
}

impl Area {
    /// Whether it is the same area.
    pub fn is(self, other: Area) -> bool
        ensures { result ≡ same_area self other }
    {
        match (self, other) {
            (Area::Log0, Area::Log0) => true,
            (Area::Log1, Area::Log1) => true,
            (Area::Blobs, Area::Blobs) => true,
            _ => false,
        }
    }
}

/// The bytes of the three areas.
#[derive(Debug, Drop)]
pub struct DiskImage {
    pub log0: Blob,
    pub log1: Blob,
    pub blobs: Blob,
}
