//! The contents of a store, and what its versions own.

ghost use Rattle.std.specs.Prelude.{◌≡◌, ◌≤◌, ◌^◌, List, [], ◌++◌, IfOk, OnOk};
ghost use Rattle.b2_base.specs.declared.extent.Extent.{Extent as Place};
ghost use Rattle.disk_model.specs.declared.area.DiskImage.{DiskImage};
ghost use Rattle.extent_space.specs.Room.{IsRoomOf};
ghost use Rattle.blob_extents.specs.Bytes.{read_at};
ghost use Rattle.blob_extents.specs.Uses.{IsInUse};
ghost use Rattle.stored_contents.specs.Held.{Holding, IsHeld, none_held};
ghost use Rattle.stored_contents.specs.Room.{IsRoom, room_of};
ghost use Rattle.stored_contents.specs.Changes.{Releases};

use crate::incoming::Incoming;
use crate::outgoing::Outgoing;
use b2_base::{Extent, Memory};
use blob_extents::Blobs;
use disk_model::Disk;
use std::alloc::Global;
use std::collections::BTreeMap;

/// Why a content could not be stored.
#[derive(Clone, Copy, Debug, PartialEq, Eq)]
pub enum StoreFault {
    /// A call on the disk failed.
    DiskFault,
    /// No room is left for it.
    AreaEnd,
}

/// The contents of a store. Each upload and each reader stands under a number: that of its connection,
/// or one above all of these for a copy inside the store. Of what the store's versions own it keeps no
/// list: whoever owns an extent knows where it stands. After an `Err` it is not used again, but where
/// a call says so.
#[derive(Drop)]
pub struct Contents {
    pub(crate) blobs: Blobs,
    pub(crate) incoming: BTreeMap<u64, Incoming>,
    pub(crate) outgoing: Vec<Outgoing>,
}

impl Contents {
    /// No contents, in an area of so many bytes.
    pub fn new<D: Disk>(alloc: Global, _disk: &D, limit: u64) -> Result<Contents, Memory>
        requires { limit ≤ 2 ^ 62 }
        ensures none { IfOk result (λ t. IsRoomOf limit [] (room_of t)) }
        ensures room { IfOk result (λ t. IsRoom t []) }
        ensures held { (i : DiskImage) → (D.state _disk.now).reads i
            → IfOk result (λ t. IsHeld t (D.state _disk.now) (none_held (read_at i))) }
    {
        let (blobs, _) = Blobs::from_used(alloc, &[], limit)?;
        Ok(Contents {
            blobs,
            incoming: BTreeMap::new(alloc),
            outgoing: Vec::new(alloc),
        })
    }

    /// Its owner gives these up. The extent of each goes back at once, or with its last reader. One that
    /// is not in use stays as it is.
    pub fn release<D: Disk>(&mut self, _disk: &D, freed: &[Extent]) -> Result<(), Memory>
        ensures room { (rest : List Place) → IsRoom self.old (freed.now ++ rest)
            → OnOk result (IsRoom self.new rest) }
        ensures held { (h : Holding) (rest : List Place) → h.owned ≡ freed.now ++ rest
            → IsHeld self.old (D.state _disk.now) h
            → OnOk result (IsHeld self.new (D.state _disk.now) (record h { owned = rest })) }
    {
        for extent in freed {
            self.release_one(*extent)?;
        }
        Ok(())
    }

    // One of them. Whether it is in use is asked of the room, so that no caller has to know it.
    fn release_one(&mut self, extent: Extent) -> Result<(), Memory>
        ensures releases { IsInUse self.old.blobs extent
            → OnOk result (Releases extent self.old.blobs self.new.blobs) }
        ensures incoming { self.new.incoming ≡ self.old.incoming }
        ensures outgoing { self.new.outgoing ≡ self.old.outgoing }
    {
        let Some(kept) = self.blobs.kept(extent) else {
            return Ok(());
        };
        self.blobs.release(kept)?;
        Ok(())
    }
}
