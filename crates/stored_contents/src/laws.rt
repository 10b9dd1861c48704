//! Laws of the contents of a store.

ghost use Rattle.std.specs.Prelude.{List};
ghost use Rattle.std.specs.List.Sorted.{IsPermutation};
ghost use Rattle.b2_base.specs.declared.extent.Extent.{Extent as Place};
ghost use Rattle.stored_contents.specs.Held.{Holding, IsHeld};
ghost use Rattle.stored_contents.specs.Room.{IsRoom};

use crate::contents::Contents;
use disk_model::Disk;

/// The order in which owned extents are named does not matter.
pub fn any_order<D: Disk>(_contents: &Contents, _disk: &D)
    ensures room { (owned other : List Place) → IsPermutation owned other
        → IsRoom _contents.now owned → IsRoom _contents.now other }
    ensures held { (h : Holding) (other : List Place) → IsPermutation h.owned other
        → IsHeld _contents.now (D.state _disk.now) h
        → IsHeld _contents.now (D.state _disk.now) (record h { owned = other }) }
{}
