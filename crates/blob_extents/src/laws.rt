//! Laws of contents in extents.

ghost use Rattle.std.specs.Prelude.{◌≡◌, ◌+◌, ◌≤◌, ℕ, List, length, take, drop};
ghost use Rattle.std.specs.Bool.{OnTrue};
ghost use Rattle.b2_base.specs.declared.extent.Extent.{Extent as Place};
ghost use Rattle.disk_model.specs.declared.area.DiskImage.{DiskImage};
ghost use Rattle.blob_extents.specs.Bytes.{IsSafe, ReadsAt, read_at};
ghost use Rattle.blob_extents.specs.States.{kept_extent};
ghost use Rattle.blob_extents.specs.Uses.{IsInUse};

use crate::blobs::Blobs;
use crate::states::Kept;
use disk_model::Disk;

/// What an image reads at an extent has the extent's length, wherever that lies. What is safe in an
/// extent is what a read gives there, and every image.
#[tactic(auto, using(crate::proofs::WhatIsRead::whole_content))]
pub fn what_is_read<D: Disk>(_disk: &D)
    ensures total { (i : DiskImage) (e : Place) → length (read_at i e) ≡ e.len }
    ensures safe { (e : Place) (m : List ℕ) → IsSafe (D.state _disk.now) e m
        → (i : DiskImage) → (D.state _disk.now).may_leave i → read_at i e ≡ m }
    ensures read { (e : Place) (m : List ℕ) → IsSafe (D.state _disk.now) e m
        → (i : DiskImage) → (D.state _disk.now).reads i → read_at i e ≡ m }
    ensures came { (e : Place) (m : List ℕ) → length m ≡ e.len
        → ReadsAt (D.state _disk.now) e m
        → (i : DiskImage) → (D.state _disk.now).reads i → read_at i e ≡ m }
{}

/// A look at a content gives its bytes, though the content is released meanwhile and another is
/// stored. It answers whether each call was carried out.
pub fn read_after_release<D: Disk>(
    blobs: &mut Blobs,
    disk: &mut D,
    kept: Kept,
    other: &[u8],
    at: u64,
    buf: &mut [u8],
) -> bool
    requires in_use { IsInUse blobs.old (kept_extent kept) }
    requires range { at + length buf.old ≤ (kept_extent kept).len }
    ensures bytes { OnTrue result ((m : List ℕ) (i : DiskImage)
        → IsSafe (D.state disk.old) (kept_extent kept) m → (D.state disk.old).reads i
        → buf.new ≡ take (length buf.old) (drop at m)) }
    ensures safe { OnTrue result ((m : List ℕ)
        → IsSafe (D.state disk.old) (kept_extent kept) m
        → IsSafe (D.state disk.new) (kept_extent kept) m) }
{
    let Ok(pin) = blobs.pin(&kept) else {
        return false;
    };
    if blobs.release(kept).is_err() {
        return false;
    }
    let Ok(staging) = blobs.begin(other.len() as u64) else {
        return false;
    };
    let Ok(staging) = staging.push(disk, other) else {
        return false;
    };
    let Ok(_sealed) = staging.seal(disk) else {
        return false;
    };
    let Ok(()) = pin.read(disk, at, buf) else {
        return false;
    };
    true
}
