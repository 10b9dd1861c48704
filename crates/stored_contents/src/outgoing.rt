//! A content that is read.

ghost use Rattle.std.specs.Prelude.{◌≡◌, ◌≤◌, ◌+◌, ◌-◌, ◌++◌, ℕ, List, All, IfOk, min, length, take, drop};
ghost use Rattle.b2_base.specs.Failure.{IfFault};
ghost use Rattle.b2_base.specs.declared.extent.Extent.{Extent as Place};
ghost use Rattle.outside_traits.specs.Causes.{Rose};
ghost use Rattle.disk_model.specs.declared.area.DiskImage.{DiskImage};
ghost use Rattle.blob_extents.specs.Bytes.{IsSafe};
ghost use Rattle.blob_extents.specs.States.{pin_extent};
ghost use Rattle.stored_contents.specs.Held.{bytes_of};
ghost use Rattle.stored_contents.specs.Reads.{IsRead, zeros_of};
ghost use Rattle.stored_contents.specs.Room.{pins_of};

use b2_base::{Memory, Or};
use blob_extents::Pin;
use disk_model::{Disk, DiskFault};
use std::alloc::Global;

/// The bytes from a place on, and so many, of the contents that these pins look at, one after the
/// other, for the reader of this number.
#[derive(Drop)]
pub(crate) struct Outgoing {
    pub(crate) reader: u64,
    pub(crate) pins: Vec<Pin>,
    pub(crate) at: u64,
    pub(crate) len: u64,
}

impl Outgoing {
    // The bytes at a place of what the reader gets, at most so many.
    pub(crate) fn bytes<D: Disk>(
        &self,
        alloc: Global,
        disk: &mut D,
        at: u64,
        most: usize,
    ) -> Result<Vec<u8>, Or<DiskFault>>
        ensures bytes { (meaning : Place → List ℕ) (i : DiskImage)
            → ((e : Place) → length (meaning e) ≡ e.len)
            → All (λ e. IsSafe (D.state disk.old) e (meaning e)) (pins_of self.now)
            → (D.state disk.old).reads i
            → IfOk result (λ bytes. bytes.items ≡ take most (drop at (bytes_of meaning self.now))) }
        ensures count { IfOk result (λ bytes. length bytes.items
            ≡ length (take most (drop at (bytes_of zeros_of self.now)))) }
        ensures rests { IsRead (D.state disk.old) (D.state disk.new) }
        ensures cause { IfFault result (λ _. Rose (D.faults disk.old) (D.faults disk.new)) }
        ensures later { D.faults disk.old ≤ D.faults disk.new }
    {
        let mut bytes = Vec::new(alloc);
        let mut skip = u128::from(self.at) + u128::from(at);
        let mut left = part_len(self.len, u128::from(at), most);
        for pin in &self.pins {
            let count = read_part(alloc, disk, pin, skip, left, &mut bytes)?;
            skip = skip.saturating_sub(u128::from(pin.extent().len));
            left -= count;
        }
        Ok(bytes)
    }
}

// How many bytes there are from a place on, at most so many.
fn part_len(len: u64, at: u128, most: usize) -> usize
    ensures { result ≡ min (len - at) most }
{
    let there = u128::from(len).saturating_sub(at);
    if there < most as u128 {
        there as usize
    } else {
        most
    }
}

// The bytes of one content from a place on, at most so many, come behind those that are there. It
// answers how many.
fn read_part<D: Disk>(
    alloc: Global,
    disk: &mut D,
    pin: &Pin,
    at: u128,
    most: usize,
    bytes: &mut Vec<u8>,
) -> Result<usize, Or<DiskFault>>
    ensures count { IfOk result (λ n. n ≡ min ((pin_extent pin.now).len - at) most) }
    ensures long { IfOk result (λ n. length bytes.new.items ≡ length bytes.old.items + n) }
    ensures bytes { (m : List ℕ) (i : DiskImage) → IsSafe (D.state disk.old) (pin_extent pin.now) m
        → (D.state disk.old).reads i
        → IfOk result (λ n. bytes.new.items ≡ bytes.old.items ++ take n (drop at m)) }
    ensures rests { IsRead (D.state disk.old) (D.state disk.new) }
    ensures cause { IfFault result (λ _. Rose (D.faults disk.old) (D.faults disk.new)) }
    ensures later { D.faults disk.old ≤ D.faults disk.new }
{
    let count = part_len(pin.extent().len, at, most);
    if count == 0 {
        return Ok(0);
    }
    let mut part = vec![in alloc; 0u8; count]?;
    if let Err(fault) = pin.read(disk, at as u64, &mut part) {
        return Err(Or::Fault(fault));
    }
    bytes.extend_from_slice(&part)?;
    Ok(count)
}
