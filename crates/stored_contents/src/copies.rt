//! Copies inside the store.

ghost use Rattle.std.specs.Prelude.{◌≡◌, ◌+◌, ◌<◌, ◌≤◌, ◌∷◌, nat_eq, ℕ, List, [], Some, All, Contains, IfOk, OnOk, MatchOption, length, min, take, drop};
ghost use Rattle.std.specs.List.{flat_map};
ghost use Rattle.std.specs.Map.{update};
ghost use Rattle.b2_base.specs.Failure.{IfFault};
ghost use Rattle.b2_base.specs.declared.extent.Extent.{Extent as Place};
ghost use Rattle.outside_traits.specs.Causes.{Rose};
ghost use Rattle.stored_contents.specs.Causes.{IfAny, IsCause};
ghost use Rattle.stored_contents.specs.Held.{Holding, IsHeld, Spares};
ghost use Rattle.stored_contents.specs.Room.{IsRoom};
ghost use Rattle.stored_contents.specs.declared.copies.TheConstants.{COPYING};
ghost use Rattle.stored_contents.specs.Sealed.{IsCopied};

use crate::contents::{Contents, StoreFault};
use crate::uploads::Whole;
use b2_base::{Extent, Or};
use disk_model::{Disk, DiskFault};
use extent_space::AreaEnd;
use std::alloc::Global;

// The number of a copy, above those of all connections.
const COPYING: u64 = 4_294_967_296;

// How many bytes are copied at once.
const MOST_COPIED: usize = 65_536;

impl Contents {
    /// A content is stored that has so many bytes from a place on of these owned ones, one after the
    /// other: the new one is owned. None where they have fewer bytes.
    pub fn copy<D: Disk>(
        &mut self,
        alloc: Global,
        disk: &mut D,
        pieces: &[Extent],
        at: u64,
        len: u64,
    ) -> Result<Option<Whole>, Or<StoreFault>>
        ensures room { (owned : List Place) → IsRoom self.old owned → All (Contains owned) pieces.now
            → IfOk result
            (λ w. MatchOption w (IsRoom self.new owned) (λ w. IsRoom self.new (w.extent ∷ owned))) }
        ensures held { (h : Holding) → IsHeld self.old (D.state disk.old) h
            → All (Contains h.owned) pieces.now
            → at + len ≤ length (flat_map h.meaning pieces.now)
            → IfOk result (IsCopied self.new (D.state disk.new) h COPYING
            (take len (drop at (flat_map h.meaning pieces.now)))) }
        ensures spares { (owned : List Place) → IsRoom self.old owned
            → All (Contains owned) pieces.now
            → Spares owned (D.state disk.old) (D.state disk.new) }
        ensures cause { IfFault result (IsCause (D.faults disk.old) (D.faults disk.new)) }
    {
        self.start_reading(alloc, disk, COPYING, pieces, at, len)?;
        let whole = self.copied(alloc, disk, COPYING, len)?;
        Ok(whole)
    }

    // What is read under the number is stored, so many bytes, and no longer read.
    fn copied<D: Disk>(
        &mut self,
        alloc: Global,
        disk: &mut D,
        c: u64,
        len: u64,
    ) -> Result<Option<Whole>, Or<StoreFault>>
        ensures room { (owned : List Place) → IsRoom self.old owned → IfOk result
            (λ w. MatchOption w (IsRoom self.new owned) (λ w. IsRoom self.new (w.extent ∷ owned))) }
        ensures held { (h : Holding) → IsHeld self.old (D.state disk.old) h
            → length (h.read c) ≡ len
            → IfOk result (IsCopied self.new (D.state disk.new) h c (h.read c)) }
        ensures spares { (owned : List Place) → IsRoom self.old owned
            → Spares owned (D.state disk.old) (D.state disk.new) }
        ensures cause { IfFault result (IsCause (D.faults disk.old) (D.faults disk.new)) }
    {
        if let Err(error) = self.begin(alloc, disk, c, len) {
            return Err(no_room(error));
        }
        if let Err(error) = self.copy_all(alloc, disk, c, len, MOST_COPIED) {
            return Err(disk_fault(error));
        }
        self.end_reading(disk, c)?;
        match self.seal(disk, c) {
            Ok(whole) => Ok(whole),
            Err(error) => Err(disk_fault(error)),
        }
    }

    // What is read under the number comes under it, at most so many bytes at once.
    fn copy_all<D: Disk>(
        &mut self,
        alloc: Global,
        disk: &mut D,
        c: u64,
        len: u64,
        most: usize,
    ) -> Result<(), Or<DiskFault>>
        requires { 0 < most }
        ensures room { (owned : List Place) → IsRoom self.old owned
            → OnOk result (IsRoom self.new owned) }
        ensures held { (h : Holding) → IsHeld self.old (D.state disk.old) h
            → length (h.read c) ≡ len
            → h.came c ≡ Some (record { len = len; bytes = [] })
            → OnOk result (IsHeld self.new (D.state disk.new) (record h {
              came = update nat_eq h.came c (Some (record { len = len; bytes = h.read c }));
            })) }
        ensures spares { (owned : List Place) → IsRoom self.old owned
            → Spares owned (D.state disk.old) (D.state disk.new) }
        ensures cause { IfFault result (λ _. Rose (D.faults disk.old) (D.faults disk.new)) }
        ensures later { D.faults disk.old ≤ D.faults disk.new }
    {
        let mut left = len;
        while left > 0 {
            let bytes = self.read_out(alloc, disk, c, len - left, least(left, most))?;
            if bytes.is_empty() {
                return Ok(());
            }
            left -= bytes.len() as u64;
            self.piece(disk, c, &bytes)?;
        }
        Ok(())
    }
}

// The smaller of two counts.
fn least(left: u64, most: usize) -> usize
    ensures { result ≡ min left most }
{
    if left < most as u64 {
        left as usize
    } else {
        most
    }
}

fn no_room(error: Or<AreaEnd>) -> Or<StoreFault>
    ensures { (before now : ℕ) → IfAny result (IsCause before now) }
{
    match error {
        Or::Memory => Or::Memory,
        Or::Fault(_) => Or::Fault(StoreFault::AreaEnd),
    }
}

fn disk_fault(error: Or<DiskFault>) -> Or<StoreFault>
    ensures { (before now : ℕ) → IfAny error (λ _. Rose before now)
        → IfAny result (IsCause before now) }
{
    match error {
        Or::Memory => Or::Memory,
        Or::Fault(_) => Or::Fault(StoreFault::DiskFault),
    }
}
