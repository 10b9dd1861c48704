//! Contents that are read.

ghost use Rattle.std.specs.Prelude.{◌≡◌, ◌≤◌, ◌==◌, List, [], None, map, All, Contains, IfOk, OnOk, length, take, drop};
ghost use Rattle.std.specs.List.{flat_map, position};
ghost use Rattle.b2_base.specs.Failure.{IfFault};
ghost use Rattle.b2_base.specs.declared.extent.Extent.{Extent as Place};
ghost use Rattle.outside_traits.specs.Causes.{Rose};
ghost use Rattle.blob_extents.specs.States.{pin_extent};
ghost use Rattle.blob_extents.specs.Uses.{IsInUse};
ghost use Rattle.stored_contents.specs.Changes.{EndsLook};
ghost use Rattle.stored_contents.specs.Held.{Holding, IsHeld, read_by, with_read};
ghost use Rattle.stored_contents.specs.Reads.{IsRead, outgoing_at, zeros_of};
ghost use Rattle.stored_contents.specs.Room.{IsRoom, IsRoomWith};

use crate::contents::Contents;
use crate::outgoing::Outgoing;
use b2_base::{Extent, Memory, Or};
use blob_extents::Pin;
use disk_model::{Disk, DiskFault};
use std::alloc::Global;

impl Contents {
    /// The reader of this number is to get so many bytes from a place on of these owned contents, one after
    /// the other, and nothing else any longer.
    pub fn start_reading<D: Disk>(
        &mut self,
        alloc: Global,
        _disk: &D,
        c: u64,
        pieces: &[Extent],
        at: u64,
        len: u64,
    ) -> Result<(), Memory>
        ensures room { (owned : List Place) → IsRoom self.old owned → All (Contains owned) pieces.now
            → OnOk result (IsRoom self.new owned) }
        ensures held { (h : Holding) → IsHeld self.old (D.state _disk.now) h
            → All (Contains h.owned) pieces.now
            → OnOk result (IsHeld self.new (D.state _disk.now) (record h {
              read = with_read h.read c (take len (drop at (flat_map h.meaning pieces.now)));
            })) }
    {
        self.end_reading(_disk, c)?;
        let pins = self.pin_all(alloc, pieces)?;
        self.outgoing.push(Outgoing {
            reader: c,
            pins,
            at,
            len,
        })?;
        Ok(())
    }

    /// The bytes of its content from a place on, at most so many, for the reader of this number.
    pub fn read_out<D: Disk>(
        &self,
        alloc: Global,
        disk: &mut D,
        c: u64,
        at: u64,
        most: usize,
    ) -> Result<Vec<u8>, Or<DiskFault>>
        ensures bytes { (h : Holding) → IsHeld self.now (D.state disk.old) h
            → IfOk result (λ bytes. bytes.items ≡ take most (drop at (h.read c))) }
        ensures count { IfOk result (λ bytes. length bytes.items
            ≡ length (take most (drop at (read_by zeros_of (outgoing_at self.now c))))) }
        ensures rests { IsRead (D.state disk.old) (D.state disk.new) }
        ensures cause { IfFault result (λ _. Rose (D.faults disk.old) (D.faults disk.new)) }
        ensures later { D.faults disk.old ≤ D.faults disk.new }
        ensures held { (h : Holding) → IsHeld self.now (D.state disk.old) h
            → IsHeld self.now (D.state disk.new) h }
    {
        let Some(place) = self.place_of(c) else {
            return Ok(Vec::new(alloc));
        };
        let reading = &self.outgoing[place];
        reading.bytes(alloc, disk, at, most)
    }

    /// The reader of this number ends, where there is one.
    pub fn end_reading<D: Disk>(&mut self, _disk: &D, c: u64) -> Result<(), Memory>
        ensures room { (owned : List Place) → IsRoom self.old owned
            → OnOk result (IsRoom self.new owned) }
        ensures held { (h : Holding) → IsHeld self.old (D.state _disk.now) h
            → OnOk result (IsHeld self.new (D.state _disk.now) (record h {
              read = with_read h.read c [];
            })) }
        ensures none { OnOk result (outgoing_at self.new c ≡ None) }
    {
        while let Some(place) = self.place_of(c) {
            let Outgoing {
                reader: _,
                pins,
                at: _,
                len: _,
            } = self.outgoing.remove(place);
            self.unpin_all(pins)?;
        }
        Ok(())
    }

    // Where a content of this reader stands.
    fn place_of(&self, c: u64) -> Option<usize>
        ensures { result ≡ position (λ o. o.reader == c) self.now.outgoing.items }
    {
        self.outgoing.iter().position(|reading| reading.reader == c)
    }

    // These owned contents are looked at, for a reader that is to come.
    fn pin_all(&mut self, alloc: Global, pieces: &[Extent]) -> Result<Vec<Pin>, Memory>
        ensures room { (owned : List Place) → IsRoom self.old owned → All (Contains owned) pieces.now
            → IfOk result (λ pins. IsRoomWith self.new owned (map pin_extent pins.items)) }
        ensures pieces { (owned : List Place) → IsRoom self.old owned → All (Contains owned) pieces.now
            → IfOk result (λ pins. map pin_extent pins.items ≡ pieces.now) }
        ensures released { self.new.blobs.released ≡ self.old.blobs.released }
        ensures incoming { self.new.incoming.entries ≡ self.old.incoming.entries }
        ensures outgoing { self.new.outgoing.items ≡ self.old.outgoing.items }
    {
        let mut pins = Vec::new(alloc);
        for piece in pieces {
            let Some(kept) = self.blobs.kept(*piece) else {
                return Ok(pins);
            };
            pins.push(self.blobs.pin(&kept)?)?;
        }
        Ok(pins)
    }

    // These looks end, which are no reader's any longer.
    fn unpin_all(&mut self, mut pins: Vec<Pin>) -> Result<(), Memory>
        ensures room { (owned : List Place) → IsRoomWith self.old owned (map pin_extent pins.items)
            → OnOk result (IsRoom self.new owned) }
        ensures released { OnOk result
            (All (Contains self.old.blobs.released) self.new.blobs.released) }
        ensures incoming { self.new.incoming.entries ≡ self.old.incoming.entries }
        ensures outgoing { self.new.outgoing.items ≡ self.old.outgoing.items }
    {
        while let Some(pin) = pins.pop() {
            self.unpin_one(pin)?;
        }
        Ok(())
    }

    // One of them. Whether it is there is asked, so that no caller has to know it.
    fn unpin_one(&mut self, pin: Pin) -> Result<(), Memory>
        ensures ends { Contains self.old.blobs.pinned (pin_extent pin)
            → IsInUse self.old.blobs (pin_extent pin)
            → OnOk result (EndsLook (pin_extent pin) self.old.blobs self.new.blobs) }
        ensures released { OnOk result
            (All (Contains self.old.blobs.released) self.new.blobs.released) }
        ensures incoming { self.new.incoming ≡ self.old.incoming }
        ensures outgoing { self.new.outgoing ≡ self.old.outgoing }
    {
        if !self.blobs.is_pinned(&pin) {
            return Ok(());
        }
        if !self.blobs.is_in_use(pin.extent()) {
            return Ok(());
        }
        self.blobs.unpin(pin)?;
        Ok(())
    }
}
