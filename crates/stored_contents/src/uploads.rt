//! Uploads: their contents begin, come, end, or are given up.

ghost use Rattle.std.specs.Prelude.{◌≡◌, ◌≤◌, ◌∷◌, nat_eq, List, [], Some, None, IfOk, OnOk, MatchOption};
ghost use Rattle.std.specs.Map.{update};
ghost use Rattle.std.specs.Option.{option_map};
ghost use Rattle.b2_base.specs.Failure.{IfFault};
ghost use Rattle.b2_base.specs.declared.extent.Extent.{Extent as Place};
ghost use Rattle.outside_traits.specs.Causes.{Rose};
ghost use Rattle.disk_model.specs.State.{Rests};
ghost use Rattle.extent_space.specs.Room.{extent_for};
ghost use Rattle.stored_contents.specs.Held.{Holding, IsHeld, Spares, came_length, is_all, with_bytes};
ghost use Rattle.stored_contents.specs.Room.{IsRoom, extent_of, incoming_at, room_of};
ghost use Rattle.stored_contents.specs.Sealed.{IsSealed};

use crate::contents::Contents;
use crate::incoming::Incoming;
use b2_base::{Extent, Memory, Or};
use disk_model::{Disk, DiskFault};
use extent_space::AreaEnd;
use std::alloc::Global;

/// A content that came whole and is safe from a crash.
#[derive(Drop)]
pub struct Whole {
    /// Where it stands.
    pub extent: Extent,
    /// Its SHA-1 (FIPS 180-4).
    pub digest: [u8; 20],
    /// The bytes that came behind it.
    pub rest: Vec<u8>,
}

impl Contents {
    /// Room is taken for a content of so many bytes, which is to come under this number. What came under
    /// it before is lost, also where no room is left: after that, unlike another `Err`, the contents
    /// are used on.
    pub fn begin<D: Disk>(
        &mut self,
        alloc: Global,
        _disk: &D,
        c: u64,
        len: u64,
    ) -> Result<(), Or<AreaEnd>>
        ensures full { incoming_at self.old c ≡ None
            → IfFault result (λ _. extent_for (room_of self.old) len ≡ None) }
        ensures place { incoming_at self.old c ≡ None → OnOk result
            (option_map extent_of (incoming_at self.new c) ≡ extent_for (room_of self.old) len) }
        ensures room { (owned : List Place) → IsRoom self.old owned
            → OnOk result (IsRoom self.new owned) }
        ensures held { (h : Holding) → IsHeld self.old (D.state _disk.now) h
            → OnOk result (IsHeld self.new (D.state _disk.now) (record h {
              came = update nat_eq h.came c (Some (record { len = len; bytes = [] }));
            })) }
        ensures room_full { (owned : List Place) → IsRoom self.old owned
            → IfFault result (λ _. IsRoom self.new owned) }
        ensures held_full { (h : Holding) → IsHeld self.old (D.state _disk.now) h
            → IfFault result (λ _. IsHeld self.new (D.state _disk.now) (record h {
              came = update nat_eq h.came c None;
            })) }
    {
        self.lose(_disk, c)?;
        let staging = self.blobs.begin(len)?;
        let incoming = Incoming {
            staging,
            rest: Vec::new(alloc),
        };
        self.incoming.insert(c, incoming)?;
        Ok(())
    }

    /// More bytes come of the upload of this number, where there is one.
    pub fn piece<D: Disk>(
        &mut self,
        disk: &mut D,
        c: u64,
        bytes: &[u8],
    ) -> Result<(), Or<DiskFault>>
        ensures room { (owned : List Place) → IsRoom self.old owned
            → OnOk result (IsRoom self.new owned) }
        ensures held { (h : Holding) → IsHeld self.old (D.state disk.old) h
            → OnOk result (IsHeld self.new (D.state disk.new) (record h {
              came = update nat_eq h.came c (with_bytes bytes.now (h.came c));
            })) }
        ensures spares { (owned : List Place) → IsRoom self.old owned
            → Spares owned (D.state disk.old) (D.state disk.new) }
        ensures cause { IfFault result (λ _. Rose (D.faults disk.old) (D.faults disk.new)) }
        ensures later { D.faults disk.old ≤ D.faults disk.new }
    {
        let Some(incoming) = self.incoming.remove(&c) else {
            return Ok(());
        };
        let incoming = incoming.with_bytes(disk, bytes)?;
        self.incoming.insert(c, incoming)?;
        Ok(())
    }

    /// The content that came under this number is made safe, and owned: None where there is none, or not
    /// all of its bytes have come.
    pub fn seal<D: Disk>(&mut self, disk: &mut D, c: u64) -> Result<Option<Whole>, Or<DiskFault>>
        ensures room { (owned : List Place) → IsRoom self.old owned → IfOk result
            (λ w. MatchOption w (IsRoom self.new owned) (λ w. IsRoom self.new (w.extent ∷ owned))) }
        ensures held { (h : Holding) → IsHeld self.old (D.state disk.old) h → IfOk result
            (λ w. IsSealed self.new (D.state disk.new) h c (h.came c) w) }
        ensures rests { Rests (D.state disk.old) (D.state disk.new) }
        ensures cause { IfFault result (λ _. Rose (D.faults disk.old) (D.faults disk.new)) }
        ensures later { D.faults disk.old ≤ D.faults disk.new }
    {
        if !self.is_whole(c) {
            return Ok(None);
        }
        let Some(Incoming { staging, rest }) = self.incoming.remove(&c) else {
            return Ok(None);
        };
        let sealed = match staging.seal(disk) {
            Ok(sealed) => sealed,
            Err((_, fault)) => return Err(Or::Fault(fault)),
        };
        Ok(Some(Whole {
            extent: sealed.extent(),
            digest: sealed.digest(),
            rest,
        }))
    }

    /// The upload of this number is lost, where there is one, and its room goes back.
    pub fn lose<D: Disk>(&mut self, _disk: &D, c: u64) -> Result<(), Memory>
        ensures room { (owned : List Place) → IsRoom self.old owned
            → OnOk result (IsRoom self.new owned) }
        ensures held { (h : Holding) → IsHeld self.old (D.state _disk.now) h
            → OnOk result (IsHeld self.new (D.state _disk.now) (record h {
              came = update nat_eq h.came c None;
            })) }
        ensures gone { OnOk result (incoming_at self.new c ≡ None) }
        ensures none { incoming_at self.old c ≡ None → self.new.blobs ≡ self.old.blobs }
    {
        let Some(incoming) = self.incoming.remove(&c) else {
            return Ok(());
        };
        let spent = incoming.staging.spend();
        // Asked, so that no caller has to know it.
        if !self.blobs.is_in_use(spent.extent()) {
            return Ok(());
        }
        self.blobs.give_up(spent)?;
        Ok(())
    }

    /// How many bytes came of the upload of this number: 0 where there is none.
    pub fn came<D: Disk>(&self, _disk: &D, c: u64) -> u64
        ensures { (h : Holding) → IsHeld self.now (D.state _disk.now) h
            → result ≡ came_length (h.came c) }
    {
        match self.incoming.get(&c) {
            Some(incoming) => incoming.count(),
            None => 0,
        }
    }

    // Whether all bytes of the content have come under this number.
    fn is_whole(&self, c: u64) -> bool
        ensures { result ≡ is_all (incoming_at self.now c) }
    {
        match self.incoming.get(&c) {
            Some(incoming) => incoming.staging.missing() == 0,
            None => false,
        }
    }
}
