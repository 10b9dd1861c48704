//! The states of a content: bytes that come, bytes that are safe, bytes that are kept, and a look
//! at them.

ghost use Rattle.std.specs.Prelude.{◌≡◌, ◌+◌, ◌-◌, ◌^◌, ◌<◌, ◌≤◌, ◌++◌, ℕ, List, [], length, take, drop, MatchResult, IfOk, IfErr, OnOk, OnErr};
ghost use Rattle.b2_base.specs.declared.extent.Extent.{Extent as Place};
ghost use Rattle.outside_traits.specs.Causes.{Rose};
ghost use Rattle.sha1.specs.Sha1.{sha1};
ghost use Rattle.extent_space.specs.Room.{Apart};
ghost use Rattle.disk_model.specs.State.{Changes, ReadsAfter, Rests};
ghost use Rattle.disk_model.specs.declared.area.DiskImage.{DiskImage};
ghost use Rattle.blob_extents.specs.Bytes.{ReadsAt, IsSafe, StaysOutside};

use b2_base::Extent;
use disk_model::{Area, Disk, DiskFault};
use sha1::Sha1;

/// A content whose bytes come: so many of them stand in its extent, and their digest is kept.
#[derive(Drop)]
pub struct Staging {
    extent: Extent,
    filled: u64,
    hasher: Sha1,
    ghost within: { (filled ≤ extent.len) × (extent.at + extent.len ≤ 2 ^ 62) },
}

/// A content whose bytes are all there and safe from a crash.
#[derive(Debug, Drop)]
pub struct Sealed {
    extent: Extent,
    digest: [u8; 20],
    ghost small: { extent.at + extent.len ≤ 2 ^ 62 },
}

/// An extent whose content nobody wants.
#[derive(Debug, Drop)]
pub struct Spent {
    extent: Extent,
}

/// A content that is kept.
#[derive(Debug, Drop)]
pub struct Kept {
    extent: Extent,
    ghost small: { extent.at + extent.len ≤ 2 ^ 62 },
}

/// A look at a content, whose bytes stay while it is there.
#[derive(Debug, Drop)]
pub struct Pin {
    extent: Extent,
    ghost small: { extent.at + extent.len ≤ 2 ^ 62 },
}

impl Staging {
    ghost use Rattle.blob_extents.specs.States.{staging_extent, staging_filled, HasHashed, spent_extent, sealed_extent, sealed_digest};

    // Of no bytes yet.
    pub(crate) fn new(extent: Extent) -> Staging
        requires { extent.at + extent.len ≤ 2 ^ 62 }
        ensures extent { staging_extent result ≡ extent }
        ensures none { HasHashed result [] }
    {
        Staging {
            extent,
            filled: 0,
            hasher: Sha1::new(),
        }
    }

    /// How many bytes are still missing.
    pub fn missing(&self) -> u64
        ensures { result ≡ (staging_extent self.now).len - staging_filled self.now }
    {
        self.extent.len - self.filled
    }

    /// How many bytes came.
    pub fn filled(&self) -> u64
        ensures { result ≡ staging_filled self.now }
    {
        self.filled
    }

    /// Writes a piece after those that came, and keeps the digest. Nothing is buffered.
    pub fn push<D: Disk>(
        mut self,
        disk: &mut D,
        piece: &[u8],
    ) -> Result<Staging, (Spent, DiskFault)>
        requires room { staging_filled self + length piece.now ≤ (staging_extent self).len }
        ensures extent { MatchResult result (λ s. staging_extent s ≡ staging_extent self)
            (λ e. spent_extent e.0 ≡ staging_extent self) }
        ensures hashed { IfOk result
            (λ s. (m : List ℕ) → HasHashed self m → HasHashed s (m ++ piece.now)) }
        ensures reads { OnOk result ((m : List ℕ) → HasHashed self m
            → ReadsAt (D.state disk.old) (staging_extent self) m
            → ReadsAt (D.state disk.new) (staging_extent self) (m ++ piece.now)) }
        ensures outside { Changes (StaysOutside (staging_extent self))
            (D.state disk.old) (D.state disk.new) }
        ensures outside_read { ReadsAfter (StaysOutside (staging_extent self))
            (D.state disk.old) (D.state disk.new) }
        ensures others { (e : Place) (m : List ℕ) → Apart (staging_extent self) e
            → IsSafe (D.state disk.old) e m → IsSafe (D.state disk.new) e m }
        ensures others_read { (e : Place) (m : List ℕ)
            → Apart (staging_extent self) e → length m ≤ e.len
            → ReadsAt (D.state disk.old) e m → ReadsAt (D.state disk.new) e m }
        ensures cause { OnErr result (Rose (D.faults disk.old) (D.faults disk.new)) }
        ensures later { D.faults disk.old ≤ D.faults disk.new }
    {
        let wrote = disk.write_at(Area::Blobs, self.extent.at + self.filled, piece);
        if wrote.is_err() {
            return Err((self.spend(), DiskFault));
        }
        self.hasher.update(piece);
        self.filled += piece.len() as u64;
        Ok(self)
    }

    /// Makes the content safe from a crash.
    pub fn seal<D: Disk>(self, disk: &mut D) -> Result<Sealed, (Spent, DiskFault)>
        requires all { staging_filled self ≡ (staging_extent self).len }
        ensures extent { MatchResult result (λ s. sealed_extent s ≡ staging_extent self)
            (λ e. spent_extent e.0 ≡ staging_extent self) }
        ensures digest { IfOk result
            (λ s. (m : List ℕ) → HasHashed self m → sealed_digest s ≡ sha1 m) }
        ensures safe { OnOk result ((m : List ℕ) → HasHashed self m
            → ReadsAt (D.state disk.old) (staging_extent self) m
            → IsSafe (D.state disk.new) (staging_extent self) m) }
        ensures rests { Rests (D.state disk.old) (D.state disk.new) }
        ensures cause { OnErr result (Rose (D.faults disk.old) (D.faults disk.new)) }
        ensures later { D.faults disk.old ≤ D.faults disk.new }
    {
        if disk.sync(Area::Blobs).is_err() {
            return Err((self.spend(), DiskFault));
        }
        let Staging {
            extent,
            filled: _,
            hasher,
        } = self;
        Ok(Sealed {
            extent,
            digest: hasher.finalize(),
        })
    }

    /// Gives the content up.
    pub fn spend(self) -> Spent
        ensures { spent_extent result ≡ staging_extent self }
    {
        Spent {
            extent: self.extent,
        }
    }
}

impl Sealed {
    ghost use Rattle.blob_extents.specs.States.{sealed_extent, sealed_digest, spent_extent, kept_extent};

    /// The SHA-1 of its bytes.
    pub fn digest(&self) -> [u8; 20]
        ensures { result ≡ sealed_digest self.now }
    {
        self.digest
    }

    /// Where it stands.
    pub fn extent(&self) -> Extent
        ensures { result ≡ sealed_extent self.now }
    {
        self.extent
    }

    /// Gives the content up.
    pub fn spend(self) -> Spent
        ensures { spent_extent result ≡ sealed_extent self }
    {
        Spent {
            extent: self.extent,
        }
    }

    pub(crate) fn keep(self) -> Kept
        ensures { kept_extent result ≡ sealed_extent self }
    {
        Kept {
            extent: self.extent,
        }
    }
}

impl Spent {
    ghost use Rattle.blob_extents.specs.States.{spent_extent};

    pub(crate) fn place(self) -> Extent
        ensures { result ≡ spent_extent self }
    {
        self.extent
    }

    /// Where it stands.
    pub fn extent(&self) -> Extent
        ensures { result ≡ spent_extent self.now }
    {
        self.extent
    }
}

impl Kept {
    ghost use Rattle.blob_extents.specs.States.{kept_extent};

    pub(crate) fn place(self) -> Extent
        ensures { result ≡ kept_extent self }
    {
        self.extent
    }

    pub(crate) fn new(extent: Extent) -> Kept
        requires { extent.at + extent.len ≤ 2 ^ 62 }
        ensures { kept_extent result ≡ extent }
    {
        Kept { extent }
    }

    /// Where it stands.
    pub fn extent(&self) -> Extent
        ensures { result ≡ kept_extent self.now }
    {
        self.extent
    }
}

impl Pin {
    ghost use Rattle.blob_extents.specs.States.{pin_extent, kept_extent};

    pub(crate) fn of(kept: &Kept) -> Pin
        ensures { pin_extent result ≡ kept_extent kept.now }
    {
        Pin {
            extent: kept.extent,
        }
    }

    pub(crate) fn place(self) -> Extent
        ensures { result ≡ pin_extent self }
    {
        self.extent
    }

    /// Where its content stands.
    pub fn extent(&self) -> Extent
        ensures { result ≡ pin_extent self.now }
    {
        self.extent
    }

    /// Fills the buffer with the bytes of the content at a place.
    pub fn read<D: Disk>(&self, disk: &mut D, at: u64, buf: &mut [u8]) -> Result<(), DiskFault>
        requires { at + length buf.old ≤ (pin_extent self.now).len }
        ensures bytes { OnOk result ((m : List ℕ)
            → IsSafe (D.state disk.old) (pin_extent self.now) m
            → (i : DiskImage) → (D.state disk.old).reads i
            → buf.new ≡ take (length buf.old) (drop at m)) }
        ensures same { OnErr result (buf.new ≡ buf.old) }
        ensures rests { Rests (D.state disk.old) (D.state disk.new) }
        ensures cause { OnErr result (Rose (D.faults disk.old) (D.faults disk.new)) }
        ensures later { D.faults disk.old ≤ D.faults disk.new }
    {
        Ok(disk.read(Area::Blobs, self.extent.at + at, buf)?)
    }
}
