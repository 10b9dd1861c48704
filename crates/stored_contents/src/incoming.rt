//! An upload whose bytes come.

ghost use Rattle.std.specs.Prelude.{◌≡◌, ◌≤◌, ◌++◌, ℕ, min, List, IfOk, length};
ghost use Rattle.b2_base.specs.Failure.{IfFault};
ghost use Rattle.b2_base.specs.declared.extent.Extent.{Extent as Place};
ghost use Rattle.outside_traits.specs.Causes.{Rose};
ghost use Rattle.disk_model.specs.State.{Changes, ReadsAfter};
ghost use Rattle.extent_space.specs.Room.{Apart};
ghost use Rattle.blob_extents.specs.Bytes.{IsSafe, ReadsAt, StaysOutside};
ghost use Rattle.stored_contents.specs.Held.{Coming, IsIncoming, came_count};
ghost use Rattle.stored_contents.specs.Room.{extent_of};

use b2_base::Or;
use blob_extents::Staging;
use disk_model::{Disk, DiskFault};

/// The bytes of the content go to its extent as they come. Those behind it, such as the digits of a
/// digest, stay in memory.
#[derive(Drop)]
pub(crate) struct Incoming {
    pub(crate) staging: Staging,
    pub(crate) rest: Vec<u8>,
}

impl Incoming {
    /// How many bytes came.
    pub(crate) fn count(&self) -> u64
        ensures { result ≡ came_count self.now }
    {
        self.staging.filled() + self.rest.len() as u64
    }

    /// More bytes come. At `Err` the upload is lost, and its extent stays in use.
    pub(crate) fn with_bytes<D: Disk>(
        self,
        disk: &mut D,
        bytes: &[u8],
    ) -> Result<Incoming, Or<DiskFault>>
        ensures extent { IfOk result (λ i. extent_of i ≡ extent_of self) }
        ensures came { IfOk result (λ i. (a : Coming) → IsIncoming (D.state disk.old) self a
            → IsIncoming (D.state disk.new) i (record a { bytes = a.bytes ++ bytes.now })) }
        ensures outside { Changes (StaysOutside (extent_of self))
            (D.state disk.old) (D.state disk.new) }
        ensures outside_read { ReadsAfter (StaysOutside (extent_of self))
            (D.state disk.old) (D.state disk.new) }
        ensures others { (e : Place) (m : List ℕ) → Apart (extent_of self) e
            → IsSafe (D.state disk.old) e m → IsSafe (D.state disk.new) e m }
        ensures others_read { (e : Place) (m : List ℕ)
            → Apart (extent_of self) e → length m ≤ e.len
            → ReadsAt (D.state disk.old) e m → ReadsAt (D.state disk.new) e m }
        ensures cause { IfFault result (λ _. Rose (D.faults disk.old) (D.faults disk.new)) }
        ensures later { D.faults disk.old ≤ D.faults disk.new }
    {
        let Incoming { staging, mut rest } = self;
        let fits = fitting(staging.missing(), bytes.len());
        let (content, behind) = bytes.split_at(fits);
        let staging = match staging.push(disk, content) {
            Ok(staging) => staging,
            Err((_, fault)) => return Err(Or::Fault(fault)),
        };
        rest.extend_from_slice(behind)?;
        Ok(Incoming { staging, rest })
    }
}

// How many of so many bytes there is room for.
fn fitting(room: u64, count: usize) -> usize
    ensures { result ≡ min room count }
{
    if room < count as u64 {
        room as usize
    } else {
        count
    }
}
