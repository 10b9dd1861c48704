//! What a disk is to its callers.

ghost use Rattle.std.specs.Prelude.{◌≡◌, ℕ, ◌+◌, ◌^◌, ◌≤◌, length, IfOk, OnOk, OnErr};
ghost use Rattle.outside_traits.specs.Causes.{HasCause};
ghost use Rattle.disk_model.specs.Steps.{written, resized, TornIn, ResizedIn};
ghost use Rattle.disk_model.specs.State.{DiskState, Rests, Changes, NowReads, ReadsAfter, HasLength, Gives, IsStable, After, LeavesOnly};

use crate::area::Area;
use outside_traits::Failed;

/// A call on the disk failed, and the disk has counted it.
#[derive(Clone, Copy, Debug, PartialEq, Eq)]
pub struct DiskFault;

impl From<Failed> for DiskFault {
    fn from(_failed: Failed) -> Self {
        DiskFault
    }
}

/// Three areas of bytes, of at most 2^62 bytes each. What was written is safe from a crash from the next
/// sync of its area on. Until then a crash may leave any bytes in each range that was written.
pub trait Disk {
    /// What it tells of itself.
    ghost state: { Self → DiskState };

    /// How often it failed.
    ghost faults: { Self → ℕ };

    /// The length of an area.
    fn len(&mut self, area: Area) -> Result<u64, Failed>
        ensures bound { IfOk result (λ n. n ≤ 2 ^ 62) }
        ensures length { IfOk result (λ n. HasLength area n (state self.old)) }
        ensures rests { Rests (state self.old) (state self.new) }
        ensures cause { HasCause (faults self.old) (faults self.new) result };

    /// Fills the buffer with the bytes at a place. A range that doesn't end inside the area is a fault.
    fn read(&mut self, area: Area, at: u64, buf: &mut [u8]) -> Result<(), Failed>
        ensures bytes { OnOk result (Gives area at buf.new (state self.old)) }
        ensures same { OnErr result (buf.new ≡ buf.old) }
        ensures rests { Rests (state self.old) (state self.new) }
        ensures cause { HasCause (faults self.old) (faults self.new) result };

    /// Writes over what is there, and past the end, where a gap is filled with zeros. One that fails
    /// was begun.
    fn write_at(&mut self, area: Area, at: u64, bytes: &[u8]) -> Result<(), Failed>
        requires { at + length bytes.now ≤ 2 ^ 62 }
        ensures holds { OnOk result
            (NowReads area (written 0 at bytes.now) (state self.old) (state self.new)) }
        ensures torn { OnErr result
            (ReadsAfter (TornIn area at (length bytes.now)) (state self.old) (state self.new)) }
        ensures writes { Changes (TornIn area at (length bytes.now)) (state self.old)
            (state self.new) }
        ensures cause { HasCause (faults self.old) (faults self.new) result };

    /// Makes an area so long; what it adds is zeros. One that fails was begun.
    fn cut(&mut self, area: Area, len: u64) -> Result<(), Failed>
        requires { len ≤ 2 ^ 62 }
        ensures holds { OnOk result
            (NowReads area (resized 0 len) (state self.old) (state self.new)) }
        ensures torn { OnErr result
            (ReadsAfter (ResizedIn area len) (state self.old) (state self.new)) }
        ensures cuts { Changes (ResizedIn area len) (state self.old) (state self.new) }
        ensures cause { HasCause (faults self.old) (faults self.new) result };

    /// After it a crash leaves in the area what a read gives.
    fn sync(&mut self, area: Area) -> Result<(), Failed>
        ensures durable { OnOk result
            (IsStable area (λ bytes. bytes) (state self.old) (state self.new)) }
        ensures rests { Rests (state self.old) (state self.new) }
        ensures cause { HasCause (faults self.old) (faults self.new) result };
}

/// Writes, and syncs what it wrote.
pub fn write_durably<D: Disk>(disk: &mut D, area: Area, at: u64, bytes: &[u8]) -> Result<(), Failed>
    requires { at + length bytes.now ≤ 2 ^ 62 }
    ensures holds { OnOk result
        (NowReads area (written 0 at bytes.now) (D.state disk.old) (D.state disk.new)) }
    ensures durable { OnOk result
        (IsStable area (written 0 at bytes.now) (D.state disk.old) (D.state disk.new)) }
    ensures torn { OnErr result
        (ReadsAfter (TornIn area at (length bytes.now)) (D.state disk.old) (D.state disk.new)) }
    ensures any_moment { LeavesOnly (D.state disk.old) (D.state disk.new)
        (After (D.state disk.old) (TornIn area at (length bytes.now))) }
    ensures cause { HasCause (D.faults disk.old) (D.faults disk.new) result }
{
    disk.write_at(area, at, bytes)?;
    disk.sync(area)?;
    Ok(())
}
