//! A disk in memory that holds bytes alone.

ghost use Rattle.std.specs.Prelude.{◌≡◌, ◌+◌, ◌^◌, ◌≤◌, ◌↔◌, [], length, IsOk, IfOk, OnOk, OnErr};
ghost use Rattle.outside_traits.specs.Causes.{Rose, HasCause};
ghost use Rattle.disk_model.specs.Image.{bytes_of};
ghost use Rattle.disk_model.specs.Steps.{written, resized, TornIn, ResizedIn};
ghost use Rattle.disk_model.specs.State.{Rests, Changes, NowReads, ReadsAfter, HasLength, Gives, IsStable};

use crate::area::{Area, DiskImage};
use crate::areas::{Areas, copy_out, out_of_range};
use crate::disk::Disk;
use outside_traits::{Calls, Failed};
use std::alloc::Global;

/// A disk in memory, each of whose writes is stable at once. It fails for want of memory, and where a
/// read doesn't end inside its area.
#[derive(Debug, Drop)]
pub struct FlatDisk {
    areas: Areas,
    calls: Calls,
}

impl FlatDisk {
    ghost use Rattle.disk_model.specs.FlatDisk.{flat_image, flat_calls};

    /// A disk of these bytes. It takes no memory.
    pub fn new(alloc: Global, image: DiskImage) -> FlatDisk
        requires log0 { length image.log0 ≤ 2 ^ 62 }
        requires log1 { length image.log1 ≤ 2 ^ 62 }
        requires blobs { length image.blobs ≤ 2 ^ 62 }
        ensures bytes { flat_image result ≡ image }
        ensures fails { (flat_calls result).fails.items ≡ [] }
        ensures faults { (flat_calls result).faults ≡ 0 }
        ensures short { (flat_calls result).short ≡ 0 }
    {
        FlatDisk {
            areas: Areas::of(image),
            calls: Calls::new(Vec::new(alloc)),
        }
    }

    /// How many of its faults came for want of memory.
    pub fn short(&self) -> u64
        ensures { result ≡ (flat_calls self.now).short }
    {
        self.calls.short
    }
}

impl Disk for FlatDisk {
    ghost use Rattle.disk_model.specs.FlatDisk.{flat_image, flat_calls, flat_told};

    ghost state = { flat_told };

    ghost faults = { λ d. (flat_calls d).faults };

    fn len(&mut self, area: Area) -> Result<u64, Failed>
        ensures bound { IfOk result (λ n. n ≤ 2 ^ 62) }
        ensures length { IfOk result (λ n. HasLength area n (flat_told self.old)) }
        ensures rests { Rests (flat_told self.old) (flat_told self.new) }
        ensures cause { HasCause (flat_calls self.old).faults (flat_calls self.new).faults result }
        ensures always { IsOk result }
    {
        Ok(self.areas.get(area).len() as u64)
    }

    fn read(&mut self, area: Area, at: u64, buf: &mut [u8]) -> Result<(), Failed>
        ensures bytes { OnOk result (Gives area at buf.new (flat_told self.old)) }
        ensures same { OnErr result (buf.new ≡ buf.old) }
        ensures rests { Rests (flat_told self.old) (flat_told self.new) }
        ensures cause { HasCause (flat_calls self.old).faults (flat_calls self.new).faults result }
        ensures range { IsOk result ↔ at + length buf.old ≤ length
            (bytes_of area (flat_image self.old)) }
        ensures short { (flat_calls self.new).short ≡ (flat_calls self.old).short }
    {
        if copy_out(self.areas.get(area), at, buf) {
            return Ok(());
        }
        out_of_range(&mut self.calls);
        Err(Failed)
    }

    fn write_at(&mut self, area: Area, at: u64, bytes: &[u8]) -> Result<(), Failed>
        requires { at + length bytes.now ≤ 2 ^ 62 }
        ensures holds { OnOk result
            (NowReads area (written 0 at bytes.now) (flat_told self.old) (flat_told self.new)) }
        ensures torn { OnErr result
            (ReadsAfter (TornIn area at (length bytes.now)) (flat_told self.old)
            (flat_told self.new)) }
        ensures writes { Changes (TornIn area at (length bytes.now)) (flat_told self.old)
            (flat_told self.new) }
        ensures cause { HasCause (flat_calls self.old).faults (flat_calls self.new).faults result }
        ensures same { OnErr result (flat_image self.new ≡ flat_image self.old) }
        ensures short { OnErr result
            (Rose (flat_calls self.old).short (flat_calls self.new).short) }
    {
        if self.areas.write(area, at, bytes).is_err() {
            self.calls.lacks_memory();
            return Err(Failed);
        }
        Ok(())
    }

    fn cut(&mut self, area: Area, len: u64) -> Result<(), Failed>
        requires { len ≤ 2 ^ 62 }
        ensures holds { OnOk result
            (NowReads area (resized 0 len) (flat_told self.old) (flat_told self.new)) }
        ensures torn { OnErr result
            (ReadsAfter (ResizedIn area len) (flat_told self.old) (flat_told self.new)) }
        ensures cuts { Changes (ResizedIn area len) (flat_told self.old) (flat_told self.new) }
        ensures cause { HasCause (flat_calls self.old).faults (flat_calls self.new).faults result }
        ensures same { OnErr result (flat_image self.new ≡ flat_image self.old) }
        ensures short { OnErr result
            (Rose (flat_calls self.old).short (flat_calls self.new).short) }
    {
        if self.areas.resize(area, len).is_err() {
            self.calls.lacks_memory();
            return Err(Failed);
        }
        Ok(())
    }

    fn sync(&mut self, _area: Area) -> Result<(), Failed>
        ensures durable { OnOk result
            (IsStable _area (λ bytes. bytes) (flat_told self.old) (flat_told self.new)) }
        ensures rests { Rests (flat_told self.old) (flat_told self.new) }
        ensures cause { HasCause (flat_calls self.old).faults (flat_calls self.new).faults result }
        ensures always { IsOk result }
    {
        Ok(())
    }
}
