//! A disk in memory that keeps what was done to it.

ghost use Rattle.std.specs.Prelude.{ℕ, All, ◌≡◌, ◌⊎◌, ◌+◌, ◌-◌, ◌^◌, ◌≤◌, ◌<◌, ◌↔◌, List, [], ◌∷◌, ◌++◌, length, is_ok, if◌then◌else◌, IsOk, IsErr, IfOk, OnOk, OnErr};
ghost use Rattle.std.specs.List.{AllByRecursion};
ghost use Rattle.outside_traits.specs.Causes.{raised, Rose, HasCause};
ghost use Rattle.disk_model.specs.Image.{bytes_of};
ghost use Rattle.disk_model.specs.Steps.{written, resized, TornIn, ResizedIn};
ghost use Rattle.disk_model.specs.State.{Rests, Changes, NowReads, ReadsAfter, HasLength, Gives, IsStable};
ghost use Rattle.disk_model.specs.Areas.{image_in};
ghost use Rattle.disk_model.specs.Changes.{image_after, images_of, done_by, three_images, one_more};
ghost use Rattle.disk_model.specs.Counts.{CountsCall};
ghost use Rattle.disk_model.specs.Past.{MightHaveBeen, past_state};

use crate::area::{Area, DiskImage};
use crate::areas::{Areas, copy_out, out_of_range};
use crate::changes::{Change, Done};
use crate::disk::Disk;
use crate::images::{done_up_to, push_images};
use b2_base::{Blob, Memory};
use outside_traits::{Calls, Failed};
use std::alloc::Global;

/// A disk in memory, which starts with three empty areas. A write and a cut that its list makes fail are
/// made, as far as there is memory; a sync that fails is not.
#[derive(Debug, Drop)]
pub struct MemDisk {
    alloc: Global,
    areas: Areas,
    done: Vec<Done>,
    calls: Calls,
    ghost agrees: { image_in areas ≡ image_after done.items },
}

impl MemDisk {
    ghost use Rattle.disk_model.specs.MemDisk.{mem_done, mem_calls};

    /// An empty disk, whose calls with the numbers in `fails` fail.
    pub fn new(alloc: Global, fails: Vec<u64>) -> Result<MemDisk, Memory>
        ensures done { IfOk result (λ d. mem_done d ≡ []) }
        ensures calls { IfOk result
            (λ d. mem_calls d ≡ record { fails = fails; made = 0; faults = 0; short = 0 }) }
        ensures always { IsOk result }
    {
        Ok(MemDisk {
            alloc,
            areas: Areas::new(alloc),
            done: Vec::new(alloc),
            calls: Calls::new(fails),
        })
    }

    /// How many of its faults came for want of memory.
    pub fn short(&self) -> u64
        ensures { result ≡ (mem_calls self.now).short }
    {
        self.calls.short
    }

    /// For each call whose number is greater than `since`, in order, three images of the disk just
    /// after it: each change since the last sync is kept whole, each is dropped, and each range that
    /// was written is filled with the byte 1, where a cut is kept. Each is one that a crash since that
    /// call might have left.
    pub fn images(&self, alloc: Global, since: u64) -> Result<Vec<DiskImage>, Memory>
        ensures all { IfOk result
            (λ images. images.items ≡ images_of (mem_done self.now) since
            ((mem_calls self.now).made - since)) }
        ensures left { (call : ℕ) → AllByRecursion
            (past_state (done_by call (mem_done self.now))).may_leave
            (three_images (done_by call (mem_done self.now))) }
        ensures since { IfOk result (λ images. All
            (MightHaveBeen (mem_done self.now) (length (done_by since (mem_done self.now))))
            images.items) }
    {
        let mut images = Vec::new(alloc);
        for call in since..self.calls.made {
            push_images(alloc, done_up_to(&self.done, call + 1), &mut images)?;
        }
        Ok(images)
    }

    // Makes a write and keeps it, or neither.
    fn write(&mut self, area: Area, at: u64, bytes: &[u8]) -> Result<(), Memory>
        requires { at + length bytes.now ≤ 2 ^ 62 }
        ensures done { mem_done self.new ≡ (if is_ok result
            then one_more (mem_calls self.old).made area (Change.Write at bytes.now)
            (mem_done self.old)
            else mem_done self.old) }
        ensures calls { mem_calls self.new ≡ mem_calls self.old }
    {
        let change = Change::Write(at, Blob::copy(self.alloc, bytes)?);
        let call = self.calls.made;
        self.done.push(Done { call, area, change })?;
        if self.areas.write(area, at, bytes).is_err() {
            self.done.pop();
            return Err(Memory);
        }
        Ok(())
    }

    // Makes a cut and keeps it, or neither.
    fn resize(&mut self, area: Area, len: u64) -> Result<(), Memory>
        requires { len ≤ 2 ^ 62 }
        ensures done { mem_done self.new ≡ (if is_ok result
            then one_more (mem_calls self.old).made area (Change.Cut len) (mem_done self.old)
            else mem_done self.old) }
        ensures calls { mem_calls self.new ≡ mem_calls self.old }
    {
        let change = Change::Cut(len);
        let call = self.calls.made;
        self.done.push(Done { call, area, change })?;
        if self.areas.resize(area, len).is_err() {
            self.done.pop();
            return Err(Memory);
        }
        Ok(())
    }

    // Keeps a sync.
    fn settle(&mut self, area: Area) -> Result<(), Memory>
        ensures done { mem_done self.new ≡ (if is_ok result
            then one_more (mem_calls self.old).made area Change.Sync (mem_done self.old)
            else mem_done self.old) }
        ensures calls { mem_calls self.new ≡ mem_calls self.old }
    {
        let change = Change::Sync;
        let call = self.calls.made;
        self.done.push(Done { call, area, change })?;
        Ok(())
    }
}

impl Disk for MemDisk {
    ghost use Rattle.disk_model.specs.MemDisk.{mem_done, mem_calls, mem_state};

    ghost state = { mem_state };

    ghost faults = { λ d. (mem_calls d).faults };

    fn len(&mut self, area: Area) -> Result<u64, Failed>
        ensures bound { IfOk result (λ n. n ≤ 2 ^ 62) }
        ensures length { IfOk result (λ n. HasLength area n (mem_state self.old)) }
        ensures rests { Rests (mem_state self.old) (mem_state self.new) }
        ensures cause { HasCause (mem_calls self.old).faults (mem_calls self.new).faults result }
        ensures done { mem_done self.new ≡ mem_done self.old }
        ensures counts { CountsCall ⊥ (mem_calls self.old) (mem_calls self.new) result }
    {
        if self.calls.fails_now() {
            return Err(Failed);
        }
        Ok(self.areas.get(area).len() as u64)
    }

    fn read(&mut self, area: Area, at: u64, buf: &mut [u8]) -> Result<(), Failed>
        ensures bytes { OnOk result (Gives area at buf.new (mem_state self.old)) }
        ensures same { OnErr result (buf.new ≡ buf.old) }
        ensures rests { Rests (mem_state self.old) (mem_state self.new) }
        ensures cause { HasCause (mem_calls self.old).faults (mem_calls self.new).faults result }
        ensures done { mem_done self.new ≡ mem_done self.old }
        ensures range { OnOk result
            (at + length buf.old ≤ length (bytes_of area (image_after (mem_done self.old)))) }
        ensures counts { CountsCall
            (length (bytes_of area (image_after (mem_done self.old))) < at + length buf.old)
            (mem_calls self.old) (mem_calls self.new) result }
    {
        if self.calls.fails_now() {
            return Err(Failed);
        }
        if copy_out(self.areas.get(area), at, buf) {
            return Ok(());
        }
        out_of_range(&mut self.calls);
        Err(Failed)
    }

    fn write_at(&mut self, area: Area, at: u64, bytes: &[u8]) -> Result<(), Failed>
        requires { at + length bytes.now ≤ 2 ^ 62 }
        ensures holds { OnOk result
            (NowReads area (written 0 at bytes.now) (mem_state self.old) (mem_state self.new)) }
        ensures torn { OnErr result
            (ReadsAfter (TornIn area at (length bytes.now)) (mem_state self.old)
            (mem_state self.new)) }
        ensures writes { Changes (TornIn area at (length bytes.now)) (mem_state self.old)
            (mem_state self.new) }
        ensures cause { HasCause (mem_calls self.old).faults (mem_calls self.new).faults result }
        ensures done { OnOk result (mem_done self.new ≡
            one_more (raised (mem_calls self.old).made) area (Change.Write at bytes.now)
            (mem_done self.old)) }
        ensures counts { CountsCall ⊥ (mem_calls self.old) (mem_calls self.new) result }
    {
        let fails = self.calls.fails_now();
        let made = self.write(area, at, bytes);
        if fails {
            return Err(Failed);
        }
        if made.is_err() {
            self.calls.lacks_memory();
            return Err(Failed);
        }
        Ok(())
    }

    fn cut(&mut self, area: Area, len: u64) -> Result<(), Failed>
        requires { len ≤ 2 ^ 62 }
        ensures holds { OnOk result
            (NowReads area (resized 0 len) (mem_state self.old) (mem_state self.new)) }
        ensures torn { OnErr result
            (ReadsAfter (ResizedIn area len) (mem_state self.old) (mem_state self.new)) }
        ensures cuts { Changes (ResizedIn area len) (mem_state self.old) (mem_state self.new) }
        ensures cause { HasCause (mem_calls self.old).faults (mem_calls self.new).faults result }
        ensures done { OnOk result (mem_done self.new ≡
            one_more (raised (mem_calls self.old).made) area (Change.Cut len)
            (mem_done self.old)) }
        ensures counts { CountsCall ⊥ (mem_calls self.old) (mem_calls self.new) result }
    {
        let fails = self.calls.fails_now();
        let made = self.resize(area, len);
        if fails {
            return Err(Failed);
        }
        if made.is_err() {
            self.calls.lacks_memory();
            return Err(Failed);
        }
        Ok(())
    }

    fn sync(&mut self, area: Area) -> Result<(), Failed>
        ensures durable { OnOk result
            (IsStable area (λ bytes. bytes) (mem_state self.old) (mem_state self.new)) }
        ensures rests { Rests (mem_state self.old) (mem_state self.new) }
        ensures cause { HasCause (mem_calls self.old).faults (mem_calls self.new).faults result }
        ensures done { mem_done self.new ≡ (if is_ok result
            then one_more (raised (mem_calls self.old).made) area Change.Sync (mem_done self.old)
            else mem_done self.old) }
        ensures counts { CountsCall ⊥ (mem_calls self.old) (mem_calls self.new) result }
    {
        if self.calls.fails_now() {
            return Err(Failed);
        }
        if self.settle(area).is_err() {
            self.calls.lacks_memory();
            return Err(Failed);
        }
        Ok(())
    }
}
