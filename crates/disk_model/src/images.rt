//! The images of a disk in memory after its calls.

ghost use Rattle.std.specs.Prelude.{◌≡◌, ◌∷◌, ◌++◌, [], List, IfOk, OnOk};
ghost use Rattle.disk_model.specs.declared.changes.Change.{Change};
ghost use Rattle.disk_model.specs.Changes.{changes_in, done_by, three_images};

use crate::area::{Area, DiskImage};
use crate::areas::write_over;
use crate::changes::{Change, Done};
use b2_base::{Blob, Memory};
use std::alloc::Global;

/// The bytes of an area in three outcomes.
#[derive(Debug, Drop)]
pub struct Outcomes {
    /// Each change since the last sync is kept whole.
    pub kept: Vec<u8>,
    /// Each is dropped.
    pub synced: Vec<u8>,
    /// Each range that was written is filled with the byte 1.
    pub filled: Vec<u8>,
}

impl Outcomes {
    ghost use Rattle.disk_model.specs.Outcomes.{HasOutcomes};

    // Of an area to which nothing was done.
    fn new(alloc: Global) -> Outcomes
        ensures { HasOutcomes [] result }
    {
        Outcomes {
            kept: Vec::new(alloc),
            synced: Vec::new(alloc),
            filled: Vec::new(alloc),
        }
    }

    // After one change more.
    fn pass(&mut self, alloc: Global, change: &Change) -> Result<(), Memory>
        ensures { OnOk result
            ((earlier : List Change) → HasOutcomes earlier self.old → HasOutcomes
            (change.now ∷ earlier) self.new) }
    {
        match change {
            Change::Write(at, piece) => {
                let piece = piece.get();
                let ones = vec![in alloc; 1; piece.len()]?;
                write_over(&mut self.kept, 0, *at as usize, piece)?;
                write_over(&mut self.filled, 1, *at as usize, &ones)?;
            }
            Change::Cut(len) => {
                self.kept.resize(*len as usize, 0)?;
                self.filled.resize(*len as usize, 1)?;
            }
            Change::Sync => {
                self.synced = self.kept.to_vec(alloc)?;
                self.filled = self.kept.to_vec(alloc)?;
            }
        }
        Ok(())
    }

    // Of an area, after these changes.
    fn of(alloc: Global, done: &[Done], area: Area) -> Result<Outcomes, Memory>
        ensures { IfOk result (HasOutcomes (changes_in area done.now)) }
    {
        let mut outcomes = Outcomes::new(alloc);
        for one in done {
            if one.area.is(area) {
                outcomes.pass(alloc, &one.change)?;
            }
        }
        Ok(outcomes)
    }
}

/// Appends three images of a disk to which this was done.
pub fn push_images(alloc: Global, done: &[Done], images: &mut Vec<DiskImage>) -> Result<(), Memory>
    ensures { OnOk result (images.new.items ≡ images.old.items ++ three_images done.now) }
{
    let log0 = Outcomes::of(alloc, done, Area::Log0)?;
    let log1 = Outcomes::of(alloc, done, Area::Log1)?;
    let blobs = Outcomes::of(alloc, done, Area::Blobs)?;
    images.push(image(log0.kept, log1.kept, blobs.kept))?;
    images.push(image(log0.synced, log1.synced, blobs.synced))?;
    images.push(image(log0.filled, log1.filled, blobs.filled))?;
    Ok(())
}

fn image(log0: Vec<u8>, log1: Vec<u8>, blobs: Vec<u8>) -> DiskImage
    ensures { result ≡ record { log0 = log0.items; log1 = log1.items; blobs = blobs.items } }
{
    DiskImage {
        log0: Blob::of(log0),
        log1: Blob::of(log1),
        blobs: Blob::of(blobs),
    }
}

/// What of these changes was done by the calls up to this one.
pub fn done_up_to(done: &[Done], call: u64) -> &[Done]
    ensures { result.now ≡ done_by call done.now }
{
    let count = done.iter().filter(|one| one.call <= call).count();
    &done[..count]
}
