//! Three areas of bytes in memory.

ghost use Rattle.std.specs.Prelude.{IsTrue, ◌↔◌, ◌≡◌, ◌+◌, ◌^◌, ◌<◌, ◌≤◌, ◌-◌, ◌++◌, [], length, take, drop, replicate, min, IfOk, OnOk, OnErr, is_ok, if◌then◌else◌};
ghost use Rattle.std.specs.Bool.{OnTrue, OnFalse};
ghost use Rattle.outside_traits.specs.Causes.{raised, Rose};
ghost use Rattle.disk_model.specs.Steps.{written, resized};

use crate::area::{Area, DiskImage};
use outside_traits::Calls;
use std::alloc::{AllocError, Global};

/// The bytes of the areas.
#[derive(Debug, Drop)]
pub struct Areas {
    pub log0: Vec<u8>,
    pub log1: Vec<u8>,
    pub blobs: Vec<u8>,
    ghost small: { (length log0.items ≤ 2 ^ 62) × (length log1.items ≤ 2 ^ 62)
        × (length blobs.items ≤ 2 ^ 62) },
}

// Fills up to a length.
fn fill_up(bytes: &mut Vec<u8>, fill: u8, end: usize) -> Result<(), AllocError>
    ensures { bytes.new.items ≡
        (if is_ok result then bytes.old.items ++ replicate
        (end - length bytes.old.items) fill else bytes.old.items) }
{
    if bytes.len() < end {
        bytes.resize(end, fill)?;
    }
    Ok(())
}

// Fills up to a place, and appends what of the piece lies past the end.
fn append_over(bytes: &mut Vec<u8>, fill: u8, at: usize, piece: &[u8]) -> Result<usize, AllocError>
    ensures here { IfOk result (λ k. k ≡ min (length bytes.old.items - at) (length piece.now)) }
    ensures ok { IfOk result
        (λ k. bytes.new.items ≡ bytes.old.items ++ replicate
        (at - length bytes.old.items) fill ++ drop k piece.now) }
    ensures err { OnErr result (bytes.new.items ≡ bytes.old.items) }
{
    let old = bytes.len();
    fill_up(bytes, fill, at)?;
    let here = old.saturating_sub(at).min(piece.len());
    if bytes.extend_from_slice(&piece[here..]).is_err() {
        bytes.truncate(old);
        return Err(AllocError);
    }
    Ok(here)
}

// Writes a piece over what is there.
fn overwrite(bytes: &mut [u8], at: usize, piece: &[u8])
    requires { at + length piece.now ≤ length bytes.old }
    ensures { bytes.new ≡ take at bytes.old ++ piece.now ++ drop
        (at + length piece.now) bytes.old }
{
    bytes[at..at + piece.len()].copy_from_slice(piece);
}

/// Writes a piece over what is there, or past its end; a gap is filled.
pub fn write_over(bytes: &mut Vec<u8>, fill: u8, at: usize, piece: &[u8]) -> Result<(), AllocError>
    ensures ok { OnOk result (bytes.new.items ≡ written fill at piece.now bytes.old.items) }
    ensures err { OnErr result (bytes.new.items ≡ bytes.old.items) }
{
    let here = append_over(bytes, fill, at, piece)?;
    overwrite(bytes, at, &piece[..here]);
    Ok(())
}

impl Areas {
    ghost use Rattle.disk_model.specs.Image.{bytes_of, put_in};
    ghost use Rattle.disk_model.specs.Areas.{image_in};

    /// No bytes.
    pub fn new(alloc: Global) -> Areas
        ensures { image_in result ≡ record { log0 = []; log1 = []; blobs = [] } }
    {
        Areas {
            log0: Vec::new(alloc),
            log1: Vec::new(alloc),
            blobs: Vec::new(alloc),
        }
    }

    /// The bytes of an image.
    pub fn of(image: DiskImage) -> Areas
        requires log0 { length image.log0 ≤ 2 ^ 62 }
        requires log1 { length image.log1 ≤ 2 ^ 62 }
        requires blobs { length image.blobs ≤ 2 ^ 62 }
        ensures { image_in result ≡ image }
    {
        let DiskImage { log0, log1, blobs } = image;
        Areas {
            log0: log0.into_vec(),
            log1: log1.into_vec(),
            blobs: blobs.into_vec(),
        }
    }

    /// The bytes of an area.
    pub fn get(&self, area: Area) -> &[u8]
        ensures bytes { result.now ≡ bytes_of area (image_in self.now) }
        ensures bound { length result.now ≤ 2 ^ 62 }
    {
        match area {
            Area::Log0 => &self.log0,
            Area::Log1 => &self.log1,
            Area::Blobs => &self.blobs,
        }
    }

    /// Writes a piece; a gap before it is filled with zeros.
    pub fn write(&mut self, area: Area, at: u64, piece: &[u8]) -> Result<(), AllocError>
        requires { at + length piece.now ≤ 2 ^ 62 }
        ensures ok { OnOk result
            (image_in self.new ≡ put_in area
            (written 0 at piece.now (bytes_of area (image_in self.old))) (image_in self.old)) }
        ensures err { OnErr result (image_in self.new ≡ image_in self.old) }
    {
        let at = at as usize;
        match area {
            Area::Log0 => write_over(&mut self.log0, 0, at, piece),
            Area::Log1 => write_over(&mut self.log1, 0, at, piece),
            Area::Blobs => write_over(&mut self.blobs, 0, at, piece),
        }
    }

    /// Makes an area so long; what it adds is zeros.
    pub fn resize(&mut self, area: Area, len: u64) -> Result<(), AllocError>
        requires { len ≤ 2 ^ 62 }
        ensures ok { OnOk result
            (image_in self.new ≡ put_in area (resized 0 len (bytes_of area (image_in self.old)))
            (image_in self.old)) }
        ensures err { OnErr result (image_in self.new ≡ image_in self.old) }
    {
        let len = len as usize;
        match area {
            Area::Log0 => self.log0.resize(len, 0),
            Area::Log1 => self.log1.resize(len, 0),
            Area::Blobs => self.blobs.resize(len, 0),
        }
    }
}

/// Fills the buffer with the bytes at a place, where they end inside.
pub fn copy_out(bytes: &[u8], at: u64, buf: &mut [u8]) -> bool
    ensures range { IsTrue result ↔ at + length buf.old ≤ length bytes.now }
    ensures yes { OnTrue result (buf.new ≡ take (length buf.old) (drop at bytes.now)) }
    ensures no { OnFalse result (buf.new ≡ buf.old) }
{
    let at = at as usize;
    let inside = at <= bytes.len() && buf.len() <= bytes.len() - at;
    if inside {
        buf.copy_from_slice(&bytes[at..at + buf.len()]);
    }
    inside
}

/// Counts a read that doesn't end inside its area.
pub fn out_of_range(calls: &mut Calls)
    ensures counted { calls.new ≡ record calls.old { faults = raised calls.old.faults } }
    ensures later { calls.old.faults ≤ calls.new.faults }
    ensures rose { Rose calls.old.faults calls.new.faults }
{
    calls.faults = calls.faults.saturating_add(1);
}
