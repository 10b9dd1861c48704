//! Contents come in pieces.

use blob_extents::Blobs;
use disk_model::{Area, Disk};
use sha1::Sha1;
use std::alloc::Global;

/// The bytes of a piece.
pub const PIECE: usize = 65_536;

// A piece, of bytes that are not all the same.
fn piece(alloc: Global) -> Option<Vec<u8>> {
    let mut bytes = Vec::with_capacity(alloc, PIECE).ok()?;
    for i in 0..PIECE {
        bytes.push((i % 251) as u8).ok()?;
    }
    Some(bytes)
}

// Hashes one content; the first byte of its digest.
fn hash_one(piece: &[u8], pieces: u64) -> u64 {
    let mut hasher = Sha1::new();
    for _ in 0..pieces {
        hasher.update(piece);
    }
    u64::from(hasher.finalize()[0])
}

/// Hashes so many contents of so many pieces, and writes none of them.
pub fn hash(alloc: Global, pieces: u64, times: u64) -> Option<u64> {
    let piece = piece(alloc)?;
    let mut sum = 0u64;
    for _ in 0..times {
        sum = sum.wrapping_add(hash_one(&piece, pieces));
    }
    Some(sum)
}

// Writes one content at a place, and syncs it.
fn write_one<D: Disk>(disk: &mut D, piece: &[u8], pieces: u64, at: u64) -> Option<()> {
    let mut at = at;
    for _ in 0..pieces {
        if at > (1 << 62) - PIECE as u64 || piece.len() > PIECE {
            return None;
        }
        disk.write_at(Area::Blobs, at, piece).ok()?;
        at += piece.len() as u64;
    }
    disk.sync(Area::Blobs).ok()
}

/// Writes so many contents of so many pieces one after the other, and hashes none of them.
pub fn write<D: Disk>(alloc: Global, disk: &mut D, pieces: u64, times: u64) -> Option<u64> {
    let piece = piece(alloc)?;
    let len = pieces.checked_mul(PIECE as u64)?;
    for number in 0..times {
        write_one(disk, &piece, pieces, len.checked_mul(number)?)?;
    }
    Some(times)
}

// Stores one content; the first byte of its digest.
fn store_one<D: Disk>(blobs: &mut Blobs, disk: &mut D, piece: &[u8], pieces: u64) -> Option<u64> {
    let len = pieces.checked_mul(piece.len() as u64)?;
    let mut staging = blobs.begin(len).ok()?;
    for _ in 0..pieces {
        if staging.missing() < piece.len() as u64 {
            return None;
        }
        staging = staging.push(disk, piece).ok()?;
    }
    if staging.missing() > 0 {
        return None;
    }
    let sealed = staging.seal(disk).ok()?;
    let first = sealed.digest()[0];
    let _kept = blobs.keep(sealed).ok()?;
    Some(u64::from(first))
}

/// Stores so many contents of so many pieces.
pub fn store<D: Disk>(alloc: Global, disk: &mut D, pieces: u64, times: u64) -> Option<u64> {
    let piece = piece(alloc)?;
    let (mut blobs, _none) = Blobs::from_used(alloc, &[], 1 << 62).ok()?;
    let mut sum = 0u64;
    for _ in 0..times {
        sum = sum.wrapping_add(store_one(&mut blobs, disk, &piece, pieces)?);
    }
    Some(sum)
}
