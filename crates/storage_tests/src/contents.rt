//! Uploads, readers and copies of a store's contents.

use b2_base::Extent;
use disk_model::{Disk, MemDisk};
use sha1::Sha1;
use std::alloc::Global;
use std::test::Fail;
use stored_contents::Contents;

// Stores a content under a number, in two pieces.
fn stored<D: Disk>(
    alloc: Global,
    contents: &mut Contents,
    disk: &mut D,
    c: u64,
    bytes: &[u8],
) -> Option<Extent> {
    let (front, back) = bytes.split_at(bytes.len() / 2);
    contents.begin(alloc, disk, c, bytes.len() as u64).ok()?;
    contents.piece(disk, c, front).ok()?;
    contents.piece(disk, c, back).ok()?;
    let whole = contents.seal(disk, c).ok()??;
    if whole.digest != Sha1::digest(bytes) {
        return None;
    }
    Some(whole.extent)
}

// Whether the reader of the number gets these bytes from a place on, at most so many.
fn gets<D: Disk>(
    alloc: Global,
    contents: &Contents,
    disk: &mut D,
    c: u64,
    at: u64,
    most: usize,
    wanted: &[u8],
) -> bool {
    match contents.read_out(alloc, disk, c, at, most) {
        Ok(bytes) => *bytes == *wanted,
        Err(_) => false,
    }
}

#[test]
fn read_after_their_release(rt: HostRuntime) -> Result<(), Fail> {
    let alloc = rt.alloc();
    let mut disk = MemDisk::new(alloc, Vec::new(alloc))?;
    let mut contents = Contents::new(alloc, &disk, 1 << 20)?;
    let first = stored(alloc, &mut contents, &mut disk, 1, b"first").ok_or("first")?;
    let second = stored(alloc, &mut contents, &mut disk, 2, b"second").ok_or("second")?;
    assert_eq!(rt; (first.at, second.at), (0, 4_096));
    contents.start_reading(alloc, &disk, 7, &[first, second], 3, 5)?;
    contents.release(&disk, &[first, second])?;
    let third = stored(alloc, &mut contents, &mut disk, 1, b"third").ok_or("third")?;
    assert_eq!(rt; third.at, 8_192);
    assert!(rt; gets(alloc, &contents, &mut disk, 7, 0, 2, b"st"));
    assert!(rt; gets(alloc, &contents, &mut disk, 7, 2, 9, b"sec"));
    assert!(rt; gets(alloc, &contents, &mut disk, 7, 5, 9, b""));
    assert!(rt; gets(alloc, &contents, &mut disk, 8, 0, 9, b""));
    contents.end_reading(&disk, 7)?;
    assert!(rt; gets(alloc, &contents, &mut disk, 7, 0, 9, b""));
    let again = stored(alloc, &mut contents, &mut disk, 1, b"again").ok_or("again")?;
    assert_eq!(rt; again.at, 0);
    Ok(())
}

#[test]
fn copied(rt: HostRuntime) -> Result<(), Fail> {
    let alloc = rt.alloc();
    let mut disk = MemDisk::new(alloc, Vec::new(alloc))?;
    let mut contents = Contents::new(alloc, &disk, 1 << 20)?;
    let first = stored(alloc, &mut contents, &mut disk, 1, b"first").ok_or("first")?;
    let second = stored(alloc, &mut contents, &mut disk, 2, b"second").ok_or("second")?;
    let Ok(Some(whole)) = contents.copy(alloc, &mut disk, &[first, second], 3, 5) else {
        return Err(Fail::from("copy"));
    };
    assert_eq!(rt; (whole.extent.at, whole.extent.len), (8_192, 5));
    assert_eq!(rt; whole.digest, Sha1::digest(b"stsec"));
    contents.start_reading(alloc, &disk, 7, &[whole.extent], 0, 5)?;
    assert!(rt; gets(alloc, &contents, &mut disk, 7, 0, 9, b"stsec"));
    assert!(rt; matches!(contents.copy(alloc, &mut disk, &[first], 3, 5), Ok(None)));
    Ok(())
}

#[test]
fn bytes_behind_a_content(rt: HostRuntime) -> Result<(), Fail> {
    let alloc = rt.alloc();
    let mut disk = MemDisk::new(alloc, Vec::new(alloc))?;
    let mut contents = Contents::new(alloc, &disk, 1 << 20)?;
    assert!(rt; contents.begin(alloc, &disk, 1, 3).is_ok());
    assert!(rt; contents.piece(&mut disk, 1, b"ab").is_ok());
    assert!(rt; matches!(contents.seal(&mut disk, 1), Ok(None)));
    assert!(rt; contents.piece(&mut disk, 1, b"cdef").is_ok());
    assert!(rt; contents.piece(&mut disk, 2, b"none").is_ok());
    assert_eq!(rt; (contents.came(&disk, 1), contents.came(&disk, 2)), (6, 0));
    let Ok(Some(whole)) = contents.seal(&mut disk, 1) else {
        return Err(Fail::from("seal"));
    };
    assert!(rt; *whole.rest == *b"def".as_slice());
    assert_eq!(rt; whole.digest, Sha1::digest(b"abc"));
    assert!(rt; matches!(contents.seal(&mut disk, 1), Ok(None)));
    Ok(())
}
