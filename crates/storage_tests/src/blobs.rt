//! Where contents stand, what stays of them when the disk fails, and the end of the area.

ghost use Rattle.std.specs.Prelude.{IfSome};
ghost use Rattle.blob_extents.specs.States.{kept_extent};
ghost use Rattle.blob_extents.specs.Uses.{IsInUse};

use b2_base::Or;
use blob_extents::{Blobs, Kept, read_after_release};
use disk_model::{Disk, DiskImage, MemDisk};
use extent_space::AreaEnd;
use sha1::Sha1;
use std::test::Fail;

// Stores a content, in two pieces.
fn stored<D: Disk>(blobs: &mut Blobs, disk: &mut D, bytes: &[u8]) -> Option<Kept>
    ensures { IfSome result (λ k. IsInUse blobs.new (kept_extent k)) }
{
    let (front, back) = bytes.split_at(bytes.len() / 2);
    let Ok(staging) = blobs.begin(bytes.len() as u64) else {
        return None;
    };
    if staging.missing() < front.len() as u64 {
        return None;
    }
    let Ok(staging) = staging.push(disk, front) else {
        return None;
    };
    if staging.missing() != back.len() as u64 {
        return None;
    }
    let Ok(staging) = staging.push(disk, back) else {
        return None;
    };
    let Ok(sealed) = staging.seal(disk) else {
        return None;
    };
    if sealed.digest() != Sha1::digest(bytes) {
        return None;
    }
    let Ok(kept) = blobs.keep(sealed) else {
        return None;
    };
    Some(kept)
}

#[test]
fn places(rt: HostRuntime) -> Result<(), Fail> {
    let alloc = rt.alloc();
    let mut disk = MemDisk::new(alloc, Vec::new(alloc))?;
    let (mut blobs, _none) = Blobs::from_used(alloc, &[], 1 << 20)?;
    let long = vec![in alloc; b'l'; 4_097]?;
    let first = stored(&mut blobs, &mut disk, b"f").ok_or("first")?;
    let second = stored(&mut blobs, &mut disk, &long).ok_or("second")?;
    let Some(third) = stored(&mut blobs, &mut disk, b"t") else {
        return Err(Fail::from("third"));
    };
    assert_eq!(rt; (first.extent().at, first.extent().len), (0, 1));
    assert_eq!(rt; (second.extent().at, second.extent().len), (4_096, 4_097));
    assert_eq!(rt; (third.extent().at, third.extent().len), (12_288, 1));
    blobs.release(third)?;
    let again = stored(&mut blobs, &mut disk, b"a").ok_or("again")?;
    assert_eq!(rt; again.extent().at, 12_288);
    Ok(())
}

#[test]
fn released_while_read(rt: HostRuntime) -> Result<(), Fail> {
    let alloc = rt.alloc();
    let mut disk = MemDisk::new(alloc, Vec::new(alloc))?;
    let (mut blobs, _none) = Blobs::from_used(alloc, &[], 1 << 20)?;
    let Some(kept) = stored(&mut blobs, &mut disk, b"kept") else {
        return Err(Fail::from("kept"));
    };
    if kept.extent().len != 4 {
        return Err(Fail::from("length"));
    }
    let mut bytes = [0; 4];
    assert!(rt; read_after_release(&mut blobs, &mut disk, kept, b"other", 0, &mut bytes));
    assert_eq!(rt; bytes, *b"kept");
    // The one that is read at the front, then the other.
    let next = stored(&mut blobs, &mut disk, b"next").ok_or("next")?;
    assert_eq!(rt; next.extent().at, 8_192);
    Ok(())
}

// How many of the images have the content at the front of its area.
fn having(images: &[DiskImage], content: &[u8]) -> usize {
    images
        .iter()
        .filter(|image| image.blobs.get().starts_with(content))
        .count()
}

#[test]
fn each_call_fails(rt: HostRuntime) -> Result<(), Fail> {
    let alloc = rt.alloc();
    // Three calls store a content. With none that fails the sixth is the last.
    for call in 1..=7 {
        let mut disk = MemDisk::new(alloc, vec![in alloc; call]?)?;
        let (mut blobs, _none) = Blobs::from_used(alloc, &[], 1 << 20)?;
        let first = stored(&mut blobs, &mut disk, b"first").is_some();
        let second = stored(&mut blobs, &mut disk, b"second").is_some();
        assert_eq!(rt; (first, second), (call > 3, call <= 3 || call == 7));
        // From its sync on every image has the first.
        let images = disk.images(alloc, 2)?;
        if first {
            assert_eq!(rt; having(&images, b"first"), images.len());
        }
    }
    Ok(())
}

#[test]
fn end_of_the_area(rt: HostRuntime) -> Result<(), Fail> {
    let alloc = rt.alloc();
    let (mut blobs, _none) = Blobs::from_used(alloc, &[], 4_096)?;
    assert!(rt; matches!(blobs.begin(4_097), Err(Or::Fault(AreaEnd))));
    let Ok(whole) = blobs.begin(4_096) else {
        return Err(Fail::from("whole"));
    };
    blobs.give_up(whole.spend())?;
    assert!(rt; blobs.begin(4_096).is_ok());
    assert!(rt; matches!(blobs.begin(1), Err(Or::Fault(AreaEnd))));
    assert!(rt; blobs.begin(0).is_ok());
    Ok(())
}
