//! The images of short runs, and what a disk of bytes alone reads.

use b2_base::{Blob, Memory};
use disk_model::{Area, Disk, DiskImage, FlatDisk, MemDisk};
use outside_traits::Failed;
use std::alloc::Global;
use std::test::Fail;

fn done(call: Result<(), Failed>) -> bool {
    call.is_ok()
}

// The contents' area of each image, with a dot after each.
fn contents(alloc: Global, images: &[DiskImage]) -> Result<Vec<u8>, Memory> {
    let mut all = Vec::new(alloc);
    for image in images {
        all.extend_from_slice(image.blobs.get())?;
        all.push(b'.')?;
    }
    Ok(all)
}

#[test]
fn three_images_of_a_write(rt: HostRuntime) -> Result<(), Fail> {
    let alloc = rt.alloc();
    let mut disk = MemDisk::new(alloc, Vec::new(alloc))?;
    assert!(rt; done(disk.write_at(Area::Blobs, 0, b"a")));
    let images = disk.images(alloc, 0)?;
    assert_eq!(rt;
        contents(alloc, &images)?.as_slice(),
        b"a..\x01.".as_slice()
    );
    assert!(rt; done(disk.sync(Area::Blobs)));
    let images = disk.images(alloc, 1)?;
    assert_eq!(rt; contents(alloc, &images)?.as_slice(), b"a.a.a.".as_slice());
    // A gap is filled as the write is, and a cut is kept or dropped.
    assert!(rt; done(disk.write_at(Area::Blobs, 3, b"d")));
    assert!(rt; done(disk.cut(Area::Blobs, 2)));
    let images = disk.images(alloc, 2)?;
    let wanted = b"a\x00\x00d.a.a\x01\x01\x01.a\x00.a.a\x01.";
    assert_eq!(rt; contents(alloc, &images)?.as_slice(), wanted.as_slice());
    Ok(())
}

#[test]
fn a_listed_call_fails(rt: HostRuntime) -> Result<(), Fail> {
    let alloc = rt.alloc();
    for call in 1..=4 {
        let mut disk = MemDisk::new(alloc, vec![in alloc; call]?)?;
        let wrote = done(disk.write_at(Area::Blobs, 0, b"a"));
        let synced = done(disk.sync(Area::Blobs));
        let mut byte = [0];
        let read = done(disk.read(Area::Blobs, 0, &mut byte));
        let long = disk.len(Area::Blobs).is_ok();
        assert_eq!(rt;
            [wrote, synced, read, long],
            [call != 1, call != 2, call != 3, call != 4]
        );
        let images = disk.images(alloc, 3)?;
        let wanted: &[u8] = if call == 2 { b"a..\x01." } else { b"a.a.a." };
        assert_eq!(rt; contents(alloc, &images)?.as_slice(), wanted);
        assert_eq!(rt; disk.short(), 0);
    }
    Ok(())
}

#[test]
fn bytes_alone(rt: HostRuntime) -> Result<(), Fail> {
    let alloc = rt.alloc();
    let image = DiskImage {
        log0: Blob::copy(alloc, b"zero")?,
        log1: Blob::copy(alloc, b"one")?,
        blobs: Blob::copy(alloc, b"")?,
    };
    let mut disk = FlatDisk::new(alloc, image);
    assert!(rt; done(disk.write_at(Area::Log0, 2, b"al!")));
    assert!(rt; done(disk.cut(Area::Log1, 1)));
    let mut bytes = [0; 5];
    assert!(rt; done(disk.read(Area::Log0, 0, &mut bytes)));
    assert_eq!(rt; bytes, *b"zeal!");
    assert!(rt; !done(disk.read(Area::Log0, 1, &mut bytes)));
    assert_eq!(rt; disk.len(Area::Log1).unwrap_or(0), 1);
    Ok(())
}
