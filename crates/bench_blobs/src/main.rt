//! Streams contents and takes room, for bench/blobs.sh: `bench_blobs WHAT SIZE TIMES FOLDER`. It prints the
//! sum of what it got each time: a byte of a digest, or the number of a block.
#![tactic(auto)]

ghost use Rattle.std.specs.Prelude.{◌≡◌, IfSome, length};

mod file_disk;
mod room;
mod stream;

use b2_base::Blob;
use disk_model::{DiskImage, FlatDisk};
use file_disk::FileDisk;
use room::{take_and_return, with_holes};
use std::alloc::Global;
use std::env;
use std::process::ExitCode;
use std::rt::Env;
use stream::{PIECE, hash, store, write};

// What the words after the program's name ask for.
#[derive(Drop)]
struct Order {
    what: String,
    size: u64,
    times: u64,
    folder: String,
}

fn words<R: Env + AllocGlobal>(rt: &R) -> Option<Order> {
    let args = env::args(rt).ok()?;
    let mut words = args.skip(1);
    let what = words.next()?;
    let size = words.next()?.parse::<u64>().ok()?;
    let times = words.next()?.parse::<u64>().ok()?;
    let folder = words.next()?;
    Some(Order {
        what,
        size,
        times,
        folder,
    })
}

// So many bytes, whose memory is there.
fn bytes(alloc: Global, count: u64) -> Option<Vec<u8>>
    ensures { IfSome result (λ bytes. length bytes.items ≡ count) }
{
    vec![in alloc; 1; count as usize].ok()
}

// A disk in memory whose area of contents has so many bytes already.
fn flat(alloc: Global, count: u64) -> Option<FlatDisk> {
    if count > 1 << 40 {
        return None;
    }
    let image = DiskImage {
        log0: Blob::of(Vec::new(alloc)),
        log1: Blob::of(Vec::new(alloc)),
        blobs: Blob::of(bytes(alloc, count)?),
    };
    Some(FlatDisk::new(alloc, image))
}

fn done(rt: &HostRuntime, order: &Order) -> Option<u64> {
    let alloc = rt.alloc();
    let pieces = order.size / PIECE as u64;
    match order.what.as_str() {
        "none" => Some(0),
        "hash" => hash(alloc, pieces, order.times),
        "write_flat" => write(alloc, &mut flat(alloc, order.size)?, pieces, order.times),
        "store_flat" => store(alloc, &mut flat(alloc, order.size)?, pieces, order.times),
        "write_file" => {
            let mut disk = FileDisk::make(rt, order.folder.as_str())?;
            write(alloc, &mut disk, pieces, order.times)
        }
        "store_file" => {
            let mut disk = FileDisk::make(rt, order.folder.as_str())?;
            store(alloc, &mut disk, pieces, order.times)
        }
        "first_hole" => take_and_return(&mut with_holes(alloc, order.size)?, 1, order.times),
        "past_holes" => {
            let mut space = with_holes(alloc, order.size)?;
            take_and_return(&mut space, order.size.saturating_add(1), order.times)
        }
        _ => None,
    }
}

fn main(rt: HostRuntime) -> ExitCode {
    let Some(order) = words(&rt) else {
        return ExitCode::from(1);
    };
    let Some(sum) = done(&rt, &order) else {
        return ExitCode::from(2);
    };
    match println!(rt; "{sum}") {
        Ok(()) => ExitCode::from(0),
        Err(_) => ExitCode::from(6),
    }
}
