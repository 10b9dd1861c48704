//! An index of versions.

ghost use Rattle.std.specs.Prelude.{◌≡◌, ◌+◌, IfSome};
ghost use Rattle.index_rows.specs.OwnRows.{AreOwn, spot_of};
ghost use Rattle.bench_index.specs.Fresh.{AreBelow};

use crate::names::{name_at, place_at};
use b2_base::{Blob, BucketNum, List, Moment, Text, VersionNum};
use b2_types::{Action, Mark, Version};
use name_rules::{FileName, InfoPairs, file_name, info_pairs};
use std::alloc::Global;
use version_index::{Index, Spot};

fn no_info(alloc: Global) -> Option<InfoPairs> {
    info_pairs(alloc, &[]).ok()
}

fn checked_name(alloc: Global, bytes: &[u8]) -> Option<FileName>
    ensures { IfSome result (λ n. n ≡ bytes.now) }
{
    file_name(alloc, bytes).ok()
}

// An upload without content.
fn upload(alloc: Global, spot: &Spot) -> Option<Version>
    ensures { IfSome result (λ v. spot_of v ≡ spot.now) }
{
    let name = checked_name(alloc, spot.name.get())?;
    let kind = Text::copy(alloc, "image/jpeg").ok()?;
    let info = no_info(alloc)?;
    Some(Version {
        bucket: spot.bucket,
        num: spot.num,
        name,
        action: Action::Upload,
        stamp: Moment::from_reading(0),
        kind,
        info,
        content: List::of(Vec::new(alloc)),
        mark: Mark::Verified,
        digest: [0; 20],
        retention: None,
        hold: false,
        parts: List::of(Vec::new(alloc)),
    })
}

// One version more, whose number is above all others.
fn add(alloc: Global, index: &mut Index<Version>, turn: u64, rows: u64) -> Option<()>
    requires below { AreBelow turn index.old }
    requires own { AreOwn index.old }
    ensures below { IfSome result (λ _. AreBelow (turn + 1) index.new) }
    ensures own { IfSome result (λ _. AreOwn index.new) }
{
    let num = VersionNum::new(turn)?;
    let bucket = BucketNum::new(1)?;
    let name = Blob::of(name_at(alloc, place_at(turn, rows), rows)?);
    let spot = Spot { bucket, name, num };
    let version = upload(alloc, &spot)?;
    match index.insert(spot, version) {
        Ok(()) => {}
        Err(_) => return None,
    }
    Some(())
}

/// So many versions, which come in no order.
pub fn versions_of(alloc: Global, rows: u64) -> Option<Index<Version>>
    ensures { IfSome result (λ index. AreOwn index) }
{
    let mut index = Index::new(alloc);
    for turn in 0..rows {
        add(alloc, &mut index, turn, rows)?;
    }
    Some(index)
}
