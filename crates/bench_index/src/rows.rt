//! An index of numbers.

ghost use Rattle.std.specs.Prelude.{◌≡◌, ◌+◌, ◌<◌, IfSome};
ghost use Rattle.bench_index.specs.Fresh.{AreBelow};

use crate::names::{name_at, place_at};
use b2_base::{Blob, BucketNum, LAST_VERSION, VersionNum};
use std::alloc::Global;
use std::sync::ledger::{Blank, Ledger};
use version_index::{Index, Spot, Steps};

/// The spot of the name at this place, with this number.
pub fn spot_at(alloc: Global, place: u64, rows: u64, num: VersionNum) -> Option<Spot>
    ensures { IfSome result (λ s. s.num ≡ num) }
{
    let bucket = BucketNum::new(1)?;
    let name = Blob::of(name_at(alloc, place, rows)?);
    Some(Spot { bucket, name, num })
}

// One row more, whose number is above all others.
fn add(alloc: Global, index: &mut Index<u64>, turn: u64, rows: u64) -> Option<()>
    requires { AreBelow turn index.old }
    ensures { IfSome result (λ _. AreBelow (turn + 1) index.new) }
{
    let num = VersionNum::new(turn)?;
    let s = spot_at(alloc, place_at(turn, rows), rows, num)?;
    match index.insert(s, turn) {
        Ok(()) => {}
        Err(_) => return None,
    }
    Some(())
}

/// So many rows, which come in no order.
pub fn index_of(alloc: Global, rows: u64) -> Option<Index<u64>> {
    let mut index = Index::new(alloc);
    for turn in 0..rows {
        add(alloc, &mut index, turn, rows)?;
    }
    Some(index)
}

/// Seeks so many rows, and gives the sum of what stands there.
pub fn seek<L: Ledger>(
    alloc: Global,
    index: &Index<u64>,
    blank: Blank,
    rows: u64,
    times: u64,
) -> Option<u64>
    requires name { blank.name ≡ L.name }
    requires parts { blank.parts ≡ L.parts }
    requires some { 0 < L.parts }
{
    let mut steps = Steps::<L>::new(blank);
    let last = VersionNum::new(LAST_VERSION)?;
    let mut sum = 0u64;
    for turn in 0..times {
        let s = spot_at(alloc, place_at(turn, rows), rows, last)?;
        let (_, value) = index.seek(&s, &mut steps)?;
        sum = sum.wrapping_add(*value);
    }
    Some(sum)
}
