//! The versions of a state, in the order of the index and by number.

ghost use Rattle.std.specs.Prelude.{◌≡◌, IfOk, map};
ghost use Rattle.std.specs.List.Sorted.{IsPermutation};
ghost use Rattle.std.specs.Map.Iter.{ShowsInOrder, deref_pair};
ghost use Rattle.b2_base.specs.declared.extent.Extent.{Extent as TheExtent};
ghost use Rattle.b2_types.specs.declared.version.VersionOf.{VersionOf as TheVersion};
ghost use Rattle.version_index.specs.declared.spot.Spot.{Spot as Place};
ghost use Rattle.core_snapshots.specs.Rows.{AreAllRows};

use b2_base::{BucketNum, Memory};
use b2_types::Version;
use core_state::Core;
use std::alloc::Global;
use std::collections::btree_map::Range;
use version_index::Spot;

/// The rows of all buckets in listing order.
pub(crate) fn all_rows<'a>(alloc: Global, core: &'a Core) -> Range<'a, Spot, Version>
    ensures rows { AreAllRows core.now result }
    ensures runs { ShowsInOrder (deref_pair {K = Place} {X = TheVersion TheExtent}) }
{
    let first = BucketNum::new(0).unwrap();
    core.index().from_bucket(alloc, first)
}

// The versions in listing order.
fn listed<'a>(alloc: Global, core: &'a Core) -> Result<Vec<&'a Version>, Memory>
    ensures { IfOk result
        (λ versions. IsPermutation (map (λ v. v.now) versions.items) core.now.versions) }
{
    let mut versions = Vec::with_capacity(alloc, core.count())?;
    for (_, version) in all_rows(alloc, core) {
        versions.push(version)?;
    }
    Ok(versions)
}

/// The versions by number.
pub(crate) fn by_number<'a>(alloc: Global, core: &'a Core) -> Result<Vec<&'a Version>, Memory>
    ensures { IfOk result (λ versions. map (λ v. v.now) versions.items ≡ core.now.versions) }
{
    core.is_sound();
    let mut versions = listed(alloc, core)?;
    versions.sort_unstable_by_key(|version| version.num.get());
    Ok(versions)
}
