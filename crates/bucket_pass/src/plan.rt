//! The plan of a bucket.

ghost use Rattle.std.specs.Prelude.{◌≡◌, ℕ, List, [], IfOk, IsTrue, option_map};
ghost use Rattle.std.specs.List.{list_all};
ghost use Rattle.b2_base.specs.declared.extent.Extent.{Extent as Place};
ghost use Rattle.b2_types.specs.LifecycleRules.{has_days};
ghost use Rattle.b2_model.specs.Pass.{names_in, pass_names};
ghost use Rattle.b2_model.specs.Rows.{rows};
ghost use Rattle.b2_model.specs.State.{State};
ghost use Rattle.lifecycle_pass.specs.Names.{AreNumbered};
ghost use Rattle.index_rows.specs.OwnRows.{AreOwn, of_bucket};
ghost use Rattle.bucket_pass.specs.Changes.{AreChanges, after_changes};
ghost use Rattle.bucket_pass.specs.Walked.{Stands};

use crate::walk::{NamePlan, Walk};
use b2_base::{List as Items, Memory, Moment, VersionNum};
use b2_types::{Bucket, Version};
use std::alloc::Global;
use version_index::Index;

// The walk over all rows of the bucket.
fn walked<'a>(
    alloc: Global,
    index: &'a Index<Version>,
    bucket: &Bucket,
    t: Moment,
    next: u64,
    last: VersionNum,
) -> Result<Walk<'a>, Memory>
    requires own { AreOwn index.now }
    requires days { IsTrue (list_all has_days bucket.now.rules) }
    ensures { IfOk result (λ w. Stands t bucket.now last next (of_bucket bucket.now.num index.now)
        [] (option_map (λ n. n.now) w.name) w.faces.items w.next w.changes.items) }
{
    let mut walk = Walk::new(alloc, next);
    for (spot, version) in index.from_bucket(alloc, bucket.num) {
        if spot.bucket != bucket.num {
            return Ok(walk);
        }
        walk.step(alloc, bucket, version, t, last)?;
    }
    Ok(walk)
}

/// What a pass at the moment does to the bucket, whose rows stand in the index: the names that it
/// changes, by their bytes. `next` is the number of the next version, and may stand one above the last
/// that can be given: then no name is hidden. Where names are hidden, their markers take the numbers
/// from `next` on in this order. It is one walk over the rows of the bucket.
pub fn plan_bucket(
    alloc: Global,
    index: &Index<Version>,
    bucket: &Bucket,
    t: Moment,
    next: u64,
    last: VersionNum,
) -> Result<Items<NamePlan>, Memory>
    requires own { AreOwn index.now }
    requires days { IsTrue (list_all has_days bucket.now.rules) }
    ensures changes { IfOk result (λ changes. (M : State Place) → M.settings.last_version ≡ last
        → of_bucket bucket.now.num index.now ≡ rows M bucket.now.num
        → AreChanges t bucket.now M next changes) }
    ensures pass { IfOk result (λ changes. (M : State Place) → AreNumbered M
        → M.next_version ≡ next → M.settings.last_version ≡ last
        → of_bucket bucket.now.num index.now ≡ rows M bucket.now.num
        → pass_names t bucket.now (names_in (rows M bucket.now.num)) M
        ≡ after_changes t bucket.now.num changes M) }
{
    let mut walk = walked(alloc, index, bucket, t, next, last)?;
    walk.end_name(alloc, bucket, t, last)?;
    Ok(Items::of(walk.changes()))
}
