//! The lifecycle pass.

ghost use Rattle.std.specs.Prelude.{◌≡◌, ◌≤◌, ◌<◌, ◌++◌, [], Some, true, IfOk, OnOk, IsSome, if◌then◌else◌, length, slice_get};
ghost use Rattle.b2_base.specs.declared.numbers.TheConstants.{LAST_VERSION};
ghost use Rattle.b2_types.specs.declared.bucket.Bucket.{Bucket as TheBucket};
ghost use Rattle.b2_types.specs.declared.record.ChangeOf.TheVariants as change;
ghost use Rattle.b2_model.specs.Changes.{after_record};
ghost use Rattle.b2_model.specs.Pass.{names_in, pass_names};
ghost use Rattle.b2_model.specs.Rows.{rows};
ghost use Rattle.b2_model.specs.State.{bucket_at};
ghost use Rattle.b2_model.specs.Version.{marker, with_version, without_version};
ghost use Rattle.lifecycle_pass.specs.Names.{after_plan};
ghost use Rattle.bucket_pass.specs.Changes.{after_changes};
ghost use Rattle.core_records.specs.GivenUp.{Conserves, held_at};
ghost use Rattle.core_records.specs.Steps.{HaveRoom, without_numbers};

use b2_base::{BucketNum, Extent, List, Memory, Moment, VersionNum};
use b2_types::VersionId;
use bucket_pass::{NamePlan, plan_bucket};
use core_state::{Core, contents_in};
use new_versions::copy_name;
use std::alloc::Global;

// Takes away the version, where it stands, and appends what it holds.
fn take(
    alloc: Global,
    core: &mut Core,
    id: VersionId,
    freed: &mut Vec<Extent>,
) -> Result<(), Memory>
    ensures state { OnOk result (core.new ≡ without_version id core.old) }
    ensures freed { OnOk result (freed.new.items ≡ freed.old.items ++ held_at id core.old) }
{
    let Some(version) = core.take_version(alloc, id) else {
        return Ok(());
    };
    let pieces = contents_in(alloc, &version)?;
    freed.extend_from_slice(pieces.get())?;
    Ok(())
}

// Takes away one version in a pass.
fn take_one(
    alloc: Global,
    core: &mut Core,
    id: VersionId,
    freed: &mut Vec<Extent>,
) -> Result<(), Memory>
    ensures state { OnOk result (core.new ≡ without_version id core.old) }
    ensures freed { OnOk result (Conserves freed.old.items core.old freed.new.items core.new) }
{
    core.is_sound();
    take(alloc, core, id, freed)?;
    Ok(())
}

// Takes away the versions of these numbers.
fn take_all(
    alloc: Global,
    core: &mut Core,
    bucket: BucketNum,
    nums: &[VersionNum],
    freed: &mut Vec<Extent>,
) -> Result<(), Memory>
    ensures state { OnOk result (core.new ≡ without_numbers bucket nums.now core.old) }
    ensures freed { OnOk result (Conserves freed.old.items core.old freed.new.items core.new) }
{
    for num in nums {
        take_one(alloc, core, VersionId { bucket, num: *num }, freed)?;
    }
    Ok(())
}

// The state where the name is hidden, if the plan hides it.
fn hidden(
    alloc: Global,
    core: Core,
    bucket: BucketNum,
    plan: &NamePlan,
    t: Moment,
) -> Result<Core, Memory>
    requires stands { IsSome (bucket_at core bucket) }
    requires room { plan.now.plan.hide ≡ true → core.next_version ≤ LAST_VERSION }
    ensures { IfOk result (λ next. next ≡ (if plan.now.plan.hide
        then with_version (marker bucket core.next_version plan.now.name t) core else core)) }
{
    if !plan.plan.hide {
        return Ok(core);
    }
    let name = copy_name(alloc, &plan.name)?;
    let core = core.hide_name(alloc, t, bucket, name)?;
    Ok(core)
}

// The state after the plan of a name.
fn on_name(
    alloc: Global,
    core: Core,
    bucket: BucketNum,
    plan: &NamePlan,
    t: Moment,
    freed: &mut Vec<Extent>,
) -> Result<Core, Memory>
    requires stands { IsSome (bucket_at core bucket) }
    requires room { plan.now.plan.hide ≡ true → core.next_version ≤ LAST_VERSION }
    ensures state { IfOk result (λ next. next
        ≡ after_plan t bucket plan.now.name plan.now.plan core) }
    ensures freed { IfOk result (λ next. Conserves freed.old.items core freed.new.items next) }
{
    let mut core = hidden(alloc, core, bucket, plan, t)?;
    take_all(alloc, &mut core, bucket, plan.plan.cancels.get(), freed)?;
    take_all(alloc, &mut core, bucket, plan.plan.drops.get(), freed)?;
    Ok(core)
}

// The state after the plans of a bucket.
fn on_names(
    alloc: Global,
    core: Core,
    bucket: BucketNum,
    plans: &[NamePlan],
    t: Moment,
    freed: &mut Vec<Extent>,
) -> Result<Core, Memory>
    requires stands { IsSome (bucket_at core bucket) }
    requires room { HaveRoom LAST_VERSION core.next_version plans.now }
    ensures state { IfOk result (λ next. next ≡ after_changes t bucket plans.now core) }
    ensures freed { IfOk result (λ next. Conserves freed.old.items core freed.new.items next) }
{
    let mut core = core;
    'plans: for plan in plans {
        core = on_name(alloc, core, bucket, plan, t, freed)?;
    }
    Ok(core)
}

// The number of the bucket at this place, and what a pass does to it.
fn planned(
    alloc: Global,
    core: &Core,
    at: usize,
    t: Moment,
) -> Result<(BucketNum, List<NamePlan>), Memory>
    requires { at < length core.now.buckets }
    ensures stands { IfOk result (λ plan. IsSome (bucket_at core.now plan.0)) }
    ensures room { IfOk result (λ plan. HaveRoom LAST_VERSION core.now.next_version plan.1) }
    ensures state { IfOk result (λ plan. (b : TheBucket) → slice_get core.now.buckets at ≡ Some b
        → pass_names t b (names_in (rows core.now b.num)) core.now
        ≡ after_changes t plan.0 plan.1 core.now) }
{
    core.is_sound();
    let bucket = &core.buckets()[at];
    let last = core.last_version();
    let plans = plan_bucket(alloc, core.index(), bucket, t, core.next_version(), last)?;
    Ok((bucket.num, plans))
}

// The state after the pass on the bucket at this place.
fn on_bucket(
    alloc: Global,
    core: Core,
    at: usize,
    t: Moment,
    freed: &mut Vec<Extent>,
) -> Result<Core, Memory>
    requires { at < length core.buckets }
    ensures state { IfOk result (λ next. (b : TheBucket) → slice_get core.buckets at ≡ Some b
        → next ≡ pass_names t b (names_in (rows core b.num)) core) }
    ensures freed { IfOk result (λ next. Conserves freed.old.items core freed.new.items next) }
{
    let (bucket, plans) = planned(alloc, &core, at, t)?;
    let core = on_names(alloc, core, bucket, plans.get(), t, freed)?;
    Ok(core)
}

/// The state after a pass at the moment, and the extents that it gives up.
pub(crate) fn pass(alloc: Global, core: Core, t: Moment) -> Result<(Core, List<Extent>), Memory>
    ensures state { IfOk result (λ made. made.0
        ≡ after_record core (record { at = t; change = change.Pass })) }
    ensures freed { IfOk result (λ made. Conserves [] core made.1 made.0) }
{
    let mut core = core;
    let mut freed = Vec::new(alloc);
    let mut at = 0;
    'buckets: while at < core.buckets().len() {
        core = on_bucket(alloc, core, at, t, &mut freed)?;
        at += 1;
    }
    core.end_pass(t);
    Ok((core, List::of(freed)))
}
