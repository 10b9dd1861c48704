//! The records that stand for a state.

ghost use Rattle.std.specs.Prelude.{◌≡◌, ◌++◌, ◌∷◌, ◌==◌, [], IfOk, OnOk, Some, filter, flat_map, map, not};
ghost use Rattle.b2_types.specs.declared.record.ChangeOf.TheVariants as change;
ghost use Rattle.b2_model.specs.Stored.{numbers_of, record_at, replay, snapshot, stored_part, version_records};

use crate::copies::{copy_bucket, copy_key, copy_settings, numbers_of};
use crate::numbered::by_number;
use crate::of_version::{add, add_version};
use b2_base::{Memory, Moment};
use b2_types::{Bucket, ChangeOf, Key, Record};
use core_state::Core;
use std::alloc::Global;

// The record of the settings.
fn add_settings(alloc: Global, records: &mut Vec<Record>, core: &Core) -> Result<(), Memory>
    ensures { OnOk result (records.new.items ≡ records.old.items
        ++ record_at core.now.kept (change.Settings core.now.settings) ∷ []) }
{
    let settings = copy_settings(alloc, core.settings())?;
    add(records, core.kept(), ChangeOf::Settings(settings))
}

// The record of a bucket.
fn add_bucket(
    alloc: Global,
    records: &mut Vec<Record>,
    t: Moment,
    bucket: &Bucket,
) -> Result<(), Memory>
    ensures { OnOk result (records.new.items
        ≡ records.old.items ++ record_at t (change.BucketMake bucket.now) ∷ []) }
{
    let bucket = copy_bucket(alloc, bucket)?;
    add(records, t, ChangeOf::BucketMake(bucket))
}

// The records of the buckets.
fn add_buckets(alloc: Global, records: &mut Vec<Record>, core: &Core) -> Result<(), Memory>
    ensures { OnOk result (records.new.items ≡ records.old.items
        ++ map (λ b. record_at core.now.kept (change.BucketMake b)) core.now.buckets) }
{
    for bucket in core.buckets() {
        add_bucket(alloc, records, core.kept(), bucket)?;
    }
    Ok(())
}

// The records of the versions.
fn add_versions(alloc: Global, records: &mut Vec<Record>, core: &Core) -> Result<(), Memory>
    ensures { OnOk result (records.new.items
        ≡ records.old.items ++ flat_map version_records core.now.versions) }
{
    let versions = by_number(alloc, core)?;
    for version in &versions {
        add_version(alloc, records, version)?;
    }
    Ok(())
}

// The record of a key, where it is not the master key.
fn add_key(alloc: Global, records: &mut Vec<Record>, t: Moment, key: &Key) -> Result<(), Memory>
    ensures { OnOk result (records.new.items ≡ records.old.items
        ++ map (λ k. record_at t (change.KeyMake k))
        (filter (λ k. not (k.num == 0)) (key.now ∷ []))) }
{
    if key.num.get() == 0 {
        return Ok(());
    }
    let key = copy_key(alloc, key)?;
    add(records, t, ChangeOf::KeyMake(key))
}

// The records of the keys but the master key.
fn add_keys(alloc: Global, records: &mut Vec<Record>, core: &Core) -> Result<(), Memory>
    ensures { OnOk result (records.new.items ≡ records.old.items
        ++ map (λ k. record_at core.now.kept (change.KeyMake k))
        (filter (λ k. not (k.num == 0)) core.now.keys)) }
{
    for key in core.keys().values() {
        add_key(alloc, records, core.kept(), key)?;
    }
    Ok(())
}

// The record of the numbers.
fn add_numbers(records: &mut Vec<Record>, core: &Core) -> Result<(), Memory>
    ensures { OnOk result (records.new.items ≡ records.old.items
        ++ record_at core.now.kept (change.SnapState (numbers_of core.now)) ∷ []) }
{
    add(records, core.kept(), ChangeOf::SnapState(numbers_of(core)))
}

// The records, one after the other.
fn all_records(alloc: Global, core: &Core) -> Result<Vec<Record>, Memory>
    ensures { IfOk result (λ records. records.items ≡ snapshot (stored_part core.now)) }
{
    let mut records = Vec::new(alloc);
    add_settings(alloc, &mut records, core)?;
    add_buckets(alloc, &mut records, core)?;
    add_versions(alloc, &mut records, core)?;
    add_keys(alloc, &mut records, core)?;
    add_numbers(&mut records, core)?;
    Ok(records)
}

/// The records that stand for the state: from them a store gets its stored part again.
pub fn snapshot(alloc: Global, core: &Core) -> Result<Vec<Record>, Memory>
    ensures records { IfOk result (λ records. records.items ≡ snapshot (stored_part core.now)) }
    ensures replay { IfOk result (λ records. replay records.items ≡ Some (stored_part core.now)) }
{
    core.is_sound();
    let records = all_records(alloc, core)?;
    Ok(records)
}
