//! Which records apply.

ghost use Rattle.std.specs.Prelude.{◌≡◌, ◌==◌, ◌&&◌, not, true};
ghost use Rattle.std.specs.Option.{is_some, is_none};
ghost use Rattle.std.specs.List.{list_any};
ghost use Rattle.b2_types.specs.declared.record.ChangeOf.TheVariants as change;
ghost use Rattle.b2_types.specs.LifecycleRules.{are_rules};
ghost use Rattle.b2_model.specs.Kinds.{is_start, is_upload};
ghost use Rattle.b2_model.specs.Policy.{is_same_name};
ghost use Rattle.b2_model.specs.State.{bucket_at, key_at};
ghost use Rattle.b2_model.specs.Stored.{applies_change, is_large, is_number, may_be, may_make, stands};

use b2_base::{BucketNum, Extent, KeyNum, VersionNum};
use b2_types::{Action, Bucket, ChangeOf, Key, Mark, Numbers, Rule, VersionId};
use core_state::Core;
use lifecycle_pass::rules_ok;
use std::alloc::Global;

// Whether a bucket or a key may have the number: the first and the last are never given.
fn is_number(num: u32) -> bool
    ensures { result ≡ is_number num }
{
    (num != 0) & (num < u32::MAX)
}

fn has_bucket(core: &Core, num: BucketNum) -> bool
    ensures { result ≡ is_some (bucket_at core.now num) }
{
    match core.bucket(num) {
        Some(_) => true,
        None => false,
    }
}

fn has_key(core: &Core, num: KeyNum) -> bool
    ensures { result ≡ is_some (key_at core.now num) }
{
    match core.key(num) {
        Some(_) => true,
        None => false,
    }
}

fn are_rules(rules: &[Rule]) -> bool
    ensures { result ≡ are_rules rules.now }
{
    match rules_ok(rules) {
        Ok(()) => true,
        Err(_) => false,
    }
}

// Whether this is another bucket, of the same name without regard to case.
fn has_its_name(other: &Bucket, bucket: &Bucket) -> bool
    ensures { result ≡ (not (other.now.num == bucket.now.num)
        && is_same_name other.now.name bucket.now.name) }
{
    let is_same = other
        .name
        .get()
        .as_bytes()
        .eq_ignore_ascii_case(bucket.name.get().as_bytes());
    (other.num.get() != bucket.num.get()) & is_same
}

// Whether another bucket has the name.
fn is_taken(buckets: &[Bucket], bucket: &Bucket) -> bool
    ensures { result ≡ list_any (λ a. not (a.num == bucket.now.num)
        && is_same_name a.name bucket.now.name) buckets.now }
{
    buckets.iter().any(|other| has_its_name(other, bucket))
}

fn may_be(core: &Core, bucket: &Bucket) -> bool
    ensures { result ≡ may_be core.now bucket.now }
{
    !is_taken(core.buckets(), bucket) & are_rules(bucket.rules.get())
}

// Whether a version of this bucket and number may be made.
fn may_make(core: &Core, bucket: BucketNum, num: VersionNum) -> bool
    ensures { result ≡ may_make core.now bucket num }
{
    has_bucket(core, bucket) & (num.get() != 0) & !core.has_number(num)
}

fn stands(core: &Core, id: VersionId) -> bool
    ensures { result ≡ stands core.now id (λ v. true) }
{
    match core.version(id.bucket, id.num) {
        Some(_) => true,
        None => false,
    }
}

fn is_start(core: &Core, id: VersionId) -> bool
    ensures { result ≡ stands core.now id (λ v. is_start v.action) }
{
    match core.version(id.bucket, id.num) {
        Some(version) => matches!(version.action, Action::Start),
        None => false,
    }
}

fn is_upload(core: &Core, id: VersionId) -> bool
    ensures { result ≡ stands core.now id (λ v. is_upload v.action) }
{
    match core.version(id.bucket, id.num) {
        Some(version) => matches!(version.action, Action::Upload),
        None => false,
    }
}

// Whether it is a large file that was finished.
fn is_large(core: &Core, id: VersionId) -> bool
    ensures { result ≡ stands core.now id (λ v. is_large v.mark && is_upload v.action) }
{
    match core.version(id.bucket, id.num) {
        Some(version) => {
            matches!(version.mark, Mark::Large) & matches!(version.action, Action::Upload)
        }
        None => false,
    }
}

// Whether no number of a snapshot is below that of the state.
fn may_take(core: &Core, numbers: Numbers) -> bool
    ensures { result ≡ applies_change core.now (change.SnapState numbers) }
{
    (core.next_bucket().get() <= numbers.next_bucket.get())
        & (core.next_key().get() <= numbers.next_key.get())
        & (core.next_version() <= numbers.next_version)
}

fn may_make_key(core: &Core, key: &Key) -> bool
    ensures { result ≡ applies_change core.now (change.KeyMake key.now) }
{
    is_number(key.num.get()) & !has_key(core, key.num)
}

/// Whether the change applies to the state. The settings stand first, before any state, and never
/// apply.
pub fn applies(alloc: Global, core: &Core, change: &ChangeOf<Extent>) -> bool
    ensures { result ≡ applies_change core.now change.now }
{
    match change {
        ChangeOf::Settings(_) => false,
        ChangeOf::Boot(boot) => core.boot() < *boot,
        ChangeOf::Pass => true,
        ChangeOf::BucketMake(bucket) => {
            is_number(bucket.num.get()) & !has_bucket(core, bucket.num) & may_be(core, bucket)
        }
        ChangeOf::BucketUpdate(bucket) => has_bucket(core, bucket.num) & may_be(core, bucket),
        ChangeOf::BucketDrop(num) => has_bucket(core, *num) & !core.has_versions(alloc, *num),
        ChangeOf::Upload(new, ..) => may_make(core, new.bucket, new.num),
        ChangeOf::Hide(id, _) => may_make(core, id.bucket, id.num),
        ChangeOf::Start(new) => may_make(core, new.bucket, new.num),
        ChangeOf::PartPut(id, ..) => is_start(core, *id),
        ChangeOf::Finish(id, _) => is_start(core, *id),
        ChangeOf::Cancel(id) => is_start(core, *id),
        ChangeOf::VersionDrop(id) => stands(core, *id),
        ChangeOf::Retain(id, _) => is_upload(core, *id),
        ChangeOf::Hold(id, _) => is_upload(core, *id),
        ChangeOf::KeyMake(key) => may_make_key(core, key),
        ChangeOf::KeyDrop(num) => (num.get() != 0) & has_key(core, *num),
        ChangeOf::SnapState(numbers) => may_take(core, *numbers),
        ChangeOf::SnapLarge(new) => may_make(core, new.bucket, new.num),
        ChangeOf::SnapExtents(id, _) => is_large(core, *id),
    }
}
