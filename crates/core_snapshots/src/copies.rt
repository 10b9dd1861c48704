//! Copies of what the records of a snapshot hold.

ghost use Rattle.std.specs.Prelude.{◌≡◌, IfOk};
ghost use Rattle.b2_model.specs.Plan.{id_of};
ghost use Rattle.b2_model.specs.Stored.{as_new, numbers_of};

use b2_base::{List, Memory, Settings, Text};
use b2_types::{Bucket, Key, NewVersion, Numbers, Version, VersionId};
use bucket_state::copy_rules;
use core_state::Core;
use new_versions::{copy_info, copy_name};
use std::alloc::Global;

/// The same settings.
pub(crate) fn copy_settings(alloc: Global, settings: &Settings) -> Result<Settings, Memory>
    ensures { IfOk result (λ s. s ≡ settings.now) }
{
    Ok(Settings {
        account: Text::copy(alloc, settings.account.get())?,
        secret_hash: settings.secret_hash,
        url: Text::copy(alloc, settings.url.get())?,
        part_min: settings.part_min,
        last_version: settings.last_version,
        area_end: settings.area_end,
    })
}

/// The same bucket.
pub(crate) fn copy_bucket(alloc: Global, bucket: &Bucket) -> Result<Bucket, Memory>
    ensures { IfOk result (λ b. b ≡ bucket.now) }
{
    Ok(Bucket {
        num: bucket.num,
        name: bucket_state::copy_name(alloc, &bucket.name)?,
        public: bucket.public,
        revision: bucket.revision,
        lock: bucket.lock,
        default: bucket.default,
        info: copy_info(alloc, Some(&bucket.info))?,
        rules: copy_rules(alloc, bucket.rules.get())?,
    })
}

/// The same key.
pub(crate) fn copy_key(alloc: Global, key: &Key) -> Result<Key, Memory>
    ensures { IfOk result (λ k. k ≡ key.now) }
{
    let buckets = key.buckets.get().to_vec(alloc)?;
    Ok(Key {
        num: key.num,
        name: Text::copy(alloc, key.name.get())?,
        caps: key.caps,
        buckets: List::of(buckets),
        prefix: Text::copy(alloc, key.prefix.get())?,
        end: key.end,
        hash: key.hash,
    })
}

/// What the version was made from.
pub(crate) fn as_new(alloc: Global, version: &Version) -> Result<NewVersion, Memory>
    ensures { IfOk result (λ new. new ≡ as_new version.now) }
{
    Ok(NewVersion {
        bucket: version.bucket,
        num: version.num,
        name: copy_name(alloc, &version.name)?,
        kind: Text::copy(alloc, version.kind.get())?,
        info: copy_info(alloc, Some(&version.info))?,
        retention: version.retention,
        hold: version.hold,
    })
}

/// The version by its number.
pub(crate) fn id_of(version: &Version) -> VersionId
    ensures { result ≡ id_of version.now }
{
    VersionId {
        bucket: version.bucket,
        num: version.num,
    }
}

/// The numbers of the store.
pub(crate) fn numbers_of(core: &Core) -> Numbers
    ensures { result ≡ numbers_of core.now }
{
    Numbers {
        pass_day: core.pass_day(),
        boot: core.boot(),
        next_bucket: core.next_bucket(),
        next_key: core.next_key(),
        next_version: core.next_version(),
    }
}
