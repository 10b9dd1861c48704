//! Buckets that are shown.

ghost use Rattle.std.specs.Prelude.{◌≡◌, Some, IfOk};
ghost use Rattle.std.specs.Option.{option_copied};
ghost use Rattle.b2_model.specs.Shown.{if_may, may, shown_bucket};
ghost use Rattle.rule_table.specs.declared.cap.Cap.TheVariants as cap;
ghost use Rattle.b2_types.specs.declared.shown.ShownLock.{ShownLock as TheShownLock};

use crate::reads::may_read;
use b2_base::{Memory, Settings, Text};
use b2_types::{Bucket, Key, ShownBucket, ShownLock};
use bucket_state::{copy_name, copy_rules};
use new_versions::copy_info;
use rule_table::Cap;
use std::alloc::Global;

fn lock_of(key: Option<&Key>, bucket: &Bucket) -> Option<ShownLock>
    ensures { result ≡ if_may (may (option_copied key.entry) cap.ReadBucketRetentions)
        (record { enabled = bucket.now.lock; default = bucket.now.default }) }
{
    if !may_read(key, Cap::ReadBucketRetentions) {
        return None;
    }
    Some(ShownLock {
        enabled: bucket.lock,
        default: bucket.default,
    })
}

/// The bucket as the answer to a call of this key shows it: its lock is withheld from a key that may
/// not read retentions.
pub fn show_bucket(
    alloc: Global,
    settings: &Settings,
    key: Option<&Key>,
    bucket: &Bucket,
) -> Result<ShownBucket, Memory>
    ensures { IfOk result
        (λ s. s ≡ shown_bucket settings.now (option_copied key.entry) bucket.now) }
{
    let account = Text::copy(alloc, settings.account.get())?;
    let name = copy_name(alloc, &bucket.name)?;
    let info = copy_info(alloc, Some(&bucket.info))?;
    let rules = copy_rules(alloc, bucket.rules.get())?;
    Ok(ShownBucket {
        account,
        num: bucket.num,
        name,
        public: bucket.public,
        revision: bucket.revision,
        lock: lock_of(key, bucket),
        info,
        rules,
    })
}
