//! Accounts that are shown.

ghost use Rattle.std.specs.Prelude.{◌≡◌, map, Option, option_map, IfOk};
ghost use Rattle.std.specs.Option.{option_copied};
ghost use Rattle.b2_base.specs.declared.extent.Extent.{Extent as TheExtent};
ghost use Rattle.b2_model.specs.State.{State, bucket_at};
ghost use Rattle.b2_model.specs.Shown.{shown_account, shown_limit};

use b2_base::{BucketNum, List, Memory, Settings, Text};
use b2_types::{ApiVersion, Bucket, Key, ShownAccount, ShownLimit};
use bucket_state::copy_name;
use name_rules::BucketName;
use std::alloc::Global;

fn name_of(alloc: Global, bucket: Option<&Bucket>) -> Result<Option<BucketName>, Memory>
    ensures { IfOk result (λ n. n ≡ option_map (λ b. b.name) (option_copied bucket.entry)) }
{
    match bucket {
        Some(bucket) => Ok(Some(copy_name(alloc, &bucket.name)?)),
        None => Ok(None),
    }
}

/// A bucket that a key is limited to, by its number and what stands of that number.
pub fn show_limit(
    alloc: Global,
    num: BucketNum,
    bucket: Option<&Bucket>,
) -> Result<ShownLimit, Memory>
    ensures { IfOk result (λ s. (M : State TheExtent)
        → bucket_at M num ≡ option_copied bucket.entry → s ≡ shown_limit M num) }
{
    let name = name_of(alloc, bucket)?;
    Ok(ShownLimit { bucket: num, name })
}

/// What a token of this key may do, with the buckets that the key is limited to.
pub fn show_account(
    alloc: Global,
    version: ApiVersion,
    settings: &Settings,
    key: &Key,
    limits: List<ShownLimit>,
    token: Text,
) -> Result<ShownAccount, Memory>
    ensures { IfOk result (λ s. (M : State TheExtent) → M.settings ≡ settings.now
        → map (shown_limit M) key.now.buckets ≡ limits
        → s ≡ shown_account version M key.now token) }
{
    let account = Text::copy(alloc, settings.account.get())?;
    let url = Text::copy(alloc, settings.url.get())?;
    let prefix = Text::copy(alloc, key.prefix.get())?;
    Ok(ShownAccount {
        version,
        account,
        token,
        url,
        part_min: settings.part_min,
        caps: key.caps,
        buckets: limits,
        prefix,
        end: key.end,
    })
}
