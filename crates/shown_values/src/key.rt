//! Keys that are shown.

ghost use Rattle.std.specs.Prelude.{◌≡◌, IfOk};
ghost use Rattle.b2_model.specs.Shown.{shown_key};

use b2_base::{List, Memory, Settings, Text};
use b2_types::{ApiVersion, Key, ShownKey};
use std::alloc::Global;

/// The key, without its secret, in the form of this version of the API.
pub fn show_key(
    alloc: Global,
    version: ApiVersion,
    settings: &Settings,
    key: &Key,
) -> Result<ShownKey, Memory>
    ensures { IfOk result (λ s. s ≡ shown_key version settings.now key.now) }
{
    let account = Text::copy(alloc, settings.account.get())?;
    let name = Text::copy(alloc, key.name.get())?;
    let buckets = key.buckets.get().to_vec(alloc)?;
    let prefix = Text::copy(alloc, key.prefix.get())?;
    Ok(ShownKey {
        version,
        account,
        num: key.num,
        name,
        caps: key.caps,
        buckets: List::of(buckets),
        prefix,
        end: key.end,
    })
}
