//! What the key that asks may read.

ghost use Rattle.std.specs.Prelude.{◌≡◌};
ghost use Rattle.std.specs.Option.{option_copied};
ghost use Rattle.b2_model.specs.Shown.{may};

use b2_types::Key;
use rule_table::Cap;

/// Whether the key has the capability; where no key asks, as for a file of a public bucket, none is
/// had.
pub fn may_read(key: Option<&Key>, cap: Cap) -> bool
    ensures { result ≡ may (option_copied key.entry) cap }
{
    match key {
        Some(key) => key.caps.has(cap),
        None => false,
    }
}
