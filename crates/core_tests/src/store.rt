//! A store in memory and its random words.

ghost use Rattle.std.specs.Prelude.{◌≡◌, ◌≤◌, IfOk};
ghost use Rattle.b2_base.specs.declared.numbers.TheConstants.{LAST_VERSION};

use crate::steps::write_once;
use b2_base::{Memory, Moment, Settings, Text};
use b2_types::{ChangeOf, RecordOf};
use core_state::Core;
use outside_traits::ListWords;
use sha2::{Digest, Sha256};
use std::alloc::Global;

fn settings(alloc: Global, last_version: u32) -> Result<Settings, Memory>
    ensures { IfOk result (λ settings. settings.last_version ≤ LAST_VERSION) }
{
    Ok(Settings {
        account: Text::copy(alloc, "a1b2c3d4e5f6")?,
        secret_hash: Sha256::digest("mastersecret01"),
        url: Text::copy(alloc, "http://127.0.0.1:8080")?,
        part_min: 10,
        last_version: u64::from(last_version),
        area_end: 1_000_000,
    })
}

/// The random words: 1, 2 and so on.
pub(crate) fn words(alloc: Global) -> Result<ListWords, Memory> {
    let mut words = Vec::new(alloc);
    for word in 1..100u64 {
        words.push(word)?;
    }
    Ok(ListWords::new(words))
}

/// A store that was made and opened once at 0, and is open, which gives version numbers up to the
/// last.
pub(crate) fn opened(alloc: Global, last: u32) -> Result<Core, Memory> {
    let settings = settings(alloc, last)?;
    let at = Moment::from_reading(0);
    let core = Core::new(alloc, settings, at)?;
    let change = ChangeOf::Boot(1);
    let (core, _) = write_once(alloc, core, RecordOf { at, change })?;
    Ok(core)
}
