//! Copies of names and of information.

ghost use Rattle.std.specs.Prelude.{◌≡◌, [], IfOk, unwrap_or};
ghost use Rattle.std.specs.Option.{option_copied};

use b2_base::{Memory, Text};
use name_rules::{FileName, InfoPairs, info_pairs};
use std::alloc::Global;

/// The same name.
pub fn copy_name(alloc: Global, name: &FileName) -> Result<FileName, Memory>
    ensures { IfOk result (λ n. n ≡ name.now) }
{
    let text = Text::copy(alloc, name.get())?;
    Ok(FileName::of(text))
}

// The same pairs: they are arranged already, and none of them breaks a rule.
fn kept_info(alloc: Global, info: &InfoPairs) -> Result<InfoPairs, Memory>
    ensures { IfOk result (λ i. i ≡ info.now) }
{
    match info_pairs(alloc, info.get()) {
        Ok(info) => Ok(info),
        Err(_) => Err(Memory),
    }
}

fn no_info(alloc: Global) -> Result<InfoPairs, Memory>
    ensures { IfOk result (λ i. i ≡ []) }
{
    match info_pairs(alloc, &[]) {
        Ok(info) => Ok(info),
        Err(_) => Err(Memory),
    }
}

/// The same pairs, or none.
pub fn copy_info(alloc: Global, info: Option<&InfoPairs>) -> Result<InfoPairs, Memory>
    ensures { IfOk result (λ i. i ≡ unwrap_or (option_copied info.entry) []) }
{
    match info {
        Some(info) => kept_info(alloc, info),
        None => no_info(alloc),
    }
}
