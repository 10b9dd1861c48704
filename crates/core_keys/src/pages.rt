//! What a listing of keys shows.

ghost use Rattle.std.specs.Prelude.{◌≡◌, IfOk, drop, map, min, option_map, unwrap_or};
ghost use Rattle.std.specs.Char.{digit_value};
ghost use Rattle.std.specs.Option.{option_copied};
ghost use Rattle.b2_types.specs.KeyId.{key_id};
ghost use Rattle.b2_model.specs.AskKeys.{key_number};
ghost use Rattle.b2_model.specs.Plan.{number_end};
ghost use Rattle.b2_model.specs.Shown.{shown_key};

use app_keys::KeyId;
use b2_base::{KeyNum, List, Memory, Settings, Text};
use b2_types::{ApiVersion, Key, ShownKey};
use shown_values::show_key;
use std::alloc::Global;

fn digit_value(digit: u8) -> u32
    ensures { result ≡ digit_value digit }
{
    (digit as char).to_digit(36).unwrap_or(36)
}

// The digits behind the account in an id.
fn digits_of(id: &[u8]) -> &[u8]
    ensures { result.now ≡ drop 15 id.now }
{
    if id.len() < 15 { &[] } else { &id[15..] }
}

// The number that an id tells, or the last of all where it tells a greater one.
fn number_told(id: &[u8]) -> u32
    ensures { result ≡ min (key_number id.now) number_end }
{
    if id.len() == 12 {
        return 0;
    }
    let digits = digits_of(id);
    let mut number = 0u32;
    for digit in digits {
        number = number
            .saturating_mul(16)
            .saturating_add(digit_value(*digit));
    }
    number
}

/// The number from which a listing shows keys. No key has the last number of all.
pub(crate) fn start_of(start: Option<&Text>) -> KeyNum
    ensures { result
        ≡ min (unwrap_or (option_map key_number (option_copied start.entry)) 0) number_end }
{
    let number = match start {
        Some(id) => number_told(id.get().as_bytes()),
        None => 0,
    };
    KeyNum::new(number).unwrap()
}

/// The keys, each as it is shown.
pub(crate) fn show_keys(
    alloc: Global,
    version: ApiVersion,
    settings: &Settings,
    keys: &[&Key],
) -> Result<List<ShownKey>, Memory>
    ensures { IfOk result (λ rows. rows ≡ map (λ k. shown_key version settings.now k.now) keys.now) }
{
    let mut rows = Vec::new(alloc);
    for key in keys {
        let row = show_key(alloc, version, settings, key)?;
        rows.push(row)?;
    }
    Ok(List::of(rows))
}

/// The id of the next key, where there is one.
pub(crate) fn next_id(
    alloc: Global,
    account: &Text,
    next: Option<&Key>,
) -> Result<Option<Text>, Memory>
    ensures { IfOk result (λ id. id
        ≡ option_map (λ k. key_id account.now k.num) (option_copied next.entry)) }
{
    match next {
        Some(key) => Ok(Some(KeyId::write(alloc, account, key.num)?)),
        None => Ok(None),
    }
}
