//! The text of a token.

ghost use Rattle.std.specs.Prelude.{◌≡◌, ◌≢◌, ◌<◌, ◌^◌, ℕ, IfOk, IfSome, MatchOption};
ghost use Rattle.b2_base.specs.Digits.{sixteen_digits};
ghost use Rattle.b2_model.specs.LiveGrant.{token_text};
ghost use Rattle.auth_grants.specs.Tokens.{serial_digits};

use b2_base::{Memory, Text, read_sixteen, write_eight, write_sixteen};
use std::alloc::Global;

/// The text of the token that is given under this serial since this boot, with two random words.
pub fn token_text(
    alloc: Global,
    boot: u32,
    serial: u64,
    first: u64,
    second: u64,
) -> Result<Text, Memory>
    ensures { IfOk result (λ t. t ≡ token_text boot serial first second) }
{
    let boot = write_eight(alloc, boot)?;
    let serial = write_sixteen(alloc, serial)?;
    let first = write_sixteen(alloc, first)?;
    let second = write_sixteen(alloc, second)?;
    let text = format!(in alloc; "3_{boot}_{serial}_{first}_{second}")?;
    Ok(Text::of(text))
}

/// The serial that stands in a token's text, after `3_`, the eight digits of the boot and a `_`.
pub(crate) fn serial_in(text: &[u8]) -> Option<u64>
    ensures serial { MatchOption result
        ((n : ℕ) → n < 2 ^ 64 → serial_digits text.now ≢ sixteen_digits n)
        (λ n. serial_digits text.now ≡ sixteen_digits n) }
    ensures range { IfSome result (λ n. n < 2 ^ 64) }
{
    if text.len() < 27 {
        return None;
    }
    read_sixteen(&text[11..27])
}
