//! Numbers as lower-case hex digits of a fixed length.

ghost use Rattle.std.specs.Prelude.{◌≡◌, ◌≢◌, ◌<◌, ◌^◌, ℕ, string_bytes, IfOk, MatchOption};
ghost use Rattle.b2_base.specs.Digits.{eight_digits, sixteen_digits};

use hex::FromHex;
use std::alloc::{AllocError, Global};

/// The eight digits of the number.
#[tactic(auto, unfolding(crate::specs::Digits::eight_digits))]
pub fn write_eight(alloc: Global, number: u32) -> Result<String, AllocError>
    ensures { IfOk result (λ s. string_bytes s ≡ eight_digits number) }
{
    hex::encode(alloc, number.to_be_bytes())
}

/// The sixteen digits of the number.
#[tactic(auto, unfolding(crate::specs::Digits::sixteen_digits))]
pub fn write_sixteen(alloc: Global, number: u64) -> Result<String, AllocError>
    ensures { IfOk result (λ s. string_bytes s ≡ sixteen_digits number) }
{
    hex::encode(alloc, number.to_be_bytes())
}

/// The number of which these are the eight digits.
pub fn read_eight(text: &[u8]) -> Option<u32>
    ensures { MatchOption result
        ((n : ℕ) → n < 2 ^ 32 → text.now ≢ eight_digits n)
        (λ n. text.now ≡ eight_digits n) }
{
    let Ok(bytes) = <[u8; 4] as FromHex>::from_hex(text) else {
        return None;
    };
    let mut again = [0u8; 8];
    hex::encode_to_slice(&bytes, &mut again).unwrap();
    // Upper-case digits decode too, and are no spelling.
    if text == again.as_slice() {
        Some(u32::from_be_bytes(bytes))
    } else {
        None
    }
}

/// The number of which these are the sixteen digits.
pub fn read_sixteen(text: &[u8]) -> Option<u64>
    ensures { MatchOption result
        ((n : ℕ) → n < 2 ^ 64 → text.now ≢ sixteen_digits n)
        (λ n. text.now ≡ sixteen_digits n) }
{
    let Ok(bytes) = <[u8; 8] as FromHex>::from_hex(text) else {
        return None;
    };
    let mut again = [0u8; 16];
    hex::encode_to_slice(&bytes, &mut again).unwrap();
    if text == again.as_slice() {
        Some(u64::from_be_bytes(bytes))
    } else {
        None
    }
}
