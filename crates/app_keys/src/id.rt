//! Ids of keys.

ghost use Rattle.std.specs.Prelude.{◌≡◌, ◌≢◌, ◌<◌, ◌^◌, ℕ, List as TheList, length, IfOk, MatchOption};
ghost use Rattle.b2_types.specs.KeyId.{key_id};
ghost use Rattle.b2_model.specs.AskKeys.{key_number};
ghost use Rattle.app_keys.specs.Keys.{long_id};

use b2_base::{KeyNum, Memory, Text, behind, read_eight, write_eight};
use std::alloc::Global;

/// The ids of keys: the account's id for the master key; else `001`, the account's id and ten hex digits of
/// the number. This spelling is the store's own.
#[derive(Clone, Copy, Debug, PartialEq, Eq)]
pub struct KeyId;

impl KeyId {
    /// The id of the key of this number in the account.
    pub fn write(alloc: Global, account: &Text, key: KeyNum) -> Result<Text, Memory>
        ensures { IfOk result (λ t. t ≡ key_id account.now key) }
    {
        if key.get() == 0 {
            return Text::copy(alloc, account.get());
        }
        let account = account.get();
        let digits = write_eight(alloc, key.get())?;
        let text = format!(in alloc; "001{account}00{digits}")?;
        Ok(Text::of(text))
    }

    /// The number of the key of the account whose id these bytes are.
    pub fn read(account: &Text, id: &[u8]) -> Option<KeyNum>
        ensures { MatchOption result
            ((key : ℕ) → key < 2 ^ 32 → id.now ≢ key_id account.now key)
            (λ key. id.now ≡ key_id account.now key) }
    {
        if id == account.get().as_bytes() {
            return KeyNum::new(0);
        }
        let Some(number) = limited_number(account.get().as_bytes(), id) else {
            return None;
        };
        KeyNum::new(number)
    }

    /// The number that an id tells, whatever its account, which has 12 digits.
    pub fn number(id: &[u8]) -> Option<KeyNum>
        ensures { MatchOption result
            ((account : TheList ℕ) (key : ℕ) → length account ≡ 12 → key < 2 ^ 32
            → id.now ≢ key_id account key)
            (λ key. key ≡ key_number id.now) }
    {
        if id.len() == 12 {
            return KeyNum::new(0);
        }
        if id.len() != 25 {
            return None;
        }
        let Some(digits) = behind(b"00", &id[15..]) else {
            return None;
        };
        let Some(number) = read_eight(digits) else {
            return None;
        };
        KeyNum::new(number)
    }
}

// The number, above 0, of the key of the account that isn't the master key.
fn limited_number(account: &[u8], id: &[u8]) -> Option<u32>
    ensures { MatchOption result
        ((key : ℕ) → 0 < key → key < 2 ^ 32 → id.now ≢ long_id account.now key)
        (λ key. (0 < key) × (id.now ≡ long_id account.now key)) }
{
    let Some(rest) = behind(b"001", id) else {
        return None;
    };
    let Some(rest) = behind(account, rest) else {
        return None;
    };
    let Some(digits) = behind(b"00", rest) else {
        return None;
    };
    let Some(number) = read_eight(digits) else {
        return None;
    };
    if number == 0 {
        return None;
    }
    Some(number)
}
