//! The ids of application keys.

ghost use Rattle.std.specs.Prelude.{◌≡◌, IfOk};
ghost use Rattle.b2_types.specs.KeyId.{key_id};

use b2_base::{KeyNum, Memory, Text, write_eight};
use std::alloc::Global;

/// The id of the key with this number in the account.
pub fn key_id(alloc: Global, account: &str, num: KeyNum) -> Result<Text, Memory>
    ensures { IfOk result (λ t. t ≡ key_id account.now num) }
{
    if num.get() == 0 {
        return Text::copy(alloc, account);
    }
    let digits = write_eight(alloc, num.get())?;
    let id = format!(in alloc; "001{account}00{digits}")?;
    Ok(Text::of(id))
}
