//! The rules of the capabilities, the account and the buckets: P7 to P9.

ghost use Rattle.std.specs.Prelude.{◌≡◌, ◌++◌, not, bytes_eq};
ghost use Rattle.std.specs.Option.{option_copied};
ghost use Rattle.std.specs.List.{list_all};
ghost use Rattle.rule_table.specs.CapSet.{has};
ghost use Rattle.b2_model.specs.Checks.{first_fault, some_and};
ghost use Rattle.b2_model.specs.Policy.{call_rules, lacks};
ghost use Rattle.policy_rules.specs.Asked.{caller, judged};
ghost use Rattle.b2_types.specs.Denied.{denied};

use crate::asked::{Asked, Asker};
use crate::known::Known;
use crate::place::{is_any_outside, is_for_downloads, limits};
use b2_types::{Denial, Key};
use rule_table::Cap;

fn has_all(key: &Key, caps: &[Cap]) -> bool
    ensures { result ≡ list_all (has key.now.caps) caps.now }
{
    caps.iter().all(|cap| key.caps.has(*cap))
}

// Whether there is a key that lacks one of the capabilities.
fn lacks(asker: &Asker<'_>, asked: &Asked<'_>) -> bool
    ensures { result ≡ some_and (lacks (asked.now.need.caps.now ++ asked.now.more.now))
        (option_copied asker.now.key) }
{
    match asker.key {
        Some(key) => !(has_all(key, asked.need.caps) & has_all(key, asked.more)),
        None => false,
    }
}

fn is_other_account<K: Known>(known: &K, account: Option<&[u8]>) -> bool
    ensures { result ≡ some_and (λ a. not (bytes_eq a (K.state known.now).settings.account))
        (option_copied account.entry) }
{
    match account {
        Some(account) => account != known.account().get().as_bytes(),
        None => false,
    }
}

/// The first of the rules P7 to P9 that fails. A download token is judged by its own bucket, and by no
/// capability.
pub fn call_rule<K: Known>(known: &K, asker: &Asker<'_>, asked: &Asked<'_>) -> Result<(), Denial>
    ensures { denied result
        ≡ first_fault (call_rules (K.state known.now) (judged asked.now) (caller asker.now)) }
{
    let is_lacking = !is_for_downloads(asker) & lacks(asker, asked);
    if is_lacking {
        return Err(Denial::P7);
    }
    if is_other_account(known, asked.fields.account) {
        return Err(Denial::P8);
    }
    let numbers = limits(asker);
    let is_outside = !numbers.is_empty()
        & is_any_outside(known, numbers, &asked.fields, asked.need.things);
    if is_outside {
        return Err(Denial::P9);
    }
    Ok(())
}
