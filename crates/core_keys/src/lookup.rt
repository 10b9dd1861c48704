//! Keys by their ids.

ghost use Rattle.std.specs.Prelude.{◌≡◌, [], Some, IfOk};
ghost use Rattle.std.specs.Option.{option_copied};
ghost use Rattle.rule_table.specs.declared.call.CallName.TheVariants.{DeleteKey as DeleteKeyName};
ghost use Rattle.rule_table.specs.declared.fault.FaultKind.TheVariants as kinds;
ghost use Rattle.b2_types.specs.Fault.{plain};
ghost use Rattle.b2_types.specs.Naming.{nothing};
ghost use Rattle.b2_model.specs.AskKeys.{key_of_id};
ghost use Rattle.b2_model.specs.Checks.{first_fault};
ghost use Rattle.b2_model.specs.Policy.{key_by};
ghost use Rattle.new_versions.specs.Decided.{refused};
ghost use Rattle.policy_rules.specs.Asked.{caller};
ghost use Rattle.core_policy.specs.Rules.{judged_on, rules_on, standing};

use app_keys::{KeyId, check_secret};
use b2_base::{Moment, Text};
use b2_types::{Credentials, Key};
use core_policy::call_for;
use core_state::Core;
use policy_rules::Asker;
use rule_table::{CallName, FaultKind};

/// The key of this id.
pub fn key_of_id<'a>(core: &'a Core, id: &[u8]) -> Option<&'a Key>
    ensures { option_copied result ≡ key_of_id core.now id.now }
{
    core.is_sound();
    let Some(num) = KeyId::read(&core.settings().account, id) else {
        return None;
    };
    core.key(num)
}

/// The key of these credentials, where the secret is its own.
pub fn key_by<'a>(core: &'a Core, credentials: &Credentials) -> Option<&'a Key>
    ensures { option_copied result ≡ key_by core.now credentials.now }
{
    core.is_sound();
    let id = credentials.id.get().as_bytes();
    let Some(num) = KeyId::read(&core.settings().account, id) else {
        return None;
    };
    let Some(key) = core.key(num) else {
        return None;
    };
    if check_secret(key, credentials.secret.get().as_bytes()) {
        Some(key)
    } else {
        None
    }
}

/// The key that is to be deleted, or the first rule of the policy that refuses it, or that there is
/// no such key.
pub(crate) fn key_for<'a>(
    core: &'a Core,
    asker: &Asker<'_>,
    t: Moment,
    id: &Text,
) -> Result<&'a Key, FaultKind>
    ensures rules { refused plain result ≡ first_fault (rules_on core.now t
        (judged_on DeleteKeyName [] nothing) (caller asker.now)
        (standing kinds.NoKey (key_of_id core.now id.now))) }
    ensures found { IfOk result (λ k. key_of_id core.now id.now ≡ Some k.now) }
{
    call_for(core, asker, t, CallName::DeleteKey)?;
    let Some(key) = key_of_id(core, id.get().as_bytes()) else {
        return Err(FaultKind::NoKey);
    };
    Ok(key)
}
