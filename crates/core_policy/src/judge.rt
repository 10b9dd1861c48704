//! The policy's rules.

ghost use Rattle.std.specs.Prelude.{◌≡◌, ◌++◌, true};
ghost use Rattle.std.specs.Option.{option_copied};
ghost use Rattle.b2_types.specs.Fault.{plain};
ghost use Rattle.b2_model.specs.Checks.{first_fault};
ghost use Rattle.b2_model.specs.Policy.{call_rules, caller_of, name_rule, token_rules};
ghost use Rattle.new_versions.specs.Decided.{refused};
ghost use Rattle.policy_rules.specs.Asked.{caller, judged};

use b2_base::Moment;
use b2_types::Target;
use core_state::Core;
use policy_rules::{Asked, Asker, call_rule, name_rule, token_rule};
use rule_table::FaultKind;

/// Who asks with this token: its grant and the grant's key, as far as they stand.
pub fn asker_of<'a>(core: &'a Core, token: Option<&'a [u8]>) -> Asker<'a>
    ensures { caller result ≡ caller_of core.now (option_copied token.entry) }
{
    let grant = match token {
        Some(text) => core.grant(text),
        None => None,
    };
    let key = match grant {
        Some(grant) => core.key(grant.key),
        None => None,
    };
    Asker { token, grant, key }
}

/// The first of the rules of the token, the capabilities, the account and the buckets that fails.
pub(crate) fn may_call(
    core: &Core,
    asker: &Asker<'_>,
    asked: &Asked<'_>,
    t: Moment,
) -> Result<(), FaultKind>
    ensures { refused plain result ≡ first_fault
        (token_rules t (judged asked.now).row.tokens (λ g. true) (caller asker.now)
        ++ call_rules core.now (judged asked.now) (caller asker.now)) }
{
    if let Err(denial) = token_rule(asker, asked.need.tokens, Target::Nothing, t) {
        return Err(denial.kind());
    }
    match call_rule(core, asker, asked) {
        Ok(()) => Ok(()),
        Err(denial) => Err(denial.kind()),
    }
}

/// The rule of names, where it fails.
pub(crate) fn may_name(core: &Core, asker: &Asker<'_>, asked: &Asked<'_>) -> Result<(), FaultKind>
    ensures { refused plain result
        ≡ first_fault (name_rule core.now (judged asked.now) (caller asker.now)) }
{
    match name_rule(core, asker, asked) {
        Ok(()) => Ok(()),
        Err(denial) => Err(denial.kind()),
    }
}
