//! The rules of a deletion: P11 to P14.

ghost use Rattle.std.specs.Prelude.{◌≡◌};
ghost use Rattle.std.specs.Option.{option_copied};
ghost use Rattle.b2_model.specs.Checks.{first_fault, some_and};
ghost use Rattle.b2_model.specs.Kinds.{is_compliance, is_governance};
ghost use Rattle.b2_model.specs.Locks.{deletion_rules, is_held};
ghost use Rattle.b2_types.specs.Denied.{denied};

use crate::rules::{active_retention, governance};
use b2_base::Moment;
use b2_types::{Action, Denial, Mode, Retention, Version};

fn is_held(version: &Version) -> bool
    ensures { result ≡ is_held version.now }
{
    matches!(version.action, Action::Upload) & version.hold
}

fn is_under_compliance(retention: Option<&Retention>) -> bool
    ensures { result ≡ some_and (λ r. is_compliance r.mode) (option_copied retention.entry) }
{
    match retention {
        Some(retention) => matches!(retention.mode, Mode::Compliance),
        None => false,
    }
}

fn is_under_governance(retention: Option<&Retention>) -> bool
    ensures { result ≡ some_and (λ r. is_governance r.mode) (option_copied retention.entry) }
{
    match retention {
        Some(retention) => matches!(retention.mode, Mode::Governance),
        None => false,
    }
}

/// The first of the rules P11 to P14 that fails where the version is deleted: `asked` says that a bypass of
/// governance is asked for, and `may` that the key has the right to it.
pub fn may_delete(version: &Version, t: Moment, asked: bool, may: bool) -> Result<(), Denial>
    ensures { denied result ≡ first_fault (deletion_rules t version.now asked may) }
{
    if is_held(version) {
        return Err(Denial::P11);
    }
    let active = active_retention(version, t);
    if is_under_compliance(active.as_ref()) {
        return Err(Denial::P12);
    }
    governance(is_under_governance(active.as_ref()), asked, may)
}
