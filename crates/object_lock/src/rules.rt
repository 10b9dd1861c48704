//! What is protected, and what governance asks for.

ghost use Rattle.std.specs.Prelude.{◌≡◌};
ghost use Rattle.b2_model.specs.Checks.{first_fault};
ghost use Rattle.b2_model.specs.Locks.{active_retention, governance_rules};
ghost use Rattle.b2_types.specs.Denied.{denied};

use b2_base::Moment;
use b2_types::{Action, Denial, Retention, Version};

/// The retention of an upload that is active.
pub(crate) fn active_retention(version: &Version, t: Moment) -> Option<Retention>
    ensures { result ≡ active_retention t version.now }
{
    let Action::Upload = version.action else {
        return None;
    };
    let Some(retention) = version.retention else {
        return None;
    };
    if t.get() < retention.until.get() {
        Some(retention)
    } else {
        None
    }
}

/// Governance stands in the way of who did not ask to bypass it, and of who may not.
pub(crate) fn governance(governs: bool, asked: bool, may: bool) -> Result<(), Denial>
    ensures { denied result ≡ first_fault (governance_rules governs asked may) }
{
    let is_unasked = governs & !asked;
    if is_unasked {
        return Err(Denial::P13);
    }
    let is_unheld = governs & asked & !may;
    if is_unheld {
        return Err(Denial::P14);
    }
    Ok(())
}
