//! The rules of a change of retention: P12 to P14.

ghost use Rattle.std.specs.Prelude.{◌≡◌, ◌&&◌, not};
ghost use Rattle.std.specs.Option.{option_copied};
ghost use Rattle.b2_model.specs.Checks.{first_fault, some_and};
ghost use Rattle.b2_model.specs.Kinds.{is_compliance, is_governance};
ghost use Rattle.b2_model.specs.Locks.{active_retention, keeps_compliance, keeps_governance, retention_rules};
ghost use Rattle.b2_types.specs.Denied.{denied};

use crate::rules::{active_retention, governance};
use b2_base::Moment;
use b2_types::{Denial, Mode, Retention, Version};

// Whether the new retention takes something from one of compliance.
fn breaks_compliance(old: Option<&Retention>, new: Option<&Retention>) -> bool
    ensures { result ≡ some_and
        (λ r. is_compliance r.mode && not (keeps_compliance r (option_copied new.entry)))
        (option_copied old.entry) }
{
    let Some(old) = old else {
        return false;
    };
    if matches!(old.mode, Mode::Governance) {
        return false;
    }
    match new {
        Some(new) => { matches!(new.mode, Mode::Governance) | (new.until.get() < old.until.get()) }
        None => true,
    }
}

// Whether the new retention takes something from one of governance.
fn breaks_governance(old: Option<&Retention>, new: Option<&Retention>) -> bool
    ensures { result ≡ some_and
        (λ r. is_governance r.mode && not (keeps_governance r (option_copied new.entry)))
        (option_copied old.entry) }
{
    let Some(old) = old else {
        return false;
    };
    if matches!(old.mode, Mode::Compliance) {
        return false;
    }
    match new {
        Some(new) => new.until.get() < old.until.get(),
        None => true,
    }
}

/// The first of the rules P12 to P14 that fails where the version gets this retention, or none. One that has
/// ended stands in no way.
pub fn may_set_retention(
    version: &Version,
    new: Option<&Retention>,
    t: Moment,
    asked: bool,
    may: bool,
) -> Result<(), Denial>
    ensures { denied result ≡ first_fault (retention_rules (active_retention t version.now)
        (option_copied new.entry) asked may) }
{
    let active = active_retention(version, t);
    if breaks_compliance(active.as_ref(), new) {
        return Err(Denial::P12);
    }
    governance(breaks_governance(active.as_ref(), new), asked, may)
}
