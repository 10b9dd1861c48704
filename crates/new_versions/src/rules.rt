//! The rules of a new version: its locks, and its number.

ghost use Rattle.std.specs.Prelude.{◌≡◌, ◌≤◌, [], ◌∷◌, not, nat_lt, option_map};
ghost use Rattle.b2_base.specs.declared.extent.Extent.{Extent as TheExtent};
ghost use Rattle.b2_model.specs.Checks.{first_fault, some_and};
ghost use Rattle.b2_model.specs.State.{State};
ghost use Rattle.b2_model.specs.Plan.{bad_until, lock_off};
ghost use Rattle.new_versions.specs.Decided.{next_number};
ghost use Rattle.new_versions.specs.Refusals.{lock_fault};

use crate::refusal::LockRefusal;
use b2_base::{LAST_VERSION, Moment, VersionNum};
use b2_types::Retention;

/// The number of the next version: none where the last that the store gives was given.
pub fn next_number(next: u64, last: u64) -> Option<VersionNum>
    requires { last ≤ LAST_VERSION }
    ensures { (M : State TheExtent) → M.next_version ≡ next → M.settings.last_version ≡ last
        → next_number M ≡ result }
{
    if last < next {
        return None;
    }
    VersionNum::new(next)
}

fn has_ended(retention: Option<Retention>, t: Moment) -> bool
    ensures { result ≡ some_and (λ r. not (nat_lt t r.until)) retention }
{
    match retention {
        Some(retention) => retention.until.get() <= t.get(),
        None => false,
    }
}

/// The first of the two rules of locks that keeps a version from having this retention and this
/// hold, in a bucket with Object Lock or without.
pub fn lock_rules(
    t: Moment,
    retention: Option<Retention>,
    hold: bool,
    lock: bool,
) -> Option<LockRefusal>
    ensures { option_map lock_fault result
        ≡ first_fault (lock_off retention hold lock ∷ bad_until t retention ∷ []) }
{
    let is_locked = retention.is_some() | hold;
    let is_off = is_locked & !lock;
    if is_off {
        return Some(LockRefusal::LockOff);
    }
    if has_ended(retention, t) {
        return Some(LockRefusal::BadUntil);
    }
    None
}
