//! The default retention of a bucket.

ghost use Rattle.std.specs.Prelude.{◌≡◌, ◌*◌};
ghost use Rattle.b2_model.specs.Kinds.{later, day, period_days};
ghost use Rattle.b2_model.specs.Locks.{own_or_default};

use b2_base::Moment;
use b2_types::{DefaultRetention, Period, Retention};

/// The milliseconds of a day.
const DAY: u64 = 86_400_000;

fn days_of(period: Period) -> u64
    ensures { result ≡ period_days period }
{
    match period {
        Period::Days(days) => u64::from(days),
        Period::Years(years) => u64::from(years) * 365,
    }
}

/// The end of a retention of this period from the moment on, at most the last moment.
pub fn default_until(t: Moment, period: Period) -> Moment
    ensures { result ≡ later t (period_days period * day) }
{
    let milliseconds = days_of(period).saturating_mul(DAY);
    Moment::from_reading(t.get().saturating_add(milliseconds))
}

/// The retention of a new version: the one that was asked for, or the default of the bucket.
pub fn own_or_default(
    t: Moment,
    own: Option<Retention>,
    default: Option<DefaultRetention>,
) -> Option<Retention>
    ensures { result ≡ own_or_default t own default }
{
    if own.is_some() {
        return own;
    }
    match default {
        Some(default) => Some(Retention {
            mode: default.mode,
            until: default_until(t, default.period),
        }),
        None => None,
    }
}
