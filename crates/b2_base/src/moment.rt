//! Moments of the clock.

ghost use Rattle.std.specs.Prelude.{◌≡◌, min};

use crate::number::Number64;

/// The last moment: 31 December 9999, 23:59:59.999 UTC, in milliseconds since 1970.
pub const LAST_MOMENT: u64 = 253_402_300_799_999;

/// A moment, in milliseconds since the beginning of 1970, UTC: from 0 to the last millisecond of the
/// year 9999.
pub type Moment = Number64<MomentTag, LAST_MOMENT>;

/// What a `Moment` counts.
#[derive(Clone, Copy, Debug, PartialEq, Eq, PartialOrd, Ord, Hash)]
pub struct MomentTag;

impl Number64<MomentTag, LAST_MOMENT> {
    /// What a clock that reads so many milliseconds stands for: a reading past the last moment counts
    /// as that.
    pub fn from_reading(reading: u64) -> Moment
        ensures { result ≡ min reading LAST_MOMENT }
    {
        Moment::new(reading.min(LAST_MOMENT)).unwrap()
    }
}
