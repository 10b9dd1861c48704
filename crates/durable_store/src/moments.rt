//! The moments of steps.

ghost use Rattle.std.specs.Prelude.{◌≡◌, max};
ghost use Rattle.b2_model.specs.Run.{moment};

use b2_base::Moment;
use core_state::Core;

// The later of two moments.
fn later_of(a: Moment, b: Moment) -> Moment
    ensures { result ≡ max a b }
{
    if a.get() < b.get() { b } else { a }
}

/// The moment of a step at this reading of the clock: never before that of the step before.
pub(crate) fn moment_at(core: &Core, reading: u64) -> Moment
    ensures { result ≡ moment core.now reading }
{
    later_of(core.now(), Moment::from_reading(reading))
}
