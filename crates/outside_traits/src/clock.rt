//! Clocks.

ghost use Rattle.std.specs.Prelude.{◌≡◌, ◌≤◌, ℕ, List, Option, Some, length};
ghost use Rattle.outside_traits.specs.Given.{GivesReading};

/// A clock, by the readings that it is still to give.
pub trait Clock {
    /// The readings ahead, where the object tells them.
    ghost ahead: { Self → Option (List ℕ) };

    /// The reading that it gave last: 0 before the first.
    ghost last: { Self → ℕ };

    /// The next reading, in milliseconds since 1970. It cannot fail: after the readings ahead it is the
    /// last one again. Readings may fall.
    fn now(&mut self) -> u64
        ensures { GivesReading (ahead self.old) (last self.old) result
            (ahead self.new) (last self.new) };
}

/// A clock that gives a list of readings, and then the last of them again.
#[derive(Debug, Drop)]
pub struct ListClock {
    readings: Vec<u64>,
    at: usize,
    last: u64,
    ghost within: { at ≤ length readings.items },
}

impl ListClock {
    ghost use Rattle.outside_traits.specs.Lists.{clock_ahead, clock_last};

    /// A clock that is to give these readings.
    pub fn new(readings: Vec<u64>) -> ListClock
        ensures ahead { clock_ahead result ≡ readings.items }
        ensures last { clock_last result ≡ 0 }
    {
        ListClock {
            readings,
            at: 0,
            last: 0,
        }
    }
}

impl Clock for ListClock {
    ghost use Rattle.outside_traits.specs.Lists.{clock_ahead, clock_last};

    ghost ahead = { λ c. Some (clock_ahead c) };

    ghost last = { λ c. clock_last c };

    fn now(&mut self) -> u64 {
        if self.at < self.readings.len() {
            self.last = self.readings[self.at];
            self.at += 1;
        }
        self.last
    }
}
