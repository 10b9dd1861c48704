//! Numbers that are told apart by what they count.

ghost use Rattle.std.specs.Prelude.{◌≡◌, ◌≤◌, ◌↔◌, Some, IsSome, IfSome};

use std::marker::{Model, PhantomData};

/// A number of 32 bits, each of which is in the range.
#[derive(Clone, Copy, Debug, PartialEq, Eq, PartialOrd, Ord, Hash)]
pub struct Number32<T> {
    number: u32,
    of: PhantomData<T>,
}

impl<T> Model for Number32<T> {
    ghost use Rattle.std.specs.Prelude.{ℕ};
    ghost use Rattle.std.specs.Coded.{coded_ℕ};

    ghost Value = { ℕ };

    ghost coded = { coded_ℕ };

    ghost view = { λ n. n.number };

    ghost inverse = { λ n. record { number = n; of = record {} } };
}

impl<T> Number32<T> {
    /// The number: each of its type is in the range.
    pub fn new(number: u32) -> Option<Number32<T>>
        ensures { result ≡ Some number }
    {
        Some(Number32 {
            number,
            of: PhantomData,
        })
    }

    /// The number itself.
    pub fn get(self) -> u32
        ensures { result ≡ self }
    {
        self.number
    }
}

/// A number of 64 bits, at most `LAST`.
#[derive(Clone, Copy, Debug, PartialEq, Eq, PartialOrd, Ord, Hash)]
pub struct Number64<T, const LAST: u64> {
    number: u64,
    of: PhantomData<T>,
}

impl<T, const LAST: u64> Model for Number64<T, LAST> {
    ghost use Rattle.std.specs.Prelude.{ℕ, ◌≤◌};
    ghost use Rattle.std.specs.Coded.{coded_ℕ};

    ghost Value = { ℕ };

    ghost coded = { coded_ℕ };

    ghost view = { λ n. n.number };

    ghost invariant = { λ n. n.number ≤ LAST };

    ghost inverse = { λ n. record { number = n; of = record {} } };
}

impl<T, const LAST: u64> Number64<T, LAST> {
    /// The number, if it is in the range.
    pub fn new(number: u64) -> Option<Number64<T, LAST>>
        ensures in_range { IsSome result ↔ (number ≤ LAST) }
        ensures value { IfSome result (λ n. n ≡ number) }
    {
        if number <= LAST {
            Some(Number64 {
                number,
                of: PhantomData,
            })
        } else {
            None
        }
    }

    /// The number itself.
    pub fn get(self) -> u64
        ensures value { result ≡ self }
        ensures in_range { result ≤ LAST }
    {
        self.number
    }
}
