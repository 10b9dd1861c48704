//! Seeks that go on from one to the next.

ghost use Rattle.std.specs.Prelude.{◌≡◌, ◌+◌, IfSome, Some};
ghost use Rattle.std.specs.Option.{option_map};
ghost use Rattle.version_index.specs.Rows.{AreAscending, first_from, row_from};

use crate::index::Index;
use crate::spot::Spot;
use crate::steps::Steps;
use std::collections::btree_map::Range;
use std::marker::Model;
use std::sync::ledger::Ledger;

/// Seeks in one index, each of which begins where the one before ended. Clauses see the rows of the
/// index.
#[derive(Drop)]
pub struct Walk<'a, V> {
    index: &'a Index<V>,
    // The row that was found last, where what is left are the rows after it.
    last: Option<&'a Spot>,
    left: Range<'a, Spot, V>,
}

impl<'a, V> Model for Walk<'a, V> {
    ghost use Rattle.std.specs.Prelude.{◌≡◌, IfSome, List};
    ghost use Rattle.version_index.specs.declared.spot.Spot.{Spot as Place};
    ghost use Rattle.version_index.specs.Rows.{AreAscending, rows_after};

    ghost Value = { List (Place × V) };

    ghost view = { λ w. w.index.now };

    ghost invariant = { λ w. AreAscending w.index.now
        × IfSome w.last (λ t. w.left ≡ rows_after t.now w.index.now) };
}

impl<'a, V: Drop> Walk<'a, V> {
    /// A walk that has not begun.
    pub fn new(index: &'a Index<V>) -> Walk<'a, V>
        ensures { result ≡ index.now }
    {
        index.in_order();
        Walk {
            index,
            last: None,
            left: index.all_rows(),
        }
    }

    // The next row, where it is the first at `s` or after it.
    fn near(&mut self, s: &Spot) -> Option<(&'a Spot, &'a V)>
        ensures rows { self.new ≡ self.old }
        ensures first { IfSome result (λ r. first_from s.now self.old ≡ Some (r.0.now, r.1.now)) }
    {
        let last = self.last?;
        let row = self.left.next()?;
        self.last = Some(row.0);
        let first = (last < s) & (s <= row.0);
        if !first {
            return None;
        }
        Some(row)
    }

    // The first row at `s` or after it, found on a way down the index.
    fn far(&mut self, s: &Spot) -> Option<(&'a Spot, &'a V)>
        ensures rows { self.new ≡ self.old }
        ensures first { option_map (λ r. (r.0.now, r.1.now)) result ≡ first_from s.now self.old }
    {
        self.last = None;
        self.left = self.index.rows_from(s);
        let row = self.left.next()?;
        self.last = Some(row.0);
        Some(row)
    }

    // The first row at `s` or after it.
    fn first(&mut self, s: &Spot) -> Option<(&'a Spot, &'a V)>
        ensures rows { self.new ≡ self.old }
        ensures ascending { AreAscending self.old }
        ensures first { option_map (λ r. (r.0.now, r.1.now)) result ≡ first_from s.now self.old }
    {
        let _ = &self.index;
        if let Some(row) = self.near(s) {
            return Some(row);
        }
        self.far(s)
    }

    /// The first row of the bucket of `s`, at `s` or after it, in one step: a look at the next row, and
    /// where that is not it one way down the index.
    pub fn seek<L: Ledger>(&mut self, s: &Spot, steps: &mut Steps<L>) -> Option<(&'a Spot, &'a V)>
        ensures row { option_map (λ r. (r.0.now, r.1.now)) result ≡ row_from s.now self.old }
        ensures rows { self.new ≡ self.old }
        ensures steps { steps.new ≡ steps.old + 1 }
    {
        steps.tick();
        let row = self.first(s)?;
        if row.0.bucket == s.bucket {
            Some(row)
        } else {
            None
        }
    }
}
