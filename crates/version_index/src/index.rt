//! The index of versions.

ghost use Rattle.std.specs.Prelude.{◌≡◌, ◌+◌, None, [], IfErr, OnOk, OnErr, filter, nat_le};
ghost use Rattle.std.specs.Map.Iter.{ShowsInOrder, deref_pair};
ghost use Rattle.std.specs.Option.{option_copied, option_map};
ghost use Rattle.b2_base.specs.declared.numbers.TheConstants.{LAST_VERSION};
ghost use Rattle.version_index.specs.declared.spot.Spot.{Spot as Place};
ghost use Rattle.version_index.specs.Rows.{AreAscending, AreInRange, first_named, first_spot, placed, row_from, rows_from, value_at, without};

use crate::spot::Spot;
use crate::steps::Steps;
use b2_base::{Blob, BucketNum, LAST_VERSION, Memory, VersionNum};
use std::alloc::Global;
use std::collections::BTreeMap;
use std::collections::btree_map::Range;
use std::marker::Model;
use std::sync::ledger::Ledger;

/// The place before all rows of the bucket. It has no name, and takes no memory.
pub fn first_spot(alloc: Global, bucket: BucketNum) -> Spot
    ensures { result ≡ first_spot bucket }
{
    match VersionNum::new(LAST_VERSION) {
        Some(num) => Spot {
            bucket,
            name: Blob::of(Vec::new(alloc)),
            num,
        },
        None => unreachable!(),
    }
}

/// Values at their spots, which clauses see as rows in listing order.
#[derive(Debug, Drop)]
pub struct Index<V> {
    rows: BTreeMap<Spot, V>,
}

impl<V> Model for Index<V> {
    ghost use Rattle.std.specs.Prelude.{List};
    ghost use Rattle.version_index.specs.declared.spot.Spot.{Spot as Place};
    ghost use Rattle.version_index.specs.Rows.{AreAscending, AreInRange};

    ghost Value = { List (Place × V) };

    ghost view = { λ i. i.rows.entries };

    ghost invariant = { λ i. AreAscending i.rows.entries × AreInRange i.rows.entries };
}

impl<V: Drop> Index<V> {
    /// No rows.
    pub fn new(alloc: Global) -> Index<V>
        ensures { result ≡ [] }
    {
        Index {
            rows: BTreeMap::new(alloc),
        }
    }

    /// What holds of the rows of every index.
    pub fn in_order(&self)
        ensures ascending { AreAscending self.now }
        ensures in_range { AreInRange self.now }
    {
        let _ = &self.rows;
    }

    /// Puts the value at a spot where nothing stands. A row that finds no memory comes back.
    pub fn insert(&mut self, s: Spot, v: V) -> Result<(), (Spot, V, Memory)>
        requires free { value_at s self.old ≡ None }
        ensures ok { OnOk result (self.new ≡ placed (s, v) self.old) }
        ensures back { IfErr result (λ e. (e.0 ≡ s) × (e.1 ≡ v)) }
        ensures err { OnErr result (self.new ≡ self.old) }
    {
        // Its range is that of all numbers in the index.
        let _ = s.num.get();
        match self.rows.insert(s, v) {
            Ok(_) => Ok(()),
            Err(failed) => {
                let (s, v) = failed.value;
                Err((s, v, Memory))
            }
        }
    }

    /// Takes away what stands at the spot.
    pub fn remove(&mut self, s: &Spot) -> Option<V>
        ensures value { result ≡ value_at s.now self.old }
        ensures rows { self.new ≡ without s.now self.old }
    {
        self.rows.remove(s)
    }

    /// What stands at the spot.
    pub fn get(&self, s: &Spot) -> Option<&V>
        ensures { option_copied result ≡ value_at s.now self.now }
    {
        self.rows.get(s)
    }

    /// The first row of the bucket of `s`, at `s` or after it, in one step.
    pub fn seek<L: Ledger>(&self, s: &Spot, steps: &mut Steps<L>) -> Option<(&Spot, &V)>
        ensures row { option_map (λ r. (r.0.now, r.1.now)) result ≡ row_from s.now self.now }
        ensures ascending { AreAscending self.now }
        ensures in_range { AreInRange self.now }
        ensures steps { steps.new ≡ steps.old + 1 }
    {
        steps.tick();
        let row = self.rows.range(s..).next()?;
        if row.0.bucket == s.bucket {
            Some(row)
        } else {
            None
        }
    }

    /// The newest row of the bucket and the name of `s`, in one step.
    pub fn first_of<L: Ledger>(&self, s: &Spot, steps: &mut Steps<L>) -> Option<(&Spot, &V)>
        requires last { s.now.num ≡ LAST_VERSION }
        ensures row { option_map (λ r. (r.0.now, r.1.now)) result ≡ first_named s.now self.now }
        ensures steps { steps.new ≡ steps.old + 1 }
    {
        let row = self.seek(s, steps)?;
        if row.0.name == s.name {
            Some(row)
        } else {
            None
        }
    }

    // All rows.
    pub(crate) fn all_rows(&self) -> Range<'_, Spot, V>
        ensures { result ≡ self.now }
    {
        self.rows.range(..)
    }

    // The rows at `s` or after it, of all buckets.
    pub(crate) fn rows_from(&self, s: &Spot) -> Range<'_, Spot, V>
        ensures rest { result ≡ rows_from s.now self.now }
        ensures ascending { AreAscending self.now }
    {
        self.rows.range(s..)
    }

    /// The rows of the bucket and of those with greater numbers, in listing order: one way down the
    /// index, and then from row to row.
    pub fn from_bucket(&self, alloc: Global, bucket: BucketNum) -> Range<'_, Spot, V>
        ensures rest { result ≡ filter (λ r. nat_le bucket r.0.bucket) self.now }
        ensures runs { ShowsInOrder (deref_pair {K = Place} {X = V}) }
        ensures ascending { AreAscending self.now }
    {
        let first = first_spot(alloc, bucket);
        self.rows.range(&first..)
    }
}
