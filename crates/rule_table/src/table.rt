//! Tables of values and their names.

ghost use Rattle.std.specs.Prelude.{◌≡◌, ℕ, List, Some, MatchOption, length};
ghost use Rattle.rule_table.specs.Rows.{texts, AreApart, IsFull, IsRow};

use crate::placed::Placed;
use std::marker::{Model, PhantomData};

/// N values and the name of each. A row's value is the one at the row's place, so names alone are
/// kept, and clauses see a table as its names in order.
#[derive(Drop)]
pub struct Table<E: Placed, const N: usize> {
    names: &'static [&'static str],
    of: PhantomData<E>,
}

impl<E: Placed, const N: usize> Model for Table<E, N> {
    ghost use Rattle.std.specs.Prelude.{◌≡◌, ℕ, List, length};
    ghost use Rattle.std.specs.Coded.{coded_list, coded_ℕ};
    ghost use Rattle.rule_table.specs.Rows.{texts, AreApart, IsFull};

    ghost Value = { List (List ℕ) };

    ghost coded = { coded_list (coded_list coded_ℕ) };

    ghost view = { λ t. texts t.names.now };

    ghost invariant = { λ t.
        (length t.names.now ≡ N) × IsFull E.at_place N × AreApart (texts t.names.now) };
}

impl<E: Placed, const N: usize> Table<E, N> {
    /// The table of these names, in the order of their values' places.
    pub fn new(names: &'static [&'static str]) -> Table<E, N>
        requires many { length names.now ≡ N }
        requires full { IsFull E.at_place N }
        requires apart { AreApart (texts names.now) }
        ensures { result ≡ texts names.now }
    {
        Table {
            names,
            of: PhantomData,
        }
    }

    /// The value of the name.
    pub fn find(&self, name: &[u8]) -> Option<E>
        ensures found { MatchOption result
            ((e : E) → IsRow self.now (E.place_of e) name.now → ⊥)
            (λ e. IsRow self.now (E.place_of e) name.now) }
        ensures only { (e : E) → IsRow self.now (E.place_of e) name.now → result ≡ Some e }
    {
        let at = place_in(self.names, name)?;
        E::at(at)
    }

    /// All names, in the order of their values' places.
    pub fn names(&self) -> &'static [&'static str]
        ensures { texts result.now ≡ self.now }
    {
        self.names
    }

    /// The value's name.
    pub fn name(&self, e: E) -> &[u8]
        ensures { IsRow self.now (E.place_of e) result.now }
    {
        let names = self.names;
        names[e.place()].as_bytes()
    }
}

// The first place of the name among these.
fn place_in(names: &[&str], name: &[u8]) -> Option<usize>
    ensures { MatchOption result
        ((i : ℕ) → IsRow (texts names.now) i name.now → ⊥)
        (λ i. IsRow (texts names.now) i name.now) }
{
    let mut at = 0;
    'rows: while at < names.len() {
        if names[at].as_bytes() == name {
            return Some(at);
        }
        at += 1;
    }
    None
}
