//! A vector that clauses see as its list.

ghost use Rattle.std.specs.Prelude.{◌≡◌};

use std::marker::Model;

/// Items in order.
#[derive(Debug, Drop)]
pub struct List<T> {
    items: Vec<T>,
}

impl<T> Model for List<T> {
    ghost use Rattle.std.specs.Prelude as p;
    ghost use Rattle.std.specs.Coded.{coded_list};

    ghost Value = { p.List T };

    ghost coded = { coded_list T.code };

    ghost view = { λ l. l.items.items };
}

impl<T> List<T> {
    /// The vector's items, taken over without a copy.
    pub fn of(items: Vec<T>) -> List<T>
        ensures { result ≡ items.items }
    {
        List { items }
    }

    /// The items that it holds.
    pub fn get(&self) -> &[T]
        ensures { result.now ≡ self.now }
    {
        &self.items
    }
}
