//! Items by number.

ghost use Rattle.std.specs.Prelude.{◌≡◌, ◌==◌, ℕ, None, [], OnOk, OnErr, filter, find, not};
ghost use Rattle.std.specs.Option.{option_copied};
ghost use Rattle.std.specs.Map.{values_of};
ghost use Rattle.b2_model.specs.Lists.{put_by};
ghost use Rattle.numbered_items.specs.Entries.{AreBy};

use b2_base::Memory;
use std::alloc::Global;
use std::collections::BTreeMap;
use std::marker::Model;

/// What has a number.
pub trait HasNumber: Drop {
    /// The number that clauses see.
    ghost number_of: { Self → ℕ };

    /// The number.
    fn number(&self) -> u32
        ensures { result ≡ number_of self.now };
}

/// Items with different numbers, which clauses see as their list by number.
#[derive(Drop)]
pub struct Numbered<T: HasNumber> {
    items: BTreeMap<u32, T>,
}

impl<T: HasNumber> Model for Numbered<T> {
    ghost use Rattle.std.specs.Prelude.{List};
    ghost use Rattle.std.specs.Map.{values_of};
    ghost use Rattle.numbered_items.specs.Entries.{AreBy};

    ghost Value = { List T };

    ghost view = { λ n. values_of n.items.entries };

    ghost invariant = { λ n. AreBy T.number_of n.items.entries };
}

impl<T: HasNumber> Numbered<T> {
    /// No items.
    pub fn new(alloc: Global) -> Numbered<T>
        ensures { result ≡ [] }
    {
        Numbered {
            items: BTreeMap::new(alloc),
        }
    }

    /// The item of this number.
    pub fn get(&self, number: u32) -> Option<&T>
        ensures { option_copied result ≡ find (λ x. T.number_of x == number) self.now }
    {
        self.items.get(&number)
    }

    /// Puts the item at its place, where none has its number.
    pub fn put(&mut self, item: T) -> Result<(), Memory>
        requires free { find (λ x. T.number_of x == T.number_of item) self.old ≡ None }
        ensures ok { OnOk result (self.new ≡ put_by T.number_of item self.old) }
        ensures err { OnErr result (self.new ≡ self.old) }
    {
        let number = item.number();
        self.items.insert(number, item)?;
        Ok(())
    }

    /// Takes away the item of this number.
    pub fn remove(&mut self, number: u32) -> Option<T>
        ensures value { result ≡ find (λ x. T.number_of x == number) self.old }
        ensures left { self.new ≡ filter (λ x. not (T.number_of x == number)) self.old }
    {
        self.items.remove(&number)
    }

    /// The items under their numbers.
    pub fn by_number(&self) -> &BTreeMap<u32, T>
        ensures values { values_of result.now.entries ≡ self.now }
        ensures order { AreBy T.number_of result.now.entries }
    {
        &self.items
    }
}
