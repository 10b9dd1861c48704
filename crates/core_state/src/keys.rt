//! Records of keys, of openings and of the numbers of a snapshot.

ghost use Rattle.std.specs.Prelude.{◌≡◌, ◌≤◌, true, IfOk};
ghost use Rattle.b2_types.specs.declared.record.ChangeOf.TheVariants as change;
ghost use Rattle.b2_model.specs.Changes.{after_record};
ghost use Rattle.b2_model.specs.Plan.{number_end};
ghost use Rattle.b2_model.specs.Stored.{applies_change};

use crate::state::Core;
use auth_grants::Grants;
use b2_base::{KeyNum, Memory, Moment};
use b2_types::{Key, Numbers};
use numbered_items::Numbered;
use std::alloc::Global;

impl Core {
    /// The state after the record of a key that is made.
    pub fn make_key(self, t: Moment, key: Key) -> Result<Core, Memory>
        requires applies { applies_change self (change.KeyMake key) ≡ true }
        ensures { IfOk result (λ core. core ≡ after_record self
            (record { at = t; change = change.KeyMake key })) }
    {
        let mut parts = self.parts;
        let next = parts.next_key.get().max(key.num.get() + 1);
        parts.keys.put(key)?;
        parts.next_key = KeyNum::new(next).unwrap();
        parts.now = t;
        parts.kept = t;
        Ok(Core { parts })
    }

    /// The state after the record of a key that is dropped.
    pub fn drop_key(mut self, t: Moment, num: KeyNum) -> Core
        requires applies { applies_change self (change.KeyDrop num) ≡ true }
        ensures { result ≡ after_record self (record { at = t; change = change.KeyDrop num }) }
    {
        let _ = self.parts.keys.remove(num.get());
        self.parts.now = t;
        self.parts.kept = t;
        self
    }

    /// The state after the record of one more opening of the store, without tokens and uploads
    /// under way.
    pub fn start_boot(mut self, alloc: Global, t: Moment, boot: u32) -> Core
        requires applies { applies_change self (change.Boot boot) ≡ true }
        ensures { result ≡ after_record self (record { at = t; change = change.Boot boot }) }
    {
        self.parts.boot = boot;
        self.parts.tokens = Grants::new(alloc);
        self.parts.flights = Numbered::new(alloc);
        self.parts.now = t;
        self.parts.kept = t;
        self
    }

    /// The state after the record of the numbers of a snapshot.
    pub fn put_numbers(mut self, alloc: Global, t: Moment, numbers: Numbers) -> Core
        requires applies { applies_change self (change.SnapState numbers) ≡ true }
        requires buckets { numbers.next_bucket ≤ number_end }
        requires keys { numbers.next_key ≤ number_end }
        ensures { result ≡ after_record self
            (record { at = t; change = change.SnapState numbers }) }
    {
        self.parts.pass_day = numbers.pass_day;
        self.parts.boot = numbers.boot;
        self.parts.next_bucket = numbers.next_bucket;
        self.parts.next_key = numbers.next_key;
        self.parts.next_version = numbers.next_version;
        self.parts.tokens = Grants::new(alloc);
        self.parts.flights = Numbered::new(alloc);
        self.parts.now = t;
        self.parts.kept = t;
        self
    }
}
