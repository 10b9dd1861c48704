//! The state and what is looked up in it.

ghost use Rattle.std.specs.Prelude.{◌≡◌, ◌≤◌, IfOk};
ghost use Rattle.std.specs.Option.{option_copied};
ghost use Rattle.b2_base.specs.declared.numbers.TheConstants.{LAST_VERSION};
ghost use Rattle.b2_model.specs.Changes.{master_key, state_of_settings};
ghost use Rattle.b2_model.specs.LiveGrant.{grant_at};
ghost use Rattle.b2_model.specs.Rows.{version_at};
ghost use Rattle.b2_model.specs.State.{bucket_at, key_at};
ghost use Rattle.b2_model.specs.UploadSteps.{flight_of};

use crate::parts::Parts;
use auth_grants::Grants;
use b2_base::{BucketNum, ConnNum, KeyNum, List, Memory, Moment, Settings, Text, VersionNum};
use b2_types::{Bucket, Flight, Grant, Key, Version};
use kept_versions::Versions;
use numbered_items::Numbered;
use rule_table::CapSet;
use std::alloc::Global;
use std::marker::Model;

/// The state of a store.
#[derive(Drop)]
pub struct Core {
    pub(crate) parts: Parts,
}

impl Model for Core {
    ghost use Rattle.b2_base.specs.declared.extent.Extent.{Extent as TheExtent};
    ghost use Rattle.b2_model.specs.State.{State};

    ghost Value = { State TheExtent };

    ghost use Rattle.core_state.specs.View.{IsWhole, state_of};

    ghost view = { λ c. state_of c.parts };

    ghost invariant = { λ c. IsWhole c.parts };
}

// The key that always stands.
fn first_key(alloc: Global, settings: &Settings) -> Key
    ensures { result ≡ master_key settings.now }
{
    Key {
        num: KeyNum::new(0).unwrap(),
        name: Text::of(String::new(alloc)),
        caps: CapSet::all(),
        buckets: List::of(Vec::new(alloc)),
        prefix: Text::of(String::new(alloc)),
        end: None,
        hash: settings.secret_hash,
    }
}

impl Core {
    /// The state that settings begin, by which no number is given past the last of all.
    pub fn new(alloc: Global, settings: Settings, t: Moment) -> Result<Core, Memory>
        requires last { settings.last_version ≤ LAST_VERSION }
        ensures { IfOk result (λ core. core ≡ state_of_settings settings t) }
    {
        let mut keys = Numbered::new(alloc);
        keys.put(first_key(alloc, &settings))?;
        Ok(Core {
            parts: Parts {
                settings,
                now: t,
                kept: t,
                pass_day: 0,
                boot: 0,
                next_bucket: BucketNum::new(1).unwrap(),
                next_key: KeyNum::new(1).unwrap(),
                next_version: 1,
                buckets: Vec::new(alloc),
                versions: Versions::new(alloc),
                keys,
                tokens: Grants::new(alloc),
                flights: Numbered::new(alloc),
            },
        })
    }

    /// What the store was made with.
    pub fn settings(&self) -> &Settings
        ensures { result.now ≡ self.now.settings }
    {
        &self.parts.settings
    }

    /// The moment of the last step.
    pub fn now(&self) -> Moment
        ensures { result ≡ self.now.now }
    {
        self.parts.now
    }

    /// The day of the last lifecycle pass, since 1970.
    pub fn pass_day(&self) -> u64
        ensures { result ≡ self.now.pass_day }
    {
        self.parts.pass_day
    }

    /// How often the store was opened.
    pub fn boot(&self) -> u32
        ensures { result ≡ self.now.boot }
    {
        self.parts.boot
    }

    /// The buckets, by number.
    pub fn buckets(&self) -> &[Bucket]
        ensures { result.now ≡ self.now.buckets }
    {
        &self.parts.buckets
    }

    /// The bucket of this number. There are at most 100.
    pub fn bucket(&self, num: BucketNum) -> Option<&Bucket>
        ensures { option_copied result ≡ bucket_at self.now num }
    {
        self.parts
            .buckets
            .iter()
            .find(|bucket| bucket.num.get() == num.get())
    }

    /// The key of this number.
    pub fn key(&self, num: KeyNum) -> Option<&Key>
        ensures { option_copied result ≡ key_at self.now num }
    {
        self.parts.keys.get(num.get())
    }

    /// The version of this bucket and number.
    pub fn version(&self, bucket: BucketNum, num: VersionNum) -> Option<&Version>
        ensures { option_copied result ≡ version_at self.now bucket num }
    {
        self.parts.versions.get(bucket, num)
    }

    /// The grant of the token of this text.
    pub fn grant(&self, text: &[u8]) -> Option<&Grant>
        ensures { option_copied result ≡ grant_at self.now text.now }
    {
        self.parts.tokens.find(text)
    }

    /// The upload that is under way on the connection.
    pub fn flight(&self, conn: ConnNum) -> Option<&Flight>
        ensures { option_copied result ≡ flight_of self.now conn }
    {
        self.parts.flights.get(conn.get())
    }
}
