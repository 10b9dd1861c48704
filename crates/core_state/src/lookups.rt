//! What later calls look up: numbers, names, versions in listing order, tokens.

ghost use Rattle.std.specs.Prelude.{◌≡◌, ◌≤◌, ◌==◌, ℕ, IfOk, length};
ghost use Rattle.std.specs.Option.{option_copied};
ghost use Rattle.std.specs.List.{list_any};
ghost use Rattle.std.specs.Map.{values_of};
ghost use Rattle.b2_base.specs.declared.extent.Extent.{Extent as TheExtent};
ghost use Rattle.b2_base.specs.declared.numbers.TheConstants.{LAST_VERSION};
ghost use Rattle.b2_model.specs.Current.{current};
ghost use Rattle.b2_model.specs.Policy.{bucket_named, is_same_name};
ghost use Rattle.b2_model.specs.Rows.{rows};
ghost use Rattle.b2_model.specs.State.{State};
ghost use Rattle.sound_states.specs.Sound.{IsSound};
ghost use Rattle.new_versions.specs.Decided.{next_number};
ghost use Rattle.auth_grants.specs.Tokens.{tokens_of};
ghost use Rattle.index_rows.specs.OwnRows.{AreNumbered, AreOwn, of_bucket};
ghost use Rattle.listing_pages.specs.Unfinished.{AreStarts, AreStartsOf};
ghost use Rattle.numbered_items.specs.Entries.{AreBy};

use crate::current::current_of;
use crate::state::Core;
use auth_grants::Grants;
use b2_base::{BucketNum, KeyNum, Memory, Moment, Text, VersionNum};
use b2_types::{Bucket, Flight, Key, Version, VersionId};
use name_rules::{BucketName, FileName};
use new_versions::next_number;
use policy_rules::Known;
use std::alloc::Global;
use std::collections::BTreeMap;
use std::marker::Brand;
use std::sync::ledger::Blank;
use version_index::Index;

// Whether the bucket has the name, without regard to case.
fn is_named(bucket: &Bucket, name: &[u8]) -> bool
    ensures { result ≡ is_same_name bucket.now.name name.now }
{
    bucket.name.get().as_bytes().eq_ignore_ascii_case(name)
}

impl Core {
    /// The moment of the last record.
    pub fn kept(&self) -> Moment
        ensures { result ≡ self.now.kept }
    {
        self.parts.kept
    }

    /// The number of the next bucket.
    pub fn next_bucket(&self) -> BucketNum
        ensures { result ≡ self.now.next_bucket }
    {
        self.parts.next_bucket
    }

    /// The number of the next key.
    pub fn next_key(&self) -> KeyNum
        ensures { result ≡ self.now.next_key }
    {
        self.parts.next_key
    }

    /// The number of the next version, which may stand one above the last that is given.
    pub fn next_version(&self) -> u64
        ensures { result ≡ self.now.next_version }
    {
        self.parts.next_version
    }

    /// The number of the next version: none where the last that the store gives was given.
    pub fn next_number(&self) -> Option<VersionNum>
        ensures { result ≡ next_number self.now }
    {
        next_number(self.parts.next_version, self.parts.settings.last_version)
    }

    /// The last number of a version that the store gives.
    pub fn last_version(&self) -> VersionNum
        ensures { result ≡ self.now.settings.last_version }
    {
        VersionNum::new(self.parts.settings.last_version).unwrap()
    }

    /// What holds of every state.
    pub fn is_sound(&self)
        ensures sound { IsSound self.now }
        ensures last { self.now.settings.last_version ≤ LAST_VERSION }
    {
        let _ = &self.parts;
    }

    /// The bucket of this name, without regard to case.
    pub fn bucket_named(&self, name: &[u8]) -> Option<&Bucket>
        ensures { option_copied result ≡ bucket_named self.now name.now }
    {
        self.parts
            .buckets
            .iter()
            .find(|bucket| is_named(bucket, name))
    }

    /// The keys under their numbers.
    pub fn keys(&self) -> &BTreeMap<u32, Key>
        ensures keys { values_of result.now.entries ≡ self.now.keys }
        ensures order { AreBy (λ k. k.num) result.now.entries }
    {
        self.parts.keys.by_number()
    }

    /// The uploads that are under way, under the numbers of their connections.
    pub fn flights(&self) -> &BTreeMap<u32, Flight>
        ensures flights { values_of result.now.entries ≡ self.now.flights }
        ensures order { AreBy (λ f. f.conn) result.now.entries }
    {
        self.parts.flights.by_number()
    }

    /// The tokens that were given since the store was opened, with the uploads on them.
    pub fn tokens(&self) -> &Grants
        ensures { result.now ≡ tokens_of self.now }
    {
        &self.parts.tokens
    }

    /// How many versions stand.
    pub fn count(&self) -> usize
        ensures { result ≡ length self.now.versions }
    {
        self.parts.versions.count()
    }

    /// Whether a version has this number.
    pub fn has_number(&self, num: VersionNum) -> bool
        ensures { result ≡ list_any (λ v. v.num == num) self.now.versions }
    {
        self.parts.versions.has_number(num)
    }

    /// Whether a version stands in the bucket.
    pub fn has_versions(&self, alloc: Global, bucket: BucketNum) -> bool
        ensures { result ≡ list_any (λ v. v.bucket == bucket) self.now.versions }
    {
        self.parts.versions.has_bucket(alloc, bucket)
    }

    /// The versions in listing order.
    pub fn index(&self) -> &Index<Version>
        ensures own { AreOwn result.now }
        ensures numbered { AreNumbered self.now.versions }
        ensures listed { (bucket : ℕ) → of_bucket bucket result.now ≡ rows self.now bucket }
    {
        self.parts.versions.index()
    }

    /// The current version of the name: the newest that is no start.
    pub fn current(
        &self,
        alloc: Global,
        bucket: BucketNum,
        name: &[u8],
    ) -> Result<Option<&Version>, Memory>
        ensures { IfOk result (λ v. option_copied v ≡ current self.now bucket name.now) }
    {
        current_of::<Brand>(alloc, self.index(), Blank::new(1), bucket, name)
    }

    /// The large files that were begun and are not finished.
    pub fn starts(&self) -> &Index<FileName>
        ensures starts { AreStarts result.now }
        ensures listed { (bucket : ℕ) → AreStartsOf self.now.versions bucket result.now }
    {
        self.parts.versions.starts()
    }
}

impl Known for Core {
    ghost state = { λ M. M };

    fn account(&self) -> &Text {
        &self.parts.settings.account
    }

    fn bucket_name(&self, bucket: BucketNum) -> Option<&BucketName> {
        match self.bucket(bucket) {
            Some(bucket) => Some(&bucket.name),
            None => None,
        }
    }

    fn file_name(&self, file: VersionId) -> Option<&FileName> {
        match self.version(file.bucket, file.num) {
            Some(version) => Some(&version.name),
            None => None,
        }
    }
}
