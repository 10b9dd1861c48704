//! Versions.

ghost use Rattle.std.specs.Prelude.{◌≡◌, ◌==◌, ◌&&◌, ℕ, not, [], IfOk, OnOk, None, true, false, find, filter, length, List, map};
ghost use Rattle.std.specs.Prelude.{option_map};
ghost use Rattle.std.specs.Option.{option_copied};
ghost use Rattle.std.specs.List.{list_any};
ghost use Rattle.b2_base.specs.declared.extent.Extent.{Extent as TheExtent};
ghost use Rattle.b2_types.specs.declared.version.VersionOf.{VersionOf as TheVersion};
ghost use Rattle.b2_model.specs.Lists.{put_by};
ghost use Rattle.b2_model.specs.Rows.{rows};
ghost use Rattle.b2_model.specs.State.{State};
ghost use Rattle.version_index.specs.Rows.{value_at};
ghost use Rattle.index_rows.specs.OwnRows.{AreNumbered, AreOwn, of_bucket, spot_of};
ghost use Rattle.listing_pages.specs.Unfinished.{AreStarts, AreStartsOf, start_spot};
ghost use Rattle.kept_versions.specs.Kept.{spot_entry, with_start};

use b2_base::{Blob, BucketNum, Memory, VersionNum};
use b2_types::{Action, Version};
use listing_pages::start_place;
use name_rules::FileName;
use new_versions::copy_name;
use std::alloc::Global;
use std::collections::BTreeMap;
use std::marker::Model;
use version_index::{Index, Spot};

/// The versions of a store, which clauses see as their list by number.
#[derive(Drop)]
pub struct Versions {
    /// In listing order.
    index: Index<Version>,
    /// Where the version of each number stands.
    spots: BTreeMap<u64, Spot>,
    /// The large files that were begun and are not finished, with their names.
    starts: Index<FileName>,
}

impl Model for Versions {
    ghost use Rattle.std.specs.Prelude.{List};
    ghost use Rattle.b2_base.specs.declared.extent.Extent.{Extent as TheExtent};
    ghost use Rattle.b2_types.specs.declared.version.VersionOf.{VersionOf as TheVersion};
    ghost use Rattle.index_rows.specs.OwnRows.{by_number};
    ghost use Rattle.kept_versions.specs.Kept.{AreKept};

    ghost Value = { List (TheVersion TheExtent) };

    ghost view = { λ v. by_number v.index };

    ghost invariant = { λ v. AreKept (by_number v.index) v.index v.spots.entries v.starts };
}

// Where the version stands.
fn spot_for(alloc: Global, version: &Version) -> Result<Spot, Memory>
    ensures { IfOk result (λ s. s ≡ spot_of version.now) }
{
    Ok(Spot {
        bucket: version.bucket,
        name: Blob::copy(alloc, version.name.get().as_bytes())?,
        num: version.num,
    })
}

// Where the version of this bucket and number stands.
fn spot_in<'a>(
    spots: &'a BTreeMap<u64, Spot>,
    bucket: BucketNum,
    num: VersionNum,
) -> Option<&'a Spot>
    ensures { (versions : List (TheVersion TheExtent)) → spots.now.entries ≡ map spot_entry versions
        → AreNumbered versions → option_copied result
        ≡ option_map spot_of (find (λ v. v.bucket == bucket && v.num == num) versions) }
{
    let spot = spots.get(&num.get())?;
    if spot.bucket == bucket {
        Some(spot)
    } else {
        None
    }
}

// A large file that is begun stands among the starts too.
fn add_start(alloc: Global, starts: &mut Index<FileName>, version: &Version) -> Result<(), Memory>
    requires free { value_at (start_spot version.now.bucket version.now.num) starts.old ≡ None }
    ensures { OnOk result (starts.new ≡ with_start version.now starts.old) }
{
    match version.action {
        Action::Start => {}
        Action::Upload | Action::Hide => return Ok(()),
    }
    let spot = start_place(alloc, version.bucket, version.num);
    let name = copy_name(alloc, &version.name)?;
    match starts.insert(spot, name) {
        Ok(()) => Ok(()),
        Err(_) => Err(Memory),
    }
}

impl Versions {
    /// No versions.
    pub fn new(alloc: Global) -> Versions
        ensures { result ≡ [] }
    {
        Versions {
            index: Index::new(alloc),
            spots: BTreeMap::new(alloc),
            starts: Index::new(alloc),
        }
    }

    /// Whether a version has this number.
    pub fn has_number(&self, num: VersionNum) -> bool
        ensures { result ≡ list_any (λ v. v.num == num) self.now }
    {
        self.spots.contains_key(&num.get())
    }

    /// The version of this bucket and number.
    pub fn get(&self, bucket: BucketNum, num: VersionNum) -> Option<&Version>
        ensures { option_copied result ≡ find (λ v. v.bucket == bucket && v.num == num) self.now }
    {
        let spot = spot_in(&self.spots, bucket, num)?;
        self.index.get(spot)
    }

    /// The versions with one more, of a number that none has.
    pub fn put(self, alloc: Global, version: Version) -> Result<Versions, Memory>
        requires free { list_any (λ v. v.num == version.num) self ≡ false }
        ensures { IfOk result (λ versions. versions ≡ put_by (λ v. v.num) version self) }
    {
        let Versions {
            mut index,
            mut spots,
            mut starts,
        } = self;
        let num = version.num.get();
        add_start(alloc, &mut starts, &version)?;
        let spot = spot_for(alloc, &version)?;
        spots.insert(num, spot)?;
        let spot = spot_for(alloc, &version)?;
        match index.insert(spot, version) {
            Ok(()) => {}
            Err(_) => return Err(Memory),
        }
        Ok(Versions {
            index,
            spots,
            starts,
        })
    }

    /// Takes away the version of this bucket and number.
    pub fn take(&mut self, alloc: Global, bucket: BucketNum, num: VersionNum) -> Option<Version>
        ensures value { result ≡ find (λ v. v.bucket == bucket && v.num == num) self.old }
        ensures left { self.new
            ≡ filter (λ v. not (v.bucket == bucket && v.num == num)) self.old }
    {
        let Some(_) = spot_in(&self.spots, bucket, num) else {
            return None;
        };
        let Some(spot) = self.spots.remove(&num.get()) else {
            return None;
        };
        let place = start_place(alloc, bucket, num);
        let _ = self.starts.remove(&place);
        self.index.remove(&spot)
    }
}

impl Versions {
    /// How many they are.
    pub fn count(&self) -> usize
        ensures { result ≡ length self.now }
    {
        self.spots.len()
    }

    /// Whether one of them stands in the bucket.
    pub fn has_bucket(&self, alloc: Global, bucket: BucketNum) -> bool
        ensures { result ≡ list_any (λ v. v.bucket == bucket) self.now }
    {
        match self.index.from_bucket(alloc, bucket).next() {
            Some(row) => row.0.bucket == bucket,
            None => false,
        }
    }

    /// The versions in listing order.
    pub fn index(&self) -> &Index<Version>
        ensures own { AreOwn result.now }
        ensures numbered { AreNumbered self.now }
        ensures listed { (M : State TheExtent) (bucket : ℕ) → M.versions ≡ self.now
            → of_bucket bucket result.now ≡ rows M bucket }
    {
        &self.index
    }

    /// The large files that were begun and are not finished.
    pub fn starts(&self) -> &Index<FileName>
        ensures starts { AreStarts result.now }
        ensures listed { (bucket : ℕ) → AreStartsOf self.now bucket result.now }
    {
        &self.starts
    }
}
