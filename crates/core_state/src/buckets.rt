//! Records of buckets.

ghost use Rattle.std.specs.Prelude.{◌≡◌, ◌==◌, not, true, filter, map, nat_lt, position, if◌then◌else◌, IfOk, OnOk};
ghost use Rattle.std.specs.List.{position_or_len};
ghost use Rattle.b2_types.specs.declared.record.ChangeOf.TheVariants as change;
ghost use Rattle.b2_model.specs.Changes.{after_record};
ghost use Rattle.b2_model.specs.Lists.{put_by};
ghost use Rattle.b2_model.specs.Stored.{applies_change};
ghost use Rattle.sound_states.specs.Sound.{IsAscending};

use crate::state::Core;
use b2_base::{BucketNum, Memory, Moment};
use b2_types::Bucket;

// The place of the first bucket of a greater number.
fn first_after(buckets: &[Bucket], num: BucketNum) -> Option<usize>
    ensures { result ≡ position (λ b. nat_lt num b.num) buckets.now }
{
    buckets
        .iter()
        .position(|bucket| num.get() < bucket.num.get())
}

// The place of a bucket of this number among those by number.
fn place_of(buckets: &[Bucket], num: BucketNum) -> usize
    ensures { result ≡ position_or_len (λ b. nat_lt num b.num) buckets.now }
{
    first_after(buckets, num).unwrap_or(buckets.len())
}

// The place of the bucket of this number.
fn found_at(buckets: &[Bucket], num: BucketNum) -> Option<usize>
    ensures { result ≡ position (λ b. b.num == num) buckets.now }
{
    buckets
        .iter()
        .position(|bucket| bucket.num.get() == num.get())
}

// Puts the bucket at its place.
fn add(buckets: &mut Vec<Bucket>, bucket: Bucket) -> Result<(), Memory>
    ensures { OnOk result (buckets.new.items ≡ put_by (λ b. b.num) bucket buckets.old.items) }
{
    let place = place_of(buckets, bucket.num);
    buckets.insert(place, bucket)?;
    Ok(())
}

// Puts the bucket in the place of that of its number, where there is one.
fn replace(buckets: &mut Vec<Bucket>, bucket: Bucket)
    requires order { IsAscending (λ b. b.num) buckets.old.items }
    ensures { buckets.new.items
        ≡ map (λ b. if b.num == bucket.num then bucket else b) buckets.old.items }
{
    if let Some(place) = found_at(buckets, bucket.num) {
        buckets[place] = bucket;
    }
}

// Takes away the bucket of this number.
fn remove(buckets: &mut Vec<Bucket>, num: BucketNum)
    ensures { buckets.new.items ≡ filter (λ b. not (b.num == num)) buckets.old.items }
{
    buckets.retain(|bucket| bucket.num.get() != num.get());
}

impl Core {
    /// The state after the record of a bucket that is made.
    pub fn make_bucket(self, t: Moment, bucket: Bucket) -> Result<Core, Memory>
        requires applies { applies_change self (change.BucketMake bucket) ≡ true }
        ensures { IfOk result (λ core. core ≡ after_record self
            (record { at = t; change = change.BucketMake bucket })) }
    {
        let mut parts = self.parts;
        let next = parts.next_bucket.get().max(bucket.num.get() + 1);
        add(&mut parts.buckets, bucket)?;
        parts.next_bucket = BucketNum::new(next).unwrap();
        parts.now = t;
        parts.kept = t;
        Ok(Core { parts })
    }

    /// The state after the record of a bucket that is updated: this is the bucket as it is then.
    pub fn update_bucket(mut self, t: Moment, bucket: Bucket) -> Core
        requires applies { applies_change self (change.BucketUpdate bucket) ≡ true }
        ensures { result ≡ after_record self
            (record { at = t; change = change.BucketUpdate bucket }) }
    {
        replace(&mut self.parts.buckets, bucket);
        self.parts.now = t;
        self.parts.kept = t;
        self
    }

    /// The state after the record of a bucket that is dropped.
    pub fn drop_bucket(mut self, t: Moment, num: BucketNum) -> Core
        requires applies { applies_change self (change.BucketDrop num) ≡ true }
        ensures { result ≡ after_record self
            (record { at = t; change = change.BucketDrop num }) }
    {
        remove(&mut self.parts.buckets, num);
        self.parts.now = t;
        self.parts.kept = t;
        self
    }
}
