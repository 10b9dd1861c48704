//! Calls on buckets.

ghost use Rattle.std.specs.Prelude.{◌≡◌, [], ◌∷◌, None, Some, true, codes, map};
ghost use Rattle.rule_table.specs.declared.fault.FaultKind.TheVariants.{Duplicate, TooManyBuckets, Conflict, LockStays, LockOff, NotEmpty, NoBucket, Cap};
ghost use Rattle.b2_types.specs.declared.answer.AnswerOf.TheVariants.{Json, Refused};
ghost use Rattle.b2_types.specs.declared.shown.Shown.TheVariants.{Bucket};
ghost use Rattle.b2_types.specs.Fault.{plain, with_number};
ghost use Rattle.worked_rows.specs.Store.{refusal, photos_1, lock_bucket};
ghost use Rattle.worked_rows.specs.Buckets.{create_refused, without_numbers, lock_update, lock_taken_off, second_bucket, last_revision, photos, again, shown_photos, hundred, update, updated_if, update_refused, ten_days, deletion, start_store, listed_by, two_buckets};

/// A new bucket has revision 1, and its name is taken without regard to case.
pub fn create_bucket()
    ensures made { photos.answer ≡ Json (Bucket shown_photos) }
    ensures next { photos.state.next_bucket ≡ 2 }
    ensures again { again.answer ≡ Refused (plain Duplicate) }
    ensures most { create_refused hundred ≡ Some (plain TooManyBuckets) }
    ensures cap { create_refused without_numbers ≡ Some (plain Cap) }
{}

/// An update names the revision that it knows, or none; what is not given stays.
pub fn revision_conflict()
    ensures refused { refusal (updated_if (Some 1)).answer ≡ Some (with_number Conflict 2) }
    ensures stays { map (λ b. b.revision) (updated_if (Some 1)).state.buckets ≡ 2 ∷ [] }
    ensures updated { map (λ b. b.revision) (updated_if (Some 2)).state.buckets ≡ 3 ∷ [] }
    ensures public { map (λ b. b.public) (updated_if None).state.buckets ≡ true ∷ [] }
    ensures name { map (λ b. b.name) (updated_if None).state.buckets ≡ codes "photos-1" ∷ [] }
{}

/// Object Lock stays on, and a default retention wants it.
pub fn locks_of_buckets()
    ensures stays { update_refused lock_bucket lock_taken_off ≡ Some (plain LockStays) }
    ensures off { update_refused photos_1 (lock_update ten_days None) ≡ Some (plain LockOff) }
    ensures taken_off { update_refused photos_1 (lock_update (Some None) None) ≡ None }
    ensures on { update_refused photos_1 (lock_update ten_days (Some true)) ≡ None }
    ensures none { update_refused second_bucket (update None) ≡ Some (plain NoBucket) }
    ensures cap { update_refused last_revision (update None) ≡ Some (plain Cap) }
{}

/// A bucket goes where no version of any action stands in it; each filter of a listing holds.
pub fn deletion_and_listing()
    ensures full { refusal (deletion start_store).answer ≡ Some (plain NotEmpty) }
    ensures gone { map (λ b. b.num) (deletion two_buckets).state.buckets ≡ 2 ∷ [] }
    ensures all { listed_by None None (Some []) ≡ 1 ∷ 2 ∷ [] }
    ensures by_name { listed_by None (Some (codes "PHOTOS-2")) None ≡ 2 ∷ [] }
    ensures both { listed_by (Some 1) (Some (codes "photos-2")) None ≡ [] }
    ensures by_type { listed_by None None (Some (codes "allPublic" ∷ [])) ≡ 2 ∷ [] }
{}
