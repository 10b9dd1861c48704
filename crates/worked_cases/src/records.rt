//! Records that apply, and records that don't.

ghost use Rattle.std.specs.Prelude.{◌≡◌, [], ◌∷◌, None, Some, true, false, codes, option_map};
ghost use Rattle.b2_types.specs.declared.record.ChangeOf.TheVariants as change;
ghost use Rattle.worked_rows.specs.Store.{numbers_in, part_numbers_in, settings, photos_1, id_in};
ghost use Rattle.worked_cases.specs.Records.{opens, opens_with, opens_after_numbers, numbers, upload_of, part_of, bucket_make, key_make, falling_state, bucket_numbers, key_numbers, make_and_drop, hide_in};

/// The settings come once, and so do the numbers, none too low; after them no moment falls.
pub fn records_of_numbers()
    ensures settings { opens_with (change.Settings settings) ≡ false }
    ensures numbers { opens_with (numbers 2 2 5) ≡ true }
    ensures version_low { opens_with (numbers 2 2 4) ≡ false }
    ensures bucket_low { opens_with (numbers 1 2 5) ≡ false }
    ensures key_low { opens_with (numbers 2 1 5) ≡ false }
    ensures second { opens_after_numbers 100 (numbers 2 2 5) ≡ false }
    ensures later { opens_after_numbers 100 change.Pass ≡ true }
    ensures falls { opens_after_numbers 99 change.Pass ≡ false }
    ensures same_boot { opens_after_numbers 100 (change.Boot 1) ≡ false }
    ensures next_boot { opens_after_numbers 100 (change.Boot 2) ≡ true }
{}

/// A bucket has a number and a name that are free, and goes without versions.
pub fn records_of_buckets()
    ensures made { opens_with (bucket_make 2 (codes "photos-2")) ≡ true }
    ensures case { opens_with (bucket_make 2 (codes "PHOTOS-1")) ≡ false }
    ensures taken { opens_with (bucket_make 1 (codes "photos-2")) ≡ false }
    ensures zero { opens_with (bucket_make 0 (codes "photos-2")) ≡ false }
    ensures last { opens_with (bucket_make 4294967294 (codes "photos-2")) ≡ true }
    ensures end_of { opens_with (bucket_make 4294967295 (codes "photos-2")) ≡ false }
    ensures update { opens_with (change.BucketUpdate photos_1) ≡ true }
    ensures absent { opens_with (change.BucketUpdate (record photos_1 { num = 2 })) ≡ false }
    ensures full { opens_with (change.BucketDrop 1) ≡ false }
    ensures empty { opens make_and_drop ≡ true }
{}

/// A key has a number that is free and not that of the master key, which stays.
pub fn records_of_keys()
    ensures made { opens_with (key_make 2) ≡ true }
    ensures taken { opens_with (key_make 1) ≡ false }
    ensures master { opens_with (key_make 0) ≡ false }
    ensures end_of { opens_with (key_make 4294967295) ≡ false }
    ensures master_drop { opens_with (change.KeyDrop 0) ≡ false }
    ensures drop { opens_with (change.KeyDrop 1) ≡ true }
    ensures absent_drop { opens_with (change.KeyDrop 2) ≡ false }
{}

/// A version has a number that is free, in a bucket that stands; each change is of its own kind of
/// version.
pub fn records_of_versions()
    ensures made { opens_with (upload_of 5) ≡ true }
    ensures taken { opens_with (upload_of 1) ≡ false }
    ensures zero { opens_with (upload_of 0) ≡ false }
    ensures bucket { opens_with (hide_in 2) ≡ false }
    ensures part { opens_with (part_of 2) ≡ true }
    ensures part_of_upload { opens_with (part_of 1) ≡ false }
    ensures finish { opens_with (change.Finish (id_in 1) None) ≡ false }
    ensures cancel { opens_with (change.Cancel (id_in 1)) ≡ false }
    ensures retain { opens_with (change.Retain (id_in 2) None) ≡ false }
    ensures hold { opens_with (change.Hold (id_in 3) true) ≡ false }
    ensures pieces { opens_with (change.SnapExtents (id_in 4) (codes "abc" ∷ [])) ≡ true }
    ensures small { opens_with (change.SnapExtents (id_in 1) (codes "abc" ∷ [])) ≡ false }
    ensures drop { opens_with (change.VersionDrop (id_in 5)) ≡ false }
{}

/// Lists stand by number, in whatever order the records come.
pub fn lists_by_number()
    ensures buckets { option_map bucket_numbers falling_state ≡ Some (1 ∷ 2 ∷ []) }
    ensures versions { option_map numbers_in falling_state ≡ Some (1 ∷ 2 ∷ []) }
    ensures parts { option_map part_numbers_in falling_state ≡ Some ([] ∷ (1 ∷ 3 ∷ []) ∷ []) }
    ensures keys { option_map key_numbers falling_state ≡ Some (0 ∷ 1 ∷ 2 ∷ []) }
{}
