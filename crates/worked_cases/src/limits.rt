//! What a key that is limited to a bucket and a prefix reaches.

ghost use Rattle.std.specs.Prelude.{◌≡◌, [], ◌∷◌, None, Some, true, false, codes};
ghost use Rattle.rule_table.specs.declared.fault.FaultKind.TheVariants.{P3, P9, P10, NoFile};
ghost use Rattle.b2_types.specs.Fault.{plain};
ghost use Rattle.worked_cases.specs.Limits.{by_key, by_share, get, names_of, info_of, buckets_of, second_name, buckets_shown, shown_from};

/// Another bucket is refused alike whether it stands or not.
pub fn other_buckets()
    ensures own { by_key true (names_of 1) ≡ None }
    ensures stands { by_key true (names_of 2) ≡ Some (plain P9) }
    ensures absent { by_key false (names_of 2) ≡ Some (plain P9) }
    ensures own_name { by_key true (get (codes "photos-1") (codes "logs/a")) ≡ None }
    ensures name_stands { by_key true (get (codes "photos-2") (codes "logs/a")) ≡ Some (plain P9) }
    ensures name_absent { by_key false (get (codes "photos-2") (codes "logs/a"))
        ≡ Some (plain P9) }
{}

/// So it is for a download token.
pub fn share_tokens()
    ensures own { by_share true (get (codes "photos-1") (codes "logs/a")) ≡ None }
    ensures prefix { by_share true (get (codes "photos-1") (codes "b")) ≡ Some (plain P10) }
    ensures stands { by_share true (get (codes "photos-2") (codes "logs/a")) ≡ Some (plain P9) }
    ensures absent { by_share false (get (codes "photos-2") (codes "logs/a")) ≡ Some (plain P9) }
    ensures listing { by_share true (names_of 1) ≡ Some (plain P3) }
{}

/// A limited key lists its own bucket alone, and has to say so.
pub fn listing_of_buckets()
    ensures none { by_key true (buckets_of None None) ≡ Some (plain P9) }
    ensures by_number { buckets_shown true (Some 1) None ≡ 1 ∷ [] }
    ensures by_name { buckets_shown true None (Some (codes "PHOTOS-1")) ≡ 1 ∷ [] }
    ensures both { buckets_shown true (Some 1) (Some (codes "photos-1")) ≡ 1 ∷ [] }
    ensures other_number { by_key true (buckets_of (Some 2) None) ≡ Some (plain P9) }
    ensures absent_number { by_key false (buckets_of (Some 2) None) ≡ Some (plain P9) }
    ensures other_name { by_key true (buckets_of None second_name) ≡ Some (plain P9) }
    ensures absent_name { by_key false (buckets_of None second_name) ≡ Some (plain P9) }
    ensures mixed { by_key true (buckets_of (Some 1) second_name) ≡ Some (plain P9) }
{}

/// The file of a number is one of the bucket that stands beside the number.
pub fn file_information()
    ensures own { by_key true (info_of 1 1) ≡ None }
    ensures prefix { by_key true (info_of 1 3) ≡ Some (plain P10) }
    ensures bucket { by_key true (info_of 2 2) ≡ Some (plain P9) }
    ensures number { by_key true (info_of 1 2) ≡ Some (plain NoFile) }
{}

/// A download from an open bucket shows by no key, whatever token is given.
pub fn downloads_from_an_open_bucket()
    ensures open { shown_from true ≡ Some false }
    ensures private { shown_from false ≡ Some true }
{}
