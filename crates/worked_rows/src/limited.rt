//! A key that is limited to a bucket and a prefix, the life of a token, and a key that is deleted.

ghost use Rattle.std.specs.Prelude.{◌≡◌, [], ◌∷◌, None, Some, codes, map};
ghost use Rattle.rule_table.specs.declared.fault.FaultKind.TheVariants.{P1, P2, P4, P5, P6, P7, P8, P9, P10};
ghost use Rattle.b2_types.specs.Fault.{plain};
ghost use Rattle.worked_rows.specs.Store.{master, account};
ghost use Rattle.worked_rows.specs.Limited.{refused_at, listing, download_refused, create, list_keys, its_token, used_at, used_after_pass, key_deletion, after_deletion};

/// It reaches its bucket and its prefix, and nothing else; another bucket is refused alike whether
/// it stands or not.
pub fn key_with_a_prefix()
    ensures prefix { refused_at 1000 its_token (listing 1 (codes "log")) ≡ Some (plain P10) }
    ensures listed { refused_at 1000 its_token (listing 1 (codes "logs/2")) ≡ None }
    ensures served { download_refused (codes "PHOTOS-1") (codes "logs/a") ≡ None }
    ensures name { download_refused (codes "photos-1") (codes "lags/a") ≡ Some (plain P10) }
    ensures bucket { refused_at 1000 its_token (listing 2 (codes "logs/")) ≡ Some (plain P9) }
    ensures by_name { download_refused (codes "photos-2") (codes "logs/a") ≡ Some (plain P9) }
    ensures create { refused_at 1000 its_token create ≡ Some (plain P7) }
    ensures account { refused_at 1000 master (list_keys (codes "000000000000")) ≡ Some (plain P8) }
    ensures token { refused_at 1000 (Some (codes "none")) (list_keys account) ≡ Some (plain P2) }
    ensures none { refused_at 1000 None (list_keys account) ≡ Some (plain P1) }
    ensures key_end { refused_at 5000000 its_token (listing 1 (codes "logs/")) ≡ Some (plain P6) }
{}

/// A token is good until its end, and is forgotten by a pass a day later.
pub fn life_of_a_token()
    ensures served { used_at 86400999 ≡ None }
    ensures ended { used_at 86401000 ≡ Some (plain P5) }
    ensures kept { used_after_pass 172800999 ≡ Some (plain P5) ∷ [] }
    ensures forgotten { used_after_pass 172801000 ≡ Some (plain P2) ∷ [] }
{}

/// What a key was given goes with it.
pub fn deleted_key()
    ensures keys { map (λ k. k.num) key_deletion.state.keys ≡ 0 ∷ [] }
    ensures after { after_deletion ≡ Some (plain P4) }
{}
