//! Keys: their making, their deletion and their pages.

ghost use Rattle.std.specs.Prelude.{◌≡◌, [], ◌∷◌, None, Some, codes, map, option_map};
ghost use Rattle.rule_table.specs.declared.cap.Cap.TheVariants.{ListKeys, ListFiles, ReadFiles};
ghost use Rattle.rule_table.specs.declared.fault.FaultKind.TheVariants.{KeyCaps, KeyLimit, NoBucket, NoKey, Master, P6};
ghost use Rattle.b2_types.specs.Fault.{plain};
ghost use Rattle.worked_rows.specs.Store.{master, account};
ghost use Rattle.worked_rows.specs.Keys.{key_of_maker, ends_by, refused_to, its_token, deletion_of, page, short, secret, secret_text, account_of, too_late};

/// A key has no more than its maker, and one that is limited to a bucket none of the five that
/// reach beyond it; four words are drawn for its secret.
pub fn new_keys()
    ensures caps { refused_to its_token (ReadFiles ∷ []) None ≡ Some (plain KeyCaps) }
    ensures limit { refused_to master (ListKeys ∷ []) (Some (1 ∷ [])) ≡ Some (plain KeyLimit) }
    ensures bucket { refused_to master (ListFiles ∷ []) (Some (2 ∷ [])) ≡ Some (plain NoBucket) }
    ensures nums { map (λ k. k.num) key_of_maker.state.keys ≡ 0 ∷ 1 ∷ 2 ∷ [] }
    ensures next { key_of_maker.state.next_key ≡ 3 }
    ensures ends { ends_by its_token ≡ None ∷ None ∷ Some 61000 ∷ [] }
    ensures words { key_of_maker.words ≡ [] }
{}

/// The master key stays, and an id of another account names no key.
pub fn deletion_of_keys()
    ensures master { deletion_of account ≡ Some (plain Master) }
    ensures other { deletion_of (codes "001a1b2c3d4e5f70000000001") ≡ Some (plain NoKey) }
    ensures gone { deletion_of (codes "001a1b2c3d4e5f60000000001") ≡ None }
{}

/// Pages are by number, and leave out the master key.
pub fn pages_of_keys()
    ensures rows { map (λ k. k.num) page.rows ≡ 1 ∷ [] }
    ensures next { option_map (λ k. k.num) page.next ≡ Some 2 }
{}

/// A new key's secret is its four words, and the key authorizes with it until its end.
pub fn key_for_a_second()
    ensures secret { secret short.answer ≡ Some secret_text }
    ensures num { map (λ g. g.key) (account_of secret_text).state.grants ≡ 0 ∷ 1 ∷ 2 ∷ [] }
    ensures late { too_late ≡ Some (plain P6) }
{}
