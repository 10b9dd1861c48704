//! What stays where a deletion is refused.

ghost use Rattle.std.specs.Prelude.{◌≡◌, [], ◌∷◌, Some, true, false, codes, map};
ghost use Rattle.rule_table.specs.declared.fault.FaultKind.TheVariants.{NoFile, P11};
ghost use Rattle.b2_types.specs.Fault.{plain};
ghost use Rattle.b2_types.specs.LifecycleRules.{are_rules};
ghost use Rattle.b2_model.specs.Version.{marker};
ghost use Rattle.worked_rows.specs.Store.{refusal, upload_at, start_at};
ghost use Rattle.worked_cases.specs.Deletions.{buckets_after, lock_store, delete_named, version_numbers, hold_on, hold_off, rule_for};

/// A bucket with a version of any kind stays, and so does a version under another name.
pub fn refused_deletions()
    ensures upload { buckets_after (upload_at 1 1 (codes "a") []) ≡ 1 ∷ [] }
    ensures marker { buckets_after (marker 1 1 (codes "a") 1) ≡ 1 ∷ [] }
    ensures start { buckets_after (start_at 1 1 (codes "a")) ≡ 1 ∷ [] }
    ensures name { refusal (delete_named lock_store (codes "b")).answer ≡ Some (plain NoFile) }
    ensures stays { version_numbers (delete_named lock_store (codes "b")) ≡ 1 ∷ [] }
    ensures gone { version_numbers (delete_named lock_store (codes "a")) ≡ [] }
{}

/// A hold that is put on keeps the version from everyone until it is taken off.
pub fn hold_put_on()
    ensures put { map (λ v. v.hold) hold_on.state.versions ≡ true ∷ [] }
    ensures held { refusal (delete_named hold_on.state (codes "a")).answer ≡ Some (plain P11) }
    ensures stays { version_numbers (delete_named hold_on.state (codes "a")) ≡ 1 ∷ [] }
    ensures off { version_numbers (delete_named hold_off.state (codes "a")) ≡ [] }
{}

/// Of two rules none begins with the other's prefix.
pub fn overlapping_rules()
    ensures begins { are_rules (rule_for (codes "a/") ∷ rule_for (codes "a/b") ∷ []) ≡ false }
    ensures begun { are_rules (rule_for (codes "a/b") ∷ rule_for (codes "a/") ∷ []) ≡ false }
    ensures same { are_rules (rule_for (codes "a/") ∷ rule_for (codes "a/") ∷ []) ≡ false }
    ensures apart { are_rules (rule_for (codes "a/b") ∷ rule_for (codes "a/c") ∷ []) ≡ true }
{}
