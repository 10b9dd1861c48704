//! Rows that the definitions compute on a small store, for what must never change unseen.

ghost use Rattle.std.specs.Prelude.{◌≡◌, ℕ, Bool, List, [], ◌∷◌, Some, true, map};
ghost use Rattle.rule_table.specs.declared.fault.FaultKind.TheVariants.{P1, P2, P3, P4, P5, P6};
ghost use Rattle.b2_types.specs.declared.kinds.TokenKind.{TokenKind as TheKind};
ghost use Rattle.b2_types.specs.Fault.{plain};
ghost use Rattle.b2_model.specs.Policy.{Caller, token_rules};
ghost use Rattle.b2_model.specs.Stored.{replay, snapshot, stored_part};
ghost use Rattle.b2_model.specs.SmallStore.{with_start, current_number, numbers_after_pass, keys_shown};

/// The rules of tokens are judged in the order of their names.
pub fn order_of_token_rules()
    ensures { (t : ℕ) (kinds : List TheKind) (who : Caller)
        → map (λ c. c.fault) (token_rules t kinds (λ g. true) who)
        ≡ map plain (P1 ∷ P2 ∷ P3 ∷ P4 ∷ P5 ∷ P6 ∷ []) }
{}

/// A page has 1,000 rows at most, and what is held outlives the pass.
pub fn bounds_of_pages_and_passes()
    ensures keys { keys_shown ≡ 1000 }
    ensures held { numbers_after_pass ≡ 1 ∷ 2 ∷ [] }
{}

/// A start hides no upload, a snapshot has its parts, and its number is given once.
pub fn starts_in_a_store()
    ensures current { current_number ≡ Some 1 }
    ensures snapshot { replay (snapshot (stored_part with_start)) ≡ Some (stored_part with_start) }
    ensures next { with_start.next_version ≡ 3 }
{}
