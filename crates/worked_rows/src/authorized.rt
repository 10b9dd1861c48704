//! Authorize, and a secret that is wrong.

ghost use Rattle.std.specs.Prelude.{◌≡◌, [], ◌∷◌, Some, map};
ghost use Rattle.rule_table.specs.declared.fault.FaultKind.TheVariants.{P1, P2};
ghost use Rattle.b2_types.specs.Fault.{plain};
ghost use Rattle.worked_rows.specs.Store.{refusal, open_store};
ghost use Rattle.worked_rows.specs.Authorize.{authorization, other_secret, no_header, token};

/// The token's text, and that two words are drawn for it.
pub fn authorize()
    ensures text { map (λ g. g.text) authorization.state.grants ≡ token ∷ [] }
    ensures end { map (λ g. g.end) authorization.state.grants ≡ 86401000 ∷ [] }
    ensures words { authorization.words ≡ 3 ∷ 4 ∷ [] }
{}

/// No word is drawn, and the state stays but for its moment.
pub fn wrong_secret()
    ensures secret { refusal other_secret.answer ≡ Some (plain P2) }
    ensures words { other_secret.words ≡ 1 ∷ 2 ∷ 3 ∷ 4 ∷ [] }
    ensures state { other_secret.state ≡ record open_store { now = 1000 } }
    ensures header { refusal no_header.answer ≡ Some (plain P1) }
{}
