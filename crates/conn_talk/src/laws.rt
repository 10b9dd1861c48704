//! What holds of requests, however their bytes come.

ghost use Rattle.std.specs.Prelude.{◌≡◌, ◌≤◌, ℕ, true, false, List, ◌∷◌, ◌++◌};
ghost use Rattle.std.specs.List.{concat};
ghost use Rattle.conn_talk.specs.declared.act.Act.{Act as TheAct};
ghost use Rattle.rule_table.specs.declared.fault.FaultKind.{FaultKind as TheKind};
ghost use Rattle.http_edge.specs.declared.head.Head.{Head as TheHead};
ghost use Rattle.conn_talk.specs.Asked.{Asked, nothing, refused, complete, IsAsked, stay_of, goes_on, with_more, last_request};
ghost use Rattle.conn_talk.specs.Acts.{acts_of, joined};
ghost use Rattle.conn_talk.specs.Pieces.{AreRead};
ghost use Rattle.conn_talk.specs.Talk.{Talk, TakesPiece};

/// The bytes of a request ask for one thing.
pub fn one_asked()
    ensures { (before : ℕ) (bytes : List ℕ) (a b : Asked) → IsAsked before bytes a
        → IsAsked before bytes b → a ≡ b }
{}

/// The cut of a request into pieces changes no act: with the bytes of a body joined, the acts are
/// those that all its bytes bring at once.
pub fn cut_into_pieces()
    ensures asked { (before : ℕ) (got piece : List ℕ) (pieces : List (List ℕ)) (acts : List TheAct)
        (last : Asked) → AreRead before got nothing (piece ∷ pieces) acts last
        → IsAsked before (got ++ concat (piece ∷ pieces)) last }
    ensures acts { (before : ℕ) (got piece : List ℕ) (pieces : List (List ℕ)) (acts : List TheAct)
        (last : Asked) → AreRead before got nothing (piece ∷ pieces) acts last
        → joined acts ≡ acts_of last }
    ensures same { (before : ℕ) (got piece other : List ℕ) (pieces others : List (List ℕ))
        (acts more : List TheAct) (last end : Asked)
        → AreRead before got nothing (piece ∷ pieces) acts last
        → AreRead before got nothing (other ∷ others) more end
        → concat (piece ∷ pieces) ≡ concat (other ∷ others)
        → (last ≡ end) × (joined acts ≡ joined more) }
{}

/// What came stays what it is, whatever comes after it: a whole request with its body, before the
/// bytes that come, and a refused form.
pub fn asked_as_it_comes()
    ensures complete { (before : ℕ) (bytes more : List ℕ) (head : TheHead) (body rest : List ℕ)
        → IsAsked before bytes (complete head body rest)
        → IsAsked before (bytes ++ more) (complete head body (rest ++ more)) }
    ensures refused { (before : ℕ) (bytes more : List ℕ) (kind : TheKind)
        → IsAsked before bytes (refused kind) → IsAsked before (bytes ++ more) (refused kind) }
{}

/// A connection ends with the last request that it may have, and with one after which more bytes
/// came than may be held: no byte that comes later changes that.
pub fn ends_of_connections()
    ensures last { (before : ℕ) (bytes : List ℕ) (a : Asked) → last_request ≤ before
        → IsAsked before bytes a → stay_of a ≡ false }
    ensures held { (a : Asked) (more : List ℕ) → goes_on (with_more a more) ≡ true
        → goes_on a ≡ true }
{}

/// A talk and the bytes of a piece determine the acts, and the talk after it.
pub fn one_turn<B>()
    ensures { (a : Talk B) (bytes : List ℕ) (acts more : List TheAct) (b c : Talk B)
        → TakesPiece a bytes acts b → TakesPiece a bytes more c → (acts ≡ more) × (b ≡ c) }
{}
