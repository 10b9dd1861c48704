//! What the answer to a download sends: pieces that stand in the state, as many bytes as it shows,
//! and a range that lies in them. A call that is so answered does nothing else.
#![tactic(auto)]

ghost use Rattle.std.specs.Prelude.{◌≡◌, ℕ, List, Option, Some, None, length, flat_map};
ghost use Rattle.b2_types.specs.declared.answer.AnswerOf.TheVariants.{Content};
ghost use Rattle.b2_types.specs.declared.answer.ContentOf.{ContentOf};
ghost use Rattle.b2_types.specs.declared.call.Call.{Call as TheCall};
ghost use Rattle.b2_types.specs.Answer.{IsSpanIn};
ghost use Rattle.b2_model.specs.State.{State, Pieces, length_of};
ghost use Rattle.b2_model.specs.Ask.{ask};
ghost use Rattle.b2_model.specs.Run.{asks, Progress, start_of, answer_to, step};
ghost use Rattle.machine_laws.specs.Ranges.{AsksInOrder};
ghost use Rattle.step_records.specs.StepRecords.{records_of, pass_records};
ghost use Rattle.download_laws.specs.Sent.{StandsIn, span_sent, LiesIn, HaveSizes, bytes_sent, sending};

/// Each piece of a content that is sent is one of the state that the call is asked of, and stands in
/// the state after it. In a step the call is asked of the state after the daily pass.
#[tactic(auto)]
pub fn sent_stands<C>()
    ensures asked { (P : Pieces C) (M : State C) (t : ℕ) (words : List ℕ) (token : Option (List ℕ))
        (c : TheCall) (x : ContentOf C) → (ask P M t words token c).answer ≡ Content x
        → StandsIn M x }
    ensures after { (P : Pieces C) (M : State C) (t : ℕ) (words : List ℕ) (token : Option (List ℕ))
        (c : TheCall) (x : ContentOf C) → (ask P M t words token c).answer ≡ Content x
        → StandsIn (ask P M t words token c).state x }
    ensures begun { (K : Pieces C) (P : Progress C) (reading : ℕ) (token : Option (List ℕ))
        (c : TheCall) (x : ContentOf C)
        → answer_to K P (asks reading token c) ≡ Some (Content x)
        → StandsIn (start_of P reading) x }
    ensures step { (K : Pieces C) (P : Progress C) (reading : ℕ) (token : Option (List ℕ))
        (c : TheCall) (x : ContentOf C)
        → answer_to K P (asks reading token c) ≡ Some (Content x)
        → StandsIn (step K P (asks reading token c)).state x }
{}

/// The length that is shown beside a content is that of its pieces, also by the bytes that they
/// stand for, where these are as many as the sizes say.
#[tactic(auto)]
pub fn sent_length<C>()
    ensures pieces { (P : Pieces C) (M : State C) (t : ℕ) (words : List ℕ)
        (token : Option (List ℕ)) (c : TheCall) (x : ContentOf C)
        → (ask P M t words token c).answer ≡ Content x
        → x.file.length ≡ length_of P.size x.content }
    ensures bytes { (P : Pieces C) (M : State C) (t : ℕ) (words : List ℕ)
        (token : Option (List ℕ)) (c : TheCall) (x : ContentOf C) (bytes : C → List ℕ)
        → (ask P M t words token c).answer ≡ Content x → HaveSizes P.size bytes M
        → length (flat_map bytes x.content) ≡ x.file.length }
{}

/// What is sent of a content lies within it, whatever is asked for; a range that is asked for in
/// order has a byte. As many bytes are sent as the span says: without a range all.
#[tactic(auto)]
pub fn sent_range<C>()
    ensures within { (P : Pieces C) (M : State C) (t : ℕ) (words : List ℕ)
        (token : Option (List ℕ)) (c : TheCall) (x : ContentOf C)
        → (ask P M t words token c).answer ≡ Content x → LiesIn x.file.length (span_sent x) }
    ensures in_order { (P : Pieces C) (M : State C) (t : ℕ) (words : List ℕ)
        (token : Option (List ℕ)) (c : TheCall) (x : ContentOf C) → AsksInOrder c
        → (ask P M t words token c).answer ≡ Content x → IsSpanIn x.file.length x.range }
    ensures bytes { (P : Pieces C) (M : State C) (t : ℕ) (words : List ℕ)
        (token : Option (List ℕ)) (c : TheCall) (x : ContentOf C) (bytes : C → List ℕ)
        → (ask P M t words token c).answer ≡ Content x → HaveSizes P.size bytes M
        → length (bytes_sent bytes x) ≡ (span_sent x).len }
    ensures whole { (P : Pieces C) (M : State C) (t : ℕ) (words : List ℕ)
        (token : Option (List ℕ)) (c : TheCall) (x : ContentOf C) (bytes : C → List ℕ)
        → (ask P M t words token c).answer ≡ Content x → HaveSizes P.size bytes M
        → x.range ≡ None → bytes_sent bytes x ≡ flat_map bytes x.content }
{}

/// A call that is answered with a content moves the moment of the state alone: the versions stay as
/// they are, and no word is drawn. Its step writes no record but the one of the daily pass.
#[tactic(auto)]
pub fn sent_untouched<C>()
    ensures outcome { (P : Pieces C) (M : State C) (t : ℕ) (words : List ℕ)
        (token : Option (List ℕ)) (c : TheCall) (x : ContentOf C)
        → (ask P M t words token c).answer ≡ Content x
        → ask P M t words token c ≡ sending M t words x }
    ensures versions { (P : Pieces C) (M : State C) (t : ℕ) (words : List ℕ)
        (token : Option (List ℕ)) (c : TheCall) (x : ContentOf C)
        → (ask P M t words token c).answer ≡ Content x
        → (ask P M t words token c).state.versions ≡ M.versions }
    ensures step { (K : Pieces C) (P : Progress C) (reading : ℕ) (token : Option (List ℕ))
        (c : TheCall) (x : ContentOf C)
        → answer_to K P (asks reading token c) ≡ Some (Content x)
        → (step K P (asks reading token c)).state.versions ≡ (start_of P reading).versions }
    ensures records { (K : Pieces C) (P : Progress C) (reading : ℕ) (token : Option (List ℕ))
        (c : TheCall) (x : ContentOf C)
        → answer_to K P (asks reading token c) ≡ Some (Content x)
        → records_of K P (asks reading token c) ≡ pass_records P reading }
{}
