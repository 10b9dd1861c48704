//! The machine over two kinds of contents, of which those of one stand for those of the other: step
//! by step and record by record, where what a piece stands for may change in between.
#![tactic(auto)]

ghost use Rattle.std.specs.Prelude.{◌≡◌, ◌⊎◌, ℕ, List, ◌∷◌, ◌++◌, Option, All, Contains, fold, map, option_map, option_and_then};
ghost use Rattle.b2_types.specs.declared.record.ChangeOf.{ChangeOf};
ghost use Rattle.b2_types.specs.declared.record.RecordOf.{RecordOf};
ghost use Rattle.b2_model.specs.State.{State, Pieces};
ghost use Rattle.b2_model.specs.Changes.{after_record};
ghost use Rattle.b2_model.specs.Contents.{state_by, change_by, answer_by, step_by};
ghost use Rattle.b2_model.specs.Stored.{applies_change, Replayed, replay_on, replay_from, replay};
ghost use Rattle.b2_model.specs.Run.{Step, Progress, answer_to, step};
ghost use Rattle.contents_agree.specs.ContentsOf.{contents_of};
ghost use Rattle.contents_steps.specs.Copies.{brought_by, KeepsSizes, CopiesAlong, StandsFor};
ghost use Rattle.contents_steps.specs.Turns.{Turn, AreTurns, after_turns, steps_of, last_meaning, answers_of};
ghost use Rattle.contents_steps.specs.Entries.{record_by, replayed_by, Entry, AreEntries, entries, entries_by, final_meaning};

/// A content of the state after a step stood in the state before, or came with the step.
#[tactic(auto)]
pub fn contents_after_steps<C>()
    ensures { (P : Pieces C) (R : Progress C) (s : Step C) (c : C)
        → Contains (contents_of (step P R s).state) c
        → Contains (contents_of R.state) c ⊎ Contains (brought_by P R s) c }
{}

/// Where the pieces of one machine stand for those of another, a step keeps it so, and both answer
/// the same but for the pieces that are sent. What a piece stands for may change between steps, as
/// long as the pieces of the state stand for what they did. A day's pass can be a step of its own.
#[tactic(auto)]
pub fn steps_stand_for_steps<C, D>()
    ensures step { (f : C → D) (P : Pieces C) (Q : Pieces D) (R : Progress C) (S : Progress D)
        (s : Step C) → KeepsSizes f P Q → CopiesAlong f P Q R s → StandsFor f R S
        → StandsFor f (step P R s) (step Q S (step_by f s)) }
    ensures answer { (f : C → D) (P : Pieces C) (Q : Pieces D) (R : Progress C) (S : Progress D)
        (s : Step C) → KeepsSizes f P Q → CopiesAlong f P Q R s → StandsFor f R S
        → answer_to Q S (step_by f s) ≡ option_map (answer_by f) (answer_to P R s) }
    ensures other { (f : C → D) (g : C → D) (R : Progress C) (S : Progress D)
        → All (λ c. f c ≡ g c) (contents_of R.state) → StandsFor f R S → StandsFor g R S }
    ensures run { (f : C → D) (Q : Pieces D) (R : Progress C) (S : Progress D)
        (us : List (Turn C D)) → AreTurns Q f R us → StandsFor f R S
        → StandsFor (last_meaning f us) (after_turns R us) (fold (step Q) S (steps_of us)) }
    ensures answers { (f : C → D) (Q : Pieces D) (R : Progress C) (S : Progress D)
        (us : List (Turn C D)) → AreTurns Q f R us → StandsFor f R S
        → (fold (step Q) S (steps_of us)).answers ≡ S.answers ++ answers_of R us }
{}

/// A record applies to the one state exactly where its counterpart applies to the other, whatever
/// its pieces stand for; and it makes of both states that stand for one another.
#[tactic(auto)]
pub fn records_stand_for_records<C, D>()
    ensures applies { (f : C → D) (g : C → D) (M : State C) (ch : ChangeOf C)
        → applies_change (state_by f M) (change_by g ch) ≡ applies_change M ch }
    ensures record { (f : C → D) (g : C → D) (M : State C) (r : RecordOf C)
        → All (λ c. f c ≡ g c) (contents_of M)
        → after_record (state_by f M) (record_by g r) ≡ state_by g (after_record M r) }
{}

/// Records replay as the state that their counterparts replay as, with what its pieces stand for in
/// the end, and neither replays where the other does not.
#[tactic(auto)]
pub fn replays_stand_for_replays<C, D>()
    ensures one { (f : C → D) (rs : List (RecordOf C))
        → replay (map (record_by f) rs) ≡ option_map (state_by f) (replay rs) }
    ensures many { (f : C → D) (R : Replayed C) (es : List (Entry C D)) → AreEntries f R es
        → replay_on (replayed_by f R) (entries_by es)
        ≡ option_map (replayed_by (final_meaning f es)) (replay_on R (entries es)) }
{}

/// A replay goes on with more records from where it came to.
#[tactic(auto)]
pub fn replays_go_on<C>()
    ensures on { (R : Replayed C) (rs more : List (RecordOf C))
        → replay_on R (rs ++ more) ≡ option_and_then (λ S. replay_on S more) (replay_on R rs) }
    ensures from { (t : ℕ) (ch : ChangeOf C) (rs more : List (RecordOf C))
        → replay_from t ch (rs ++ more)
        ≡ option_and_then (λ S. replay_on S more) (replay_from t ch rs) }
{}
