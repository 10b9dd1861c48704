//! What a run comes to does not look into contents: a law of the machine over every state and every
//! two kinds of pieces.
#![tactic(auto)]

ghost use Rattle.std.specs.Prelude.{◌≡◌, ℕ, List, Option, map};
ghost use Rattle.b2_types.specs.declared.call.Call.{Call as TheCall};
ghost use Rattle.b2_model.specs.State.{State, Pieces};
ghost use Rattle.b2_model.specs.Ask.{ask};
ghost use Rattle.b2_model.specs.Run.{Step, run};
ghost use Rattle.b2_model.specs.Contents.{state_by, outcome_by, step_by, progress_by, GoAlong};

/// What a call and a run come to does not look into contents: where each piece of content is
/// replaced by one of the same length, and copies go along, every answer is the same but for the
/// pieces that are sent, and the states differ in these pieces alone.
#[tactic(auto)]
pub fn same_for_all_contents<C, D>()
    ensures call { (f : C → D) (P : Pieces C) (Q : Pieces D) → GoAlong f P Q
        → (M : State C) (t : ℕ) (words : List ℕ) (token : Option (List ℕ)) (c : TheCall)
        → ask Q (state_by f M) t words token c ≡ outcome_by f (ask P M t words token c) }
    ensures run { (f : C → D) (P : Pieces C) (Q : Pieces D) → GoAlong f P Q
        → (M : State C) (words : List ℕ) (steps : List (Step C))
        → run Q (state_by f M) words (map (step_by f) steps)
        ≡ progress_by f (run P M words steps) }
{}
