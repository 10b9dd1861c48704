//! Steps.

ghost use Rattle.std.specs.Prelude.{◌≡◌, ℕ, ◌≤◌, ◌/◌, false, true, nat_lt, List, [], ◌∷◌, ◌++◌, Option, Some};
ghost use Rattle.b2_types.specs.declared.call.Call.{Call as TheCall};
ghost use Rattle.b2_types.specs.declared.key.Flight.{Flight as TheFlight};
ghost use Rattle.b2_types.specs.declared.upload.UploadCall.{UploadCall as TheUpload};
ghost use Rattle.b2_model.specs.Kinds.{day};
ghost use Rattle.b2_model.specs.State.{State, Pieces};
ghost use Rattle.b2_model.specs.Policy.{items};
ghost use Rattle.b2_model.specs.Stored.{stored_part};
ghost use Rattle.b2_model.specs.Run.{Step, asks, begins, loses, passes, Progress, Keeps, moment, start_of, answer_to, step, run};
ghost use Rattle.machine_laws.specs.Days.{is_due, IsOnState};

/// The moment of the state never falls, but where it is opened again.
#[tactic(auto, using(crate::proofs::Moments::never_falls))]
pub fn moment_never_falls<C>()
    ensures { (K : Pieces C) (P : Progress C) (s : Step C) → Keeps s
        → P.state.now ≤ (step K P s).state.now }
{}

/// The answers of a run are those of its steps, in their order: one more step adds what it answers,
/// and nothing where it answers nothing.
#[tactic(auto, using(crate::proofs::Answered::run_appends))]
pub fn run_appends_answers<C>()
    ensures { (K : Pieces C) (M : State C) (words : List ℕ) (steps : List (Step C)) (s : Step C)
        → (run K M words (steps ++ s ∷ [])).answers
        ≡ (run K M words steps).answers ++ items (answer_to K (run K M words steps) s) }
{}

/// A day has one pass: after a pass, what is carried out at the same reading of the clock starts
/// from the state as the pass left it, at its moment. So the day's first step is a pass and that
/// step without one.
#[tactic(auto, using(crate::proofs::Days::no_second_pass, crate::proofs::Days::same_moment, crate::proofs::Days::pass_of_its_own))]
pub fn one_pass_a_day<C>()
    ensures no_second { (K : Pieces C) (P : Progress C) (reading : ℕ)
        → start_of (step K P (passes reading)) reading ≡ (step K P (passes reading)).state }
    ensures moment { (K : Pieces C) (P : Progress C) (reading : ℕ)
        → moment (step K P (passes reading)).state reading ≡ moment P.state reading }
    ensures first_step { (K : Pieces C) (P : Progress C) (reading : ℕ) (s : Step C)
        → IsOnState P reading s → is_due P reading ≡ true
        → step K P s ≡ step K (step K P (passes reading)) s }
{}

/// The begin and the loss of an upload leave the stored part as it was, where no daily pass falls
/// due.
#[tactic(auto)]
pub fn uploads_under_way_are_not_stored<C>()
    ensures begin { (K : Pieces C) (P : Progress C) (reading conn : ℕ)
        (token : Option (List ℕ)) (u : TheUpload) → is_due P reading ≡ false
        → stored_part (step K P (begins reading conn token u)).state ≡ stored_part P.state }
    ensures loss { (K : Pieces C) (P : Progress C) (reading conn : ℕ) → is_due P reading ≡ false
        → stored_part (step K P (loses reading conn)).state ≡ stored_part P.state }
{}
