//! Each step keeps a state sound.
#![tactic(auto)]

ghost use Rattle.std.specs.Prelude.{◌≡◌, ℕ, ◌<◌, ◌^◌, List, Option, Some, None, All};
ghost use Rattle.b2_types.specs.declared.key.Flight.{Flight as TheFlight};
ghost use Rattle.b2_types.specs.declared.call.Call.{Call as TheCall};
ghost use Rattle.b2_model.specs.Body.{Body};
ghost use Rattle.b2_model.specs.Checks.{first_fault};
ghost use Rattle.b2_model.specs.State.{State, Pieces};
ghost use Rattle.b2_model.specs.LiveGrant.{token_text};
ghost use Rattle.b2_model.specs.Policy.{caller_of};
ghost use Rattle.b2_model.specs.Ask.{plan_of, refusals_of};
ghost use Rattle.b2_model.specs.UploadSteps.{end_plan, without_flight};
ghost use Rattle.b2_model.specs.Run.{Step, Progress, step, run};
ghost use Rattle.machine_laws.specs.Rules.{end_refusals};
ghost use Rattle.sound_states.specs.Sound.{IsBefore, IsSound};
ghost use Rattle.sound_steps.specs.FitSteps.{IsFitCall, IsFitStep, Applies};

/// The record that an accepted call writes applies, and that of an upload which ends well.
#[tactic(auto)]
pub fn accepted_records_apply<C>()
    ensures call { (K : Pieces C) (M : State C) (t : ℕ) (words : List ℕ)
        (token : Option (List ℕ)) (c : TheCall) → IsSound M → IsFitCall c
        → first_fault (refusals_of K M t words token c) ≡ None
        → Applies M (plan_of K M t words token c).change }
    ensures end { (size : C → ℕ) (M : State C) (t : ℕ) (f : TheFlight) (body : Body C)
        → IsSound (without_flight M t f.conn)
        → first_fault (end_refusals size M t f body) ≡ None
        → (let N = without_flight M t f.conn in
        Applies N (end_plan size N t (caller_of N (Some f.token)).key body f.upload).change) }
{}

/// Each step keeps a state sound, and so does each run.
#[tactic(auto)]
pub fn steps_keep_sound<C>()
    ensures step { (K : Pieces C) (P : Progress C) (s : Step C)
        → IsSound P.state → IsFitStep s → IsSound (step K P s).state }
    ensures run { (K : Pieces C) (M : State C) (words : List ℕ) (steps : List (Step C))
        → IsSound M → All IsFitStep steps → IsSound (run K M words steps).state }
{}

/// Of one opening, the text of a token with a lower serial stands before that of one with a
/// greater: tokens in the order in which they were given stand by their texts.
#[tactic(auto, using(crate::proofs::TokenOrder::lower_text))]
pub fn tokens_have_their_order()
    ensures { (boot earlier later first second third fourth : ℕ)
        → earlier < later → later < 2 ^ 64
        → IsBefore (token_text boot earlier first second) (token_text boot later third fourth) }
{}
