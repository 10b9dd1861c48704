//! The records that steps write: replayed, they give the stored part that the steps give.
#![tactic(auto)]

ghost use Rattle.std.specs.Prelude.{◌≡◌, ℕ, false, true, List, [], ◌++◌, Some, All, fold, option_map};
ghost use Rattle.b2_base.specs.declared.settings.Settings.{Settings as TheSettings};
ghost use Rattle.b2_types.specs.declared.record.RecordOf.{RecordOf};
ghost use Rattle.b2_model.specs.State.{State, Pieces};
ghost use Rattle.b2_model.specs.Changes.{new_store};
ghost use Rattle.b2_model.specs.Stored.{stored_part, snapshot, is_snap_state, replay_on, replay};
ghost use Rattle.b2_model.specs.Run.{Step, Progress, step, run};
ghost use Rattle.sound_states.specs.Sound.{IsSound, IsFitChange};
ghost use Rattle.sound_steps.specs.FitSteps.{IsFitStep};
ghost use Rattle.step_records.specs.StepRecords.{records_of, records_of_run, log_state, moment_of, AreNext};
ghost use Rattle.step_records.specs.Fronts.{IsReached};

/// A replay goes on with the records of a step to the stored part after it, and with those of a run
/// to the stored part after the run.
#[tactic(auto)]
pub fn replays_go_on_with_steps<C>()
    ensures step { (K : Pieces C) (P : Progress C) (s : Step C) → IsSound P.state → IsFitStep s
        → replay_on (log_state P.state) (records_of K P s) ≡ Some (log_state (step K P s).state) }
    ensures run { (K : Pieces C) (P : Progress C) (steps : List (Step C))
        → IsSound P.state → All IsFitStep steps
        → replay_on (log_state P.state) (records_of_run K P steps)
        ≡ Some (log_state (fold (step K) P steps).state) }
{}

/// A log that begins with a snapshot and goes on with the records of a run replays as the stored
/// part after the run.
#[tactic(auto)]
pub fn logs_replay<C>()
    ensures go_on { (M : State C) (more : List (RecordOf C)) → IsSound M
        → replay (snapshot (stored_part M) ++ more)
        ≡ option_map (λ R. R.state) (replay_on (log_state M) more) }
    ensures run { (K : Pieces C) (P : Progress C) (steps : List (Step C))
        → IsSound P.state → All IsFitStep steps
        → replay (snapshot (stored_part P.state) ++ records_of_run K P steps)
        ≡ Some (stored_part (fold (step K) P steps).state) }
    ensures made { (K : Pieces C) (settings : TheSettings) (t : ℕ) (words : List ℕ)
        (steps : List (Step C)) → All IsFitStep steps
        → replay (snapshot (new_store settings t)
        ++ records_of_run K (record { state = new_store settings t; words = words; answers = [] }) steps)
        ≡ Some (stored_part (run K (new_store settings t) words steps).state) }
{}

/// Each record of a step has the step's moment, and is such as a log may have after a snapshot.
/// What it makes has the next number.
#[tactic(auto)]
pub fn records_tell_their_step<C>()
    ensures moment { (K : Pieces C) (P : Progress C) (s : Step C)
        → All (λ r. r.at ≡ moment_of P s) (records_of K P s) }
    ensures fit { (K : Pieces C) (P : Progress C) (s : Step C) → IsSound P.state → IsFitStep s
        → All (λ r. IsFitChange r.change × (is_snap_state r.change ≡ false)) (records_of K P s) }
    ensures next { (K : Pieces C) (P : Progress C) (s : Step C)
        → AreNext (stored_part P.state) (records_of K P s) }
{}

/// A log that is cut between two records of a run replays as the stored part after a first part of
/// its steps, or after them and the day's pass before the next.
#[tactic(auto)]
pub fn fronts_of_logs_replay<C>()
    ensures { (K : Pieces C) (P : Progress C) (steps : List (Step C))
        (front rest : List (RecordOf C)) → IsSound P.state → All IsFitStep steps
        → records_of_run K P steps ≡ front ++ rest
        → ((S : State C) × (replay_on (log_state P.state) front
        ≡ Some (record { state = S; settled = true })) × IsReached K P steps S) }
{}
