//! What is locked stays: Object Lock over steps and runs, with lifecycle passes and restarts.
#![tactic(auto)]

ghost use Rattle.std.specs.Prelude.{◌≡◌, ◌⊎◌, ℕ, ◌<◌, true, List, [], Option, Some};
ghost use Rattle.b2_types.specs.declared.call.Call.{Call as TheCall};
ghost use Rattle.b2_types.specs.declared.kinds.Retention.{Retention as TheRetention};
ghost use Rattle.b2_types.specs.declared.version.VersionOf.{VersionOf};
ghost use Rattle.b2_model.specs.Locks.{is_protected};
ghost use Rattle.b2_model.specs.State.{State, Pieces};
ghost use Rattle.b2_model.specs.Plan.{id_of};
ghost use Rattle.b2_model.specs.Stored.{stored_part};
ghost use Rattle.b2_model.specs.Ask.{ask};
ghost use Rattle.b2_model.specs.Run.{Step, Progress, step, run};
ghost use Rattle.sound_states.specs.Sound.{IsSound};
ghost use Rattle.lasting_laws.specs.Locked.{on_hold, kept_until, Lock, IsLocked, IsInTime, Stands, IsSparing, AreSparing};
ghost use Rattle.lasting_laws.specs.Visible.{HidesStarts};

/// A version that Object Lock protects has a lock: its hold, or its retention up to its end.
#[tactic(auto)]
pub fn protected_is_locked<C>()
    ensures { (t : ℕ) (v : VersionOf C) → is_protected t v ≡ true
        → IsLocked on_hold v ⊎ ((r : TheRetention) × (v.retention ≡ Some r) × (t < r.until)
        × IsLocked (kept_until r.until) v) }
{}

/// A version with a lock stands in each later stored part, with all that it is, up to the moment
/// at which the lock ends, where no accepted call took it off. Nothing but the hold and the
/// retention of it changes, and a retention never to end earlier.
#[tactic(auto)]
pub fn locked_stays<C>()
    ensures step { (K : Pieces C) (P : Progress C) (s : Step C) (lock : Lock) (v : VersionOf C)
        → IsSound P.state → Stands lock v P.state → IsSparing K lock (id_of v) P s
        → IsInTime lock (stored_part (step K P s).state).now
        → Stands lock v (stored_part (step K P s).state) }
    ensures run { (K : Pieces C) (M : State C) (words : List ℕ) (steps : List (Step C))
        (lock : Lock) (v : VersionOf C) → IsSound M → Stands lock v M
        → AreSparing K lock (id_of v) (record { state = M; words = words; answers = [] }) steps
        → IsInTime lock (stored_part (run K M words steps).state).now
        → Stands lock v (stored_part (run K M words steps).state) }
{}

/// No download sends a large file before its finish, and no listing of names shows one.
#[tactic(auto)]
pub fn starts_are_hidden<C>()
    ensures { (P : Pieces C) (M : State C) (t : ℕ) (words : List ℕ) (token : Option (List ℕ))
        (c : TheCall) → HidesStarts (ask P M t words token c).answer }
{}
