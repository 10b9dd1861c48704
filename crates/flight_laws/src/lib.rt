//! Which uploads are under way in the version machine after a step.
#![tactic(auto)]

ghost use Rattle.std.specs.Prelude.{◌≡◌, ℕ, List, Option, Some, None};
ghost use Rattle.b2_types.specs.declared.call.Call.{Call};
ghost use Rattle.b2_types.specs.declared.fault.Fault.{Fault};
ghost use Rattle.b2_types.specs.declared.key.Flight.{Flight};
ghost use Rattle.b2_types.specs.declared.upload.UploadCall.{UploadCall};
ghost use Rattle.b2_model.specs.Ask.{ask};
ghost use Rattle.b2_model.specs.Body.{Body};
ghost use Rattle.b2_model.specs.Run.{asks, ends, loses, passes, restarts, Progress, with_daily_pass, end_step, step};
ghost use Rattle.b2_model.specs.State.{State, Pieces};
ghost use Rattle.b2_model.specs.UploadSteps.{begin, end, flight_of, new_flight, without_flight};
ghost use Rattle.flight_laws.specs.Left.{AreLeft, OthersAreLeft, IsOver};

/// A call and a daily pass leave the upload of each connection as it is, by themselves and as
/// steps.
#[tactic(auto)]
pub fn calls_leave_uploads<C>()
    ensures call { (P : Pieces C) (M : State C) (t : ℕ) (words : List ℕ) (token : Option (List ℕ))
        (c : Call) → AreLeft M (ask P M t words token c).state }
    ensures pass { (M : State C) (t : ℕ) → AreLeft M (with_daily_pass M t) }
    ensures call_step { (K : Pieces C) (P : Progress C) (reading : ℕ) (token : Option (List ℕ))
        (c : Call) → AreLeft P.state (step K P (asks reading token c)).state }
    ensures pass_step { (K : Pieces C) (P : Progress C) (reading : ℕ)
        → AreLeft P.state (step K P (passes reading)).state }
{}

/// An upload that begins on a connection without one is under way on it from then on, unless it is
/// refused, and those of other connections stay.
#[tactic(auto)]
pub fn begins_are_under_way<C>()
    ensures begins { (M : State C) (t c : ℕ) (token : Option (List ℕ)) (u : UploadCall)
        → (begin M t c token u).fault ≡ None → flight_of M c ≡ None
        → flight_of (begin M t c token u).state c ≡ Some (new_flight c token u) }
    ensures refused { (M : State C) (t c : ℕ) (token : Option (List ℕ)) (u : UploadCall)
        (fault : Fault) → (begin M t c token u).fault ≡ Some fault
        → AreLeft M (begin M t c token u).state }
    ensures others { (M : State C) (t c : ℕ) (token : Option (List ℕ)) (u : UploadCall)
        → OthersAreLeft c M (begin M t c token u).state }
{}

/// An upload that ends or is lost is under way no longer, whether or not its end is refused, and
/// those of other connections stay. That holds of the step too where none was under way.
#[tactic(auto)]
pub fn ends_are_over<C>()
    ensures without { (M : State C) (t c : ℕ) → IsOver c M (without_flight M t c) }
    ensures end { (size : C → ℕ) (M : State C) (t c : ℕ) (f : Flight) (body : Body C)
        (words : List ℕ) → f.conn ≡ c → IsOver c M (end size M t f body words).state }
    ensures end_on_day { (K : Pieces C) (P : Progress C) (reading c : ℕ) (f : Flight)
        (body : Body C) → f.conn ≡ c → IsOver c P.state (end_step K P reading f body).state }
    ensures end_step { (K : Pieces C) (P : Progress C) (reading c : ℕ) (body : Body C)
        → IsOver c P.state (step K P (ends reading c body)).state }
    ensures loss_step { (K : Pieces C) (P : Progress C) (reading c : ℕ)
        → IsOver c P.state (step K P (loses reading c)).state }
{}

/// None is under way where the store was just opened again.
#[tactic(auto)]
pub fn restarts_end_uploads<C>()
    ensures { (K : Pieces C) (P : Progress C) (reading d : ℕ)
        → flight_of (step K P (restarts reading)).state d ≡ None }
{}
