//! What a record brings to a state, what it gives up, and what leaves the versions as they are.
#![tactic(auto)]

ghost use Rattle.std.specs.Prelude.{◌≡◌, ℕ, true, List, Option};
ghost use Rattle.b2_types.specs.declared.call.Call.{Call};
ghost use Rattle.b2_types.specs.declared.call.Call.TheVariants as call;
ghost use Rattle.b2_types.specs.declared.call.CreateKey.{CreateKey};
ghost use Rattle.b2_types.specs.declared.key.Grant.{Grant};
ghost use Rattle.b2_types.specs.declared.record.RecordOf.{RecordOf};
ghost use Rattle.b2_types.specs.declared.upload.UploadCall.{UploadCall};
ghost use Rattle.b2_model.specs.Ask.{ask, with_grant};
ghost use Rattle.b2_model.specs.Changes.{after_record};
ghost use Rattle.b2_model.specs.State.{State, Pieces};
ghost use Rattle.b2_model.specs.Stored.{applies_change};
ghost use Rattle.b2_model.specs.UploadSteps.{begin};
ghost use Rattle.contents_agree.specs.ContentsOf.{brought};
ghost use Rattle.sound_states.specs.Sound.{IsSound};
ghost use Rattle.core_records.specs.GivenUp.{AreGivenUp, Conserves};
ghost use Rattle.given_up.specs.AsksForToken.{AsksForToken};

/// No content is lost or doubled by a record that applies: what it brings and what stood before is
/// what it gives up and what stands after.
#[tactic(auto)]
pub fn conserved<C>()
    ensures { (M : State C) (r : RecordOf C) (freed : List C) → IsSound M
        → applies_change M r.change ≡ true
        → AreGivenUp r.change M (after_record M r) freed
        → Conserves (brought r.change) M freed (after_record M r) }
{}

/// A call that gives a token leaves the versions as they are, whether or not it is refused, and so
/// does one that makes a key; so do a new token and the begin of an upload.
#[tactic(auto)]
pub fn versions_kept<C>()
    ensures token { (P : Pieces C) (M : State C) (t : ℕ) (words : List ℕ) (token : Option (List ℕ))
        (c : Call) → AsksForToken c → (ask P M t words token c).state.versions ≡ M.versions }
    ensures key { (P : Pieces C) (M : State C) (t : ℕ) (words : List ℕ) (token : Option (List ℕ))
        (c : CreateKey) → (ask P M t words token (call.CreateKey c)).state.versions ≡ M.versions }
    ensures grant { (g : Option Grant) (M : State C) → (with_grant g M).versions ≡ M.versions }
    ensures begin { (M : State C) (t conn : ℕ) (token : Option (List ℕ)) (u : UploadCall)
        → (begin M t conn token u).state.versions ≡ M.versions }
{}
