//! The tokens of a state of the machine when its uploads begin and end.

ghost use Rattle.std.specs.Prelude.{◌≡◌, ℕ, List, Some, None, IsSome};
ghost use Rattle.std.specs.Option.{is_some};
ghost use Rattle.b2_base.specs.declared.extent.Extent.{Extent as TheExtent};
ghost use Rattle.b2_types.specs.declared.upload.UploadCall.{UploadCall as TheUpload};
ghost use Rattle.b2_model.specs.State.{State};
ghost use Rattle.b2_model.specs.Lists.{put_by};
ghost use Rattle.b2_model.specs.LiveGrant.{grant_at};
ghost use Rattle.b2_model.specs.UploadSteps.{busy, new_flight, without_flight};
ghost use Rattle.auth_grants.specs.Tokens.{AreOnToken, flight_at, flight_on, tokens_of, with_flight};

/// A token is busy where an upload is under way on it; an upload that begins takes its token, and one that
/// ends leaves it.
#[tactic(auto, using(crate::proofs::Uploads::is_busy))]
pub fn uploads_and_tokens()
    ensures busy { (M : State TheExtent) (text : List ℕ) → IsSome (grant_at M text)
        → (busy M (Some text)).fails ≡ is_some (flight_at (tokens_of M) text) }
    ensures begins { (M : State TheExtent) (conn : ℕ) (text : List ℕ) (u : TheUpload)
        → flight_on M text ≡ None
        → with_flight text (Some conn) (tokens_of M) ≡ tokens_of (record M {
          flights = put_by (λ f. f.conn) (new_flight conn (Some text) u) M.flights;
        }) }
    ensures ends { (M : State TheExtent) (t conn : ℕ) (text : List ℕ)
        → AreOnToken conn text M.flights
        → with_flight text None (tokens_of M) ≡ tokens_of (without_flight M t conn) }
{}
