//! Refusals.

ghost use Rattle.std.specs.Prelude.{◌≡◌, ◌↔◌, ℕ, Bool, true, false, not, List, [], ◌∷◌, ◌++◌, Option, Some, drop};
ghost use Rattle.std.specs.List.{list_any, AllByRecursion};
ghost use Rattle.rule_table.specs.declared.fault.FaultKind.TheVariants.{P1, P2, P6};
ghost use Rattle.b2_types.specs.declared.fault.Fault.{Fault as TheFault};
ghost use Rattle.b2_types.specs.declared.key.Key.{Key as TheKey};
ghost use Rattle.b2_types.specs.declared.key.Grant.{Grant as TheGrant};
ghost use Rattle.b2_types.specs.declared.key.Flight.{Flight as TheFlight};
ghost use Rattle.b2_types.specs.declared.kinds.TokenKind.{TokenKind};
ghost use Rattle.b2_types.specs.declared.call.Call.{Call as TheCall};
ghost use Rattle.b2_types.specs.declared.call.Call.TheVariants.{Bad};
ghost use Rattle.b2_types.specs.declared.fault.BadCall.{BadCall as TheBadCall};
ghost use Rattle.b2_types.specs.Need.{need};
ghost use Rattle.b2_types.specs.declared.call.Credentials.{Credentials as TheCredentials};
ghost use Rattle.b2_types.specs.declared.upload.UploadCall.{UploadCall as TheUpload};
ghost use Rattle.b2_types.specs.declared.upload.UploadCall.TheVariants.{Bad as BadUpload};
ghost use Rattle.b2_types.specs.declared.answer.AnswerOf.TheVariants.{Refused};
ghost use Rattle.b2_types.specs.Fault.{HasItsDetail};
ghost use Rattle.b2_model.specs.Body.{Body};
ghost use Rattle.b2_model.specs.Checks.{Check, first_fault, IsFirstFailing};
ghost use Rattle.b2_model.specs.State.{State, Pieces};
ghost use Rattle.b2_model.specs.Plan.{Plan};
ghost use Rattle.b2_model.specs.LiveGrant.{grant_at, is_live};
ghost use Rattle.b2_model.specs.Policy.{Caller, caller_of, Judged, judged_call, judged_upload, token_rules, authorize_rules, policy_rules};
ghost use Rattle.b2_model.specs.Ask.{ask, at_moment, is_open, plan, refusals, refusals_of};
ghost use Rattle.b2_model.specs.UploadSteps.{begin, begin_refusals, end, fits, target_of, upload_rules};
ghost use Rattle.machine_laws.specs.Details.{BringsItsDetail, UploadBringsItsDetail};
ghost use Rattle.machine_laws.specs.Rules.{kinds_of, token_kinds, policy_kinds, IsOfExistence, IsJudged, IsJudgedUpload, end_refusals};

/// A call that is refused moves the moment of the state alone, and draws no word. In a step the
/// day's lifecycle pass may stand before the call, which is then asked of the state after the pass.
#[tactic(auto, using(crate::proofs::FirstFailing::refused_call))]
pub fn refused_call<C>()
    ensures { (P : Pieces C) (M : State C) (t : ℕ) (words : List ℕ) (token : Option (List ℕ))
        (c : TheCall) (fault : TheFault)
        → first_fault (refusals_of P M t words token c) ≡ Some fault
        → ask P M t words token c
        ≡ record { state = at_moment M t; answer = Refused fault; words = words } }
{}

/// An upload whose begin is refused moves the moment of the state alone.
#[tactic(auto, using(crate::proofs::FirstFailing::refused_begin))]
pub fn refused_begin<C>()
    ensures { (M : State C) (t conn : ℕ) (token : Option (List ℕ)) (u : TheUpload)
        (fault : TheFault) → first_fault (begin_refusals M t token u) ≡ Some fault
        → begin M t conn token u ≡ record { state = at_moment M t; fault = Some fault } }
{}

/// A fault is the answer exactly where it is that of the first rule that fails: of a call, of the
/// begin of an upload, and of its end.
#[tactic(auto)]
pub fn refused_where_first_fails<C>()
    ensures call { (P : Pieces C) (M : State C) (t : ℕ) (words : List ℕ)
        (token : Option (List ℕ)) (c : TheCall) (fault : TheFault)
        → (ask P M t words token c).answer ≡ Refused fault
        ↔ IsFirstFailing (refusals_of P M t words token c) fault }
    ensures begin { (M : State C) (t conn : ℕ) (token : Option (List ℕ)) (u : TheUpload)
        (fault : TheFault) → (begin M t conn token u).fault ≡ Some fault
        ↔ IsFirstFailing (begin_refusals M t token u) fault }
    ensures end { (size : C → ℕ) (M : State C) (t : ℕ) (f : TheFlight) (body : Body C)
        (words : List ℕ) (fault : TheFault)
        → (end size M t f body words).answer ≡ Refused fault
        ↔ IsFirstFailing (end_refusals size M t f body) fault }
{}

/// The order of refusals: the token's rules, then those of the capabilities, the account and the
/// buckets, then whether what is named stands, then the prefix, then the call's own. An authorize
/// call has three, and a call that is amiss those of its token alone. What is open to all is judged
/// by none. The begin and the end of an upload are judged by the same rules, for a token of its path.
#[tactic(auto)]
pub fn order_of_refusals<C>()
    ensures token { (t : ℕ) (kinds : List TokenKind) (fits : TheGrant → Bool) (who : Caller)
        → kinds_of (token_rules t kinds fits who) ≡ token_kinds }
    ensures authorize { (M : State C) (t : ℕ) (c : Option TheCredentials)
        → kinds_of (authorize_rules M t c) ≡ P1 ∷ P2 ∷ P6 ∷ [] }
    ensures policy { (M : State C) (t : ℕ) (j : Judged) (fits : TheGrant → Bool) (who : Caller)
        (exists : List Check)
        → kinds_of (policy_rules M t j fits who exists) ≡ policy_kinds (kinds_of exists) }
    ensures existence { (P : Pieces C) (M : State C) (t : ℕ) (words : List ℕ)
        (key : Option TheKey) (c : TheCall) → IsJudged c
        → AllByRecursion IsOfExistence (kinds_of (plan P M t words key c).exists) }
    ensures call { (M : State C) (t : ℕ) (who : Caller) (c : TheCall) (p : Plan C)
        → IsJudged c → is_open M c ≡ false → refusals M t who c p
        ≡ policy_rules M t (judged_call c) (λ g. true) who p.exists ++ p.own }
    ensures amiss { (M : State C) (t : ℕ) (who : Caller) (c : TheBadCall) (p : Plan C)
        → is_open M (Bad c) ≡ false
        → refusals M t who (Bad c) p
        ≡ token_rules t (need c.name).tokens (λ g. true) who ++ p.own }
    ensures open_to_all { (M : State C) (t : ℕ) (who : Caller) (c : TheCall) (p : Plan C)
        → is_open M c ≡ true → refusals M t who c p ≡ p.exists ++ p.own }
    ensures upload { (M : State C) (t : ℕ) (who : Caller) (u : TheUpload) (exists : List Check)
        → IsJudgedUpload u → upload_rules M t who u exists
        ≡ policy_rules M t (judged_upload u) (fits (target_of u)) who exists }
    ensures upload_amiss { (M : State C) (t : ℕ) (who : Caller) (u : TheBadCall)
        (exists : List Check) → upload_rules M t who (BadUpload u) exists
        ≡ token_rules t (need u.name).tokens (fits u.target) who }
{}

/// A token is live exactly where its last three rules hold: its key stands, and neither the token
/// nor the key has ended.
#[tactic(auto, using(crate::proofs::Refused::live_tokens))]
pub fn live_where_rules_hold<C>()
    ensures { (M : State C) (t : ℕ) (kinds : List TokenKind) (fits : TheGrant → Bool)
        (token : List ℕ) (g : TheGrant) → grant_at M token ≡ Some g
        → list_any (λ c. c.fails) (drop 3 (token_rules t kinds fits (caller_of M (Some token))))
        ≡ not (is_live M t g) }
{}

/// Each refusal tells beside its kind what the table of faults says: a word, a number or nothing. What
/// is amiss with a call is found before the machine, which tells it as it is.
#[tactic(auto)]
pub fn refusals_have_their_details<C>()
    ensures call { (P : Pieces C) (M : State C) (t : ℕ) (words : List ℕ)
        (token : Option (List ℕ)) (c : TheCall) (fault : TheFault) → BringsItsDetail c
        → (ask P M t words token c).answer ≡ Refused fault → HasItsDetail fault }
    ensures begin { (M : State C) (t conn : ℕ) (token : Option (List ℕ)) (u : TheUpload)
        (fault : TheFault) → UploadBringsItsDetail u
        → (begin M t conn token u).fault ≡ Some fault → HasItsDetail fault }
    ensures end { (size : C → ℕ) (M : State C) (t : ℕ) (f : TheFlight) (body : Body C)
        (words : List ℕ) (fault : TheFault) → UploadBringsItsDetail f.upload
        → (end size M t f body words).answer ≡ Refused fault → HasItsDetail fault }
{}
