//! Keys that are limited to some buckets, or to names with a prefix in these: what they are
//! answered depends on their own alone, and of others they learn nothing.
#![tactic(auto)]

ghost use Rattle.std.specs.Prelude.{◌≡◌, ℕ, true, false, List, ◌++◌, Option, Some, None, take};
ghost use Rattle.rule_table.specs.declared.fault.FaultKind.TheVariants.{P9};
ghost use Rattle.b2_types.specs.declared.key.Grant.{Grant as TheGrant};
ghost use Rattle.b2_types.specs.declared.call.Call.{Call as TheCall};
ghost use Rattle.b2_types.specs.declared.answer.AnswerOf.TheVariants.{Refused};
ghost use Rattle.b2_types.specs.Fault.{plain};
ghost use Rattle.b2_model.specs.Checks.{first_fault};
ghost use Rattle.b2_model.specs.LiveGrant.{grant_at};
ghost use Rattle.b2_model.specs.State.{State, Pieces};
ghost use Rattle.b2_model.specs.Policy.{caller_of, limits, prefix_limit, judged_call, token_rules, call_rules};
ghost use Rattle.b2_model.specs.Ask.{ask};
ghost use Rattle.sound_states.specs.Sound.{IsSound};
ghost use Rattle.isolation_laws.specs.Agree.{AgreeOnKey, AgreeOnBuckets, AgreeOnNames, AreOneRefusal};
ghost use Rattle.isolation_laws.specs.Naming.{LooksInto, IsLimitedToOthers, IsLook, NamesWithin, NamesUnder};

/// Whoever is limited to some buckets and looks into these alone is answered alike in any two
/// states that agree on them: by what stands in other buckets, and by keys and tokens of others,
/// nothing of the answer changes.
#[tactic(auto)]
pub fn own_buckets_are_answered_alike<C>()
    ensures { (P : Pieces C) (M N : State C) (t : ℕ) (words : List ℕ) (token : Option (List ℕ))
        (c : TheCall) → caller_of M token ≡ caller_of N token → IsSound M → IsSound N
        → AgreeOnBuckets (limits (caller_of M token)) M N
        → IsLook c → NamesWithin M (limits (caller_of M token)) c
        → (ask P M t words token c).answer ≡ (ask P N t words token c).answer }
{}

/// The same for who is limited to a prefix too, where the two states agree on the names with that
/// prefix alone, and the call names no others.
#[tactic(auto)]
pub fn own_names_are_answered_alike<C>()
    ensures { (P : Pieces C) (M N : State C) (t : ℕ) (words : List ℕ) (token : Option (List ℕ))
        (c : TheCall) → caller_of M token ≡ caller_of N token → IsSound M → IsSound N
        → AgreeOnNames (limits (caller_of M token)) (prefix_limit (caller_of M token)) M N
        → IsLook c → NamesWithin M (limits (caller_of M token)) c
        → NamesUnder M (prefix_limit (caller_of M token)) c
        → (ask P M t words token c).answer ≡ (ask P N t words token c).answer }
{}

/// A token of a key is one, with that key, in each sound state that agrees on the key.
#[tactic(auto, using(crate::proofs::Alike::token_known_alike))]
pub fn own_tokens_are_known_alike<C>()
    ensures { (M N : State C) (key : ℕ) (token : List ℕ) (g : TheGrant) → AgreeOnKey key M N
        → IsSound N → grant_at M token ≡ Some g → g.key ≡ key
        → caller_of M (Some token) ≡ caller_of N (Some token) }
{}

/// A listing of files or parts, or a look at a file, that names a bucket outside of those that the
/// caller is limited to is refused by P9 where no rule before it fails, whatever stands in that
/// bucket.
#[tactic(auto)]
pub fn other_buckets_are_refused<C>()
    ensures { (P : Pieces C) (M : State C) (t : ℕ) (words : List ℕ) (token : Option (List ℕ))
        (c : TheCall) (bucket : ℕ) → LooksInto bucket c
        → IsLimitedToOthers (caller_of M token) bucket
        → first_fault (token_rules t (judged_call c).row.tokens (λ g. true) (caller_of M token)
        ++ take 2 (call_rules M (judged_call c) (caller_of M token))) ≡ None
        → (ask P M t words token c).answer ≡ Refused (plain P9) }
{}

/// Such a call is refused alike in any two states that have the settings and the caller in common.
#[tactic(auto)]
pub fn other_buckets_are_refused_alike<C>()
    ensures { (P : Pieces C) (M N : State C) (t : ℕ) (words : List ℕ) (token : Option (List ℕ))
        (c : TheCall) (bucket : ℕ) → caller_of M token ≡ caller_of N token
        → M.settings ≡ N.settings → LooksInto bucket c
        → IsLimitedToOthers (caller_of M token) bucket
        → AreOneRefusal (ask P M t words token c).answer (ask P N t words token c).answer }
{}
