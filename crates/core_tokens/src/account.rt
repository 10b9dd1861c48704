//! The call that gives an account's token.

ghost use Rattle.std.specs.Prelude.{◌≡◌, ◌≤◌, ℕ, List as TheList, Option as Opt, Some, IfErr, IfOk, IsSome, map, option_and_then};
ghost use Rattle.std.specs.Option.{option_copied};
ghost use Rattle.b2_types.specs.declared.answer.AnswerOf.TheVariants as answer;
ghost use Rattle.b2_types.specs.declared.call.Call.TheVariants as calls;
ghost use Rattle.b2_types.specs.declared.key.Key.{Key as TheKey};
ghost use Rattle.b2_types.specs.Fault.{plain};
ghost use Rattle.b2_model.specs.AskKeys.{many_buckets};
ghost use Rattle.b2_model.specs.Checks.{first_fault};
ghost use Rattle.b2_model.specs.LiveGrant.{is_before_end};
ghost use Rattle.b2_model.specs.Policy.{key_by};
ghost use Rattle.b2_model.specs.Shown.{shown_account, shown_limit};
ghost use Rattle.new_versions.specs.Decided.{refused};
ghost use Rattle.core_state.specs.GivenTokens.{MayHave};
ghost use Rattle.core_decisions.specs.declared.decision.Decision.TheVariants as decision;
ghost use Rattle.core_decisions.specs.Decided.{IsAnswer, IsDecision};
ghost use Rattle.core_tokens.specs.Accounts.{GivesAccount, rules_but_serial};

use crate::given::{day_terms, no_serial, refused};
use auth_grants::Terms;
use b2_base::{BucketNum, List, Memory, Moment, Text, VersionNum};
use b2_types::{
    Answer, AnswerOf, ApiVersion, Authorize, Fault, Key, Shown, ShownAccount, ShownLimit, TokenKind,
};
use core_keys::{key_by, key_of_id};
use core_state::Core;
use outside_traits::Words;
use rule_table::FaultKind;
use shown_values::{show_account, show_limit};
use std::alloc::Global;

fn is_before_end(t: Moment, end: Option<Moment>) -> bool
    ensures { result ≡ is_before_end t end }
{
    match end {
        Some(end) => t.get() < end.get(),
        None => true,
    }
}

// Version 3 of the API shows one bucket of a key at most.
fn has_many_buckets(version: ApiVersion, key: &Key) -> bool
    ensures { result ≡ (many_buckets version key.now).fails }
{
    match version {
        ApiVersion::V3 => 1 < key.buckets.get().len(),
        ApiVersion::V4 => false,
    }
}

// The key of the call, or the first refusal.
fn account_key<'a>(core: &'a Core, t: Moment, call: &Authorize) -> Result<&'a Key, FaultKind>
    ensures rules { refused plain result ≡ first_fault (rules_but_serial core.now t call.now) }
    ensures found { IfOk result
        (λ k. option_and_then (key_by core.now) call.now.credentials ≡ Some k.now) }
{
    let Some(credentials) = &call.credentials else {
        return Err(FaultKind::P1);
    };
    let Some(key) = key_by(core, credentials) else {
        return Err(FaultKind::P2);
    };
    if !is_before_end(t, key.end) {
        return Err(FaultKind::P6);
    }
    if has_many_buckets(call.version, key) {
        return Err(FaultKind::ManyBuckets);
    }
    Ok(key)
}

// What the token is given for, or the first refusal.
fn account_terms(alloc: Global, core: &Core, t: Moment, call: &Authorize) -> Result<Terms, Fault>
    ensures refused { IfErr result (λ f. (token : Opt (TheList ℕ)) → IsDecision core.now t token
        (calls.AuthorizeAccount call.now) (decision.Reply (answer.Refused f))) }
    ensures giving { IfOk result (GivesAccount core.now t call.now) }
    ensures may { IfOk result (MayHave core.now) }
{
    core.is_sound();
    let key = match account_key(core, t, call) {
        Ok(key) => key,
        Err(kind) => return Err(Fault::plain(kind)),
    };
    let bucket = BucketNum::new(0).unwrap();
    let file = VersionNum::new(0).unwrap();
    Ok(day_terms(alloc, t, TokenKind::Account, key.num, bucket, file))
}

// The buckets that a key is limited to.
fn limits_of(alloc: Global, core: &Core, buckets: &[BucketNum]) -> Result<List<ShownLimit>, Memory>
    ensures { IfOk result (λ limits. limits ≡ map (shown_limit core.now) buckets.now) }
{
    let mut limits = Vec::new(alloc);
    for num in buckets {
        let limit = show_limit(alloc, *num, core.bucket(*num))?;
        limits.push(limit)?;
    }
    Ok(List::of(limits))
}

// What the key of the call is shown with its token.
fn account_of(
    alloc: Global,
    core: &Core,
    call: &Authorize,
    token: Text,
) -> Result<ShownAccount, Memory>
    requires { IsSome (option_and_then (key_by core.now) call.now.credentials) }
    ensures { IfOk result (λ s. (k : TheKey)
        → option_and_then (key_by core.now) call.now.credentials ≡ Some k
        → s ≡ shown_account call.now.version core.now k token) }
{
    let key = known_key(core, call);
    let limits = limits_of(alloc, core, key.buckets.get())?;
    show_account(alloc, call.version, core.settings(), key, limits, token)
}

// The key of a call with credentials that are good. It is found by its id alone.
fn known_key<'a>(core: &'a Core, call: &Authorize) -> &'a Key
    requires { IsSome (option_and_then (key_by core.now) call.now.credentials) }
    ensures { option_and_then (key_by core.now) call.now.credentials ≡ Some result.now }
{
    core.is_sound();
    let Some(credentials) = &call.credentials else {
        unreachable!();
    };
    let Some(key) = key_of_id(core, credentials.id.get().as_bytes()) else {
        unreachable!();
    };
    key
}

/// Gives the token of an account to who knows the id and the secret of a key. The call is made with
/// no token, and none that is given matters.
pub fn authorize<W: Words>(
    alloc: Global,
    core: Core,
    t: Moment,
    call: &Authorize,
    luck: &mut W,
) -> Result<(Core, Answer), Memory>
    requires { core.now ≤ t }
    ensures { IfOk result (λ r. (token : Opt (TheList ℕ)) → IsAnswer core t token
        (calls.AuthorizeAccount call.now) (W.ahead luck.old) (W.ahead luck.new) r.0 r.1) }
{
    let terms = match account_terms(alloc, &core, t, call) {
        Ok(terms) => terms,
        Err(fault) => return Ok(refused(core, t, fault)),
    };
    let (core, given) = core.give_token(alloc, t, terms, luck)?;
    let Some(text) = given else {
        return Ok((core, no_serial()));
    };
    let account = account_of(alloc, &core, call, text)?;
    Ok((core, AnswerOf::Json(Shown::Account(account))))
}
