//! The call that makes a key.

ghost use Rattle.std.specs.Prelude.{◌≡◌, [], Some, IfOk, unwrap_or};
ghost use Rattle.std.specs.Option.{option_copied};
ghost use Rattle.b2_types.specs.declared.answer.AnswerOf.TheVariants as answer;
ghost use Rattle.b2_types.specs.declared.fault.Fault.{Fault as TheFault};
ghost use Rattle.b2_types.specs.declared.call.Call.TheVariants as calls;
ghost use Rattle.core_decisions.specs.declared.decision.Decision.TheVariants as decision;
ghost use Rattle.core_decisions.specs.Decided.{IsDrawn};
ghost use Rattle.core_keys.specs.Made.{key_fault, written};

use app_keys::{KeyRefusal, NewKey, fault_of, keys_create};
use b2_base::{BucketNum, Memory, Moment, Or, Settings};
use b2_types::{AnswerOf, ApiVersion, ChangeOf, CreateKey, RecordOf, Shown, ShownNewKey};
use core_decisions::{Decision, plain_refusal, refusal};
use core_policy::{asker_of, buckets_for};
use core_state::Core;
use outside_traits::Words;
use rule_table::CallName;
use shown_values::show_key;
use std::alloc::Global;

// The buckets that the key is to be limited to.
fn buckets_of(call: &CreateKey) -> &[BucketNum]
    ensures { result.now ≡ unwrap_or call.now.buckets [] }
{
    match &call.buckets {
        Some(buckets) => buckets.get(),
        None => &[],
    }
}

// What is answered where no key is made.
fn not_made(error: Or<KeyRefusal>) -> Result<Decision, Memory>
    ensures { IfOk result (λ d. (fault : TheFault) × (key_fault error ≡ Some fault)
        × (d ≡ decision.Reply (answer.Refused fault))) }
{
    match error {
        Or::Memory => Err(Memory),
        Or::Fault(refused) => Ok(refusal(fault_of(refused))),
    }
}

// The record of the key, and the answer with its secret.
fn made_key(
    alloc: Global,
    settings: &Settings,
    t: Moment,
    version: ApiVersion,
    made: NewKey,
) -> Result<Decision, Memory>
    ensures { IfOk result (λ d. d ≡ written settings.now t version made.key made.secret) }
{
    let key = show_key(alloc, version, settings, &made.key)?;
    let record = RecordOf {
        at: t,
        change: ChangeOf::KeyMake(made.key),
    };
    let shown = ShownNewKey {
        key,
        secret: made.secret,
    };
    Ok(Decision::Write(record, AnswerOf::Json(Shown::NewKey(shown))))
}

/// Makes a key, whose secret is of the next four words.
pub fn create_key<W: Words>(
    alloc: Global,
    core: &Core,
    t: Moment,
    token: Option<&[u8]>,
    call: &CreateKey,
    luck: &mut W,
) -> Result<Decision, Memory>
    ensures { IfOk result (IsDrawn core.now t (option_copied token.entry)
        (calls.CreateKey call.now) (W.ahead luck.old) (W.ahead luck.new)) }
{
    let asker = asker_of(core, token);
    let name = CallName::CreateKey;
    if let Err(kind) = buckets_for(core, &asker, t, name, &call.account, buckets_of(call)) {
        return Ok(plain_refusal(kind));
    }
    let made = match keys_create(alloc, asker.key, core.next_key(), t, call, luck) {
        Ok(made) => made,
        Err(error) => return not_made(error),
    };
    let decision = made_key(alloc, core.settings(), t, call.version, made)?;
    Ok(decision)
}
