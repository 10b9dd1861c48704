//! Calls that are amiss.

ghost use Rattle.std.specs.Prelude.{◌≡◌, ◌&&◌, [], true, IfOk, if◌then◌else◌, option_and_then};
ghost use Rattle.std.specs.Option.{option_copied};
ghost use Rattle.b2_types.specs.declared.call.Call.TheVariants as calls;
ghost use Rattle.b2_types.specs.Fault.{plain};
ghost use Rattle.b2_types.specs.Need.{need};
ghost use Rattle.b2_model.specs.Ask.{is_download_call, is_open};
ghost use Rattle.b2_model.specs.Checks.{first_fault, some_and};
ghost use Rattle.b2_model.specs.Policy.{bucket_named, caller_of, token_rules};
ghost use Rattle.new_versions.specs.Decided.{refused};
ghost use Rattle.core_decisions.specs.Decided.{IsDecision};

use b2_base::{Memory, Moment, Text};
use b2_types::{BadCall, Detail, Fault, Target};
use core_decisions::{Decision, plain_refusal, refusal};
use core_policy::{asker_of, token_for};
use core_state::Core;
use rule_table::{CallName, FaultKind};
use std::alloc::Global;

fn is_download(name: CallName) -> bool
    ensures { result ≡ is_download_call name }
{
    matches!(
        name,
        CallName::DownloadFileById | CallName::DownloadFileByName
    )
}

// Whether the bucket that the call names is public.
fn is_public(core: &Core, call: &BadCall) -> bool
    ensures { result ≡ some_and (λ b. b.public)
        (option_and_then (bucket_named core.now) call.now.bucket) }
{
    let Some(name) = &call.bucket else {
        return false;
    };
    match core.bucket_named(name.get().as_bytes()) {
        Some(bucket) => bucket.public,
        None => false,
    }
}

// The first rule of the token that refuses the call; of a download in a public bucket none is
// judged.
fn may_use(core: &Core, t: Moment, token: Option<&[u8]>, call: &BadCall) -> Result<(), FaultKind>
    ensures { refused plain result ≡ first_fault
        (if is_open core.now (calls.Bad call.now) then []
        else token_rules t (need call.now.name).tokens (λ g. true)
        (caller_of core.now (option_copied token.entry))) }
{
    let is_open = is_download(call.name) & is_public(core, call);
    if is_open {
        return Ok(());
    }
    let asker = asker_of(core, token);
    token_for(&asker, t, call.name, Target::Nothing)
}

fn copy_fault(alloc: Global, fault: &Fault) -> Result<Fault, Memory>
    ensures { IfOk result (λ f. f ≡ fault.now) }
{
    let detail = match &fault.detail {
        Detail::Nothing => Detail::Nothing,
        Detail::Word(word) => Detail::Word(Text::copy(alloc, word.get())?),
        Detail::Number(number) => Detail::Number(*number),
    };
    Ok(Fault {
        kind: fault.kind,
        detail,
    })
}

/// A call that is amiss is told what is amiss, where its token's rules let it through.
pub fn bad_call(
    alloc: Global,
    core: &Core,
    t: Moment,
    token: Option<&[u8]>,
    call: &BadCall,
) -> Result<Decision, Memory>
    ensures { IfOk result (IsDecision core.now t (option_copied token.entry)
        (calls.Bad call.now)) }
{
    if let Err(kind) = may_use(core, t, token, call) {
        return Ok(plain_refusal(kind));
    }
    let fault = copy_fault(alloc, &call.fault)?;
    Ok(refusal(fault))
}
