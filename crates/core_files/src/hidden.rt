//! The call that hides a name.

ghost use Rattle.std.specs.Prelude.{◌≡◌, Some, IfOk, option_map};
ghost use Rattle.std.specs.Option.{option_copied};
ghost use Rattle.b2_types.specs.declared.answer.AnswerOf.TheVariants as answer;
ghost use Rattle.b2_types.specs.declared.call.Call.TheVariants as calls;
ghost use Rattle.b2_types.specs.declared.fault.Fault.{Fault as TheFault};
ghost use Rattle.b2_model.specs.Current.{current};
ghost use Rattle.new_versions.specs.Decided.{fault_told};
ghost use Rattle.new_versions.specs.Refusals.{hide_fault};
ghost use Rattle.core_decisions.specs.declared.decision.Decision.TheVariants as decision;
ghost use Rattle.core_decisions.specs.Decided.{IsDecision};

use crate::shown::show_made;
use b2_base::{BucketNum, Memory, Moment, Or};
use b2_types::{Action, AnswerOf, HideFile, Shown};
use core_decisions::{Decision, plain_refusal, refusal};
use core_policy::{asker_of, name_for};
use core_state::Core;
use name_rules::FileName;
use new_versions::{HideRefusal, hide, hide_fault};
use rule_table::CallName;
use std::alloc::Global;

// What the current version of the name is.
fn current_action(
    alloc: Global,
    core: &Core,
    bucket: BucketNum,
    name: &FileName,
) -> Result<Option<Action>, Memory>
    ensures { IfOk result
        (λ a. option_map (λ v. v.action) (current core.now bucket name.now) ≡ a) }
{
    match core.current(alloc, bucket, name.get().as_bytes())? {
        Some(version) => Ok(Some(version.action)),
        None => Ok(None),
    }
}

// What is answered where there is no record.
fn not_hidden(error: Or<HideRefusal>) -> Result<Decision, Memory>
    ensures { IfOk result (λ d. (fault : TheFault) × (fault_told hide_fault error ≡ Some fault)
        × (d ≡ decision.Reply (answer.Refused fault))) }
{
    match error {
        Or::Memory => Err(Memory),
        Or::Fault(refused) => Ok(refusal(hide_fault(refused))),
    }
}

/// Hides a name by a marker (the B2 reference, b2_hide_file).
pub fn hide_file(
    alloc: Global,
    core: &Core,
    t: Moment,
    token: Option<&[u8]>,
    call: &HideFile,
) -> Result<Decision, Memory>
    ensures { IfOk result (IsDecision core.now t (option_copied token.entry)
        (calls.HideFile call.now)) }
{
    let asker = asker_of(core, token);
    let name = CallName::HideFile;
    let bucket = match name_for(core, &asker, t, name, &[], call.bucket, &call.name) {
        Ok(bucket) => bucket,
        Err(kind) => return Ok(plain_refusal(kind)),
    };
    let newest = current_action(alloc, core, bucket.num, &call.name)?;
    let record = match hide(alloc, bucket, newest, core.next_number(), t, call) {
        Ok(record) => record,
        Err(error) => return not_hidden(error),
    };
    let shown = show_made(alloc, core.settings(), asker.key, &record)?;
    Ok(Decision::Write(record, AnswerOf::Json(Shown::File(shown))))
}
