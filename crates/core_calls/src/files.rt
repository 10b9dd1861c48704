//! Calls on a file.

ghost use Rattle.std.specs.Prelude.{◌≡◌, IfOk};
ghost use Rattle.std.specs.Option.{option_copied};
ghost use Rattle.b2_types.specs.declared.call.Call.TheVariants as calls;
ghost use Rattle.core_decisions.specs.Decided.{IsDecision};

use b2_base::{Memory, Moment, Text};
use b2_types::{AnswerOf, FileCall, Shown, ShownCancelled};
use core_decisions::{Decision, plain_refusal, refusal};
use core_policy::{asker_of, file_for};
use core_state::Core;
use large_files::{cancel_large_file, not_large_fault};
use rule_table::CallName;
use shown_values::{content_length, show_file, show_name};
use std::alloc::Global;

/// What stands of a file.
pub fn file_info(
    alloc: Global,
    core: &Core,
    t: Moment,
    token: Option<&[u8]>,
    call: &FileCall,
) -> Result<Decision, Memory>
    ensures { IfOk result (IsDecision core.now t (option_copied token.entry)
        (calls.GetFileInfo call.now)) }
{
    let asker = asker_of(core, token);
    let name = CallName::GetFileInfo;
    let version = match file_for(core, &asker, t, name, call.bucket, call.file) {
        Ok(version) => version,
        Err(kind) => return Ok(plain_refusal(kind)),
    };
    let Some(len) = content_length(version.content.get()) else {
        return Err(Memory);
    };
    let shown = show_file(alloc, core.settings(), asker.key, version, len)?;
    Ok(Decision::Reply(AnswerOf::Json(Shown::File(shown))))
}

/// Cancels a large file that was started.
pub fn cancel_file(
    alloc: Global,
    core: &Core,
    t: Moment,
    token: Option<&[u8]>,
    call: &FileCall,
) -> Result<Decision, Memory>
    ensures { IfOk result (IsDecision core.now t (option_copied token.entry)
        (calls.CancelLargeFile call.now)) }
{
    let asker = asker_of(core, token);
    let name = CallName::CancelLargeFile;
    let version = match file_for(core, &asker, t, name, call.bucket, call.file) {
        Ok(version) => version,
        Err(kind) => return Ok(plain_refusal(kind)),
    };
    let record = match cancel_large_file(version, t) {
        Ok(record) => record,
        Err(refused) => return Ok(refusal(not_large_fault(refused))),
    };
    let account = Text::copy(alloc, core.settings().account.get())?;
    let file = show_name(alloc, version)?;
    let shown = Shown::Cancelled(ShownCancelled { account, file });
    Ok(Decision::Write(record, AnswerOf::Json(shown)))
}
