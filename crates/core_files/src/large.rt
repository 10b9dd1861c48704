//! Calls that start and finish a large file.

ghost use Rattle.std.specs.Prelude.{◌≡◌, Some, IfOk, option_and_then};
ghost use Rattle.std.specs.Option.{option_copied};
ghost use Rattle.b2_types.specs.declared.answer.AnswerOf.TheVariants as answer;
ghost use Rattle.b2_types.specs.declared.call.Call.TheVariants as calls;
ghost use Rattle.b2_types.specs.declared.fault.Fault.{Fault as TheFault};
ghost use Rattle.b2_types.specs.Need.{lock_caps, more_caps};
ghost use Rattle.b2_model.specs.State.{bucket_at};
ghost use Rattle.new_versions.specs.Decided.{fault_told};
ghost use Rattle.new_versions.specs.Refusals.{refusal_fault};
ghost use Rattle.core_decisions.specs.declared.decision.Decision.TheVariants as decision;
ghost use Rattle.core_decisions.specs.Decided.{IsDecision};

use crate::shown::{show_finished, show_made};
use b2_base::{BucketNum, Memory, Moment, Or};
use b2_types::{AnswerOf, DefaultRetention, FinishCall, Shown, StartCall};
use core_decisions::{Decision, plain_refusal, refusal};
use core_policy::{asker_of, file_for, name_for};
use core_state::Core;
use large_files::{fault_of_finish, finish_large_file, start_large_file};
use new_versions::{VersionRefusal, fault_of};
use object_lock::own_or_default;
use rule_table::{CallName, Cap};
use std::alloc::Global;

/// The capabilities that a new version needs besides: for a retention that is asked for, and for a
/// legal hold.
pub fn locked_caps(retained: bool, held: bool) -> &'static [Cap]
    ensures { result.now ≡ lock_caps retained held }
{
    match (retained, held) {
        (true, true) => &[Cap::WriteFileRetentions, Cap::WriteFileLegalHolds],
        (true, false) => &[Cap::WriteFileRetentions],
        (false, true) => &[Cap::WriteFileLegalHolds],
        (false, false) => &[],
    }
}

// Those that a start needs besides.
fn more_for(call: &StartCall) -> &'static [Cap]
    ensures { result.now ≡ more_caps (calls.StartLargeFile call.now) }
{
    locked_caps(call.retention.is_some(), call.hold.unwrap_or(false))
}

// What is answered where there is no record.
fn not_started(error: Or<VersionRefusal>) -> Result<Decision, Memory>
    ensures { IfOk result (λ d. (fault : TheFault) × (fault_told refusal_fault error ≡ Some fault)
        × (d ≡ decision.Reply (answer.Refused fault))) }
{
    match error {
        Or::Memory => Err(Memory),
        Or::Fault(refused) => Ok(refusal(fault_of(refused))),
    }
}

/// Starts a large file (the B2 reference, b2_start_large_file).
pub fn start_file(
    alloc: Global,
    core: &Core,
    t: Moment,
    token: Option<&[u8]>,
    call: &StartCall,
) -> Result<Decision, Memory>
    ensures { IfOk result (IsDecision core.now t (option_copied token.entry)
        (calls.StartLargeFile call.now)) }
{
    let asker = asker_of(core, token);
    let name = CallName::StartLargeFile;
    let more = more_for(call);
    let bucket = match name_for(core, &asker, t, name, more, call.bucket, &call.name) {
        Ok(bucket) => bucket,
        Err(kind) => return Ok(plain_refusal(kind)),
    };
    let record = match start_large_file(alloc, bucket, core.next_number(), t, call) {
        Ok(record) => record,
        Err(error) => return not_started(error),
    };
    let shown = show_made(alloc, core.settings(), asker.key, &record)?;
    Ok(Decision::Write(record, AnswerOf::Json(Shown::File(shown))))
}

// The default retention of a bucket, where it stands.
fn default_of(core: &Core, bucket: BucketNum) -> Option<DefaultRetention>
    ensures { option_and_then (λ b. b.default) (bucket_at core.now bucket) ≡ result }
{
    match core.bucket(bucket) {
        Some(bucket) => bucket.default,
        None => None,
    }
}

/// Makes the file of the parts of a large file (the B2 reference, b2_finish_large_file).
pub fn finish_file(
    alloc: Global,
    core: &Core,
    t: Moment,
    token: Option<&[u8]>,
    call: &FinishCall,
) -> Result<Decision, Memory>
    ensures { IfOk result (IsDecision core.now t (option_copied token.entry)
        (calls.FinishLargeFile call.now)) }
{
    let asker = asker_of(core, token);
    let name = CallName::FinishLargeFile;
    let version = match file_for(core, &asker, t, name, call.bucket, call.file) {
        Ok(version) => version,
        Err(kind) => return Ok(plain_refusal(kind)),
    };
    let settings = core.settings();
    let default = default_of(core, version.bucket);
    let record = match finish_large_file(version, default, settings.part_min, t, call) {
        Ok(record) => record,
        Err(refused) => return Ok(refusal(fault_of_finish(refused))),
    };
    let retention = own_or_default(t, version.retention, default);
    let shown = show_finished(alloc, settings, asker.key, version, retention)?;
    Ok(Decision::Write(record, AnswerOf::Json(Shown::File(shown))))
}
