//! Copies that make a file.

ghost use Rattle.std.specs.Prelude.{◌≡◌, None, Some, IfOk, Option as TheOption, unwrap_or};
ghost use Rattle.std.specs.Option.{option_copied};
ghost use Rattle.b2_base.specs.Failure.{IfFault};
ghost use Rattle.b2_types.specs.declared.answer.AnswerOf.TheVariants as answer;
ghost use Rattle.b2_types.specs.declared.call.Call.TheVariants as calls;
ghost use Rattle.b2_types.specs.declared.key.Key.{Key as TheKey};
ghost use Rattle.b2_types.specs.Need.{more_caps};
ghost use Rattle.b2_model.specs.AskCopies.{copied_span, copy_file};
ghost use Rattle.b2_model.specs.Checks.{first_fault};
ghost use Rattle.b2_model.specs.Rows.{version_at};
ghost use Rattle.b2_model.specs.State.{bucket_at};
ghost use Rattle.new_versions.specs.Decided.{extent_len};
ghost use Rattle.core_decisions.specs.declared.decision.Decision.TheVariants as decision;
ghost use Rattle.core_decisions.specs.Decided.{Copies, IsDecision, at_extents};
ghost use Rattle.core_copies.specs.Copied.{IsAllowed, IsCopyDecision, IsPlanOf};

use crate::plan::{CopyPlan, not_copied, plan_of};
use b2_base::{BucketNum, Memory, Moment, Or};
use b2_types::{AnswerOf, Bucket, CopyFile, Fault, Shown, Version};
use copy_calls::{CopiedBytes, FilePlan, copy_file, fault_of, may_copy_file};
use core_decisions::{Decision, plain_refusal};
use core_files::{locked_caps, show_made};
use core_policy::{asker_of, copy_for};
use core_state::Core;
use rule_table::{CallName, Cap};
use shown_values::content_length;
use std::alloc::Global;

// The bucket that it is copied to.
fn target_of(call: &CopyFile) -> BucketNum
    ensures { result ≡ unwrap_or call.now.bucket call.now.source.bucket }
{
    call.bucket.unwrap_or(call.source.bucket)
}

// The capabilities that a copy needs besides.
fn more_for(call: &CopyFile) -> &'static [Cap]
    ensures { result.now ≡ more_caps (calls.CopyFile call.now) }
{
    locked_caps(call.retention.is_some(), call.hold.unwrap_or(false))
}

// What an accepted copy makes, or the first rule of its own that refuses it.
fn judged(
    core: &Core,
    bucket: &Bucket,
    version: &Version,
    t: Moment,
    call: &CopyFile,
) -> Result<FilePlan, Or<Fault>>
    ensures refused { (copy : Copies) (key : TheOption TheKey)
        → bucket_at core.now (unwrap_or call.now.bucket call.now.source.bucket) ≡ Some bucket.now
        → version_at core.now call.now.source.bucket call.now.source.num ≡ Some version.now
        → IfFault result (λ fault. Some fault
        ≡ first_fault (copy_file (at_extents copy) core.now key t call.now).own) }
    ensures accepted { (copy : Copies) (key : TheOption TheKey)
        → bucket_at core.now (unwrap_or call.now.bucket call.now.source.bucket) ≡ Some bucket.now
        → version_at core.now call.now.source.bucket call.now.source.num ≡ Some version.now
        → IfOk result (λ plan. None
        ≡ first_fault (copy_file (at_extents copy) core.now key t call.now).own) }
    ensures span { IfOk result
        (λ plan. plan.span ≡ copied_span extent_len version.now call.now.range) }
    ensures number { IfOk result (λ plan. core.now.next_version ≡ plan.num) }
{
    let Some(len) = content_length(version.content.get()) else {
        return Err(Or::Memory);
    };
    match may_copy_file(version, len, bucket, core.next_number(), t, call) {
        Ok(plan) => Ok(plan),
        Err(refused) => Err(Or::Fault(fault_of(refused))),
    }
}

/// What a copy to a file takes, or the first rule that refuses it (the B2 reference, b2_copy_file).
pub fn check_file_copy(
    alloc: Global,
    core: &Core,
    t: Moment,
    token: Option<&[u8]>,
    call: &CopyFile,
) -> Result<CopyPlan, Or<Fault>>
    ensures refused { IfFault result (λ fault. IsDecision core.now t (option_copied token.entry)
        (calls.CopyFile call.now) (decision.Reply (answer.Refused fault))) }
    ensures allowed { IfOk result (λ plan. IsAllowed core.now t (option_copied token.entry)
        (calls.CopyFile call.now)) }
    ensures plan { IfOk result (IsPlanOf core.now call.now.source call.now.range) }
{
    let asker = asker_of(core, token);
    let target = target_of(call);
    let more = more_for(call);
    let name = CallName::CopyFile;
    let found = match copy_for(
        core,
        &asker,
        t,
        name,
        more,
        &call.source,
        target,
        &call.name,
    ) {
        Ok(found) => found,
        Err(kind) => return Err(Or::Fault(Fault::plain(kind))),
    };
    let plan = judged(core, found.0, found.1, t, call)?;
    let copied = plan_of(alloc, found.1, plan.span)?;
    Ok(copied)
}

/// What a copy to a file comes to whose bytes are these. It is judged again, so that nothing need be
/// kept of the check.
pub fn end_file_copy(
    alloc: Global,
    core: &Core,
    t: Moment,
    token: Option<&[u8]>,
    call: &CopyFile,
    bytes: &CopiedBytes,
) -> Result<Decision, Memory>
    ensures { IfOk result (IsCopyDecision core.now t (option_copied token.entry)
        (calls.CopyFile call.now) call.now.source call.now.range bytes.now) }
{
    let asker = asker_of(core, token);
    let target = target_of(call);
    let more = more_for(call);
    let name = CallName::CopyFile;
    let found = match copy_for(
        core,
        &asker,
        t,
        name,
        more,
        &call.source,
        target,
        &call.name,
    ) {
        Ok(found) => found,
        Err(kind) => return Ok(plain_refusal(kind)),
    };
    let plan = match judged(core, found.0, found.1, t, call) {
        Ok(plan) => plan,
        Err(error) => return not_copied(error),
    };
    let record = copy_file(alloc, found.1, found.0, plan.num, t, call, bytes)?;
    let shown = show_made(alloc, core.settings(), asker.key, &record)?;
    Ok(Decision::Write(record, AnswerOf::Json(Shown::File(shown))))
}
