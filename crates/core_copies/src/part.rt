//! Copies that make a part of a large file.

ghost use Rattle.std.specs.Prelude.{◌≡◌, None, Some, IfOk};
ghost use Rattle.std.specs.Option.{option_copied};
ghost use Rattle.b2_base.specs.Failure.{IfFault};
ghost use Rattle.b2_types.specs.declared.answer.AnswerOf.TheVariants as answer;
ghost use Rattle.b2_types.specs.declared.call.Call.TheVariants as calls;
ghost use Rattle.b2_types.specs.declared.kinds.Mark.TheVariants as mark;
ghost use Rattle.b2_model.specs.AskCopies.{copied_span, copy_part};
ghost use Rattle.b2_model.specs.Checks.{first_fault};
ghost use Rattle.b2_model.specs.Rows.{version_at};
ghost use Rattle.b2_model.specs.Shown.{shown_part};
ghost use Rattle.new_versions.specs.Decided.{extent_len};
ghost use Rattle.core_decisions.specs.declared.decision.Decision.TheVariants as decision;
ghost use Rattle.core_decisions.specs.Decided.{Copies, IsDecision, at_extents};
ghost use Rattle.core_copies.specs.Copied.{IsAllowed, IsCopyDecision, IsPlanOf};

use crate::plan::{CopyPlan, not_copied, plan_of};
use b2_base::{Memory, Moment, Or};
use b2_types::{AnswerOf, CopyPart, Fault, Mark, PartOf, Shown, ShownPart, Span, Version};
use copy_calls::{CopiedBytes, copy_part, fault_of, may_copy_part};
use core_decisions::{Decision, plain_refusal};
use core_policy::{asker_of, part_copy_for};
use core_state::Core;
use rule_table::CallName;
use shown_values::{content_length, show_part};
use std::alloc::Global;

// The bytes of the source that an accepted copy takes, or the first rule of its own that refuses it.
fn judged(
    core: &Core,
    version: &Version,
    large: &Version,
    t: Moment,
    call: &CopyPart,
) -> Result<Span, Or<Fault>>
    ensures refused { (copy : Copies)
        → version_at core.now call.now.source.bucket call.now.source.num ≡ Some version.now
        → version_at core.now call.now.bucket call.now.file ≡ Some large.now
        → IfFault result (λ fault. Some fault
        ≡ first_fault (copy_part (at_extents copy) core.now t call.now).own) }
    ensures accepted { (copy : Copies)
        → version_at core.now call.now.source.bucket call.now.source.num ≡ Some version.now
        → version_at core.now call.now.bucket call.now.file ≡ Some large.now
        → IfOk result (λ span. None
        ≡ first_fault (copy_part (at_extents copy) core.now t call.now).own) }
    ensures span { IfOk result (λ span. span ≡ copied_span extent_len version.now call.now.range) }
{
    let Some(len) = content_length(version.content.get()) else {
        return Err(Or::Memory);
    };
    match may_copy_part(version, len, large, call) {
        Ok(span) => Ok(span),
        Err(refused) => Err(Or::Fault(fault_of(refused))),
    }
}

/// What a copy to a part takes, or the first rule that refuses it (the B2 reference, b2_copy_part).
pub fn check_part_copy(
    alloc: Global,
    core: &Core,
    t: Moment,
    token: Option<&[u8]>,
    call: &CopyPart,
) -> Result<CopyPlan, Or<Fault>>
    ensures refused { IfFault result (λ fault. IsDecision core.now t (option_copied token.entry)
        (calls.CopyPart call.now) (decision.Reply (answer.Refused fault))) }
    ensures allowed { IfOk result (λ plan. IsAllowed core.now t (option_copied token.entry)
        (calls.CopyPart call.now)) }
    ensures plan { IfOk result (IsPlanOf core.now call.now.source call.now.range) }
{
    let asker = asker_of(core, token);
    let name = CallName::CopyPart;
    let found = match part_copy_for(core, &asker, t, name, &call.source, call.bucket, call.file) {
        Ok(found) => found,
        Err(kind) => return Err(Or::Fault(Fault::plain(kind))),
    };
    let span = judged(core, found.0, found.1, t, call)?;
    let copied = plan_of(alloc, found.0, span)?;
    Ok(copied)
}

// The part as an answer shows it.
fn show_copied(large: &Version, t: Moment, call: &CopyPart, bytes: &CopiedBytes) -> ShownPart
    ensures { result ≡ shown_part extent_len large.now.bucket large.now.num (record {
      number = call.now.number;
      content = bytes.now.content;
      mark = mark.Verified;
      digest = bytes.now.digest;
      stamp = t;
    }) }
{
    let part = PartOf {
        number: call.number,
        content: bytes.content,
        mark: Mark::Verified,
        digest: bytes.digest,
        stamp: t,
    };
    show_part(large.bucket, large.num, &part)
}

/// What a copy to a part comes to whose bytes are these. It is judged again, so that nothing need be
/// kept of the check.
pub fn end_part_copy(
    core: &Core,
    t: Moment,
    token: Option<&[u8]>,
    call: &CopyPart,
    bytes: &CopiedBytes,
) -> Result<Decision, Memory>
    ensures { IfOk result (IsCopyDecision core.now t (option_copied token.entry)
        (calls.CopyPart call.now) call.now.source call.now.range bytes.now) }
{
    let asker = asker_of(core, token);
    let name = CallName::CopyPart;
    let found = match part_copy_for(core, &asker, t, name, &call.source, call.bucket, call.file) {
        Ok(found) => found,
        Err(kind) => return Ok(plain_refusal(kind)),
    };
    let _ = match judged(core, found.0, found.1, t, call) {
        Ok(span) => span,
        Err(error) => return not_copied(error),
    };
    let record = copy_part(found.1, t, call, bytes);
    let shown = show_copied(found.1, t, call, bytes);
    Ok(Decision::Write(record, AnswerOf::Json(Shown::Part(shown))))
}
