//! What is to be copied.

ghost use Rattle.std.specs.Prelude.{◌≡◌, IfOk};
ghost use Rattle.b2_base.specs.declared.failure.Or.TheVariants as or;
ghost use Rattle.b2_types.specs.declared.answer.AnswerOf.TheVariants as answer;
ghost use Rattle.b2_types.specs.declared.fault.Fault.{Fault as TheFault};
ghost use Rattle.core_decisions.specs.declared.decision.Decision.TheVariants as decision;

use b2_base::{Extent, List, Memory, Or};
use b2_types::{Fault, Span, Version};
use core_decisions::{Decision, refusal};
use std::alloc::Global;

/// The bytes that a copy takes.
#[derive(Drop)]
pub struct CopyPlan {
    /// The pieces of the whole content of the source.
    pub content: List<Extent>,
    /// The bytes of it that are copied.
    pub span: Span,
}

/// These bytes of the source.
pub(crate) fn plan_of(alloc: Global, version: &Version, span: Span) -> Result<CopyPlan, Memory>
    ensures content { IfOk result (λ plan. plan.content ≡ version.now.content) }
    ensures span { IfOk result (λ plan. plan.span ≡ span) }
{
    let content = List::of(version.content.get().to_vec(alloc)?);
    Ok(CopyPlan { content, span })
}

/// What is answered where nothing is copied.
pub(crate) fn not_copied(error: Or<Fault>) -> Result<Decision, Memory>
    ensures { IfOk result (λ d. (fault : TheFault) × (error ≡ or.Fault fault)
        × (d ≡ decision.Reply (answer.Refused fault))) }
{
    match error {
        Or::Memory => Err(Memory),
        Or::Fault(fault) => Ok(refusal(fault)),
    }
}
