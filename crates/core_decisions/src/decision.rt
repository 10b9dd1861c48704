//! What calls come to.

ghost use Rattle.std.specs.Prelude.{◌≡◌};
ghost use Rattle.b2_types.specs.declared.answer.AnswerOf.TheVariants as answer;
ghost use Rattle.b2_types.specs.Fault.{plain};
ghost use Rattle.core_decisions.specs.declared.decision.Decision.TheVariants as decision;

use b2_types::{Answer, AnswerOf, Fault, Record};
use rule_table::FaultKind;

/// What a call comes to at a moment.
#[derive(Drop)]
pub enum Decision {
    /// The answer. Nothing is written.
    Reply(Answer),
    /// The record that is to be written, and then the answer.
    Write(Record, Answer),
}

/// A refusal.
pub fn refusal(fault: Fault) -> Decision
    ensures { result ≡ decision.Reply (answer.Refused fault) }
{
    Decision::Reply(AnswerOf::Refused(fault))
}

/// A refusal of a kind that says all.
pub fn plain_refusal(kind: FaultKind) -> Decision
    ensures { result ≡ decision.Reply (answer.Refused (plain kind)) }
{
    refusal(Fault::plain(kind))
}
