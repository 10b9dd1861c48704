//! The bodies of replies: JSON with no space in it.

ghost use Rattle.std.specs.Prelude.{◌≡◌, IfOk, option_map};
ghost use Rattle.serde_json.specs.Written.{compact_text};
ghost use Rattle.wire_forms.specs.Body.{body_of, refusal_json};
ghost use Rattle.api_json.specs.Answer.{answer_json};

use crate::to_json::ToJson;
use b2_base::{Memory, Text};
use b2_types::{AnswerOf, Fault, Shown};
use json_shape::render;
use std::alloc::Global;

/// The body of the reply to a call that is carried out.
pub fn write_answer(alloc: Global, shown: &Shown) -> Result<Text, Memory>
    ensures { IfOk result (λ t. t ≡ compact_text (body_of shown.now)) }
{
    let value = shown.to_json(alloc)?;
    let text = render(alloc, &value)?;
    Ok(text)
}

/// The body of the reply that refuses a request.
pub fn refusal_body(alloc: Global, fault: &Fault) -> Result<Text, Memory>
    ensures { IfOk result (λ t. t ≡ compact_text (refusal_json fault.now)) }
{
    let value = fault.to_json(alloc)?;
    let text = render(alloc, &value)?;
    Ok(text)
}

/// The body of the reply to an answer that sends no content; none where it sends one.
pub fn json_body<C>(alloc: Global, answer: &AnswerOf<C>) -> Result<Option<Text>, Memory>
    ensures { IfOk result (λ t. t ≡ option_map compact_text (answer_json answer.now)) }
{
    match answer {
        AnswerOf::Json(shown) => {
            let text = write_answer(alloc, shown)?;
            Ok(Some(text))
        }
        AnswerOf::Content(_) => Ok(None),
        AnswerOf::Refused(fault) => {
            let text = refusal_body(alloc, fault)?;
            Ok(Some(text))
        }
    }
}
