//! The bytes of replies.

ghost use Rattle.std.specs.Prelude.{◌≡◌, ◌<◌, ◌++◌, false, IfOk, length};
ghost use Rattle.b2_types.specs.declared.answer.AnswerOf.TheVariants as answer;
ghost use Rattle.http_edge.specs.Reply.{reply_of};
ghost use Rattle.request_acts.specs.Answering.{IsText};

use api_json::json_body;
use b2_base::{Blob, Memory};
use b2_types::{AnswerOf, Fault};
use http_edge::reply_head;
use std::alloc::{AllocError, Global};

/// A reply before any of it is sent.
#[derive(Drop)]
pub struct Reply {
    /// What is sent first: its head at least.
    pub text: Blob,
    /// How many bytes of a content are sent after it.
    pub len: u64,
}

// One text after the other.
fn joined(alloc: Global, first: &[u8], second: &[u8]) -> Result<Vec<u8>, AllocError>
    ensures { IfOk result (λ v. v.items ≡ first.now ++ second.now) }
{
    let mut all = first.to_vec(alloc)?;
    all.extend_from_slice(second)?;
    Ok(all)
}

/// The bytes of the reply to an answer that sends no content. It says whether the connection stays
/// open after it.
#[tactic(auto, using(crate::proofs::Heads::reply_some))]
pub fn reply_text(alloc: Global, answer: &AnswerOf<Blob>, stay: bool) -> Result<Blob, Memory>
    requires { IsText answer.now }
    ensures text { IfOk result (λ text. text ≡ reply_of answer.now stay) }
    ensures some { IfOk result (λ text. 0 < length text) }
{
    let Some(body) = json_body(alloc, answer)? else {
        unreachable!();
    };
    let body = body.get().as_bytes();
    let head = reply_head(alloc, answer, body.len() as u64, stay)?;
    let all = joined(alloc, head.get().as_bytes(), body)?;
    Ok(Blob::of(all))
}

/// The bytes of the reply to a request whose form is refused, with which its connection is closed.
pub fn refusal_text(alloc: Global, fault: Fault) -> Result<Blob, Memory>
    ensures { IfOk result (λ text. text ≡ reply_of (answer.Refused fault) false) }
{
    reply_text(alloc, &AnswerOf::Refused(fault), false)
}
