//! The head of a reply.

ghost use Rattle.std.specs.Prelude.{◌≡◌, codes, if◌then◌else◌, string_bytes, IfOk};
ghost use Rattle.b2_types.specs.Answer.{status_line, IsSendable};
ghost use Rattle.http_edge.specs.Reply.{status_text, json_headers, body_headers, reply_head};

use crate::content::content_lines;
use b2_base::{Memory, Text};
use b2_types::AnswerOf;
use std::alloc::Global;

fn status_text<C>(alloc: Global, answer: &AnswerOf<C>) -> Result<String, Memory>
    ensures { IfOk result (λ t. string_bytes t ≡ status_text (status_line answer.now)) }
{
    let status = answer.status();
    let reason = answer.reason();
    Ok(format!(in alloc; "HTTP/1.1 {status} {reason}\r\n")?)
}

fn json_lines(alloc: Global, len: u64) -> Result<String, Memory>
    ensures { IfOk result (λ t. string_bytes t ≡ json_headers len) }
{
    Ok(format!(in alloc;
        "Content-Type: application/json;charset=utf-8\r\nContent-Length: {len}\r\n"
    )?)
}

fn body_lines<C>(alloc: Global, answer: &AnswerOf<C>, len: u64) -> Result<String, Memory>
    requires { IsSendable answer.now }
    ensures { IfOk result (λ t. string_bytes t ≡ body_headers answer.now len) }
{
    match answer {
        AnswerOf::Content(content) => content_lines(alloc, content, len),
        _ => json_lines(alloc, len),
    }
}

fn option_text(stay: bool) -> &'static str
    ensures { result.now ≡ (if stay then codes "keep-alive" else codes "close") }
{
    if stay { "keep-alive" } else { "close" }
}

/// The head of the reply to an answer, whose body has `len` bytes. It says whether the connection stays open
/// after the reply.
pub fn reply_head<C>(
    alloc: Global,
    answer: &AnswerOf<C>,
    len: u64,
    stay: bool,
) -> Result<Text, Memory>
    requires { IsSendable answer.now }
    ensures { IfOk result (λ t. t ≡ reply_head answer.now len stay) }
{
    let status = status_text(alloc, answer)?;
    let body = body_lines(alloc, answer, len)?;
    let option = option_text(stay);
    let head = format!(in alloc; "{status}{body}Connection: {option}\r\n\r\n")?;
    Ok(Text::of(head))
}
