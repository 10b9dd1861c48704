//! What a step tells, as a text, so that no test holds an answer. Where memory is wanting the text
//! is empty, which no row expects but that of a connection that is lost.

use api_json::json_body;
use b2_base::{Extent, List, Memory, Text};
use b2_types::{Answer, AnswerOf, ContentOf, Fault};
use core_copies::CopyPlan;
use std::alloc::Global;

/// What the begin of an upload tells that is let in.
pub(crate) const BEGUN: &str = "the upload is under way";

pub(crate) fn empty(alloc: Global) -> Text {
    Text::of(String::new(alloc))
}

// The extents, each as its place and its length.
fn push_extents(alloc: Global, text: &mut String, extents: &List<Extent>) -> Result<(), Memory> {
    for piece in extents.get() {
        let piece = format!(in alloc; "{}+{} ", piece.at, piece.len)?;
        text.push_str(&piece)?;
    }
    Ok(())
}

// The extents of a content, its name, and the range that is sent.
fn content_text(alloc: Global, content: &ContentOf<Extent>) -> Result<Text, Memory> {
    let mut text = String::from_str(alloc, "sends ")?;
    push_extents(alloc, &mut text, &content.content)?;
    text.push_str(content.file.name.get())?;
    if let Some(span) = content.range {
        let span = format!(in alloc; " {}+{}", span.at, span.len)?;
        text.push_str(&span)?;
    }
    text.push_str(";")?;
    Ok(Text::of(text))
}

fn answer_text(alloc: Global, answer: &Answer) -> Result<Text, Memory> {
    if let AnswerOf::Content(content) = answer {
        return content_text(alloc, content);
    }
    match json_body(alloc, answer)? {
        Some(text) => Ok(text),
        None => Err(Memory),
    }
}

fn text_of(alloc: Global, answer: Answer) -> Result<Text, Memory> {
    let text = answer_text(alloc, &answer);
    drop(answer);
    text
}

/// The body of the answer; of a content its extents, its name, and the range that is sent.
pub(crate) fn body_of(alloc: Global, answer: Answer) -> Text {
    text_of(alloc, answer).unwrap_or(empty(alloc))
}

pub(crate) fn fault_text(alloc: Global, fault: Option<Fault>) -> Text {
    match fault {
        Some(fault) => body_of(alloc, AnswerOf::Refused(fault)),
        None => Text::copy(alloc, BEGUN).unwrap_or(empty(alloc)),
    }
}

/// The pieces of the source, and the bytes of it that are copied.
pub(crate) fn plan_text(alloc: Global, plan: &CopyPlan) -> Result<Text, Memory> {
    let mut text = String::from_str(alloc, "copies ")?;
    push_extents(alloc, &mut text, &plan.content)?;
    let span = format!(in alloc; "{}+{};", plan.span.at, plan.span.len)?;
    text.push_str(&span)?;
    Ok(Text::of(text))
}

/// How many bytes the extents have together.
pub(crate) fn bytes_of(extents: List<Extent>) -> u64 {
    let mut bytes = 0u64;
    for piece in extents.get() {
        bytes = bytes.saturating_add(piece.len);
    }
    bytes
}

fn count_text(alloc: Global, count: usize, bytes: u64) -> Result<Text, Memory> {
    Ok(Text::of(format!(in alloc; "{count} versions, {bytes} bytes given up")?))
}

/// How many versions stand, and how many bytes a record gives up; none where it doesn't apply.
pub(crate) fn record_text(alloc: Global, count: usize, bytes: Option<u64>) -> Text {
    let told = match bytes {
        Some(bytes) => count_text(alloc, count, bytes),
        None => Text::copy(alloc, "the record does not apply"),
    };
    told.unwrap_or(empty(alloc))
}

fn names_text(alloc: Global, body: &str) -> Result<Text, Memory> {
    let mut text = String::from_str(alloc, "names ")?;
    for part in body.split(r#""fileName":""#).skip(1) {
        let name = part.split('"').next().unwrap_or("");
        text.push_str(name)?;
        text.push_str(" ")?;
    }
    let end = body.rsplit(']').next().unwrap_or("");
    text.push_str(end)?;
    Ok(Text::of(text))
}

/// The names that the body of a listing tells, each with a space behind it, and what stands behind
/// its rows.
pub(crate) fn list_text(alloc: Global, body: Text) -> Text {
    names_text(alloc, body.get()).unwrap_or(empty(alloc))
}
