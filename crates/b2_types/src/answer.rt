//! Answers.

ghost use Rattle.std.specs.Prelude.{◌≡◌};
ghost use Rattle.b2_types.specs.Answer.{answer_status, answer_code, answer_reason, answer_rule};

use crate::denial::Denial;
use crate::fault::Fault;
use crate::fault_table::{code_of, reason_of, rule_of, status_of};
use crate::shown::{Shown, ShownFile};
use b2_base::{Extent, List};

/// Some bytes of a content: the place of the first, and how many they are.
#[derive(Clone, Copy, Debug, PartialEq, Eq)]
pub struct Span {
    pub at: u64,
    pub len: u64,
}

/// The content of a version, or a range of it.
#[derive(Drop)]
pub struct ContentOf<C> {
    /// The version's row.
    pub file: ShownFile,
    /// The pieces of the whole content.
    pub content: List<C>,
    /// The range that is sent; all of the content where none was asked for.
    pub range: Option<Span>,
}

/// An answer to a call, over what stands for a piece of content.
#[derive(Drop)]
pub enum AnswerOf<C> {
    Json(Shown),
    Content(ContentOf<C>),
    Refused(Fault),
}

/// An answer whose contents stand at extents.
pub type Answer = AnswerOf<Extent>;

impl<C> AnswerOf<C> {
    /// The status of the reply (RFC 9110, section 15).
    pub fn status(&self) -> u16
        ensures { result ≡ answer_status self.now }
    {
        match self {
            AnswerOf::Json(_) => 200,
            AnswerOf::Content(content) => match content.range {
                Some(_) => 206,
                None => 200,
            },
            AnswerOf::Refused(fault) => status_of(fault.kind),
        }
    }

    /// The reason that stands after the status.
    pub fn reason(&self) -> &'static str
        ensures { result.now ≡ answer_reason self.now }
    {
        match self {
            AnswerOf::Json(_) => "OK",
            AnswerOf::Content(content) => match content.range {
                Some(_) => "Partial Content",
                None => "OK",
            },
            AnswerOf::Refused(fault) => reason_of(fault.kind),
        }
    }

    /// The code of a refusal; empty where nothing is refused.
    pub fn code(&self) -> &[u8]
        ensures { result.now ≡ answer_code self.now }
    {
        match self {
            AnswerOf::Refused(fault) => code_of(fault.kind).as_bytes(),
            _ => b"",
        }
    }

    /// The rule that a denial names.
    pub fn rule(&self) -> Option<Denial>
        ensures { result ≡ answer_rule self.now }
    {
        match self {
            AnswerOf::Refused(fault) => rule_of(fault.kind),
            _ => None,
        }
    }
}
