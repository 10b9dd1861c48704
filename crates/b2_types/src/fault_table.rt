//! The table of faults.

ghost use Rattle.std.specs.Prelude.{◌≡◌, IfOk};
ghost use Rattle.b2_types.specs.FaultTable.{fault_entry, rule_of};
ghost use Rattle.b2_types.specs.Fault.{message};

use crate::denial::Denial;
use crate::fault::{Detail, Fault};
use b2_base::{Memory, Text};
use rule_table::FaultKind;
use std::alloc::Global;

/// The status of the reply (RFC 9110, section 15).
pub fn status_of(kind: FaultKind) -> u16
    ensures { result ≡ (fault_entry kind).status.number }
{
    match kind {
        FaultKind::NoCall | FaultKind::NoFile => 404,
        FaultKind::BadMethod => 405,
        FaultKind::P1
        | FaultKind::P2
        | FaultKind::P3
        | FaultKind::P4
        | FaultKind::P5
        | FaultKind::P6
        | FaultKind::P7
        | FaultKind::P8
        | FaultKind::P9
        | FaultKind::P10 => 401,
        FaultKind::P11 | FaultKind::P12 | FaultKind::P13 | FaultKind::P14 | FaultKind::Cap => 403,
        FaultKind::Conflict => 409,
        FaultKind::Range => 416,
        FaultKind::Busy => 503,
        _ => 400,
    }
}

/// The reason that stands after the status (RFC 9110, section 15).
pub fn reason_of(kind: FaultKind) -> &'static str
    ensures { result.now ≡ (fault_entry kind).status.reason }
{
    match kind {
        FaultKind::NoCall | FaultKind::NoFile => "Not Found",
        FaultKind::BadMethod => "Method Not Allowed",
        FaultKind::P1
        | FaultKind::P2
        | FaultKind::P3
        | FaultKind::P4
        | FaultKind::P5
        | FaultKind::P6
        | FaultKind::P7
        | FaultKind::P8
        | FaultKind::P9
        | FaultKind::P10 => "Unauthorized",
        FaultKind::P11 | FaultKind::P12 | FaultKind::P13 | FaultKind::P14 | FaultKind::Cap => {
            "Forbidden"
        }
        FaultKind::Conflict => "Conflict",
        FaultKind::Range => "Range Not Satisfiable",
        FaultKind::Busy => "Service Unavailable",
        _ => "Bad Request",
    }
}

/// The code that the reply's body gives, for programs.
pub fn code_of(kind: FaultKind) -> &'static str
    ensures { result.now ≡ (fault_entry kind).code }
{
    match kind {
        FaultKind::NoCall | FaultKind::NoFile => "not_found",
        FaultKind::BadMethod => "method_not_allowed",
        FaultKind::Unsupported => "unsupported",
        FaultKind::P1
        | FaultKind::P4
        | FaultKind::P6
        | FaultKind::P7
        | FaultKind::P8
        | FaultKind::P9
        | FaultKind::P10 => "unauthorized",
        FaultKind::P2 | FaultKind::P3 => "bad_auth_token",
        FaultKind::P5 => "expired_auth_token",
        FaultKind::P11 | FaultKind::P12 | FaultKind::P13 | FaultKind::P14 => "access_denied",
        FaultKind::NoBucket => "bad_bucket_id",
        FaultKind::Duplicate => "duplicate_bucket_name",
        FaultKind::TooManyBuckets => "too_many_buckets",
        FaultKind::Conflict => "conflict",
        FaultKind::NotEmpty => "cannot_delete_non_empty_bucket",
        FaultKind::Hidden => "already_hidden",
        FaultKind::Range => "range_not_satisfiable",
        FaultKind::Busy => "service_unavailable",
        FaultKind::Cap => "cap_exceeded",
        _ => "bad_request",
    }
}

/// The text that the reply's body gives, for people, without what the fault carries.
pub fn text_of(kind: FaultKind) -> &'static str
    ensures { result.now ≡ (fault_entry kind).text }
{
    match kind {
        FaultKind::BadHead => "head is not HTTP",
        FaultKind::LongHead => "head is too long",
        FaultKind::BadLength => "bad content length",
        FaultKind::NoCall => "no such call",
        FaultKind::BadMethod => "method not allowed",
        FaultKind::NotJson => "body is not a JSON object",
        FaultKind::Missing => "missing field",
        FaultKind::Wrong => "bad field",
        FaultKind::BadHeader => "bad header",
        FaultKind::Unsupported => "not offered",
        FaultKind::P1 => "P1: no token",
        FaultKind::P2 => "P2: unknown token or key",
        FaultKind::P3 => "P3: token of another kind or target",
        FaultKind::P4 => "P4: key was deleted",
        FaultKind::P5 => "P5: token has ended",
        FaultKind::P6 => "P6: key has ended",
        FaultKind::P7 => "P7: capability lacking",
        FaultKind::P8 => "P8: other account",
        FaultKind::P9 => "P9: other bucket",
        FaultKind::P10 => "P10: name outside the prefix",
        FaultKind::P11 => "P11: legal hold",
        FaultKind::P12 => "P12: compliance",
        FaultKind::P13 => "P13: governance, bypass not asked",
        FaultKind::P14 => "P14: governance, bypass not held",
        FaultKind::NoBucket => "no such bucket",
        FaultKind::NoFile => "no such file",
        FaultKind::NoKey => "no such key",
        FaultKind::Duplicate => "bucket name is taken",
        FaultKind::TooManyBuckets => "too many buckets",
        FaultKind::Conflict => "revision differs",
        FaultKind::NotEmpty => "bucket is not empty",
        FaultKind::Hidden => "file is hidden",
        FaultKind::NotLarge => "not an unfinished large file",
        FaultKind::NoParts => "no parts",
        FaultKind::Gap => "missing part",
        FaultKind::Count => "parts kept",
        FaultKind::Sha => "digest differs at part",
        FaultKind::Small => "part is too small",
        FaultKind::BadDigest => "content digest differs",
        FaultKind::LockOff => "file lock is not enabled",
        FaultKind::LockStays => "file lock stays enabled",
        FaultKind::BadUntil => "retention must end later",
        FaultKind::KeyCaps => "capability not held by the maker",
        FaultKind::KeyLimit => "capability not given to a limited key",
        FaultKind::Master => "the master key stays",
        FaultKind::Range => "range is not satisfiable",
        FaultKind::Busy => "upload URL is busy",
        FaultKind::Cap => "no number is left",
        FaultKind::ManyBuckets => "key has several buckets",
        FaultKind::LongCopy => "copy is too long",
    }
}

/// The text of the fault, and after it what the fault tells.
pub fn message_of(alloc: Global, fault: &Fault) -> Result<Text, Memory>
    ensures { IfOk result (λ t. t ≡ message fault.now) }
{
    let text = text_of(fault.kind);
    let message = match &fault.detail {
        Detail::Nothing => String::from_str(alloc, text)?,
        Detail::Word(word) => {
            let word = word.get();
            format!(in alloc; "{text}: {word}")?
        }
        Detail::Number(number) => format!(in alloc; "{text}: {number}")?,
    };
    Ok(Text::of(message))
}

/// The rule of the policy that the kind names; none where it is no denial.
pub fn rule_of(kind: FaultKind) -> Option<Denial>
    ensures { result ≡ rule_of kind }
{
    match kind {
        FaultKind::P1 => Some(Denial::P1),
        FaultKind::P2 => Some(Denial::P2),
        FaultKind::P3 => Some(Denial::P3),
        FaultKind::P4 => Some(Denial::P4),
        FaultKind::P5 => Some(Denial::P5),
        FaultKind::P6 => Some(Denial::P6),
        FaultKind::P7 => Some(Denial::P7),
        FaultKind::P8 => Some(Denial::P8),
        FaultKind::P9 => Some(Denial::P9),
        FaultKind::P10 => Some(Denial::P10),
        FaultKind::P11 => Some(Denial::P11),
        FaultKind::P12 => Some(Denial::P12),
        FaultKind::P13 => Some(Denial::P13),
        FaultKind::P14 => Some(Denial::P14),
        _ => None,
    }
}
