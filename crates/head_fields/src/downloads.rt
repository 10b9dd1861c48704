//! Downloads, as the heads of their requests tell them.

ghost use Rattle.std.specs.Prelude.{◌≡◌, ℕ, List, Some, None, IfOk, MatchOption};
ghost use Rattle.rule_table.specs.declared.call.CallName.TheVariants as calls;
ghost use Rattle.name_rules.specs.Decode.{decoded_name};
ghost use Rattle.call_paths.specs.Path.{IsDownloadOf};
ghost use Rattle.head_fields.specs.Downloads.{range_asked, bad_download, with_id, with_param, by_id, IsEscaped, IsNamed, IsByName, HasNamePath};

use crate::query::first_param;
use crate::token::text_of;
use b2_base::{Memory, Or, Text};
use b2_types::{BadCall, ByteRange, Call, DownloadById, DownloadByName, Fault, Target};
use byte_ranges::read_range;
use call_paths::download_parts;
use field_kinds::{file_of, missing, wrong};
use name_rules::{FileName, decode_name};
use rule_table::CallName;
use std::alloc::Global;
use wire_forms::Request;

fn range_asked(request: &Request) -> Option<ByteRange>
    ensures { result ≡ range_asked request.now }
{
    let value = request.headers.get("range")?;
    read_range(value.as_bytes())
}

fn bad_id(fault: Fault) -> Call
    ensures { result ≡ bad_download calls.DownloadFileById None fault }
{
    Call::Bad(BadCall {
        name: CallName::DownloadFileById,
        target: Target::Nothing,
        bucket: None,
        fault,
    })
}

fn with_id(alloc: Global, range: Option<ByteRange>, text: &str) -> Result<Call, Memory>
    ensures { IfOk result (λ c. c ≡ with_param range (Some text.now)) }
{
    let Some(id) = file_of(text) else {
        let fault = wrong(alloc, "fileId")?;
        return Ok(bad_id(fault));
    };
    Ok(Call::DownloadFileById(DownloadById {
        bucket: id.bucket,
        file: id.num,
        range,
    }))
}

/// The download of the file whose id the query says.
pub fn download_by_id(alloc: Global, request: &Request) -> Result<Call, Memory>
    ensures { IfOk result (λ c. c ≡ by_id request.now) }
{
    let found = first_param(alloc, request.query.get().as_bytes(), "fileId")?;
    let Some(text) = found else {
        let fault = missing(alloc, "fileId")?;
        return Ok(bad_id(fault));
    };
    let call = with_id(alloc, range_asked(request), text.get())?;
    Ok(call)
}

// The name that the bytes stand for, where they are one.
fn name_of(alloc: Global, bytes: &[u8]) -> Result<Option<FileName>, Memory>
    ensures { IfOk result (λ o. MatchOption o (IsEscaped bytes.now → ⊥)
        (λ name. IsEscaped bytes.now × (name ≡ decoded_name bytes.now))) }
{
    match decode_name(alloc, bytes) {
        Ok(name) => Ok(Some(name)),
        Err(Or::Memory) => Err(Memory),
        Err(Or::Fault(_)) => Ok(None),
    }
}

fn bad_name(bucket: Text, fault: Fault) -> Call
    ensures { result ≡ bad_download calls.DownloadFileByName (Some bucket) fault }
{
    Call::Bad(BadCall {
        name: CallName::DownloadFileByName,
        target: Target::Nothing,
        bucket: Some(bucket),
        fault,
    })
}

fn with_name(alloc: Global, request: &Request, bucket: Text, bytes: &[u8]) -> Result<Call, Memory>
    ensures { IfOk result (λ c. IsNamed request.now bucket bytes.now c) }
{
    let Some(name) = name_of(alloc, bytes)? else {
        let fault = wrong(alloc, "fileName")?;
        return Ok(bad_name(bucket, fault));
    };
    Ok(Call::DownloadFileByName(DownloadByName {
        bucket,
        name,
        range: range_asked(request),
    }))
}

/// The download of the file that the path names.
pub fn download_by_name(alloc: Global, request: &Request) -> Result<Call, Memory>
    requires { HasNamePath request.now }
    ensures { IfOk result (λ c. IsByName request.now c) }
{
    let Some((bucket, bytes)) = download_parts(request.path.get().as_bytes()) else {
        unreachable!();
    };
    let bucket = text_of(alloc, bucket)?;
    let call = with_name(alloc, request, bucket, bytes)?;
    Ok(call)
}
