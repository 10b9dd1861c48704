//! The listings and the calls on large files.

ghost use Rattle.serde_json.specs.View.{view};
ghost use Rattle.json_shape.specs.Fields.{Gives};
ghost use Rattle.call_fields.specs.Listings.{list_parts, finish, list_unfinished, list_names, list_versions};

use b2_base::Or;
use b2_types::{Fault, FinishCall, ListFiles, ListParts, ListUnfinished, VersionId};
use field_kinds::{TextRule, needed, optional, optional_text, optional_u32, wrong};
use serde_json::Value;
use std::alloc::Global;

pub(crate) fn list_parts(alloc: Global, body: &Value) -> Result<ListParts, Or<Fault>>
    ensures { Gives (λ c. c) result (list_parts (view body.now)) }
{
    let id: VersionId = needed(alloc, body, "fileId")?;
    let start = optional_u32(alloc, body, "startPartNumber", 0, u32::MAX)?;
    let max = optional_u32(alloc, body, "maxPartCount", 0, 1_000)?;
    Ok(ListParts {
        bucket: id.bucket,
        file: id.num,
        start,
        max,
    })
}

pub(crate) fn finish(alloc: Global, body: &Value) -> Result<FinishCall, Or<Fault>>
    ensures { Gives (λ c. c) result (finish (view body.now)) }
{
    let id: VersionId = needed(alloc, body, "fileId")?;
    let digests = needed(alloc, body, "partSha1Array")?;
    Ok(FinishCall {
        bucket: id.bucket,
        file: id.num,
        digests,
    })
}

pub(crate) fn list_unfinished(alloc: Global, body: &Value) -> Result<ListUnfinished, Or<Fault>>
    ensures { Gives (λ c. c) result (list_unfinished (view body.now)) }
{
    let bucket = needed(alloc, body, "bucketId")?;
    let prefix = optional(alloc, body, "namePrefix")?;
    let start: Option<VersionId> = optional(alloc, body, "startFileId")?;
    let max = optional_u32(alloc, body, "maxFileCount", 0, 100)?;
    let start = start.map(|id| id.num);
    Ok(ListUnfinished {
        bucket,
        prefix,
        start,
        max,
    })
}

pub(crate) fn list_names(alloc: Global, body: &Value) -> Result<ListFiles, Or<Fault>>
    ensures { Gives (λ c. c) result (list_names (view body.now)) }
{
    let bucket = needed(alloc, body, "bucketId")?;
    let start = optional(alloc, body, "startFileName")?;
    let max = optional_u32(alloc, body, "maxFileCount", 0, 10_000)?;
    let prefix = optional(alloc, body, "prefix")?;
    let delimiter = optional_text(alloc, body, "delimiter", TextRule::Delimiter)?;
    Ok(ListFiles {
        bucket,
        start,
        max,
        prefix,
        delimiter,
        start_file: None,
    })
}

pub(crate) fn list_versions(alloc: Global, body: &Value) -> Result<ListFiles, Or<Fault>>
    ensures { Gives (λ c. c) result (list_versions (view body.now)) }
{
    let call = list_names(alloc, body)?;
    let start: Option<VersionId> = optional(alloc, body, "startFileId")?;
    let Some(id) = start else {
        return Ok(call);
    };
    let is_there = (id.bucket.get() == call.bucket.get()) & (id.num.get() != 0);
    if !(is_there & call.start.is_some()) {
        return Err(Or::Fault(wrong(alloc, "startFileId")?));
    }
    Ok(ListFiles {
        start_file: Some(id.num),
        ..call
    })
}
