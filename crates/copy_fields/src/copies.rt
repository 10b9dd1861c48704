//! The calls that copy files.

ghost use Rattle.serde_json.specs.View.{view};
ghost use Rattle.json_shape.specs.Fields.{Gives};
ghost use Rattle.copy_fields.specs.Copies.{copy_file, copy_part};

use crate::metadata::metadata;
use crate::range::optional_range;
use b2_base::Or;
use b2_types::{CopyFile, CopyPart, Fault, VersionId};
use field_kinds::{needed, needed_u32, optional, optional_choice, optional_retention};
use name_rules::InfoPairs;
use serde_json::Value;
use std::alloc::Global;

/// The call that copies a file. The information was read before, and is judged in its place.
pub fn copy_file(
    alloc: Global,
    body: &Value,
    info: Option<InfoPairs>,
) -> Result<CopyFile, Or<Fault>>
    ensures { Gives (λ c. c) result (copy_file info (view body.now)) }
{
    let source = needed(alloc, body, "sourceFileId")?;
    let bucket = optional(alloc, body, "destinationBucketId")?;
    let name = needed(alloc, body, "fileName")?;
    let range = optional_range(alloc, body)?;
    let metadata = metadata(alloc, body, info)?;
    let retention = optional_retention(alloc, body, "fileRetention")?;
    let hold = optional_choice(alloc, body, "legalHold", "on", "off")?;
    Ok(CopyFile {
        source,
        bucket,
        name,
        range,
        metadata,
        retention,
        hold,
    })
}

/// The call that copies a file as a part of a large one.
pub fn copy_part(alloc: Global, body: &Value) -> Result<CopyPart, Or<Fault>>
    ensures { Gives (λ c. c) result (copy_part (view body.now)) }
{
    let source = needed(alloc, body, "sourceFileId")?;
    let large: VersionId = needed(alloc, body, "largeFileId")?;
    let number = needed_u32(alloc, body, "partNumber", 1, 10_000)?;
    let range = optional_range(alloc, body)?;
    Ok(CopyPart {
        source,
        bucket: large.bucket,
        file: large.num,
        number,
        range,
    })
}
