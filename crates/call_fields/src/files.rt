//! The calls on files.

ghost use Rattle.serde_json.specs.View.{view};
ghost use Rattle.json_shape.specs.Fields.{Gives};
ghost use Rattle.call_fields.specs.Files.{get_upload_url, file_call, hide_file, delete_version, authorize_download, update_hold, update_retention};

use b2_base::Or;
use b2_types::{
    AuthorizeDownload, DeleteVersion, Fault, FileCall, GetUploadUrl, HideFile, UpdateHold,
    UpdateRetention, VersionId,
};
use field_kinds::{needed, needed_choice, needed_number, optional};
use serde_json::Value;
use std::alloc::Global;

pub(crate) fn get_upload_url(alloc: Global, body: &Value) -> Result<GetUploadUrl, Or<Fault>>
    ensures { Gives (λ c. c) result (get_upload_url (view body.now)) }
{
    let bucket = needed(alloc, body, "bucketId")?;
    Ok(GetUploadUrl { bucket })
}

pub(crate) fn file_call(alloc: Global, body: &Value) -> Result<FileCall, Or<Fault>>
    ensures { Gives (λ c. c) result (file_call (view body.now)) }
{
    let id: VersionId = needed(alloc, body, "fileId")?;
    Ok(FileCall {
        bucket: id.bucket,
        file: id.num,
    })
}

pub(crate) fn hide_file(alloc: Global, body: &Value) -> Result<HideFile, Or<Fault>>
    ensures { Gives (λ c. c) result (hide_file (view body.now)) }
{
    let bucket = needed(alloc, body, "bucketId")?;
    let name = needed(alloc, body, "fileName")?;
    Ok(HideFile { bucket, name })
}

pub(crate) fn delete_version(alloc: Global, body: &Value) -> Result<DeleteVersion, Or<Fault>>
    ensures { Gives (λ c. c) result (delete_version (view body.now)) }
{
    let name = needed(alloc, body, "fileName")?;
    let id: VersionId = needed(alloc, body, "fileId")?;
    let bypass = optional(alloc, body, "bypassGovernance")?;
    Ok(DeleteVersion {
        name,
        bucket: id.bucket,
        file: id.num,
        bypass,
    })
}

pub(crate) fn authorize_download(
    alloc: Global,
    body: &Value,
) -> Result<AuthorizeDownload, Or<Fault>>
    ensures { Gives (λ c. c) result (authorize_download (view body.now)) }
{
    let bucket = needed(alloc, body, "bucketId")?;
    let prefix = needed(alloc, body, "fileNamePrefix")?;
    let duration = needed_number(alloc, body, "validDurationInSeconds", 1, 604_800)?;
    Ok(AuthorizeDownload {
        bucket,
        prefix,
        duration,
    })
}

pub(crate) fn update_hold(alloc: Global, body: &Value) -> Result<UpdateHold, Or<Fault>>
    ensures { Gives (λ c. c) result (update_hold (view body.now)) }
{
    let name = needed(alloc, body, "fileName")?;
    let id: VersionId = needed(alloc, body, "fileId")?;
    let hold = needed_choice(alloc, body, "legalHold", "on", "off")?;
    Ok(UpdateHold {
        name,
        bucket: id.bucket,
        file: id.num,
        hold,
    })
}

pub(crate) fn update_retention(alloc: Global, body: &Value) -> Result<UpdateRetention, Or<Fault>>
    ensures { Gives (λ c. c) result (update_retention (view body.now)) }
{
    let name = needed(alloc, body, "fileName")?;
    let id: VersionId = needed(alloc, body, "fileId")?;
    let retention = needed(alloc, body, "fileRetention")?;
    let bypass = optional(alloc, body, "bypassGovernance")?;
    Ok(UpdateRetention {
        name,
        bucket: id.bucket,
        file: id.num,
        retention,
        bypass,
    })
}
