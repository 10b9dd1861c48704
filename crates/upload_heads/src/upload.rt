//! Uploads, as their heads tell them.

ghost use Rattle.std.specs.Prelude.{◌≡◌, IfOk};
ghost use Rattle.std.specs.List.{list_any};
ghost use Rattle.http_header.specs.HeaderMap.{keys};
ghost use Rattle.name_rules.specs.Folder.{begins_with};
ghost use Rattle.json_shape.specs.Fields.{Gives};
ghost use Rattle.upload_heads.specs.Upload.{retention_rows, retention, encryption_front, not_encrypted, file_upload, part_upload, bad_upload, IsFileUpload, IsPartUpload};

use crate::information::info_of;
use crate::kinds::ContentType;
use crate::table::{is_given, needed, optional};
use b2_base::{BucketNum, Memory, Or, Text, VersionNum};
use b2_types::{BadCall, Fault, FileUpload, PartUpload, Retention, Target, UploadCall};
use http_header::{HeaderMap, HeaderValue};
use name_rules::{InfoPairs, is_prefix};
use rule_table::{CallName, FaultKind};
use std::alloc::Global;
use wire_forms::Request;

const MODE: &str = "x-bz-file-retention-mode";

const UNTIL: &str = "x-bz-file-retention-retain-until-timestamp";

const ENCRYPTION_FRONT: &str = "x-bz-server-side-encryption";

fn given_retention(alloc: Global, headers: &HeaderMap<HeaderValue>) -> Result<Retention, Or<Fault>>
    ensures { Gives (λ x. x) result (retention_rows headers.now) }
{
    let mode = needed(alloc, headers, MODE)?;
    let until = needed(alloc, headers, UNTIL)?;
    Ok(Retention { mode, until })
}

#[tactic(auto, unfolding(crate::specs::Upload::retention))]
fn retention(
    alloc: Global,
    headers: &HeaderMap<HeaderValue>,
) -> Result<Option<Retention>, Or<Fault>>
    ensures { Gives (λ x. x) result (retention headers.now) }
{
    if !(is_given(headers, MODE) | is_given(headers, UNTIL)) {
        return Ok(None);
    }
    match given_retention(alloc, headers) {
        Ok(retention) => Ok(Some(retention)),
        Err(Or::Memory) => Err(Or::Memory),
        Err(Or::Fault(fault)) => Err(Or::Fault(fault)),
    }
}

fn is_encrypted(headers: &HeaderMap<HeaderValue>) -> bool
    ensures { result ≡ list_any (begins_with encryption_front) (keys headers.now) }
{
    for name in headers.keys() {
        if is_prefix(ENCRYPTION_FRONT.as_bytes(), name.as_bytes()) {
            return true;
        }
    }
    false
}

#[tactic(auto, unfolding(crate::specs::Upload::not_encrypted))]
fn not_encrypted(alloc: Global, headers: &HeaderMap<HeaderValue>) -> Result<(), Or<Fault>>
    ensures { Gives (λ x. x) result (not_encrypted headers.now) }
{
    if !is_encrypted(headers) {
        return Ok(());
    }
    let name = Text::copy(alloc, ENCRYPTION_FRONT)?;
    Err(Or::Fault(Fault::with_word(FaultKind::Unsupported, name)))
}

fn file_upload(
    alloc: Global,
    bucket: BucketNum,
    length: u64,
    headers: &HeaderMap<HeaderValue>,
    info: Result<InfoPairs, Fault>,
) -> Result<FileUpload, Or<Fault>>
    ensures { Gives (λ x. x) result (file_upload bucket length info headers.now) }
{
    let name = needed(alloc, headers, "x-bz-file-name")?;
    let kind: ContentType = needed(alloc, headers, "content-type")?;
    let digest = needed(alloc, headers, "x-bz-content-sha1")?;
    let info = match info {
        Ok(info) => info,
        Err(fault) => return Err(Or::Fault(fault)),
    };
    let hold: Option<bool> = optional(alloc, headers, "x-bz-file-legal-hold")?;
    let retention = retention(alloc, headers)?;
    not_encrypted(alloc, headers)?;
    Ok(FileUpload {
        bucket,
        length,
        digest,
        name,
        kind: kind.into_text(),
        info,
        retention,
        hold: hold.unwrap_or(false),
    })
}

fn part_upload(
    alloc: Global,
    bucket: BucketNum,
    file: VersionNum,
    length: u64,
    headers: &HeaderMap<HeaderValue>,
) -> Result<PartUpload, Or<Fault>>
    ensures { Gives (λ x. x) result (part_upload bucket file length headers.now) }
{
    let number = needed(alloc, headers, "x-bz-part-number")?;
    let digest = needed(alloc, headers, "x-bz-content-sha1")?;
    not_encrypted(alloc, headers)?;
    Ok(PartUpload {
        bucket,
        file,
        length,
        digest,
        number,
    })
}

fn bad(name: CallName, target: Target, fault: Fault) -> UploadCall
    ensures { result ≡ bad_upload name target fault }
{
    UploadCall::Bad(BadCall {
        name,
        target,
        bucket: None,
        fault,
    })
}

/// The upload of a file to the bucket of the path, as its head tells it. It is bad with the first fault
/// of its form where it is none.
pub fn read_file_upload(
    alloc: Global,
    bucket: BucketNum,
    request: &Request,
) -> Result<UploadCall, Memory>
    ensures { IfOk result (λ u. IsFileUpload request.now bucket u) }
{
    let info = info_of(alloc, &request.headers)?;
    match file_upload(alloc, bucket, request.length, &request.headers, info) {
        Ok(upload) => Ok(UploadCall::File(upload)),
        Err(Or::Memory) => Err(Memory),
        Err(Or::Fault(fault)) => Ok(bad(CallName::UploadFile, Target::Bucket(bucket), fault)),
    }
}

/// The upload of a part to the large file of the path, as its head tells it. It is bad with the first
/// fault of its form where it is none.
pub fn read_part_upload(
    alloc: Global,
    bucket: BucketNum,
    file: VersionNum,
    request: &Request,
) -> Result<UploadCall, Memory>
    ensures { IfOk result (λ u. IsPartUpload request.now bucket file u) }
{
    match part_upload(alloc, bucket, file, request.length, &request.headers) {
        Ok(upload) => Ok(UploadCall::Part(upload)),
        Err(Or::Memory) => Err(Memory),
        Err(Or::Fault(fault)) => {
            Ok(bad(CallName::UploadPart, Target::File(bucket, file), fault))
        }
    }
}
