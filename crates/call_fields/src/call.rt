//! Calls whose body is an object of JSON.

ghost use Rattle.std.specs.Prelude.{◌≡◌, ℕ, List, Err, IfOk};
ghost use Rattle.serde_json.specs.View.{view};
ghost use Rattle.json_shape.specs.Fields.{Gives};
ghost use Rattle.json_shape.specs.Object.{ReadsObject};
ghost use Rattle.rule_table.specs.declared.call.CallName.{CallName as TheName};
ghost use Rattle.b2_types.specs.declared.kinds.ApiVersion.{ApiVersion as TheVersion};
ghost use Rattle.b2_types.specs.declared.call.Call.{Call as TheCall};
ghost use Rattle.call_fields.specs.Call.{fields, or_bad, IsCallOf, IsCall};

use crate::buckets::{delete_bucket, list_buckets};
use crate::files::{
    authorize_download, delete_version, file_call, get_upload_url, hide_file, update_hold,
    update_retention,
};
use crate::information::info_given;
use crate::listings::{finish, list_names, list_parts, list_unfinished, list_versions};
use crate::made::{create_bucket, start_large_file, update_bucket};
use b2_base::{Memory, Or};
use b2_types::{ApiVersion, BadCall, Call, Fault, Target};
use copy_fields::{copy_file, copy_part};
use json_shape::object;
use key_fields::{create_key, delete_key, list_keys};
use name_rules::InfoPairs;
use rule_table::{CallName, FaultKind};
use serde_json::Value;
use std::alloc::Global;

fn fields(
    alloc: Global,
    name: CallName,
    version: ApiVersion,
    body: &Value,
    info: Option<InfoPairs>,
) -> Result<Call, Or<Fault>>
    ensures { Gives (λ c. c) result (fields name version info (view body.now)) }
{
    match name {
        CallName::CreateBucket => Ok(Call::CreateBucket(create_bucket(alloc, body, info)?)),
        CallName::UpdateBucket => Ok(Call::UpdateBucket(update_bucket(alloc, body, info)?)),
        CallName::DeleteBucket => Ok(Call::DeleteBucket(delete_bucket(alloc, body)?)),
        CallName::ListBuckets => Ok(Call::ListBuckets(list_buckets(alloc, body)?)),
        CallName::CreateKey => Ok(Call::CreateKey(create_key(alloc, version, body)?)),
        CallName::DeleteKey => Ok(Call::DeleteKey(delete_key(alloc, version, body)?)),
        CallName::ListKeys => Ok(Call::ListKeys(list_keys(alloc, version, body)?)),
        CallName::GetUploadUrl => Ok(Call::GetUploadUrl(get_upload_url(alloc, body)?)),
        CallName::StartLargeFile => Ok(Call::StartLargeFile(start_large_file(alloc, body, info)?)),
        CallName::GetUploadPartUrl => Ok(Call::GetUploadPartUrl(file_call(alloc, body)?)),
        CallName::ListParts => Ok(Call::ListParts(list_parts(alloc, body)?)),
        CallName::FinishLargeFile => Ok(Call::FinishLargeFile(finish(alloc, body)?)),
        CallName::CancelLargeFile => Ok(Call::CancelLargeFile(file_call(alloc, body)?)),
        CallName::ListUnfinishedLargeFiles => {
            Ok(Call::ListUnfinishedLargeFiles(list_unfinished(alloc, body)?))
        }
        CallName::ListFileNames => Ok(Call::ListFileNames(list_names(alloc, body)?)),
        CallName::ListFileVersions => Ok(Call::ListFileVersions(list_versions(alloc, body)?)),
        CallName::GetFileInfo => Ok(Call::GetFileInfo(file_call(alloc, body)?)),
        CallName::HideFile => Ok(Call::HideFile(hide_file(alloc, body)?)),
        CallName::DeleteFileVersion => Ok(Call::DeleteFileVersion(delete_version(alloc, body)?)),
        CallName::GetDownloadAuthorization => {
            Ok(Call::GetDownloadAuthorization(authorize_download(alloc, body)?))
        }
        CallName::UpdateFileRetention => {
            Ok(Call::UpdateFileRetention(update_retention(alloc, body)?))
        }
        CallName::UpdateFileLegalHold => Ok(Call::UpdateFileLegalHold(update_hold(alloc, body)?)),
        CallName::CopyFile => Ok(Call::CopyFile(copy_file(alloc, body, info)?)),
        CallName::CopyPart => Ok(Call::CopyPart(copy_part(alloc, body)?)),
        _ => Err(Or::Fault(Fault::plain(FaultKind::NoCall))),
    }
}

fn bad(name: CallName, fault: Fault) -> Call
    ensures { result ≡ or_bad name (Err fault) }
{
    Call::Bad(BadCall {
        name,
        target: Target::Nothing,
        bucket: None,
        fault,
    })
}

fn of_object(
    alloc: Global,
    name: CallName,
    version: ApiVersion,
    body: &Value,
) -> Result<Call, Memory>
    ensures { IfOk result (λ c. IsCallOf name version (view body.now) c) }
{
    let info = info_given(alloc, name, body)?;
    match fields(alloc, name, version, body, info) {
        Ok(call) => Ok(call),
        Err(Or::Memory) => Err(Memory),
        Err(Or::Fault(fault)) => Ok(bad(name, fault)),
    }
}

/// The call of this name that a body is, under this version of the API. It is bad with the first fault of
/// its form where it is none.
pub fn read_call(
    alloc: Global,
    name: CallName,
    version: ApiVersion,
    body: &[u8],
) -> Result<Call, Memory>
    ensures { IfOk result (λ c. IsCall name version body.now c) }
{
    match object(alloc, body) {
        Ok(value) => {
            let call = of_object(alloc, name, version, &value)?;
            Ok(call)
        }
        Err(Or::Memory) => Err(Memory),
        Err(Or::Fault(_)) => Ok(bad(name, Fault::plain(FaultKind::NotJson))),
    }
}

/// A body is one call: the table of its name gives one call, or one fault.
#[tactic(auto, using(crate::proofs::Once::one_call))]
pub fn one_call()
    ensures { (name : TheName) (version : TheVersion) (body : List ℕ) (a b : TheCall)
        → IsCall name version body a → IsCall name version body b → a ≡ b }
{}
