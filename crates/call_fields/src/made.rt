//! The calls that give information about a bucket or a file.

ghost use Rattle.serde_json.specs.View.{view};
ghost use Rattle.json_shape.specs.Fields.{Gives};
ghost use Rattle.call_fields.specs.Made.{create_bucket, update_bucket, start_fields, start_large_file};

use b2_base::Or;
use b2_types::{CreateBucket, Fault, StartCall, UpdateBucket};
use field_kinds::{
    TextRule, idle_encryption, idle_list, idle_value, needed, needed_choice, needed_text, optional,
    optional_choice, optional_info, optional_number, optional_retention, optional_rules,
};
use name_rules::InfoPairs;
use serde_json::Value;
use std::alloc::Global;

pub(crate) fn create_bucket(
    alloc: Global,
    body: &Value,
    info: Option<InfoPairs>,
) -> Result<CreateBucket, Or<Fault>>
    ensures { Gives (λ c. c) result (create_bucket info (view body.now)) }
{
    let account = needed(alloc, body, "accountId")?;
    let name = needed(alloc, body, "bucketName")?;
    let public = needed_choice(alloc, body, "bucketType", "allPublic", "allPrivate")?;
    let info = optional_info(alloc, body, "bucketInfo", info)?;
    let lock = optional(alloc, body, "fileLockEnabled")?;
    let rules = optional_rules(alloc, body, "lifecycleRules")?;
    idle_list(alloc, body, "corsRules")?;
    idle_encryption(alloc, body, "defaultServerSideEncryption")?;
    idle_value(alloc, body, "replicationConfiguration")?;
    Ok(CreateBucket {
        account,
        name,
        public,
        info,
        lock,
        rules,
    })
}

pub(crate) fn update_bucket(
    alloc: Global,
    body: &Value,
    info: Option<InfoPairs>,
) -> Result<UpdateBucket, Or<Fault>>
    ensures { Gives (λ c. c) result (update_bucket info (view body.now)) }
{
    let account = needed(alloc, body, "accountId")?;
    let bucket = needed(alloc, body, "bucketId")?;
    let public = optional_choice(alloc, body, "bucketType", "allPublic", "allPrivate")?;
    let info = optional_info(alloc, body, "bucketInfo", info)?;
    let default = optional(alloc, body, "defaultRetention")?;
    let lock = optional(alloc, body, "fileLockEnabled")?;
    let rules = optional_rules(alloc, body, "lifecycleRules")?;
    let revision = optional_number(alloc, body, "ifRevisionIs", 0, u64::MAX)?;
    idle_list(alloc, body, "corsRules")?;
    idle_encryption(alloc, body, "defaultServerSideEncryption")?;
    idle_value(alloc, body, "replicationConfiguration")?;
    Ok(UpdateBucket {
        account,
        bucket,
        public,
        info,
        default,
        lock,
        rules,
        revision,
    })
}

fn start_fields(
    alloc: Global,
    body: &Value,
    info: Option<InfoPairs>,
) -> Result<StartCall, Or<Fault>>
    ensures { Gives (λ c. c) result (start_fields info (view body.now)) }
{
    let bucket = needed(alloc, body, "bucketId")?;
    let name = needed(alloc, body, "fileName")?;
    let kind = needed_text(alloc, body, "contentType", TextRule::ContentType)?;
    let info = optional_info(alloc, body, "fileInfo", info)?;
    let retention = optional_retention(alloc, body, "fileRetention")?;
    let hold = optional_choice(alloc, body, "legalHold", "on", "off")?;
    Ok(StartCall {
        bucket,
        name,
        kind,
        info,
        retention,
        hold,
    })
}

pub(crate) fn start_large_file(
    alloc: Global,
    body: &Value,
    info: Option<InfoPairs>,
) -> Result<StartCall, Or<Fault>>
    ensures { Gives (λ c. c) result (start_large_file info (view body.now)) }
{
    let call = start_fields(alloc, body, info)?;
    match idle_encryption(alloc, body, "serverSideEncryption") {
        Ok(()) => Ok(call),
        Err(Or::Memory) => Err(Or::Memory),
        Err(Or::Fault(fault)) => Err(Or::Fault(fault)),
    }
}
