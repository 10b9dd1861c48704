//! The kinds of fields.

ghost use Rattle.std.specs.Prelude.{◌≡◌, ◌<◌, ◌≤◌, ◌^◌, IfOk};
ghost use Rattle.field_kinds.specs.Kinds.{text, flag, bucket_id, file_id, bucket_name, file_name, is_bucket_name, is_file_name, if_passes};
ghost use Rattle.field_kinds.specs.Spelled.{bucket_of, file_of};

use crate::reader::FromJson;
use b2_base::{BucketId, BucketNum, FileId, LAST_VERSION, Memory, Or, Text, VersionNum};
use b2_types::VersionId;
use name_rules::{BucketName, FileName, bucket_name, file_name};
use serde_json::Value;
use std::alloc::Global;

impl FromJson for Text {
    ghost kind = { text };

    fn from_json(alloc: Global, value: &Value) -> Result<Option<Text>, Memory> {
        let Value::String(text) = value else {
            return Ok(None);
        };
        let text = Text::copy(alloc, text)?;
        Ok(Some(text))
    }
}

impl FromJson for bool {
    ghost kind = { flag };

    fn from_json(_alloc: Global, value: &Value) -> Result<Option<bool>, Memory> {
        Ok(value.as_bool())
    }
}

fn bucket_of(text: &str) -> Option<BucketNum>
    ensures { result ≡ bucket_of text.now }
{
    BucketId::read(text.as_bytes())
}

impl FromJson for BucketNum {
    ghost kind = { bucket_id };

    fn from_json(_alloc: Global, value: &Value) -> Result<Option<BucketNum>, Memory> {
        let Value::String(text) = value else {
            return Ok(None);
        };
        Ok(bucket_of(text))
    }
}

// The numbers are in the ranges of their types.
fn id_of(bucket: BucketNum, num: VersionNum) -> VersionId
    ensures id { (result.bucket ≡ bucket) × (result.num ≡ num) }
    ensures range { (result.bucket < 2 ^ 32) × (result.num ≤ LAST_VERSION) }
{
    let number = bucket.get();
    let version = num.get();
    prove!(number <= u32::MAX);
    prove!(version <= LAST_VERSION);
    VersionId { bucket, num }
}

/// The file whose id the text is.
pub fn file_of(text: &str) -> Option<VersionId>
    ensures { result ≡ file_of text.now }
{
    let Some(pair) = FileId::read(text.as_bytes()) else {
        return None;
    };
    Some(id_of(pair.0, pair.1))
}

impl FromJson for VersionId {
    ghost kind = { file_id };

    fn from_json(_alloc: Global, value: &Value) -> Result<Option<VersionId>, Memory> {
        let Value::String(text) = value else {
            return Ok(None);
        };
        Ok(file_of(text))
    }
}

fn bucket_named(alloc: Global, text: &str) -> Result<Option<BucketName>, Memory>
    ensures { IfOk result (λ o. o ≡ if_passes is_bucket_name text.now) }
{
    let bytes = text.as_bytes();
    match bucket_name(alloc, bytes) {
        Ok(name) => Ok(Some(name)),
        Err(Or::Memory) => Err(Memory),
        Err(Or::Fault(_)) => Ok(None),
    }
}

impl FromJson for BucketName {
    ghost kind = { bucket_name };

    fn from_json(alloc: Global, value: &Value) -> Result<Option<BucketName>, Memory> {
        let Value::String(text) = value else {
            return Ok(None);
        };
        let name = bucket_named(alloc, text)?;
        Ok(name)
    }
}

fn file_named(alloc: Global, text: &str) -> Result<Option<FileName>, Memory>
    ensures { IfOk result (λ o. o ≡ if_passes is_file_name text.now) }
{
    match file_name(alloc, text.as_bytes()) {
        Ok(name) => Ok(Some(name)),
        Err(Or::Memory) => Err(Memory),
        Err(Or::Fault(_)) => Ok(None),
    }
}

impl FromJson for FileName {
    ghost kind = { file_name };

    fn from_json(alloc: Global, value: &Value) -> Result<Option<FileName>, Memory> {
        let Value::String(text) = value else {
            return Ok(None);
        };
        let name = file_named(alloc, text)?;
        Ok(name)
    }
}
