//! The forms of texts, numbers and ids.

ghost use Rattle.std.specs.Prelude.{◌≡◌};
ghost use Rattle.serde_json.specs.Data.{string, boolean};
ghost use Rattle.wire_forms.specs.Body.{amount, bucket_id_json, id_json};

use crate::to_json::ToJson;
use b2_base::{BucketId, BucketNum, FileId, Memory, Moment, Text};
use b2_types::VersionId;
use name_rules::{BucketName, FileName};
use serde_json::Value;
use std::alloc::Global;

impl ToJson for Text {
    ghost form = { string };

    fn to_json(&self, alloc: Global) -> Result<Value, Memory> {
        Ok(Value::String(String::from_str(alloc, self.get())?))
    }
}

impl ToJson for BucketName {
    ghost form = { string };

    fn to_json(&self, alloc: Global) -> Result<Value, Memory> {
        Ok(Value::String(String::from_str(alloc, self.get())?))
    }
}

impl ToJson for FileName {
    ghost form = { string };

    fn to_json(&self, alloc: Global) -> Result<Value, Memory> {
        Ok(Value::String(String::from_str(alloc, self.get())?))
    }
}

impl ToJson for u64 {
    ghost form = { amount };

    fn to_json(&self, _alloc: Global) -> Result<Value, Memory> {
        Ok(Value::from(*self))
    }
}

impl ToJson for u32 {
    ghost form = { amount };

    fn to_json(&self, _alloc: Global) -> Result<Value, Memory> {
        Ok(Value::from(u64::from(*self)))
    }
}

impl ToJson for Moment {
    ghost form = { amount };

    fn to_json(&self, _alloc: Global) -> Result<Value, Memory> {
        Ok(Value::from(self.get()))
    }
}

impl ToJson for bool {
    ghost form = { boolean };

    fn to_json(&self, _alloc: Global) -> Result<Value, Memory> {
        Ok(Value::Bool(*self))
    }
}

impl ToJson for BucketNum {
    ghost form = { bucket_id_json };

    fn to_json(&self, alloc: Global) -> Result<Value, Memory> {
        let id = BucketId::write(alloc, *self)?;
        let json = id.to_json(alloc)?;
        Ok(json)
    }
}

impl ToJson for VersionId {
    ghost form = { id_json };

    fn to_json(&self, alloc: Global) -> Result<Value, Memory> {
        let id = FileId::write(alloc, self.bucket, self.num)?;
        let json = id.to_json(alloc)?;
        Ok(json)
    }
}
