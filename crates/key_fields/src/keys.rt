//! The calls on keys.

ghost use Rattle.serde_json.specs.View.{view};
ghost use Rattle.json_shape.specs.Fields.{Gives};
ghost use Rattle.key_fields.specs.Keys.{create_key, delete_key, list_keys};

use crate::capabilities::needed_caps;
use crate::limits::{limits, prefix};
use b2_base::Or;
use b2_types::{ApiVersion, CreateKey, DeleteKey, Fault, ListKeys};
use field_kinds::{TextRule, needed, needed_text, optional_number, optional_text, optional_u32};
use serde_json::Value;
use std::alloc::Global;

/// The call that makes a key.
pub fn create_key(alloc: Global, version: ApiVersion, body: &Value) -> Result<CreateKey, Or<Fault>>
    ensures { Gives (λ c. c) result (create_key version (view body.now)) }
{
    let account = needed(alloc, body, "accountId")?;
    let caps = needed_caps(alloc, body)?;
    let name = needed_text(alloc, body, "keyName", TextRule::KeyName)?;
    let duration = optional_number(alloc, body, "validDurationInSeconds", 1, 86_399_999)?;
    let buckets = limits(alloc, version, body)?;
    let prefix = prefix(alloc, version, body)?;
    Ok(CreateKey {
        version,
        account,
        caps,
        name,
        duration,
        buckets,
        prefix,
    })
}

/// The call that deletes a key.
pub fn delete_key(alloc: Global, version: ApiVersion, body: &Value) -> Result<DeleteKey, Or<Fault>>
    ensures { Gives (λ c. c) result (delete_key version (view body.now)) }
{
    let key = needed_text(alloc, body, "applicationKeyId", TextRule::KeyId)?;
    Ok(DeleteKey { version, key })
}

/// The call that lists keys.
pub fn list_keys(alloc: Global, version: ApiVersion, body: &Value) -> Result<ListKeys, Or<Fault>>
    ensures { Gives (λ c. c) result (list_keys version (view body.now)) }
{
    let account = needed(alloc, body, "accountId")?;
    let max = optional_u32(alloc, body, "maxKeyCount", 0, 10_000)?;
    let start = optional_text(alloc, body, "startApplicationKeyId", TextRule::KeyId)?;
    Ok(ListKeys {
        version,
        account,
        max,
        start,
    })
}
