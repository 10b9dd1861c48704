//! The form of a key.

ghost use Rattle.std.specs.Prelude.{◌≡◌, [], ◌∷◌, codes, take, drop, IfOk, OnOk};
ghost use Rattle.serde_json.specs.Data.{string};
ghost use Rattle.serde_json.specs.View.{view, members_view};
ghost use Rattle.b2_types.specs.KeyId.{key_id};
ghost use Rattle.b2_types.specs.declared.kinds.ApiVersion.TheVariants as version;
ghost use Rattle.wire_forms.specs.Body.{fields, key_buckets, key_options, key_fields};
ghost use Rattle.api_json.specs.Put.{put_all};

use crate::to_json::{
    ToJson, put_field, put_list_or_null, put_null, put_optional, put_unless_empty,
};
use b2_base::{BucketNum, Memory};
use b2_types::{ApiVersion, ShownKey, ShownNewKey, key_id};
use serde_json::{Map, Value, put};
use std::alloc::Global;

fn put_first_bucket(
    map: &mut Map<String, Value>,
    alloc: Global,
    buckets: &[BucketNum],
) -> Result<(), Memory>
    ensures { OnOk result (members_view map.new.entries
        ≡ put_all (members_view map.old.entries) (key_buckets version.V3 buckets.now ∷ [])) }
{
    let Some(bucket) = buckets.first() else {
        return put_null(map, alloc, "bucketId");
    };
    put_field(map, alloc, "bucketId", bucket)
}

fn put_buckets(map: &mut Map<String, Value>, alloc: Global, key: &ShownKey) -> Result<(), Memory>
    ensures { OnOk result (members_view map.new.entries
        ≡ put_all (members_view map.old.entries)
        (key_buckets key.now.version key.now.buckets ∷ [])) }
{
    let buckets = key.buckets.get();
    match key.version {
        ApiVersion::V3 => put_first_bucket(map, alloc, buckets),
        ApiVersion::V4 => put_list_or_null(map, alloc, "bucketIds", buckets),
    }
}

fn options(alloc: Global, key: &ShownKey) -> Result<Value, Memory>
    ensures { IfOk result (λ v. view v ≡ key_options key.now.version key.now.buckets) }
{
    let mut options = Vec::new(alloc);
    match key.version {
        ApiVersion::V4 => Ok(Value::Array(options)),
        ApiVersion::V3 => {
            if key.buckets.get().len() > 1 {
                options.push(Value::String(String::from_str(alloc, "multiBucket")?))?;
                return Ok(Value::Array(options));
            }
            Ok(Value::Array(options))
        }
    }
}

fn put_id(map: &mut Map<String, Value>, alloc: Global, key: &ShownKey) -> Result<(), Memory>
    ensures { OnOk result (members_view map.new.entries
        ≡ put_all (members_view map.old.entries)
        ((codes "applicationKeyId", string (key_id key.now.account key.now.num)) ∷ [])) }
{
    let id = key_id(alloc, key.account.get(), key.num)?;
    put_field(map, alloc, "applicationKeyId", &id)?;
    Ok(())
}

// Whose key it is, and what it may do.
fn put_rights(map: &mut Map<String, Value>, alloc: Global, key: &ShownKey) -> Result<(), Memory>
    ensures { OnOk result (members_view map.new.entries
        ≡ put_all (members_view map.old.entries) (take 4 (key_fields key.now))) }
{
    put_field(map, alloc, "accountId", &key.account)?;
    put_id(map, alloc, key)?;
    put_buckets(map, alloc, key)?;
    put_field(map, alloc, "capabilities", &key.caps)?;
    Ok(())
}

// How long it lasts, its name and its prefix.
fn put_rest(map: &mut Map<String, Value>, alloc: Global, key: &ShownKey) -> Result<(), Memory>
    ensures { OnOk result (members_view map.new.entries
        ≡ put_all (members_view map.old.entries) (drop 4 (key_fields key.now))) }
{
    let options = options(alloc, key)?;
    put_optional(map, alloc, "expirationTimestamp", &key.end)?;
    put_field(map, alloc, "keyName", &key.name)?;
    put_unless_empty(map, alloc, "namePrefix", key.prefix.get())?;
    put(map, alloc, "options", options)?;
    Ok(())
}

fn put_key(map: &mut Map<String, Value>, alloc: Global, key: &ShownKey) -> Result<(), Memory>
    ensures { OnOk result (members_view map.new.entries
        ≡ put_all (members_view map.old.entries) (key_fields key.now)) }
{
    put_rights(map, alloc, key)?;
    put_rest(map, alloc, key)?;
    Ok(())
}

impl ToJson for ShownKey {
    ghost form = { λ k. fields (key_fields k) };

    fn to_json(&self, alloc: Global) -> Result<Value, Memory> {
        let mut map = Map::new(alloc);
        put_key(&mut map, alloc, self)?;
        Ok(Value::Object(map))
    }
}

impl ToJson for ShownNewKey {
    ghost form = { λ k. fields ((codes "applicationKey", string k.secret) ∷ key_fields k.key) };

    fn to_json(&self, alloc: Global) -> Result<Value, Memory> {
        let mut map = Map::new(alloc);
        put_field(&mut map, alloc, "applicationKey", &self.secret)?;
        put_key(&mut map, alloc, &self.key)?;
        Ok(Value::Object(map))
    }
}
