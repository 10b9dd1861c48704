//! The form of an account.

ghost use Rattle.std.specs.Prelude.{◌≡◌, IfOk, OnOk};
ghost use Rattle.serde_json.specs.View.{view, members_view};
ghost use Rattle.b2_types.specs.declared.kinds.ApiVersion.TheVariants as version;
ghost use Rattle.wire_forms.specs.Body.{limit_json, limits_json, storage_json, account_json};
ghost use Rattle.api_json.specs.Put.{put_all};

use crate::to_json::{
    ToJson, put_field, put_list_or_null, put_null, put_optional, put_text, put_unless_empty,
};
use b2_base::Memory;
use b2_types::{ApiVersion, ShownAccount, ShownLimit};
use serde_json::{Map, Value, put};
use std::alloc::Global;

impl ToJson for ShownLimit {
    ghost form = { limit_json };

    fn to_json(&self, alloc: Global) -> Result<Value, Memory> {
        let mut map = Map::new(alloc);
        put_field(&mut map, alloc, "id", &self.bucket)?;
        put_optional(&mut map, alloc, "name", &self.name)?;
        Ok(Value::Object(map))
    }
}

fn put_first_limit(
    map: &mut Map<String, Value>,
    alloc: Global,
    limits: &[ShownLimit],
) -> Result<(), Memory>
    ensures { OnOk result
        (members_view map.new.entries
        ≡ put_all (members_view map.old.entries) (limits_json version.V3 limits.now)) }
{
    let Some(limit) = limits.first() else {
        put_null(map, alloc, "bucketId")?;
        put_null(map, alloc, "bucketName")?;
        return Ok(());
    };
    put_field(map, alloc, "bucketId", &limit.bucket)?;
    put_optional(map, alloc, "bucketName", &limit.name)?;
    Ok(())
}

fn put_limits(
    map: &mut Map<String, Value>,
    alloc: Global,
    account: &ShownAccount,
) -> Result<(), Memory>
    ensures { OnOk result
        (members_view map.new.entries
        ≡ put_all (members_view map.old.entries)
        (limits_json account.now.version account.now.buckets)) }
{
    let limits = account.buckets.get();
    match account.version {
        ApiVersion::V3 => put_first_limit(map, alloc, limits),
        ApiVersion::V4 => put_list_or_null(map, alloc, "buckets", limits),
    }
}

fn storage(alloc: Global, account: &ShownAccount) -> Result<Value, Memory>
    ensures { IfOk result (λ v. view v ≡ storage_json account.now) }
{
    let mut map = Map::new(alloc);
    put_field(
        &mut map,
        alloc,
        "absoluteMinimumPartSize",
        &account.part_min,
    )?;
    put_field(&mut map, alloc, "apiUrl", &account.url)?;
    put_limits(&mut map, alloc, account)?;
    put_field(&mut map, alloc, "capabilities", &account.caps)?;
    put_field(&mut map, alloc, "downloadUrl", &account.url)?;
    put_text(&mut map, alloc, "infoType", "storageApi")?;
    put_unless_empty(&mut map, alloc, "namePrefix", account.prefix.get())?;
    put_field(&mut map, alloc, "recommendedPartSize", &100_000_000u64)?;
    Ok(Value::Object(map))
}

impl ToJson for ShownAccount {
    ghost form = { account_json };

    fn to_json(&self, alloc: Global) -> Result<Value, Memory> {
        let mut apis = Map::new(alloc);
        put(&mut apis, alloc, "storageApi", storage(alloc, self)?)?;
        let mut map = Map::new(alloc);
        put_field(&mut map, alloc, "accountId", &self.account)?;
        put(&mut map, alloc, "apiInfo", Value::Object(apis))?;
        put_optional(
            &mut map,
            alloc,
            "applicationKeyExpirationTimestamp",
            &self.end,
        )?;
        put_field(&mut map, alloc, "authorizationToken", &self.token)?;
        Ok(Value::Object(map))
    }
}
