//! The forms of a bucket and of what it holds.

ghost use Rattle.std.specs.Prelude.{◌≡◌, [], ◌∷◌, Bool, None, codes, map as mapped, IfOk, OnOk};
ghost use Rattle.serde_json.specs.Data.{boolean};
ghost use Rattle.serde_json.specs.View.{view, members_view};
ghost use Rattle.wire_forms.specs.Body.{info_json, mode_json, period_json, default_json, lock_json, rule_json, bucket_type, bucket_json};

use crate::to_json::{
    ToJson, put_field, put_list, put_no_items, put_null, put_optional, put_readable, put_text,
};
use b2_base::{Memory, Text};
use b2_types::{DefaultRetention, Mode, Period, Rule, ShownBucket, ShownLock};
use name_rules::InfoPairs;
use serde_json::{Map, Value, put};
use std::alloc::Global;

/// Pairs of information as an object.
pub(crate) fn info(alloc: Global, pairs: &[(Text, Text)]) -> Result<Value, Memory>
    ensures { IfOk result (λ v. view v ≡ info_json pairs.now) }
{
    let mut map = Map::new(alloc);
    for (key, value) in pairs {
        put_field(&mut map, alloc, key.get(), value)?;
    }
    Ok(Value::Object(map))
}

impl ToJson for InfoPairs {
    ghost form = { info_json };

    fn to_json(&self, alloc: Global) -> Result<Value, Memory> {
        let json = info(alloc, self.get())?;
        Ok(json)
    }
}

impl ToJson for Mode {
    ghost form = { mode_json };

    fn to_json(&self, alloc: Global) -> Result<Value, Memory> {
        let name = match self {
            Mode::Governance => String::from_str(alloc, "governance")?,
            Mode::Compliance => String::from_str(alloc, "compliance")?,
        };
        Ok(Value::String(name))
    }
}

impl ToJson for Period {
    ghost form = { period_json };

    fn to_json(&self, alloc: Global) -> Result<Value, Memory> {
        let mut map = Map::new(alloc);
        match self {
            Period::Days(days) => {
                put_field(&mut map, alloc, "duration", days)?;
                put_text(&mut map, alloc, "unit", "days")?;
                Ok(Value::Object(map))
            }
            Period::Years(years) => {
                put_field(&mut map, alloc, "duration", years)?;
                put_text(&mut map, alloc, "unit", "years")?;
                Ok(Value::Object(map))
            }
        }
    }
}

fn default_retention(alloc: Global, default: &Option<DefaultRetention>) -> Result<Value, Memory>
    ensures { IfOk result (λ v. view v ≡ default_json default.now) }
{
    let mut map = Map::new(alloc);
    let Some(default) = default else {
        put_null(&mut map, alloc, "mode")?;
        put_null(&mut map, alloc, "period")?;
        return Ok(Value::Object(map));
    };
    put_field(&mut map, alloc, "mode", &default.mode)?;
    put_field(&mut map, alloc, "period", &default.period)?;
    Ok(Value::Object(map))
}

impl ToJson for ShownLock {
    ghost form = { lock_json };

    fn to_json(&self, alloc: Global) -> Result<Value, Memory> {
        let default = default_retention(alloc, &self.default)?;
        let mut map = Map::new(alloc);
        put(&mut map, alloc, "defaultRetention", default)?;
        put_field(&mut map, alloc, "isFileLockEnabled", &self.enabled)?;
        Ok(Value::Object(map))
    }
}

impl ToJson for Rule {
    ghost form = { rule_json };

    fn to_json(&self, alloc: Global) -> Result<Value, Memory> {
        let mut map = Map::new(alloc);
        put_optional(
            &mut map,
            alloc,
            "daysFromHidingToDeleting",
            &self.delete_days,
        )?;
        put_optional(
            &mut map,
            alloc,
            "daysFromStartingToCancelingUnfinishedLargeFiles",
            &self.cancel_days,
        )?;
        put_optional(
            &mut map,
            alloc,
            "daysFromUploadingToHiding",
            &self.hide_days,
        )?;
        put_field(&mut map, alloc, "fileNamePrefix", &self.prefix)?;
        Ok(Value::Object(map))
    }
}

fn bucket_type(public: bool) -> &'static str
    ensures { result.now ≡ bucket_type public }
{
    if public { "allPublic" } else { "allPrivate" }
}

impl ToJson for ShownBucket {
    ghost form = { bucket_json };

    fn to_json(&self, alloc: Global) -> Result<Value, Memory> {
        let mut map = Map::new(alloc);
        put_field(&mut map, alloc, "accountId", &self.account)?;
        put_field(&mut map, alloc, "bucketId", &self.num)?;
        put_field(&mut map, alloc, "bucketInfo", &self.info)?;
        put_field(&mut map, alloc, "bucketName", &self.name)?;
        put_text(&mut map, alloc, "bucketType", bucket_type(self.public))?;
        put_no_items(&mut map, alloc, "corsRules")?;
        put_readable(
            &mut map,
            alloc,
            "defaultServerSideEncryption",
            &None::<bool>,
        )?;
        put_readable(&mut map, alloc, "fileLockConfiguration", &self.lock)?;
        put_list(&mut map, alloc, "lifecycleRules", self.rules.get())?;
        put_no_items(&mut map, alloc, "options")?;
        put_field(&mut map, alloc, "revision", &self.revision)?;
        Ok(Value::Object(map))
    }
}
