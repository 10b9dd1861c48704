//! The forms of files and parts.

ghost use Rattle.std.specs.Prelude.{◌≡◌, [], ◌∷◌, codes, IfOk, OnOk, if◌then◌else◌};
ghost use Rattle.serde_json.specs.Data.{string};
ghost use Rattle.serde_json.specs.View.{view, members_view};
ghost use Rattle.b2_base.specs.FileId.{file_id};
ghost use Rattle.wire_forms.specs.Body.{action_name, digest_text, retention_json, hold_json, readable, no_encryption, id_by, file_json, part_json};
ghost use Rattle.api_json.specs.Put.{put_all};

use crate::bucket::info;
use crate::to_json::{ToJson, put_field, put_null, put_optional, put_readable, put_text};
use b2_base::{Memory, Text};
use b2_types::{Retention, RowKind, ShownDigest, ShownFile, ShownPart, VersionId};
use serde_json::{Map, Value, put};
use std::alloc::Global;
use wire_forms::digest_text;

impl ToJson for ShownDigest {
    ghost form = { λ d. string (digest_text d) };

    fn to_json(&self, alloc: Global) -> Result<Value, Memory> {
        let text = digest_text(alloc, self)?;
        let json = text.to_json(alloc)?;
        Ok(json)
    }
}

impl ToJson for Option<Retention> {
    ghost form = { retention_json };

    fn to_json(&self, alloc: Global) -> Result<Value, Memory> {
        let mut map = Map::new(alloc);
        let Some(retention) = self else {
            put_null(&mut map, alloc, "mode")?;
            put_null(&mut map, alloc, "retainUntilTimestamp")?;
            return Ok(Value::Object(map));
        };
        put_field(&mut map, alloc, "mode", &retention.mode)?;
        put_field(&mut map, alloc, "retainUntilTimestamp", &retention.until)?;
        Ok(Value::Object(map))
    }
}

/// The name of a legal hold.
pub(crate) fn hold_name(hold: bool) -> &'static str
    ensures { string result.now ≡ hold_json hold }
{
    if hold { "on" } else { "off" }
}

fn put_hold(map: &mut Map<String, Value>, alloc: Global, hold: &Option<bool>) -> Result<(), Memory>
    ensures { OnOk result (members_view map.new.entries
        ≡ put_all (members_view map.old.entries)
        ((codes "legalHold", readable hold_json hold.now) ∷ [])) }
{
    let Some(hold) = hold else {
        return put_readable(map, alloc, "legalHold", &None::<Text>);
    };
    let name = Text::copy(alloc, hold_name(*hold))?;
    put_readable(map, alloc, "legalHold", &Some(name))
}

fn action_name(action: RowKind) -> &'static str
    ensures { result.now ≡ action_name action }
{
    match action {
        RowKind::Upload => "upload",
        RowKind::Hide => "hide",
        RowKind::Start => "start",
        RowKind::Folder => "folder",
    }
}

// A folder has no id.
fn put_row_id(map: &mut Map<String, Value>, alloc: Global, file: &ShownFile) -> Result<(), Memory>
    ensures { OnOk result (members_view map.new.entries
        ≡ put_all (members_view map.old.entries)
        ((
          codes "fileId",
          id_by (string (file_id file.now.bucket file.now.num)) file.now.action,
        ) ∷ [])) }
{
    let id = VersionId {
        bucket: file.bucket,
        num: file.num,
    };
    match file.action {
        RowKind::Folder => put_null(map, alloc, "fileId"),
        RowKind::Upload | RowKind::Hide | RowKind::Start => put_field(map, alloc, "fileId", &id),
    }
}

fn put_no_encryption(map: &mut Map<String, Value>, alloc: Global) -> Result<(), Memory>
    ensures { OnOk result (members_view map.new.entries
        ≡ put_all (members_view map.old.entries)
        ((codes "serverSideEncryption", no_encryption) ∷ [])) }
{
    let mut inner = Map::new(alloc);
    put_null(&mut inner, alloc, "algorithm")?;
    put_null(&mut inner, alloc, "mode")?;
    put(map, alloc, "serverSideEncryption", Value::Object(inner))?;
    Ok(())
}

impl ToJson for ShownFile {
    ghost form = { file_json };

    fn to_json(&self, alloc: Global) -> Result<Value, Memory> {
        let info = info(alloc, self.info.get())?;
        let mut map = Map::new(alloc);
        put_field(&mut map, alloc, "accountId", &self.account)?;
        put_text(&mut map, alloc, "action", action_name(self.action))?;
        put_field(&mut map, alloc, "bucketId", &self.bucket)?;
        put_field(&mut map, alloc, "contentLength", &self.length)?;
        put_null(&mut map, alloc, "contentMd5")?;
        put_optional(&mut map, alloc, "contentSha1", &self.digest)?;
        put_optional(&mut map, alloc, "contentType", &self.kind)?;
        put_row_id(&mut map, alloc, self)?;
        put(&mut map, alloc, "fileInfo", info)?;
        put_field(&mut map, alloc, "fileName", &self.name)?;
        put_readable(&mut map, alloc, "fileRetention", &self.retention)?;
        put_hold(&mut map, alloc, &self.hold)?;
        put_no_encryption(&mut map, alloc)?;
        put_field(&mut map, alloc, "uploadTimestamp", &self.stamp)?;
        Ok(Value::Object(map))
    }
}

impl ToJson for ShownPart {
    ghost form = { part_json };

    fn to_json(&self, alloc: Global) -> Result<Value, Memory> {
        let file = VersionId {
            bucket: self.bucket,
            num: self.file,
        };
        let mut map = Map::new(alloc);
        put_field(&mut map, alloc, "contentLength", &self.length)?;
        put_null(&mut map, alloc, "contentMd5")?;
        put_field(&mut map, alloc, "contentSha1", &self.digest)?;
        put_field(&mut map, alloc, "fileId", &file)?;
        put_field(&mut map, alloc, "partNumber", &self.number)?;
        put_no_encryption(&mut map, alloc)?;
        put_field(&mut map, alloc, "uploadTimestamp", &self.stamp)?;
        Ok(Value::Object(map))
    }
}
