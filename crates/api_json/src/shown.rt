//! The form of each answer that is one of JSON.

ghost use Rattle.std.specs.Prelude.{◌≡◌, IfOk};
ghost use Rattle.serde_json.specs.Data.{no_members};
ghost use Rattle.serde_json.specs.View.{view, members_view};
ghost use Rattle.b2_types.specs.declared.shown.Shown.TheVariants as shown;
ghost use Rattle.wire_forms.specs.Body.{body_of};
ghost use Rattle.api_json.specs.Put.{put_all, name_fields};

use crate::file::hold_name;
use crate::to_json::{ToJson, put_field, put_list, put_null, put_optional, put_text};
use b2_base::{Memory, Text};
use b2_types::{
    NextRow, Retention, Shown, ShownBucket, ShownCancelled, ShownDownloadToken, ShownFile,
    ShownKey, ShownName, ShownPart, ShownPartUrl, ShownUploadUrl, VersionId,
};
use serde_json::{Map, Value};
use std::alloc::Global;

fn buckets(alloc: Global, buckets: &[ShownBucket]) -> Result<Value, Memory>
    ensures { IfOk result (λ v. view v ≡ body_of (shown.Buckets buckets.now)) }
{
    let mut map = Map::new(alloc);
    put_list(&mut map, alloc, "buckets", buckets)?;
    Ok(Value::Object(map))
}

fn keys(alloc: Global, keys: &[ShownKey], next: &Option<Text>) -> Result<Value, Memory>
    ensures { IfOk result (λ v. view v ≡ body_of (shown.Keys keys.now next.now)) }
{
    let mut map = Map::new(alloc);
    put_list(&mut map, alloc, "keys", keys)?;
    put_optional(&mut map, alloc, "nextApplicationKeyId", next)?;
    Ok(Value::Object(map))
}

fn upload_url(alloc: Global, url: &ShownUploadUrl) -> Result<Value, Memory>
    ensures { IfOk result (λ v. view v ≡ body_of (shown.UploadUrl url.now)) }
{
    let mut map = Map::new(alloc);
    put_field(&mut map, alloc, "authorizationToken", &url.token)?;
    put_field(&mut map, alloc, "bucketId", &url.bucket)?;
    put_field(&mut map, alloc, "uploadUrl", &url.url)?;
    Ok(Value::Object(map))
}

fn part_url(alloc: Global, url: &ShownPartUrl) -> Result<Value, Memory>
    ensures { IfOk result (λ v. view v ≡ body_of (shown.PartUrl url.now)) }
{
    let mut map = Map::new(alloc);
    put_field(&mut map, alloc, "authorizationToken", &url.token)?;
    put_field(&mut map, alloc, "fileId", &url.file)?;
    put_field(&mut map, alloc, "uploadUrl", &url.url)?;
    Ok(Value::Object(map))
}

fn parts(alloc: Global, parts: &[ShownPart], next: &Option<u32>) -> Result<Value, Memory>
    ensures { IfOk result (λ v. view v ≡ body_of (shown.Parts parts.now next.now)) }
{
    let mut map = Map::new(alloc);
    put_optional(&mut map, alloc, "nextPartNumber", next)?;
    put_list(&mut map, alloc, "parts", parts)?;
    Ok(Value::Object(map))
}

fn file_and_name(alloc: Global, file: &ShownName) -> Result<Map<String, Value>, Memory>
    ensures { IfOk result
        (λ m. members_view m.entries ≡ put_all no_members (name_fields file.now)) }
{
    let id = VersionId {
        bucket: file.bucket,
        num: file.num,
    };
    let mut map = Map::new(alloc);
    put_field(&mut map, alloc, "fileId", &id)?;
    put_field(&mut map, alloc, "fileName", &file.name)?;
    Ok(map)
}

fn cancelled(alloc: Global, cancelled: &ShownCancelled) -> Result<Value, Memory>
    ensures { IfOk result (λ v. view v ≡ body_of (shown.Cancelled cancelled.now)) }
{
    let mut map = file_and_name(alloc, &cancelled.file)?;
    put_field(&mut map, alloc, "accountId", &cancelled.account)?;
    put_field(&mut map, alloc, "bucketId", &cancelled.file.bucket)?;
    Ok(Value::Object(map))
}

fn file_names(alloc: Global, rows: &[ShownFile], next: &Option<Text>) -> Result<Value, Memory>
    ensures { IfOk result (λ v. view v ≡ body_of (shown.FileNames rows.now next.now)) }
{
    let mut map = Map::new(alloc);
    put_list(&mut map, alloc, "files", rows)?;
    put_optional(&mut map, alloc, "nextFileName", next)?;
    Ok(Value::Object(map))
}

fn file_versions(alloc: Global, rows: &[ShownFile], next: &Option<NextRow>) -> Result<Value, Memory>
    ensures { IfOk result (λ v. view v ≡ body_of (shown.FileVersions rows.now next.now)) }
{
    let mut map = Map::new(alloc);
    put_list(&mut map, alloc, "files", rows)?;
    let Some(next) = next else {
        put_null(&mut map, alloc, "nextFileId")?;
        put_null(&mut map, alloc, "nextFileName")?;
        return Ok(Value::Object(map));
    };
    put_optional(&mut map, alloc, "nextFileId", &next.version)?;
    put_field(&mut map, alloc, "nextFileName", &next.name)?;
    Ok(Value::Object(map))
}

fn unfinished(alloc: Global, rows: &[ShownFile], next: &Option<VersionId>) -> Result<Value, Memory>
    ensures { IfOk result (λ v. view v ≡ body_of (shown.Unfinished rows.now next.now)) }
{
    let mut map = Map::new(alloc);
    put_list(&mut map, alloc, "files", rows)?;
    put_optional(&mut map, alloc, "nextFileId", next)?;
    Ok(Value::Object(map))
}

fn deleted(alloc: Global, file: &ShownName) -> Result<Value, Memory>
    ensures { IfOk result (λ v. view v ≡ body_of (shown.Deleted file.now)) }
{
    let map = file_and_name(alloc, file)?;
    Ok(Value::Object(map))
}

fn download_token(alloc: Global, given: &ShownDownloadToken) -> Result<Value, Memory>
    ensures { IfOk result (λ v. view v ≡ body_of (shown.DownloadToken given.now)) }
{
    let mut map = Map::new(alloc);
    put_field(&mut map, alloc, "authorizationToken", &given.token)?;
    put_field(&mut map, alloc, "bucketId", &given.bucket)?;
    put_field(&mut map, alloc, "fileNamePrefix", &given.prefix)?;
    Ok(Value::Object(map))
}

fn retention(
    alloc: Global,
    file: &ShownName,
    retention: &Option<Retention>,
) -> Result<Value, Memory>
    ensures { IfOk result (λ v. view v ≡ body_of (shown.Retention file.now retention.now)) }
{
    let mut map = file_and_name(alloc, file)?;
    put_field(&mut map, alloc, "fileRetention", retention)?;
    Ok(Value::Object(map))
}

fn hold(alloc: Global, file: &ShownName, hold: bool) -> Result<Value, Memory>
    ensures { IfOk result (λ v. view v ≡ body_of (shown.Hold file.now hold)) }
{
    let mut map = file_and_name(alloc, file)?;
    put_text(&mut map, alloc, "legalHold", hold_name(hold))?;
    Ok(Value::Object(map))
}

impl ToJson for Shown {
    ghost form = { body_of };

    fn to_json(&self, alloc: Global) -> Result<Value, Memory> {
        match self {
            Shown::Account(account) => account.to_json(alloc),
            Shown::Bucket(bucket) => bucket.to_json(alloc),
            Shown::Buckets(list) => buckets(alloc, list.get()),
            Shown::NewKey(key) => key.to_json(alloc),
            Shown::Key(key) => key.to_json(alloc),
            Shown::Keys(list, next) => keys(alloc, list.get(), next),
            Shown::UploadUrl(url) => upload_url(alloc, url),
            Shown::PartUrl(url) => part_url(alloc, url),
            Shown::File(file) => file.to_json(alloc),
            Shown::Part(part) => part.to_json(alloc),
            Shown::Parts(list, next) => parts(alloc, list.get(), next),
            Shown::Cancelled(file) => cancelled(alloc, file),
            Shown::FileNames(rows, next) => file_names(alloc, rows.get(), next),
            Shown::FileVersions(rows, next) => file_versions(alloc, rows.get(), next),
            Shown::Unfinished(rows, next) => unfinished(alloc, rows.get(), next),
            Shown::Deleted(file) => deleted(alloc, file),
            Shown::DownloadToken(given) => download_token(alloc, given),
            Shown::Retention(file, kept) => retention(alloc, file, kept),
            Shown::Hold(file, on) => hold(alloc, file, *on),
        }
    }
}
