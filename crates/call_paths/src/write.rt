//! The paths of calls, as a client writes them.

ghost use Rattle.std.specs.Prelude.{◌≡◌, ◌≢◌, true, All, IfOk};
ghost use Rattle.rule_table.specs.Rows.{IsRow};
ghost use Rattle.rule_table.specs.CallName.{call_names, call_place};
ghost use Rattle.call_paths.specs.Path.{api_front, offers, has_name_path, name_route, upload_route, part_route, download_route, IsDownloadOf, IsPath};

use b2_base::{BucketId, BucketNum, FileId, Memory, Text, VersionNum};
use b2_types::ApiVersion;
use rule_table::{CallName, Placed, calls};
use std::alloc::Global;

// The call's name.
fn name_text(name: CallName) -> &'static str
    ensures { IsRow call_names (call_place name) result.now }
{
    let names = calls().names();
    names[name.place()]
}

fn front_of(version: ApiVersion) -> &'static str
    ensures { result.now ≡ api_front version }
{
    match version {
        ApiVersion::V3 => "/b2api/v3/",
        ApiVersion::V4 => "/b2api/v4/",
    }
}

/// The path of a call that has one of its name alone.
pub fn write_name_path(alloc: Global, version: ApiVersion, name: CallName) -> Result<Text, Memory>
    requires offered { offers version name ≡ true }
    requires alone { has_name_path name ≡ true }
    ensures { IfOk result (λ path. IsPath path (name_route version name)) }
{
    let front = front_of(version);
    let name = name_text(name);
    let path = format!(in alloc; "{front}{name}")?;
    Ok(Text::of(path))
}

/// The path of an upload of a file to the bucket.
pub fn write_upload_path(alloc: Global, bucket: BucketNum) -> Result<Text, Memory>
    ensures { IfOk result (λ path. IsPath path (upload_route bucket)) }
{
    let id = BucketId::write(alloc, bucket)?;
    let id = id.get();
    let path = format!(in alloc; "/b2api/v3/b2_upload_file/{id}")?;
    Ok(Text::of(path))
}

/// The path of an upload of a part of the large file.
pub fn write_part_path(alloc: Global, bucket: BucketNum, file: VersionNum) -> Result<Text, Memory>
    ensures { IfOk result (λ path. IsPath path (part_route bucket file)) }
{
    let id = FileId::write(alloc, bucket, file)?;
    let id = id.get();
    let path = format!(in alloc; "/b2api/v3/b2_upload_part/{id}")?;
    Ok(Text::of(path))
}

/// The path of a download by name, of the bucket's name and the file's with its escapes.
pub fn write_download_path(alloc: Global, bucket: &str, name: &str) -> Result<Text, Memory>
    requires { All (λ b. b ≢ 47) bucket.now }
    ensures parts { IfOk result (λ path. IsDownloadOf path bucket.now name.now) }
    ensures route { IfOk result (λ path. IsPath path download_route) }
{
    let path = format!(in alloc; "/file/{bucket}/{name}")?;
    Ok(Text::of(path))
}
