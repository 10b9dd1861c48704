//! What a path is.

ghost use Rattle.std.specs.Prelude.{◌≡◌, ◌≢◌, ◌++◌, ◌&&◌, ℕ, List, true, MatchOption};
ghost use Rattle.rule_table.specs.declared.call.CallName.{CallName as TheName};
ghost use Rattle.rule_table.specs.declared.call.CallName.TheVariants.{UploadFile, UploadPart};
ghost use Rattle.b2_types.specs.declared.fault.Target.{Target as TheTarget};
ghost use Rattle.b2_types.specs.declared.kinds.ApiVersion.{ApiVersion as TheVersion};
ghost use Rattle.b2_types.specs.declared.kinds.ApiVersion.TheVariants.{V3};
ghost use Rattle.call_paths.specs.declared.routes.Route.{Route as TheRoute};
ghost use Rattle.call_paths.specs.Path.{api_front, has_name_path, offers, IsNamePath, IsDownloadOf, IsPathOf, IsPath};

use crate::routes::Route;
use b2_base::{BucketId, FileId, behind, cut_at};
use b2_types::{ApiVersion, Target};
use rule_table::{CallName, calls};

fn upload_target(path: &[u8]) -> Option<Target>
    ensures { MatchOption result
        ((t : TheTarget) → IsPathOf path.now V3 t UploadFile → ⊥)
        (λ t. IsPathOf path.now V3 t UploadFile) }
{
    let Some(id) = behind(b"/b2api/v3/b2_upload_file/", path) else {
        return None;
    };
    let Some(bucket) = BucketId::read(id) else {
        return None;
    };
    Some(Target::Bucket(bucket))
}

fn part_target(path: &[u8]) -> Option<Target>
    ensures { MatchOption result
        ((t : TheTarget) → IsPathOf path.now V3 t UploadPart → ⊥)
        (λ t. IsPathOf path.now V3 t UploadPart) }
{
    let Some(id) = behind(b"/b2api/v3/b2_upload_part/", path) else {
        return None;
    };
    let Some((bucket, file)) = FileId::read(id) else {
        return None;
    };
    Some(Target::File(bucket, file))
}

/// The bucket's name and the file's, as they stand in the path of a download by name.
pub fn download_parts(path: &[u8]) -> Option<(&[u8], &[u8])>
    ensures { MatchOption result
        ((bucket name : List ℕ) → IsDownloadOf path.now bucket name → ⊥)
        (λ parts. IsDownloadOf path.now parts.0.now parts.1.now) }
{
    let Some(rest) = behind(b"/file/", path) else {
        return None;
    };
    cut_at(b'/', rest)
}

// The version whose paths begin so, and what stands after it.
fn after_version(path: &[u8]) -> Option<(ApiVersion, &[u8])>
    ensures { MatchOption result
        ((v : TheVersion) (text : List ℕ) → path.now ≢ api_front v ++ text)
        (λ p. path.now ≡ api_front p.0 ++ p.1.now) }
{
    if let Some(text) = behind(b"/b2api/v3/", path) {
        return Some((ApiVersion::V3, text));
    }
    if let Some(text) = behind(b"/b2api/v4/", path) {
        return Some((ApiVersion::V4, text));
    }
    None
}

// Whether the call has a path of its name alone.
fn has_name_path(name: CallName) -> bool
    ensures { result ≡ has_name_path name }
{
    match name {
        CallName::UploadFile | CallName::UploadPart | CallName::DownloadFileByName => false,
        _ => true,
    }
}

fn offers(version: ApiVersion, name: CallName) -> bool
    ensures { result ≡ offers version name }
{
    match version {
        ApiVersion::V3 => true,
        ApiVersion::V4 => match name {
            CallName::AuthorizeAccount
            | CallName::CreateKey
            | CallName::DeleteKey
            | CallName::ListKeys => true,
            _ => false,
        },
    }
}

// The version and the call, where the path is of a name alone.
fn name_path(path: &[u8]) -> Option<(ApiVersion, CallName)>
    ensures { MatchOption result
        ((v : TheVersion) (n : TheName) → (offers v n && has_name_path n) ≡ true
        → IsNamePath path.now v n → ⊥)
        (λ p. ((offers p.0 p.1 && has_name_path p.1) ≡ true) × IsNamePath path.now p.0 p.1) }
{
    let Some((version, text)) = after_version(path) else {
        return None;
    };
    let Some(name) = calls().find(text) else {
        return None;
    };
    let is_one = offers(version, name) & has_name_path(name);
    if is_one { Some((version, name)) } else { None }
}

/// What the path is, where it is that of a call.
pub fn read_path(path: &[u8]) -> Option<Route>
    ensures { MatchOption result ((route : TheRoute) → IsPath path.now route → ⊥)
        (IsPath path.now) }
{
    if let Some((version, name)) = name_path(path) {
        let target = Target::Nothing;
        return Some(Route {
            name,
            version,
            target,
        });
    }
    let (name, target) = if let Some(target) = upload_target(path) {
        (CallName::UploadFile, target)
    } else if let Some(target) = part_target(path) {
        (CallName::UploadPart, target)
    } else if download_parts(path).is_some() {
        (CallName::DownloadFileByName, Target::Nothing)
    } else {
        return None;
    };
    let version = ApiVersion::V3;
    Some(Route {
        name,
        version,
        target,
    })
}
