//! Versions of files and folders that are shown.

ghost use Rattle.std.specs.Prelude.{◌≡◌, [], IfOk};
ghost use Rattle.std.specs.Option.{option_copied};
ghost use Rattle.b2_model.specs.State.{length_of};
ghost use Rattle.b2_model.specs.Shown.{if_may, may, row_kind, shown_digest, shown_file, shown_folder, shown_name};
ghost use Rattle.new_versions.specs.Decided.{extent_len};
ghost use Rattle.rule_table.specs.declared.cap.Cap.TheVariants as cap;

use crate::reads::may_read;
use b2_base::{BucketNum, List, Memory, Moment, Settings, Text, VersionNum};
use b2_types::{Action, Key, Mark, Retention, RowKind, ShownDigest, ShownFile, ShownName, Version};
use new_versions::copy_name;
use rule_table::Cap;
use std::alloc::Global;

fn row_kind(action: Action) -> RowKind
    ensures { result ≡ row_kind action }
{
    match action {
        Action::Upload => RowKind::Upload,
        Action::Hide => RowKind::Hide,
        Action::Start => RowKind::Start,
    }
}

fn digest_of(mark: Mark, digest: [u8; 20]) -> Option<ShownDigest>
    ensures { result ≡ shown_digest mark digest }
{
    match mark {
        Mark::Marker => None,
        Mark::Verified | Mark::Unverified | Mark::Large => Some(ShownDigest { mark, digest }),
    }
}

fn retention_of(key: Option<&Key>, version: &Version) -> Option<Option<Retention>>
    ensures { result ≡ if_may (may (option_copied key.entry) cap.ReadFileRetentions)
        version.now.retention }
{
    if may_read(key, Cap::ReadFileRetentions) {
        Some(version.retention)
    } else {
        None
    }
}

fn hold_of(key: Option<&Key>, version: &Version) -> Option<bool>
    ensures { result ≡ if_may (may (option_copied key.entry) cap.ReadFileLegalHolds)
        version.now.hold }
{
    if may_read(key, Cap::ReadFileLegalHolds) {
        Some(version.hold)
    } else {
        None
    }
}

fn copy_pairs(alloc: Global, pairs: &[(Text, Text)]) -> Result<List<(Text, Text)>, Memory>
    ensures { IfOk result (λ ps. ps ≡ pairs.now) }
{
    let mut copies = Vec::new(alloc);
    for pair in pairs {
        let key = Text::copy(alloc, pair.0.get())?;
        let value = Text::copy(alloc, pair.1.get())?;
        copies.push((key, value))?;
    }
    Ok(List::of(copies))
}

/// The version as the answer to a call of this key shows it: retention and legal hold are withheld
/// from a key that may not read them. Its content has `len` bytes.
pub fn show_file(
    alloc: Global,
    settings: &Settings,
    key: Option<&Key>,
    version: &Version,
    len: u64,
) -> Result<ShownFile, Memory>
    requires { length_of extent_len version.now.content ≡ len }
    ensures { IfOk result
        (λ s. s ≡ shown_file extent_len settings.now (option_copied key.entry) version.now) }
{
    let account = Text::copy(alloc, settings.account.get())?;
    let kind = Text::copy(alloc, version.kind.get())?;
    let info = copy_pairs(alloc, version.info.get())?;
    let name = Text::copy(alloc, version.name.get())?;
    Ok(ShownFile {
        account,
        action: row_kind(version.action),
        bucket: version.bucket,
        length: len,
        digest: digest_of(version.mark, version.digest),
        kind: Some(kind),
        num: version.num,
        info,
        name,
        retention: retention_of(key, version),
        hold: hold_of(key, version),
        stamp: version.stamp,
    })
}

// A folder has no version.
fn folder_number() -> VersionNum
    ensures { result ≡ 0 }
{
    VersionNum::new(0).unwrap()
}

/// A folder as a listing shows it. It is no version and has none of what versions have.
pub fn show_folder(
    alloc: Global,
    settings: &Settings,
    bucket: BucketNum,
    name: &str,
) -> Result<ShownFile, Memory>
    ensures { IfOk result (λ s. s ≡ shown_folder settings.now bucket name.now) }
{
    let account = Text::copy(alloc, settings.account.get())?;
    let name = Text::copy(alloc, name)?;
    Ok(ShownFile {
        account,
        action: RowKind::Folder,
        bucket,
        length: 0,
        digest: None,
        kind: None,
        num: folder_number(),
        info: List::of(Vec::new(alloc)),
        name,
        retention: None,
        hold: None,
        stamp: Moment::from_reading(0),
    })
}

/// The version's id and name.
pub fn show_name(alloc: Global, version: &Version) -> Result<ShownName, Memory>
    ensures { IfOk result (λ s. s ≡ shown_name version.now) }
{
    let name = copy_name(alloc, &version.name)?;
    Ok(ShownName {
        bucket: version.bucket,
        num: version.num,
        name,
    })
}
