//! What is shown of versions that a record makes.

ghost use Rattle.std.specs.Prelude.{◌≡◌, ◌≤◌, ◌^◌, ◌∷◌, [], IfOk, IsSome, MatchOption, Some, map};
ghost use Rattle.std.specs.Option.{option_copied};
ghost use Rattle.b2_base.specs.declared.extent.Extent.{Extent as TheExtent};
ghost use Rattle.b2_types.specs.declared.version.VersionOf.{VersionOf as TheVersion};
ghost use Rattle.b2_model.specs.Finish.{finished_file};
ghost use Rattle.b2_model.specs.Shown.{if_may, may, shown_file};
ghost use Rattle.b2_model.specs.State.{length_of};
ghost use Rattle.new_versions.specs.Decided.{extent_len};
ghost use Rattle.rule_table.specs.declared.cap.Cap.TheVariants as cap;
ghost use Rattle.core_files.specs.Made.{made_by};

use b2_base::{Extent, List, Memory, Settings, Text};
use b2_types::{
    Action, ChangeOf, Key, Mark, NewVersion, Part, Record, Retention, RowKind, ShownDigest,
    ShownFile, Version,
};
use core_state::{marker_of, version_of};
use new_versions::{copy_info, copy_name};
use rule_table::Cap;
use shown_values::{content_length, may_read, show_file};
use std::alloc::Global;

fn copy_new(alloc: Global, new: &NewVersion) -> Result<NewVersion, Memory>
    ensures { IfOk result (λ n. n ≡ new.now) }
{
    Ok(NewVersion {
        bucket: new.bucket,
        num: new.num,
        name: copy_name(alloc, &new.name)?,
        kind: Text::copy(alloc, new.kind.get())?,
        info: copy_info(alloc, Some(&new.info))?,
        retention: new.retention,
        hold: new.hold,
    })
}

fn one_piece(alloc: Global, content: Extent) -> Result<List<Extent>, Memory>
    ensures { IfOk result (λ pieces. pieces ≡ content ∷ []) }
{
    let mut pieces = Vec::new(alloc);
    pieces.push(content)?;
    Ok(List::of(pieces))
}

// The version that the record makes.
fn made_version(alloc: Global, record: &Record) -> Result<Version, Memory>
    requires { IsSome (made_by record.now) }
    ensures { IfOk result (λ v. made_by record.now ≡ Some v) }
{
    let t = record.at;
    match &record.change {
        ChangeOf::Upload(new, content, mark, digest) => {
            let pieces = one_piece(alloc, *content)?;
            let new = copy_new(alloc, new)?;
            Ok(version_of(alloc, t, Action::Upload, pieces, *mark, *digest, new))
        }
        ChangeOf::Start(new) => {
            let pieces = List::of(Vec::new(alloc));
            let new = copy_new(alloc, new)?;
            Ok(version_of(alloc, t, Action::Start, pieces, Mark::Large, [0; 20], new))
        }
        ChangeOf::Hide(id, name) => {
            let name = copy_name(alloc, name)?;
            marker_of(alloc, t, *id, name)
        }
        _ => unreachable!(),
    }
}

/// The version that a record makes, as the answer to a call of this key shows it.
pub fn show_made(
    alloc: Global,
    settings: &Settings,
    key: Option<&Key>,
    record: &Record,
) -> Result<ShownFile, Memory>
    requires { IsSome (made_by record.now) }
    ensures { IfOk result (λ s. (v : TheVersion TheExtent) → made_by record.now ≡ Some v
        → s ≡ shown_file extent_len settings.now (option_copied key.entry) v) }
{
    let version = made_version(alloc, record)?;
    let Some(len) = content_length(version.content.get()) else {
        return Err(Memory);
    };
    show_file(alloc, settings, key, &version, len)
}

// The bytes of the parts together, where their number fits.
fn parts_length(parts: &[Part]) -> Option<u64>
    ensures { MatchOption result (2 ^ 64 ≤ length_of extent_len (map (λ p. p.content) parts.now))
        (λ n. n ≡ length_of extent_len (map (λ p. p.content) parts.now)) }
{
    let mut total = 0u64;
    'parts: for part in parts {
        total = total.checked_add(part.content.len)?;
    }
    Some(total)
}

fn retention_for(key: Option<&Key>, retention: Option<Retention>) -> Option<Option<Retention>>
    ensures { result ≡ if_may (may (option_copied key.entry) cap.ReadFileRetentions) retention }
{
    if may_read(key, Cap::ReadFileRetentions) {
        Some(retention)
    } else {
        None
    }
}

/// The file that a large file becomes with this retention, as the answer to a call of this key shows
/// it.
pub(crate) fn show_finished(
    alloc: Global,
    settings: &Settings,
    key: Option<&Key>,
    version: &Version,
    retention: Option<Retention>,
) -> Result<ShownFile, Memory>
    ensures { IfOk result (λ s. s ≡ shown_file extent_len settings.now (option_copied key.entry)
        (finished_file retention version.now)) }
{
    let Some(len) = content_length(version.content.get()) else {
        return Err(Memory);
    };
    let Some(length) = parts_length(version.parts.get()) else {
        return Err(Memory);
    };
    let mut shown = show_file(alloc, settings, key, version, len)?;
    shown.action = RowKind::Upload;
    shown.length = length;
    shown.digest = Some(ShownDigest {
        mark: Mark::Large,
        digest: version.digest,
    });
    shown.retention = retention_for(key, retention);
    Ok(shown)
}
