//! The records of a version, by what it is.

ghost use Rattle.std.specs.Prelude.{◌≡◌, ◌++◌, ◌∷◌, ◌<◌, [], OnOk, false, length, map};
ghost use Rattle.b2_types.specs.declared.record.ChangeOf.TheVariants as change;
ghost use Rattle.b2_model.specs.Kinds.{is_hide, is_start};
ghost use Rattle.b2_model.specs.Stored.{as_new, large_records, part_record, pieces_of, record_at, upload_records, version_records};
ghost use Rattle.b2_model.specs.Plan.{id_of};

use crate::copies::{as_new, id_of};
use b2_base::{Extent, List, Memory, Moment};
use b2_types::{Action, ChangeOf, Mark, Part, Record, RecordOf, Version};
use new_versions::copy_name;
use std::alloc::Global;

/// How many extents a record of a snapshot has at most.
const MOST_EXTENTS: usize = 2000;

/// Puts the record of the change behind the others.
pub(crate) fn add(
    records: &mut Vec<Record>,
    at: Moment,
    change: ChangeOf<Extent>,
) -> Result<(), Memory>
    ensures { OnOk result (records.new.items ≡ records.old.items ++ record_at at change ∷ []) }
{
    records.push(RecordOf { at, change })?;
    Ok(())
}

// The record of a part of a start.
fn add_part(records: &mut Vec<Record>, version: &Version, part: &Part) -> Result<(), Memory>
    ensures { OnOk result (records.new.items
        ≡ records.old.items ++ part_record version.now part.now ∷ []) }
{
    let id = id_of(version);
    let change = ChangeOf::PartPut(id, part.number, part.content, part.mark, part.digest);
    add(records, part.stamp, change)
}

// The records of the parts of a start.
fn add_parts(records: &mut Vec<Record>, version: &Version) -> Result<(), Memory>
    ensures { OnOk result (records.new.items
        ≡ records.old.items ++ map (part_record version.now) version.now.parts) }
{
    for part in version.parts.get() {
        add_part(records, version, part)?;
    }
    Ok(())
}

// The records of a large file that was begun, and of its parts.
fn add_start(alloc: Global, records: &mut Vec<Record>, version: &Version) -> Result<(), Memory>
    ensures { OnOk result (records.new.items ≡ records.old.items
        ++ record_at version.now.stamp (change.Start (as_new version.now))
        ∷ map (part_record version.now) version.now.parts) }
{
    let new = as_new(alloc, version)?;
    add(records, version.stamp, ChangeOf::Start(new))?;
    add_parts(records, version)
}

// The record of a marker.
fn add_marker(alloc: Global, records: &mut Vec<Record>, version: &Version) -> Result<(), Memory>
    ensures { OnOk result (records.new.items ≡ records.old.items
        ++ record_at version.now.stamp (change.Hide (id_of version.now) version.now.name) ∷ []) }
{
    let name = copy_name(alloc, &version.name)?;
    add(records, version.stamp, ChangeOf::Hide(id_of(version), name))
}

// The record of some extents of a large file.
fn add_piece(
    alloc: Global,
    records: &mut Vec<Record>,
    version: &Version,
    piece: &[Extent],
) -> Result<(), Memory>
    ensures { OnOk result (records.new.items ≡ records.old.items
        ++ record_at version.now.stamp (change.SnapExtents (id_of version.now) piece.now) ∷ []) }
{
    let piece = List::of(piece.to_vec(alloc)?);
    add(
        records,
        version.stamp,
        ChangeOf::SnapExtents(id_of(version), piece),
    )
}

// The records of the extents of a large file, so many in each but the last.
fn add_pieces(
    alloc: Global,
    records: &mut Vec<Record>,
    version: &Version,
    most: usize,
) -> Result<(), Memory>
    requires { 0 < most }
    ensures { OnOk result (records.new.items ≡ records.old.items
        ++ map (λ pieces. record_at version.now.stamp (change.SnapExtents (id_of version.now) pieces))
        (pieces_of (length version.now.content) most version.now.content)) }
{
    let mut left = version.content.get();
    while !left.is_empty() {
        let (piece, rest) = left.split_at(most.min(left.len()));
        add_piece(alloc, records, version, piece)?;
        left = rest;
    }
    Ok(())
}

// The records of a large file that was finished.
fn add_large(alloc: Global, records: &mut Vec<Record>, version: &Version) -> Result<(), Memory>
    ensures { OnOk result (records.new.items
        ≡ records.old.items ++ large_records version.now) }
{
    let new = as_new(alloc, version)?;
    add(records, version.stamp, ChangeOf::SnapLarge(new))?;
    add_pieces(alloc, records, version, MOST_EXTENTS)
}

// The record of a file that was uploaded whole.
fn add_whole(
    alloc: Global,
    records: &mut Vec<Record>,
    version: &Version,
    content: Extent,
) -> Result<(), Memory>
    ensures { OnOk result (records.new.items ≡ records.old.items ++ record_at version.now.stamp
        (change.Upload (as_new version.now) content version.now.mark version.now.digest) ∷ []) }
{
    let new = as_new(alloc, version)?;
    let change = ChangeOf::Upload(new, content, version.mark, version.digest);
    add(records, version.stamp, change)
}

// The records of a file that was uploaded whole: its content is one extent.
fn add_upload(alloc: Global, records: &mut Vec<Record>, version: &Version) -> Result<(), Memory>
    ensures { OnOk result (records.new.items
        ≡ records.old.items ++ upload_records version.now) }
{
    for content in version.content.get() {
        add_whole(alloc, records, version, *content)?;
    }
    Ok(())
}

// The records of a file with content.
fn add_file(alloc: Global, records: &mut Vec<Record>, version: &Version) -> Result<(), Memory>
    requires begun { is_start version.now.action ≡ false }
    requires file { is_hide version.now.action ≡ false }
    ensures { OnOk result (records.new.items
        ≡ records.old.items ++ version_records version.now) }
{
    match version.mark {
        Mark::Large => add_large(alloc, records, version),
        Mark::Verified | Mark::Unverified | Mark::Marker => add_upload(alloc, records, version),
    }
}

/// Puts the records of the version behind the others.
pub(crate) fn add_version(
    alloc: Global,
    records: &mut Vec<Record>,
    version: &Version,
) -> Result<(), Memory>
    ensures { OnOk result (records.new.items
        ≡ records.old.items ++ version_records version.now) }
{
    match version.action {
        Action::Upload => add_file(alloc, records, version),
        Action::Hide => add_marker(alloc, records, version),
        Action::Start => add_start(alloc, records, version),
    }
}
