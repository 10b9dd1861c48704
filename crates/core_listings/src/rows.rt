//! Rows of pages of files, as they are shown.

ghost use Rattle.std.specs.Prelude.{◌≡◌, All, IfOk, IsSome, Some, map, option_map};
ghost use Rattle.std.specs.Option.{option_copied};
ghost use Rattle.b2_model.specs.Rows.{version_at};
ghost use Rattle.b2_model.specs.Shown.{shown_file};
ghost use Rattle.new_versions.specs.Decided.{extent_len};
ghost use Rattle.core_listings.specs.Rows.{IsThere, shown_at};

use b2_base::{BucketNum, List, Memory, VersionNum};
use b2_types::{Key, ShownFile};
use core_state::Core;
use listing_pages::PageRow;
use shown_values::{content_length, show_file, show_folder};
use std::alloc::Global;

fn show_version(
    alloc: Global,
    core: &Core,
    key: Option<&Key>,
    bucket: BucketNum,
    num: VersionNum,
) -> Result<ShownFile, Memory>
    requires { IsSome (version_at core.now bucket num) }
    ensures { IfOk result (λ s. option_map (shown_file extent_len core.now.settings
        (option_copied key.entry)) (version_at core.now bucket num) ≡ Some s) }
{
    let Some(version) = core.version(bucket, num) else {
        unreachable!();
    };
    let Some(len) = content_length(version.content.get()) else {
        return Err(Memory);
    };
    let shown = show_file(alloc, core.settings(), key, version, len)?;
    Ok(shown)
}

fn show_row(
    alloc: Global,
    core: &Core,
    key: Option<&Key>,
    bucket: BucketNum,
    row: &PageRow,
) -> Result<ShownFile, Memory>
    requires { IsThere core.now bucket row.now }
    ensures { IfOk result (λ s. shown_at core.now (option_copied key.entry) bucket row.now
        ≡ Some s) }
{
    match row {
        PageRow::File(_, num) => show_version(alloc, core, key, bucket, *num),
        PageRow::Folder(name) => show_folder(alloc, core.settings(), bucket, name.get()),
    }
}

/// The rows of a page of the bucket, as the answer to a call of this key shows them.
pub(crate) fn show_rows(
    alloc: Global,
    core: &Core,
    key: Option<&Key>,
    bucket: BucketNum,
    rows: &[PageRow],
) -> Result<List<ShownFile>, Memory>
    requires { All (IsThere core.now bucket) rows.now }
    ensures { IfOk result (λ shown. map (shown_at core.now (option_copied key.entry) bucket) rows.now
        ≡ map Some shown) }
{
    let mut shown = Vec::new(alloc);
    'rows: for row in rows {
        shown.push(show_row(alloc, core, key, bucket, row)?)?;
    }
    Ok(List::of(shown))
}
