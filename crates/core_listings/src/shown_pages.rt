//! Pages of files, as they are shown.

ghost use Rattle.std.specs.Prelude.{◌≡◌, [], IfOk, option_and_then, option_map, unwrap_or};
ghost use Rattle.std.specs.Option.{option_copied};
ghost use Rattle.b2_model.specs.AskListings.{listing_of};
ghost use Rattle.b2_model.specs.Pages.{names_page, unfinished_page, versions_page};
ghost use Rattle.listing_pages.specs.PageOf.{row_place};
ghost use Rattle.core_listings.specs.Rows.{id_at, names_shown, next_at, starts_shown, versions_shown};

use crate::asks::{ask_files, ask_starts};
use crate::pages::{page_of_names, page_of_starts, page_of_versions};
use crate::rows::show_rows;
use b2_base::{BucketNum, Memory, Text};
use b2_types::{Key, ListFiles, ListUnfinished, NextRow, Shown, VersionId};
use core_state::Core;
use listing_pages::PageRow;
use std::alloc::Global;
use std::marker::Brand;
use std::sync::ledger::Blank;

// The next row of a page of versions.
fn next_row(
    alloc: Global,
    bucket: BucketNum,
    row: Option<&PageRow>,
) -> Result<Option<NextRow>, Memory>
    ensures { IfOk result (λ next. next ≡ option_map (next_at bucket) (option_copied row.entry)) }
{
    match row {
        Some(PageRow::File(name, num)) => {
            let name = Text::copy(alloc, name.get())?;
            let version = Some(VersionId { bucket, num: *num });
            Ok(Some(NextRow { name, version }))
        }
        Some(PageRow::Folder(name)) => {
            let name = Text::copy(alloc, name.get())?;
            let version = None;
            Ok(Some(NextRow { name, version }))
        }
        None => Ok(None),
    }
}

// The name of the next row of a page of names.
fn next_name(alloc: Global, row: Option<&PageRow>) -> Result<Option<Text>, Memory>
    ensures { IfOk result (λ next. next
        ≡ option_map (λ r. (row_place r).0) (option_copied row.entry)) }
{
    match row {
        Some(PageRow::File(name, _) | PageRow::Folder(name)) => {
            Ok(Some(Text::copy(alloc, name.get())?))
        }
        None => Ok(None),
    }
}

// The version of the next row of a page of large files.
fn next_id(bucket: BucketNum, row: Option<&PageRow>) -> Option<VersionId>
    ensures { result ≡ option_and_then (id_at bucket) (option_copied row.entry) }
{
    match row {
        Some(PageRow::File(_, num)) => Some(VersionId { bucket, num: *num }),
        Some(PageRow::Folder(_)) | None => None,
    }
}

/// The page of versions that a call of this key asks for.
pub(crate) fn show_versions(
    alloc: Global,
    core: &Core,
    key: Option<&Key>,
    bucket: BucketNum,
    call: &ListFiles,
) -> Result<Shown, Memory>
    ensures { IfOk result (λ s. s ≡ versions_shown core.now (option_copied key.entry) bucket
        (versions_page core.now bucket (listing_of call.now))) }
{
    core.is_sound();
    let ask = ask_files(alloc, bucket, call)?;
    let page = page_of_versions::<Brand>(alloc, core, &ask, Blank::new(1))?;
    let rows = show_rows(alloc, core, key, bucket, page.rows())?;
    let next = next_row(alloc, bucket, page.next_row())?;
    Ok(Shown::FileVersions(rows, next))
}

/// The page of names that a call of this key asks for.
pub(crate) fn show_names(
    alloc: Global,
    core: &Core,
    key: Option<&Key>,
    bucket: BucketNum,
    call: &ListFiles,
) -> Result<Shown, Memory>
    ensures { IfOk result (λ s. s ≡ names_shown core.now (option_copied key.entry) bucket
        (names_page core.now bucket (listing_of call.now))) }
{
    core.is_sound();
    let ask = ask_files(alloc, bucket, call)?;
    let page = page_of_names::<Brand>(alloc, core, &ask, Blank::new(1))?;
    let rows = show_rows(alloc, core, key, bucket, page.rows())?;
    let next = next_name(alloc, page.next_row())?;
    Ok(Shown::FileNames(rows, next))
}

/// The page of unfinished large files that a call of this key asks for.
pub(crate) fn show_starts(
    alloc: Global,
    core: &Core,
    key: Option<&Key>,
    bucket: BucketNum,
    call: &ListUnfinished,
) -> Result<Shown, Memory>
    ensures { IfOk result (λ s. s ≡ starts_shown core.now (option_copied key.entry)
        (unfinished_page core.now bucket (unwrap_or call.now.prefix []) (unwrap_or call.now.start 0)
        call.now.max)) }
{
    core.is_sound();
    let ask = ask_starts(alloc, bucket, call)?;
    let page = page_of_starts::<Brand>(alloc, core, &ask, Blank::new(1))?;
    let rows = show_rows(alloc, core, key, bucket, page.rows())?;
    let next = next_id(bucket, page.next_row());
    Ok(Shown::Unfinished(rows, next))
}
