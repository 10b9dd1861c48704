//! Pages of versions.

ghost use Rattle.std.specs.Prelude.{◌≡◌, ◌≤◌, ◌+◌, IfOk, length, map, take};
ghost use Rattle.b2_model.specs.Pages.{listing_page, row_of};
ghost use Rattle.index_rows.specs.OwnRows.{AreOwn, of_bucket};
ghost use Rattle.listing_pages.specs.PageOf.{IsDelimiter, asked_rows, folder_of_name, listing_of, page_row, shown_page};
ghost use Rattle.listing_pages.specs.Places.{after_row, after_version};

use crate::ask::{Ask, page_size};
use crate::folders::{Turn, folder_turn, folder_under};
use crate::page::{Page, PageRow};
use crate::places::{first_place, past_version};
use b2_base::{Memory, Text};
use b2_types::Version;
use name_rules::is_prefix;
use std::alloc::Global;
use std::sync::ledger::Ledger;
use version_index::{Index, Spot, Steps, Walk};

// The row of the version. The place after it takes the memory of the one before.
fn turn(alloc: Global, ask: &Ask, version: &Version, place: Spot) -> Result<Turn, Memory>
    requires { IsDelimiter ask.now.delimiter }
    ensures row { IfOk result (λ t. t.row ≡ page_row (row_of ask.now.prefix ask.now.delimiter version.now)) }
    ensures next { IfOk result (λ t. t.next ≡ after_row ask.now.bucket
        (folder_of_name ask.now.prefix ask.now.delimiter version.now.name)
        (after_version ask.now.bucket version.now.name version.now.num)) }
{
    let name = version.name.get();
    if let Some(folder) = folder_under(ask, name) {
        return folder_turn(alloc, ask.bucket, folder, place);
    }
    let next = past_version(place, ask.bucket, name.as_bytes(), version.num)?;
    let row = PageRow::File(Text::copy(alloc, name)?, version.num);
    Ok(Turn { row, next })
}

// The rows of a page and the one after them, as far as there are any.
fn rows_from<L: Ledger>(
    alloc: Global,
    index: &Index<Version>,
    ask: &Ask,
    size: usize,
    steps: &mut Steps<L>,
) -> Result<Vec<PageRow>, Memory>
    requires own { AreOwn index.now }
    requires delimiter { IsDelimiter ask.now.delimiter }
    requires size { size ≤ 1000 }
    ensures rows { IfOk result (λ rows. rows.items ≡ take (size + 1)
        (map page_row (asked_rows (listing_of ask.now) (of_bucket ask.now.bucket index.now)))) }
    ensures steps { IfOk result (λ rows. steps.new ≤ steps.old + length rows.items + 1) }
{
    index.in_order();
    let mut place = first_place(alloc, ask, ask.start_num)?;
    let mut walk = Walk::new(index);
    let mut rows = Vec::new(alloc);
    'rows: while rows.len() <= size {
        let Some((_, version)) = walk.seek(&place, steps) else {
            return Ok(rows);
        };
        if !is_prefix(ask.prefix.get().as_bytes(), version.name.get().as_bytes()) {
            return Ok(rows);
        }
        let turn = turn(alloc, ask, version, place)?;
        place = turn.next;
        rows.push(turn.row)?;
    }
    Ok(rows)
}

/// The page of versions that is asked for, in at most two steps more than it has rows.
pub fn versions_page<L: Ledger>(
    alloc: Global,
    index: &Index<Version>,
    ask: &Ask,
    steps: &mut Steps<L>,
) -> Result<Page, Memory>
    requires own { AreOwn index.now }
    requires delimiter { IsDelimiter ask.now.delimiter }
    ensures page { IfOk result (λ page. page
        ≡ shown_page (listing_page (listing_of ask.now) (of_bucket ask.now.bucket index.now))) }
    ensures steps { IfOk result (λ page. steps.new ≤ steps.old + length page.rows + 2) }
{
    let size = page_size(ask.max);
    let rows = rows_from(alloc, index, ask, size, steps)?;
    Ok(Page::of(rows, size))
}
