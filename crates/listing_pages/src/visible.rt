//! Pages of names, each with its current version where it can be seen.

ghost use Rattle.std.specs.Prelude.{◌≡◌, ◌≤◌, ◌+◌, IfOk, length, map, slice_get, take};
ghost use Rattle.b2_types.specs.declared.kinds.Action.TheVariants as action;
ghost use Rattle.b2_model.specs.Pages.{listing_page, visible_versions};
ghost use Rattle.index_rows.specs.OwnRows.{AreOwn, of_bucket};
ghost use Rattle.listing_pages.specs.NameRows.{is_late, next_by, row_by};
ghost use Rattle.listing_pages.specs.PageOf.{IsDelimiter, asked_rows, listing_of, page_row, shown_page};
ghost use Rattle.listing_pages.specs.PassedOver.{passed_over};

use crate::ask::{Ask, page_size};
use crate::folders::{folder_turn, folder_under};
use crate::page::{Page, PageRow, push_some};
use crate::places::{first_place, past_name, past_version};
use b2_base::{Memory, Text};
use b2_types::{Action, Version};
use name_rules::is_prefix;
use std::alloc::Global;
use std::sync::ledger::Ledger;
use version_index::{Index, Spot, Steps, Walk};

// A row, where the version has one, and where the listing goes on.
#[derive(Drop)]
struct NameTurn {
    row: Option<PageRow>,
    next: Spot,
}

fn is_late_one(ask: &Ask, version: &Version) -> bool
    ensures { result ≡ is_late ask.now version.now }
{
    let late = ask.start_num.is_some_and(|num| num < version.num);
    late && version.name.get().as_bytes() == ask.start.get().as_bytes()
}

// The row of an upload that counts.
fn upload_turn(alloc: Global, ask: &Ask, version: &Version, place: Spot) -> Result<NameTurn, Memory>
    requires { IsDelimiter ask.now.delimiter }
    ensures row { IfOk result (λ t. t.row ≡ row_by action.Upload ask.now version.now) }
    ensures next { IfOk result (λ t. t.next ≡ next_by action.Upload ask.now version.now) }
{
    let name = version.name.get();
    if let Some(folder) = folder_under(ask, name) {
        let turn = folder_turn(alloc, ask.bucket, folder, place)?;
        return Ok(NameTurn {
            row: Some(turn.row),
            next: turn.next,
        });
    }
    let next = past_name(place, ask.bucket, name.as_bytes())?;
    if is_late_one(ask, version) {
        return Ok(NameTurn { row: None, next });
    }
    let row = PageRow::File(Text::copy(alloc, name)?, version.num);
    Ok(NameTurn {
        row: Some(row),
        next,
    })
}

// The turn of a version. The place after it takes the memory of the one before.
fn name_turn(alloc: Global, ask: &Ask, version: &Version, place: Spot) -> Result<NameTurn, Memory>
    requires { IsDelimiter ask.now.delimiter }
    ensures row { IfOk result (λ t. t.row ≡ row_by version.now.action ask.now version.now) }
    ensures next { IfOk result (λ t. t.next ≡ next_by version.now.action ask.now version.now) }
{
    match version.action {
        Action::Upload => upload_turn(alloc, ask, version, place),
        Action::Hide => {
            let name = version.name.get();
            let next = past_name(place, ask.bucket, name.as_bytes())?;
            Ok(NameTurn { row: None, next })
        }
        Action::Start => {
            let name = version.name.get();
            let next = past_version(place, ask.bucket, name.as_bytes(), version.num)?;
            Ok(NameTurn { row: None, next })
        }
    }
}

// The rows of a page and the one after them, as far as there are any.
fn names_from<L: Ledger>(
    alloc: Global,
    index: &Index<Version>,
    ask: &Ask,
    size: usize,
    steps: &mut Steps<L>,
) -> Result<Vec<PageRow>, Memory>
    requires own { AreOwn index.now }
    requires delimiter { IsDelimiter ask.now.delimiter }
    requires size { size ≤ 1000 }
    ensures rows { IfOk result (λ rows. rows.items ≡ take (size + 1) (map page_row
        (asked_rows (listing_of ask.now)
        (visible_versions (of_bucket ask.now.bucket index.now))))) }
    ensures steps { IfOk result (λ rows. steps.new ≤ steps.old + length (take size rows.items) + 2
        + length (passed_over ask.now (of_bucket ask.now.bucket index.now)
        (slice_get rows.items size))) }
{
    index.in_order();
    let mut place = first_place(alloc, ask, None)?;
    let mut walk = Walk::new(index);
    let mut rows = Vec::new(alloc);
    'rows: while rows.len() <= size {
        let Some((_, version)) = walk.seek(&place, steps) else {
            return Ok(rows);
        };
        if !is_prefix(ask.prefix.get().as_bytes(), version.name.get().as_bytes()) {
            return Ok(rows);
        }
        let turn = name_turn(alloc, ask, version, place)?;
        place = turn.next;
        push_some(&mut rows, turn.row)?;
    }
    Ok(rows)
}

/// The page of names that is asked for, in at most two steps more than the rows that it has and
/// those that it passes over.
pub fn names_page<L: Ledger>(
    alloc: Global,
    index: &Index<Version>,
    ask: &Ask,
    steps: &mut Steps<L>,
) -> Result<Page, Memory>
    requires own { AreOwn index.now }
    requires delimiter { IsDelimiter ask.now.delimiter }
    ensures page { IfOk result (λ page. page ≡ shown_page (listing_page (listing_of ask.now)
        (visible_versions (of_bucket ask.now.bucket index.now)))) }
    ensures steps { IfOk result (λ page. steps.new ≤ steps.old + length page.rows + 2
        + length (passed_over ask.now (of_bucket ask.now.bucket index.now) page.next)) }
{
    let size = page_size(ask.max);
    let rows = names_from(alloc, index, ask, size, steps)?;
    Ok(Page::of(rows, size))
}
