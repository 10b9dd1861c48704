//! Pages of unfinished large files, by number.

ghost use Rattle.std.specs.Prelude.{◌≡◌, ◌≤◌, ◌+◌, [], None, Some, IfOk, if◌then◌else◌, length, map, slice_get, take, unwrap_or};
ghost use Rattle.b2_base.specs.declared.numbers.TheConstants.{LAST_VERSION};
ghost use Rattle.name_rules.specs.Folder.{begins_with};
ghost use Rattle.b2_model.specs.Pages.{page_of, page_size as size_of};
ghost use Rattle.listing_pages.specs.Places.{after_version};
ghost use Rattle.listing_pages.specs.Unfinished.{AreStarts, asked_starts, start_row, start_spot, starts_in, starts_upto};

use crate::ask::Ask;
use crate::page::{Page, PageRow, push_some};
use crate::places::past_name;
use b2_base::{Blob, BucketNum, LAST_VERSION, Memory, Text, VersionNum};
use name_rules::{FileName, is_prefix};
use std::alloc::Global;
use std::sync::ledger::Ledger;
use version_index::{Index, Spot, Steps, Walk, first_spot};

/// How many unfinished files a page has at most, and where no number is asked for.
const MOST_UNFINISHED: u32 = 100;

// How many rows a page of unfinished files has at most.
fn unfinished_size(max: u32) -> usize
    ensures size { result ≡ size_of 100 (Some max) }
    ensures most { result ≤ 100 }
{
    let asked = if max == 0 { MOST_UNFINISHED } else { max };
    asked.min(MOST_UNFINISHED) as usize
}

/// Where the start of a large file stands in an index of starts, whose rows ascend by number.
pub fn start_place(alloc: Global, bucket: BucketNum, num: VersionNum) -> Spot
    ensures { result ≡ start_spot bucket num }
{
    match VersionNum::new(LAST_VERSION - num.get()) {
        Some(num) => Spot {
            bucket,
            name: Blob::of(Vec::new(alloc)),
            num,
        },
        None => unreachable!(),
    }
}

// The place of the rows whose numbers are below this one.
fn place_below(alloc: Global, bucket: BucketNum, below: u64) -> Result<Spot, Memory>
    requires { below ≤ LAST_VERSION + 1 }
    ensures { IfOk result (λ s. s ≡ after_version bucket [] below) }
{
    if below == 0 {
        return past_name(first_spot(alloc, bucket), bucket, b"");
    }
    match VersionNum::new(below - 1) {
        Some(num) => Ok(Spot {
            bucket,
            name: Blob::of(Vec::new(alloc)),
            num,
        }),
        None => unreachable!(),
    }
}

fn start_turn(
    alloc: Global,
    ask: &Ask,
    place: &Spot,
    name: &FileName,
) -> Result<Option<PageRow>, Memory>
    ensures { IfOk result (λ row. row ≡ (if begins_with ask.now.prefix name.now
        then Some (start_row (place.now.num, name.now)) else None)) }
{
    if !is_prefix(ask.prefix.get().as_bytes(), name.get().as_bytes()) {
        return Ok(None);
    }
    match VersionNum::new(LAST_VERSION - place.num.get()) {
        Some(num) => Ok(Some(PageRow::File(Text::copy(alloc, name.get())?, num))),
        None => unreachable!(),
    }
}

// The number that the page begins with.
fn first_number(ask: &Ask) -> u64
    ensures value { result ≡ unwrap_or ask.now.start_num 0 }
    ensures in_range { result ≤ LAST_VERSION }
{
    match ask.start_num {
        Some(num) => num.get(),
        None => 0,
    }
}

// The rows of a page and the one after them, as far as there are any.
fn starts_from<L: Ledger>(
    alloc: Global,
    starts: &Index<FileName>,
    ask: &Ask,
    size: usize,
    steps: &mut Steps<L>,
) -> Result<Vec<PageRow>, Memory>
    requires starts { AreStarts starts.now }
    requires size { size ≤ 100 }
    ensures rows { IfOk result (λ rows. rows.items ≡ take (size + 1) (map start_row
        (asked_starts ask.now.prefix (unwrap_or ask.now.start_num 0)
        (starts_in ask.now.bucket starts.now)))) }
    ensures steps { IfOk result (λ rows. steps.new ≤ steps.old
        + length (starts_upto (unwrap_or ask.now.start_num 0) (slice_get rows.items size)
        (starts_in ask.now.bucket starts.now)) + 1) }
{
    starts.in_order();
    let first = first_number(ask);
    let mut below = LAST_VERSION - first + 1;
    let mut walk = Walk::new(starts);
    let mut rows = Vec::new(alloc);
    'rows: while rows.len() <= size {
        let place = place_below(alloc, ask.bucket, below)?;
        let Some((place, name)) = walk.seek(&place, steps) else {
            return Ok(rows);
        };
        let row = start_turn(alloc, ask, place, name)?;
        push_some(&mut rows, row)?;
        below = place.num.get();
    }
    Ok(rows)
}

/// The page of unfinished files that is asked for: those of the bucket whose names begin with the
/// prefix, by number, from a number on. It takes a step for each start that it looks at, and one
/// more.
pub fn unfinished_page<L: Ledger>(
    alloc: Global,
    starts: &Index<FileName>,
    ask: &Ask,
    steps: &mut Steps<L>,
) -> Result<Page, Memory>
    requires { AreStarts starts.now }
    ensures page { IfOk result (λ page. page ≡ page_of (size_of 100 (Some ask.now.max))
        (map start_row (asked_starts ask.now.prefix (unwrap_or ask.now.start_num 0)
        (starts_in ask.now.bucket starts.now)))) }
    ensures steps { IfOk result (λ page. steps.new ≤ steps.old
        + length (starts_upto (unwrap_or ask.now.start_num 0) page.next
        (starts_in ask.now.bucket starts.now)) + 1) }
{
    let size = unfinished_size(ask.max);
    let rows = starts_from(alloc, starts, ask, size, steps)?;
    Ok(Page::of(rows, size))
}
