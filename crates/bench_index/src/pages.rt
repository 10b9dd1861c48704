//! Pages of versions.

ghost use Rattle.std.specs.Prelude.{◌≡◌, ◌<◌, IfSome};
ghost use Rattle.index_rows.specs.OwnRows.{AreOwn};
ghost use Rattle.listing_pages.specs.PageOf.{IsDelimiter};

use crate::names::{name_at, place_at};
use b2_base::{BucketNum, Text};
use b2_types::Version;
use listing_pages::{Ask, names_page, versions_page};
use std::alloc::Global;
use std::sync::ledger::{Blank, Ledger};
use version_index::{Index, Steps};

/// How many rows a page has.
const PAGE: u32 = 1_000;

/// What pages show.
#[derive(Clone, Copy, Debug, PartialEq, Eq)]
pub enum Shown {
    Names,
    /// All folders: there are as many as a page has rows.
    Folders,
    Versions,
}

// The page from a place on that has so many rows after it; with folders the page from the first on.
fn ask(alloc: Global, shown: Shown, turn: u64, rows: u64) -> Option<Ask>
    ensures { IfSome result (λ a. IsDelimiter a.delimiter) }
{
    let place = place_at(turn, rows.saturating_sub(u64::from(PAGE)).max(1));
    let start = String::from_utf8(name_at(alloc, place, rows)?).ok()?;
    let (start, delimiter) = match shown {
        Shown::Folders => (
            Text::copy(alloc, "").ok()?,
            Some(Text::copy(alloc, "/").ok()?),
        ),
        Shown::Names | Shown::Versions => (Text::of(start), None),
    };
    Some(Ask {
        bucket: BucketNum::new(1)?,
        prefix: Text::copy(alloc, "").ok()?,
        delimiter,
        start,
        start_num: None,
        max: PAGE,
    })
}

// How many rows the page of this turn has.
fn page<L: Ledger>(
    alloc: Global,
    index: &Index<Version>,
    shown: Shown,
    ask: &Ask,
    steps: &mut Steps<L>,
) -> Option<usize>
    requires own { AreOwn index.now }
    requires delimiter { IsDelimiter ask.now.delimiter }
{
    match shown {
        Shown::Names | Shown::Folders => {
            let page = names_page(alloc, index, ask, steps).ok()?;
            Some(page.rows().len())
        }
        Shown::Versions => {
            let page = versions_page(alloc, index, ask, steps).ok()?;
            Some(page.rows().len())
        }
    }
}

/// So many pages from one place after the other, and how many rows they have together.
pub fn pages<L: Ledger>(
    alloc: Global,
    index: &Index<Version>,
    shown: Shown,
    blank: Blank,
    rows: u64,
    times: u64,
) -> Option<u64>
    requires own { AreOwn index.now }
    requires name { blank.name ≡ L.name }
    requires parts { blank.parts ≡ L.parts }
    requires some { 0 < L.parts }
{
    let mut steps = Steps::<L>::new(blank);
    let mut sum = 0u64;
    for turn in 0..times {
        let ask = ask(alloc, shown, turn, rows)?;
        let count = page(alloc, index, shown, &ask, &mut steps)?;
        sum = sum.wrapping_add(count as u64);
    }
    Some(sum)
}
