//! Pages of the state in memory.

ghost use Rattle.std.specs.Prelude.{◌≡◌, ◌<◌, IfOk, Some, unwrap_or};
ghost use Rattle.b2_model.specs.Pages.{names_page, unfinished_page, versions_page};
ghost use Rattle.listing_pages.specs.PageOf.{IsDelimiter, listing_of, shown_page};
ghost use Rattle.listing_pages.specs.Unfinished.{shown_starts};

use b2_base::Memory;
use core_state::Core;
use listing_pages::{Ask, Page, names_page, unfinished_page, versions_page};
use std::alloc::Global;
use std::sync::ledger::{Blank, Ledger};
use version_index::Steps;

/// The page of versions.
pub(crate) fn page_of_versions<L: Ledger>(
    alloc: Global,
    core: &Core,
    ask: &Ask,
    blank: Blank,
) -> Result<Page, Memory>
    requires delimiter { IsDelimiter ask.now.delimiter }
    requires name { blank.name ≡ L.name }
    requires parts { blank.parts ≡ L.parts }
    requires some { 0 < L.parts }
    ensures { IfOk result (λ page. page
        ≡ shown_page (versions_page core.now ask.now.bucket (listing_of ask.now))) }
{
    let mut steps = Steps::<L>::new(blank);
    let page = versions_page(alloc, core.index(), ask, &mut steps)?;
    Ok(page)
}

/// The page of names.
pub(crate) fn page_of_names<L: Ledger>(
    alloc: Global,
    core: &Core,
    ask: &Ask,
    blank: Blank,
) -> Result<Page, Memory>
    requires delimiter { IsDelimiter ask.now.delimiter }
    requires name { blank.name ≡ L.name }
    requires parts { blank.parts ≡ L.parts }
    requires some { 0 < L.parts }
    ensures { IfOk result (λ page. page
        ≡ shown_page (names_page core.now ask.now.bucket (listing_of ask.now))) }
{
    let mut steps = Steps::<L>::new(blank);
    let page = names_page(alloc, core.index(), ask, &mut steps)?;
    Ok(page)
}

/// The page of unfinished large files.
pub(crate) fn page_of_starts<L: Ledger>(
    alloc: Global,
    core: &Core,
    ask: &Ask,
    blank: Blank,
) -> Result<Page, Memory>
    requires name { blank.name ≡ L.name }
    requires parts { blank.parts ≡ L.parts }
    requires some { 0 < L.parts }
    ensures { IfOk result (λ page. page ≡ shown_starts (unfinished_page core.now ask.now.bucket
        ask.now.prefix (unwrap_or ask.now.start_num 0) (Some ask.now.max))) }
{
    let mut steps = Steps::<L>::new(blank);
    let page = unfinished_page(alloc, core.starts(), ask, &mut steps)?;
    Ok(page)
}
