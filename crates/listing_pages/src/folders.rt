//! Folders of names.

ghost use Rattle.std.specs.Prelude.{◌≡◌, ◌<◌, IfOk, IfSome, length, option_map};
ghost use Rattle.name_rules.specs.Folder.{folder_in};
ghost use Rattle.listing_pages.specs.PageOf.{IsDelimiter, folder_of_name};
ghost use Rattle.listing_pages.specs.declared.page.PageRow.TheVariants as shown;
ghost use Rattle.listing_pages.specs.Places.{after_folder};

use crate::ask::Ask;
use crate::page::PageRow;
use crate::places::past_folder;
use b2_base::{BucketNum, Memory, Text};
use name_rules::folder_of;
use std::alloc::Global;
use version_index::Spot;

/// A row, and where the listing goes on after all that it stands for.
#[derive(Drop)]
pub(crate) struct Turn {
    pub row: PageRow,
    pub next: Spot,
}

// The folder, which is a text since the delimiter is one.
fn folder_text<'a>(name: &'a str, prefix: &str, delimiter: &str) -> Option<&'a str>
    requires { 0 < length delimiter.now }
    ensures text { option_map (λ f. f.now) result ≡ folder_in prefix.now delimiter.now name.now }
    ensures some { IfSome result (λ f. 0 < length f.now) }
{
    let end = folder_of(name.as_bytes(), prefix.as_bytes(), delimiter.as_bytes())?;
    Some(&name[..end])
}

/// The folder that the name is in.
pub(crate) fn folder_under<'a>(ask: &Ask, name: &'a str) -> Option<&'a str>
    requires { IsDelimiter ask.now.delimiter }
    ensures text { option_map (λ f. f.now) result
        ≡ folder_of_name ask.now.prefix ask.now.delimiter name.now }
    ensures some { IfSome result (λ f. 0 < length f.now) }
{
    let delimiter = ask.delimiter.as_ref()?;
    folder_text(name, ask.prefix.get(), delimiter.get())
}

/// The row of the folder. The place after it takes the memory of the one before.
pub(crate) fn folder_turn(
    alloc: Global,
    bucket: BucketNum,
    folder: &str,
    place: Spot,
) -> Result<Turn, Memory>
    requires { 0 < length folder.now }
    ensures row { IfOk result (λ t. t.row ≡ shown.Folder folder.now) }
    ensures next { IfOk result (λ t. t.next ≡ after_folder bucket folder.now) }
{
    let next = past_folder(place, bucket, folder)?;
    let row = PageRow::Folder(Text::copy(alloc, folder)?);
    Ok(Turn { row, next })
}
