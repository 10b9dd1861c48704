//! What the calls that list files ask for.

ghost use Rattle.std.specs.Prelude.{◌≡◌, [], IfOk, unwrap_or};
ghost use Rattle.listing_pages.specs.PageOf.{IsDelimiter};
ghost use Rattle.core_listings.specs.Rows.{files_asked, starts_asked};

use b2_base::{BucketNum, Memory, Text};
use b2_types::{ListFiles, ListUnfinished};
use listing_pages::Ask;
use std::alloc::Global;

fn text_or_empty(alloc: Global, text: &Option<Text>) -> Result<Text, Memory>
    ensures { IfOk result (λ t. t ≡ unwrap_or text.now []) }
{
    match text {
        Some(text) => Text::copy(alloc, text.get()),
        None => Ok(Text::of(String::new(alloc))),
    }
}

// A delimiter that is given is not empty where a call was read. An empty one, which has no page, is
// answered like want of memory.
fn delimiter_of(alloc: Global, text: &Option<Text>) -> Result<Option<Text>, Memory>
    ensures same { IfOk result (λ d. d ≡ text.now) }
    ensures some { IfOk result IsDelimiter }
{
    let Some(text) = text else {
        return Ok(None);
    };
    if text.get().is_empty() {
        return Err(Memory);
    }
    Ok(Some(Text::copy(alloc, text.get())?))
}

/// The page of files that a call asks for.
pub(crate) fn ask_files(alloc: Global, bucket: BucketNum, call: &ListFiles) -> Result<Ask, Memory>
    ensures asked { IfOk result (λ a. a ≡ files_asked bucket call.now) }
    ensures delimiter { IfOk result (λ a. IsDelimiter a.delimiter) }
{
    let prefix = text_or_empty(alloc, &call.prefix)?;
    let delimiter = delimiter_of(alloc, &call.delimiter)?;
    let start = text_or_empty(alloc, &call.start)?;
    Ok(Ask {
        bucket,
        prefix,
        delimiter,
        start,
        start_num: call.start_file,
        max: call.max.unwrap_or(0),
    })
}

/// The page of unfinished large files that a call asks for.
pub(crate) fn ask_starts(
    alloc: Global,
    bucket: BucketNum,
    call: &ListUnfinished,
) -> Result<Ask, Memory>
    ensures { IfOk result (λ a. a ≡ starts_asked bucket call.now) }
{
    let prefix = text_or_empty(alloc, &call.prefix)?;
    Ok(Ask {
        bucket,
        prefix,
        delimiter: None,
        start: Text::of(String::new(alloc)),
        start_num: call.start,
        max: call.max.unwrap_or(0),
    })
}
