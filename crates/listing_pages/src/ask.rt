//! What a listing asks for.

ghost use Rattle.std.specs.Prelude.{◌≡◌, ◌≤◌, Some};
ghost use Rattle.b2_model.specs.Pages.{most_rows, page_size};

use b2_base::{BucketNum, Text, VersionNum};

/// What a listing of files asks for.
#[derive(Drop)]
pub struct Ask {
    pub bucket: BucketNum,
    pub prefix: Text,
    /// Not empty.
    pub delimiter: Option<Text>,
    /// Empty where the listing begins with the first name.
    pub start: Text,
    pub start_num: Option<VersionNum>,
    /// How many rows; 0 where it is not said.
    pub max: u32,
}

/// How many rows a page has at most.
const MOST_ROWS: u32 = 1000;

/// How many rows a page has where no number is asked for.
const USUAL_ROWS: u32 = 100;

/// How many rows a page has at most that is asked for with this number.
pub(crate) fn page_size(max: u32) -> usize
    ensures size { result ≡ page_size most_rows (Some max) }
    ensures most { result ≤ 1000 }
{
    let asked = if max == 0 { USUAL_ROWS } else { max };
    asked.min(MOST_ROWS) as usize
}
