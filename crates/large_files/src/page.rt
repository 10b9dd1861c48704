//! Pages of the parts of a large file.

ghost use Rattle.std.specs.Prelude.{◌≡◌, ◌<◌, nat_le, filter, Some, IfOk, unwrap_or};
ghost use Rattle.std.specs.List.{AllPairs};
ghost use Rattle.b2_base.specs.declared.extent.Extent.{Extent as TheExtent};
ghost use Rattle.b2_types.specs.declared.call.ListParts.{ListParts as TheCall};
ghost use Rattle.b2_model.specs.Checks.{first_fault};
ghost use Rattle.b2_model.specs.State.{State};
ghost use Rattle.b2_model.specs.Rows.{version_at};
ghost use Rattle.b2_model.specs.AskLarge.{list_parts};
ghost use Rattle.b2_model.specs.Pages.{most_rows, page_of, page_size, parts_page};
ghost use Rattle.new_versions.specs.Decided.{extent_len, refused};
ghost use Rattle.large_files.specs.Refusals.{large_fault};
ghost use Rattle.large_files.specs.Pages.{page};

use crate::part::is_large;
use crate::refusal::NotLarge;
use b2_types::{Part, Version};

/// The most parts of a page.
const MOST_ROWS: usize = 1000;

/// The parts of a page where none or 0 are asked for.
const GIVEN_ROWS: usize = 100;

/// Parts by number, and the one after them.
#[derive(Clone, Copy)]
pub struct PartsPage<'a> {
    pub rows: &'a [Part],
    pub next: Option<&'a Part>,
}

fn page_size(asked: Option<u32>) -> usize
    ensures { result ≡ page_size most_rows asked }
{
    match asked {
        None | Some(0) => GIVEN_ROWS,
        Some(rows) => (rows as usize).min(MOST_ROWS),
    }
}

// The parts from this number on.
fn rows_from(parts: &[Part], start: u32) -> &[Part]
    requires { AllPairs (λ p q. p.number < q.number) parts.now }
    ensures { result.now ≡ filter (λ p. nat_le start p.number) parts.now }
{
    let from = parts.partition_point(|part| part.number < start);
    &parts[from..]
}

// So many of the rows, and the one after them.
fn first_of(rows: &[Part], size: usize) -> PartsPage<'_>
    ensures { page result ≡ page_of size rows.now }
{
    let end = size.min(rows.len());
    PartsPage {
        rows: &rows[..end],
        next: rows.get(size),
    }
}

/// The parts from this number on of a large file that is under way.
pub fn parts_page(
    version: &Version,
    start: Option<u32>,
    asked: Option<u32>,
) -> Result<PartsPage<'_>, NotLarge>
    requires { AllPairs (λ p q. p.number < q.number) version.now.parts }
    ensures rules { (M : State TheExtent) (c : TheCall)
        → version_at M c.bucket c.file ≡ Some version.now
        → refused large_fault result ≡ first_fault (list_parts extent_len M c).own }
    ensures page { IfOk result
        (λ p. page p ≡ parts_page version.now (unwrap_or start 0) asked) }
{
    if !is_large(version) {
        return Err(NotLarge);
    }
    let rows = rows_from(version.parts.get(), start.unwrap_or(0));
    Ok(first_of(rows, page_size(asked)))
}
