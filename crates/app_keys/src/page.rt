//! Pages of keys.

ghost use Rattle.std.specs.Prelude.{◌≡◌, IfOk};
ghost use Rattle.std.specs.Map.{values_of};
ghost use Rattle.b2_base.specs.declared.extent.Extent.{Extent as TheExtent};
ghost use Rattle.b2_model.specs.State.{State};
ghost use Rattle.b2_model.specs.Pages.{keys_page, most_rows, page_of, page_size};
ghost use Rattle.app_keys.specs.Pages.{AreByNumber, page};

use b2_base::{KeyNum, Memory};
use b2_types::Key;
use std::alloc::Global;
use std::collections::BTreeMap;
use std::collections::btree_map::Range;

/// The most keys of a page.
const MOST_ROWS: usize = 1000;

/// The keys of a page where none or 0 are asked for.
const GIVEN_ROWS: usize = 100;

/// Keys by number, and the one after them.
#[derive(Drop)]
pub struct KeyPage<'a> {
    pub rows: Vec<&'a Key>,
    pub next: Option<&'a Key>,
}

fn page_size(asked: Option<u32>) -> usize
    ensures { result ≡ page_size most_rows asked }
{
    match asked {
        None | Some(0) => GIVEN_ROWS,
        Some(rows) => (rows as usize).min(MOST_ROWS),
    }
}

// The first keys that are left, so many, and the one after them.
fn first_of<'a>(
    alloc: Global,
    mut left: Range<'a, u32, Key>,
    size: usize,
) -> Result<KeyPage<'a>, Memory>
    ensures { IfOk result (λ p. page p ≡ page_of size (values_of left.entry)) }
{
    let mut rows = Vec::new(alloc);
    'rows: while rows.len() < size {
        let Some((_, key)) = left.next() else {
            return Ok(KeyPage { rows, next: None });
        };
        rows.push(key)?;
    }
    let next = match left.next() {
        Some((_, key)) => Some(key),
        None => None,
    };
    Ok(KeyPage { rows, next })
}

/// The keys from this number on, without the master key, of keys that stand under their numbers.
pub fn keys_page<'a>(
    alloc: Global,
    keys: &'a BTreeMap<u32, Key>,
    start: KeyNum,
    asked: Option<u32>,
) -> Result<KeyPage<'a>, Memory>
    requires { AreByNumber keys.now.entries }
    ensures { (M : State TheExtent) → M.keys ≡ values_of keys.now.entries
        → IfOk result (λ p. page p ≡ keys_page M start asked) }
{
    let from = start.get().max(1);
    first_of(alloc, keys.range(from..), page_size(asked))
}
