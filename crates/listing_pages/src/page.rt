//! Pages of listings.

ghost use Rattle.std.specs.Prelude.{◌≡◌, ◌≤◌, ◌+◌, ◌++◌, OnOk, length, option_map};
ghost use Rattle.std.specs.Option.{option_to_list};
ghost use Rattle.b2_model.specs.Pages.{page_of};
ghost use Rattle.listing_pages.specs.PageOf.{row_place};

use b2_base::{Memory, Text, VersionNum};
use std::marker::Model;

/// A row of a page: a version with its name and number, or a folder.
#[derive(Drop)]
pub enum PageRow {
    File(Text, VersionNum),
    Folder(Text),
}

/// Adds the row, where there is one.
pub(crate) fn push_some(rows: &mut Vec<PageRow>, row: Option<PageRow>) -> Result<(), Memory>
    ensures { OnOk result (rows.new.items ≡ rows.old.items ++ option_to_list row) }
{
    if let Some(row) = row {
        rows.push(row)?;
    }
    Ok(())
}

/// Rows of a listing, and the row after them.
#[derive(Drop)]
pub struct Page {
    rows: Vec<PageRow>,
    next: Option<PageRow>,
}

impl Model for Page {
    ghost use Rattle.b2_model.specs.Pages.{Page as ThePage};
    ghost use Rattle.listing_pages.specs.declared.page.PageRow.{PageRow as TheRow};

    ghost Value = { ThePage TheRow };

    ghost view = { λ p. record { rows = p.rows.items; next = p.next } };
}

impl Page {
    /// The first rows, and the one after them as the next. There is no other.
    pub(crate) fn of(rows: Vec<PageRow>, size: usize) -> Page
        requires { length rows.items ≤ size + 1 }
        ensures { result ≡ page_of size rows.items }
    {
        let mut rows = rows;
        let next = if rows.len() > size { rows.pop() } else { None };
        Page { rows, next }
    }

    /// The rows in listing order.
    pub fn rows(&self) -> &[PageRow]
        ensures { result.now ≡ self.now.rows }
    {
        &self.rows
    }

    /// The name and the number of the row after them, where there is one; a folder has the number 0.
    pub fn next(&self) -> Option<(&str, VersionNum)>
        ensures { option_map (λ r. (r.0.now, r.1)) result ≡ option_map row_place self.now.next }
    {
        match &self.next {
            None => None,
            Some(PageRow::File(name, num)) => Some((name.get(), *num)),
            Some(PageRow::Folder(name)) => {
                let num = VersionNum::new(0)?;
                Some((name.get(), num))
            }
        }
    }

    /// The row after them, where there is one.
    pub fn next_row(&self) -> Option<&PageRow>
        ensures { option_map (λ r. r.now) result ≡ self.now.next }
    {
        self.next.as_ref()
    }
}
