//! Types of files that are known by the ends of their names.

ghost use Rattle.std.specs.Prelude.{◌≡◌};
ghost use Rattle.rule_table.specs.FileKind.{kind_names};

use crate::placed::Placed;
use crate::table::Table;

/// A type of files, by the extension of their names.
#[derive(Clone, Copy, Debug, PartialEq, Eq)]
pub enum FileKind {
    Txt,
    Html,
    Htm,
    Css,
    Csv,
    Js,
    Json,
    Xml,
    Pdf,
    Zip,
    Gz,
    Png,
    Jpg,
    Jpeg,
    Gif,
    Mp4,
}

impl Placed for FileKind {
    ghost use Rattle.std.specs.Prelude.{slice_get};
    ghost use Rattle.rule_table.specs.FileKind.{kind_order, kind_place, kind_there, kind_here};

    ghost place_of = { kind_place };

    ghost at_place = { λ i. slice_get kind_order i };

    ghost there = { kind_there };

    ghost here = { kind_here };

    fn place(&self) -> usize {
        *self as usize
    }

    fn at(place: usize) -> Option<FileKind> {
        [
            FileKind::Txt,
            FileKind::Html,
            FileKind::Htm,
            FileKind::Css,
            FileKind::Csv,
            FileKind::Js,
            FileKind::Json,
            FileKind::Xml,
            FileKind::Pdf,
            FileKind::Zip,
            FileKind::Gz,
            FileKind::Png,
            FileKind::Jpg,
            FileKind::Jpeg,
            FileKind::Gif,
            FileKind::Mp4,
        ]
        .get(place)
        .copied()
    }
}

/// The types of files and their extensions, in lower case.
pub fn types() -> Table<FileKind, 16>
    ensures { result ≡ kind_names }
{
    Table::new(&[
        "txt", "html", "htm", "css", "csv", "js", "json", "xml", "pdf", "zip", "gz", "png", "jpg",
        "jpeg", "gif", "mp4",
    ])
}
