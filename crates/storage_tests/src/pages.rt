//! Pages of a few versions.

ghost use Rattle.std.specs.Prelude.{◌≡◌, ◌<◌, IfOk};
ghost use Rattle.index_rows.specs.OwnRows.{AreOwn, spot_of};
ghost use Rattle.listing_pages.specs.PageOf.{IsDelimiter};
ghost use Rattle.listing_pages.specs.Few.{spot_at};
ghost use Rattle.listing_pages.specs.Unfinished.{AreStarts};

use b2_base::{Blob, BucketNum, List, Memory, Moment, Text, VersionNum};
use b2_types::{Action, Mark, Version};
use listing_pages::{Ask, Page, PageRow, names_page, start_place, unfinished_page, versions_page};
use name_rules::{FileName, InfoPairs, file_name, info_pairs};
use std::alloc::Global;
use std::marker::Brand;
use std::sync::ledger::{Blank, Ledger};
use std::test::Fail;
use version_index::{Index, Spot, Steps};

// A bucket's versions by name and number: each name with an upload on top, but where it is said.
const ROWS: [(&str, u64, Action); 8] = [
    ("a", 1, Action::Upload),
    ("a", 7, Action::Start),
    ("d/x", 2, Action::Upload),
    ("d/y", 3, Action::Upload),
    ("d/y", 6, Action::Upload),
    ("e", 4, Action::Upload),
    ("f", 5, Action::Upload),
    ("f", 8, Action::Hide),
];

pub fn no_info(alloc: Global) -> Result<InfoPairs, Memory> {
    info_pairs(alloc, &[]).ok().ok_or(Memory)
}

fn name_of(alloc: Global, name: &str) -> Result<FileName, Memory>
    ensures { IfOk result (λ n. n ≡ name.now) }
{
    file_name(alloc, name.as_bytes()).ok().ok_or(Memory)
}

pub fn bucket() -> BucketNum
    ensures { result ≡ 1 }
{
    match BucketNum::new(1) {
        Some(bucket) => bucket,
        None => unreachable!(),
    }
}

pub fn version(
    alloc: Global,
    name: &str,
    num: VersionNum,
    action: Action,
) -> Result<Version, Memory>
    ensures spot { IfOk result (λ v. spot_of v ≡ spot_at name.now num) }
    ensures num { IfOk result (λ v. v.num ≡ num) }
{
    let info = no_info(alloc)?;
    let name = name_of(alloc, name)?;
    let kind = Text::copy(alloc, "text/plain")?;
    Ok(Version {
        bucket: bucket(),
        num,
        name,
        action,
        stamp: Moment::from_reading(0),
        kind,
        info,
        content: List::of(Vec::new(alloc)),
        mark: Mark::Verified,
        digest: [0; 20],
        retention: None,
        hold: false,
        parts: List::of(Vec::new(alloc)),
    })
}

/// Puts the version at its spot, where nothing stands.
pub fn put(
    alloc: Global,
    index: &mut Index<Version>,
    name: &str,
    version: Version,
) -> Result<(), Memory>
    requires own { AreOwn index.old }
    requires spot { spot_of version ≡ spot_at name.now version.num }
    ensures { AreOwn index.new }
{
    let place = Blob::copy(alloc, name.as_bytes())?;
    let spot = Spot {
        bucket: bucket(),
        name: place,
        num: version.num,
    };
    if index.get(&spot).is_some() {
        return Ok(());
    }
    match index.insert(spot, version) {
        Ok(()) => {}
        Err(_) => return Err(Memory),
    }
    Ok(())
}

fn few_versions(alloc: Global) -> Result<Index<Version>, Memory>
    ensures { IfOk result (λ index. AreOwn index) }
{
    let mut index = Index::new(alloc);
    for (name, num, action) in ROWS {
        let num = VersionNum::new(num).ok_or(Memory)?;
        let version = version(alloc, name, num, action)?;
        put(alloc, &mut index, name, version)?;
    }
    Ok(index)
}

// What is asked for: a prefix, a delimiter that is empty where there is none, a start, the number of the
// start, 0 for none, and how many.
type Want<'a> = (&'a str, &'a str, &'a str, u64, u32);

fn ask(alloc: Global, want: Want<'_>) -> Result<Ask, Memory>
    ensures { IfOk result (λ a. IsDelimiter a.delimiter) }
{
    let (prefix, delimiter, start, start_num, max) = want;
    let prefix = Text::copy(alloc, prefix)?;
    let start = Text::copy(alloc, start)?;
    let delimiter = if delimiter.is_empty() {
        None
    } else {
        Some(Text::copy(alloc, delimiter)?)
    };
    let start_num = if start_num == 0 {
        None
    } else {
        VersionNum::new(start_num)
    };
    Ok(Ask {
        bucket: bucket(),
        prefix,
        delimiter,
        start,
        start_num,
        max,
    })
}

fn push_row(text: &mut String, row: &PageRow) -> Result<(), Memory> {
    match row {
        PageRow::File(name, num) => {
            text.push_str(name.get())?;
            text.push('.')?;
            push_digit(text, num.get())
        }
        PageRow::Folder(name) => {
            text.push_str(name.get())?;
            Ok(())
        }
    }
}

fn push_digit(text: &mut String, num: u64) -> Result<(), Memory> {
    text.push(char::from_digit((num % 10) as u32, 10).unwrap_or('?'))?;
    text.push(' ')?;
    Ok(())
}

// The rows one after the other, and the name of the next after a bar.
fn shown(alloc: Global, page: &Page) -> Result<String, Memory> {
    let mut text = String::new(alloc);
    for row in page.rows() {
        push_row(&mut text, row)?;
    }
    if let Some((name, _)) = page.next() {
        text.push('|')?;
        text.push_str(name)?;
    }
    Ok(text)
}

// The page of names, or that of versions.
fn page<L: Ledger>(
    alloc: Global,
    index: &Index<Version>,
    are_names: bool,
    ask: &Ask,
    steps: &mut Steps<L>,
) -> Result<Page, Memory>
    requires own { AreOwn index.now }
    requires delimiter { IsDelimiter ask.now.delimiter }
{
    if are_names {
        names_page(alloc, index, ask, steps)
    } else {
        versions_page(alloc, index, ask, steps)
    }
}

fn listed_in<L: Ledger>(
    alloc: Global,
    index: &Index<Version>,
    blank: Blank,
    are_names: bool,
    want: Want<'_>,
) -> Result<String, Memory>
    requires own { AreOwn index.now }
    requires name { blank.name ≡ L.name }
    requires parts { blank.parts ≡ L.parts }
    requires some { 0 < L.parts }
{
    let mut steps = Steps::<L>::new(blank);
    let ask = ask(alloc, want)?;
    let page = page(alloc, index, are_names, &ask, &mut steps)?;
    shown(alloc, &page)
}

// The page of the few versions.
fn listed<L: Ledger>(
    alloc: Global,
    blank: Blank,
    are_names: bool,
    want: Want<'_>,
) -> Result<String, Memory>
    requires name { blank.name ≡ L.name }
    requires parts { blank.parts ≡ L.parts }
    requires some { 0 < L.parts }
{
    match few_versions(alloc) {
        Ok(index) => listed_in::<L>(alloc, &index, blank, are_names, want),
        Err(_) => Err(Memory),
    }
}

fn put_start(
    alloc: Global,
    starts: &mut Index<FileName>,
    name: &str,
    num: VersionNum,
) -> Result<(), Memory>
    requires { AreStarts starts.old }
    ensures { AreStarts starts.new }
{
    let spot = start_place(alloc, bucket(), num);
    if starts.get(&spot).is_some() {
        return Ok(());
    }
    let name = name_of(alloc, name)?;
    match starts.insert(spot, name) {
        Ok(()) => {}
        Err(_) => return Err(Memory),
    }
    Ok(())
}

fn few_starts(alloc: Global) -> Result<Index<FileName>, Memory>
    ensures { IfOk result (λ starts. AreStarts starts) }
{
    let mut starts = Index::new(alloc);
    for (name, num) in [("b/c", 9), ("a", 7), ("b", 3)] {
        let num = VersionNum::new(num).ok_or(Memory)?;
        put_start(alloc, &mut starts, name, num)?;
    }
    Ok(starts)
}

// The page of unfinished files.
fn unfinished<L: Ledger>(alloc: Global, blank: Blank, want: Want<'_>) -> Result<String, Memory>
    requires name { blank.name ≡ L.name }
    requires parts { blank.parts ≡ L.parts }
    requires some { 0 < L.parts }
{
    let mut steps = Steps::<L>::new(blank);
    let starts = few_starts(alloc)?;
    let ask = ask(alloc, want)?;
    let page = unfinished_page(alloc, &starts, &ask, &mut steps)?;
    shown(alloc, &page)
}

#[test]
fn pages_of_names(rt: HostRuntime) -> Result<(), Fail> {
    let rows: [(Want<'_>, &str); 9] = [
        (("", "", "", 0, 0), "a.1 d/x.2 d/y.6 e.4 "),
        (("", "/", "", 0, 0), "a.1 d/e.4 "),
        (("", "/", "d/x", 0, 0), "e.4 "),
        (("", "/", "b", 0, 0), "d/e.4 "),
        (("", "/", "d/", 0, 0), "d/e.4 "),
        (("", "/", "", 0, 2), "a.1 d/|e"),
        (("", "/", "e", 0, 2), "e.4 "),
        (("d/", "", "", 0, 0), "d/x.2 d/y.6 "),
        (("d/", "/", "", 0, 1), "d/x.2 |d/y"),
    ];
    for (want, told) in rows {
        let text = listed::<Brand>(rt.alloc(), Blank::new(1), true, want)
            .ok()
            .ok_or("memory")?;
        assert_eq!(rt; text.as_str(), told);
    }
    Ok(())
}

#[test]
fn pages_of_versions(rt: HostRuntime) -> Result<(), Fail> {
    let rows: [(Want<'_>, &str); 4] = [
        (("", "", "", 0, 0), "a.7 a.1 d/x.2 d/y.6 d/y.3 e.4 f.8 f.5 "),
        (("", "/", "", 0, 3), "a.7 a.1 d/|e"),
        (("", "", "d/y", 3, 2), "d/y.3 e.4 |f"),
        (("f", "", "", 0, 1), "f.8 |f"),
    ];
    for (want, told) in rows {
        let text = listed::<Brand>(rt.alloc(), Blank::new(1), false, want)
            .ok()
            .ok_or("memory")?;
        assert_eq!(rt; text.as_str(), told);
    }
    Ok(())
}

#[test]
fn pages_of_unfinished(rt: HostRuntime) -> Result<(), Fail> {
    let rows: [(Want<'_>, &str); 4] = [
        (("", "", "", 0, 0), "b.3 a.7 b/c.9 "),
        (("", "", "", 0, 2), "b.3 a.7 |b/c"),
        (("b", "", "", 0, 0), "b.3 b/c.9 "),
        (("", "", "", 4, 1), "a.7 |b/c"),
    ];
    for (want, told) in rows {
        let text = unfinished::<Brand>(rt.alloc(), Blank::new(1), want)
            .ok()
            .ok_or("memory")?;
        assert_eq!(rt; text.as_str(), told);
    }
    Ok(())
}
