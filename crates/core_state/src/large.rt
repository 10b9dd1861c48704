//! Records of the parts and of the content of large files.

ghost use Rattle.std.specs.Prelude.{◌≡◌, ◌==◌, ◌++◌, not, true, find, filter, map, nat_lt, position, option_and_then, option_map, IfOk};
ghost use Rattle.std.specs.List.{position_or_len};
ghost use Rattle.b2_types.specs.declared.record.ChangeOf.TheVariants as change;
ghost use Rattle.b2_model.specs.Changes.{after_record};
ghost use Rattle.b2_model.specs.Finish.{finished_file};
ghost use Rattle.b2_model.specs.Lists.{put_by};
ghost use Rattle.b2_model.specs.Rows.{version_at};
ghost use Rattle.b2_model.specs.Stored.{applies_change};
ghost use Rattle.b2_model.specs.Version.{with_part};
ghost use Rattle.contents_agree.specs.ContentsOf.{contents_in};
ghost use Rattle.core_state.specs.GivenUp.{part_content};

use crate::changed::with_changed;
use crate::state::Core;
use crate::taken::taken;
use b2_base::{Extent, List, Memory, Moment};
use b2_types::{Action, Mark, Part, PartOf, Retention, Version, VersionId};
use std::alloc::{AllocError, Global};

// The contents of the parts, in order.
fn part_contents(alloc: Global, parts: &[Part]) -> Result<Vec<Extent>, AllocError>
    ensures { IfOk result (λ pieces. pieces.items ≡ map (λ p. p.content) parts.now) }
{
    parts.iter().map(|part| part.content).collect(alloc)
}

// The first pieces and then the others.
fn joined(alloc: Global, first: &[Extent], others: &[Extent]) -> Result<List<Extent>, Memory>
    ensures { IfOk result (λ pieces. pieces ≡ first.now ++ others.now) }
{
    let mut pieces = Vec::from_slice(alloc, first)?;
    pieces.extend_from_slice(others)?;
    Ok(List::of(pieces))
}

/// The extents of the version's content and of its parts.
pub fn contents_in(alloc: Global, version: &Version) -> Result<List<Extent>, Memory>
    ensures { IfOk result (λ pieces. pieces ≡ contents_in version.now) }
{
    let parts = part_contents(alloc, version.parts.get())?;
    let pieces = joined(alloc, version.content.get(), &parts)?;
    Ok(pieces)
}

fn copy_part(part: &Part) -> Part
    ensures { result ≡ part.now }
{
    PartOf {
        number: part.number,
        content: part.content,
        mark: part.mark,
        digest: part.digest,
        stamp: part.stamp,
    }
}

// The parts of other numbers.
fn other_parts(alloc: Global, parts: &[Part], number: u32) -> Result<Vec<Part>, Memory>
    ensures { IfOk result (λ others. others.items
        ≡ filter (λ q. not (q.number == number)) parts.now) }
{
    let mut others = Vec::new(alloc);
    for part in parts {
        if part.number != number {
            others.push(copy_part(part))?;
        }
    }
    Ok(others)
}

// The place of the first part of a greater number.
fn first_after(parts: &[Part], number: u32) -> Option<usize>
    ensures { result ≡ position (λ q. nat_lt number q.number) parts.now }
{
    parts.iter().position(|part| number < part.number)
}

// The place of a part of this number among those by number.
fn place_of(parts: &[Part], number: u32) -> usize
    ensures { result ≡ position_or_len (λ q. nat_lt number q.number) parts.now }
{
    first_after(parts, number).unwrap_or(parts.len())
}

// The parts with this one, in the place of that of its number.
fn parts_with(alloc: Global, parts: &[Part], part: Part) -> Result<List<Part>, Memory>
    ensures { IfOk result (λ more. more ≡ put_by (λ q. q.number) part
        (filter (λ q. not (q.number == part.number)) parts.now)) }
{
    let mut others = other_parts(alloc, parts, part.number)?;
    let place = place_of(&others, part.number);
    others.insert(place, part)?;
    Ok(List::of(others))
}

// What the part of this number holds.
fn content_of(version: &Version, number: u32) -> Option<Extent>
    ensures { result ≡ part_content number version.now }
{
    version
        .parts
        .get()
        .iter()
        .find(|part| part.number == number)
        .map(|part| part.content)
}

// The file with this part.
fn with_part(alloc: Global, mut version: Version, part: Part) -> Result<Version, Memory>
    ensures { IfOk result (λ v. v ≡ with_part part version) }
{
    let parts = parts_with(alloc, version.parts.get(), part)?;
    version.parts = parts;
    Ok(version)
}

// The file of the parts, which it has no longer.
fn finished(
    alloc: Global,
    mut version: Version,
    retention: Option<Retention>,
) -> Result<Version, Memory>
    ensures { IfOk result (λ v. v ≡ finished_file retention version) }
{
    let content = part_contents(alloc, version.parts.get())?;
    version.action = Action::Upload;
    version.content = List::of(content);
    version.mark = Mark::Large;
    version.retention = retention;
    version.parts = List::of(Vec::new(alloc));
    Ok(version)
}

// The file with these pieces behind its content.
fn extended(alloc: Global, mut version: Version, pieces: &[Extent]) -> Result<Version, Memory>
    ensures { IfOk result (λ v. v ≡ record version { content = version.content ++ pieces.now }) }
{
    let content = joined(alloc, version.content.get(), pieces)?;
    version.content = content;
    Ok(version)
}

impl Core {
    /// The state after the record of a part, whose moment is the part's, and the extent that the
    /// part of its number held before.
    pub fn put_part(
        self,
        alloc: Global,
        id: VersionId,
        part: Part,
    ) -> Result<(Core, Option<Extent>), Memory>
        requires applies { applies_change self
            (change.PartPut id part.number part.content part.mark part.digest) ≡ true }
        ensures state { IfOk result (λ made. made.0 ≡ after_record self (record {
          at = part.stamp;
          change = change.PartPut id part.number part.content part.mark part.digest;
        })) }
        ensures freed { IfOk result (λ made. made.1
            ≡ option_and_then (part_content part.number) (version_at self id.bucket id.num)) }
    {
        let t = part.stamp;
        let mut parts = self.parts;
        let version = taken(alloc, &mut parts, id);
        let freed = content_of(&version, part.number);
        let version = with_part(alloc, version, part)?;
        let parts = with_changed(alloc, parts, t, version)?;
        Ok((Core { parts }, freed))
    }

    /// The state after the record of a large file that is finished.
    pub fn finish(
        self,
        alloc: Global,
        t: Moment,
        id: VersionId,
        retention: Option<Retention>,
    ) -> Result<Core, Memory>
        requires applies { applies_change self (change.Finish id retention) ≡ true }
        ensures { IfOk result (λ core. core ≡ after_record self
            (record { at = t; change = change.Finish id retention })) }
    {
        let mut parts = self.parts;
        let version = taken(alloc, &mut parts, id);
        let version = finished(alloc, version, retention)?;
        let parts = with_changed(alloc, parts, t, version)?;
        Ok(Core { parts })
    }

    /// The state after the record of more content of a joined large file.
    pub fn put_extents(
        self,
        alloc: Global,
        t: Moment,
        id: VersionId,
        pieces: &[Extent],
    ) -> Result<Core, Memory>
        requires applies { applies_change self (change.SnapExtents id pieces.now) ≡ true }
        ensures { IfOk result (λ core. core ≡ after_record self
            (record { at = t; change = change.SnapExtents id pieces.now })) }
    {
        let mut parts = self.parts;
        let version = taken(alloc, &mut parts, id);
        let version = extended(alloc, version, pieces)?;
        let parts = with_changed(alloc, parts, t, version)?;
        Ok(Core { parts })
    }
}
