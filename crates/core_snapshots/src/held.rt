//! The extents of a state.

ghost use Rattle.std.specs.Prelude.{◌≡◌, ◌++◌, IfOk, OnOk, map};
ghost use Rattle.contents_agree.specs.ContentsOf.{contents_in, contents_of};

use crate::numbered::by_number;
use b2_base::{Extent, Memory};
use b2_types::{Part, Version};
use core_state::Core;
use std::alloc::Global;

// The extents of the parts.
fn add_parts(extents: &mut Vec<Extent>, parts: &[Part]) -> Result<(), Memory>
    ensures { OnOk result
        (extents.new.items ≡ extents.old.items ++ map (λ p. p.content) parts.now) }
{
    for part in parts {
        extents.push(part.content)?;
    }
    Ok(())
}

// The extents of the version's content and of its parts.
fn add_version(extents: &mut Vec<Extent>, version: &Version) -> Result<(), Memory>
    ensures { OnOk result (extents.new.items ≡ extents.old.items ++ contents_in version.now) }
{
    extents.extend_from_slice(version.content.get())?;
    add_parts(extents, version.parts.get())
}

/// The extents of all contents: by version number, then those of the content in order, then by the
/// number of the part.
pub fn extents(alloc: Global, core: &Core) -> Result<Vec<Extent>, Memory>
    ensures { IfOk result (λ extents. extents.items ≡ contents_of core.now) }
{
    let versions = by_number(alloc, core)?;
    let mut extents = Vec::new(alloc);
    for version in &versions {
        add_version(&mut extents, version)?;
    }
    Ok(extents)
}
