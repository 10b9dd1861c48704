//! How much a state holds.

ghost use Rattle.std.specs.Prelude.{◌≡◌, if◌then◌else◌, length};
ghost use Rattle.std.specs.Option.{option_copied};
ghost use Rattle.b2_model.specs.Kinds.{is_start, is_upload};
ghost use Rattle.core_snapshots.specs.Newest.{is_newest, is_of_name, newest_after, shows};
ghost use Rattle.core_snapshots.specs.Visible.{visible_names};

use crate::numbered::all_rows;
use b2_types::{Action, Version};
use core_state::Core;
use std::alloc::Global;

fn is_start(version: &Version) -> bool
    ensures { result ≡ is_start version.now.action }
{
    matches!(version.action, Action::Start)
}

fn is_upload(version: &Version) -> bool
    ensures { result ≡ is_upload version.now.action }
{
    matches!(version.action, Action::Upload)
}

// Whether both are versions of one name.
fn is_of_name(first: &Version, second: &Version) -> bool
    ensures { result ≡ is_of_name first.now second.now }
{
    (first.bucket == second.bucket) & (first.name.get().as_bytes() == second.name.get().as_bytes())
}

// Whether the version is the first of its name that is no start. `last` is the last version before
// it that was.
fn is_newest(last: Option<&Version>, version: &Version) -> bool
    ensures { result ≡ is_newest (option_copied last.entry) version.now }
{
    match last {
        Some(first) => !is_start(version) & !is_of_name(first, version),
        None => !is_start(version),
    }
}

// The last version that was the first of its name, once this one is passed.
fn newest_after<'a>(last: Option<&'a Version>, version: &'a Version) -> Option<&'a Version>
    ensures { option_copied result ≡ newest_after (option_copied last.entry) version.now }
{
    if is_newest(last, version) {
        Some(version)
    } else {
        last
    }
}

// One where the version makes its name visible.
fn shown_by(last: Option<&Version>, version: &Version) -> u64
    ensures { result ≡ (if shows (option_copied last.entry) version.now then 1 else 0) }
{
    if is_upload(version) & is_newest(last, version) {
        1
    } else {
        0
    }
}

/// How many versions there are, and how many names are visible: one walk over the index, which takes
/// no memory.
pub fn counts(alloc: Global, core: &Core) -> (u64, u64)
    ensures versions { result.0 ≡ length core.now.versions }
    ensures names { result.1 ≡ visible_names core.now }
{
    core.is_sound();
    let versions = core.count() as u64;
    let mut names = 0;
    let mut last = None;
    for (_, version) in all_rows(alloc, core) {
        names += shown_by(last, version);
        last = newest_after(last, version);
    }
    (versions, names)
}
