//! The current version of a name.

ghost use Rattle.std.specs.Prelude.{◌≡◌, ◌<◌, ◌+◌, IfOk, MatchOption, bytes_eq};
ghost use Rattle.std.specs.Option.{option_copied};
ghost use Rattle.b2_model.specs.Current.{current_in};
ghost use Rattle.b2_model.specs.Kinds.{is_start};
ghost use Rattle.index_rows.specs.OwnRows.{AreOwn, of_bucket};

use b2_base::{Blob, BucketNum, Memory, VersionNum};
use b2_types::{Action, Version};
use std::alloc::Global;
use std::sync::ledger::{Blank, Ledger};
use version_index::{Index, Steps, first_spot};

fn is_start(version: &Version) -> bool
    ensures { result ≡ is_start version.now.action }
{
    matches!(version.action, Action::Start)
}

fn is_named(version: &Version, name: &[u8]) -> bool
    ensures { result ≡ bytes_eq version.now.name name.now }
{
    version.name.get().as_bytes() == name
}

// The number below.
fn below(num: VersionNum) -> Option<VersionNum>
    ensures { MatchOption result (num ≡ 0) (λ lower. num ≡ lower + 1) }
{
    VersionNum::new(num.get().checked_sub(1)?)
}

// The first row of a name that is no start: a seek for it, and one for each start before it.
pub(crate) fn current_of<'a, L: Ledger>(
    alloc: Global,
    index: &'a Index<Version>,
    blank: Blank,
    bucket: BucketNum,
    name: &[u8],
) -> Result<Option<&'a Version>, Memory>
    requires name { blank.name ≡ L.name }
    requires parts { blank.parts ≡ L.parts }
    requires some { 0 < L.parts }
    requires own { AreOwn index.now }
    ensures { IfOk result
        (λ v. option_copied v ≡ current_in (of_bucket bucket index.now) name.now) }
{
    index.in_order();
    let mut steps = Steps::<L>::new(blank);
    let mut place = first_spot(alloc, bucket);
    place.name = Blob::copy(alloc, name)?;
    'starts: while let Some((_, version)) = index.seek(&place, &mut steps) {
        if !is_named(version, name) {
            return Ok(None);
        }
        if !is_start(version) {
            return Ok(Some(version));
        }
        let Some(num) = below(version.num) else {
            return Ok(None);
        };
        place.num = num;
    }
    Ok(None)
}
