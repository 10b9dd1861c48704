//! Markers that hide a name.

ghost use Rattle.std.specs.Prelude.{◌≡◌, Option as TheOption, Some, option_map};
ghost use Rattle.b2_base.specs.declared.extent.Extent.{Extent as TheExtent};
ghost use Rattle.b2_types.specs.declared.key.Key.{Key as TheKey};
ghost use Rattle.b2_model.specs.State.{State, bucket_at};
ghost use Rattle.b2_model.specs.Current.{current};
ghost use Rattle.b2_model.specs.AskFiles.{hide_file};
ghost use Rattle.new_versions.specs.Decided.{DecidesOr, extent_len, next_number};
ghost use Rattle.new_versions.specs.Refusals.{hide_fault};

use crate::copies::copy_name;
use b2_base::{Moment, Or, VersionNum};
use b2_types::{Action, Bucket, ChangeOf, Fault, HideFile, Record, RecordOf, VersionId};
use rule_table::FaultKind;
use std::alloc::Global;

/// Why a name is not hidden.
#[derive(Clone, Copy, Debug, PartialEq, Eq)]
pub enum HideRefusal {
    /// No version of the name counts.
    NoFile,
    /// The name is hidden already.
    Hidden,
    /// No number of a version is left.
    Cap,
}

/// The refusal as a fault.
pub fn hide_fault(refusal: HideRefusal) -> Fault
    ensures { result ≡ hide_fault refusal }
{
    Fault::plain(match refusal {
        HideRefusal::NoFile => FaultKind::NoFile,
        HideRefusal::Hidden => FaultKind::Hidden,
        HideRefusal::Cap => FaultKind::Cap,
    })
}

/// What a hide comes to, where this is what the current version of the name is: the marker's
/// record, or the first rule of its own that refuses it.
pub fn hide(
    alloc: Global,
    bucket: &Bucket,
    newest: Option<Action>,
    next: Option<VersionNum>,
    t: Moment,
    call: &HideFile,
) -> Result<Record, Or<HideRefusal>>
    ensures { (M : State TheExtent) (key : TheOption TheKey)
        → bucket_at M call.now.bucket ≡ Some bucket.now → next_number M ≡ next
        → option_map (λ v. v.action) (current M bucket.now.num call.now.name) ≡ newest
        → DecidesOr hide_fault t (hide_file extent_len M key t call.now) result }
{
    let Some(action) = newest else {
        return Err(Or::Fault(HideRefusal::NoFile));
    };
    if let Action::Hide = action {
        return Err(Or::Fault(HideRefusal::Hidden));
    }
    let Some(num) = next else {
        return Err(Or::Fault(HideRefusal::Cap));
    };
    let name = copy_name(alloc, &call.name)?;
    let id = VersionId {
        bucket: bucket.num,
        num,
    };
    Ok(RecordOf {
        at: t,
        change: ChangeOf::Hide(id, name),
    })
}
