//! The start of a large file.

ghost use Rattle.std.specs.Prelude.{◌≡◌, Option as TheOption, Some, IfOk, false, unwrap_or};
ghost use Rattle.b2_base.specs.declared.extent.Extent.{Extent as TheExtent};
ghost use Rattle.b2_types.specs.declared.key.Key.{Key as TheKey};
ghost use Rattle.b2_model.specs.State.{State, bucket_at};
ghost use Rattle.b2_model.specs.AskLarge.{new_start, start_large_file};
ghost use Rattle.new_versions.specs.Decided.{DecidesOr, extent_len, next_number};
ghost use Rattle.new_versions.specs.Refusals.{refusal_fault};

use b2_base::{Memory, Moment, Or, VersionNum};
use b2_types::{Bucket, ChangeOf, NewVersion, Record, RecordOf, StartCall};
use new_versions::{VersionRefusal, VersionTerms, lock_rules, new_version};
use std::alloc::Global;

// The version of this number that the call starts.
fn started(alloc: Global, num: VersionNum, call: &StartCall) -> Result<NewVersion, Memory>
    ensures { (M : State TheExtent) → M.next_version ≡ num
        → IfOk result (λ v. v ≡ new_start M call.now) }
{
    let of = VersionTerms {
        bucket: call.bucket,
        name: &call.name,
        kind: call.kind.get(),
        info: call.info.as_ref(),
        retention: call.retention,
        hold: call.hold.unwrap_or(false),
    };
    new_version(alloc, num, &of)
}

/// What the start of a large file comes to, in the bucket that it names: its record, or the first
/// rule of its own that refuses it. The bucket's default retention is for the finish.
pub fn start_large_file(
    alloc: Global,
    bucket: &Bucket,
    next: Option<VersionNum>,
    t: Moment,
    call: &StartCall,
) -> Result<Record, Or<VersionRefusal>>
    ensures { (M : State TheExtent) (key : TheOption TheKey)
        → bucket_at M call.now.bucket ≡ Some bucket.now → next_number M ≡ next
        → DecidesOr refusal_fault t (start_large_file extent_len M key t call.now) result }
{
    let hold = call.hold.unwrap_or(false);
    if let Some(refusal) = lock_rules(t, call.retention, hold, bucket.lock) {
        return Err(Or::Fault(VersionRefusal::Lock(refusal)));
    }
    let Some(num) = next else {
        return Err(Or::Fault(VersionRefusal::Cap));
    };
    let version = started(alloc, num, call)?;
    Ok(RecordOf {
        at: t,
        change: ChangeOf::Start(version),
    })
}
