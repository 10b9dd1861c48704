//! Single steps on a state in memory.

ghost use Rattle.std.specs.Prelude.{◌≡◌, ◌≤◌, [], true, unwrap_or};
ghost use Rattle.std.specs.Option.{option_copied};
ghost use Rattle.b2_types.specs.LifecycleRules.{are_rules};
ghost use Rattle.sound_states.specs.Sound.{IsFitChange};
ghost use Rattle.sound_steps.specs.FitSteps.{IsFitCall};
ghost use Rattle.core_decisions.specs.Decided.{IsNoCopy};

use crate::table::Row;
use crate::told::{body_of, bytes_of, empty, fault_text};
use b2_base::{ConnNum, Extent, List, Memory, Moment, Text};
use b2_types::{Call, ChangeOf, Mark, Record, Rule, UploadCall};
use core_decisions::Decision;
use core_records::{Applied, apply};
use core_state::Core;
use core_uploads::{upload_begin, upload_end};
use lifecycle_pass::rules_ok;
use new_versions::Body;
use outside_traits::ListWords;
use std::alloc::Global;
use version_core::ask;

/// The moment of a step: what the clock reads, or the moment of the last step where it reads less.
pub(crate) fn moment(core: &Core, reading: u64) -> Moment
    ensures now { core.now.now ≤ result }
    ensures kept { core.now.kept ≤ result }
{
    core.is_sound();
    let read = Moment::from_reading(reading);
    if read.get() < core.now().get() {
        core.now()
    } else {
        read
    }
}

fn are_fit(rules: Option<&List<Rule>>) -> bool
    ensures { result ≡ true → are_rules (unwrap_or (option_copied rules.entry) []) ≡ true }
{
    match rules {
        Some(rules) => rules_ok(rules.get()).is_ok(),
        None => true,
    }
}

// Whether the call is one that `ask` takes: it copies nothing, and its lifecycle rules are in form.
fn is_askable(call: &Call) -> bool
    ensures alone { result ≡ true → IsNoCopy call.now }
    ensures fit { result ≡ true → IsFitCall call.now }
{
    match call {
        Call::CreateBucket(call) => are_fit(call.rules.as_ref()),
        Call::UpdateBucket(call) => are_fit(call.rules.as_ref()),
        Call::CopyFile(_) | Call::CopyPart(_) => false,
        _ => true,
    }
}

/// A call that copies nothing: the state after it, and its answer.
pub(crate) fn ask_once(
    alloc: Global,
    core: Core,
    luck: &mut ListWords,
    row: &Row,
    call: &Call,
) -> Result<(Core, Text), Memory> {
    let t = moment(&core, row.reading());
    if !is_askable(call) {
        return Ok((core, empty(alloc)));
    }
    let (core, answer) = ask(alloc, core, t, luck, Some(row.token().as_bytes()), call)?;
    Ok((core, body_of(alloc, answer)))
}

// Whether a record may tell the change.
fn is_fit(change: &ChangeOf<Extent>) -> bool
    ensures { result ≡ true → IsFitChange change.now }
{
    match change {
        ChangeOf::Upload(_, _, mark, _) => matches!(mark, Mark::Verified | Mark::Unverified),
        ChangeOf::SnapState(_) => false,
        _ => true,
    }
}

fn count_freed(applied: Applied) -> (Core, Option<u64>) {
    match applied {
        Applied::Done(core, freed) => (core, Some(bytes_of(freed))),
        Applied::CannotApply(core) => (core, None),
    }
}

/// The state after a record that is no snapshot's, and how many bytes it gives up; none where it
/// doesn't apply.
pub(crate) fn write_once(
    alloc: Global,
    core: Core,
    written: Record,
) -> Result<(Core, Option<u64>), Memory> {
    if !is_fit(&written.change) {
        drop(written);
        return Ok((core, None));
    }
    let applied = apply(alloc, core, written)?;
    Ok(count_freed(applied))
}

/// The state after what was decided, and the answer.
pub(crate) fn carry_out(
    alloc: Global,
    core: Core,
    decision: Decision,
) -> Result<(Core, Text), Memory> {
    match decision {
        Decision::Reply(answer) => Ok((core, body_of(alloc, answer))),
        Decision::Write(written, answer) => {
            let text = body_of(alloc, answer);
            let (core, _) = write_once(alloc, core, written)?;
            Ok((core, text))
        }
    }
}

/// An upload begins on a connection without one: the state after it, and the refusal.
pub(crate) fn begin_once(
    alloc: Global,
    core: Core,
    row: &Row,
    conn: ConnNum,
    upload: UploadCall,
) -> Result<(Core, Text), Memory> {
    let t = moment(&core, row.reading());
    if core.flight(conn).is_some() {
        return Ok((core, empty(alloc)));
    }
    let (core, fault) = upload_begin(alloc, core, t, conn, Some(row.token().as_bytes()), upload)?;
    Ok((core, fault_text(alloc, fault)))
}

/// The upload on the connection ends: the state after it, and the answer, or an empty text where
/// none is under way.
pub(crate) fn end_once(
    alloc: Global,
    core: Core,
    row: &Row,
    conn: ConnNum,
    body: &Body,
) -> Result<(Core, Text), Memory> {
    let t = moment(&core, row.reading());
    if core.flight(conn).is_none() {
        return Ok((core, empty(alloc)));
    }
    let (core, decision) = upload_end(alloc, core, t, conn, body)?;
    carry_out(alloc, core, decision)
}
