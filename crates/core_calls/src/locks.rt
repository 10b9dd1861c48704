//! Calls that Object Lock may refuse.

ghost use Rattle.std.specs.Prelude.{◌≡◌, ◌∷◌, [], ◌||◌, false, not, None, IfOk, unwrap_or};
ghost use Rattle.std.specs.Option.{option_copied};
ghost use Rattle.rule_table.specs.declared.fault.FaultKind.TheVariants as kinds;
ghost use Rattle.b2_types.specs.declared.call.Call.TheVariants as calls;
ghost use Rattle.b2_model.specs.AskFiles.{has_lock, is_other_name};
ghost use Rattle.b2_model.specs.Checks.{check, first_fault};
ghost use Rattle.b2_model.specs.Kinds.{is_upload};
ghost use Rattle.b2_model.specs.Locks.{active_retention, deletion_rules, retention_rules};
ghost use Rattle.b2_model.specs.Plan.{bad_until, id_of, lock_off};
ghost use Rattle.core_decisions.specs.Decided.{IsDecision};

use b2_base::{BucketNum, Memory, Moment};
use b2_types::{
    Action, AnswerOf, ChangeOf, DeleteVersion, Fault, RecordOf, Shown, UpdateHold, UpdateRetention,
    Version, VersionId,
};
use core_decisions::{Decision, plain_refusal, refusal};
use core_policy::{asker_of, file_for};
use core_state::Core;
use name_rules::FileName;
use new_versions::{lock_fault, lock_rules};
use object_lock::{may_delete, may_set_retention};
use rule_table::{CallName, Cap, FaultKind};
use shown_values::{may_read, show_name};
use std::alloc::Global;

fn id_of(version: &Version) -> VersionId
    ensures { result ≡ id_of version.now }
{
    VersionId {
        bucket: version.bucket,
        num: version.num,
    }
}

fn is_other_name(version: &Version, name: &FileName) -> bool
    ensures { result ≡ is_other_name version.now name.now }
{
    version.name.get().as_bytes() != name.get().as_bytes()
}

fn is_upload(version: &Version) -> bool
    ensures { result ≡ is_upload version.now.action }
{
    match version.action {
        Action::Upload => true,
        Action::Hide | Action::Start => false,
    }
}

fn has_lock(core: &Core, bucket: BucketNum) -> bool
    ensures { result ≡ has_lock core.now bucket }
{
    match core.bucket(bucket) {
        Some(bucket) => bucket.lock,
        None => false,
    }
}

// The first rule that keeps the version.
fn deletion_refusal(version: &Version, t: Moment, call: &DeleteVersion, may: bool) -> Option<Fault>
    ensures { result ≡ first_fault (check kinds.NoFile (is_other_name version.now call.now.name)
        ∷ deletion_rules t version.now (unwrap_or call.now.bypass false) may) }
{
    if is_other_name(version, &call.name) {
        return Some(Fault::plain(FaultKind::NoFile));
    }
    let bypass = call.bypass.unwrap_or(false);
    match may_delete(version, t, bypass, may) {
        Ok(()) => None,
        Err(denial) => Some(Fault::plain(denial.kind())),
    }
}

/// Deletes a version of a file.
pub fn delete_version(
    alloc: Global,
    core: &Core,
    t: Moment,
    token: Option<&[u8]>,
    call: &DeleteVersion,
) -> Result<Decision, Memory>
    ensures { IfOk result (IsDecision core.now t (option_copied token.entry)
        (calls.DeleteFileVersion call.now)) }
{
    let asker = asker_of(core, token);
    let name = CallName::DeleteFileVersion;
    let version = match file_for(core, &asker, t, name, call.bucket, call.file) {
        Ok(version) => version,
        Err(kind) => return Ok(plain_refusal(kind)),
    };
    let may = may_read(asker.key, Cap::BypassGovernance);
    if let Some(fault) = deletion_refusal(version, t, call, may) {
        return Ok(refusal(fault));
    }
    let shown = show_name(alloc, version)?;
    let record = RecordOf {
        at: t,
        change: ChangeOf::VersionDrop(id_of(version)),
    };
    Ok(Decision::Write(record, AnswerOf::Json(Shown::Deleted(shown))))
}

// The first rule that keeps the version's hold as it is.
fn hold_refusal(version: &Version, call: &UpdateHold, lock: bool) -> Option<Fault>
    ensures { result ≡ first_fault
        (check kinds.NoFile (is_other_name version.now call.now.name
        || not (is_upload version.now.action)) ∷ lock_off None call.now.hold lock ∷ []) }
{
    let is_other = is_other_name(version, &call.name) | !is_upload(version);
    if is_other {
        return Some(Fault::plain(FaultKind::NoFile));
    }
    let is_off = call.hold & !lock;
    if is_off {
        return Some(Fault::plain(FaultKind::LockOff));
    }
    None
}

/// Sets or ends the legal hold of a version.
pub fn update_hold(
    alloc: Global,
    core: &Core,
    t: Moment,
    token: Option<&[u8]>,
    call: &UpdateHold,
) -> Result<Decision, Memory>
    ensures { IfOk result (IsDecision core.now t (option_copied token.entry)
        (calls.UpdateFileLegalHold call.now)) }
{
    let asker = asker_of(core, token);
    let name = CallName::UpdateFileLegalHold;
    let version = match file_for(core, &asker, t, name, call.bucket, call.file) {
        Ok(version) => version,
        Err(kind) => return Ok(plain_refusal(kind)),
    };
    if let Some(fault) = hold_refusal(version, call, has_lock(core, version.bucket)) {
        return Ok(refusal(fault));
    }
    let shown = show_name(alloc, version)?;
    let record = RecordOf {
        at: t,
        change: ChangeOf::Hold(id_of(version), call.hold),
    };
    Ok(Decision::Write(record, AnswerOf::Json(Shown::Hold(shown, call.hold))))
}

// The first rule that keeps the version's retention as it is.
fn retention_refusal(
    version: &Version,
    t: Moment,
    call: &UpdateRetention,
    lock: bool,
    may: bool,
) -> Option<Fault>
    ensures { result ≡ first_fault
        (check kinds.NoFile (is_other_name version.now call.now.name
        || not (is_upload version.now.action))
        ∷ lock_off call.now.retention false lock
        ∷ bad_until t call.now.retention
        ∷ retention_rules (active_retention t version.now) call.now.retention
        (unwrap_or call.now.bypass false) may) }
{
    let is_other = is_other_name(version, &call.name) | !is_upload(version);
    if is_other {
        return Some(Fault::plain(FaultKind::NoFile));
    }
    if let Some(refused) = lock_rules(t, call.retention, false, lock) {
        return Some(lock_fault(refused));
    }
    let bypass = call.bypass.unwrap_or(false);
    match may_set_retention(version, call.retention.as_ref(), t, bypass, may) {
        Ok(()) => None,
        Err(denial) => Some(Fault::plain(denial.kind())),
    }
}

/// Sets or ends the retention of a version.
pub fn update_retention(
    alloc: Global,
    core: &Core,
    t: Moment,
    token: Option<&[u8]>,
    call: &UpdateRetention,
) -> Result<Decision, Memory>
    ensures { IfOk result (IsDecision core.now t (option_copied token.entry)
        (calls.UpdateFileRetention call.now)) }
{
    let asker = asker_of(core, token);
    let name = CallName::UpdateFileRetention;
    let version = match file_for(core, &asker, t, name, call.bucket, call.file) {
        Ok(version) => version,
        Err(kind) => return Ok(plain_refusal(kind)),
    };
    let lock = has_lock(core, version.bucket);
    let may = may_read(asker.key, Cap::BypassGovernance);
    if let Some(fault) = retention_refusal(version, t, call, lock, may) {
        return Ok(refusal(fault));
    }
    let shown = show_name(alloc, version)?;
    let record = RecordOf {
        at: t,
        change: ChangeOf::Retain(id_of(version), call.retention),
    };
    Ok(Decision::Write(
        record,
        AnswerOf::Json(Shown::Retention(shown, call.retention)),
    ))
}
