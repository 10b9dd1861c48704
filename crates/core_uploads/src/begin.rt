//! Uploads that begin.

ghost use Rattle.std.specs.Prelude.{◌≡◌, ◌≤◌, Some, None, IfOk};
ghost use Rattle.std.specs.Option.{option_copied};
ghost use Rattle.b2_types.specs.declared.upload.UploadCall.TheVariants as uploads;
ghost use Rattle.b2_model.specs.Checks.{first_fault};
ghost use Rattle.b2_model.specs.UploadSteps.{begin, begin_refusals, busy, flight_of};
ghost use Rattle.core_uploads.specs.Uploads.{begun};

use b2_base::{ConnNum, Memory, Moment};
use b2_types::{BadCall, Fault, FileUpload, PartUpload, UploadCall};
use core_policy::{asker_of, file_upload_for, part_upload_for, token_for};
use core_state::Core;
use large_files::{may_put_part, not_large_fault};
use new_versions::{fault_of, may_upload};
use rule_table::FaultKind;
use std::alloc::Global;

// Whether an upload is under way on the token.
fn is_busy(core: &Core, token: Option<&[u8]>) -> bool
    ensures { result ≡ (busy core.now (option_copied token.entry)).fails }
{
    core.is_sound();
    match token {
        Some(text) => core.tokens().flight(text).is_some(),
        None => false,
    }
}

// The first rule that refuses an upload of a file.
fn file_fault(core: &Core, t: Moment, token: Option<&[u8]>, upload: &FileUpload) -> Option<Fault>
    ensures { result ≡ first_fault
        (begin_refusals core.now t (option_copied token.entry) (uploads.File upload.now)) }
{
    let asker = asker_of(core, token);
    let bucket = match file_upload_for(core, &asker, t, upload) {
        Ok(bucket) => bucket,
        Err(kind) => return Some(Fault::plain(kind)),
    };
    if is_busy(core, token) {
        return Some(Fault::plain(FaultKind::Busy));
    }
    match may_upload(bucket, core.next_number(), t, upload) {
        Ok(()) => None,
        Err(refused) => Some(fault_of(refused)),
    }
}

// The first rule that refuses an upload of a part.
fn part_fault(core: &Core, t: Moment, token: Option<&[u8]>, upload: &PartUpload) -> Option<Fault>
    ensures { result ≡ first_fault
        (begin_refusals core.now t (option_copied token.entry) (uploads.Part upload.now)) }
{
    let asker = asker_of(core, token);
    let version = match part_upload_for(core, &asker, t, upload) {
        Ok(version) => version,
        Err(kind) => return Some(Fault::plain(kind)),
    };
    if is_busy(core, token) {
        return Some(Fault::plain(FaultKind::Busy));
    }
    match may_put_part(version) {
        Ok(()) => None,
        Err(refused) => Some(not_large_fault(refused)),
    }
}

// The first rule of the token that refuses an upload which is amiss, or what is amiss.
fn bad_fault(core: &Core, t: Moment, token: Option<&[u8]>, bad: BadCall) -> Fault
    ensures { Some result ≡ first_fault
        (begin_refusals core.now t (option_copied token.entry) (uploads.Bad bad)) }
{
    let asker = asker_of(core, token);
    match token_for(&asker, t, bad.name, bad.target) {
        Ok(()) => bad.fault,
        Err(kind) => Fault::plain(kind),
    }
}

// The state after a begin that this rule refuses, or no rule.
fn begun_or_refused(
    alloc: Global,
    core: Core,
    t: Moment,
    conn: ConnNum,
    token: Option<&[u8]>,
    upload: UploadCall,
    fault: Option<Fault>,
) -> Result<(Core, Option<Fault>), Memory>
    requires later { core.kept ≤ t }
    requires free { flight_of core conn ≡ None }
    requires first { fault ≡ first_fault
        (begin_refusals core t (option_copied token) upload) }
    ensures { IfOk result
        (λ r. begun r.0 r.1 ≡ begin core t conn (option_copied token.entry) upload) }
{
    if let Some(fault) = fault {
        return Ok((core.with_moment(t), Some(fault)));
    }
    let Some(token) = token else {
        unreachable!();
    };
    let core = core.occupy(alloc, t, conn, token, upload)?;
    Ok((core, None))
}

/// An upload begins with this token, on a connection without one: the state after it, and the
/// refusal. What is refused is not under way.
pub fn upload_begin(
    alloc: Global,
    core: Core,
    t: Moment,
    conn: ConnNum,
    token: Option<&[u8]>,
    upload: UploadCall,
) -> Result<(Core, Option<Fault>), Memory>
    requires later { core.kept ≤ t }
    requires free { flight_of core conn ≡ None }
    ensures { IfOk result
        (λ r. begun r.0 r.1 ≡ begin core t conn (option_copied token.entry) upload) }
{
    match upload {
        UploadCall::File(file) => {
            let fault = file_fault(&core, t, token, &file);
            begun_or_refused(alloc, core, t, conn, token, UploadCall::File(file), fault)
        }
        UploadCall::Part(part) => {
            let fault = part_fault(&core, t, token, &part);
            begun_or_refused(alloc, core, t, conn, token, UploadCall::Part(part), fault)
        }
        UploadCall::Bad(bad) => {
            let fault = bad_fault(&core, t, token, bad);
            Ok((core.with_moment(t), Some(fault)))
        }
    }
}
