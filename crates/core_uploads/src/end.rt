//! Uploads that end or are lost.

ghost use Rattle.std.specs.Prelude.{◌≡◌, ◌≤◌, Some, IfOk, IsSome};
ghost use Rattle.b2_types.specs.declared.answer.AnswerOf.TheVariants as answer;
ghost use Rattle.b2_types.specs.declared.fault.Fault.{Fault as TheFault};
ghost use Rattle.b2_types.specs.declared.key.Flight.{Flight as TheFlight};
ghost use Rattle.b2_types.specs.declared.upload.UploadCall.TheVariants as uploads;
ghost use Rattle.b2_model.specs.UploadSteps.{flight_of, without_flight};
ghost use Rattle.new_versions.specs.Bodies.{body_at};
ghost use Rattle.new_versions.specs.Decided.{fault_told};
ghost use Rattle.new_versions.specs.Refusals.{refusal_fault};
ghost use Rattle.core_decisions.specs.declared.decision.Decision.TheVariants as decision;
ghost use Rattle.core_uploads.specs.Uploads.{IsEnd};

use crate::shown::show_made;
use b2_base::{ConnNum, Memory, Moment, Or};
use b2_types::{AnswerOf, FileUpload, Flight, PartOf, PartUpload, Shown, UploadCall};
use core_decisions::{Decision, plain_refusal, refusal};
use core_policy::{asker_of, file_upload_for, part_upload_for};
use core_state::Core;
use large_files::{fault_of_part, put_part};
use new_versions::{Body, VersionRefusal, fault_of, mark_of, upload};
use shown_values::show_part;
use std::alloc::Global;

// What is answered where there is no record.
fn not_made(error: Or<VersionRefusal>) -> Result<Decision, Memory>
    ensures { IfOk result (λ d. (fault : TheFault)
        × (fault_told refusal_fault error ≡ Some fault)
        × (d ≡ decision.Reply (answer.Refused fault))) }
{
    match error {
        Or::Memory => Err(Memory),
        Or::Fault(refused) => Ok(refusal(fault_of(refused))),
    }
}

// What the end of an upload of a file comes to.
fn file_end(
    alloc: Global,
    core: &Core,
    t: Moment,
    flight: &Flight,
    call: &FileUpload,
    body: &Body,
) -> Result<Decision, Memory>
    requires { flight.now.upload ≡ uploads.File call.now }
    ensures { IfOk result (IsEnd core.now t flight.now (body_at body.now)) }
{
    let asker = asker_of(core, Some(flight.token.get().as_bytes()));
    let bucket = match file_upload_for(core, &asker, t, call) {
        Ok(bucket) => bucket,
        Err(kind) => return Ok(plain_refusal(kind)),
    };
    let record = match upload(alloc, bucket, core.next_number(), t, call, body) {
        Ok(record) => record,
        Err(error) => return not_made(error),
    };
    let shown = show_made(alloc, core.settings(), asker.key, &record)?;
    Ok(Decision::Write(record, AnswerOf::Json(Shown::File(shown))))
}

// What the end of an upload of a part comes to.
fn part_end(core: &Core, t: Moment, flight: &Flight, call: &PartUpload, body: &Body) -> Decision
    requires { flight.now.upload ≡ uploads.Part call.now }
    ensures { IsEnd core.now t flight.now (body_at body.now) result }
{
    let asker = asker_of(core, Some(flight.token.get().as_bytes()));
    let version = match part_upload_for(core, &asker, t, call) {
        Ok(version) => version,
        Err(kind) => return plain_refusal(kind),
    };
    let record = match put_part(version, t, call, body) {
        Ok(record) => record,
        Err(refused) => return refusal(fault_of_part(refused)),
    };
    let part = PartOf {
        number: call.number,
        content: body.content,
        mark: mark_of(call.digest),
        digest: body.digest,
        stamp: t,
    };
    let shown = show_part(call.bucket, call.file, &part);
    Decision::Write(record, AnswerOf::Json(Shown::Part(shown)))
}

// What the end of the upload on the connection comes to.
fn decided(
    alloc: Global,
    core: &Core,
    t: Moment,
    conn: ConnNum,
    body: &Body,
) -> Result<Decision, Memory>
    requires { IsSome (flight_of core.now conn) }
    ensures { IfOk result (λ d. (f : TheFlight) → flight_of core.now conn ≡ Some f
        → IsEnd core.now t f (body_at body.now) d) }
{
    core.is_sound();
    let Some(flight) = core.flight(conn) else {
        unreachable!();
    };
    match &flight.upload {
        UploadCall::File(call) => file_end(alloc, core, t, flight, call, body),
        UploadCall::Part(call) => Ok(part_end(core, t, flight, call, body)),
        UploadCall::Bad(_) => unreachable!(),
    }
}

/// The upload on the connection ends with its last byte: the state without it, and what its end
/// comes to there. What it needs is judged again.
pub fn upload_end(
    alloc: Global,
    core: Core,
    t: Moment,
    conn: ConnNum,
    body: &Body,
) -> Result<(Core, Decision), Memory>
    requires later { core.kept ≤ t }
    requires under_way { IsSome (flight_of core conn) }
    ensures state { IfOk result (λ r. r.0 ≡ without_flight core t conn) }
    ensures decision { IfOk result (λ r. (f : TheFlight) → flight_of core conn ≡ Some f
        → IsEnd core t f (body_at body.now) r.1) }
{
    let decision = decided(alloc, &core, t, conn, body)?;
    Ok((core.vacate(t, conn), decision))
}

/// The upload on the connection is lost with it.
pub fn upload_lost(core: Core, t: Moment, conn: ConnNum) -> Core
    requires later { core.kept ≤ t }
    ensures { result ≡ without_flight core t conn }
{
    core.vacate(t, conn)
}
