//! Downloads.

ghost use Rattle.std.specs.Prelude.{◌≡◌, ◌∷◌, [], true, false, not, IfOk, MatchOption, None, Some, option_map};
ghost use Rattle.std.specs.Option.{option_copied};
ghost use Rattle.b2_base.specs.declared.extent.Extent.{Extent as TheExtent};
ghost use Rattle.b2_types.specs.declared.call.Call.TheVariants as calls;
ghost use Rattle.b2_types.specs.Fault.{plain};
ghost use Rattle.rule_table.specs.declared.fault.FaultKind.TheVariants as kinds;
ghost use Rattle.b2_model.specs.AskDownloads.{content, misses, or_refused, span_of};
ghost use Rattle.b2_model.specs.Checks.{check, first_fault, some_and};
ghost use Rattle.b2_model.specs.Current.{current};
ghost use Rattle.b2_model.specs.Kinds.{is_upload};
ghost use Rattle.b2_model.specs.Policy.{bucket_named};
ghost use Rattle.b2_model.specs.Rows.{version_at};
ghost use Rattle.b2_model.specs.State.{State};
ghost use Rattle.new_versions.specs.Decided.{extent_len};
ghost use Rattle.core_decisions.specs.Decided.{IsDecision};
ghost use Rattle.core_files.specs.Replied.{replied};

use b2_base::{BucketNum, List, Memory, Moment, Settings, Text};
use b2_types::{
    Action, AnswerOf, Bucket, ByteRange, ContentOf, DownloadById, DownloadByName, Key, Span,
    Version,
};
use copy_calls::{misses, span_of};
use core_decisions::{Decision, plain_refusal};
use core_policy::{asker_of, file_for, path_for};
use core_state::Core;
use rule_table::{CallName, FaultKind};
use shown_values::{content_length, show_file};
use std::alloc::Global;

fn is_upload(version: &Version) -> bool
    ensures { result ≡ is_upload version.now.action }
{
    matches!(version.action, Action::Upload)
}

fn is_missed(len: u64, range: Option<ByteRange>) -> bool
    ensures { result ≡ some_and (misses len) range }
{
    match range {
        Some(range) => misses(len, range),
        None => false,
    }
}

fn asked_span(len: u64, range: Option<ByteRange>) -> Option<Span>
    ensures { result ≡ option_map (span_of len) range }
{
    match range {
        Some(range) => Some(span_of(len, range)),
        None => None,
    }
}

// The first rule of its own that refuses a download of a content of this length.
fn download_refusal(version: &Version, len: u64, range: Option<ByteRange>) -> Option<FaultKind>
    ensures { option_map plain result ≡ first_fault
        (check kinds.NoFile (not (is_upload version.now.action))
        ∷ check kinds.Range (some_and (misses len) range) ∷ []) }
{
    if !is_upload(version) {
        return Some(FaultKind::NoFile);
    }
    if is_missed(len, range) {
        return Some(FaultKind::Range);
    }
    None
}

// What a download of the version comes to, for who asks with this key.
fn serve(
    alloc: Global,
    settings: &Settings,
    key: Option<&Key>,
    version: &Version,
    range: Option<ByteRange>,
) -> Result<Decision, Memory>
    ensures { (M : State TheExtent) → M.settings ≡ settings.now → IfOk result
        (λ d. d ≡ replied (content extent_len M (option_copied key.entry) range version.now)) }
{
    let Some(len) = content_length(version.content.get()) else {
        return Err(Memory);
    };
    if let Some(kind) = download_refusal(version, len, range) {
        return Ok(plain_refusal(kind));
    }
    let file = show_file(alloc, settings, key, version, len)?;
    let content = List::of(version.content.get().to_vec(alloc)?);
    let range = asked_span(len, range);
    Ok(Decision::Reply(AnswerOf::Content(ContentOf {
        file,
        content,
        range,
    })))
}

// What a download of the current version of a name comes to, for who asks with this key.
fn serve_current(
    alloc: Global,
    core: &Core,
    key: Option<&Key>,
    bucket: BucketNum,
    call: &DownloadByName,
) -> Result<Decision, Memory>
    ensures { IfOk result (λ d. d ≡ replied (or_refused kinds.NoFile
        (content extent_len core.now (option_copied key.entry) call.now.range)
        (current core.now bucket call.now.name))) }
{
    let name = call.name.get().as_bytes();
    match core.current(alloc, bucket, name)? {
        Some(version) => serve(alloc, core.settings(), key, version, call.range),
        None => Ok(plain_refusal(FaultKind::NoFile)),
    }
}

fn is_public(bucket: Option<&Bucket>) -> bool
    ensures { result ≡ some_and (λ b. b.public) (option_copied bucket.entry) }
{
    match bucket {
        Some(bucket) => bucket.public,
        None => false,
    }
}

// A download from a public bucket, which anybody may make.
fn open_by_id(alloc: Global, core: &Core, call: &DownloadById) -> Result<Decision, Memory>
    ensures { IfOk result (λ d. d ≡ replied (or_refused kinds.NoFile
        (content extent_len core.now None call.now.range)
        (version_at core.now call.now.bucket call.now.file))) }
{
    match core.version(call.bucket, call.file) {
        Some(version) => serve(alloc, core.settings(), None, version, call.range),
        None => Ok(plain_refusal(FaultKind::NoFile)),
    }
}

/// Downloads a file, or a range of it, by its id (the B2 reference, b2_download_file_by_id).
pub fn download_by_id(
    alloc: Global,
    core: &Core,
    t: Moment,
    token: Option<&[u8]>,
    call: &DownloadById,
) -> Result<Decision, Memory>
    ensures { IfOk result (IsDecision core.now t (option_copied token.entry)
        (calls.DownloadFileById call.now)) }
{
    if is_public(core.bucket(call.bucket)) {
        return open_by_id(alloc, core, call);
    }
    let asker = asker_of(core, token);
    let name = CallName::DownloadFileById;
    let version = match file_for(core, &asker, t, name, call.bucket, call.file) {
        Ok(version) => version,
        Err(kind) => return Ok(plain_refusal(kind)),
    };
    serve(alloc, core.settings(), asker.key, version, call.range)
}

// The bucket of this name, where it is public.
fn public_named<'a>(core: &'a Core, name: &Text) -> Option<&'a Bucket>
    ensures { MatchOption result
        (some_and (λ b. b.public) (bucket_named core.now name.now) ≡ false)
        (λ b. (bucket_named core.now name.now ≡ Some b.now) × (b.now.public ≡ true)) }
{
    let bucket = core.bucket_named(name.get().as_bytes())?;
    if bucket.public { Some(bucket) } else { None }
}

/// Downloads the current version of a file, or a range of it, by its name (the B2 reference,
/// b2_download_file_by_name).
pub fn download_by_name(
    alloc: Global,
    core: &Core,
    t: Moment,
    token: Option<&[u8]>,
    call: &DownloadByName,
) -> Result<Decision, Memory>
    ensures { IfOk result (IsDecision core.now t (option_copied token.entry)
        (calls.DownloadFileByName call.now)) }
{
    if let Some(bucket) = public_named(core, &call.bucket) {
        return serve_current(alloc, core, None, bucket.num, call);
    }
    let asker = asker_of(core, token);
    let name = CallName::DownloadFileByName;
    let bucket = match path_for(core, &asker, t, name, &call.bucket, &call.name) {
        Ok(bucket) => bucket,
        Err(kind) => return Ok(plain_refusal(kind)),
    };
    serve_current(alloc, core, asker.key, bucket.num, call)
}
