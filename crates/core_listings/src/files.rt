//! The listings of files.

ghost use Rattle.std.specs.Prelude.{◌≡◌, IfOk};
ghost use Rattle.std.specs.Option.{option_copied};
ghost use Rattle.b2_types.specs.declared.call.Call.TheVariants as calls;
ghost use Rattle.core_decisions.specs.Decided.{IsDecision};

use crate::shown_pages::{show_names, show_starts, show_versions};
use b2_base::{Memory, Moment};
use b2_types::{AnswerOf, ListFiles, ListUnfinished};
use core_decisions::{Decision, plain_refusal};
use core_policy::{asker_of, prefix_for};
use core_state::Core;
use rule_table::CallName;
use std::alloc::Global;

/// The versions of files, or their folders.
pub fn list_file_versions(
    alloc: Global,
    core: &Core,
    t: Moment,
    token: Option<&[u8]>,
    call: &ListFiles,
) -> Result<Decision, Memory>
    ensures { IfOk result (IsDecision core.now t (option_copied token.entry)
        (calls.ListFileVersions call.now)) }
{
    let asker = asker_of(core, token);
    let name = CallName::ListFileVersions;
    let bucket = match prefix_for(core, &asker, t, name, call.bucket, call.prefix.as_ref()) {
        Ok(bucket) => bucket,
        Err(kind) => return Ok(plain_refusal(kind)),
    };
    let shown = show_versions(alloc, core, asker.key, bucket.num, call)?;
    Ok(Decision::Reply(AnswerOf::Json(shown)))
}

/// The names of files that can be seen, each with its current version, or their folders.
pub fn list_file_names(
    alloc: Global,
    core: &Core,
    t: Moment,
    token: Option<&[u8]>,
    call: &ListFiles,
) -> Result<Decision, Memory>
    ensures { IfOk result (IsDecision core.now t (option_copied token.entry)
        (calls.ListFileNames call.now)) }
{
    let asker = asker_of(core, token);
    let name = CallName::ListFileNames;
    let bucket = match prefix_for(core, &asker, t, name, call.bucket, call.prefix.as_ref()) {
        Ok(bucket) => bucket,
        Err(kind) => return Ok(plain_refusal(kind)),
    };
    let shown = show_names(alloc, core, asker.key, bucket.num, call)?;
    Ok(Decision::Reply(AnswerOf::Json(shown)))
}

/// The large files that were started and are not finished.
pub fn list_unfinished_large_files(
    alloc: Global,
    core: &Core,
    t: Moment,
    token: Option<&[u8]>,
    call: &ListUnfinished,
) -> Result<Decision, Memory>
    ensures { IfOk result (IsDecision core.now t (option_copied token.entry)
        (calls.ListUnfinishedLargeFiles call.now)) }
{
    let asker = asker_of(core, token);
    let name = CallName::ListUnfinishedLargeFiles;
    let bucket = match prefix_for(core, &asker, t, name, call.bucket, call.prefix.as_ref()) {
        Ok(bucket) => bucket,
        Err(kind) => return Ok(plain_refusal(kind)),
    };
    let shown = show_starts(alloc, core, asker.key, bucket.num, call)?;
    Ok(Decision::Reply(AnswerOf::Json(shown)))
}
