//! Calls that give no token and draw no word.

ghost use Rattle.std.specs.Prelude.{IfOk};
ghost use Rattle.std.specs.Option.{option_copied};
ghost use Rattle.core_decisions.specs.Decided.{IsDecision};
ghost use Rattle.version_core.specs.Decided.{IsQuiet};

use b2_base::{Memory, Moment};
use b2_types::Call;
use core_calls::{
    bad_call, cancel_file, create_bucket, delete_bucket, delete_version, file_info, update_bucket,
    update_hold, update_retention,
};
use core_decisions::Decision;
use core_files::{download_by_id, download_by_name, finish_file, hide_file, start_file};
use core_keys::{delete_key, list_keys};
use core_listings::{
    list_buckets, list_file_names, list_file_versions, list_parts, list_unfinished_large_files,
};
use core_state::Core;
use std::alloc::Global;

/// What such a call comes to.
pub(crate) fn decide_quietly(
    alloc: Global,
    core: &Core,
    t: Moment,
    token: Option<&[u8]>,
    call: &Call,
) -> Result<Decision, Memory>
    requires { IsQuiet call.now }
    ensures { IfOk result (IsDecision core.now t (option_copied token.entry) call.now) }
{
    match call {
        Call::CreateBucket(call) => create_bucket(alloc, core, t, token, call),
        Call::UpdateBucket(call) => update_bucket(alloc, core, t, token, call),
        Call::DeleteBucket(call) => delete_bucket(alloc, core, t, token, call),
        Call::ListBuckets(call) => list_buckets(alloc, core, t, token, call),
        Call::DeleteKey(call) => delete_key(alloc, core, t, token, call),
        Call::ListKeys(call) => list_keys(alloc, core, t, token, call),
        Call::StartLargeFile(call) => start_file(alloc, core, t, token, call),
        Call::ListParts(call) => list_parts(alloc, core, t, token, call),
        Call::FinishLargeFile(call) => finish_file(alloc, core, t, token, call),
        Call::CancelLargeFile(call) => cancel_file(alloc, core, t, token, call),
        Call::ListUnfinishedLargeFiles(call) => {
            list_unfinished_large_files(alloc, core, t, token, call)
        }
        Call::ListFileNames(call) => list_file_names(alloc, core, t, token, call),
        Call::ListFileVersions(call) => list_file_versions(alloc, core, t, token, call),
        Call::GetFileInfo(call) => file_info(alloc, core, t, token, call),
        Call::HideFile(call) => hide_file(alloc, core, t, token, call),
        Call::DeleteFileVersion(call) => delete_version(alloc, core, t, token, call),
        Call::DownloadFileById(call) => download_by_id(alloc, core, t, token, call),
        Call::DownloadFileByName(call) => download_by_name(alloc, core, t, token, call),
        Call::UpdateFileRetention(call) => update_retention(alloc, core, t, token, call),
        Call::UpdateFileLegalHold(call) => update_hold(alloc, core, t, token, call),
        Call::Bad(call) => bad_call(alloc, core, t, token, call),
        _ => unreachable!(),
    }
}
