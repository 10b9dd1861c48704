//! The calls, in the order of their table.

ghost use Rattle.std.specs.Prelude.{◌≡◌};
ghost use Rattle.rule_table.specs.CallName.{call_names};

use crate::placed::Placed;
use crate::table::Table;

/// A call of the B2 Native API.
#[derive(Clone, Copy, Debug, PartialEq, Eq)]
pub enum CallName {
    AuthorizeAccount,
    CreateBucket,
    UpdateBucket,
    DeleteBucket,
    ListBuckets,
    CreateKey,
    DeleteKey,
    ListKeys,
    GetUploadUrl,
    UploadFile,
    StartLargeFile,
    GetUploadPartUrl,
    UploadPart,
    ListParts,
    FinishLargeFile,
    CancelLargeFile,
    ListUnfinishedLargeFiles,
    ListFileNames,
    ListFileVersions,
    GetFileInfo,
    HideFile,
    DeleteFileVersion,
    GetDownloadAuthorization,
    DownloadFileById,
    DownloadFileByName,
    UpdateFileRetention,
    UpdateFileLegalHold,
    CopyFile,
    CopyPart,
}

impl Placed for CallName {
    ghost use Rattle.std.specs.Prelude.{slice_get};
    ghost use Rattle.rule_table.specs.CallName.{call_order, call_place, call_there, call_here};

    ghost place_of = { call_place };

    ghost at_place = { λ i. slice_get call_order i };

    ghost there = { call_there };

    ghost here = { call_here };

    fn place(&self) -> usize {
        *self as usize
    }

    fn at(place: usize) -> Option<CallName> {
        [
            CallName::AuthorizeAccount,
            CallName::CreateBucket,
            CallName::UpdateBucket,
            CallName::DeleteBucket,
            CallName::ListBuckets,
            CallName::CreateKey,
            CallName::DeleteKey,
            CallName::ListKeys,
            CallName::GetUploadUrl,
            CallName::UploadFile,
            CallName::StartLargeFile,
            CallName::GetUploadPartUrl,
            CallName::UploadPart,
            CallName::ListParts,
            CallName::FinishLargeFile,
            CallName::CancelLargeFile,
            CallName::ListUnfinishedLargeFiles,
            CallName::ListFileNames,
            CallName::ListFileVersions,
            CallName::GetFileInfo,
            CallName::HideFile,
            CallName::DeleteFileVersion,
            CallName::GetDownloadAuthorization,
            CallName::DownloadFileById,
            CallName::DownloadFileByName,
            CallName::UpdateFileRetention,
            CallName::UpdateFileLegalHold,
            CallName::CopyFile,
            CallName::CopyPart,
        ]
        .get(place)
        .copied()
    }
}

/// The calls and the names that stand in their paths.
pub fn calls() -> Table<CallName, 29>
    ensures { result ≡ call_names }
{
    Table::new(&[
        "b2_authorize_account",
        "b2_create_bucket",
        "b2_update_bucket",
        "b2_delete_bucket",
        "b2_list_buckets",
        "b2_create_key",
        "b2_delete_key",
        "b2_list_keys",
        "b2_get_upload_url",
        "b2_upload_file",
        "b2_start_large_file",
        "b2_get_upload_part_url",
        "b2_upload_part",
        "b2_list_parts",
        "b2_finish_large_file",
        "b2_cancel_large_file",
        "b2_list_unfinished_large_files",
        "b2_list_file_names",
        "b2_list_file_versions",
        "b2_get_file_info",
        "b2_hide_file",
        "b2_delete_file_version",
        "b2_get_download_authorization",
        "b2_download_file_by_id",
        "b2_download_file_by_name",
        "b2_update_file_retention",
        "b2_update_file_legal_hold",
        "b2_copy_file",
        "b2_copy_part",
    ])
}
