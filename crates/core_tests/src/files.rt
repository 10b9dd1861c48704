//! Names, versions and starts as listings show them, and calls on files.

use crate::buckets::{AUTHORIZE, MAKE_BUCKET, MASTER, SECOND};
use crate::table::{Row, Step, Wrong, holds};
use crate::uploads::{FIRST, GET_URL, URL};
use rule_table::CallName;

const HIDE: &str = r#"{"bucketId":"000000000000000000000001","fileName":"h"}"#;

// Five uploads, of which the fourth is hidden; a start of the fifth name, and one more upload.
const SIX_NAMES: &[Row] = &[
    AUTHORIZE,
    MAKE_BUCKET,
    GET_URL,
    Row(
        2000,
        URL,
        Step::Put("a.txt", 0),
        r#""fileId":"4_z00000001_f0000000000000001""#,
    ),
    Row(
        2000,
        URL,
        Step::Put("d/x", 0),
        r#""fileId":"4_z00000001_f0000000000000002""#,
    ),
    Row(
        2000,
        URL,
        Step::Put("d/y", 0),
        r#""fileId":"4_z00000001_f0000000000000003""#,
    ),
    Row(
        2000,
        URL,
        Step::Put("h", 0),
        r#""fileId":"4_z00000001_f0000000000000004""#,
    ),
    Row(
        2000,
        MASTER,
        Step::Call(CallName::HideFile, HIDE),
        r#""action":"hide""#,
    ),
    Row(
        2000,
        URL,
        Step::Put("s", 0),
        r#""fileId":"4_z00000001_f0000000000000006""#,
    ),
    Row(
        2000,
        MASTER,
        Step::Call(
            CallName::StartLargeFile,
            r#"{"bucketId":"000000000000000000000001","contentType":"b2/x-auto","fileName":"s"}"#,
        ),
        r#""fileId":"4_z00000001_f0000000000000007""#,
    ),
    Row(
        2000,
        URL,
        Step::Put("z", 0),
        r#""fileId":"4_z00000001_f0000000000000008""#,
    ),
];

const LISTINGS: &[Row] = &[
    Row(
        2000,
        MASTER,
        Step::List(
            CallName::ListFileNames,
            r#"{"bucketId":"000000000000000000000001","delimiter":"/","maxFileCount":2}"#,
        ),
        r#"names a.txt d/ ,"nextFileName":"s"}"#,
    ),
    Row(
        2000,
        MASTER,
        Step::List(
            CallName::ListFileNames,
            r#"{"bucketId":"000000000000000000000001","delimiter":"/","startFileName":"s"}"#,
        ),
        r#"names s z ,"nextFileName":null}"#,
    ),
    Row(
        2000,
        MASTER,
        Step::List(CallName::ListFileVersions, FIRST),
        r#"names a.txt d/x d/y h h s s z ,"nextFileId":null,"nextFileName":null}"#,
    ),
    Row(
        2000,
        MASTER,
        Step::List(
            CallName::ListFileVersions,
            r#"{"bucketId":"000000000000000000000001","maxFileCount":2,"startFileName":"d/y"}"#,
        ),
        r#"names d/y h ,"nextFileId":"4_z00000001_f0000000000000004","nextFileName":"h"}"#,
    ),
    Row(
        2000,
        MASTER,
        Step::List(
            CallName::ListFileVersions,
            r#"{"bucketId":"000000000000000000000001","prefix":"h","startFileName":"h","startFileId":"4_z00000001_f0000000000000004"}"#,
        ),
        r#"names h ,"nextFileId":null,"nextFileName":null}"#,
    ),
    Row(
        2000,
        MASTER,
        Step::List(CallName::ListUnfinishedLargeFiles, FIRST),
        r#"names s ,"nextFileId":null}"#,
    ),
    Row(
        2000,
        MASTER,
        Step::Call(
            CallName::ListFileNames,
            r#"{"bucketId":"000000000000000000000002"}"#,
        ),
        r#"{"code":"bad_bucket_id","message":"no such bucket","status":400}"#,
    ),
];

#[test]
fn listings(rt: HostRuntime) -> Result<(), Wrong> {
    holds(rt.alloc(), 99, SIX_NAMES, LISTINGS)
}

// A name is hidden until its marker is deleted. A version is found by its bucket, its number and
// its name.
const MARKERS: &[Row] = &[
    Row(
        2000,
        MASTER,
        Step::Call(CallName::HideFile, HIDE),
        r#"{"code":"already_hidden","message":"file is hidden","status":400}"#,
    ),
    Row(
        2000,
        MASTER,
        Step::Call(
            CallName::GetFileInfo,
            r#"{"fileId":"4_z00000001_f0000000000000005"}"#,
        ),
        r#""action":"hide""#,
    ),
    Row(
        2000,
        MASTER,
        Step::Call(
            CallName::DeleteFileVersion,
            r#"{"fileId":"4_z00000001_f0000000000000005","fileName":"z"}"#,
        ),
        "no such file",
    ),
    Row(
        2000,
        MASTER,
        Step::Call(
            CallName::DeleteFileVersion,
            r#"{"fileId":"4_z00000001_f0000000000000005","fileName":"h"}"#,
        ),
        r#"{"fileId":"4_z00000001_f0000000000000005","fileName":"h"}"#,
    ),
    Row(
        2000,
        MASTER,
        Step::Call(
            CallName::GetFileInfo,
            r#"{"fileId":"4_z00000001_f0000000000000005"}"#,
        ),
        r#"{"code":"not_found","message":"no such file","status":404}"#,
    ),
    Row(
        2000,
        MASTER,
        Step::Call(CallName::CreateBucket, SECOND),
        r#""bucketId":"000000000000000000000002""#,
    ),
    Row(
        2000,
        MASTER,
        Step::Call(
            CallName::GetFileInfo,
            r#"{"fileId":"4_z00000002_f0000000000000004"}"#,
        ),
        "no such file",
    ),
    Row(
        2000,
        MASTER,
        Step::Call(
            CallName::DeleteBucket,
            r#"{"accountId":"a1b2c3d4e5f6","bucketId":"000000000000000000000001"}"#,
        ),
        r#"{"code":"cannot_delete_non_empty_bucket","message":"bucket is not empty","status":400}"#,
    ),
    Row(
        2000,
        MASTER,
        Step::Call(CallName::HideFile, HIDE),
        r#""action":"hide""#,
    ),
];

#[test]
fn markers_and_deletions(rt: HostRuntime) -> Result<(), Wrong> {
    holds(rt.alloc(), 99, SIX_NAMES, MARKERS)
}
