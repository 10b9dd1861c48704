//! Copies of a file: which bytes they take, and what they come to.

use crate::buckets::{AUTHORIZE, MAKE_BUCKET, MASTER};
use crate::table::{Row, Step, Wrong, holds};
use crate::uploads::{GET_URL, URL};
use rule_table::CallName;

// A file at 5, and a large file that was started.
const SOURCE: &[Row] = &[
    AUTHORIZE,
    MAKE_BUCKET,
    GET_URL,
    Row(
        2000,
        URL,
        Step::Put("a.txt", 5),
        r#""fileId":"4_z00000001_f0000000000000001""#,
    ),
    Row(
        2000,
        MASTER,
        Step::Call(
            CallName::StartLargeFile,
            r#"{"bucketId":"000000000000000000000001","contentType":"video/mp4","fileName":"film"}"#,
        ),
        r#""action":"start""#,
    ),
];

const COPIES: &[Row] = &[
    Row(
        2000,
        MASTER,
        Step::Check(
            CallName::CopyFile,
            r#"{"fileName":"b","range":"bytes=1-2","sourceFileId":"4_z00000001_f0000000000000001"}"#,
        ),
        "copies 5+3 1+2;",
    ),
    Row(
        2000,
        MASTER,
        Step::Call(
            CallName::CopyFile,
            r#"{"fileName":"b","range":"bytes=1-2","sourceFileId":"4_z00000001_f0000000000000001"}"#,
        ),
        r#""contentLength":2,"contentMd5":null,"contentSha1":"0707070707070707070707070707070707070707","contentType":"text/plain","fileId":"4_z00000001_f0000000000000003""#,
    ),
    Row(
        2000,
        MASTER,
        Step::Check(
            CallName::CopyPart,
            r#"{"largeFileId":"4_z00000001_f0000000000000002","partNumber":4,"sourceFileId":"4_z00000001_f0000000000000001"}"#,
        ),
        "copies 5+3 0+3;",
    ),
    Row(
        2000,
        MASTER,
        Step::Call(
            CallName::CopyPart,
            r#"{"largeFileId":"4_z00000001_f0000000000000002","partNumber":4,"sourceFileId":"4_z00000001_f0000000000000001"}"#,
        ),
        r#""partNumber":4"#,
    ),
    Row(
        2000,
        MASTER,
        Step::Check(
            CallName::CopyFile,
            r#"{"fileName":"b","range":"bytes=3-","sourceFileId":"4_z00000001_f0000000000000001"}"#,
        ),
        "range is not satisfiable",
    ),
    Row(
        2000,
        MASTER,
        Step::Call(
            CallName::CopyFile,
            r#"{"fileName":"b","range":"bytes=3-","sourceFileId":"4_z00000001_f0000000000000001"}"#,
        ),
        "range is not satisfiable",
    ),
    Row(
        2000,
        MASTER,
        Step::Check(
            CallName::CopyPart,
            r#"{"largeFileId":"4_z00000001_f0000000000000003","partNumber":4,"sourceFileId":"4_z00000001_f0000000000000001"}"#,
        ),
        "not an unfinished large file",
    ),
    Row(
        2000,
        MASTER,
        Step::Call(
            CallName::CopyPart,
            r#"{"largeFileId":"4_z00000001_f0000000000000003","partNumber":4,"sourceFileId":"4_z00000001_f0000000000000001"}"#,
        ),
        "not an unfinished large file",
    ),
    Row(
        2000,
        MASTER,
        Step::Check(
            CallName::CopyFile,
            r#"{"fileName":"b","sourceFileId":"4_z00000001_f0000000000000009"}"#,
        ),
        "no such file",
    ),
    Row(
        2000,
        MASTER,
        Step::Call(
            CallName::CopyFile,
            r#"{"fileName":"b","sourceFileId":"4_z00000001_f0000000000000009"}"#,
        ),
        "no such file",
    ),
    Row(2000, MASTER, Step::Download(3, None), "sends 50+2 b;"),
];

#[test]
fn copies(rt: HostRuntime) -> Result<(), Wrong> {
    holds(rt.alloc(), 9, SOURCE, COPIES)
}
