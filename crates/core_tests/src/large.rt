//! A large file from its start to its end.

use crate::buckets::{AUTHORIZE, MAKE_BUCKET, MASTER};
use crate::table::{Row, Step, Wrong, holds};
use crate::uploads::{GET_URL, URL};
use rule_table::CallName;

const FILM: &str = r#"{"fileId":"4_z00000001_f0000000000000001"}"#;

// A token for parts of the first version: the third.
const PARTS: &str = "3_00000001_0000000000000003_0000000000000005_0000000000000006";

const STARTED: &[Row] = &[
    AUTHORIZE,
    MAKE_BUCKET,
    GET_URL,
    Row(
        1000,
        MASTER,
        Step::Call(
            CallName::StartLargeFile,
            r#"{"bucketId":"000000000000000000000001","contentType":"video/mp4","fileName":"film"}"#,
        ),
        r#""action":"start""#,
    ),
    Row(
        1000,
        MASTER,
        Step::Call(CallName::GetUploadPartUrl, FILM),
        "3_00000001_0000000000000003_0000000000000005_0000000000000006",
    ),
];

// A part that comes again takes the place of the former.
const JOINED: &[Row] = &[
    Row(2000, PARTS, Step::Part(1, 10, 1), r#""partNumber":1"#),
    Row(2000, PARTS, Step::Part(3, 10, 3), r#""partNumber":3"#),
    Row(
        2000,
        MASTER,
        Step::Call(
            CallName::FinishLargeFile,
            r#"{"fileId":"4_z00000001_f0000000000000001","partSha1Array":["0101010101010101010101010101010101010101","0202020202020202020202020202020202020202","0303030303030303030303030303030303030303"]}"#,
        ),
        r#"{"code":"bad_request","message":"missing part: 2","status":400}"#,
    ),
    Row(2000, PARTS, Step::Part(2, 10, 2), r#""partNumber":2"#),
    Row(
        2000,
        MASTER,
        Step::Call(
            CallName::FinishLargeFile,
            r#"{"fileId":"4_z00000001_f0000000000000001","partSha1Array":["0101010101010101010101010101010101010101","0404040404040404040404040404040404040404","0303030303030303030303030303030303030303"]}"#,
        ),
        "digest differs at part: 2",
    ),
    Row(2000, PARTS, Step::Part(2, 10, 4), r#""partNumber":2"#),
    Row(
        2000,
        MASTER,
        Step::Call(
            CallName::FinishLargeFile,
            r#"{"fileId":"4_z00000001_f0000000000000001","partSha1Array":["0101010101010101010101010101010101010101","0202020202020202020202020202020202020202","0303030303030303030303030303030303030303"]}"#,
        ),
        "digest differs at part: 2",
    ),
    Row(2000, PARTS, Step::Part(1, 9, 5), r#""partNumber":1"#),
    Row(
        2000,
        MASTER,
        Step::Call(
            CallName::FinishLargeFile,
            r#"{"fileId":"4_z00000001_f0000000000000001","partSha1Array":["0505050505050505050505050505050505050505","0404040404040404040404040404040404040404","0303030303030303030303030303030303030303"]}"#,
        ),
        "part is too small: 1",
    ),
    Row(2000, PARTS, Step::Part(1, 10, 1), r#""partNumber":1"#),
    Row(
        2000,
        MASTER,
        Step::Call(
            CallName::FinishLargeFile,
            r#"{"fileId":"4_z00000001_f0000000000000001","partSha1Array":["0101010101010101010101010101010101010101","0404040404040404040404040404040404040404","0303030303030303030303030303030303030303"]}"#,
        ),
        r#""action":"upload","bucketId":"000000000000000000000001","contentLength":30,"contentMd5":null,"contentSha1":"none","contentType":"video/mp4","fileId":"4_z00000001_f0000000000000001""#,
    ),
    Row(
        2000,
        MASTER,
        Step::Download(1, None),
        "sends 100+10 400+10 300+10 film;",
    ),
    Row(
        2000,
        PARTS,
        Step::Part(2, 10, 2),
        "not an unfinished large file",
    ),
];

#[test]
fn parts_that_are_joined(rt: HostRuntime) -> Result<(), Wrong> {
    holds(rt.alloc(), 9, STARTED, JOINED)
}

const PART: &str =
    r#"{"contentLength":10,"contentMd5":null,"contentSha1":"0101010101010101010101010101010101010101","fileId":"4_z00000001_f0000000000000001","partNumber":7,"serverSideEncryption":{"algorithm":null,"mode":null},"uploadTimestamp":2000}"#;

const GIVEN_UP: &[Row] = &[
    Row(2000, PARTS, Step::Part(7, 10, 1), PART),
    Row(
        2000,
        URL,
        Step::Part(8, 10, 1),
        "P3: token of another kind or target",
    ),
    Row(2000, MASTER, Step::Call(CallName::ListParts, FILM), PART),
    Row(
        2000,
        MASTER,
        Step::Call(CallName::CancelLargeFile, FILM),
        r#""fileName":"film"}"#,
    ),
    Row(
        2000,
        MASTER,
        Step::Call(CallName::ListParts, FILM),
        "no such file",
    ),
    Row(
        2000,
        MASTER,
        Step::Call(CallName::CancelLargeFile, FILM),
        "no such file",
    ),
];

#[test]
fn parts_that_are_given_up(rt: HostRuntime) -> Result<(), Wrong> {
    holds(rt.alloc(), 9, STARTED, GIVEN_UP)
}
