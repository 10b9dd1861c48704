//! A limited key, its token, and a token that it is given for downloads.

use crate::buckets::{AUTHORIZE, MAKE_BUCKET, MASTER, SECOND};
use crate::table::{Row, Step, Wrong, holds};
use crate::uploads::{FIRST, GET_URL, KEY, OF_KEY, URL};
use rule_table::CallName;

// A key that is limited to the first of two buckets and to a prefix, with its token.
const LIMITED: &[Row] = &[
    AUTHORIZE,
    MAKE_BUCKET,
    GET_URL,
    Row(
        1000,
        URL,
        Step::Put("logs/a", 0),
        r#""fileId":"4_z00000001_f0000000000000001""#,
    ),
    Row(
        1000,
        URL,
        Step::Put("other", 3),
        r#""fileId":"4_z00000001_f0000000000000002""#,
    ),
    Row(
        1000,
        MASTER,
        Step::Call(CallName::CreateBucket, SECOND),
        r#""bucketId":"000000000000000000000002""#,
    ),
    Row(
        1000,
        MASTER,
        Step::Call(
            CallName::CreateKey,
            r#"{"accountId":"a1b2c3d4e5f6","bucketId":"000000000000000000000001","capabilities":["listFiles","readFiles"],"keyName":"logs","namePrefix":"logs/"}"#,
        ),
        r#""applicationKey":"K0010000000000000005000000000000000600000000000000070000000000000008""#,
    ),
    Row(
        1000,
        "",
        KEY,
        "3_00000001_0000000000000003_0000000000000009_000000000000000a",
    ),
];

const REFUSALS: &[Row] = &[
    Row(
        2000,
        OF_KEY,
        Step::Call(
            CallName::ListFileNames,
            r#"{"bucketId":"000000000000000000000001","prefix":"log"}"#,
        ),
        r#"{"code":"unauthorized","message":"P10: name outside the prefix","status":401}"#,
    ),
    // It may not read retentions and holds.
    Row(
        2000,
        OF_KEY,
        Step::Call(
            CallName::ListFileNames,
            r#"{"bucketId":"000000000000000000000001","prefix":"logs/"}"#,
        ),
        r#""fileName":"logs/a","fileRetention":{"isClientAuthorizedToRead":false,"value":null},"legalHold":{"isClientAuthorizedToRead":false,"value":null},"#,
    ),
    Row(
        2000,
        OF_KEY,
        Step::Call(
            CallName::ListFileNames,
            r#"{"bucketId":"000000000000000000000002","prefix":"logs/"}"#,
        ),
        "P9: other bucket",
    ),
    Row(
        2000,
        OF_KEY,
        Step::Call(
            CallName::ListFileNames,
            r#"{"bucketId":"000000000000000000000003","prefix":"logs/"}"#,
        ),
        "P9: other bucket",
    ),
    Row(
        2000,
        OF_KEY,
        Step::Call(CallName::CreateBucket, SECOND),
        "P7: capability lacking",
    ),
    Row(
        2000,
        OF_KEY,
        Step::Call(CallName::GetUploadUrl, FIRST),
        "P7: capability lacking",
    ),
];

#[test]
fn limited_key(rt: HostRuntime) -> Result<(), Wrong> {
    holds(rt.alloc(), 9, LIMITED, REFUSALS)
}

// The token that is given for downloads.
const GIVEN: &str = "3_00000001_0000000000000004_000000000000000b_000000000000000c";

// Downloads by the key's token, and by one that is given for a minute.
const DOWNLOADS: &[Row] = &[
    Row(
        2000,
        MASTER,
        Step::Call(
            CallName::GetDownloadAuthorization,
            r#"{"bucketId":"000000000000000000000001","fileNamePrefix":"logs/","validDurationInSeconds":60}"#,
        ),
        r#"{"authorizationToken":"3_00000001_0000000000000004_000000000000000b_000000000000000c","bucketId":"000000000000000000000001","fileNamePrefix":"logs/"}"#,
    ),
    Row(2000, OF_KEY, Step::Fetch("logs/a"), "sends 0+3 logs/a;"),
    Row(2000, OF_KEY, Step::Fetch("logs/b"), "no such file"),
    Row(
        2000,
        OF_KEY,
        Step::Fetch("other"),
        "P10: name outside the prefix",
    ),
    Row(2000, GIVEN, Step::Fetch("logs/a"), "sends 0+3 logs/a;"),
    Row(
        2000,
        GIVEN,
        Step::Fetch("other"),
        "P10: name outside the prefix",
    ),
    Row(2000, MASTER, Step::Fetch("other"), "sends 3+3 other;"),
    Row(62_000, GIVEN, Step::Fetch("logs/a"), "P5: token has ended"),
];

#[test]
fn downloads_by_name(rt: HostRuntime) -> Result<(), Wrong> {
    holds(rt.alloc(), 9, LIMITED, DOWNLOADS)
}

const DELETED: &[Row] = &[
    Row(
        2000,
        MASTER,
        Step::Call(CallName::ListKeys, r#"{"accountId":"a1b2c3d4e5f6"}"#),
        r#""keyName":"logs","namePrefix":"logs/","options":[]}],"nextApplicationKeyId":null}"#,
    ),
    Row(
        2000,
        MASTER,
        Step::Call(
            CallName::DeleteKey,
            r#"{"applicationKeyId":"a1b2c3d4e5f6"}"#,
        ),
        "the master key stays",
    ),
    Row(
        2000,
        MASTER,
        Step::Call(
            CallName::DeleteKey,
            r#"{"applicationKeyId":"001a1b2c3d4e5f60000000001"}"#,
        ),
        r#""applicationKeyId":"001a1b2c3d4e5f60000000001""#,
    ),
    Row(
        2000,
        MASTER,
        Step::Call(
            CallName::DeleteKey,
            r#"{"applicationKeyId":"001a1b2c3d4e5f60000000001"}"#,
        ),
        "no such key",
    ),
    Row(
        2000,
        OF_KEY,
        Step::Call(CallName::ListFileNames, FIRST),
        "P4: key was deleted",
    ),
    Row(
        2000,
        MASTER,
        Step::Call(
            CallName::CreateKey,
            r#"{"accountId":"a1b2c3d4e5f6","bucketId":"000000000000000000000001","capabilities":["listKeys"],"keyName":"logs"}"#,
        ),
        "capability not given to a limited key",
    ),
];

#[test]
fn keys_that_go(rt: HostRuntime) -> Result<(), Wrong> {
    holds(rt.alloc(), 9, LIMITED, DELETED)
}
