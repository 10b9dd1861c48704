//! Uploads: their digests, their connections, and what is judged again at their ends.

use crate::buckets::{AUTHORIZE, MAKE_BUCKET, MASTER};
use crate::table::{Row, Step, Wrong, holds};
use crate::told::BEGUN;
use crate::uploading::ABC;
use b2_types::{ByteRange, DigestRule};
use rule_table::CallName;

/// The token of the first bucket's upload URL: the second of the store.
pub(crate) const URL: &str = "3_00000001_0000000000000002_0000000000000003_0000000000000004";

/// The first bucket.
pub(crate) const FIRST: &str = r#"{"bucketId":"000000000000000000000001"}"#;

/// A token for uploads to the first bucket.
pub(crate) const GET_URL: Row = Row(
    1000,
    MASTER,
    Step::Call(CallName::GetUploadUrl, FIRST),
    "3_00000001_0000000000000002_0000000000000003_0000000000000004",
);

/// The master key's token, the first bucket and its upload URL.
pub(crate) const PLAIN: &[Row] = &[AUTHORIZE, MAKE_BUCKET, GET_URL];

/// The id and the secret of the first key that is made then.
pub(crate) const KEY: Step = Step::Authorize(
    "001a1b2c3d4e5f60000000001",
    "K0010000000000000005000000000000000600000000000000070000000000000008",
);

/// Its token, the third.
pub(crate) const OF_KEY: &str = "3_00000001_0000000000000003_0000000000000009_000000000000000a";

const FILE: &str =
    r#"{"accountId":"a1b2c3d4e5f6","action":"upload","bucketId":"000000000000000000000001","contentLength":3,"contentMd5":null,"contentSha1":"a9993e364706816aba3e25717850c26c9cd0d89d","contentType":"text/plain","fileId":"4_z00000001_f0000000000000001","fileInfo":{},"fileName":"a.txt","fileRetention":{"isClientAuthorizedToRead":true,"value":{"mode":null,"retainUntilTimestamp":null}},"legalHold":{"isClientAuthorizedToRead":true,"value":"off"},"serverSideEncryption":{"algorithm":null,"mode":null},"uploadTimestamp":2000}"#;

const DIFFERS: &str = r#"{"code":"bad_request","message":"content digest differs","status":400}"#;

const DIGESTS: &[Row] = &[
    Row(
        2000,
        URL,
        Step::Digest(3, DigestRule::Given(ABC), None),
        FILE,
    ),
    Row(
        2000,
        URL,
        Step::Digest(3, DigestRule::Given([7; 20]), None),
        DIFFERS,
    ),
    Row(
        2000,
        URL,
        Step::Digest(43, DigestRule::AtEnd, Some(ABC)),
        r#""contentSha1":"a9993e364706816aba3e25717850c26c9cd0d89d","contentType":"text/plain","fileId":"4_z00000001_f0000000000000002""#,
    ),
    Row(
        2000,
        URL,
        Step::Digest(43, DigestRule::AtEnd, None),
        DIFFERS,
    ),
    Row(
        2000,
        URL,
        Step::Digest(3, DigestRule::NotVerified, None),
        r#""contentSha1":"unverified:a9993e364706816aba3e25717850c26c9cd0d89d","contentType":"text/plain","fileId":"4_z00000001_f0000000000000003""#,
    ),
];

#[test]
fn digests(rt: HostRuntime) -> Result<(), Wrong> {
    holds(rt.alloc(), 9, PLAIN, DIGESTS)
}

const RANGES: &[Row] = &[
    Row(2000, URL, Step::Put("a.txt", 5), FILE),
    Row(2000, MASTER, Step::Download(1, None), "sends 5+3 a.txt;"),
    Row(
        2000,
        MASTER,
        Step::Download(1, Some(ByteRange::Between(1, 1))),
        "sends 5+3 a.txt 1+1;",
    ),
    Row(
        2000,
        MASTER,
        Step::Download(1, Some(ByteRange::Last(2))),
        "sends 5+3 a.txt 1+2;",
    ),
    Row(
        2000,
        MASTER,
        Step::Download(1, Some(ByteRange::Between(2, 9))),
        "sends 5+3 a.txt 2+1;",
    ),
    Row(
        2000,
        MASTER,
        Step::Download(1, Some(ByteRange::From(3))),
        r#"{"code":"range_not_satisfiable","message":"range is not satisfiable","status":416}"#,
    ),
];

#[test]
fn ranges_of_three_bytes(rt: HostRuntime) -> Result<(), Wrong> {
    holds(rt.alloc(), 9, PLAIN, RANGES)
}

// Two uploads on one URL: the second begins once the first connection is lost.
const BUSY: &[Row] = &[
    Row(2000, URL, Step::Begin(1), BEGUN),
    Row(
        2000,
        URL,
        Step::Begin(2),
        r#"{"code":"service_unavailable","message":"upload URL is busy","status":503}"#,
    ),
    Row(2000, URL, Step::Lost(1), ""),
    Row(2000, URL, Step::Begin(2), BEGUN),
    Row(3000, URL, Step::End(2), r#""uploadTimestamp":3000"#),
    Row(3000, URL, Step::Begin(1), BEGUN),
];

#[test]
fn busy_url(rt: HostRuntime) -> Result<(), Wrong> {
    holds(rt.alloc(), 9, PLAIN, BUSY)
}

// The key of an upload is deleted while it is under way.
const KEY_DELETED: &[Row] = &[
    Row(
        1000,
        MASTER,
        Step::Call(
            CallName::CreateKey,
            r#"{"accountId":"a1b2c3d4e5f6","capabilities":["writeFiles"],"keyName":"camera"}"#,
        ),
        r#""applicationKey":"K0010000000000000005000000000000000600000000000000070000000000000008""#,
    ),
    Row(
        1000,
        "",
        KEY,
        "3_00000001_0000000000000003_0000000000000009_000000000000000a",
    ),
    Row(
        1000,
        OF_KEY,
        Step::Call(CallName::GetUploadUrl, FIRST),
        "3_00000001_0000000000000004_000000000000000b_000000000000000c",
    ),
    Row(
        2000,
        "3_00000001_0000000000000004_000000000000000b_000000000000000c",
        Step::Begin(1),
        BEGUN,
    ),
    Row(
        2000,
        MASTER,
        Step::Call(
            CallName::DeleteKey,
            r#"{"applicationKeyId":"001a1b2c3d4e5f60000000001"}"#,
        ),
        r#""keyName":"camera""#,
    ),
    Row(
        2000,
        MASTER,
        Step::End(1),
        r#"{"code":"unauthorized","message":"P4: key was deleted","status":401}"#,
    ),
    Row(
        2000,
        MASTER,
        Step::Call(CallName::ListFileVersions, FIRST),
        r#"{"files":[],"nextFileId":null,"nextFileName":null}"#,
    ),
];

#[test]
fn key_deleted_meanwhile(rt: HostRuntime) -> Result<(), Wrong> {
    holds(rt.alloc(), 9, PLAIN, KEY_DELETED)
}

const LAST_NUMBER: &[Row] = &[
    Row(2000, URL, Step::Put("a.txt", 5), FILE),
    Row(
        2000,
        URL,
        Step::Put("b.txt", 8),
        r#"{"code":"cap_exceeded","message":"no number is left","status":403}"#,
    ),
];

#[test]
fn last_number_of_a_version(rt: HostRuntime) -> Result<(), Wrong> {
    holds(rt.alloc(), 1, PLAIN, LAST_NUMBER)
}
