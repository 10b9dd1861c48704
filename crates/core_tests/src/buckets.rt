//! The tokens of the master key, and calls on buckets.

use crate::table::{Row, Step, Wrong, holds};
use rule_table::CallName;

/// The token of the master key: the first of the store.
pub(crate) const MASTER: &str = "3_00000001_0000000000000001_0000000000000001_0000000000000002";

/// The master key asks for a token at 1000.
pub(crate) const AUTHORIZE: Row = Row(
    1000,
    "",
    Step::Authorize("a1b2c3d4e5f6", "mastersecret01"),
    r#""authorizationToken":"3_00000001_0000000000000001_0000000000000001_0000000000000002"}"#,
);

const PHOTOS: &str =
    r#"{"accountId":"a1b2c3d4e5f6","bucketName":"photos-1","bucketType":"allPrivate"}"#;

/// The first bucket is made, which is private and without Object Lock.
pub(crate) const MAKE_BUCKET: Row = Row(
    1000,
    MASTER,
    Step::Call(CallName::CreateBucket, PHOTOS),
    r#""bucketId":"000000000000000000000001""#,
);

/// The body that makes the second bucket.
pub(crate) const SECOND: &str =
    r#"{"accountId":"a1b2c3d4e5f6","bucketName":"photos-2","bucketType":"allPrivate"}"#;

const ALL: &str = r#"{"accountId":"a1b2c3d4e5f6"}"#;

const BUCKET: &str =
    r#"{"accountId":"a1b2c3d4e5f6","bucketId":"000000000000000000000001","bucketInfo":{},"bucketName":"photos-1","bucketType":"allPrivate","corsRules":[],"defaultServerSideEncryption":{"isClientAuthorizedToRead":false,"value":null},"fileLockConfiguration":{"isClientAuthorizedToRead":true,"value":{"defaultRetention":{"mode":null,"period":null},"isFileLockEnabled":false}},"lifecycleRules":[],"options":[],"revision":1}"#;

// A false secret draws no word.
const AUTHORIZED: &[Row] = &[
    Row(
        1000,
        "",
        Step::Authorize("a1b2c3d4e5f6", "mastersecret02"),
        r#"{"code":"bad_auth_token","message":"P2: unknown token or key","status":401}"#,
    ),
    AUTHORIZE,
];

const LIFE: &[Row] = &[
    Row(
        2000,
        MASTER,
        Step::Call(CallName::CreateBucket, PHOTOS),
        BUCKET,
    ),
    Row(
        2000,
        MASTER,
        Step::Call(
            CallName::CreateBucket,
            r#"{"accountId":"a1b2c3d4e5f6","bucketName":"PHOTOS-1","bucketType":"allPublic"}"#,
        ),
        r#"{"code":"duplicate_bucket_name","message":"bucket name is taken","status":400}"#,
    ),
    Row(
        2000,
        MASTER,
        Step::Call(
            CallName::CreateBucket,
            r#"{"accountId":"a1b2c3d4e5f7","bucketName":"photos-2","bucketType":"allPublic"}"#,
        ),
        "P8: other account",
    ),
    Row(
        2000,
        MASTER,
        Step::Call(CallName::CreateBucket, "[]"),
        "body is not a JSON object",
    ),
    Row(
        2000,
        MASTER,
        Step::Call(
            CallName::UpdateBucket,
            r#"{"accountId":"a1b2c3d4e5f6","bucketId":"000000000000000000000001","bucketType":"allPublic"}"#,
        ),
        r#""revision":2}"#,
    ),
    Row(
        2000,
        MASTER,
        Step::Call(
            CallName::UpdateBucket,
            r#"{"accountId":"a1b2c3d4e5f6","bucketId":"000000000000000000000001","ifRevisionIs":1}"#,
        ),
        r#"{"code":"conflict","message":"revision differs: 2","status":409}"#,
    ),
    Row(
        2000,
        MASTER,
        Step::Call(
            CallName::UpdateBucket,
            r#"{"accountId":"a1b2c3d4e5f6","bucketId":"000000000000000000000001","ifRevisionIs":2}"#,
        ),
        r#""revision":3}"#,
    ),
    Row(
        2000,
        MASTER,
        Step::Call(CallName::ListBuckets, ALL),
        r#""revision":3}]}"#,
    ),
    Row(
        2000,
        MASTER,
        Step::Call(
            CallName::DeleteBucket,
            r#"{"accountId":"a1b2c3d4e5f6","bucketId":"000000000000000000000001"}"#,
        ),
        r#""revision":3}"#,
    ),
    Row(
        2000,
        MASTER,
        Step::Call(CallName::ListBuckets, ALL),
        r#"{"buckets":[]}"#,
    ),
];

#[test]
fn life_of_a_bucket(rt: HostRuntime) -> Result<(), Wrong> {
    holds(rt.alloc(), 9, AUTHORIZED, LIFE)
}

// A token serves for a day, and a pass forgets it a day after its end.
const DAYS: &[Row] = &[
    Row(
        86_400_999,
        MASTER,
        Step::Call(CallName::ListBuckets, ALL),
        r#"{"buckets":[]}"#,
    ),
    Row(
        86_401_000,
        MASTER,
        Step::Call(CallName::ListBuckets, ALL),
        "P5: token has ended",
    ),
    Row(
        172_800_999,
        MASTER,
        Step::Pass,
        "0 versions, 0 bytes given up",
    ),
    Row(
        172_800_999,
        MASTER,
        Step::Call(CallName::ListBuckets, ALL),
        "P5: token has ended",
    ),
    Row(
        172_801_000,
        MASTER,
        Step::Pass,
        "0 versions, 0 bytes given up",
    ),
    Row(
        172_801_000,
        MASTER,
        Step::Call(CallName::ListBuckets, ALL),
        "P2: unknown token or key",
    ),
];

#[test]
fn life_of_a_token(rt: HostRuntime) -> Result<(), Wrong> {
    holds(rt.alloc(), 9, AUTHORIZED, DAYS)
}
