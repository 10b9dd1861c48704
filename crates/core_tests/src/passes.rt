//! Records that no call writes: passes, and what does not apply.

use crate::buckets::{AUTHORIZE, MASTER};
use crate::table::{Row, Step, Wrong, holds};
use crate::uploads::{GET_URL, URL};
use rule_table::CallName;

// A file in a bucket with a day to hiding and a day to deleting.
const RULED: &[Row] = &[
    AUTHORIZE,
    Row(
        1000,
        MASTER,
        Step::Call(
            CallName::CreateBucket,
            r#"{"accountId":"a1b2c3d4e5f6","bucketName":"photos-1","bucketType":"allPrivate","fileLockEnabled":true,"lifecycleRules":[{"daysFromHidingToDeleting":1,"daysFromUploadingToHiding":1,"fileNamePrefix":""}]}"#,
        ),
        r#""daysFromHidingToDeleting":1"#,
    ),
    GET_URL,
    Row(
        2000,
        URL,
        Step::Put("a", 5),
        r#""fileId":"4_z00000001_f0000000000000001""#,
    ),
];

const HIDDEN: &[Row] = &[
    Row(
        86_401_999,
        MASTER,
        Step::Pass,
        "1 versions, 0 bytes given up",
    ),
    Row(
        86_402_000,
        MASTER,
        Step::Pass,
        "2 versions, 0 bytes given up",
    ),
    Row(
        172_801_999,
        MASTER,
        Step::Pass,
        "2 versions, 0 bytes given up",
    ),
    Row(
        172_802_000,
        MASTER,
        Step::Pass,
        "0 versions, 3 bytes given up",
    ),
];

#[test]
fn hidden_and_deleted(rt: HostRuntime) -> Result<(), Wrong> {
    holds(rt.alloc(), 9, RULED, HIDDEN)
}

const HELD: &[Row] = &[
    Row(
        2000,
        MASTER,
        Step::Call(
            CallName::UpdateFileLegalHold,
            r#"{"fileId":"4_z00000001_f0000000000000001","fileName":"a","legalHold":"on"}"#,
        ),
        r#""legalHold":"on"}"#,
    ),
    Row(
        86_401_999,
        MASTER,
        Step::Pass,
        "1 versions, 0 bytes given up",
    ),
    Row(
        86_402_000,
        MASTER,
        Step::Pass,
        "2 versions, 0 bytes given up",
    ),
    Row(
        172_802_000,
        MASTER,
        Step::Pass,
        "2 versions, 0 bytes given up",
    ),
];

#[test]
fn held_meanwhile(rt: HostRuntime) -> Result<(), Wrong> {
    holds(rt.alloc(), 9, RULED, HELD)
}

// A marker in a bucket that is none, or of a number that stands, doesn't apply. A version that is
// dropped gives its content up.
const RECORDS: &[Row] = &[
    Row(2000, MASTER, Step::Mark(2, 2), "the record does not apply"),
    Row(2000, MASTER, Step::Mark(1, 1), "the record does not apply"),
    Row(
        2000,
        MASTER,
        Step::Mark(1, 2),
        "2 versions, 0 bytes given up",
    ),
    Row(
        2000,
        MASTER,
        Step::Drop(1, 1),
        "1 versions, 3 bytes given up",
    ),
];

#[test]
fn records(rt: HostRuntime) -> Result<(), Wrong> {
    holds(rt.alloc(), 9, RULED, RECORDS)
}
