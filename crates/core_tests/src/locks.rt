//! Deletions that Object Lock refuses.

use crate::buckets::{AUTHORIZE, MASTER};
use crate::table::{Row, Step, Wrong, holds};
use crate::uploads::{GET_URL, KEY, OF_KEY, URL};
use rule_table::CallName;

const FILE: &str = r#"{"fileId":"4_z00000001_f0000000000000001","fileName":"a"}"#;

const BYPASS: &str =
    r#"{"bypassGovernance":true,"fileId":"4_z00000001_f0000000000000001","fileName":"a"}"#;

// One file in a bucket with Object Lock, and a key that may delete files and not bypass governance.
const LOCKED: &[Row] = &[
    AUTHORIZE,
    Row(
        1000,
        MASTER,
        Step::Call(
            CallName::CreateBucket,
            r#"{"accountId":"a1b2c3d4e5f6","bucketName":"photos-1","bucketType":"allPrivate","fileLockEnabled":true}"#,
        ),
        r#""isFileLockEnabled":true"#,
    ),
    GET_URL,
    Row(
        2000,
        URL,
        Step::Put("a", 0),
        r#""fileId":"4_z00000001_f0000000000000001""#,
    ),
    Row(
        2000,
        MASTER,
        Step::Call(
            CallName::CreateKey,
            r#"{"accountId":"a1b2c3d4e5f6","capabilities":["deleteFiles"],"keyName":"cleaner"}"#,
        ),
        r#""applicationKey":"K0010000000000000005000000000000000600000000000000070000000000000008""#,
    ),
    Row(
        2000,
        "",
        KEY,
        "3_00000001_0000000000000003_0000000000000009_000000000000000a",
    ),
];

const GOVERNANCE: &[Row] = &[
    Row(
        3000,
        MASTER,
        Step::Call(
            CallName::UpdateFileRetention,
            r#"{"fileId":"4_z00000001_f0000000000000001","fileName":"a","fileRetention":{"mode":"governance","retainUntilTimestamp":9000}}"#,
        ),
        r#""fileRetention":{"mode":"governance","retainUntilTimestamp":9000}}"#,
    ),
    Row(
        3000,
        MASTER,
        Step::Call(CallName::DeleteFileVersion, FILE),
        r#"{"code":"access_denied","message":"P13: governance, bypass not asked","status":403}"#,
    ),
    Row(
        3000,
        OF_KEY,
        Step::Call(CallName::DeleteFileVersion, FILE),
        "P13: governance, bypass not asked",
    ),
    Row(
        3000,
        OF_KEY,
        Step::Call(CallName::DeleteFileVersion, BYPASS),
        "P14: governance, bypass not held",
    ),
    Row(
        3000,
        MASTER,
        Step::Call(CallName::DeleteFileVersion, BYPASS),
        FILE,
    ),
    Row(
        3000,
        MASTER,
        Step::Call(CallName::DeleteFileVersion, BYPASS),
        "no such file",
    ),
];

#[test]
fn governance(rt: HostRuntime) -> Result<(), Wrong> {
    holds(rt.alloc(), 9, LOCKED, GOVERNANCE)
}

// What is held or under compliance is deleted by nobody, before the one is off and the other ended.
const COMPLIANCE: &[Row] = &[
    Row(
        3000,
        MASTER,
        Step::Call(
            CallName::UpdateFileLegalHold,
            r#"{"fileId":"4_z00000001_f0000000000000001","fileName":"a","legalHold":"on"}"#,
        ),
        r#""legalHold":"on"}"#,
    ),
    Row(
        3000,
        MASTER,
        Step::Call(CallName::DeleteFileVersion, BYPASS),
        "P11: legal hold",
    ),
    Row(
        3000,
        MASTER,
        Step::Call(
            CallName::UpdateFileLegalHold,
            r#"{"fileId":"4_z00000001_f0000000000000001","fileName":"a","legalHold":"off"}"#,
        ),
        r#""legalHold":"off"}"#,
    ),
    Row(
        3000,
        MASTER,
        Step::Call(
            CallName::UpdateFileRetention,
            r#"{"fileId":"4_z00000001_f0000000000000001","fileName":"a","fileRetention":{"mode":"compliance","retainUntilTimestamp":9000}}"#,
        ),
        r#""fileRetention":{"mode":"compliance","retainUntilTimestamp":9000}}"#,
    ),
    Row(
        8999,
        MASTER,
        Step::Call(CallName::DeleteFileVersion, FILE),
        "P12: compliance",
    ),
    Row(
        8999,
        MASTER,
        Step::Call(CallName::DeleteFileVersion, BYPASS),
        "P12: compliance",
    ),
    Row(
        9000,
        MASTER,
        Step::Call(CallName::DeleteFileVersion, FILE),
        FILE,
    ),
];

#[test]
fn hold_and_compliance(rt: HostRuntime) -> Result<(), Wrong> {
    holds(rt.alloc(), 9, LOCKED, COMPLIANCE)
}
