//! Uploads to a store in memory, each to the first bucket.

use crate::steps::{begin_once, end_once, moment};
use crate::table::{Row, Step};
use crate::told::BEGUN;
use b2_base::{BucketNum, ConnNum, Extent, Memory, Text, VersionNum};
use b2_types::{DigestRule, FileUpload, PartUpload, UploadCall};
use core_state::Core;
use core_uploads::upload_lost;
use name_rules::{file_name, info_pairs};
use new_versions::Body;
use std::alloc::Global;

/// The digest of three bytes, "abc".
pub(crate) const ABC: [u8; 20] = [
    0xa9, 0x99, 0x3e, 0x36, 0x47, 0x06, 0x81, 0x6a, 0xba, 0x3e, 0x25, 0x71, 0x78, 0x50, 0xc2, 0x6c,
    0x9c, 0xd0, 0xd8, 0x9d,
];

fn file(alloc: Global, name: &str, length: u64, digest: DigestRule) -> Result<UploadCall, Memory> {
    let name = file_name(alloc, name.as_bytes()).ok().ok_or(Memory)?;
    let info = info_pairs(alloc, &[]).ok().ok_or(Memory)?;
    let kind = Text::copy(alloc, "b2/x-auto")?;
    Ok(UploadCall::File(FileUpload {
        bucket: BucketNum::new(1).unwrap(),
        length,
        digest,
        name,
        kind,
        info,
        retention: None,
        hold: false,
    }))
}

// A part of the first version, whose digest is one byte twenty times.
fn part(number: u32, length: u64, byte: u8) -> UploadCall {
    UploadCall::Part(PartUpload {
        bucket: BucketNum::new(1).unwrap(),
        file: VersionNum::new(1).unwrap(),
        length,
        digest: DigestRule::Given([byte; 20]),
        number,
    })
}

fn upload_of(alloc: Global, step: Step) -> Result<UploadCall, Memory> {
    match step {
        Step::Put(name, _) => file(alloc, name, 3, DigestRule::Given(ABC)),
        Step::Digest(length, rule, _) => file(alloc, "a.txt", length, rule),
        Step::Part(number, length, byte) => Ok(part(number, length, byte)),
        _ => file(alloc, "a.txt", 3, DigestRule::NotVerified),
    }
}

// What came of the step's upload: the place of the content, its length, its digest, and what is told
// of it.
fn body_of(step: Step) -> Body {
    let (at, len, digest, told) = match step {
        Step::Put(_, at) => (at, 3, ABC, None),
        Step::Digest(_, _, told) => (0, 3, ABC, told),
        Step::Part(_, length, byte) => (u64::from(byte) * 100, length, [byte; 20], None),
        _ => (0, 3, ABC, None),
    };
    Body {
        content: Extent { at, len },
        digest,
        told,
    }
}

fn conn_of(number: u32) -> ConnNum {
    ConnNum::new(number).unwrap_or(ConnNum::new(1).unwrap())
}

/// The upload of the row begins on this connection: the state after it, and the refusal.
pub(crate) fn begun(
    alloc: Global,
    core: Core,
    row: &Row,
    conn: u32,
) -> Result<(Core, Text), Memory> {
    let upload = upload_of(alloc, row.step())?;
    begin_once(alloc, core, row, conn_of(conn), upload)
}

/// The upload on the connection ends.
pub(crate) fn ended(
    alloc: Global,
    core: Core,
    row: &Row,
    conn: u32,
) -> Result<(Core, Text), Memory> {
    end_once(alloc, core, row, conn_of(conn), &body_of(row.step()))
}

/// The connection is lost.
pub(crate) fn lost(core: Core, row: &Row, conn: u32) -> Core {
    let t = moment(&core, row.reading());
    upload_lost(core, t, conn_of(conn))
}

/// The upload of the row on a connection of its own, from its begin to its end; where its begin is
/// refused this is the answer.
pub(crate) fn uploaded(alloc: Global, core: Core, row: &Row) -> Result<(Core, Text), Memory> {
    let (core, told) = begun(alloc, core, row, 9)?;
    if told.get() != BEGUN {
        return Ok((core, told));
    }
    ended(alloc, core, row, 9)
}
