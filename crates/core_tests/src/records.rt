//! Records that no call writes.

use crate::steps::{moment, write_once};
use crate::table::{Row, Step};
use crate::told::record_text;
use b2_base::{BucketNum, Extent, Memory, Text, VersionNum};
use b2_types::{ChangeOf, Record, RecordOf, VersionId};
use core_state::Core;
use name_rules::file_name;
use std::alloc::Global;

fn id(bucket: u32, num: u64) -> Result<VersionId, Memory> {
    Ok(VersionId {
        bucket: BucketNum::new(bucket).ok_or(Memory)?,
        num: VersionNum::new(num).ok_or(Memory)?,
    })
}

fn change_of(alloc: Global, step: Step) -> Result<ChangeOf<Extent>, Memory> {
    match step {
        Step::Mark(bucket, num) => {
            let name = file_name(alloc, b"a").ok().ok_or(Memory)?;
            Ok(ChangeOf::Hide(id(bucket, num)?, name))
        }
        Step::Drop(bucket, num) => Ok(ChangeOf::VersionDrop(id(bucket, num)?)),
        _ => Ok(ChangeOf::Pass),
    }
}

fn written(alloc: Global, core: Core, written: Record) -> Result<(Core, Text), Memory> {
    let (core, bytes) = write_once(alloc, core, written)?;
    let told = record_text(alloc, core.count(), bytes);
    Ok((core, told))
}

/// The state after the record of the row: how many versions stand, and how many bytes it gives up.
pub(crate) fn recorded(alloc: Global, core: Core, row: &Row) -> Result<(Core, Text), Memory> {
    let at = moment(&core, row.reading());
    let change = change_of(alloc, row.step())?;
    written(alloc, core, RecordOf { at, change })
}
