//! Calls on a store in memory.

use crate::copying::{checked, copied};
use crate::steps::ask_once;
use crate::table::{Row, Step};
use crate::told::{empty, list_text};
use b2_base::{BucketNum, Memory, Text, VersionNum};
use b2_types::{ApiVersion, Authorize, ByteRange, Call, Credentials, DownloadById, DownloadByName};
use call_fields::read_call;
use core_state::Core;
use name_rules::file_name;
use outside_traits::ListWords;
use std::alloc::Global;

fn credentials(alloc: Global, id: &str, secret: &str) -> Result<Call, Memory> {
    let id = Text::copy(alloc, id)?;
    let secret = Text::copy(alloc, secret)?;
    Ok(Call::AuthorizeAccount(Authorize {
        version: ApiVersion::V3,
        credentials: Some(Credentials { id, secret }),
    }))
}

fn by_id(num: u64, range: Option<ByteRange>) -> Result<Call, Memory> {
    Ok(Call::DownloadFileById(DownloadById {
        bucket: BucketNum::new(1).unwrap(),
        file: VersionNum::new(num).ok_or(Memory)?,
        range,
    }))
}

fn by_name(alloc: Global, name: &str) -> Result<Call, Memory> {
    Ok(Call::DownloadFileByName(DownloadByName {
        bucket: Text::copy(alloc, "photos-1")?,
        name: file_name(alloc, name.as_bytes()).ok().ok_or(Memory)?,
        range: None,
    }))
}

// The call that the step makes.
fn call_of(alloc: Global, step: Step) -> Result<Call, Memory> {
    match step {
        Step::Call(name, body) | Step::Check(name, body) | Step::List(name, body) => {
            read_call(alloc, name, ApiVersion::V3, body.as_bytes())
        }
        Step::Authorize(id, secret) => credentials(alloc, id, secret),
        Step::Download(num, range) => by_id(num, range),
        Step::Fetch(name) => by_name(alloc, name),
        _ => Err(Memory),
    }
}

fn answered(
    alloc: Global,
    core: Core,
    luck: &mut ListWords,
    row: &Row,
    call: &Call,
) -> Result<(Core, Text), Memory> {
    match row.step() {
        Step::Check(..) => {
            let told = checked(alloc, &core, row, call);
            Ok((core, told))
        }
        _ => match call {
            Call::CopyFile(_) | Call::CopyPart(_) => copied(alloc, core, row, call),
            _ => ask_once(alloc, core, luck, row, call),
        },
    }
}

fn with_call(
    alloc: Global,
    core: Core,
    luck: &mut ListWords,
    row: &Row,
    call: Call,
) -> Result<(Core, Text), Memory> {
    let told = answered(alloc, core, luck, row, &call);
    drop(call);
    told
}

/// The call of the row: the state after it, and the answer.
pub(crate) fn served(
    alloc: Global,
    core: Core,
    luck: &mut ListWords,
    row: &Row,
) -> Result<(Core, Text), Memory> {
    let call = call_of(alloc, row.step())?;
    with_call(alloc, core, luck, row, call)
}

/// The listing of the row: its names, and what stands behind its rows.
pub(crate) fn listed(
    alloc: Global,
    core: Core,
    luck: &mut ListWords,
    row: &Row,
) -> Result<(Core, Text), Memory> {
    let (core, told) = served(alloc, core, luck, row)?;
    Ok((core, list_text(alloc, told)))
}
