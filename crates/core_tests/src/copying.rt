//! Copies on a state in memory, in their two steps.

use crate::steps::{carry_out, moment};
use crate::table::Row;
use crate::told::{body_of, empty, plan_text};
use b2_base::{Extent, Memory, Moment, Or, Text};
use b2_types::{AnswerOf, Call, Fault};
use copy_calls::CopiedBytes;
use core_copies::{CopyPlan, check_file_copy, check_part_copy, end_file_copy, end_part_copy};
use core_decisions::Decision;
use core_state::Core;
use std::alloc::Global;

// What is copied, or the body of what refuses it.
fn told_of(alloc: Global, plan: Result<CopyPlan, Or<Fault>>) -> Text {
    match plan {
        Ok(plan) => plan_text(alloc, &plan).unwrap_or(empty(alloc)),
        Err(Or::Fault(fault)) => body_of(alloc, AnswerOf::Refused(fault)),
        Err(Or::Memory) => empty(alloc),
    }
}

/// Which bytes of the source a copy takes, or what refuses it.
pub(crate) fn checked(alloc: Global, core: &Core, row: &Row, call: &Call) -> Text {
    let t = moment(core, row.reading());
    let token = Some(row.token().as_bytes());
    match call {
        Call::CopyFile(call) => told_of(alloc, check_file_copy(alloc, core, t, token, call)),
        Call::CopyPart(call) => told_of(alloc, check_part_copy(alloc, core, t, token, call)),
        _ => empty(alloc),
    }
}

// The copy's bytes are the two at 50, whatever was asked for.
fn decided(
    alloc: Global,
    core: &Core,
    t: Moment,
    token: &str,
    call: &Call,
) -> Result<Decision, Memory> {
    let token = Some(token.as_bytes());
    let bytes = CopiedBytes {
        content: Extent { at: 50, len: 2 },
        digest: [7; 20],
    };
    match call {
        Call::CopyFile(call) => end_file_copy(alloc, core, t, token, call, &bytes),
        Call::CopyPart(call) => end_part_copy(core, t, token, call, &bytes),
        _ => Err(Memory),
    }
}

/// A copy whose bytes are copied: the state after it, and the answer.
pub(crate) fn copied(
    alloc: Global,
    core: Core,
    row: &Row,
    call: &Call,
) -> Result<(Core, Text), Memory> {
    let t = moment(&core, row.reading());
    let decision = decided(alloc, &core, t, row.token(), call)?;
    carry_out(alloc, core, decision)
}
