//! Tables of steps on a store in memory, and what each step tells.

use crate::asking::{listed, served};
use crate::records::recorded;
use crate::store::{opened, words};
use crate::told::empty;
use crate::uploading::{begun, ended, lost, uploaded};
use b2_base::{Memory, Text};
use b2_types::{ByteRange, DigestRule};
use core_state::Core;
use outside_traits::ListWords;
use rule_table::CallName;
use std::alloc::Global;

/// Why a table does not hold.
#[derive(Debug, Drop)]
pub(crate) enum Wrong {
    Memory,
    /// What a step told in place of what it should.
    Told(Text),
}

impl From<Memory> for Wrong {
    fn from(_: Memory) -> Wrong {
        Wrong::Memory
    }
}

/// A step on a store.
#[derive(Clone, Copy)]
pub(crate) enum Step<'a> {
    /// The call of this body; that of a copy makes two bytes at 50, whatever was asked for.
    Call(CallName, &'a str),
    /// Which bytes the copy of this body takes.
    Check(CallName, &'a str),
    /// The listing of this body: its names, and what stands behind its rows.
    List(CallName, &'a str),
    /// The key of this id, with this secret, asks for a token.
    Authorize(&'a str, &'a str),
    /// A download of the version of this number from the first bucket.
    Download(u64, Option<ByteRange>),
    /// A download of the file of this name from the bucket `photos-1`.
    Fetch(&'a str),
    /// Three bytes at this place come under this name, on a connection of their own.
    Put(&'a str, u64),
    /// They come as `a.txt` under a rule for their digest, with what is told of it.
    Digest(u64, DigestRule, Option<[u8; 20]>),
    /// A part of the first version: its number, its length, and the byte of its digest.
    Part(u32, u64, u8),
    /// An upload of `a.txt` begins on this connection, ends or is lost.
    Begin(u32),
    End(u32),
    Lost(u32),
    /// A pass of the lifecycle rules.
    Pass,
    /// A record of a marker that hides the name `a`, or of a version that is dropped.
    Mark(u32, u64),
    Drop(u32, u64),
}

/// When a step is taken, with which token, the step, and a piece of what it tells.
pub(crate) struct Row<'a>(
    pub(crate) u64,
    pub(crate) &'a str,
    pub(crate) Step<'a>,
    pub(crate) &'a str,
);

impl<'a> Row<'a> {
    /// What the clock reads.
    pub(crate) fn reading(&self) -> u64 {
        self.0
    }

    pub(crate) fn token(&self) -> &'a str {
        self.1
    }

    pub(crate) fn step(&self) -> Step<'a> {
        self.2
    }
}

fn taken(
    alloc: Global,
    core: Core,
    luck: &mut ListWords,
    row: &Row,
) -> Result<(Core, Text), Memory> {
    match row.step() {
        Step::List(..) => listed(alloc, core, luck, row),
        Step::Put(..) | Step::Digest(..) | Step::Part(..) => uploaded(alloc, core, row),
        Step::Begin(conn) => begun(alloc, core, row, conn),
        Step::End(conn) => ended(alloc, core, row, conn),
        Step::Lost(conn) => Ok((lost(core, row, conn), empty(alloc))),
        Step::Pass | Step::Mark(..) | Step::Drop(..) => recorded(alloc, core, row),
        _ => served(alloc, core, luck, row),
    }
}

fn judged(row: &Row, told: Text) -> Result<(), Wrong> {
    if told.get().contains(row.3) {
        Ok(())
    } else {
        Err(Wrong::Told(told))
    }
}

// Up to the first step that tells something else than it should.
fn walked(
    alloc: Global,
    core: Core,
    luck: &mut ListWords,
    first: &[Row],
    rows: &[Row],
) -> Result<(), Wrong> {
    let mut core = core;
    for row in first.iter().chain(rows) {
        let (next, told) = taken(alloc, core, luck, row)?;
        core = next;
        judged(row, told)?;
    }
    Ok(())
}

/// Takes the steps of two tables, one after the other, on a store that was opened and that gives
/// version numbers up to the last; each is to tell what it should.
pub(crate) fn holds(alloc: Global, last: u32, first: &[Row], rows: &[Row]) -> Result<(), Wrong> {
    let mut luck = words(alloc)?;
    let core = opened(alloc, last)?;
    walked(alloc, core, &mut luck, first, rows)
}
