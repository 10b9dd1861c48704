//! Deletions and changes under locks, and the ends of defaults.

use b2_base::{BucketNum, Extent, LAST_MOMENT, List, Moment, Text, VersionNum};
use b2_types::{Action, Denial, Mark, Mode, Period, Retention, Version, VersionOf};
use name_rules::{file_name, info_pairs};
use object_lock::{default_until, may_delete, may_set_retention};
use std::alloc::Global;
use std::test::Fail;

fn until(mode: Mode, end: u64) -> Result<Retention, Fail> {
    let until = Moment::new(end).ok_or("moment")?;
    Ok(Retention { mode, until })
}

fn version(alloc: Global, retention: Option<Retention>, hold: bool) -> Result<Version, Fail> {
    let pieces: Vec<Extent> = Vec::new(alloc);
    Ok(VersionOf {
        bucket: BucketNum::new(1).ok_or("bucket")?,
        num: VersionNum::new(1).ok_or("version")?,
        name: file_name(alloc, b"a").ok().ok_or("name")?,
        action: Action::Upload,
        stamp: Moment::new(1000).ok_or("moment")?,
        kind: Text::copy(alloc, "text/plain")?,
        info: info_pairs(alloc, &[]).ok().ok_or("info")?,
        content: List::of(pieces),
        mark: Mark::Verified,
        digest: [0; 20],
        retention,
        hold,
        parts: List::of(Vec::new(alloc)),
    })
}

#[test]
fn deletion_under_locks(rt: HostRuntime) -> Result<(), Fail> {
    let alloc = rt.alloc();
    let now = Moment::new(2000).ok_or("moment")?;
    let governed = Some(until(Mode::Governance, 9000)?);
    let complied = Some(until(Mode::Compliance, 9000)?);
    let ended = Some(until(Mode::Compliance, 2000)?);
    for (retention, hold, asked, may, answer) in [
        (None, false, false, false, Ok(())),
        (None, true, true, true, Err(Denial::P11)),
        (complied, true, true, true, Err(Denial::P11)),
        (complied, false, true, true, Err(Denial::P12)),
        (governed, false, false, true, Err(Denial::P13)),
        (governed, false, true, false, Err(Denial::P14)),
        (governed, false, true, true, Ok(())),
        (ended, false, false, false, Ok(())),
    ] {
        let version = version(alloc, retention, hold)?;
        assert_eq!(rt; may_delete(&version, now, asked, may), answer);
    }
    Ok(())
}

// The answer to a change of the retention of an upload at 2000: to this mode and end, or to none.
fn answer_to(
    alloc: Global,
    old: (Mode, u64),
    new: Option<(Mode, u64)>,
    asked: bool,
    may: bool,
) -> Result<Result<(), Denial>, Fail> {
    let now = Moment::new(2000).ok_or("moment")?;
    let (mode, end) = old;
    let version = version(alloc, Some(until(mode, end)?), false)?;
    let Some((mode, end)) = new else {
        return Ok(may_set_retention(&version, None, now, asked, may));
    };
    let retention = until(mode, end)?;
    Ok(may_set_retention(&version, Some(&retention), now, asked, may))
}

#[test]
fn changes_of_retention(rt: HostRuntime) -> Result<(), Fail> {
    let governed = (Mode::Governance, 9000);
    let complied = (Mode::Compliance, 9000);
    let earlier = (Mode::Compliance, 8999);
    for (old, new, asked, may, answer) in [
        (complied, Some(complied), false, false, Ok(())),
        (complied, Some(earlier), true, true, Err(Denial::P12)),
        (complied, Some(governed), true, true, Err(Denial::P12)),
        (complied, None, true, true, Err(Denial::P12)),
        (governed, Some(complied), false, false, Ok(())),
        (governed, Some(earlier), false, true, Err(Denial::P13)),
        (governed, None, true, false, Err(Denial::P14)),
        (governed, None, true, true, Ok(())),
    ] {
        assert_eq!(rt; answer_to(rt.alloc(), old, new, asked, may)?, answer);
    }
    Ok(())
}

#[test]
fn ends_of_defaults(rt: HostRuntime) -> Result<(), Fail> {
    let now = Moment::new(1000).ok_or("moment")?;
    for (period, end) in [
        (Period::Days(1), 86_401_000),
        (Period::Years(1), 31_536_001_000),
        (Period::Years(u32::MAX), LAST_MOMENT),
    ] {
        assert_eq!(rt; default_until(now, period).get(), end);
    }
    Ok(())
}
