//! Passes over a bucket of a few names.

ghost use Rattle.std.specs.Prelude.{◌≡◌, IfOk, IsTrue};
ghost use Rattle.std.specs.List.{list_all};
ghost use Rattle.b2_types.specs.LifecycleRules.{has_days};
ghost use Rattle.index_rows.specs.OwnRows.{AreOwn, spot_of};
ghost use Rattle.listing_pages.specs.Few.{spot_at};

use crate::pages::{bucket, no_info, put, version};
use b2_base::{List, Memory, Moment, Text, VersionNum};
use b2_types::{Action, Bucket, Rule, Version};
use bucket_pass::{NamePlan, plan_bucket};
use name_rules::bucket_name;
use std::alloc::Global;
use std::test::Fail;
use version_index::Index;

const DAY: u64 = 86_400_000;

// A bucket's versions: names, numbers, actions, stamps, and whether they are held.
const ROWS: [(&str, u64, Action, u64, bool); 8] = [
    ("logs/w", 5, Action::Start, 0, false),
    ("logs/x", 1, Action::Upload, 0, false),
    ("logs/x", 2, Action::Upload, 0, false),
    ("logs/y", 3, Action::Upload, 0, false),
    ("logs/y", 6, Action::Hide, DAY, false),
    ("logs/z", 4, Action::Upload, 0, true),
    ("logs/z", 7, Action::Hide, DAY, false),
    ("other", 8, Action::Upload, 0, false),
];

fn stored_version(
    alloc: Global,
    name: &str,
    num: VersionNum,
    action: Action,
    stamp: u64,
    hold: bool,
) -> Result<Version, Memory>
    ensures spot { IfOk result (λ v. spot_of v ≡ spot_at name.now num) }
    ensures num { IfOk result (λ v. v.num ≡ num) }
{
    let mut made = version(alloc, name, num, action)?;
    made.stamp = Moment::from_reading(stamp);
    made.hold = hold;
    Ok(made)
}

fn stored(alloc: Global) -> Result<Index<Version>, Memory>
    ensures { IfOk result (λ index. AreOwn index) }
{
    let mut index = Index::new(alloc);
    for (name, num, action, stamp, hold) in ROWS {
        let num = VersionNum::new(num).ok_or(Memory)?;
        let version = stored_version(alloc, name, num, action, stamp, hold)?;
        put(alloc, &mut index, name, version)?;
    }
    Ok(index)
}

// A rule of one day for each part.
fn one_day(alloc: Global) -> Result<Rule, Memory>
    ensures { IfOk result (λ r. IsTrue (has_days r)) }
{
    Ok(Rule {
        prefix: Text::copy(alloc, "logs/")?,
        hide_days: Some(1),
        delete_days: Some(1),
        cancel_days: Some(1),
    })
}

fn ruled(alloc: Global) -> Result<Bucket, Memory>
    ensures { IfOk result (λ b. IsTrue (list_all has_days b.rules)) }
{
    let name = bucket_name(alloc, b"photos-1").ok().ok_or(Memory)?;
    let info = no_info(alloc)?;
    let mut rules = Vec::new(alloc);
    rules.push(one_day(alloc)?)?;
    Ok(Bucket {
        num: bucket(),
        name,
        public: false,
        revision: 1,
        lock: true,
        default: None,
        info,
        rules: List::of(rules),
    })
}

fn push_numbers(told: &mut Vec<u64>, numbers: &[VersionNum]) -> Result<(), Memory> {
    for number in numbers {
        told.push(number.get())?;
    }
    Ok(())
}

// Of each name that changes its last byte, the starts that go, 0 where it is hidden, and the
// others that go.
fn told(alloc: Global, changes: &[NamePlan]) -> Result<Vec<u64>, Memory> {
    let mut told = Vec::new(alloc);
    for change in changes {
        let last = change.name.get().as_bytes().last().copied();
        told.push(u64::from(last.unwrap_or(0)))?;
        push_numbers(&mut told, change.plan.cancels.get())?;
        if change.plan.hide {
            told.push(0)?;
        }
        push_numbers(&mut told, change.plan.drops.get())?;
    }
    Ok(told)
}

// What a pass at the moment changes, where `next` is the number of the next version and 9 the last.
fn passed(alloc: Global, t: u64, next: u64) -> Result<Vec<u64>, Memory> {
    let index = stored(alloc)?;
    let bucket = ruled(alloc)?;
    let last = VersionNum::new(9).ok_or(Memory)?;
    let t = Moment::from_reading(t);
    let changes = plan_bucket(alloc, &index, &bucket, t, next, last)?;
    told(alloc, changes.get())
}

#[test]
fn passes_of_a_bucket(rt: HostRuntime) -> Result<(), Fail> {
    let (w, x, y) = (u64::from(b'w'), u64::from(b'x'), u64::from(b'y'));
    let rows: [(u64, u64, &[u64]); 4] = [
        (DAY - 1, 9, &[]),
        (DAY, 9, &[w, 5, x, 0, 1]),
        (2 * DAY, 9, &[w, 5, x, 0, 1, y, 6, 3]),
        (2 * DAY, 10, &[w, 5, x, 1, y, 6, 3]),
    ];
    for (t, next, wanted) in rows {
        let told = passed(rt.alloc(), t, next).ok().ok_or("memory")?;
        assert_eq!(rt; told.as_slice(), wanted);
    }
    Ok(())
}
