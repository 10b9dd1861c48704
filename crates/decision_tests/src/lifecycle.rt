//! Rules that a bucket may not have, and the days of a name.

ghost use Rattle.std.specs.Prelude.{IfOk, IsTrue};
ghost use Rattle.b2_types.specs.LifecycleRules.{has_days};

use b2_base::{Moment, Text, VersionNum};
use b2_types::{Action, Rule};
use lifecycle_pass::{Face, RuleFault, plan_name, rules_ok};
use std::alloc::Global;
use std::test::Fail;

fn rule(alloc: Global, prefix: &str, days: u32) -> Result<Rule, Fail> {
    Ok(Rule {
        prefix: Text::copy(alloc, prefix)?,
        hide_days: Some(days),
        delete_days: None,
        cancel_days: Some(1),
    })
}

// As many bytes as all prefixes of a bucket may have.
fn long_prefix(alloc: Global) -> Result<String, Fail> {
    let mut text = String::new(alloc);
    for _ in 0..32_768 {
        text.push('x')?;
    }
    Ok(text)
}

#[test]
fn faults_of_rules(rt: HostRuntime) -> Result<(), Fail> {
    let alloc = rt.alloc();
    let long = long_prefix(alloc)?;
    let rows: [(&[(&str, u32)], _); 6] = [
        (&[], Ok(())),
        (&[("a/", 1), ("b/", 36_500)], Ok(())),
        (
            &[("a/", 1), ("b/", 0), ("c/", 36_501)],
            Err(RuleFault::Days(1)),
        ),
        (
            &[("b", 1), ("a/", 1), ("a/b", 1)],
            Err(RuleFault::Overlap(1, 2)),
        ),
        (&[("a/b", 1), ("", 1)], Err(RuleFault::Overlap(0, 1))),
        (&[(long.as_str(), 1), ("y", 1)], Err(RuleFault::Size)),
    ];
    for (wanted, answer) in rows {
        let mut rules = Vec::new(alloc);
        for (prefix, days) in wanted {
            rules.push(rule(alloc, prefix, *days)?)?;
        }
        assert_eq!(rt; rules_ok(&rules), answer);
    }
    let mut many = Vec::new(alloc);
    for _ in 0..101 {
        many.push(rule(alloc, "", 0)?)?;
    }
    assert_eq!(rt; rules_ok(&many), Err(RuleFault::TooMany));
    Ok(())
}

// A rule of one day for each part, for all names.
fn one_day(alloc: Global) -> Result<Rule, Fail>
    ensures { IfOk result (λ r. IsTrue (has_days r)) }
{
    Ok(Rule {
        prefix: Text::copy(alloc, "")?,
        hide_days: Some(1),
        delete_days: Some(1),
        cancel_days: Some(1),
    })
}

const DAY: u64 = 86_400_000;

// The numbers of the starts that go, 0 where the name is hidden, and the numbers of those that go below.
fn planned(
    alloc: Global,
    rows: &[(u64, Action, u64, bool)],
    t: u64,
    room: bool,
) -> Result<Vec<u64>, Fail> {
    let mut faces = Vec::new(alloc);
    for (num, action, stamp, protected) in rows {
        faces.push(Face {
            num: VersionNum::new(*num).ok_or("number")?,
            action: *action,
            stamp: Moment::from_reading(*stamp),
            protected: *protected,
        })?;
    }
    let rule = one_day(alloc)?;
    let plan = plan_name(alloc, &faces, &rule, Moment::from_reading(t), room)?;
    let mut told = Vec::new(alloc);
    for num in plan.cancels.get() {
        told.push(num.get())?;
    }
    if plan.hide {
        told.push(0)?;
    }
    for num in plan.drops.get() {
        told.push(num.get())?;
    }
    Ok(told)
}

#[test]
fn days_of_a_name(rt: HostRuntime) -> Result<(), Fail> {
    let alloc = rt.alloc();
    let upload = (1, Action::Upload, 0, false);
    let held = (1, Action::Upload, 0, true);
    let marker = (2, Action::Hide, DAY, false);
    let start = (3, Action::Start, 0, false);
    let rows: [(&[(u64, Action, u64, bool)], u64, bool, &[u64]); 8] = [
        (&[upload], DAY - 1, true, &[]),
        (&[upload], DAY, true, &[0]),
        (&[upload], DAY, false, &[]),
        (&[marker, upload], 2 * DAY - 1, true, &[]),
        (&[marker, upload], 2 * DAY, true, &[2, 1]),
        (&[marker, held], 2 * DAY, true, &[]),
        (&[start, upload], DAY, true, &[3, 0]),
        (&[], DAY, true, &[]),
    ];
    for (versions, t, room, wanted) in rows {
        let told = planned(alloc, versions, t, room)?;
        assert_eq!(rt; told.as_slice(), wanted);
    }
    Ok(())
}
