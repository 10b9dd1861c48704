//! Copies of what a bucket holds.

ghost use Rattle.std.specs.Prelude.{◌≡◌, IfOk};

use b2_base::{List, Memory, Text};
use b2_types::Rule;
use name_rules::BucketName;
use std::alloc::Global;

/// The same name.
pub fn copy_name(alloc: Global, name: &BucketName) -> Result<BucketName, Memory>
    ensures { IfOk result (λ n. n ≡ name.now) }
{
    let text = Text::copy(alloc, name.get())?;
    Ok(BucketName::of(text))
}

fn copy_rule(alloc: Global, rule: &Rule) -> Result<Rule, Memory>
    ensures { IfOk result (λ r. r ≡ rule.now) }
{
    let prefix = Text::copy(alloc, rule.prefix.get())?;
    Ok(Rule {
        prefix,
        hide_days: rule.hide_days,
        delete_days: rule.delete_days,
        cancel_days: rule.cancel_days,
    })
}

/// The same rules.
pub fn copy_rules(alloc: Global, rules: &[Rule]) -> Result<List<Rule>, Memory>
    ensures { IfOk result (λ rs. rs ≡ rules.now) }
{
    let mut copies = Vec::new(alloc);
    for rule in rules {
        copies.push(copy_rule(alloc, rule)?)?;
    }
    Ok(List::of(copies))
}
