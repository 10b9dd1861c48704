//! Lifecycle rules.

ghost use Rattle.std.specs.Prelude.{◌≡◌, ◌-◌, ◌^◌, min, IfOk};
ghost use Rattle.std.specs.List.{list_any};
ghost use Rattle.serde_json.specs.View.{view};
ghost use Rattle.json_shape.specs.Fields.{Gives};
ghost use Rattle.field_kinds.specs.Reader.{optional};
ghost use Rattle.b2_types.specs.LifecycleRules.{overlap, are_apart};
ghost use Rattle.field_kinds.specs.Rules.{rule_fields, rule, prefix_bytes, are_rules, rules};

use crate::reader::{FromJson, needed, optional, optional_u32, wrong};
use b2_base::{List, Memory, Or};
use b2_types::{Fault, Rule};
use name_rules::is_prefix;
use serde_json::Value;
use std::alloc::Global;

fn rule_fields(alloc: Global, body: &Value) -> Result<Rule, Or<Fault>>
    ensures { Gives (λ r. r) result (rule_fields (view body.now)) }
{
    let delete_days = optional_u32(alloc, body, "daysFromHidingToDeleting", 1, 36_500)?;
    let cancel = "daysFromStartingToCancelingUnfinishedLargeFiles";
    let cancel_days = optional_u32(alloc, body, cancel, 1, 36_500)?;
    let hide_days = optional_u32(alloc, body, "daysFromUploadingToHiding", 1, 36_500)?;
    let prefix = needed(alloc, body, "fileNamePrefix")?;
    Ok(Rule {
        prefix,
        hide_days,
        delete_days,
        cancel_days,
    })
}

impl FromJson for Rule {
    ghost kind = { rule };

    fn from_json(alloc: Global, value: &Value) -> Result<Option<Rule>, Memory> {
        match rule_fields(alloc, value) {
            Ok(rule) => Ok(Some(rule)),
            Err(Or::Memory) => Err(Memory),
            Err(Or::Fault(_)) => Ok(None),
        }
    }
}

fn overlap(rule: &Rule, other: &Rule) -> bool
    ensures { result ≡ overlap rule.now other.now }
{
    let prefix = rule.prefix.get().as_bytes();
    let others = other.prefix.get().as_bytes();
    is_prefix(prefix, others) | is_prefix(others, prefix)
}

fn overlaps_any(rule: &Rule, others: &[Rule]) -> bool
    ensures { result ≡ list_any (overlap rule.now) others.now }
{
    let mut found = false;
    for other in others {
        found = found | overlap(rule, other);
    }
    found
}

fn are_apart(rules: &[Rule]) -> bool
    ensures { result ≡ are_apart rules.now }
{
    let Some((rule, others)) = rules.split_first() else {
        return true;
    };
    if overlaps_any(rule, others) {
        return false;
    }
    are_apart(others)
}

// The bytes of all prefixes; the count stops where a usize ends.
fn prefix_bytes(rules: &[Rule]) -> usize
    ensures { result ≡ min (prefix_bytes rules.now) (2 ^ 64 - 1) }
{
    let mut bytes = 0usize;
    for rule in rules {
        bytes = bytes.saturating_add(rule.prefix.get().len());
    }
    bytes
}

fn are_rules(rules: &[Rule]) -> bool
    ensures { result ≡ are_rules rules.now }
{
    let are_few = rules.len() <= 100;
    let are_short = prefix_bytes(rules) <= 32_768;
    if !(are_few & are_short) {
        return false;
    }
    are_apart(rules)
}

/// The rules at the key, where they are there.
pub fn optional_rules(
    alloc: Global,
    body: &Value,
    key: &str,
) -> Result<Option<List<Rule>>, Or<Fault>>
    ensures { Gives (λ x. x) result (optional key.now rules (view body.now)) }
{
    let found: Option<List<Rule>> = optional(alloc, body, key)?;
    let Some(found) = found else {
        return Ok(None);
    };
    if !are_rules(found.get()) {
        return Err(Or::Fault(wrong(alloc, key)?));
    }
    Ok(Some(found))
}
