//! Which rules a bucket may have.

ghost use Rattle.std.specs.Prelude.{◌≡◌, ◌<◌, nat_lt, sum_by, length, option_map, IsTrue, MatchResult, position, not, None};
ghost use Rattle.b2_types.specs.LifecycleRules.{are_apart, are_rules, fits_days, has_days, overlap};
ghost use Rattle.lifecycle_pass.specs.Rules.{IsRuleFault, first_overlap};

use b2_types::Rule;
use name_rules::is_prefix;

/// Why rules are refused. A rule is named by its place, counted from 0.
#[derive(Clone, Copy, Debug, PartialEq, Eq)]
pub enum RuleFault {
    /// There are more than 100.
    TooMany,
    /// The first whose days are not from 1 to 36,500.
    Days(usize),
    /// Their prefixes have more than 32,768 bytes together.
    Size,
    /// The first two of which one prefix begins the other.
    Overlap(usize, usize),
}

/// The most rules of a bucket.
const MOST_RULES: usize = 100;

/// The most bytes of the prefixes of a bucket's rules.
const MOST_BYTES: usize = 32_768;

/// The most days of a part of a rule.
const MOST_DAYS: u32 = 36_500;

fn fits_days(days: Option<u32>) -> bool
    ensures { result ≡ fits_days days }
{
    match days {
        Some(days) => (1 <= days) & (days <= MOST_DAYS),
        None => true,
    }
}

fn has_days(rule: &Rule) -> bool
    ensures { result ≡ has_days rule.now }
{
    fits_days(rule.hide_days) & fits_days(rule.delete_days) & fits_days(rule.cancel_days)
}

// The first without such days.
fn without_days(rules: &[Rule]) -> Option<usize>
    ensures { result ≡ position (λ r. not (has_days r)) rules.now }
{
    rules.iter().position(|rule| !has_days(rule))
}

// Whether the prefixes have too many bytes together.
fn are_long(rules: &[Rule]) -> bool
    ensures { result ≡ nat_lt 32768 (sum_by (λ r. length r.prefix) rules.now) }
{
    let mut room = MOST_BYTES;
    for rule in rules {
        let bytes = rule.prefix.get().len();
        if room < bytes {
            return true;
        }
        room -= bytes;
    }
    false
}

fn overlap(one: &Rule, other: &Rule) -> bool
    ensures { result ≡ overlap one.now other.now }
{
    let (one, other) = (one.prefix.get(), other.prefix.get());
    is_prefix(one.as_bytes(), other.as_bytes()) | is_prefix(other.as_bytes(), one.as_bytes())
}

// The first of the later rules with which it overlaps.
fn overlap_with(rule: &Rule, later: &[Rule]) -> Option<usize>
    ensures { result ≡ position (overlap rule.now) later.now }
{
    later.iter().position(|other| overlap(rule, other))
}

fn first_overlap(rules: &[Rule]) -> Option<(usize, usize)>
    ensures first { result ≡ first_overlap rules.now }
    ensures none { result ≡ None → IsTrue (are_apart rules.now) }
{
    for (place, rule) in rules.iter().enumerate() {
        if let Some(after) = overlap_with(rule, &rules[place + 1..]) {
            return Some((place, place + 1 + after));
        }
    }
    None
}

#[tactic(auto, using(crate::proofs::NoFault::rules_from, crate::proofs::NoFault::have_days))]
/// Whether a bucket may have these rules, or the first thing that is wrong with them. It takes no
/// memory.
pub fn rules_ok(rules: &[Rule]) -> Result<(), RuleFault>
    ensures { MatchResult result (λ _. IsTrue (are_rules rules.now)) (IsRuleFault rules.now) }
{
    if rules.len() > MOST_RULES {
        return Err(RuleFault::TooMany);
    }
    match without_days(rules) {
        Some(place) => return Err(RuleFault::Days(place)),
        None => {}
    }
    if are_long(rules) {
        return Err(RuleFault::Size);
    }
    match first_overlap(rules) {
        Some((place, other)) => Err(RuleFault::Overlap(place, other)),
        None => Ok(()),
    }
}
